//! Small sources and what typing answers for them, as laws by computing (`proofs/`), made by
//! `tools/type_rows.py`.
#![tactic(auto)]
