//! Each text of well-formed definitions is read: its lexemes as a text as it is spelled that stands for
//! the definitions and breaks no rule (docs/TEXT.md, "Reading"). Lemmas of `specs/`, for the reader.
#![tactic(auto)]
