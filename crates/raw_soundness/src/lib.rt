//! What is read of lexemes as a text, a type or an atom stands for definitions, types and terms that
//! these lexemes spell (docs/TEXT.md, "Reading"). Lemmas of `specs/`, which the reader cites.
#![tactic(auto)]
