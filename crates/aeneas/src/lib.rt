//! The program as one call: from the command's words, the files and a sink to the status.
#![tactic(auto)]

mod check_file;
mod command;
mod definition_word;
mod eval_file;
mod fuel;
mod limits;
mod printed;
mod refusal;
mod reply;
mod run_file;
mod source;
mod top;
mod translate_file;

pub use top::aeneas;
