//! The grammar of sources with what its productions build.
#![tactic(auto)]

mod building;
mod copying;
mod reader;

pub use reader::SourceReader;
