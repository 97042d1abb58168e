//! Sources and their tokens: a table, and sources of a mebibyte.
#![tactic(auto)]

#[cfg(test)]
mod long_sources;
#[cfg(test)]
mod table;
