//! Arithmetic at the edges of each type, and types: what the crates at the bottom answer.
#![tactic(auto)]

#[cfg(test)]
mod edge_values;
#[cfg(test)]
mod edges;
#[cfg(test)]
mod endless;
#[cfg(test)]
mod places;
