//! The worked examples, as tables of calls of the whole program on files in memory.
#![tactic(auto)]

#[cfg(test)]
mod checking;
#[cfg(test)]
mod evaluating;
#[cfg(test)]
mod first_path;
#[cfg(test)]
mod long_sums;
#[cfg(test)]
mod naming;
#[cfg(test)]
mod open_brackets;
#[cfg(test)]
mod primitives;
#[cfg(test)]
mod reading;
#[cfg(test)]
mod running;
#[cfg(test)]
mod source_limits;
#[cfg(test)]
mod table;
#[cfg(test)]
mod unknown_names;
#[cfg(test)]
mod worked_text;
