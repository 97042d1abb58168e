//! Worked examples of printed texts, by calls of the crates that read, print and evaluate them.
#![tactic(auto)]

#[cfg(test)]
mod deep_values;
#[cfg(test)]
mod grammar;
#[cfg(test)]
mod lemmas;
#[cfg(test)]
mod raw_texts;
#[cfg(test)]
mod round_trips;
#[cfg(test)]
mod values;
