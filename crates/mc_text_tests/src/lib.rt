//! Tests of the crates of text whose proofs are long: what is read of texts, and what is printed.
#![tactic(auto)]

#[cfg(test)]
mod commands;
#[cfg(test)]
mod equal;
#[cfg(test)]
mod grow;
#[cfg(test)]
mod look;
#[cfg(test)]
mod net;
#[cfg(test)]
mod programs;
#[cfg(test)]
mod table;
#[cfg(test)]
mod tails;
#[cfg(test)]
mod text;
#[cfg(test)]
mod told;
#[cfg(test)]
mod written;
