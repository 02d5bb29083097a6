//! Tests over all crates: whole calls of the program, and what they print.
#![tactic(auto)]

#[cfg(test)]
mod memory;
#[cfg(test)]
mod top;
