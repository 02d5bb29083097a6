//! Tests of what threads share: desks, and the counter of signals in flight.
#![tactic(auto)]

#[cfg(test)]
mod desks;
#[cfg(test)]
mod equal;
#[cfg(test)]
mod flights;
#[cfg(test)]
mod many;
#[cfg(test)]
mod tally;
#[cfg(test)]
mod two;
