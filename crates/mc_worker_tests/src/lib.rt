//! Tests of rings, and of rounds of boxes with rings between them.
#![tactic(auto)]

#[cfg(test)]
mod carrying;
#[cfg(test)]
mod equal;
#[cfg(test)]
mod phones;
#[cfg(test)]
mod refused;
#[cfg(test)]
mod rings;
#[cfg(test)]
mod rounds;
#[cfg(test)]
mod stops;
