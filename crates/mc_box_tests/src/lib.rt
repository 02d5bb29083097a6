//! Tests of single boxes, of what they are made of, and of sums: worked events, and what each sends.
#![tactic(auto)]

#[cfg(test)]
mod boxes;
#[cfg(test)]
mod ends;
#[cfg(test)]
mod equal;
#[cfg(test)]
mod lanes;
#[cfg(test)]
mod links;
#[cfg(test)]
mod signals;
#[cfg(test)]
mod sums;
