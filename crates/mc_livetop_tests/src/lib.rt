//! Tests of live runs: whole calls over sources and sinks in memory, and live settles of networks that are laid out by
//! hand.
#![tactic(auto)]

#[cfg(test)]
mod asking;
#[cfg(test)]
mod calls;
#[cfg(test)]
mod fault;
#[cfg(test)]
mod left;
#[cfg(test)]
mod many;
#[cfg(test)]
mod phones;
#[cfg(test)]
mod stops;
#[cfg(test)]
mod top;
