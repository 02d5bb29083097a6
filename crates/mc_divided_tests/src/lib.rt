//! Tests over several machines and engines: networks that are laid out by hand, stepped by lists of turns or settled by
//! draws, and what their paths are then.
#![tactic(auto)]

#[cfg(test)]
mod equal;
#[cfg(test)]
mod fault;
#[cfg(test)]
mod networks;
#[cfg(test)]
mod parts;
#[cfg(test)]
mod plans;
#[cfg(test)]
mod programs;
#[cfg(test)]
mod segments;
#[cfg(test)]
mod settles;
#[cfg(test)]
mod steps;
#[cfg(test)]
mod teams;
