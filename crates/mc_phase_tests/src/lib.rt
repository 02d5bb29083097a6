//! Tests of phases: boxes that run freely on threads of their own while operators ask them.
#![tactic(auto)]

#[cfg(test)]
mod fault;
#[cfg(test)]
mod hands;
#[cfg(test)]
mod phases;
