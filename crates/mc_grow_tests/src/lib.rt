//! Tests over a network that grows and shrinks: calls over channels that join it, and as many joins and cuts as a network
//! may have.
#![tactic(auto)]

#[cfg(test)]
mod calls;
#[cfg(test)]
mod changes;
#[cfg(test)]
mod fault;
#[cfg(test)]
mod many;
