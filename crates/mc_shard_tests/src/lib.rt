//! Tests of shards: a call between two of them, requests that are made once, what they refuse, their journals made again,
//! compared, merged and cut, the bytes of entries, snapshots, and what is seen before an entry stands.
#![tactic(auto)]

#[cfg(test)]
mod again;
#[cfg(test)]
mod asking;
#[cfg(test)]
mod bytes;
#[cfg(test)]
mod calls;
#[cfg(test)]
mod cuts;
#[cfg(test)]
mod equal;
#[cfg(test)]
mod fault;
#[cfg(test)]
mod merged;
#[cfg(test)]
mod phones;
#[cfg(test)]
mod refusals;
#[cfg(test)]
mod saved;
#[cfg(test)]
mod written;
