//! Laws of shards: their journals, in any prefixes in which each take has its sending, are one run.
#![tactic(auto)]

pub mod laws;
