//! Networks that grow and shrink at settles: the definitions of joins and cuts, of channels that are out and of grown
//! runs, and their laws.
#![tactic(auto)]

pub mod laws;
