//! Plans of scripts over networks that grow: what a text says in batches, and after its line `grow`, as the joins and
//! cuts before each settle and its batch.
#![tactic(auto)]

pub mod laws;
mod planning;

pub use planning::stage_plans;
