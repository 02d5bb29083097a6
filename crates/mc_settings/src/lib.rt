//! Laws of settings, which commands alone decide.
#![tactic(auto)]

pub mod laws;
