//! Laws of the texts of scenes and of drawn chains: they are in the grammar, and each batch of their commands comes to
//! rest.
#![tactic(auto)]

pub mod laws;
