// An operator of a network.

use mc_desk::Operator;

/// An operator of a network: its number, from 0, the right to ask at the desk of each box, and how often it has asked, as
/// far as numbers go.
#[derive(Drop)]
pub struct Asker {
    pub number: u32,
    pub passes: Vec<Operator>,
    pub asks: u32,
}
