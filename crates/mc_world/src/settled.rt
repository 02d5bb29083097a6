// What a settle leaves.

use crate::network::World;
use mc_box::Turn;

/// A world after a settle, and the turns that led to it.
#[derive(Debug, Drop)]
pub struct Settled {
    pub world: World,
    pub turns: Vec<Turn>,
}
