// The parts of a shard.

ghost use Rattle.std.specs.Prelude.{◌≡◌, length, IfOk};
ghost use Rattle.mc_shard.specs.Shards.{AreLaid, IsShaped, first_state, shard_of};

use crate::places::SlotPlaces;
use crate::reached::Reached;
use mc_box::MediaBox;
use std::alloc::{AllocError, Global};

/// Boxes, with the places of their slots; for each channel end its box, and how far its lanes are, by what was sent and
/// taken there; for each asker the number of its last request; and the stamp of the last turn.
#[derive(Drop)]
pub struct ShardParts {
    pub boxes: Vec<MediaBox>,
    pub places: Vec<SlotPlaces>,
    pub owners: Vec<u32>,
    pub sent: Vec<Reached>,
    pub taken: Vec<Reached>,
    pub asked: Vec<u64>,
    pub stamp: u64,
}

impl ShardParts {
    /// The parts of a shard that made no turn yet.
    pub(crate) fn new(
        alloc: Global,
        boxes: Vec<MediaBox>,
        places: Vec<SlotPlaces>,
        owners: Vec<u32>,
        askers: u32,
    ) -> Result<ShardParts, AllocError>
        requires { AreLaid boxes.items places.items owners.items }
        ensures shaped { IfOk result (λ made. IsShaped (shard_of made)) }
        ensures is { IfOk result (λ made. shard_of made ≡ record {
          places = places.items;
          owners = owners.items;
          state = first_state boxes.items (length owners.items) askers;
        }) }
    {
        let none = Reached {
            count: 0,
            digest: 0,
        };
        let sent = vec![in alloc; none; owners.len()]?;
        let taken = vec![in alloc; none; owners.len()]?;
        let asked = vec![in alloc; 0; askers as usize]?;
        Ok(ShardParts {
            boxes,
            places,
            owners,
            sent,
            taken,
            asked,
            stamp: 0,
        })
    }
}
