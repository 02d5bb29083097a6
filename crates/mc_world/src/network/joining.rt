// A channel that joins a world.

ghost use Rattle.std.specs.Prelude.{◌≡◌, ◌≢◌, ◌+◌, ◌<◌, ◌≤◌, ◌^◌, ◌++◌, ◌∷◌, [], true, false, length, slice_index_or, slice_set, IfOk, OnOk};
ghost use Rattle.mc_box.specs.Boxes.{no_box, with_new_slot};
ghost use Rattle.mc_growth.specs.Joins.{joined, HasRoom, MayJoin};
ghost use Rattle.mc_model.specs.Worlds.{channel_number_limit};
ghost use Rattle.mc_world.specs.Lanes.{signals_of};

use super::World;
use mc_box::{MediaBox, SlotSetup};
use mc_lane::Lane;
use mc_model::{Channel, Tunnel};
use mc_signal::{Medium, Tagged};
use std::alloc::{AllocError, Global};

impl World {
    /// A channel of one tunnel joins two boxes. Its two slots have the next numbers, the initiator's, `from`'s, first,
    /// and each comes last in its box; they are closed and are to close. All else stays, whatever is under way. It
    /// fails only for want of memory; the world is gone then.
    ///
    /// Nothing is moved, counted or looked for anew: each table gets its entries at its end, the counts of what boxes
    /// can take stay, since nothing is under way to the new slots, and where no ring was there is none. So a join costs
    /// what it adds, and now and then the growth of a table.
    pub fn join(
        self,
        alloc: Global,
        medium: Medium,
        from: u32,
        to: u32,
    ) -> Result<World, AllocError>
        requires { MayJoin self from to }
        ensures { IfOk result (λ world. world ≡ joined self medium from to) }
    {
        let mut boxes = self.boxes;
        let mut channels = self.channels;
        let mut lanes = self.lanes;
        let mut topology = self.topology;
        let mut waiting = self.waiting;
        let number = channels.len() as u32;
        let slot = topology.places.len() as u32;
        let near = (from, count_slots(&boxes[from as usize]));
        let away = (to, count_slots(&boxes[to as usize]));
        add_slots(&mut boxes, medium, from, to, slot)?;
        channels.push(one_tunnel(alloc, medium, near, away)?)?;
        add_lanes(alloc, &mut lanes)?;
        topology.join(number, near, away)?;
        add_flags(&mut waiting.flags)?;
        Ok(World {
            boxes,
            channels,
            lanes,
            topology,
            waiting,
            scratch: self.scratch,
            ringless: self.ringless,
        })
    }
}

// How many slots a box has.
fn count_slots(home: &MediaBox) -> u8
    ensures { result ≡ length home.now.slots }
{
    home.slots().len() as u8
}

// Two boxes get a slot each, of which the first is on the side of the initiator.
fn add_slots(
    boxes: &mut Vec<MediaBox>,
    medium: Medium,
    from: u32,
    to: u32,
    slot: u32,
) -> Result<(), AllocError>
    requires near { from < length boxes.old.items }
    requires away { to < length boxes.old.items }
    requires apart { from ≢ to }
    requires near_room { HasRoom (slice_index_or boxes.old.items from no_box) }
    requires away_room { HasRoom (slice_index_or boxes.old.items to no_box) }
    requires fit { slot + 2 ≤ 2 ^ 32 }
    ensures { OnOk result (boxes.new.items ≡ slice_set
        (slice_set boxes.old.items from (with_new_slot (slice_index_or boxes.old.items from no_box)
        (record { origin = slot; medium = medium; initiator = true; address = None }))) to
        (with_new_slot (slice_index_or boxes.old.items to no_box)
        (record { origin = slot + 1; medium = medium; initiator = false; address = None }))) }
{
    let near = SlotSetup {
        origin: slot,
        medium,
        initiator: true,
        address: None,
    };
    let away = SlotSetup {
        origin: slot + 1,
        medium,
        initiator: false,
        address: None,
    };
    add_slot(boxes, from, near)?;
    add_slot(boxes, to, away)
}

// A box gets a slot.
fn add_slot(boxes: &mut Vec<MediaBox>, who: u32, setup: SlotSetup) -> Result<(), AllocError>
    requires here { who < length boxes.old.items }
    requires room { HasRoom (slice_index_or boxes.old.items who no_box) }
    ensures added { OnOk result (boxes.new.items
        ≡ slice_set boxes.old.items who (with_new_slot (slice_index_or boxes.old.items who no_box) setup)) }
{
    let home = &mut boxes[who as usize];
    home.add_slot(setup)
}

// A channel of one tunnel.
fn one_tunnel(
    alloc: Global,
    medium: Medium,
    near: (u32, u8),
    away: (u32, u8),
) -> Result<Channel, AllocError>
    ensures { IfOk result (λ channel. channel ≡ record {
      from = near.0;
      to = away.0;
      tunnels = record { medium = medium; from = near.1; to = away.1 } ∷ [];
    }) }
{
    let mut tunnels = Vec::new(alloc);
    tunnels.push(Tunnel {
        medium,
        from: near.1,
        to: away.1,
    })?;
    Ok(Channel {
        from: near.0,
        to: away.0,
        tunnels,
    })
}

// Two lanes more, with nothing in them.
fn add_lanes(alloc: Global, lanes: &mut Vec<Lane<Tagged>>) -> Result<(), AllocError>
    ensures { OnOk result (signals_of lanes.new.items ≡ signals_of lanes.old.items ++ [] ∷ [] ∷ []) }
{
    lanes.push(Lane::new(alloc))?;
    lanes.push(Lane::new(alloc))?;
    Ok(())
}

// Two slots more, for which nothing waits.
fn add_flags(flags: &mut Vec<bool>) -> Result<(), AllocError>
    ensures { OnOk result (flags.new.items ≡ flags.old.items ++ false ∷ false ∷ []) }
{
    flags.push(false)?;
    flags.push(false)?;
    Ok(())
}
