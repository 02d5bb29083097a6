// The retries that are owed, one after another.

ghost use Rattle.std.specs.Prelude.{◌≡◌, ◌<◌, length, OnOk};
ghost use Rattle.mc_model.specs.Paths.{has_ring};
ghost use Rattle.mc_model.specs.Worlds.{box_at};
ghost use Rattle.mc_seq.specs.Retries.{OthersOwe, owed_retry, retries_by_box, retries_of};
ghost use Rattle.mc_seq.specs.Turns.{MadeAll};

use crate::turns::make;
use mc_box::{Event, Turn};
use mc_world::Settled;
use std::alloc::AllocError;

// Makes the retry of a slot, if it owes one.
fn retry(settled: &mut Settled, who: u32, local: u8) -> Result<(), AllocError>
    requires here { who < length settled.old.world.boxes }
    requires inside { local < length (box_at settled.old.world who).slots }
    ensures { OnOk result (MadeAll settled.old settled.new (owed_retry settled.old.world who local)) }
{
    settled.world.keeps();
    let event = Event::Retry(local);
    if !settled.world.boxes()[who as usize].enabled(&event) {
        return Ok(());
    }
    make(settled, Turn { who, event })
}

// Makes each retry that the slots of a box owe at the beginning, in rising order.
fn retry_box(settled: &mut Settled, who: u32) -> Result<(), AllocError>
    requires { who < length settled.old.world.boxes }
    ensures made { OnOk result (MadeAll settled.old settled.new (retries_of settled.old.world who)) }
    ensures others { OnOk result (OthersOwe settled.old.world settled.new.world who) }
{
    settled.world.keeps();
    let slots = settled.world.boxes()[who as usize].slots().len();
    for local in 0..slots {
        retry(settled, who, local as u8)?;
    }
    Ok(())
}

/// Makes each retry that is owed at the beginning, by box and local slot in rising order.
///
/// It fails only for want of memory. Some of the retries may have been made and written down then.
pub fn retry_by_box(settled: &mut Settled) -> Result<(), AllocError>
    ensures rings { OnOk result (has_ring settled.new.world ≡ has_ring settled.old.world) }
    ensures made { OnOk result (MadeAll settled.old settled.new (retries_by_box settled.old.world)) }
{
    settled.world.keeps();
    let boxes = settled.world.boxes().len();
    for who in 0..boxes {
        retry_box(settled, who as u32)?;
    }
    Ok(())
}
