// Why slots are closed at the marks of a journal, where it is asked for.

ghost use Rattle.std.specs.Prelude.{◌≡◌, ◌+◌, ◌<◌, ◌≤◌, ◌^◌, [], map, IfOk, IfSome, None, OnOk};
ghost use Rattle.mc_cause.specs.CauseLaws.{NoneCloses};
ghost use Rattle.mc_script.specs.Batches.{batch_turns};
ghost use Rattle.mc_script.specs.declared.command.JournalLine.TheVariants.{Turn as Made};
ghost use Rattle.mc_replay.specs.Follows.{Stands};
ghost use Rattle.mc_replay.specs.Points.{Point};
ghost use Rattle.mc_replay.specs.Replays.{Reads, StandsAt};
ghost use Rattle.mc_replay.specs.Told.{AddsWhys, HasNoted, HasTold, KeepsPace, told_of};

use crate::fault::ReplayFault;
use crate::replay::Replay;
use mc_box::Turn;
use mc_cause::Whys;
use mc_script::Batch;
use mc_world::World;
use std::alloc::{AllocError, Global};

// Why slots are closed after the turns that were made, where it is asked for, and why they were at each mark so far: of
// each slot, by its number.
#[derive(Drop)]
pub struct Telling {
    pub whys: Option<Whys>,
    pub told: Vec<Vec<Option<u32>>>,
}

// Where nothing is asked.
pub fn untold(alloc: Global) -> Telling
    ensures { result.whys ≡ None }
{
    Telling {
        whys: None,
        told: Vec::new(alloc),
    }
}

// Where no line was read.
pub fn to_tell(alloc: Global, world: &World) -> Result<Telling, AllocError>
    requires { NoneCloses world.now }
    ensures { IfOk result (HasTold world.now [] world.now) }
{
    let whys = Whys::new(alloc, world)?;
    Ok(Telling {
        whys: Some(whys),
        told: Vec::new(alloc),
    })
}

// Makes a turn, and notes it where it is asked for.
pub fn make_noted(
    batches: &[Batch],
    turn: Turn,
    replay: &mut Replay,
    whys: &mut Option<Whys>,
) -> Result<(), ReplayFault>
    requires stands { Stands replay.old.segment }
    requires few { replay.old.turns + replay.old.settled + 1 < 2 ^ 32 }
    requires retries { replay.old.segment.retries.made ≤ replay.old.turns }
    requires pace { IfSome whys.old (KeepsPace replay.old) }
    ensures reads { (point : Point) → StandsAt (map batch_turns batches.now) point replay.old
        → Reads (map batch_turns batches.now) point (Made turn) replay.old result replay.new }
    ensures notes { OnOk result (HasNoted replay.old.segment.world turn replay.new whys.old whys.new) }
{
    replay.segment.world.keeps();
    replay.make(batches, turn)?;
    if let Some(whys) = whys {
        whys.note(&replay.segment.world, turn);
    }
    Ok(())
}

// Keeps why slots are closed at a mark, where it is asked for.
pub fn tell(alloc: Global, telling: &mut Telling) -> Result<(), AllocError>
    ensures whys { telling.new.whys ≡ telling.old.whys }
    ensures told { OnOk result (AddsWhys telling.old.whys (told_of telling.old) (told_of telling.new)) }
{
    match &telling.whys {
        Some(whys) => {
            let all = whys.all(alloc)?;
            telling.told.push(all)?;
            Ok(())
        }
        None => Ok(()),
    }
}
