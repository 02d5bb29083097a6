// What a settle answers, behind turns that were made before it.

ghost use Rattle.std.specs.Prelude.{◌≡◌, ◌++◌, IfOk};
ghost use Rattle.mc_live_settle.specs.Answers.{AnswersBehind, StopsAtBoxBehind, StopsBehind};

use mc_box::Turn;
use mc_seq::{SettleFault, Stopped, StoppedBox};
use mc_world::Settled;
use std::alloc::AllocError;

/// The answer of a settle, with these turns before its own. Memory may be wanting for them.
pub fn answer_behind(
    turns: Vec<Turn>,
    answer: Result<Settled, SettleFault>,
) -> Result<Settled, SettleFault>
    ensures { AnswersBehind turns.items answer result }
{
    match answer {
        Ok(Settled { world, turns: own }) => Ok(Settled {
            world,
            turns: join(turns, own)?,
        }),
        Err(SettleFault::VersionEnd(stop)) => Err(SettleFault::VersionEnd(stop_behind(
            turns, stop,
        )?)),
        Err(SettleFault::Ring(stop)) => Err(SettleFault::Ring(stop_behind(turns, stop)?)),
        Err(SettleFault::Restless(stop)) => Err(SettleFault::Restless(box_behind(turns, stop)?)),
        Err(SettleFault::NoMemory(e)) => Err(SettleFault::NoMemory(e)),
    }
}

fn stop_behind(before: Vec<Turn>, stop: Stopped) -> Result<Stopped, AllocError>
    ensures { IfOk result (StopsBehind before.items stop) }
{
    let Stopped { at, place, turns } = stop;
    let turns = join(before, turns)?;
    Ok(Stopped { at, place, turns })
}

fn box_behind(before: Vec<Turn>, stop: StoppedBox) -> Result<StoppedBox, AllocError>
    ensures { IfOk result (StopsAtBoxBehind before.items stop) }
{
    let StoppedBox { at, turns } = stop;
    let turns = join(before, turns)?;
    Ok(StoppedBox { at, turns })
}

// Both lists, one behind the other.
fn join(mut first: Vec<Turn>, mut second: Vec<Turn>) -> Result<Vec<Turn>, AllocError>
    ensures { IfOk result (λ turns. turns.items ≡ first.items ++ second.items) }
{
    first.append(&mut second)?;
    Ok(first)
}
