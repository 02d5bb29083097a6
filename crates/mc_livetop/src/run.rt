// A script that is run live, settle by settle.

ghost use Rattle.std.specs.Prelude.{◌≡◌, ◌++◌, ◌<◌, ◌≤◌, All, IsTrue, length, map, IfOk, OnOk};
ghost use Rattle.mc_desk.specs.declared.limit.TheConstants.{REQUEST_LIMIT};
ghost use Rattle.mc_lines.specs.declared.limit.TheConstants.{COMMAND_LIMIT};
ghost use Rattle.mc_livetop.specs.Journals.{IsLiveJournalTo};
ghost use Rattle.mc_livetop.specs.Printed.{live_text};
ghost use Rattle.mc_livetop.specs.Words.{MayAsk};
ghost use Rattle.mc_model.specs.PathTable.{PathHolds};
ghost use Rattle.mc_model.specs.Paths.{paths};
ghost use Rattle.mc_model.specs.Settles.{is_quiet};
ghost use Rattle.mc_model.specs.Shapes.{AreAllAllowed};
ghost use Rattle.mc_net.specs.Nets.{NamesAll, batch_turns};
ghost use Rattle.mc_settle_text.specs.Paths.{settle_text};

use mc_io::Gate;
use mc_live_settle::settle_live;
use mc_path::paths;
use mc_script::Batch;
use mc_script_end::{Run, stop_by};
use mc_settle_text::keep_settle;
use mc_table::put_settle;
use mc_text::Names;
use mc_text::limit::BOX_LIMIT;
use mc_world::{Settled, World};
use std::alloc::{AllocError, Global};
use std::sync::Wait;
use std::thread::Threads;

// Appends the paths of a settle, by its number.
fn print_settle(
    alloc: Global,
    names: &Names,
    number: u32,
    world: &World,
    output: &mut Vec<u8>,
) -> Result<(), AllocError>
    requires named { NamesAll names.now world.now }
    requires quiet { IsTrue (is_quiet world.now) }
    requires holds { All (PathHolds world.now) (paths world.now) }
    ensures { OnOk result (output.new.items ≡ output.old.items ++ settle_text names.now number world.now) }
{
    world.keeps();
    let views = paths(alloc, world)?;
    put_settle(alloc, names, number, &views, output)
}

/// Runs a script live: settles its batches one after the other (`mc_live_settle::settle_live`), for each of which so
/// many operators, 1 to 8, ask for the commands while the boxes run freely, and prints the paths after each. It ends
/// before that where a batch stops, and then the line of the stop is all that it prints.
///
/// All that the world has is named; the world allows each command, and there are no more batches than a text may have
/// commands. That it returns isn't promised, as `settle_live` may wait.
pub fn run_live<R: Threads + Wait + Sync, G: Gate + Sync>(
    rt: &R,
    alloc: Global,
    gate: &G,
    operators: u32,
    names: &Names,
    world: World,
    batches: &[Batch],
) -> Result<Run, AllocError>
    requires operators { MayAsk operators }
    requires named { NamesAll names.now world }
    requires allowed { AreAllAllowed world (map batch_turns batches.now) }
    requires few { length batches.now ≤ COMMAND_LIMIT }
    requires commands { All (λ batch. length batch < REQUEST_LIMIT) (map batch_turns batches.now) }
    ensures ran { IfOk result (λ run.
        IsLiveJournalTo operators run.stop world (map batch_turns batches.now) run.journal.items) }
    ensures output { IfOk result (λ run. run.output.items ≡ live_text names.now world run.stop run.journal.items) }
{
    world.keeps();
    let boxes = names.box_count();
    prove!(boxes <= BOX_LIMIT);
    let mut now = world;
    let mut journal = Vec::new(alloc);
    let mut output = Vec::new(alloc);
    for index in 0..batches.len() {
        let number = (index + 1) as u32;
        match settle_live(rt, alloc, gate, operators, now, &batches[index].turns) {
            Ok(Settled { world: next, turns }) => {
                keep_settle(&turns, &mut journal)?;
                print_settle(alloc, names, number, &next, &mut output)?;
                now = next;
            }
            Err(fault) => return stop_by(alloc, names, journal, fault),
        }
    }
    Ok(Run {
        output,
        journal,
        stop: None,
    })
}
