// A script, settle by settle.
ghost use Rattle.std.specs.Prelude.{◌≡◌, ◌++◌, ◌<◌, ◌≤◌, All, IsTrue, length, map, None, IfOk, OnOk};
ghost use Rattle.mc_model.specs.Paths.{paths};
ghost use Rattle.mc_model.specs.Settles.{is_quiet};
ghost use Rattle.mc_model.specs.Shapes.{AreAllAllowed, AreAllowed};
ghost use Rattle.mc_net.specs.Nets.{NamesAll, batch_turns};
ghost use Rattle.mc_lines.specs.declared.limit.TheConstants.{COMMAND_LIMIT};
ghost use Rattle.mc_path.specs.Views.{view_of};
ghost use Rattle.mc_top.specs.Drawn.{FollowsDraws, draws_state};
ghost use Rattle.mc_replay.specs.Journals.{HoldsAtSettles};
ghost use Rattle.mc_replay.specs.Segments.{EachKeepsShiftLimit};
ghost use Rattle.mc_script_end.specs.Journals.{IsJournalTo, ShowsCause};
ghost use Rattle.mc_top.specs.Outcomes.{CameOf};
ghost use Rattle.mc_top.specs.Printed.{script_text};
ghost use Rattle.mc_top.specs.Scripts.{first_state, network_draws, network_world};
ghost use Rattle.mc_top.specs.Shown.{HasNamedBox, print_report};

use crate::report::{Report, print_opening, put_report};
use crate::script_network::ScriptNetwork;
use mc_box::Turn;
use mc_io::Gate;
use mc_script::{Batch, JournalLine};
use mc_script_end::{Run, stop_by};
use mc_settle_text::keep_settle;
use mc_text::limit::BOX_LIMIT;
use mc_text::{Draws, Names};
use mc_world::World;
use std::alloc::{AllocError, Global};
use std::marker::Model;
use std::thread::Threads;

// A script while it runs: its network, with its draws, if it has some, and what was kept and printed so far.
#[derive(Drop)]
struct Progress {
    network: ScriptNetwork,
    journal: Vec<JournalLine>,
    output: Vec<u8>,
}

// What came of a batch: it was settled, or the script stopped.
#[derive(Drop)]
enum Outcome {
    Settled(Progress),
    Stopped(Run),
}

impl Model for Progress {
    ghost use Rattle.mc_top.specs.Scripts.{ScriptState, network_draws, network_world};

    ghost Value = { ScriptState };

    ghost view = { λ p. record {
      world = network_world p.network;
      draws = network_draws p.network;
      journal = p.journal.items;
      output = p.output.items;
    } };
}

impl Progress {
    fn new(alloc: Global, network: ScriptNetwork, opening: Vec<u8>) -> Progress
        ensures { result ≡ first_state (network_world network) (network_draws network) opening.items }
    {
        Progress {
            network,
            journal: Vec::new(alloc),
            output: opening,
        }
    }

    // A batch is settled, and what is to be reported is printed under the settle's number; or it stops.
    fn settle<R: Threads + Sync, G: Gate + Sync>(
        self,
        rt: &R,
        alloc: Global,
        gate: &G,
        report: Report,
        names: &Names,
        number: u32,
        batch: &[Turn],
    ) -> Result<Outcome, AllocError>
        requires allowed { AreAllowed self.world batch.now }
        requires named { NamesAll names.now self.world }
        requires who { HasNamedBox names.now report }
        ensures { IfOk result (λ outcome. CameOf report names.now number batch.now self outcome) }
    {
        let Progress {
            network,
            mut journal,
            mut output,
        } = self;
        network.keeps();
        match network.settle(rt, alloc, gate, batch) {
            Ok((network, turns)) => {
                keep_settle(&turns, &mut journal)?;
                print_settle(alloc, report, names, number, &network, &mut output)?;
                Ok(Outcome::Settled(Progress {
                    network,
                    journal,
                    output,
                }))
            }
            Err(fault) => {
                let run = stop_by(alloc, names, journal, fault)?;
                Ok(Outcome::Stopped(run))
            }
        }
    }
}

// Prints what is to be reported of a settle.
fn print_settle(
    alloc: Global,
    report: Report,
    names: &Names,
    number: u32,
    network: &ScriptNetwork,
    output: &mut Vec<u8>,
) -> Result<(), AllocError>
    requires named { NamesAll names.now (network_world network.now) }
    requires who { HasNamedBox names.now report }
    requires quiet { IsTrue (is_quiet (network_world network.now)) }
    ensures { OnOk result (output.new.items ≡ output.old.items ++ print_report report names.now number
        (map (view_of (network_world network.now)) (paths (network_world network.now)))) }
{
    network.keeps();
    let views = network.views(alloc)?;
    put_report(alloc, report, names, number, &views, output)
}

/// Runs a script: settles its batches one after the other, and prints what is to be reported after each. It ends before
/// that where a batch stops, and then the line of the stop is all that it prints. Where there are draws it settles by
/// these, which go on from settle to settle, and else with the boxes' turns in any order.
///
/// All that the world has is named, and so is the box of a conference; the world allows each command, and there are no more batches than a text may have
/// commands.
pub fn run_script<R: Threads + Sync, G: Gate + Sync>(
    rt: &R,
    alloc: Global,
    gate: &G,
    report: Report,
    names: &Names,
    world: World,
    draws: Option<Draws>,
    batches: &[Batch],
) -> Result<Run, AllocError>
    requires named { NamesAll names.now world }
    requires who { HasNamedBox names.now report }
    requires allowed { AreAllAllowed world (map batch_turns batches.now) }
    requires few { length batches.now ≤ COMMAND_LIMIT }
    ensures ran { IfOk result (λ run. IsJournalTo run.stop world (map batch_turns batches.now) run.journal.items) }
    ensures drawn { IfOk result (λ run.
        FollowsDraws (draws_state draws) run.stop world (map batch_turns batches.now) run.journal.items) }
    ensures shift_limit { IfOk result (λ run. EachKeepsShiftLimit run.journal.items) }
    ensures holds { IfOk result (λ run. HoldsAtSettles world run.journal.items) }
    ensures shows { IfOk result (λ run. ShowsCause run.stop world (map batch_turns batches.now)) }
    ensures output { IfOk result (λ run. run.output.items
        ≡ script_text report names.now world run.stop run.journal.items) }
{
    world.keeps();
    let boxes = names.box_count();
    prove!(boxes <= BOX_LIMIT);
    let opening = print_opening(alloc, report, &world)?;
    let network = ScriptNetwork::new(rt, alloc, world, draws)?;
    let mut progress = Progress::new(alloc, network, opening);
    for index in 0..batches.len() {
        let batch = &batches[index];
        let number = (index + 1) as u32;
        match progress.settle(rt, alloc, gate, report, names, number, &batch.turns)? {
            Outcome::Settled(next) => progress = next,
            Outcome::Stopped(run) => return Ok(run),
        }
    }
    Ok(Run {
        output: progress.output,
        journal: progress.journal,
        stop: None,
    })
}
