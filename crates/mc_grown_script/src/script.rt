// A script, stage by stage.

ghost use Rattle.std.specs.Prelude.{◌≡◌, ◌<◌, ◌≤◌, ◌^◌, length, IfOk};
ghost use Rattle.mc_growth.specs.Growths.{grown_by_all};
ghost use Rattle.mc_stages.specs.Plans.{AreLawful, MayAskAll, MayCommand, NamesEnough, batch_of, grown_at_end, growths_of};
ghost use Rattle.mc_grown_script.specs.Progress.{CameOf, CameOfBatch, EndsAt, EndsByFault};
ghost use Rattle.mc_settle_text.specs.Names.{IsNamedFault};
ghost use Rattle.mc_grown_script.specs.Scripts.{first_state};
ghost use Rattle.mc_grown_script.specs.ScriptRuns.{EndsAs};
ghost use Rattle.mc_divided.specs.declared.limit.TheConstants.{NETWORK_LIMIT};

use crate::printing::{put_network, stop_word};
use crate::settling::settle_grown;
use crate::stop::{GrownStop, ScriptRun};
use mc_box::Turn;
use mc_grow::Grown;
use mc_io::Gate;
use mc_script::JournalLine;
use mc_seq::{SettleFault, SettleStop};
use mc_settle_text::{keep_settle, keep_turns, print_box_stop, print_slot_stop};
use mc_stages::{GrowthFault, StagePlan, grow_all};
use mc_text::Names;
use std::alloc::{AllocError, Global};
use std::marker::Model;
use std::thread::Threads;

// A script while it runs: its network, and what was kept and printed so far.
#[derive(Drop)]
struct StageProgress {
    network: Grown,
    journal: Vec<JournalLine>,
    output: Vec<u8>,
}

// What came of a stage: it was settled, or the script stopped.
#[derive(Drop)]
enum StageOutcome {
    Settled(StageProgress),
    Stopped(ScriptRun),
}

impl Model for StageProgress {
    ghost use Rattle.mc_grown_script.specs.Scripts.{ScriptState};

    ghost Value = { ScriptState };

    ghost view = { λ p. record {
      network = p.network;
      journal = p.journal.items;
      output = p.output.items;
    } };
}

impl StageProgress {
    fn new(alloc: Global, network: Grown) -> StageProgress
        ensures { result ≡ first_state network }
    {
        StageProgress {
            network,
            journal: Vec::new(alloc),
            output: Vec::new(alloc),
        }
    }

    // A stage is run, and its settle is printed under its number; or it stops.
    fn run_plan<R: Threads + Sync, G: Gate + Sync>(
        self,
        rt: &R,
        alloc: Global,
        gate: &G,
        names: &Names,
        number: u32,
        plan: &StagePlan,
    ) -> Result<StageOutcome, AllocError>
        requires asks { MayAskAll self.network (growths_of plan.now) }
        requires commands { MayCommand (grown_by_all self.network (growths_of plan.now)) (batch_of plan.now) }
        requires named { NamesEnough names.now (grown_by_all self.network (growths_of plan.now)).world }
        requires few { length self.network.world.boxes ≤ NETWORK_LIMIT }
        ensures { IfOk result (λ outcome. CameOf names.now number plan.now self outcome) }
    {
        let StageProgress {
            network,
            journal,
            output,
        } = self;
        network.keeps();
        network.world().keeps();
        match grow_all(alloc, network, &plan.growths) {
            Ok(network) => {
                network.keeps();
                network.world().keeps();
                let grown = StageProgress {
                    network,
                    journal,
                    output,
                };
                grown.settle(rt, alloc, gate, names, number, &plan.batch)
            }
            Err(GrowthFault::InUse(used)) => {
                let stop = GrownStop::Cut(used.at);
                let line = print_slot_stop(alloc, names, stop_word(stop), used.place)?;
                let run = end_at(stop, &[], line, journal)?;
                Ok(StageOutcome::Stopped(run))
            }
            Err(GrowthFault::NoMemory(e)) => Err(e),
        }
    }

    // A batch of the network is settled, and that is printed under the settle's number; or it stops.
    fn settle<R: Threads + Sync, G: Gate + Sync>(
        self,
        rt: &R,
        alloc: Global,
        gate: &G,
        names: &Names,
        number: u32,
        batch: &[Turn],
    ) -> Result<StageOutcome, AllocError>
        requires commands { MayCommand self.network batch.now }
        requires named { NamesEnough names.now self.network.world }
        requires few { length self.network.world.boxes ≤ NETWORK_LIMIT }
        ensures { IfOk result (λ outcome. CameOfBatch names.now number batch.now self outcome) }
    {
        let StageProgress {
            network,
            mut journal,
            mut output,
        } = self;
        network.keeps();
        network.world().keeps();
        match settle_grown(rt, alloc, gate, network, batch) {
            Ok((network, turns)) => {
                keep_settle(&turns, &mut journal)?;
                put_network(alloc, names, number, &network, &mut output)?;
                Ok(StageOutcome::Settled(StageProgress {
                    network,
                    journal,
                    output,
                }))
            }
            Err(fault) => {
                let run = stop_by(alloc, names, journal, fault)?;
                Ok(StageOutcome::Stopped(run))
            }
        }
    }
}

// A script whose settle had a fault: the turns up to there are kept, and one line is printed.
fn stop_by(
    alloc: Global,
    names: &Names,
    journal: Vec<JournalLine>,
    fault: SettleFault,
) -> Result<ScriptRun, AllocError>
    requires { IsNamedFault names.now fault }
    ensures { IfOk result (λ run. EndsByFault names.now journal.items fault run) }
{
    match fault {
        SettleFault::VersionEnd(stopped) => {
            let stop = GrownStop::Settle(SettleStop::VersionEnd(stopped.at));
            let line = print_slot_stop(alloc, names, stop_word(stop), stopped.place)?;
            end_at(stop, &stopped.turns, line, journal)
        }
        SettleFault::Ring(stopped) => {
            let stop = GrownStop::Settle(SettleStop::Ring(stopped.at));
            let line = print_slot_stop(alloc, names, stop_word(stop), stopped.place)?;
            end_at(stop, &stopped.turns, line, journal)
        }
        SettleFault::Restless(stopped) => {
            let stop = GrownStop::Settle(SettleStop::Restless(stopped.at));
            let line = print_box_stop(alloc, names, stop_word(stop), stopped.at)?;
            end_at(stop, &stopped.turns, line, journal)
        }
        SettleFault::NoMemory(e) => Err(e),
    }
}

// Ends a script at a stop, after these turns, with this line.
fn end_at(
    stop: GrownStop,
    turns: &[Turn],
    line: Vec<u8>,
    mut journal: Vec<JournalLine>,
) -> Result<ScriptRun, AllocError>
    ensures { IfOk result (EndsAt stop line.items turns.now journal.items) }
{
    keep_turns(turns, &mut journal)?;
    Ok(ScriptRun {
        output: line,
        journal,
        stop: Some(stop),
    })
}

/// Runs a script: before each settle its joins and cuts are made, then its batch is settled, and the paths of the
/// network are printed. It ends before that at a cut of a channel that is in use, and where a batch stops; then the line
/// of the stop is all that it prints. The boxes take turns in any order.
///
/// The plans may be asked for one after another, of a network of at most `mc_divided::limit::NETWORK_LIMIT` boxes; all
/// that will ever be in it has names.
pub fn run_plans<R: Threads + Sync, G: Gate + Sync>(
    rt: &R,
    alloc: Global,
    gate: &G,
    names: &Names,
    network: Grown,
    plans: &[StagePlan],
) -> Result<ScriptRun, AllocError>
    requires lawful { AreLawful network plans.now }
    requires named { NamesEnough names.now (grown_at_end network plans.now).world }
    requires few_boxes { length network.world.boxes ≤ NETWORK_LIMIT }
    requires few { length plans.now < 2 ^ 32 }
    ensures { IfOk result (EndsAs names.now network plans.now) }
{
    network.keeps();
    network.world().keeps();
    let mut progress = StageProgress::new(alloc, network);
    for index in 0..plans.len() {
        let plan = &plans[index];
        let number = (index + 1) as u32;
        match progress.run_plan(rt, alloc, gate, names, number, plan)? {
            StageOutcome::Settled(next) => progress = next,
            StageOutcome::Stopped(run) => return Ok(run),
        }
    }
    Ok(ScriptRun {
        output: progress.output,
        journal: progress.journal,
        stop: None,
    })
}
