// Scripts of networks whose channels join and are cut.
ghost use Rattle.std.specs.Prelude.{◌≡◌, ◌⊎◌, ◌==◌, map, IfOk, IsTrue, Some};
ghost use Rattle.mc_call.specs.Answers.{Answers, TellsNothing};
ghost use Rattle.mc_call.specs.Calls.{Delivers, HasReadWhole};
ghost use Rattle.mc_call.specs.Reasons.{EndsFor, ExplainsDue};
ghost use Rattle.mc_io.specs.Bytes.{ConsumesAtMost};
ghost use Rattle.mc_io.specs.Faults.{faults_after};
ghost use Rattle.mc_lines.specs.Rules.{read_limit};
ghost use Rattle.mc_lines.specs.declared.tail.Tail.TheVariants.{Grow};
ghost use Rattle.mc_net.specs.Nets.{DeclaresNet, NamesAll, batch_turns};
ghost use Rattle.mc_tail.specs.Tails.{DeclaresTail};
ghost use Rattle.mc_top.specs.Growing.{EndsGrownAs, IsGrowingFaultOf, IsGrowingFaultOfTold, MayBeRun, PrintsGrownStop, RanPlans, RanStages};
ghost use Rattle.mc_top.specs.Statuses.{IsDueForGrowing, IsPastReading, grown_due_by, judges_growing};

use mc_call::status::{CHANNEL_IN_USE, NO_MEMORY, READ_FAULT, WORKED, WRITE_FAULT};
use mc_call::{Done, cut_reason, deliver, due_by, give_up, refuse_line, refuse_text, stop_reason};
use mc_explain::Reason;
use mc_grow::Grown;
use mc_grown_script::{GrownStop, ScriptRun, run_plans};
use mc_io::{Gate, Sink, Source, SourceFault, read_up_to};
use mc_net::{Detail, Net, NetFault, TEXT_LIMIT, Tail, read_net};
use mc_script::Batch;
use mc_stage_plans::laws::plans_may_happen;
use mc_stage_plans::stage_plans;
use mc_stages::laws::settles_hold;
use mc_tail::{Item, TailText, read_tail};
use mc_text::Names;
use mc_text::limit::BOX_LIMIT;
use mc_world::World;
use std::alloc::{AllocError, Global};
use std::thread::Threads;

/// Runs the script of the text that the source has left, whose channels join and are cut, and writes what it prints.
///
/// The order is: reading, the text up to its line `grow`, what stands after it, the script, writing. Nothing is written
/// before all output is built.
pub fn grow<R: Threads + Sync, S: Source, K: Sink, G: Gate + Sync>(
    rt: &R,
    alloc: Global,
    gate: &G,
    source: &mut S,
    sink: &mut K,
) -> Done
    ensures ends { EndsGrownAs (S.left source.old) (K.written sink.old) (K.written sink.new) result }
    ensures read_whole { IsTrue (judges_growing result.due)
        → HasReadWhole Grow (S.left source.old) (S.left source.new) }
    ensures at_most { ConsumesAtMost (S.left source.old) (S.left source.new) (read_limit Grow) }
    ensures read_fault { S.faults source.new ≡ faults_after (S.faults source.old) (result.due == READ_FAULT) }
    ensures answers { Answers IsDueForGrowing (IsGrowingFaultOfTold (S.left source.old))
        (K.written sink.old) (K.written sink.new) (K.faults sink.old) (K.faults sink.new) result }
{
    match read_up_to(alloc, source, TEXT_LIMIT) {
        Ok(text) => grow_text(rt, alloc, gate, &text, sink),
        Err(SourceFault::Failed) => give_up(alloc, READ_FAULT, Reason::ReadFault),
        Err(SourceFault::NoMemory(_)) => give_up(alloc, NO_MEMORY, Reason::NoMemory),
    }
}

// Runs the script of a text.
fn grow_text<R: Threads + Sync, K: Sink, G: Gate + Sync>(
    rt: &R,
    alloc: Global,
    gate: &G,
    text: &[u8],
    sink: &mut K,
) -> Done
    ensures ends { EndsGrownAs (Some text.now) (K.written sink.old) (K.written sink.new) result }
    ensures answers { Answers IsPastReading (IsGrowingFaultOf text.now)
        (K.written sink.old) (K.written sink.new) (K.faults sink.old) (K.faults sink.new) result }
{
    match read_net(alloc, text, Tail::Grow) {
        Ok(net) => grow_net(rt, alloc, gate, text, net, sink),
        Err(NetFault::Line(fault)) => refuse_text(alloc, Tail::Grow, text, fault, sink),
        Err(NetFault::NoMemory(_)) => give_up(alloc, NO_MEMORY, Reason::NoMemory),
    }
}

// Runs the script of the network that a text declares, with what stands after its line `grow`.
fn grow_net<R: Threads + Sync, K: Sink, G: Gate + Sync>(
    rt: &R,
    alloc: Global,
    gate: &G,
    text: &[u8],
    net: Net,
    sink: &mut K,
) -> Done
    requires declares { DeclaresNet Grow text.now net }
    requires named { NamesAll net.names net.world }
    ensures ends { EndsGrownAs (Some text.now) (K.written sink.old) (K.written sink.new) result }
    ensures answers { Answers IsPastReading (IsGrowingFaultOf text.now)
        (K.written sink.old) (K.written sink.new) (K.faults sink.old) (K.faults sink.new) result }
{
    match read_tail(alloc, text) {
        Ok(tail) => grow_tail(rt, alloc, gate, text, net, tail, sink),
        Err(NetFault::Line(fault)) => refuse_line(alloc, text, fault, Detail::Nothing, sink),
        Err(NetFault::NoMemory(_)) => give_up(alloc, NO_MEMORY, Reason::NoMemory),
    }
}

// Runs the script of the network that a text declares and of what stands after its line `grow`, and writes what it
// prints.
fn grow_tail<R: Threads + Sync, K: Sink, G: Gate + Sync>(
    rt: &R,
    alloc: Global,
    gate: &G,
    text: &[u8],
    net: Net,
    tail: TailText,
    sink: &mut K,
) -> Done
    requires declares { DeclaresNet Grow text.now net }
    requires named { NamesAll net.names net.world }
    requires tail { DeclaresTail text.now tail }
    ensures ends { EndsGrownAs (Some text.now) (K.written sink.old) (K.written sink.new) result }
    ensures answers { Answers IsPastReading (IsGrowingFaultOf text.now)
        (K.written sink.old) (K.written sink.new) (K.faults sink.old) (K.faults sink.new) result }
{
    net.world.keeps();
    settles_hold();
    let Ok(run) = run_planned(rt, alloc, gate, text, net, tail) else {
        return give_up(alloc, NO_MEMORY, Reason::NoMemory);
    };
    let Ok(reason) = grown_reason(alloc, &run) else {
        return give_up(alloc, NO_MEMORY, Reason::NoMemory);
    };
    deliver_grown(sink, run, reason)
}

// Plans the stages of a text, and runs them.
fn run_planned<R: Threads + Sync, G: Gate + Sync>(
    rt: &R,
    alloc: Global,
    gate: &G,
    text: &[u8],
    net: Net,
    tail: TailText,
) -> Result<ScriptRun, AllocError>
    requires declares { DeclaresNet Grow text.now net }
    requires named { NamesAll net.names net.world }
    requires tail { DeclaresTail text.now tail }
    ensures { IfOk result (RanPlans net tail) }
{
    plans_may_happen();
    let Net {
        world,
        names: first_names,
        batches,
        ..
    } = net;
    let TailText { names, items, .. } = tail;
    let boxes = first_names.box_count();
    prove!(boxes <= BOX_LIMIT);
    run_stages(rt, alloc, gate, &names, world, &batches, &items)
}

// Plans the stages that batches and items make, and runs them.
fn run_stages<R: Threads + Sync, G: Gate + Sync>(
    rt: &R,
    alloc: Global,
    gate: &G,
    names: &Names,
    world: World,
    batches: &[Batch],
    items: &[Item],
) -> Result<ScriptRun, AllocError>
    requires { MayBeRun names.now world (map batch_turns batches.now) items.now }
    ensures { IfOk result (RanStages names.now world (map batch_turns batches.now) items.now) }
{
    let network = Grown::new(alloc, world)?;
    network.keeps();
    let plans = stage_plans(alloc, batches, items)?;
    run_plans(rt, alloc, gate, names, network, &plans)
}

// Writes what a script printed.
fn deliver_grown<K: Sink>(sink: &mut K, run: ScriptRun, reason: Reason) -> Done
    ensures delivers { Delivers result.status result.due (K.written sink.old) (K.written sink.new) run.output.items }
    ensures due { result.due ≡ grown_due_by run.stop }
    ensures status { (result.status ≡ grown_due_by run.stop) ⊎ (result.status ≡ WRITE_FAULT) }
    ensures journal { result.journal ≡ run.journal }
    ensures reason { EndsFor reason result.due result }
    ensures fault { K.faults sink.new ≡ faults_after (K.faults sink.old) (result.status == WRITE_FAULT) }
{
    let due = grown_due_by(run.stop);
    let ScriptRun {
        output,
        journal,
        ..
    } = run;
    deliver(sink, due, &output, journal, reason)
}

// What is to be told of a script that stopped at a settle or at a cut, or came to its end.
fn grown_reason(alloc: Global, run: &ScriptRun) -> Result<Reason, AllocError>
    requires { PrintsGrownStop run.now.stop run.now.output.items }
    ensures { IfOk result (λ reason.
        ExplainsDue TellsNothing reason (grown_due_by run.now.stop) run.now.output.items run.now.journal.items) }
{
    match run.stop {
        None => stop_reason(alloc, None, &run.output, &run.journal),
        Some(GrownStop::Settle(stop)) => stop_reason(alloc, Some(stop), &run.output, &run.journal),
        Some(GrownStop::Cut(_)) => cut_reason(alloc, &run.output, &run.journal),
    }
}

// The status that is due for a script that stopped so, or came to its end.
fn grown_due_by(stop: Option<GrownStop>) -> u8
    ensures { result ≡ grown_due_by stop }
{
    match stop {
        None => WORKED,
        Some(GrownStop::Settle(stop)) => due_by(Some(stop)),
        Some(GrownStop::Cut(_)) => CHANNEL_IN_USE,
    }
}
