// Journals, checked line by line.

ghost use Rattle.std.specs.Prelude.{◌≡◌, ◌+◌, ◌-◌, ◌<◌, ◌≤◌, ◌^◌, Bool, [], false, length, map, IfErr, IfOk, IfSome, IsTrue, OnOk};
ghost use Rattle.mc_cause.specs.CauseLaws.{NoneCloses};
ghost use Rattle.mc_model.specs.Settles.{is_quiet};
ghost use Rattle.mc_model.specs.Shapes.{AreAllAllowed};
ghost use Rattle.mc_script.specs.declared.command.JournalLine.TheVariants.{Settled};
ghost use Rattle.mc_script.specs.Batches.{batch_turns};
ghost use Rattle.mc_replay.specs.Faults.{RefusesJournal, RefusesLines};
ghost use Rattle.mc_replay.specs.Follows.{Stands};
ghost use Rattle.mc_replay.specs.Journals.{AreShown, IsJournal};
ghost use Rattle.mc_replay.specs.Points.{Point};
ghost use Rattle.mc_replay.specs.Replays.{AddsShown, HasReplayed, IsFresh, Reads, StandsAt, views_of};
ghost use Rattle.mc_replay.specs.Told.{AreTold, HasTold, KeepsPace, TellsLine, told_of, whys_of};

use crate::fault::{CheckFault, ReplayFault};
use crate::replay::Replay;
use crate::telling::{Telling, make_noted, tell, to_tell, untold};
use crate::viewer::Viewer;
use mc_script::{Batch, JournalLine, JournalText};
use mc_view::PathView;
use mc_world::World;
use std::alloc::{AllocError, Global};

/// What a journal shows: the views at each of its marks, in order.
#[derive(Debug, Drop)]
pub struct Checked {
    pub views: Vec<Vec<PathView>>,
}

/// What a journal shows, and tells: at each of its marks, in order, the views, and of each slot, by its number, why it
/// is closed.
#[derive(Debug, Drop)]
pub struct Told {
    pub views: Vec<Vec<PathView>>,
    pub whys: Vec<Vec<Option<u32>>>,
}

/// Checks that a journal is one of these batches, from a world that allows their commands: each line in its turn, and
/// then the end. Each turn is made again, and at each mark what the viewer shows of the world is kept.
///
/// A turn takes no longer in a larger network.
pub fn check<V: Viewer>(
    alloc: Global,
    viewer: &V,
    world: World,
    batches: &[Batch],
    text: &JournalText,
) -> Result<Checked, CheckFault>
    requires allowed { AreAllAllowed world (map batch_turns batches.now) }
    requires few { length text.now.lines.items < 2 ^ 32 - 1 }
    ensures journal { IfOk result (λ checked. IsJournal world (map batch_turns batches.now) text.now.lines.items) }
    ensures whole { IfOk result (λ checked. text.now.bad ≡ false) }
    ensures shown { IfOk result (λ checked.
        AreShown (V.shows viewer.now) world text.now.lines.items (views_of checked.views.items)) }
    ensures count { IfOk result (λ checked. length checked.views.items ≡ length batches.now) }
    ensures refused { IfErr result (RefusesJournal world (map batch_turns batches.now)
        text.now.lines.items text.now.bad) }
{
    match check_lines(alloc, viewer, world, batches, text) {
        Ok(checked) => Ok(checked),
        Err(ReplayFault::At(fault)) => Err(CheckFault::At {
            number: fault.number,
            turn: fault.turn,
        }),
        Err(ReplayFault::NoMemory(e)) => Err(CheckFault::NoMemory(e)),
    }
}

/// As `check` does, and tells how many lines stand before a fault.
pub fn check_lines<V: Viewer>(
    alloc: Global,
    viewer: &V,
    world: World,
    batches: &[Batch],
    text: &JournalText,
) -> Result<Checked, ReplayFault>
    requires allowed { AreAllAllowed world (map batch_turns batches.now) }
    requires few { length text.now.lines.items < 2 ^ 32 - 1 }
    ensures journal { IfOk result (λ checked. IsJournal world (map batch_turns batches.now) text.now.lines.items) }
    ensures whole { IfOk result (λ checked. text.now.bad ≡ false) }
    ensures shown { IfOk result (λ checked.
        AreShown (V.shows viewer.now) world text.now.lines.items (views_of checked.views.items)) }
    ensures count { IfOk result (λ checked. length checked.views.items ≡ length batches.now) }
    ensures refused { IfErr result (RefusesLines world (map batch_turns batches.now)
        text.now.lines.items text.now.bad) }
{
    let mut telling = untold(alloc);
    let mut replay = Replay::new(alloc, world, batches)?;
    let checked = read_text(alloc, viewer, batches, text, &mut replay, &mut telling);
    discard(replay);
    checked
}

/// As `check_lines` does, and tells at each mark why slots are closed. No slot of the world waits for a closeack.
pub fn tell_lines<V: Viewer>(
    alloc: Global,
    viewer: &V,
    world: World,
    batches: &[Batch],
    text: &JournalText,
) -> Result<Told, ReplayFault>
    requires allowed { AreAllAllowed world (map batch_turns batches.now) }
    requires few { length text.now.lines.items < 2 ^ 32 - 1 }
    requires none { NoneCloses world }
    ensures journal { IfOk result (λ told. IsJournal world (map batch_turns batches.now) text.now.lines.items) }
    ensures whole { IfOk result (λ told. text.now.bad ≡ false) }
    ensures shown { IfOk result (λ told.
        AreShown (V.shows viewer.now) world text.now.lines.items (views_of told.views.items)) }
    ensures told { IfOk result (λ told. AreTold world [] text.now.lines.items (whys_of told.whys.items)) }
    ensures refused { IfErr result (RefusesLines world (map batch_turns batches.now)
        text.now.lines.items text.now.bad) }
{
    let mut telling = to_tell(alloc, &world)?;
    let mut replay = Replay::new(alloc, world, batches)?;
    let checked = read_text(alloc, viewer, batches, text, &mut replay, &mut telling);
    discard(replay);
    let views = checked?.views;
    Ok(Told {
        views,
        whys: telling.told,
    })
}

// Drops a replay, which would be dear to prove beside what was read. By `drop` each type within would be proved, too.
fn discard(_replay: Replay) {}

// Reads a whole journal, and answers what is shown at its marks. The replay isn't dropped here, which would be dear to
// prove at each return.
fn read_text<V: Viewer>(
    alloc: Global,
    viewer: &V,
    batches: &[Batch],
    text: &JournalText,
    replay: &mut Replay,
    telling: &mut Telling,
) -> Result<Checked, ReplayFault>
    requires fresh { IsFresh replay.old.segment.world (map batch_turns batches.now) replay.old }
    requires pace { IfSome telling.old.whys (KeepsPace replay.old) }
    requires few { length text.now.lines.items < 2 ^ 32 - 1 }
    ensures journal { IfOk result (λ checked. IsJournal replay.old.segment.world (map batch_turns batches.now)
        text.now.lines.items) }
    ensures whole { IfOk result (λ checked. text.now.bad ≡ false) }
    ensures shown { IfOk result (λ checked. AreShown (V.shows viewer.now) replay.old.segment.world
        text.now.lines.items (views_of checked.views.items)) }
    ensures count { IfOk result (λ checked. length checked.views.items ≡ length batches.now) }
    ensures told { OnOk result (HasTold replay.old.segment.world [] replay.old.segment.world telling.old
        → AreTold replay.old.segment.world [] text.now.lines.items (told_of telling.new)) }
    ensures refused { IfErr result (RefusesLines replay.old.segment.world (map batch_turns batches.now)
        text.now.lines.items text.now.bad) }
{
    let mut views = Vec::new(alloc);
    read_lines(
        alloc,
        viewer,
        batches,
        &text.lines,
        replay,
        &mut views,
        telling,
    )?;
    replay.end(batches, text.bad)?;
    Ok(Checked { views })
}

// Reads the lines of a journal, and keeps what is shown at its marks.
fn read_lines<V: Viewer>(
    alloc: Global,
    viewer: &V,
    batches: &[Batch],
    lines: &[JournalLine],
    replay: &mut Replay,
    views: &mut Vec<Vec<PathView>>,
    telling: &mut Telling,
) -> Result<(), ReplayFault>
    requires fresh { IsFresh replay.old.segment.world (map batch_turns batches.now) replay.old }
    requires pace { IfSome telling.old.whys (KeepsPace replay.old) }
    requires none { views.old.items ≡ [] }
    requires few { length lines.now < 2 ^ 32 - 1 }
    ensures read { OnOk result (HasReplayed (V.shows viewer.now) replay.old.segment.world (map batch_turns batches.now)
        lines.now replay.new (views_of views.new.items)) }
    ensures told { OnOk result (HasTold replay.old.segment.world [] replay.old.segment.world telling.old
        → HasTold replay.old.segment.world lines.now replay.new.segment.world telling.new) }
    ensures refused { IfErr result (λ fault. (bad : Bool) → RefusesLines replay.old.segment.world
        (map batch_turns batches.now) lines.now bad fault) }
{
    for line in lines {
        read_line(alloc, viewer, batches, *line, replay, views, telling)?;
    }
    Ok(())
}

// Reads a line.
fn read_line<V: Viewer>(
    alloc: Global,
    viewer: &V,
    batches: &[Batch],
    line: JournalLine,
    replay: &mut Replay,
    views: &mut Vec<Vec<PathView>>,
    telling: &mut Telling,
) -> Result<(), ReplayFault>
    requires stands { Stands replay.old.segment }
    requires few { replay.old.turns + replay.old.settled + 1 < 2 ^ 32 }
    requires retries { replay.old.segment.retries.made ≤ replay.old.turns }
    requires allowed { AreAllAllowed replay.old.segment.world (map batch_turns batches.now) }
    requires pace { IfSome telling.old.whys (KeepsPace replay.old) }
    ensures reads { (point : Point) → StandsAt (map batch_turns batches.now) point replay.old
        → Reads (map batch_turns batches.now) point line replay.old result replay.new }
    ensures shown { OnOk result (AddsShown (V.shows viewer.now) replay.new.segment.world line
        (views_of views.old.items) (views_of views.new.items)) }
    ensures told { OnOk result (TellsLine replay.old.segment.world line replay.new telling.old telling.new) }
{
    match line {
        JournalLine::Turn(turn) => make_noted(batches, turn, replay, &mut telling.whys),
        JournalLine::Settled => {
            replay.settle(alloc, batches)?;
            show(alloc, viewer, &replay.segment.world, views)?;
            tell(alloc, telling)?;
            Ok(())
        }
    }
}

// Keeps what is shown of a world at a mark.
fn show<V: Viewer>(
    alloc: Global,
    viewer: &V,
    world: &World,
    views: &mut Vec<Vec<PathView>>,
) -> Result<(), AllocError>
    requires { IsTrue (is_quiet world.now) }
    ensures { OnOk result (AddsShown (V.shows viewer.now) world.now Settled
        (views_of views.old.items) (views_of views.new.items)) }
{
    let shown = viewer.views(alloc, world)?;
    views.push(shown)?;
    Ok(())
}
