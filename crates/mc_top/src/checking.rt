// A journal that is checked, and what is printed for it.

ghost use Rattle.std.specs.Prelude.{◌≡◌, ◌++◌, ◌-◌, ◌<◌, ◌^◌, [], false, length, map, All, IfErr, IfOk};
ghost use Rattle.mc_cause.specs.CauseLaws.{NoneCloses};
ghost use Rattle.mc_model.specs.Shapes.{AreAllAllowed};
ghost use Rattle.mc_net.specs.Nets.{NamesAll, batch_turns};
ghost use Rattle.mc_replay.specs.Faults.{RefusesLines};
ghost use Rattle.mc_replay.specs.Journals.{IsJournal};
ghost use Rattle.mc_replay.specs.Replays.{views_of};
ghost use Rattle.mc_replay.specs.Told.{whys_of};
ghost use Rattle.mc_table.specs.Shown.{IsNamedView, print_settle};
ghost use Rattle.mc_table.specs.Whys.{print_whys};
ghost use Rattle.mc_script_end.specs.Printed.{journal_text};
ghost use Rattle.mc_top.specs.Printed.{told_text};
ghost use Rattle.mc_top.specs.declared.checking.TailFault.TheVariants.{NoMemory};
ghost use Rattle.mc_top.specs.Shown.{printed_text, shown_text};

use crate::viewer::PathViewer;
use mc_call::TailPlace;
use mc_replay::{ReplayFault, check_lines, tell_lines};
use mc_script::{Batch, JournalText};
use mc_table::{print_settle, print_whys, put_settle};
use mc_text::Names;
use mc_view::PathView;
use mc_world::World;
use std::alloc::{AllocError, Global};

/// Why the journal after a text isn't taken.
#[derive(Drop)]
pub enum TailFault {
    At(TailPlace),
    NoMemory(AllocError),
}

impl From<AllocError> for TailFault {
    ghost from_gives = { λ e fault. fault ≡ NoMemory e };

    fn from(e: AllocError) -> Self {
        TailFault::NoMemory(e)
    }
}

/// Checks a journal, and prints the paths at each of its marks as a run does.
pub fn check_script(
    alloc: Global,
    names: &Names,
    world: World,
    batches: &[Batch],
    journal: &JournalText,
) -> Result<Vec<u8>, ReplayFault>
    requires named { NamesAll names.now world }
    requires allowed { AreAllAllowed world (map batch_turns batches.now) }
    requires few { length journal.now.lines.items < 2 ^ 32 - 1 }
    ensures journal { IfOk result (λ output.
        IsJournal world (map batch_turns batches.now) journal.now.lines.items) }
    ensures whole { IfOk result (λ output. journal.now.bad ≡ false) }
    ensures output { IfOk result (λ output.
        output.items ≡ journal_text names.now 1 world journal.now.lines.items) }
    ensures refused { IfErr result (RefusesLines world (map batch_turns batches.now)
        journal.now.lines.items journal.now.bad) }
{
    world.keeps();
    let checked = check_lines(alloc, &PathViewer, world, batches, journal)?;
    Ok(print_settles(alloc, names, &checked.views)?)
}

/// The same, and after each settle's lines why closed paths closed.
pub fn tell_script(
    alloc: Global,
    names: &Names,
    world: World,
    batches: &[Batch],
    journal: &JournalText,
) -> Result<Vec<u8>, ReplayFault>
    requires named { NamesAll names.now world }
    requires allowed { AreAllAllowed world (map batch_turns batches.now) }
    requires few { length journal.now.lines.items < 2 ^ 32 - 1 }
    requires none { NoneCloses world }
    ensures journal { IfOk result (λ output.
        IsJournal world (map batch_turns batches.now) journal.now.lines.items) }
    ensures whole { IfOk result (λ output. journal.now.bad ≡ false) }
    ensures output { IfOk result (λ output.
        output.items ≡ told_text names.now 1 world [] world journal.now.lines.items) }
    ensures refused { IfErr result (RefusesLines world (map batch_turns batches.now)
        journal.now.lines.items journal.now.bad) }
{
    world.keeps();
    let told = tell_lines(alloc, &PathViewer, world, batches, journal)?;
    Ok(print_told(alloc, names, &told.views, &told.whys)?)
}

// The settles for what is shown and told at each.
fn print_told(
    alloc: Global,
    names: &Names,
    shown: &[Vec<PathView>],
    told: &[Vec<Option<u32>>],
) -> Result<Vec<u8>, AllocError>
    requires named { All (All (IsNamedView names.now)) (views_of shown.now) }
    requires few { length shown.now < 2 ^ 32 }
    requires each { length told.now ≡ length shown.now }
    ensures { IfOk result (λ text. text.items
        ≡ printed_text names.now 1 (views_of shown.now) (whys_of told.now)) }
{
    let mut output = Vec::new(alloc);
    for index in 0..shown.len() {
        let number = (index + 1) as u32;
        let text = print_one(alloc, names, number, &shown[index], &told[index])?;
        output.extend_from_slice(&text)?;
    }
    Ok(output)
}

// A settle, and then why its closed paths closed.
fn print_one(
    alloc: Global,
    names: &Names,
    number: u32,
    views: &[PathView],
    whys: &[Option<u32>],
) -> Result<Vec<u8>, AllocError>
    requires { All (IsNamedView names.now) views.now }
    ensures { IfOk result (λ text. text.items
        ≡ print_settle names.now number views.now ++ print_whys names.now views.now whys.now) }
{
    let mut text = print_settle(alloc, names, number, views)?;
    let told = print_whys(alloc, names, views, whys)?;
    text.extend_from_slice(&told)?;
    Ok(text)
}

// The settles for what is shown at each.
fn print_settles(
    alloc: Global,
    names: &Names,
    shown: &[Vec<PathView>],
) -> Result<Vec<u8>, AllocError>
    requires named { All (All (IsNamedView names.now)) (views_of shown.now) }
    requires few { length shown.now < 2 ^ 32 }
    ensures { IfOk result (λ text. text.items ≡ shown_text names.now 1 (views_of shown.now)) }
{
    let mut output = Vec::new(alloc);
    for index in 0..shown.len() {
        let number = (index + 1) as u32;
        put_settle(alloc, names, number, &shown[index], &mut output)?;
    }
    Ok(output)
}
