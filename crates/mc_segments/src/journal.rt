// Turns and their ends as a journal.

ghost use Rattle.std.specs.Prelude.{◌≡◌, ◌++◌, IfOk, OnOk, map};
ghost use Rattle.mc_replay.specs.Journals.{lines_for};
ghost use Rattle.mc_script.specs.Batches.{batch_turns};
ghost use Rattle.mc_segments.specs.Ends.{commands_in, turns_between};
ghost use Rattle.mc_segments.specs.Lines.{settled_batches, settled_lines};

use mc_box::Turn;
use mc_script::{Batch, JournalLine};
use mc_seq::is_command;
use std::alloc::{AllocError, Global};

/// The lines of the settles that end at these places: the turns of each, and then a mark. Turns after the last place
/// have no line.
pub fn settled_lines(
    alloc: Global,
    turns: &[Turn],
    ends: &[usize],
) -> Result<Vec<JournalLine>, AllocError>
    ensures { IfOk result (λ lines. lines.items ≡ settled_lines turns.now 0 ends.now) }
{
    let mut lines = Vec::new(alloc);
    let mut from = 0;
    for place in ends {
        add_lines(&mut lines, turns_between(turns, from, *place))?;
        from = *place;
    }
    Ok(lines)
}

/// The commands of each of these settles, as batches.
pub fn settled_batches(
    alloc: Global,
    turns: &[Turn],
    ends: &[usize],
) -> Result<Vec<Batch>, AllocError>
    ensures { IfOk result (λ batches. map batch_turns batches.items ≡ settled_batches turns.now 0 ends.now) }
{
    let mut batches = Vec::new(alloc);
    let mut from = 0;
    for place in ends {
        let turns = commands_in(alloc, turns_between(turns, from, *place))?;
        batches.push(Batch { turns })?;
        from = *place;
    }
    Ok(batches)
}

// The turns of a settle, and its mark, come to the end.
fn add_lines(lines: &mut Vec<JournalLine>, turns: &[Turn]) -> Result<(), AllocError>
    ensures { OnOk result (lines.new.items ≡ lines.old.items ++ lines_for turns.now) }
{
    for turn in turns {
        lines.push(JournalLine::Turn(*turn))?;
    }
    lines.push(JournalLine::Settled)?;
    Ok(())
}

// The commands among turns.
fn commands_in(alloc: Global, turns: &[Turn]) -> Result<Vec<Turn>, AllocError>
    ensures { IfOk result (λ commands. commands.items ≡ commands_in turns.now) }
{
    let mut commands = Vec::new(alloc);
    for turn in turns {
        if is_command(turn.event) {
            commands.push(*turn)?;
        }
    }
    Ok(commands)
}

// The turns from one place up to another.
fn turns_between(turns: &[Turn], from: usize, place: usize) -> &[Turn]
    ensures { result.now ≡ turns_between from place turns.now }
{
    let before = &turns[..place.min(turns.len())];
    &before[from.min(before.len())..]
}
