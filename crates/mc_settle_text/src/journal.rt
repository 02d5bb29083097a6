// What a journal keeps of settles.

ghost use Rattle.std.specs.Prelude.{◌≡◌, ◌++◌, map, OnOk};
ghost use Rattle.mc_replay.specs.Journals.{lines_for};
ghost use Rattle.mc_script.specs.declared.command.JournalLine.TheVariants.{Turn as Made};

use mc_box::Turn;
use mc_script::JournalLine;
use std::alloc::AllocError;

/// Keeps turns.
pub fn keep_turns(turns: &[Turn], journal: &mut Vec<JournalLine>) -> Result<(), AllocError>
    ensures { OnOk result (journal.new.items ≡ journal.old.items ++ map Made turns.now) }
{
    for turn in turns {
        journal.push(JournalLine::Turn(*turn))?;
    }
    Ok(())
}

/// Keeps the turns of a settle, and its mark.
pub fn keep_settle(turns: &[Turn], journal: &mut Vec<JournalLine>) -> Result<(), AllocError>
    ensures { OnOk result (journal.new.items ≡ journal.old.items ++ lines_for turns.now) }
{
    keep_turns(turns, journal)?;
    journal.push(JournalLine::Settled)?;
    Ok(())
}
