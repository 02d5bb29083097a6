// The turns of a part, by the network's numbers.

ghost use Rattle.std.specs.Prelude.{◌≡◌, ◌+◌, ◌≤◌, [], length, map, vec_capacity, vec_len};
ghost use Rattle.mc_merge.specs.Weaving.{turn_by};
ghost use Rattle.mc_part.specs.Phases.{WritesTurns};

use crate::part::Part;
use mc_box::Turn;
use mc_lane::Lane;
use mc_merge::{Made, PartLog};

/// Writes the turns that a part has made down in its log, in their order. A part that others can reach writes none, since
/// theirs may come between; nor does one without memory for it.
pub(crate) fn write_turns(part: &Part, log: &mut PartLog)
    ensures { WritesTurns part.now.log.items log.old log.new }
{
    log.turns.clear();
    if part.ports.is_empty() && log.turns.reserve(part.log.len()).is_ok() {
        write_all(&part.log, &log.numbers, &mut log.turns);
    }
}

// Writes the turns of all entries, for which there is room.
fn write_all(made: &Lane<Made>, numbers: &[u32], turns: &mut Vec<Turn>)
    requires none { turns.old.items ≡ [] }
    requires room { vec_len turns.old + length made.now.items ≤ vec_capacity turns.old }
    ensures { turns.new.items ≡ map (turn_by numbers.now) made.now.items }
{
    for at in 0..made.len() {
        turns.push_reserved(turn_by(numbers, made.get(at)));
    }
}

// The turn of an entry.
fn turn_by(numbers: &[u32], made: Made) -> Turn
    ensures { result ≡ turn_by numbers.now made }
{
    Turn {
        who: numbers.get(made.who as usize).copied().unwrap_or(0),
        event: made.event,
    }
}
