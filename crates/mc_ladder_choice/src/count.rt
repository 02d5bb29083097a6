// Where a line of a journal stands.

ghost use Rattle.std.specs.Prelude.{◌≡◌, ◌+◌, ◌<◌, ◌^◌};
ghost use Rattle.mc_ladder_choice.specs.Entries.{count_after, first_count};

use mc_script::JournalLine;

/// How many turns and settles of a journal stand before a line.
#[derive(Clone, Copy)]
pub struct Count {
    pub turns: u32,
    pub settles: u32,
}

impl Count {
    /// Before the first line.
    pub fn new() -> Count
        ensures { result ≡ first_count }
    {
        Count {
            turns: 0,
            settles: 0,
        }
    }

    /// After one line more.
    pub fn after(self, line: &JournalLine) -> Count
        requires turns { self.turns + 1 < 2 ^ 32 }
        requires settles { self.settles + 1 < 2 ^ 32 }
        ensures { result ≡ count_after self line.now }
    {
        match line {
            JournalLine::Turn(_) => Count {
                turns: self.turns + 1,
                settles: self.settles,
            },
            JournalLine::Settled => Count {
                turns: self.turns,
                settles: self.settles + 1,
            },
        }
    }
}
