//! Commands, and the lines of a journal.

use mc_box::Turn;

/// What a line tells the net to do.
#[derive(Clone, Copy, PartialEq, Eq, Debug)]
pub enum Command {
    /// A box gets a new goal, hears or talks, or is told a word.
    Stimulus(Turn),
    /// The net works until nothing is left to do.
    Settle,
}

/// The commands up to a settle, in their order.
#[derive(Debug, Drop)]
pub struct Batch {
    pub turns: Vec<Turn>,
}

/// Why a line is refused: the least number of the rules that it breaks.
#[derive(Clone, Copy, PartialEq, Eq, Debug)]
pub struct LineFault {
    pub number: u8,
}

/// A line of a journal: a turn that was made, or the end of a settle.
#[derive(Clone, Copy, PartialEq, Eq, Debug)]
pub enum JournalLine {
    Turn(Turn),
    Settled,
}

/// The lines of a journal before the first that is none, and whether there is such a one.
#[derive(Debug, Drop)]
pub struct JournalText {
    pub lines: Vec<JournalLine>,
    pub bad: bool,
}
