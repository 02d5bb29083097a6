// Why a call of the program ended.
ghost use Rattle.std.specs.Prelude.{◌≡◌, ◌-◌, [], IfOk, drop, get_or, take};
ghost use Rattle.mc_explain.specs.Reasons.{IsFaultOfJournal, IsTextFault, line_at};
ghost use Rattle.mc_script.specs.declared.line.TheConstants.{LINE_LIMIT};
ghost use Rattle.mc_text.specs.Lines.{lines};

use mc_lines::Detail;
use mc_script::LINE_LIMIT;
use mc_text::next_line;
use std::alloc::{AllocError, Global};

/// Why a call of the program ended as it did.
#[derive(Debug, Drop)]
pub enum Reason {
    /// All was done.
    Worked,
    /// There are no words, or they ask for help.
    Help,
    /// The words are no command.
    Usage,
    /// The text has a fault: the number of the rule that the line breaks, the line's number from 1, its own bytes as far
    /// as a line may have some, and what else is known of the fault. There are no bytes at the end of the text.
    FaultyText {
        number: u8,
        line: u32,
        text: Vec<u8>,
        detail: Detail,
    },
    /// The script came to a Hear at the last version: the slot's word, and the number of the settle.
    VersionEnd {
        place: Vec<u8>,
        settle: usize,
    },
    /// A batch left a ring of links: the word of a slot on it, and the number of the settle.
    Ring {
        place: Vec<u8>,
        settle: usize,
    },
    /// A program made all the steps that it may make in a settle, and has one more to make: the box's word, and the
    /// number of the settle.
    Restless {
        place: Vec<u8>,
        settle: usize,
    },
    /// A channel was to be cut while a slot of it isn't closed, or has another goal than close: the slot's word, and the
    /// number of the settle that the cut stands before.
    ChannelInUse {
        place: Vec<u8>,
        settle: usize,
    },
    /// The journal has a fault: the number of its rule, one more than the turns before it, the number of the line in the
    /// text that the journal follows, from 1, and the line's bytes. There are none at the end of the journal.
    FaultyJournal {
        number: u8,
        turn: u32,
        line: u32,
        text: Vec<u8>,
    },
    /// The text declares no feature of the name that the words have: that name, and the names of the features that there
    /// are, each after a space.
    NoBox {
        place: Vec<u8>,
        features: Vec<u8>,
    },
    /// Memory was wanting.
    NoMemory,
    /// A call of the source failed.
    ReadFault,
    /// A call of the sink failed.
    WriteFault,
}

impl Reason {
    /// That this line of the text has a fault of this number, of which this much more is known.
    pub fn faulty_text(
        alloc: Global,
        number: u8,
        line: u32,
        detail: Detail,
        text: &[u8],
    ) -> Result<Reason, AllocError>
        ensures { IfOk result (IsTextFault number line detail text.now) }
    {
        let text = kept_line(alloc, text, line)?;
        Ok(Reason::FaultyText {
            number,
            line,
            text,
            detail,
        })
    }

    /// That the journal of a text has a fault of this number, with so many turns before it less one, on this line of the
    /// text.
    pub fn faulty_journal(
        alloc: Global,
        number: u8,
        turn: u32,
        line: u32,
        text: &[u8],
    ) -> Result<Reason, AllocError>
        ensures { IfOk result (IsFaultOfJournal number turn line text.now) }
    {
        let text = kept_line(alloc, text, line)?;
        Ok(Reason::FaultyJournal {
            number,
            turn,
            line,
            text,
        })
    }
}

// The bytes of a line, by its number from 1, as they are kept of a fault.
fn kept_line(alloc: Global, text: &[u8], line: u32) -> Result<Vec<u8>, AllocError>
    ensures { IfOk result (λ kept. kept.items ≡ line_at line text.now) }
{
    Vec::from_slice(alloc, line_at(text, line))
}

// The bytes of a line, by its number from 1, as far as a line may have some.
fn line_at(text: &[u8], line: u32) -> &[u8]
    ensures { result.now ≡ take LINE_LIMIT (get_or (lines text.now) (line - 1) []) }
{
    let mut rest = text;
    for _ in 1..line {
        rest = behind_line(rest);
    }
    within_limit(first_line(rest))
}

// What stands after the first line of a text, if it has one.
fn behind_line(text: &[u8]) -> &[u8]
    ensures { lines result.now ≡ drop 1 (lines text.now) }
{
    if text.is_empty() {
        text
    } else {
        next_line(text).1
    }
}

// The bytes of the first line of a text, or none where it has no line.
fn first_line(text: &[u8]) -> &[u8]
    ensures { result.now ≡ get_or (lines text.now) 0 [] }
{
    if text.is_empty() {
        text
    } else {
        next_line(text).0
    }
}

// As many of the first bytes as a line may have.
fn within_limit(line: &[u8]) -> &[u8]
    ensures { result.now ≡ take LINE_LIMIT line.now }
{
    &line[..LINE_LIMIT.min(line.len())]
}
