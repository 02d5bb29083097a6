// What a line of a journal's text says.

ghost use Rattle.std.specs.Prelude.{◌≡◌};
ghost use Rattle.mc_script.specs.Places.{Fits};
ghost use Rattle.mc_journal.specs.Readings.{is_bad, settle_reading, turn_reading};
ghost use Rattle.mc_journal.specs.Readings.{line_reading, opened_reading, words_reading};

use crate::turn::turn_said;
use mc_box::{Shape, Turn};
use mc_script::{JournalLine, begins_hash, check_bytes};
use mc_text::{Names, Words};

/// What a line of a journal's text says.
#[derive(Clone, Copy)]
pub enum LineReading {
    /// Nothing: it is blank, or a comment.
    Skipped,
    /// A line of the journal.
    Line(JournalLine),
    /// It is no line of a journal.
    Bad,
}

impl LineReading {
    /// Whether the line is no line of a journal.
    pub fn is_bad(self) -> bool
        ensures { result ≡ is_bad self }
    {
        match self {
            LineReading::Skipped => false,
            LineReading::Line(_) => false,
            LineReading::Bad => true,
        }
    }
}

/// Reads a line of a journal's text, whatever stands before it.
pub fn line_reading(names: &Names, shape: &Shape, line: &[u8]) -> LineReading
    requires { Fits names.now shape.now }
    ensures { result ≡ line_reading names.now shape.now line.now }
{
    match check_bytes(line) {
        Ok(()) => words_reading(names, shape, Words::new(line)),
        Err(_) => LineReading::Bad,
    }
}

// Reads the words of a line.
fn words_reading<'a>(names: &Names, shape: &Shape, mut words: Words<'a>) -> LineReading
    requires { Fits names.now shape.now }
    ensures { result ≡ words_reading names.now shape.now words.entry }
{
    let Some(first) = words.next_word() else {
        return LineReading::Skipped;
    };
    if begins_hash(first) {
        return LineReading::Skipped;
    }
    opened_reading(names, shape, first, words)
}

// Reads a line that this word opens.
fn opened_reading<'a>(names: &Names, shape: &Shape, first: &[u8], others: Words<'a>) -> LineReading
    requires { Fits names.now shape.now }
    ensures { result ≡ opened_reading names.now shape.now first.now others.entry }
{
    if first == b"turn".as_slice() {
        turn_reading(turn_said(names, shape, others))
    } else if first == b"settle".as_slice() {
        settle_reading(others)
    } else {
        LineReading::Bad
    }
}

fn turn_reading(turn: Option<Turn>) -> LineReading
    ensures { result ≡ turn_reading turn }
{
    match turn {
        Some(turn) => LineReading::Line(JournalLine::Turn(turn)),
        None => LineReading::Bad,
    }
}

// `settle`, after which no word stands.
fn settle_reading<'a>(mut words: Words<'a>) -> LineReading
    ensures { result ≡ settle_reading words.entry }
{
    match words.next_word() {
        None => LineReading::Line(JournalLine::Settled),
        Some(_) => LineReading::Bad,
    }
}
