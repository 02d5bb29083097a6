// Whole journals, read.

ghost use Rattle.std.specs.Prelude.{◌≡◌, ◌++◌, IfOk, OnOk};
ghost use Rattle.mc_script.specs.Places.{Fits};
ghost use Rattle.mc_journal.specs.Readings.{has_bad_line, journal_lines, line_in};

use crate::reading::{LineReading, line_reading};
use mc_box::Shape;
use mc_script::{JournalLine, JournalText};
use mc_text::{Names, next_line};
use std::alloc::{AllocError, Global};

/// Reads the text of a journal: the lines before the first that is no line of a journal, and whether there is such a
/// one. Blank lines and comments are skipped, and words may have spare spaces between them.
///
/// A line is none where it has more than 256 bytes or one that isn't 0x20 to 0x7E, where it is neither `settle` nor
/// `turn` with a turn, where a command breaks one of its rules, and where it names what isn't declared.
pub fn read_journal(
    alloc: Global,
    names: &Names,
    shape: &Shape,
    text: &[u8],
) -> Result<JournalText, AllocError>
    requires { Fits names.now shape.now }
    ensures lines { IfOk result (λ read. read.lines.items ≡ journal_lines names.now shape.now text.now) }
    ensures bad { IfOk result (λ read. read.bad ≡ has_bad_line names.now shape.now text.now) }
{
    let mut lines = Vec::new(alloc);
    let bad = read_lines(names, shape, text, &mut lines)?;
    Ok(JournalText { lines, bad })
}

// Keeps the lines before the first that is none, and answers whether there is such a one.
fn read_lines(
    names: &Names,
    shape: &Shape,
    text: &[u8],
    lines: &mut Vec<JournalLine>,
) -> Result<bool, AllocError>
    requires { Fits names.now shape.now }
    ensures lines { OnOk result (lines.new.items ≡ lines.old.items ++ journal_lines names.now shape.now text.now) }
    ensures bad { IfOk result (λ bad. bad ≡ has_bad_line names.now shape.now text.now) }
{
    let mut rest = text;
    while !rest.is_empty() {
        let (first, others) = next_line(rest);
        let reading = line_reading(names, shape, first);
        if reading.is_bad() {
            return Ok(true);
        }
        keep_line(reading, lines)?;
        rest = others;
    }
    Ok(false)
}

// Keeps a line of the journal, if there is one.
fn keep_line(reading: LineReading, lines: &mut Vec<JournalLine>) -> Result<(), AllocError>
    ensures { OnOk result (lines.new.items ≡ lines.old.items ++ line_in reading) }
{
    match reading {
        LineReading::Line(line) => {
            lines.push(line)?;
            Ok(())
        }
        LineReading::Skipped => Ok(()),
        LineReading::Bad => Ok(()),
    }
}
