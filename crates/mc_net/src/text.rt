//! Whole texts.

ghost use Rattle.std.specs.Prelude.{◌≡◌, ◌+◌, ◌<◌, ◌≤◌, ◌^◌, [], if◌then◌else◌, IfErr, IfOk, OnOk, length};
ghost use Rattle.mc_lines.specs.Forms.{IsInForm};
ghost use Rattle.mc_lines.specs.Rules.{ends_commands};
ghost use Rattle.mc_lines.specs.SoFar.{nothing};
ghost use Rattle.mc_net.specs.Reading.{IsEndOf, ReadsHere, last_fault};
ghost use Rattle.mc_net.specs.Texts.{RefusesText, Says};

use crate::fault::{NetFault, TextFault};
use mc_lines::{Reader, Tail, ends_commands};
use mc_program_lines::ReadFault;
use mc_text::next_line;
use std::alloc::Global;

/// Where a line begins: how many bytes stand before it, and its number.
#[derive(Clone, Copy)]
pub struct Place {
    pub before: usize,
    pub line: u32,
}

impl Place {
    /// The place after a line of these bytes.
    pub fn behind(self, line: &[u8]) -> Place
        requires short { self.before + length line.now + 1 < 2 ^ 64 }
        requires few { self.line + 1 < 2 ^ 32 }
        ensures { result ≡ record { before = self.before + (length line.now + 1); line = self.line + 1 } }
    {
        Place {
            before: self.before + line.len() + 1,
            line: self.line + 1,
        }
    }
}

/// Reads a text up to the line that ends its commands, or to its end. It must be in the grammar. Also answers where
/// what wasn't read begins.
pub fn read_text(alloc: Global, text: &[u8], tail: Tail) -> Result<(Reader, Place), NetFault>
    ensures says { IfOk result (λ both. Says tail text.now both.0) }
    ensures in_form { IfOk result (λ both. IsInForm both.0) }
    ensures end { IfOk result (λ both. IsEndOf tail text.now both.1) }
    ensures refused { IfErr result (RefusesText tail text.now) }
{
    let mut reader = Reader::new(alloc, tail);
    match read_lines(&mut reader, text, tail) {
        Ok(end) => Ok((reader, end)),
        Err(fault) => {
            // by name, since what drops at a return is proved part by part
            drop(reader);
            Err(fault)
        }
    }
}

// Reads the lines of a text, and finds no fault at its end. Answers where what wasn't read begins. The reader isn't
// dropped here, which would be dear to prove in a loop.
fn read_lines(reader: &mut Reader, text: &[u8], tail: Tail) -> Result<Place, NetFault>
    requires nothing { reader.old ≡ nothing tail }
    requires in_form { IsInForm reader.old }
    ensures says { OnOk result (Says tail text.now reader.new) }
    ensures in_form { OnOk result (IsInForm reader.new) }
    ensures end { IfOk result (IsEndOf tail text.now) }
    ensures refused { IfErr result (RefusesText tail text.now) }
{
    let mut place = Place { before: 0, line: 1 };
    let mut rest = text;
    while !rest.is_empty() {
        let (first, others) = next_line(rest);
        read_here(reader, text.len(), place, first)?;
        place = place.behind(first);
        rest = still_to_read(tail, first, others);
    }
    match last_fault(reader, place.line) {
        Some(fault) => Err(NetFault::Line(fault)),
        None => Ok(Place {
            before: place.before.min(text.len()),
            line: place.line,
        }),
    }
}

/// What is to be read after a line, of the bytes that stand after it: none where the line ends the commands.
pub fn still_to_read<'a>(tail: Tail, line: &[u8], others: &'a [u8]) -> &'a [u8]
    ensures rest { result.now ≡ if ends_commands tail line.now then [] else others.now }
    ensures shorter { length result.now ≤ length others.now }
{
    if ends_commands(tail, line) {
        return &[];
    }
    others
}

// Reads the line at a place of a text of `total` bytes.
fn read_here(reader: &mut Reader, total: usize, place: Place, line: &[u8]) -> Result<(), NetFault>
    requires small { place.before + length line.now < 2 ^ 64 }
    requires in_form { IsInForm reader.old }
    ensures { ReadsHere total place reader.old line.now result reader.new }
{
    match reader.read_line(total, place.before, line) {
        Ok(()) => Ok(()),
        Err(ReadFault::NoMemory(wanting)) => Err(NetFault::NoMemory(wanting)),
        Err(ReadFault::Line(fault)) => Err(NetFault::Line(TextFault {
            number: fault.number,
            line: place.line,
        })),
    }
}

// The fault of a text whose lines break no rule: that of its end, by the number of the line after the last.
fn last_fault(reader: &Reader, end: u32) -> Option<TextFault>
    ensures { result ≡ last_fault reader.now end }
{
    match reader.end_fault() {
        Some(number) => Some(TextFault { number, line: end }),
        None => None,
    }
}
