//! What is known of a text's first fault beside its number and line.

ghost use Rattle.std.specs.Prelude.{◌≡◌, ◌+◌, ◌-◌, ◌<◌, ◌^◌, [], IfOk, None, OnOk, Some, length, slice_index_or};
ghost use Rattle.mc_lines.specs.Forms.{IsInForm};
ghost use Rattle.mc_lines.specs.Meaning.{line_after};
ghost use Rattle.mc_lines.specs.Rules.{line_fault};
ghost use Rattle.mc_lines.specs.SoFar.{nothing};
ghost use Rattle.mc_net.specs.Details.{fault_detail};
ghost use Rattle.mc_net.specs.Texts.{IsFault, declared_by, text_lines};

use crate::fault::TextFault;
use crate::text::{Place, still_to_read};
use mc_lines::{Detail, Reader, Tail};
use mc_program_lines::ReadFault;
use mc_text::next_line;
use std::alloc::{AllocError, Global};

/// What is known of a text's first fault beside its number and line. It reads the lines before the fault anew.
pub fn fault_detail(
    alloc: Global,
    text: &[u8],
    tail: Tail,
    fault: TextFault,
) -> Result<Detail, AllocError>
    requires { IsFault tail text.now fault.number fault.line }
    ensures { IfOk result (λ detail. detail ≡ fault_detail tail text.now fault.number fault.line) }
{
    let mut reader = Reader::new(alloc, tail);
    let detail = detail_by(&mut reader, text, tail, fault);
    drop(reader);
    detail
}

// The same, by a reader that read nothing.
fn detail_by(
    reader: &mut Reader,
    text: &[u8],
    tail: Tail,
    fault: TextFault,
) -> Result<Detail, AllocError>
    requires nothing { reader.old ≡ nothing tail }
    requires in_form { IsInForm reader.old }
    requires fault { IsFault tail text.now fault.number fault.line }
    ensures { IfOk result (λ detail. detail ≡ fault_detail tail text.now fault.number fault.line) }
{
    let line = read_before(reader, text, tail, fault)?;
    Ok(reader.detail(fault.number, line))
}

// Reads the lines before that of a text's first fault. Answers that line, which is empty at the end of the text.
fn read_before<'a>(
    reader: &mut Reader,
    text: &'a [u8],
    tail: Tail,
    fault: TextFault,
) -> Result<&'a [u8], AllocError>
    requires nothing { reader.old ≡ nothing tail }
    requires in_form { IsInForm reader.old }
    requires fault { IsFault tail text.now fault.number fault.line }
    ensures declared { OnOk result (reader.new ≡ declared_by tail (text_lines tail text.now) (fault.line - 1)) }
    ensures in_form { OnOk result (IsInForm reader.new) }
    ensures line { IfOk result (λ line. line.now ≡ slice_index_or (text_lines tail text.now) (fault.line - 1) []) }
{
    let mut place = Place { before: 0, line: 1 };
    let mut rest = text;
    while !rest.is_empty() {
        let (first, others) = next_line(rest);
        if place.line == fault.line {
            return Ok(first);
        }
        read_sound(reader, text.len(), place.before, first)?;
        place = place.behind(first);
        rest = still_to_read(tail, first, others);
    }
    Ok(&[])
}

// Reads a line that breaks no rule.
fn read_sound(
    reader: &mut Reader,
    total: usize,
    before: usize,
    line: &[u8],
) -> Result<(), AllocError>
    requires small { before + length line.now < 2 ^ 64 }
    requires in_form { IsInForm reader.old }
    requires sound { line_fault total before reader.old line.now ≡ None }
    ensures declared { OnOk result (line_after reader.old line.now ≡ Some reader.new) }
    ensures in_form { OnOk result (IsInForm reader.new) }
{
    match reader.read_line(total, before, line) {
        Ok(()) => Ok(()),
        Err(ReadFault::NoMemory(wanting)) => Err(wanting),
        Err(ReadFault::Line(_)) => unreachable!(),
    }
}
