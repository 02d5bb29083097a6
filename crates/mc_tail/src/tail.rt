//! What stands after the line `grow` of a text.

ghost use Rattle.std.specs.Prelude.{◌≡◌, ◌+◌, ◌<◌, ◌^◌, IfErr, IfOk, OnOk, length};
ghost use Rattle.mc_lines.specs.Forms.{IsInForm};
ghost use Rattle.mc_net.specs.Reading.{IsEndOf};
ghost use Rattle.mc_net.specs.Texts.{Says};
ghost use Rattle.mc_lines.specs.declared.tail.Tail.TheVariants.{Grow};
ghost use Rattle.mc_tail.specs.Readings.{ReadsTailHere};
ghost use Rattle.mc_tail.specs.Tails.{DeclaresTail, HasHead, RefusesTail, SaysTail, tail_start};

use crate::item::Item;
use crate::reader::TailReader;
use mc_box::Shape;
use mc_lines::{Declarations, Reader, Tail};
use mc_net::{NetFault, Place, TextFault, read_text};
use mc_program_lines::ReadFault;
use mc_text::{Names, next_line};
use std::alloc::{AllocError, Global};

/// What stands after the line `grow` of a text: what each of its lines says, in their order, and the names and shapes
/// of all boxes with the slots of the channels that join.
#[derive(Drop)]
pub struct TailText {
    pub names: Names,
    pub shape: Shape,
    pub items: Vec<Item>,
}

/// Reads what stands after the line `grow` of a text, up to which the text is in the grammar. Where the text has no
/// such line that is nothing. The lines up to it are read anew, for what they declare.
pub fn read_tail(alloc: Global, text: &[u8]) -> Result<TailText, NetFault>
    requires { HasHead text.now }
    ensures declares { IfOk result (DeclaresTail text.now) }
    ensures refused { IfErr result (RefusesTail text.now) }
{
    let (reader, end) = read_head(alloc, text)?;
    let mut reader = TailReader {
        reader,
        out: Vec::new(alloc),
        items: Vec::new(alloc),
    };
    match read_lines(&mut reader, text, end) {
        Ok(()) => Ok(tail_text(reader)),
        Err(fault) => {
            // by name, since what drops at a return is proved part by part
            drop(reader);
            Err(fault)
        }
    }
}

// The lines up to `grow`, which break no rule, and where the others begin.
fn read_head(alloc: Global, text: &[u8]) -> Result<(Reader, Place), AllocError>
    requires { HasHead text.now }
    ensures says { IfOk result (λ both. Says Grow text.now both.0) }
    ensures in_form { IfOk result (λ both. IsInForm both.0) }
    ensures end { IfOk result (λ both. IsEndOf Grow text.now both.1) }
{
    match read_text(alloc, text, Tail::Grow) {
        Ok(both) => Ok(both),
        Err(NetFault::NoMemory(wanting)) => Err(wanting),
        Err(NetFault::Line(_)) => unreachable!(),
    }
}

// Reads the lines after `grow`. The reader isn't dropped here, which would be dear to prove in a loop.
fn read_lines(reader: &mut TailReader, text: &[u8], end: Place) -> Result<(), NetFault>
    requires start { reader.old ≡ tail_start text.now }
    requires in_form { IsInForm reader.old.declared }
    requires end { IsEndOf Grow text.now end }
    ensures says { OnOk result (SaysTail text.now reader.new) }
    ensures refused { IfErr result (RefusesTail text.now) }
{
    let mut place = end;
    let mut rest = text.split_at(end.before).1;
    while !rest.is_empty() {
        let (first, others) = next_line(rest);
        read_here(reader, text.len(), place, first)?;
        place = place.behind(first);
        rest = others;
    }
    Ok(())
}

// Reads the line at a place of a text of `total` bytes.
fn read_here(
    reader: &mut TailReader,
    total: usize,
    place: Place,
    line: &[u8],
) -> Result<(), NetFault>
    requires small { place.before + length line.now < 2 ^ 64 }
    requires in_form { IsInForm reader.old.declared }
    ensures { ReadsTailHere total place reader.old line.now result reader.new }
{
    match reader.read_line(total, place.before, line) {
        Ok(()) => Ok(()),
        Err(ReadFault::NoMemory(wanting)) => Err(NetFault::NoMemory(wanting)),
        Err(ReadFault::Line(fault)) => Err(NetFault::Line(TextFault {
            number: fault.number,
            line: place.line,
        })),
    }
}

// What a reader has read.
fn tail_text(reader: TailReader) -> TailText
    ensures names { result.names ≡ reader.declared.names }
    ensures shape { result.shape ≡ reader.declared.shape }
    ensures items { result.items.items ≡ reader.items }
{
    let TailReader { reader, out, items } = reader;
    let Declarations {
        names,
        shape,
        plan,
        blocks,
        commands,
    } = reader.into_parts();
    // each is dropped by name, since what drops at a return is proved part by part
    drop(out);
    drop(plan);
    drop(blocks);
    drop(commands);
    TailText {
        names,
        shape,
        items,
    }
}
