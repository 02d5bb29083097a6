// A whole ladder.

ghost use Rattle.std.specs.Prelude.{◌≡◌, ◌+◌, ◌-◌, ◌<◌, ◌^◌, ◌++◌, if◌then◌else◌, [], length, IfOk, OnOk};
ghost use Rattle.mc_ladder.specs.Ladders.{count_line, drawn_frame, heads_due, label_of, ladder_text, line_rows, rows_of, within_after, world_after};
ghost use Rattle.mc_cause.specs.CauseLaws.{NoneCloses};
ghost use Rattle.mc_cause.specs.Carried.{AreOfSlots};
ghost use Rattle.mc_ladder_choice.specs.Choices.{chosen, takes};
ghost use Rattle.mc_ladder_choice.specs.Noted.{NotesLine};
ghost use Rattle.mc_ladder_choice.specs.Surveys.{survey_of};

use crate::column::drawn_columns;
use crate::frame::Frame;
use crate::glyph::Style;
use crate::heads::put_heads;
use crate::margin::{Label, is_marked};
use crate::settle::put_settle;
use crate::turn::put_turn;
use mc_cause::Whys;
use mc_ladder_choice::{Choice, Count, Survey, pass};
use mc_program_lines::Block;
use mc_script::JournalLine;
use mc_table::put_line;
use mc_text::Names;
use mc_world::World;
use std::alloc::{AllocError, Global};

// After so many turns of a settle the heads stand again.
pub const HEADS_EVERY: u32 = 40;

// Appends the heads, where they are due before a turn.
fn put_due_heads(
    frame: &Frame,
    names: &Names,
    within: u32,
    out: &mut Vec<u8>,
) -> Result<(), AllocError>
    ensures { OnOk result (out.new.items ≡ out.old.items ++ heads_due frame.now names.now within) }
{
    if within % HEADS_EVERY == 0 {
        put_heads(frame, names, out)
    } else {
        Ok(())
    }
}

// The label of a turn, by its number.
fn label_of(closings: &[bool], number: u32) -> Label
    ensures { result ≡ label_of closings.now number }
{
    Label {
        number,
        closing: is_marked(closings, number),
    }
}

// How many turns of a settle are drawn, after one line more.
fn within_after(within: u32, line: &JournalLine) -> u32
    requires { within + 1 < 2 ^ 32 }
    ensures { result ≡ within_after within line.now }
{
    match line {
        JournalLine::Turn(_) => within + 1,
        JournalLine::Settled => 0,
    }
}

// Appends what is drawn for a line of a journal, makes its turn, and notes why slots are closed.
fn put_rows(
    alloc: Global,
    frame: &Frame,
    names: &Names,
    blocks: &[Block],
    choice: &Choice,
    closings: &[bool],
    world: &mut World,
    whys: &mut Whys,
    count: Count,
    within: u32,
    line: &JournalLine,
    out: &mut Vec<u8>,
) -> Result<(), AllocError>
    requires turns { count.turns + 1 < 2 ^ 32 }
    requires settles { count.settles + 1 < 2 ^ 32 }
    requires few { whys.old.turns + 1 < 2 ^ 32 }
    requires slots { AreOfSlots world.old whys.old }
    ensures rows { OnOk result (out.new.items
        ≡ out.old.items ++ line_rows frame.now names.now blocks.now choice.now closings.now world.old whys.old.whys count
        within line.now) }
    ensures made { OnOk result (world.new ≡ world_after world.old line.now) }
    ensures notes { OnOk result (NotesLine world.old world.new line.now whys.old whys.new) }
{
    match line {
        JournalLine::Turn(turn) => {
            put_due_heads(frame, names, within, out)?;
            put_turn(
                alloc,
                frame,
                names,
                blocks,
                world,
                whys,
                *turn,
                label_of(closings, count.turns + 1),
                out,
            )
        }
        JournalLine::Settled => {
            let views = choice.shown_paths(alloc, world)?;
            let all = whys.all(alloc)?;
            let number = count.settles + 1;
            put_settle(alloc, frame, names, world, &all, &views, number, out)
        }
    }
}

// The same, if the line is drawn. Answers how many turns of its settle are drawn then.
fn put_chosen(
    alloc: Global,
    frame: &Frame,
    names: &Names,
    blocks: &[Block],
    choice: &Choice,
    closings: &[bool],
    world: &mut World,
    whys: &mut Whys,
    count: Count,
    within: u32,
    line: &JournalLine,
    out: &mut Vec<u8>,
) -> Result<u32, AllocError>
    requires turns { count.turns + 1 < 2 ^ 32 }
    requires settles { count.settles + 1 < 2 ^ 32 }
    requires within { within + 1 < 2 ^ 32 }
    requires few { whys.old.turns + 1 < 2 ^ 32 }
    requires slots { AreOfSlots world.old whys.old }
    ensures rows { OnOk result (out.new.items ≡ out.old.items
        ++ (if takes choice.now world.old count line.now
        then line_rows frame.now names.now blocks.now choice.now closings.now world.old whys.old.whys count within line.now
        else [])) }
    ensures made { OnOk result (world.new ≡ world_after world.old line.now) }
    ensures notes { OnOk result (NotesLine world.old world.new line.now whys.old whys.new) }
    ensures within { IfOk result (λ next. next ≡ (if takes choice.now world.old count line.now
        then within_after within line.now else within)) }
{
    if choice.takes(alloc, world, count, line)? {
        put_rows(
            alloc, frame, names, blocks, choice, closings, world, whys, count, within, line, out,
        )?;
        Ok(within_after(within, line))
    } else {
        pass(world, whys, line)?;
        Ok(within)
    }
}

// Appends what is drawn of a journal, from its beginning on.
fn put_lines(
    alloc: Global,
    frame: &Frame,
    names: &Names,
    blocks: &[Block],
    choice: &Choice,
    closings: &[bool],
    world: &mut World,
    journal: &[JournalLine],
    out: &mut Vec<u8>,
) -> Result<(), AllocError>
    requires few { length journal.now < 2 ^ 32 - 1 }
    requires none { NoneCloses world.old }
    ensures { OnOk result (out.new.items ≡ out.old.items
        ++ rows_of frame.now names.now blocks.now choice.now closings.now 0 (chosen choice.now world.old journal.now)) }
{
    let mut count = Count::new();
    let mut within = 0;
    let mut whys = Whys::new(alloc, world)?;
    for line in journal {
        within = put_chosen(
            alloc, frame, names, blocks, choice, closings, world, &mut whys, count, within, line,
            out,
        )?;
        count = count.after(line);
    }
    Ok(())
}

// Appends how many turns are drawn, of how many, where it may not be all.
fn put_count(
    alloc: Global,
    choice: &Choice,
    found: &Survey,
    out: &mut Vec<u8>,
) -> Result<(), AllocError>
    ensures { OnOk result (out.new.items ≡ out.old.items ++ count_line choice.now found.now) }
{
    if choice.is_whole() {
        return Ok(());
    }
    let drawn = format!(in alloc; "{}", found.drawn)?;
    let turns = format!(in alloc; "{}", found.turns)?;
    put_line(drawn.as_bytes(), &[b"of", turns.as_bytes(), b"turns"], out)
}

// The frame for what is drawn.
fn drawn_frame(
    alloc: Global,
    style: Style,
    names: &Names,
    world: &World,
    choice: &Choice,
    found: &Survey,
) -> Result<Frame, AllocError>
    ensures { IfOk result (λ frame. frame ≡ drawn_frame style names.now world.now choice.now found.now) }
{
    let columns = drawn_columns(alloc, choice, found, names, world)?;
    Ok(Frame::new(style, names, world, columns))
}

/// The ladder of what is drawn of a journal, of which this was found before: the rows of its turns and settles, from the
/// first world of a network on, whose boxes, slots, codecs and told words have these names, and whose programs these
/// blocks declare. No slot of the world waits for a closeack, as in each first world.
pub fn draw_ladder(
    alloc: Global,
    style: Style,
    names: &Names,
    blocks: &[Block],
    choice: &Choice,
    found: &Survey,
    world: &mut World,
    journal: &[JournalLine],
) -> Result<Vec<u8>, AllocError>
    requires few { length journal.now < 2 ^ 32 - 1 }
    requires none { NoneCloses world.old }
    requires found { found.now ≡ survey_of choice.now world.old journal.now }
    ensures { IfOk result (λ text. text.items
        ≡ ladder_text style names.now blocks.now world.old choice.now journal.now) }
{
    let frame = drawn_frame(alloc, style, names, world, choice, found)?;
    let mut out = Vec::new(alloc);
    put_count(alloc, choice, found, &mut out)?;
    put_lines(
        alloc,
        &frame,
        names,
        blocks,
        choice,
        &found.closings,
        world,
        journal,
        &mut out,
    )?;
    Ok(out)
}
