// A whole picture.

ghost use Rattle.std.specs.Prelude.{◌≡◌, ◌+◌, ◌-◌, ◌<◌, ◌≤◌, ◌^◌, ◌++◌, if◌then◌else◌, [], length, IfOk, OnOk};
ghost use Rattle.mc_cause.specs.CauseLaws.{NoneCloses};
ghost use Rattle.mc_cause.specs.Carried.{AreOfSlots};
ghost use Rattle.mc_ladder_choice.specs.Choices.{chosen, takes};
ghost use Rattle.mc_ladder_choice.specs.Entries.{world_after};
ghost use Rattle.mc_ladder_choice.specs.Noted.{NotesLine};
ghost use Rattle.mc_ladder_choice.specs.Surveys.{survey_of};
ghost use Rattle.mc_ladder_svg.specs.Heads.{heads};
ghost use Rattle.mc_ladder_svg.specs.Pictures.{count_note, count_text, count_words, end_of, first_y, ladder_by, ladder_svg, line_height, line_rows, picture, rows_of, top_row};

use crate::element::{put_bytes, put_text};
use crate::head::put_heads;
use crate::measure::{HEADS, TURN, settle_height};
use crate::row::Row;
use crate::settle::put_settle;
use crate::sheet::put_opening;
use crate::turn::put_turn;
use mc_cause::Whys;
use mc_ladder::{drawn_columns, is_marked};
use mc_ladder_choice::{Choice, Count, Survey, pass};
use mc_program_lines::Block;
use mc_script::JournalLine;
use mc_text::Names;
use mc_world::World;
use std::alloc::{AllocError, Global};

// Appends what is drawn for a line of a journal, from a height on, makes its turn, and notes why slots are closed. Answers
// the height of the next row.
fn put_rows(
    alloc: Global,
    columns: &[u32],
    names: &Names,
    blocks: &[Block],
    choice: &Choice,
    closings: &[bool],
    world: &mut World,
    whys: &mut Whys,
    count: Count,
    y: u128,
    line: &JournalLine,
    out: &mut Vec<u8>,
) -> Result<u128, AllocError>
    requires turns { count.turns + 1 < 2 ^ 32 }
    requires settles { count.settles + 1 < 2 ^ 32 }
    requires y { y < 2 ^ 120 }
    requires noted { whys.old.turns + 1 < 2 ^ 32 }
    requires slots { AreOfSlots world.old whys.old }
    ensures rows { OnOk result (out.new.items
        ≡ out.old.items ++ line_rows columns.now names.now blocks.now choice.now closings.now world.old whys.old.whys
        count y line.now) }
    ensures made { OnOk result (world.new ≡ world_after world.old line.now) }
    ensures notes { OnOk result (NotesLine world.old world.new line.now whys.old whys.new) }
    ensures next { IfOk result (λ next. next ≡ y + line_height choice.now world.old line.now) }
    ensures few { IfOk result (λ next. next < y + 2 ^ 72) }
{
    match line {
        JournalLine::Turn(turn) => {
            let number = count.turns + 1;
            let row = Row {
                number,
                y,
                closing: is_marked(closings, number),
            };
            put_turn(alloc, columns, names, blocks, world, whys, *turn, row, out)?;
            Ok(y + TURN)
        }
        JournalLine::Settled => {
            let row = Row {
                number: count.settles + 1,
                y,
                closing: false,
            };
            let views = choice.shown_paths(alloc, world)?;
            let all = whys.all(alloc)?;
            put_settle(alloc, columns, names, world, &all, &views, row, out)?;
            Ok(y + settle_height(views.len()))
        }
    }
}

// The same, if the line is drawn.
fn put_chosen(
    alloc: Global,
    columns: &[u32],
    names: &Names,
    blocks: &[Block],
    choice: &Choice,
    closings: &[bool],
    world: &mut World,
    whys: &mut Whys,
    count: Count,
    y: u128,
    line: &JournalLine,
    out: &mut Vec<u8>,
) -> Result<u128, AllocError>
    requires turns { count.turns + 1 < 2 ^ 32 }
    requires settles { count.settles + 1 < 2 ^ 32 }
    requires y { y < 2 ^ 120 }
    requires noted { whys.old.turns + 1 < 2 ^ 32 }
    requires slots { AreOfSlots world.old whys.old }
    ensures rows { OnOk result (out.new.items ≡ out.old.items
        ++ (if takes choice.now world.old count line.now
        then line_rows columns.now names.now blocks.now choice.now closings.now world.old whys.old.whys count y line.now
        else [])) }
    ensures made { OnOk result (world.new ≡ world_after world.old line.now) }
    ensures notes { OnOk result (NotesLine world.old world.new line.now whys.old whys.new) }
    ensures next { IfOk result (λ next. next ≡ (if takes choice.now world.old count line.now
        then y + line_height choice.now world.old line.now else y)) }
    ensures few { IfOk result (λ next. next < y + 2 ^ 72) }
{
    if choice.takes(alloc, world, count, line)? {
        put_rows(
            alloc, columns, names, blocks, choice, closings, world, whys, count, y, line, out,
        )
    } else {
        pass(world, whys, line)?;
        Ok(y)
    }
}

// Appends what is drawn of a journal, from its beginning on. Answers the height after the last row.
fn put_lines(
    alloc: Global,
    columns: &[u32],
    names: &Names,
    blocks: &[Block],
    choice: &Choice,
    closings: &[bool],
    world: &mut World,
    journal: &[JournalLine],
    out: &mut Vec<u8>,
) -> Result<u128, AllocError>
    requires few { length journal.now < 2 ^ 32 - 1 }
    requires none { NoneCloses world.old }
    ensures rows { OnOk result (out.new.items ≡ out.old.items
        ++ rows_of columns.now names.now blocks.now choice.now closings.now first_y
        (chosen choice.now world.old journal.now)) }
    ensures end { IfOk result (λ end. end ≡ end_of choice.now first_y (chosen choice.now world.old journal.now)) }
    ensures few { IfOk result (λ end. end < 2 ^ 120) }
{
    let mut count = Count::new();
    let mut y = HEADS;
    let mut whys = Whys::new(alloc, world)?;
    for line in journal {
        y = put_chosen(
            alloc, columns, names, blocks, choice, closings, world, &mut whys, count, y, line, out,
        )?;
        count = count.after(line);
    }
    Ok(y)
}

// Appends a number and what it counts, left of the heads.
fn put_count_text(
    alloc: Global,
    y: u32,
    number: u32,
    word: &str,
    out: &mut Vec<u8>,
) -> Result<(), AllocError>
    ensures { OnOk result (out.new.items ≡ out.old.items ++ count_text y number word.now) }
{
    let words = format!(in alloc; "{number} {word}")?;
    put_text(alloc, "d", 6, y, words.as_bytes(), out)
}

// Appends how many turns are drawn, of how many.
fn put_count_words(
    alloc: Global,
    drawn: u32,
    turns: u32,
    out: &mut Vec<u8>,
) -> Result<(), AllocError>
    ensures { OnOk result (out.new.items ≡ out.old.items ++ count_words drawn turns) }
{
    put_count_text(alloc, 19, drawn, "of", out)?;
    put_count_text(alloc, 33, turns, "turns", out)?;
    put_bytes(b"\n", out)
}

// The same, where it may not be all.
fn put_count_note(
    alloc: Global,
    choice: &Choice,
    found: &Survey,
    out: &mut Vec<u8>,
) -> Result<(), AllocError>
    ensures { OnOk result (out.new.items ≡ out.old.items ++ count_note choice.now found.now) }
{
    if choice.is_whole() {
        Ok(())
    } else {
        put_count_words(alloc, found.drawn, found.turns, out)
    }
}

// The heads, and what stands beside them.
fn top_row(
    alloc: Global,
    names: &Names,
    world: &World,
    columns: &[u32],
    choice: &Choice,
    found: &Survey,
) -> Result<Vec<u8>, AllocError>
    ensures { IfOk result (λ row. row.items ≡ top_row columns.now names.now world.now choice.now found.now) }
{
    let mut row = Vec::new(alloc);
    put_heads(alloc, names, world, columns, &mut row)?;
    put_count_note(alloc, choice, found, &mut row)?;
    Ok(row)
}

// Appends the picture with these heads and rows, where the last row ends at this height.
fn put_picture(
    alloc: Global,
    columns: &[u32],
    heads: &[u8],
    rows: &[u8],
    end: u128,
    out: &mut Vec<u8>,
) -> Result<(), AllocError>
    requires { end < 2 ^ 120 }
    ensures { OnOk result (out.new.items ≡ out.old.items ++ picture (length columns.now) heads.now rows.now end) }
{
    put_opening(alloc, columns.len(), end, out)?;
    put_bytes(heads, out)?;
    put_bytes(rows, out)?;
    put_bytes(b"</svg>\n", out)
}

// The ladder over these columns.
fn draw_by(
    alloc: Global,
    columns: &[u32],
    names: &Names,
    blocks: &[Block],
    choice: &Choice,
    found: &Survey,
    world: &mut World,
    journal: &[JournalLine],
) -> Result<Vec<u8>, AllocError>
    requires few { length journal.now < 2 ^ 32 - 1 }
    requires none { NoneCloses world.old }
    ensures { IfOk result (λ text. text.items
        ≡ ladder_by columns.now names.now blocks.now world.old choice.now found.now journal.now) }
{
    let heads = top_row(alloc, names, world, columns, choice, found)?;
    let mut rows = Vec::new(alloc);
    let end = put_lines(
        alloc,
        columns,
        names,
        blocks,
        choice,
        &found.closings,
        world,
        journal,
        &mut rows,
    )?;
    let mut out = Vec::new(alloc);
    put_picture(alloc, columns, &heads, &rows, end, &mut out)?;
    Ok(out)
}

/// The ladder of what is drawn of a journal, of which this was found before, as SVG: the rows of its turns and settles,
/// from the first world of a network on, whose boxes, slots, codecs and told words have these names, and whose programs
/// these blocks declare. No slot of the world waits for a closeack, as in each first world.
pub fn draw_svg(
    alloc: Global,
    names: &Names,
    blocks: &[Block],
    choice: &Choice,
    found: &Survey,
    world: &mut World,
    journal: &[JournalLine],
) -> Result<Vec<u8>, AllocError>
    requires few { length journal.now < 2 ^ 32 - 1 }
    requires none { NoneCloses world.old }
    requires found { found.now ≡ survey_of choice.now world.old journal.now }
    ensures { IfOk result (λ text. text.items
        ≡ ladder_svg names.now blocks.now world.old choice.now journal.now) }
{
    let columns = drawn_columns(alloc, choice, found, names, world)?;
    draw_by(
        alloc, &columns, names, blocks, choice, found, world, journal,
    )
}
