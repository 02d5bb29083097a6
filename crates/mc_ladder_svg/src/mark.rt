// The row of any other turn: a mark on the line of its box, with its words beside it.

ghost use Rattle.std.specs.Prelude.{◌≡◌, ◌<◌, ◌^◌, ◌++◌, IfOk, OnOk};
ghost use Rattle.mc_ladder_svg.specs.Measures.{x_of};
ghost use Rattle.mc_ladder_svg.specs.Marks.{command_by, command_class, command_opening, command_picture, command_row, command_title, command_words, is_last, mark_shape, mark_words, words_side};

use crate::element::{put_beside, put_box_class, put_bytes};
use crate::measure::{TextSide, x_of};
use crate::row::{Row, put_row_end, put_row_place, put_row_start};
use mc_box::{Event, Turn};
use mc_ladder::{Glyph, Mark, box_word, command_word, mark_of, put_command_rest, put_word};
use mc_text::Names;
use std::alloc::{AllocError, Global};

// The class of a turn's colour: what a program does by itself has one of its own.
fn command_class(event: Event) -> &'static str
    ensures { result.now ≡ command_class event }
{
    match event {
        Event::Shift => "pr",
        Event::Retry(_) => "pr",
        _ => "cm",
    }
}

// The words of a turn without its box. A Shift leads to this state.
fn command_words(
    alloc: Global,
    names: &Names,
    turn: Turn,
    state: &[u8],
) -> Result<Vec<u8>, AllocError>
    ensures { IfOk result (λ words. words.items ≡ command_words names.now turn state.now) }
{
    let mut words = Vec::from_slice(alloc, command_word(turn.event))?;
    put_command_rest(names, turn.who, turn.event, state, &mut words)?;
    Ok(words)
}

// Appends a mark: a triangle that points down for a Shift, one that points up for a Retry, and else a square.
fn put_mark(alloc: Global, at: usize, glyph: Glyph, out: &mut Vec<u8>) -> Result<(), AllocError>
    ensures { OnOk result (out.new.items ≡ out.old.items ++ mark_shape (x_of at) glyph) }
{
    let x = x_of(at);
    let drawn = match glyph {
        Glyph::Down => format!(in alloc; "<path class=\"f\" d=\"M{} 12h12l-6 10z\"/>", x - 6)?,
        Glyph::Up => format!(in alloc; "<path class=\"f\" d=\"M{} 22h12l-6-10z\"/>", x - 6)?,
        _ => format!(in alloc; "<path class=\"f\" d=\"M{} 12h10v10h-10z\"/>", x - 5)?,
    };
    put_bytes(drawn.as_bytes(), out)
}

// Whether a column is the last of so many.
pub fn is_last(columns: usize, at: usize) -> bool
    ensures { result ≡ is_last columns at }
{
    columns > 0 && at == columns - 1
}

// The side of the line at which the words stand: the right, but the left of the last one.
fn words_side(columns: usize, at: usize) -> TextSide
    ensures { result ≡ words_side columns at }
{
    if is_last(columns, at) {
        TextSide::Left
    } else {
        TextSide::Right
    }
}

// Appends what stands before the title of a row.
fn put_opening(
    alloc: Global,
    at: usize,
    class: &str,
    row: Row,
    out: &mut Vec<u8>,
) -> Result<(), AllocError>
    ensures { OnOk result (out.new.items ≡ out.old.items ++ command_opening at class.now row) }
{
    put_row_start(alloc, row.number, class, out)?;
    put_box_class(alloc, at, out)?;
    put_row_place(alloc, row.y, out)
}

// Appends the title: the box, and the turn in words.
fn put_title(name: &[u8], words: &[u8], out: &mut Vec<u8>) -> Result<(), AllocError>
    ensures { OnOk result (out.new.items ≡ out.old.items ++ command_title name.now words.now) }
{
    put_bytes(name, out)?;
    put_word(words, out)?;
    put_bytes(b"</title>", out)
}

// Appends the words of a mark.
fn put_words(
    alloc: Global,
    at: usize,
    side: TextSide,
    words: &[u8],
    out: &mut Vec<u8>,
) -> Result<(), AllocError>
    ensures { OnOk result (out.new.items ≡ out.old.items ++ mark_words at side words.now) }
{
    put_beside(alloc, "o", side, side.beside(x_of(at), 12), 21, words, out)
}

// Appends a mark with its words.
fn put_picture(
    alloc: Global,
    mark: Mark,
    side: TextSide,
    words: &[u8],
    out: &mut Vec<u8>,
) -> Result<(), AllocError>
    ensures { OnOk result (out.new.items ≡ out.old.items ++ command_picture mark side words.now) }
{
    put_mark(alloc, mark.at, mark.glyph, out)?;
    put_words(alloc, mark.at, side, words, out)
}

// Appends the row of a turn with this mark, of this class, at this box and with these words.
fn put_command_by(
    alloc: Global,
    mark: Mark,
    side: TextSide,
    class: &str,
    name: &[u8],
    words: &[u8],
    row: Row,
    out: &mut Vec<u8>,
) -> Result<(), AllocError>
    ensures { OnOk result (out.new.items ≡ out.old.items ++ command_by mark side class.now name.now words.now row) }
{
    put_opening(alloc, mark.at, class, row, out)?;
    put_title(name, words, out)?;
    put_picture(alloc, mark, side, words, out)?;
    put_row_end(alloc, row, out)
}

// Appends the row of a turn that is no Take. A Shift leads to this state.
pub fn put_command(
    alloc: Global,
    columns: &[u32],
    names: &Names,
    turn: Turn,
    state: &[u8],
    row: Row,
    out: &mut Vec<u8>,
) -> Result<(), AllocError>
    ensures { OnOk result (out.new.items ≡ out.old.items ++ command_row columns.now names.now turn state.now row) }
{
    let mark = mark_of(columns, turn);
    let side = words_side(columns.len(), mark.at);
    let class = command_class(turn.event);
    let name = box_word(names, turn.who);
    let words = command_words(alloc, names, turn, state)?;
    put_command_by(alloc, mark, side, class, name, &words, row, out)
}
