// The journal that stands after the commands of a text.

ghost use Rattle.std.specs.Prelude.{◌≡◌, ◌-◌, ◌<◌, ◌≤◌, ◌^◌, IfOk, drop, length};
ghost use Rattle.std.specs.List.{before_last};
ghost use Rattle.mc_lines.specs.Rules.{read_limit};
ghost use Rattle.mc_lines.specs.declared.tail.Tail.TheVariants.{Journal};
ghost use Rattle.mc_script.specs.Places.{Fits};
ghost use Rattle.mc_text.specs.Lines.{is_line_end};
ghost use Rattle.mc_call.specs.Behind.{has_bad_tail, is_too_long, journal_bytes, journal_line, tail_lines};

use mc_box::Shape;
use mc_journal::{line_count, line_place, read_journal};
use mc_net::JOURNAL_TEXT_LIMIT;
use mc_script::JournalText;
use mc_text::Names;
use std::alloc::{AllocError, Global};

/// Where the journal after a text has a fault: the number of its rule, one more than the turns before it, and the
/// number of its line in the text, from 1.
#[derive(Clone, Copy)]
pub struct TailPlace {
    pub number: u8,
    pub turn: u32,
    pub line: u32,
}

/// The journal that begins at a place of a text, read with the names and shapes that the text declares.
pub fn journal_behind(
    alloc: Global,
    names: &Names,
    shape: &Shape,
    text: &[u8],
    rest: usize,
) -> Result<JournalText, AllocError>
    requires { Fits names.now shape.now }
    ensures lines { IfOk result (λ read. read.lines.items ≡ tail_lines names.now shape.now text.now rest) }
    ensures bad { IfOk result (λ read. read.bad ≡ has_bad_tail names.now shape.now text.now rest) }
    ensures few { IfOk result (λ read. length read.lines.items < 2 ^ 32 - 1) }
{
    let JournalText { lines, bad } = read_journal(alloc, names, shape, journal_bytes(text, rest))?;
    Ok(JournalText {
        lines,
        bad: bad || is_too_long(text),
    })
}

/// The number of a line of a text, from 1: that on which the line of its journal stands that comes after so many others,
/// or the one that is no line of a journal. After the last line it is that of the end.
pub fn journal_line(names: &Names, shape: &Shape, text: &[u8], rest: usize, before: u32) -> u32
    requires fits { Fits names.now shape.now }
    requires short { length text.now ≤ read_limit Journal }
    ensures { result ≡ journal_line names.now shape.now text.now rest before }
{
    let declaring = line_count(&text[..rest.min(text.len())]);
    let place = line_place(names, shape, journal_bytes(text, rest), before as usize);
    (declaring + place + 1) as u32
}

// The bytes of the journal.
fn journal_bytes(text: &[u8], rest: usize) -> &[u8]
    ensures bytes { result.now ≡ journal_bytes text.now rest }
    ensures within { length result.now ≤ length text.now }
{
    if is_too_long(text) {
        before_last_end(bytes_from(&text[..JOURNAL_TEXT_LIMIT], rest))
    } else {
        bytes_from(text, rest)
    }
}

fn is_too_long(text: &[u8]) -> bool
    ensures { result ≡ is_too_long text.now }
{
    text.len() > JOURNAL_TEXT_LIMIT
}

// The bytes from a place on; none where the place is past the end.
fn bytes_from(bytes: &[u8], place: usize) -> &[u8]
    ensures { result.now ≡ drop place bytes.now }
{
    &bytes[place.min(bytes.len())..]
}

// What stands before the last line end; nothing where there is none.
fn before_last_end(bytes: &[u8]) -> &[u8]
    ensures { result.now ≡ before_last is_line_end bytes.now }
{
    let mut end = bytes.len();
    while end > 0 && bytes[end - 1] != b'\n' {
        end -= 1;
    }
    &bytes[..end.saturating_sub(1)]
}
