//! Whole lines of commands.

ghost use Rattle.std.specs.Prelude.{◌≡◌, Some, not};
ghost use Rattle.std.specs.List.{list_any};
ghost use Rattle.mc_text.specs.Lines.{words};
ghost use Rattle.mc_script.specs.Places.{Fits};
ghost use Rattle.mc_script.specs.Rules.{begins_hash, is_plain, byte_rules, kind_rules, least_broken};
ghost use Rattle.mc_script.specs.Meaning.{command_of, command_fault, ReadsAs, ReadsCommand};

use crate::command::{Command, LineFault};
use crate::keyword::{CommandWord, command_word};
use crate::lines::{hear_line, link_line, set_line, settle_line, talk_line, tell_line};
use crate::rule::{LINE_TOO_LONG, STRANGE_BYTE, WRONG_WORD};
use mc_box::Shape;
use mc_text::{Names, Words};

/// The most bytes of a line, its end not counted.
pub const LINE_LIMIT: usize = 256;

/// Reads the command of a line.
///
/// Else the fault is the least number of the rules that the line breaks, but for 1 and 14, which depend on the whole
/// text: 2 where the line has more than 256 bytes, 3 where a byte isn't 0x20 to 0x7E, 4 where a box or a told word
/// isn't declared, 5 where a word isn't one that may stand in its place or the box is of the wrong kind, 6 where a
/// word is missing, 7 where one is left over, 11 where the box has no such slot, 12 where a slot is linked to itself
/// and 13 to one of another medium. A blank line and a comment open no command and are refused by 5.
pub fn read_command<'a>(names: &Names, shape: &Shape, line: &'a [u8]) -> Result<Command, LineFault>
    requires { Fits names.now shape.now }
    ensures { ReadsAs result (command_fault names.now shape.now line.now) (command_of names.now (words line.now)) }
{
    check_bytes(line)?;
    let mut words = Words::new(line);
    let Some(first) = words.next_word() else {
        return Err(LineFault { number: WRONG_WORD });
    };
    match command_word(first) {
        Some(kind) => read_kind(names, shape, kind, words),
        None => Err(LineFault { number: WRONG_WORD }),
    }
}

/// Reads a command of a kind, by the words after the first.
pub fn read_kind<'a>(
    names: &Names,
    shape: &Shape,
    kind: CommandWord,
    words: Words<'a>,
) -> Result<Command, LineFault>
    requires { Fits names.now shape.now }
    ensures { ReadsCommand names.now kind (kind_rules names.now shape.now (Some kind) words.entry) words.entry result }
{
    match kind {
        CommandWord::Set => set_line(names, words),
        CommandWord::Link => link_line(names, shape, words),
        CommandWord::Hear => hear_line(names, shape, words),
        CommandWord::Talk => talk_line(names, shape, words),
        CommandWord::Tell => tell_line(names, shape, words),
        CommandWord::Settle => settle_line(words),
    }
}

/// Checks the bytes of a line, whatever it says. Fault 2 where there are more than 256, else 3 where one isn't
/// 0x20 to 0x7E.
pub fn check_bytes(line: &[u8]) -> Result<(), LineFault>
    ensures { ReadsAs result (least_broken (byte_rules line.now)) (Some tt) }
{
    if LINE_LIMIT < line.len() {
        return Err(LineFault {
            number: LINE_TOO_LONG,
        });
    }
    if has_strange_byte(line) {
        return Err(LineFault {
            number: STRANGE_BYTE,
        });
    }
    Ok(())
}

/// Whether a word begins with #. As the first of a line it makes the line a comment.
pub fn begins_hash(word: &[u8]) -> bool
    ensures { result ≡ begins_hash word.now }
{
    match word {
        [] => false,
        [first, ..] => *first == b'#',
    }
}

// It looks at every byte, so that many are looked at at once: to stop at the first strange one would take longer.
fn has_strange_byte(line: &[u8]) -> bool
    ensures { result ≡ list_any (λ byte. not (is_plain byte)) line.now }
{
    let mut strange = false;
    for byte in line {
        strange |= !is_plain(*byte);
    }
    strange
}

fn is_plain(byte: u8) -> bool
    ensures { result ≡ is_plain byte }
{
    32 <= byte && byte <= 126
}
