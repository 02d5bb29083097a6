// Whole journals, printed.

ghost use Rattle.std.specs.Prelude.{◌≡◌, ◌<◌, ◌++◌, [], ◌∷◌, All, IfOk, OnOk, codes, length};
ghost use Rattle.mc_script.specs.Meaning.{Puts, box_name, event_words, slot_name};
ghost use Rattle.mc_script.specs.Printed.{IsFound, IsFoundEvent, IsFoundSlot, IsNamedEvent, IsSlot};
ghost use Rattle.mc_journal.specs.Printed.{line_text, line_words, print_journal, turn_words};
ghost use Rattle.mc_journal.specs.Printed.{IsFoundLine, IsFoundTurn, IsNamedLine, IsNamedTurn};

use mc_box::{Event, Turn};
use mc_script::{Command, JournalLine, print_command};
use mc_text::Names;
use std::alloc::{AllocError, Global};

/// The text of a journal's lines, each with a line end. Boxes, slots and told words have names, and of the events each
/// is one that a turn may have.
pub fn print_journal(
    alloc: Global,
    names: &Names,
    lines: &[JournalLine],
) -> Result<Vec<u8>, AllocError>
    requires { All (IsNamedLine names.now) lines.now }
    ensures printed { IfOk result (λ text. text.items ≡ print_journal names.now lines.now) }
    ensures found { OnOk result (All (IsFoundLine names.now) lines.now) }
{
    let mut text = Vec::new(alloc);
    for line in lines {
        put_line(names, line, &mut text)?;
    }
    Ok(text)
}

// Appends a line. Want of memory may come in the middle, here and below.
fn put_line(names: &Names, line: &JournalLine, text: &mut Vec<u8>) -> Result<(), AllocError>
    requires { IsNamedLine names.now line.now }
    ensures printed { OnOk result (text.new.items ≡ text.old.items ++ line_text names.now line.now) }
    ensures found { OnOk result (IsFoundLine names.now line.now) }
{
    put_words(names, line, text)?;
    text.push(b'\n')?;
    Ok(())
}

// Appends the words of a line.
fn put_words(names: &Names, line: &JournalLine, text: &mut Vec<u8>) -> Result<(), AllocError>
    requires { IsNamedLine names.now line.now }
    ensures printed { Puts result text.old.items text.new.items (line_words names.now line.now) }
    ensures found { OnOk result (IsFoundLine names.now line.now) }
{
    match *line {
        JournalLine::Turn(turn) => put_turn(names, turn, text),
        JournalLine::Settled => {
            text.extend_from_slice(b"settle")?;
            Ok(())
        }
    }
}

fn put_turn(names: &Names, turn: Turn, text: &mut Vec<u8>) -> Result<(), AllocError>
    requires { IsNamedTurn names.now turn.who turn.event }
    ensures printed { Puts result text.old.items text.new.items
        (codes "turn" ∷ turn_words names.now turn.who turn.event) }
    ensures found { OnOk result (IsFoundTurn names.now turn.who turn.event) }
{
    let who = turn.who;
    match turn.event {
        Event::Take(local) => put_slot(names, b"take", who, local, text),
        Event::Retry(local) => put_slot(names, b"retry", who, local, text),
        Event::Shift => put_box(names, b"shift", who, text),
        Event::Set(change) => put_command(names, who, Event::Set(change), text),
        Event::Media(change) => put_command(names, who, Event::Media(change), text),
        Event::Tell(word) => put_command(names, who, Event::Tell(word), text),
    }
}

// Appends `turn` and a command.
fn put_command(names: &Names, who: u32, event: Event, text: &mut Vec<u8>) -> Result<(), AllocError>
    requires { IsNamedEvent names.now who event }
    ensures printed { Puts result text.old.items text.new.items (codes "turn" ∷ event_words names.now who event) }
    ensures found { OnOk result (IsFoundEvent names.now who event) }
{
    text.extend_from_slice(b"turn ")?;
    print_command(names, &Command::Stimulus(Turn { who, event }), text)?;
    Ok(())
}

// Appends `turn`, a word, a box and one of its slots.
fn put_slot(
    names: &Names,
    word: &[u8],
    who: u32,
    local: u8,
    text: &mut Vec<u8>,
) -> Result<(), AllocError>
    requires { IsSlot names.now who local }
    ensures printed { Puts result text.old.items text.new.items
        (codes "turn" ∷ word.now ∷ box_name names.now who ∷ slot_name names.now who local ∷ []) }
    ensures found { OnOk result (IsFoundSlot names.now who local) }
{
    put_box(names, word, who, text)?;
    put_next(names.slot_name(who, local), text)?;
    Ok(())
}

// Appends `turn`, a word and a box.
fn put_box(names: &Names, word: &[u8], who: u32, text: &mut Vec<u8>) -> Result<(), AllocError>
    requires { who < length names.now.boxes }
    ensures printed { Puts result text.old.items text.new.items
        (codes "turn" ∷ word.now ∷ box_name names.now who ∷ []) }
    ensures found { OnOk result (IsFound names.now.boxes who) }
{
    text.extend_from_slice(b"turn")?;
    put_next(word, text)?;
    put_next(names.box_name(who), text)?;
    Ok(())
}

// Appends a word after a space.
fn put_next(word: &[u8], text: &mut Vec<u8>) -> Result<(), AllocError>
    ensures { OnOk result (text.new.items ≡ text.old.items ++ (32 ∷ word.now)) }
{
    text.push(b' ')?;
    text.extend_from_slice(word)
}
