// The turns of a journal, by the words after `turn`.

ghost use Rattle.std.specs.Prelude.{◌≡◌};
ghost use Rattle.mc_script.specs.Places.{Fits};
ghost use Rattle.mc_journal.specs.Readings.{command_turn, made_turn, sound_command, turn_said};
ghost use Rattle.mc_journal.specs.Readings.{spelt_retry, spelt_shift, slot_place, spelt_take};

use mc_box::{Event, Shape, Turn};
use mc_script::keyword::{CommandWord, command_word};
use mc_script::{Command, read_kind};
use mc_text::{FirstWords, Names, Words};

/// A slot of a box, by their numbers.
#[derive(Clone, Copy)]
pub struct SlotPlace {
    pub who: u32,
    pub local: u8,
}

/// The turn that the words after `turn` say. None where they say none, or where a command breaks one of its rules.
pub fn turn_said<'a>(names: &Names, shape: &Shape, mut words: Words<'a>) -> Option<Turn>
    requires { Fits names.now shape.now }
    ensures { result ≡ turn_said names.now shape.now words.entry }
{
    let first = words.next_word()?;
    made_turn(names, shape, first, words)
}

// The turn that a word opens, by those after it.
fn made_turn<'a>(names: &Names, shape: &Shape, first: &[u8], others: Words<'a>) -> Option<Turn>
    requires { Fits names.now shape.now }
    ensures { result ≡ made_turn names.now shape.now first.now others.entry }
{
    if first == b"take".as_slice() {
        spelt_take(names, others)
    } else if first == b"retry".as_slice() {
        spelt_retry(names, others)
    } else if first == b"shift".as_slice() {
        spelt_shift(names, others)
    } else {
        let kind = command_word(first)?;
        command_turn(names, shape, kind, others)
    }
}

// `BOX SLOT`, from the box on.
fn spelt_take<'a>(names: &Names, words: Words<'a>) -> Option<Turn>
    ensures { result ≡ spelt_take names.now words.entry }
{
    let place = slot_place(names, words)?;
    Some(Turn {
        who: place.who,
        event: Event::Take(place.local),
    })
}

// `BOX SLOT`, from the box on.
fn spelt_retry<'a>(names: &Names, words: Words<'a>) -> Option<Turn>
    ensures { result ≡ spelt_retry names.now words.entry }
{
    let place = slot_place(names, words)?;
    Some(Turn {
        who: place.who,
        event: Event::Retry(place.local),
    })
}

// `BOX` alone.
fn spelt_shift<'a>(names: &Names, words: Words<'a>) -> Option<Turn>
    ensures { result ≡ spelt_shift names.now words.entry }
{
    let parts = FirstWords::new(words);
    if parts.second.is_some() {
        return None;
    }
    let who = names.find_box(parts.first?)?;
    Some(Turn {
        who,
        event: Event::Shift,
    })
}

// The slot of a box that two words name, where no third one stands.
fn slot_place<'a>(names: &Names, words: Words<'a>) -> Option<SlotPlace>
    ensures { result ≡ slot_place names.now words.entry }
{
    let parts = FirstWords::new(words);
    if parts.third.is_some() {
        return None;
    }
    let who = names.find_box(parts.first?)?;
    let local = names.find_slot(who, parts.second?)?;
    Some(SlotPlace { who, local })
}

// A command but `settle`, by the words after its first.
fn command_turn<'a>(
    names: &Names,
    shape: &Shape,
    kind: CommandWord,
    words: Words<'a>,
) -> Option<Turn>
    requires { Fits names.now shape.now }
    ensures { result ≡ command_turn names.now shape.now kind words.entry }
{
    let command = sound_command(names, shape, kind, words)?;
    match command {
        Command::Stimulus(turn) => Some(turn),
        Command::Settle => None,
    }
}

// A command that breaks none of its rules.
fn sound_command<'a>(
    names: &Names,
    shape: &Shape,
    kind: CommandWord,
    words: Words<'a>,
) -> Option<Command>
    requires { Fits names.now shape.now }
    ensures { result ≡ sound_command names.now shape.now kind words.entry }
{
    match read_kind(names, shape, kind, words) {
        Ok(command) => Some(command),
        Err(_) => None,
    }
}
