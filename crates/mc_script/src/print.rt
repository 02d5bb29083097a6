//! Commands as text.

ghost use Rattle.std.specs.Prelude.{◌≡◌, ◌++◌, [], ◌∷◌, length, take, OnOk, OnErr};
ghost use Rattle.mc_script.specs.Meaning.{Puts, event_words, goal_word, switch_word, spelling};
ghost use Rattle.mc_script.specs.Printed.{IsNamed, IsNamedEvent, IsFoundCommand, IsFoundEvent};

use crate::command::Command;
use mc_box::{Change, Event, MediaChange, Turn};
use mc_slot::Goal;
use mc_text::Names;
use std::alloc::AllocError;

/// Appends the line of a command without a line end, its words with single spaces between them.
///
/// A Settle can be printed, and of the events a Set, a Media or a Tell whose box, slots and word have names. Where
/// memory runs out, `out` is as it was.
pub fn print_command(names: &Names, command: &Command, out: &mut Vec<u8>) -> Result<(), AllocError>
    requires { IsNamed names.now command.now }
    ensures printed { OnOk result (out.new.items ≡ out.old.items ++ spelling names.now command.now) }
    ensures unchanged { OnErr result (out.new.items ≡ out.old.items) }
    ensures found { IsFoundCommand names.now command.now }
{
    let before = out.len();
    let put = put_command(names, command, out);
    if put.is_err() {
        out.truncate(before);
    }
    put
}

// Appends the line of a command. Want of memory may come in the middle.
fn put_command(names: &Names, command: &Command, out: &mut Vec<u8>) -> Result<(), AllocError>
    requires { IsNamed names.now command.now }
    ensures printed { OnOk result (out.new.items ≡ out.old.items ++ spelling names.now command.now) }
    ensures before { take (length out.old.items) out.new.items ≡ out.old.items }
    ensures found { IsFoundCommand names.now command.now }
{
    match *command {
        Command::Stimulus(turn) => put_turn(names, turn, out),
        Command::Settle => out.extend_from_slice(b"settle"),
    }
}

fn put_turn(names: &Names, turn: Turn, out: &mut Vec<u8>) -> Result<(), AllocError>
    requires { IsNamedEvent names.now turn.who turn.event }
    ensures printed { Puts result out.old.items out.new.items (event_words names.now turn.who turn.event) }
    ensures before { take (length out.old.items) out.new.items ≡ out.old.items }
    ensures found { IsFoundEvent names.now turn.who turn.event }
{
    let who = turn.who;
    match turn.event {
        Event::Set(Change::End(local, goal)) => put_four(
            b"set",
            names.box_name(who),
            names.slot_name(who, local),
            goal_word(goal),
            out,
        ),
        Event::Set(Change::Link(local, other)) => put_four(
            b"link",
            names.box_name(who),
            names.slot_name(who, local),
            names.slot_name(who, other),
            out,
        ),
        Event::Media(MediaChange::Hear(local, on)) => put_four(
            b"hear",
            names.box_name(who),
            names.slot_name(who, local),
            switch_word(on),
            out,
        ),
        Event::Media(MediaChange::Talk(local, on)) => put_four(
            b"talk",
            names.box_name(who),
            names.slot_name(who, local),
            switch_word(on),
            out,
        ),
        Event::Tell(told) => put_three(b"tell", names.box_name(who), names.told_name(told), out),
        _ => unreachable!(),
    }
}

fn put_four(
    first: &[u8],
    second: &[u8],
    third: &[u8],
    fourth: &[u8],
    out: &mut Vec<u8>,
) -> Result<(), AllocError>
    ensures printed { Puts result out.old.items out.new.items
        (first.now ∷ second.now ∷ third.now ∷ fourth.now ∷ []) }
    ensures before { take (length out.old.items) out.new.items ≡ out.old.items }
{
    put_three(first, second, third, out)?;
    put_next(fourth, out)
}

fn put_three(first: &[u8], second: &[u8], third: &[u8], out: &mut Vec<u8>) -> Result<(), AllocError>
    ensures printed { Puts result out.old.items out.new.items (first.now ∷ second.now ∷ third.now ∷ []) }
    ensures before { take (length out.old.items) out.new.items ≡ out.old.items }
{
    out.extend_from_slice(first)?;
    put_next(second, out)?;
    put_next(third, out)
}

// Appends a word after a space.
fn put_next(word: &[u8], out: &mut Vec<u8>) -> Result<(), AllocError>
    ensures printed { OnOk result (out.new.items ≡ out.old.items ++ (32 ∷ word.now)) }
    ensures before { take (length out.old.items) out.new.items ≡ out.old.items }
{
    out.push(b' ')?;
    out.extend_from_slice(word)
}

/// The word of a goal.
pub fn goal_word(goal: Goal) -> &'static [u8]
    ensures { result.now ≡ goal_word goal }
{
    match goal {
        Goal::Open => b"open",
        Goal::Close => b"close",
        Goal::Hold => b"hold",
    }
}

fn switch_word(on: bool) -> &'static [u8]
    ensures { result.now ≡ switch_word on }
{
    if on { b"on" } else { b"off" }
}
