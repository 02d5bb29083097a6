// The row of a turn.

ghost use Rattle.std.specs.Prelude.{◌≡◌, ◌+◌, ◌<◌, ◌^◌, ◌++◌, [], slice_index_or, OnOk};
ghost use Rattle.mc_cause.specs.Carried.{AreOfSlots};
ghost use Rattle.mc_ladder.specs.Rows.{arrow_of, command_lanes, command_rest, command_row, command_tail, command_word, mark_glyph_of, mark_of, next_world, state_among, state_at, state_word, switch_text, take_lanes, take_row, take_tail, taken_row, turn_row};
ghost use Rattle.mc_ladder_choice.specs.Noted.{NotesLine};
ghost use Rattle.mc_script.specs.Meaning.{switch_word};
ghost use Rattle.mc_script.specs.declared.command.JournalLine.TheVariants.{Turn as Made};

use crate::arrow::{Arrow, put_arrow};
use crate::column::column_of;
use crate::frame::Frame;
use crate::glyph::{Glyph, Style};
use crate::margin::{Label, put_number};
use crate::mark::{Mark, put_mark};
use crate::place::{
    box_word, place_of, place_word, put_box_place, put_take_place, slot_word, told_word,
};
use crate::signal::{put_signal, put_word, signal_word};
use crate::taking::{Taking, taking_of};
use mc_box::{Change, Event, MediaChange, Turn};
use mc_cause::Whys;
use mc_ladder_choice::make_noted;
use mc_program_lines::Block;
use mc_script::goal_word;
use mc_text::Names;
use mc_world::World;
use std::alloc::{AllocError, Global};

// ---- a Take

/// The arrow of a Take: from the box of the slot that sent to that of the slot that takes.
pub fn arrow_of(columns: &[u32], world: &World, taken: &Taking) -> Arrow
    ensures { result ≡ arrow_of columns.now world.now taken.now }
{
    Arrow {
        from: column_of(columns, place_of(world, taken.from).0),
        to: column_of(columns, place_of(world, taken.slot).0),
        dropped: taken.dropped,
    }
}

// Appends what stands after the lanes of a Take.
fn put_take_tail(
    alloc: Global,
    frame: &Frame,
    names: &Names,
    world: &World,
    taken: &Taking,
    out: &mut Vec<u8>,
) -> Result<(), AllocError>
    ensures { OnOk result (out.new.items ≡ out.old.items ++ take_tail frame.now names.now world.now taken.now) }
{
    let from = place_word(alloc, names, world, taken.from)?;
    let to = place_word(alloc, names, world, taken.slot)?;
    put_take_place(frame.style, &from, &to, frame.width, out)?;
    out.push(b' ')?;
    put_signal(alloc, names, world, &taken.signal, taken.dropped, out)?;
    out.push(b'\n')?;
    Ok(())
}

// Appends the number and the arrow of a Take.
fn put_take_lanes(
    alloc: Global,
    style: Style,
    columns: &[u32],
    world: &World,
    taken: &Taking,
    label: Label,
    out: &mut Vec<u8>,
) -> Result<(), AllocError>
    ensures { OnOk result (out.new.items ≡ out.old.items ++ take_lanes style columns.now world.now taken.now label) }
{
    let arrow = arrow_of(columns, world, taken);
    put_number(alloc, style, label, out)?;
    put_arrow(style, columns.len(), arrow, signal_word(&taken.signal), out)
}

// Appends the row of a Take.
fn put_take(
    alloc: Global,
    frame: &Frame,
    names: &Names,
    world: &World,
    taken: &Taking,
    label: Label,
    out: &mut Vec<u8>,
) -> Result<(), AllocError>
    ensures { OnOk result (out.new.items ≡ out.old.items ++ take_row frame.now names.now world.now taken.now label) }
{
    put_take_lanes(alloc, frame.style, &frame.columns, world, taken, label, out)?;
    put_take_tail(alloc, frame, names, world, taken, out)
}

// Appends the row of what is taken, if anything is.
fn put_taken(
    alloc: Global,
    frame: &Frame,
    names: &Names,
    world: &World,
    taken: Option<Taking>,
    label: Label,
    out: &mut Vec<u8>,
) -> Result<(), AllocError>
    ensures { OnOk result (out.new.items ≡ out.old.items ++ taken_row frame.now names.now world.now taken label) }
{
    match taken {
        Some(taken) => put_take(alloc, frame, names, world, &taken, label, out),
        None => Ok(()),
    }
}

// ---- any other turn

/// The first word of a turn.
pub fn command_word(event: Event) -> &'static [u8]
    ensures { result.now ≡ command_word event }
{
    match event {
        Event::Take(_) => b"take",
        Event::Set(Change::End(_, _)) => b"set",
        Event::Set(Change::Link(_, _)) => b"link",
        Event::Media(MediaChange::Hear(_, _)) => b"hear",
        Event::Media(MediaChange::Talk(_, _)) => b"talk",
        Event::Tell(_) => b"tell",
        Event::Retry(_) => b"retry",
        Event::Shift => b"shift",
    }
}

// What stands on the line of its box.
fn mark_glyph_of(event: Event) -> Glyph
    ensures { result ≡ mark_glyph_of event }
{
    match event {
        Event::Shift => Glyph::Down,
        Event::Retry(_) => Glyph::Up,
        _ => Glyph::Square,
    }
}

// Appends whether something is on.
fn put_switch(on: bool, out: &mut Vec<u8>) -> Result<(), AllocError>
    ensures { OnOk result (out.new.items ≡ out.old.items ++ switch_text on) }
{
    if on {
        put_word(b"on", out)
    } else {
        put_word(b"off", out)
    }
}

/// Appends the words of a turn after the first and its box, each after a space. A Shift leads to this state.
pub fn put_command_rest(
    names: &Names,
    who: u32,
    event: Event,
    state: &[u8],
    out: &mut Vec<u8>,
) -> Result<(), AllocError>
    ensures { OnOk result (out.new.items ≡ out.old.items ++ command_rest names.now who event state.now) }
{
    match event {
        Event::Take(local) => put_word(slot_word(names, who, local), out),
        Event::Set(Change::End(local, goal)) => {
            put_word(slot_word(names, who, local), out)?;
            put_word(goal_word(goal), out)
        }
        Event::Set(Change::Link(local, other)) => {
            put_word(slot_word(names, who, local), out)?;
            put_word(slot_word(names, who, other), out)
        }
        Event::Media(MediaChange::Hear(local, on)) => {
            put_word(slot_word(names, who, local), out)?;
            put_switch(on, out)
        }
        Event::Media(MediaChange::Talk(local, on)) => {
            put_word(slot_word(names, who, local), out)?;
            put_switch(on, out)
        }
        Event::Tell(told) => put_word(told_word(names, told), out),
        Event::Retry(local) => put_word(slot_word(names, who, local), out),
        Event::Shift => {
            put_word(b"to", out)?;
            put_word(state, out)
        }
    }
}

// Appends what stands after the lanes.
fn put_command_tail(
    frame: &Frame,
    names: &Names,
    turn: Turn,
    state: &[u8],
    out: &mut Vec<u8>,
) -> Result<(), AllocError>
    ensures { OnOk result (out.new.items ≡ out.old.items ++ command_tail frame.now names.now turn state.now) }
{
    put_box_place(frame.style, box_word(names, turn.who), frame.width, out)?;
    out.push(b' ')?;
    put_word(command_word(turn.event), out)?;
    put_command_rest(names, turn.who, turn.event, state, out)?;
    out.push(b'\n')?;
    Ok(())
}

/// The mark of a turn, at its box.
pub fn mark_of(columns: &[u32], turn: Turn) -> Mark
    ensures { result ≡ mark_of columns.now turn }
{
    Mark {
        at: column_of(columns, turn.who),
        glyph: mark_glyph_of(turn.event),
    }
}

// Appends the number and the mark of a turn that is no Take.
fn put_command_lanes(
    alloc: Global,
    style: Style,
    columns: &[u32],
    turn: Turn,
    label: Label,
    out: &mut Vec<u8>,
) -> Result<(), AllocError>
    ensures { OnOk result (out.new.items ≡ out.old.items ++ command_lanes style columns.now turn label) }
{
    put_number(alloc, style, label, out)?;
    put_mark(
        style,
        columns.len(),
        mark_of(columns, turn),
        command_word(turn.event),
        out,
    )
}

// Appends the row of a turn that is no Take.
fn put_command(
    alloc: Global,
    frame: &Frame,
    names: &Names,
    turn: Turn,
    state: &[u8],
    label: Label,
    out: &mut Vec<u8>,
) -> Result<(), AllocError>
    ensures { OnOk result (out.new.items ≡ out.old.items ++ command_row frame.now names.now turn state.now label) }
{
    put_command_lanes(alloc, frame.style, &frame.columns, turn, label, out)?;
    put_command_tail(frame, names, turn, state, out)
}

// ---- the state of a program

/// The number of the state that a box is at.
pub fn state_at(world: &World, who: u32) -> Option<u32>
    ensures { result ≡ state_at world.now who }
{
    match world.boxes().get(who as usize) {
        Some(home) => home.at(),
        None => None,
    }
}

// The name of a state of a program.
fn state_name(block: &Block, at: u32) -> &[u8]
    ensures { result.now ≡ slice_index_or block.now.states at [] }
{
    match block.states.get(at as usize) {
        Some(name) => name,
        None => b"",
    }
}

// The name of a state of a box's program, among these programs.
fn state_among(blocks: &[Block], who: u32, at: u32) -> &[u8]
    ensures { result.now ≡ state_among blocks.now who at }
{
    for block in blocks {
        if block.who == who {
            return state_name(block, at);
        }
    }
    b""
}

/// The name of the state that a box is at, among the programs of these blocks; none where it is at none.
pub fn state_word(blocks: &[Block], who: u32, at: Option<u32>) -> &[u8]
    ensures { result.now ≡ state_word blocks.now who at }
{
    match at {
        Some(at) => state_among(blocks, who, at),
        None => b"",
    }
}

// ---- a turn

// Appends the row of a turn, makes the turn, and notes why slots are closed.
pub fn put_turn(
    alloc: Global,
    frame: &Frame,
    names: &Names,
    blocks: &[Block],
    world: &mut World,
    whys: &mut Whys,
    turn: Turn,
    label: Label,
    out: &mut Vec<u8>,
) -> Result<(), AllocError>
    requires few { whys.old.turns + 1 < 2 ^ 32 }
    requires slots { AreOfSlots world.old whys.old }
    ensures row { OnOk result (out.new.items
        ≡ out.old.items ++ turn_row frame.now names.now blocks.now world.old turn label) }
    ensures made { OnOk result (world.new ≡ next_world world.old turn) }
    ensures notes { OnOk result (NotesLine world.old world.new (Made turn) whys.old whys.new) }
{
    match turn.event {
        Event::Take(local) => {
            let taken = taking_of(world, turn.who, local);
            put_taken(alloc, frame, names, world, taken, label, out)?;
            make_noted(world, whys, turn)
        }
        Event::Shift => {
            make_noted(world, whys, turn)?;
            let state = state_word(blocks, turn.who, state_at(world, turn.who));
            put_command(alloc, frame, names, turn, state, label, out)
        }
        _ => {
            put_command(alloc, frame, names, turn, b"", label, out)?;
            make_noted(world, whys, turn)
        }
    }
}
