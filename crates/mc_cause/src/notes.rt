// What is carried after a turn, by the world after it.

ghost use Rattle.std.specs.Prelude.{◌≡◌, ◌<◌, length, slice_index_or, slice_set, None};
ghost use Rattle.mc_box.specs.Boxes.{slot_at};
ghost use Rattle.mc_box.specs.declared.event.Event.TheVariants.{Take};
ghost use Rattle.mc_cause.specs.Carried.{noted, origin_at};
ghost use Rattle.mc_cause.specs.CauseLaws.{closes_by, gives_close};
ghost use Rattle.mc_cause.specs.Causes.{is_closed};
ghost use Rattle.mc_cause.specs.Notes.{IsInside, Notes, NotesBox, NotesClosed, NotesOther, NotesTaken, with_partner, with_slot};
ghost use Rattle.mc_model.specs.Paths.{partner_of};
ghost use Rattle.mc_model.specs.Worlds.{box_at, slot_count};

use mc_box::{Change, Event, Turn};
use mc_slot::{Goal, State};
use mc_world::World;

// Notes all of a turn of this number.
pub fn note(
    world: &World,
    turn: Turn,
    number: u32,
    origins: &mut [Option<u32>],
    whys: &mut [Option<u32>],
)
    requires origins { length origins.old ≡ slot_count world.now }
    requires whys { length whys.old ≡ slot_count world.now }
    requires here { turn.who < length world.now.boxes }
    requires inside { IsInside world.now turn.who turn.event }
    ensures { Notes world.now turn.who turn.event number origins.old origins.new whys.old whys.new }
{
    match turn.event {
        Event::Take(local) => note_take(world, turn.who, local, number, origins, whys),
        event => note_other(world, turn.who, event, number, origins),
    }
}

// Notes a Take. Where the slot is opened or flowing after it, nothing has closed: so it is after most.
fn note_take(
    world: &World,
    who: u32,
    local: u8,
    number: u32,
    origins: &mut [Option<u32>],
    whys: &mut [Option<u32>],
)
    requires origins { length origins.old ≡ slot_count world.now }
    requires whys { length whys.old ≡ slot_count world.now }
    requires here { who < length world.now.boxes }
    requires inside { local < length (box_at world.now who).slots }
    ensures { Notes world.now who (Take local) number origins.old origins.new whys.old whys.new }
{
    let home = &world.boxes()[who as usize];
    let taker = &home.slots()[local as usize];
    if !taker.live() {
        match world.number(who, local) {
            Some(slot) => note_taken(world, slot, taker.state, number, origins, whys),
            None => {}
        }
    }
}

// The same by the slot's number, and its state.
fn note_taken(
    world: &World,
    slot: u32,
    state: State,
    number: u32,
    origins: &mut [Option<u32>],
    whys: &mut [Option<u32>],
)
    requires origins { length origins.old ≡ slot_count world.now }
    requires whys { length whys.old ≡ slot_count world.now }
    requires inside { slot < slot_count world.now }
    ensures { NotesTaken world.now slot state number origins.old origins.new whys.old whys.new }
{
    if is_closed(state) {
        note_closed(world, slot, number, origins, whys);
    } else {
        let old = origins[slot as usize];
        origins[slot as usize] = noted(state, old, number);
    }
}

// Whether a slot in this state is closed.
fn is_closed(state: State) -> bool
    ensures { result ≡ is_closed state }
{
    matches!(state, State::Closed)
}

// Notes a slot that has become closed: by its closeack, where it has waited for one, and else by a close, which its link
// passes on.
fn note_closed(
    world: &World,
    slot: u32,
    number: u32,
    origins: &mut [Option<u32>],
    whys: &mut [Option<u32>],
)
    requires origins { length origins.old ≡ slot_count world.now }
    requires whys { length whys.old ≡ slot_count world.now }
    requires inside { slot < slot_count world.now }
    ensures { NotesClosed world.now slot (slice_index_or origins.old slot None) number
        origins.old origins.new whys.old whys.new }
{
    match origins[slot as usize] {
        Some(own) => {
            whys[slot as usize] = Some(own);
            origins[slot as usize] = None;
        }
        None => {
            let origin = origin_at(world, origins, slot, number);
            whys[slot as usize] = Some(origin);
            note_partner(world, slot, origin, origins);
        }
    }
}

// From which turn the close comes that a slot takes: the far slot carries it.
fn origin_at(world: &World, origins: &[Option<u32>], slot: u32, number: u32) -> u32
    requires long { length origins.now ≡ slot_count world.now }
    requires inside { slot < slot_count world.now }
    ensures { result ≡ origin_at origins.now slot number }
{
    match origins[world.far(slot) as usize] {
        Some(origin) => origin,
        None => number,
    }
}

// Notes what the slot carries that this one is linked with.
fn note_partner(world: &World, slot: u32, origin: u32, origins: &mut [Option<u32>])
    requires long { length origins.old ≡ slot_count world.now }
    requires inside { slot < slot_count world.now }
    ensures { origins.new ≡ with_partner world.now (partner_of world.now slot) origin origins.old }
{
    match world.partner(slot) {
        Some(partner) => note_slot(world, partner, origin, origins),
        None => {}
    }
}

// Notes what one slot carries.
fn note_slot(world: &World, slot: u32, origin: u32, origins: &mut [Option<u32>])
    requires long { length origins.old ≡ slot_count world.now }
    requires inside { slot < slot_count world.now }
    ensures { origins.new ≡ with_slot world.now slot origin origins.old }
{
    let old = origins[slot as usize];
    origins[slot as usize] = noted(world.slot(slot).state, old, origin);
}

// What a slot in this state carries: what it carried, or else this turn.
fn noted(state: State, old: Option<u32>, origin: u32) -> Option<u32>
    ensures { result ≡ noted state old origin }
{
    match state {
        State::Closing => match old {
            Some(old) => Some(old),
            None => Some(origin),
        },
        _ => None,
    }
}

// Notes another event: what the slots of its box carry, where it may close of its own accord. Most turns are Takes, and
// are noted in fewer instructions where this is a call.
#[inline(never)]
fn note_other(world: &World, who: u32, event: Event, number: u32, origins: &mut [Option<u32>])
    requires long { length origins.old ≡ slot_count world.now }
    requires here { who < length world.now.boxes }
    ensures { NotesOther (closes_by event) world.now who number origins.old origins.new }
{
    if closes_by(event) {
        note_box(world, who, number, origins);
    }
}

// Whether an event that takes nothing closes of its own accord.
fn closes_by(event: Event) -> bool
    ensures { result ≡ closes_by event }
{
    match event {
        Event::Set(change) => gives_close(change),
        Event::Shift => true,
        Event::Take(_) | Event::Media(_) | Event::Tell(_) | Event::Retry(_) => false,
    }
}

// Whether a slot gets the goal close.
fn gives_close(change: Change) -> bool
    ensures { result ≡ gives_close change }
{
    matches!(change, Change::End(_, Goal::Close))
}

// Notes what the slots of a box carry.
fn note_box(world: &World, who: u32, origin: u32, origins: &mut [Option<u32>])
    requires long { length origins.old ≡ slot_count world.now }
    requires here { who < length world.now.boxes }
    ensures { NotesBox world.now who origin origins.old origins.new }
{
    world.keeps();
    let count = world.boxes()[who as usize].slots().len();
    for local in 0..count {
        match world.number(who, local as u8) {
            Some(slot) => note_slot(world, slot, origin, origins),
            None => {}
        }
    }
}
