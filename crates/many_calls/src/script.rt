// What the phones and features of calls are told, batch by batch.

use crate::network::BOXES_A_CALL;
use mc_box::{Change, Event, MediaChange, Turn};
use mc_script::Batch;
use mc_slot::Goal;
use std::alloc::{AllocError, Global};

const CALLER: u32 = 0;

const FIRST_FEATURE: u32 = 1;

const SECOND_FEATURE: u32 = 2;

const CALLEE: u32 = 3;

// The slot of a phone, and the slots by which a feature is called and calls on.
const PHONE_SLOT: u8 = 0;

const CALLED_SLOT: u8 = 0;

const CALLING_SLOT: u8 = 1;

// Which box of a call, and what it is told.
type Told = (u32, Event);

const LINK: Event = Event::Set(Change::Link(CALLED_SLOT, CALLING_SLOT));

const OPEN: Event = Event::Set(Change::End(PHONE_SLOT, Goal::Open));

const HOLD: Event = Event::Set(Change::End(PHONE_SLOT, Goal::Hold));

const CLOSE: Event = Event::Set(Change::End(PHONE_SLOT, Goal::Close));

// A call is opened through both features.
const OPENED: [Told; 4] = [
    (CALLER, OPEN),
    (FIRST_FEATURE, LINK),
    (SECOND_FEATURE, LINK),
    (CALLEE, HOLD),
];

// The callee doesn't hear.
const MUTED: [Told; 1] = [(CALLEE, Event::Media(MediaChange::Hear(PHONE_SLOT, false)))];

// It hears again.
const HEARD: [Told; 1] = [(CALLEE, Event::Media(MediaChange::Hear(PHONE_SLOT, true)))];

// The first feature holds the callee, and the caller too.
const HELD: [Told; 2] = [
    (
        FIRST_FEATURE,
        Event::Set(Change::End(CALLED_SLOT, Goal::Hold)),
    ),
    (
        FIRST_FEATURE,
        Event::Set(Change::End(CALLING_SLOT, Goal::Hold)),
    ),
];

// It links them again.
const RESUMED: [Told; 1] = [(FIRST_FEATURE, LINK)];

// Both phones close.
const CLOSED: [Told; 2] = [(CALLER, CLOSE), (CALLEE, CLOSE)];

// Each call is told this.
fn batch(alloc: Global, calls: u32, told: &[Told]) -> Result<Batch, AllocError> {
    let mut turns = Vec::new(alloc);
    for call in 0..calls {
        add_told(call.saturating_mul(BOXES_A_CALL), told, &mut turns)?;
    }
    Ok(Batch { turns })
}

// The call whose first box has this number is.
fn add_told(first: u32, told: &[Told], turns: &mut Vec<Turn>) -> Result<(), AllocError> {
    for (which, event) in told {
        let who = first.saturating_add(*which);
        turns.push(Turn { who, event: *event })?;
    }
    Ok(())
}

/// The batches by which so many calls are opened, muted, heard again, held, resumed and closed.
pub fn script(alloc: Global, calls: u32) -> Result<Vec<Batch>, AllocError> {
    let mut batches = Vec::new(alloc);
    for told in [
        &OPENED[..],
        &MUTED[..],
        &HEARD[..],
        &HELD[..],
        &RESUMED[..],
        &CLOSED[..],
    ] {
        batches.push(batch(alloc, calls, told)?)?;
    }
    Ok(batches)
}
