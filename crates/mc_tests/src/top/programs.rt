// Programs of boxes: an exchange that swaps two calls, a prepaid box, and boxes that don't come to rest.

use super::{Piece, Row, are_answered, is_answered_in_pieces, is_kept, text_of};
use mc_box::{Event, Turn};
use mc_script::JournalLine;
use std::alloc::AllocError;

/// An exchange that links alice with bob or with carol, and keeps the other one on hold.
pub const SWAP: &str = "media 1\n\
    codec g711\n\
    dev alice g711\n\
    dev bob g711\n\
    dev carol g711\n\
    feat pbx\n\
    chan audio alice a pbx a\n\
    chan audio bob a pbx b\n\
    chan audio carol a pbx c\n\
    prog pbx ab ac\n\
    state ab\n\
    link a b\n\
    goal c hold\n\
    when told swap ac\n\
    state ac\n\
    link a c\n\
    goal b hold\n\
    when told swap ab\n\
    begin\n\
    set alice a open\n\
    set bob a hold\n\
    set carol a open\n\
    settle\n\
    tell pbx swap\n\
    settle\n\
    tell pbx swap\n\
    settle\n\
    set bob a close\n\
    settle\n";

/// What is printed of it.
pub const SWAPPED: &str = "settle 1\n\
    path alice/a bob/a open hold flowing audio\n\
    hears alice/a g711\n\
    hears bob/a g711\n\
    path carol/a pbx/c open hold flowing audio\n\
    hears carol/a none\n\
    hears pbx/c none\n\
    settle 2\n\
    path alice/a carol/a open open flowing audio\n\
    hears alice/a g711\n\
    hears carol/a g711\n\
    path bob/a pbx/b hold hold flowing audio\n\
    hears bob/a none\n\
    hears pbx/b none\n\
    settle 3\n\
    path alice/a bob/a open hold flowing audio\n\
    hears alice/a g711\n\
    hears bob/a g711\n\
    path carol/a pbx/c open hold flowing audio\n\
    hears carol/a none\n\
    hears pbx/c none\n\
    settle 4\n\
    path alice/a bob/a open close closed audio\n\
    path carol/a pbx/c open hold flowing audio\n\
    hears carol/a none\n\
    hears pbx/c none\n";

// The exchange drops carol by a command. The next Shift gives her slot the goal of its state again.
const SET_OVER: &str = "media 1\n\
    codec g711\n\
    dev alice g711\n\
    dev bob g711\n\
    dev carol g711\n\
    feat pbx\n\
    chan audio alice a pbx a\n\
    chan audio bob a pbx b\n\
    chan audio carol a pbx c\n\
    prog pbx ab ac\n\
    state ab\n\
    link a b\n\
    goal c hold\n\
    when told swap ac\n\
    state ac\n\
    link a c\n\
    goal b hold\n\
    when told swap ab\n\
    begin\n\
    set alice a open\n\
    set bob a hold\n\
    set carol a open\n\
    settle\n\
    set pbx c close\n\
    settle\n\
    tell pbx swap\n\
    settle\n\
    tell pbx swap\n\
    settle\n";

const TAKEN_BACK: &str = "settle 1\n\
    path alice/a bob/a open hold flowing audio\n\
    hears alice/a g711\n\
    hears bob/a g711\n\
    path carol/a pbx/c open hold flowing audio\n\
    hears carol/a none\n\
    hears pbx/c none\n\
    settle 2\n\
    path alice/a bob/a open hold flowing audio\n\
    hears alice/a g711\n\
    hears bob/a g711\n\
    path carol/a pbx/c open close closed audio\n\
    settle 3\n\
    path alice/a carol/a open open flowing audio\n\
    hears alice/a g711\n\
    hears carol/a g711\n\
    path bob/a pbx/b hold hold flowing audio\n\
    hears bob/a none\n\
    hears pbx/b none\n\
    settle 4\n\
    path alice/a bob/a open hold flowing audio\n\
    hears alice/a g711\n\
    hears bob/a g711\n\
    path carol/a pbx/c open hold flowing audio\n\
    hears carol/a none\n\
    hears pbx/c none\n";

// The prepaid box: a call, and the voice that asks for money while the callee waits.
const PREPAID: &str = "media 1\n\
    codec g711\n\
    codec g729\n\
    dev caller g711 g729\n\
    dev callee g729\n\
    dev voice g711\n\
    feat pc\n\
    chan audio caller a pc a\n\
    chan audio pc c callee a\n\
    chan audio pc v voice a\n\
    prog pc talk prompt\n\
    state talk\n\
    link a c\n\
    goal v close\n\
    when told out prompt\n\
    state prompt\n\
    link a v\n\
    goal c hold\n\
    when told paid talk\n\
    begin\n\
    set caller a open\n\
    set callee a hold\n\
    set voice a hold\n\
    settle\n\
    tell pc out\n\
    settle\n\
    tell pc paid\n\
    settle\n";

const PROMPTED: &str = "settle 1\n\
    path caller/a callee/a open hold flowing audio\n\
    hears caller/a g729\n\
    hears callee/a g729\n\
    path pc/v voice/a close hold closed audio\n\
    settle 2\n\
    path caller/a voice/a open hold flowing audio\n\
    hears caller/a g711\n\
    hears voice/a g711\n\
    path pc/c callee/a hold hold flowing audio\n\
    hears pc/c none\n\
    hears callee/a none\n\
    settle 3\n\
    path caller/a callee/a open hold flowing audio\n\
    hears caller/a g729\n\
    hears callee/a g729\n\
    path pc/v voice/a close hold closed audio\n";

// Who talks has nothing to pay: no guard of that state takes the word, and the next word replaces it.
const PAID_TOO_EARLY: &str = "media 1\n\
    codec g711\n\
    dev caller g711\n\
    dev voice g711\n\
    feat pc\n\
    chan audio caller a pc a\n\
    chan audio pc v voice a\n\
    prog pc talk prompt\n\
    state talk\n\
    goal a hold\n\
    goal v close\n\
    when told out prompt\n\
    state prompt\n\
    link a v\n\
    when told paid talk\n\
    begin\n\
    set caller a open\n\
    set voice a hold\n\
    settle\n\
    tell pc paid\n\
    settle\n\
    tell pc out\n\
    settle\n";

const STILL_PROMPTED: &str = "settle 1\n\
    path caller/a pc/a open hold flowing audio\n\
    hears caller/a none\n\
    hears pc/a none\n\
    path pc/v voice/a close hold closed audio\n\
    settle 2\n\
    path caller/a pc/a open hold flowing audio\n\
    hears caller/a none\n\
    hears pc/a none\n\
    path pc/v voice/a close hold closed audio\n\
    settle 3\n\
    path caller/a voice/a open hold flowing audio\n\
    hears caller/a g711\n\
    hears voice/a g711\n";

// A program links two slots of a feature, and a command two of the other.
const RING_BY_A_PROGRAM: &str = "media 1\n\
    feat x\n\
    feat y\n\
    chan audio x a y a\n\
    chan audio x b y b\n\
    prog x on\n\
    state on\n\
    link a b\n\
    begin\n\
    link y a b\n\
    settle\n";

// Two states, whose guards both hold.
const RESTLESS: &str = "media 1\n\
    dev d\n\
    feat p\n\
    chan audio d a p a\n\
    prog p s0 s1\n\
    state s0\n\
    goal a close\n\
    when is a closed s1\n\
    state s1\n\
    goal a close\n\
    when is a closed s0\n\
    begin\n\
    settle\n";

// The same, whose guards never hold.
const GUARDED: &str = "media 1\n\
    dev d\n\
    feat p\n\
    chan audio d a p a\n\
    prog p s0 s1\n\
    state s0\n\
    goal a close\n\
    when is a opened s1\n\
    state s1\n\
    goal a close\n\
    when is a opened s0\n\
    begin\n\
    settle\n";

const TABLE: [Row; 7] = [
    (SWAP, "", 0, SWAPPED),
    (SET_OVER, "", 0, TAKEN_BACK),
    (PREPAID, "", 0, PROMPTED),
    (PAID_TOO_EARLY, "", 0, STILL_PROMPTED),
    (RING_BY_A_PROGRAM, "", 7, "ring x/a\n"),
    (RESTLESS, "", 6, "restless p\n"),
    (
        GUARDED,
        "",
        0,
        "settle 1\npath d/a p/a close close closed audio\n",
    ),
];

#[test]
fn programs_set_goals_and_links(rt: HostRuntime) -> Result<(), AllocError> {
    are_answered(&rt, rt.alloc(), &["run"], &TABLE)
}

const P: u32 = 1;

const SHIFT: JournalLine = JournalLine::Turn(Turn {
    who: P,
    event: Event::Shift,
});

#[test]
fn a_restless_box_makes_256_shifts(rt: HostRuntime) -> Result<(), AllocError> {
    is_kept(
        &rt,
        rt.alloc(),
        &["run"],
        RESTLESS,
        6,
        &[SHIFT; 256],
        "restless p\n",
    )
}

#[test]
fn a_guarded_box_makes_one_shift(rt: HostRuntime) -> Result<(), AllocError> {
    is_kept(
        &rt,
        rt.alloc(),
        &["run"],
        GUARDED,
        0,
        &[SHIFT, JournalLine::Settled],
        "settle 1\npath d/a p/a close close closed audio\n",
    )
}

// A state of 16 words, of which the last one leads on. The slot is closed.
const STATE: &str = "state s%\n\
    goal a close\n\
    when told w0 s0\n\
    when told w1 s0\n\
    when told w2 s0\n\
    when told w3 s0\n\
    when told w4 s0\n\
    when told w5 s0\n\
    when told w6 s0\n\
    when told w7 s0\n\
    when told w8 s0\n\
    when told w9 s0\n\
    when told w10 s0\n\
    when told w11 s0\n\
    when told w12 s0\n\
    when told w13 s0\n\
    when told w14 s0\n\
    when told w15 s^\n";

// The slot is held in the last state alone, and its last word leads to the first one.
const LAST_STATE: &str = "state s63\n\
    goal a hold\n\
    when told w0 s0\n\
    when told w1 s0\n\
    when told w2 s0\n\
    when told w3 s0\n\
    when told w4 s0\n\
    when told w5 s0\n\
    when told w6 s0\n\
    when told w7 s0\n\
    when told w8 s0\n\
    when told w9 s0\n\
    when told w10 s0\n\
    when told w11 s0\n\
    when told w12 s0\n\
    when told w13 s0\n\
    when told w14 s0\n\
    when told w15 s0\n";

const STATES: [Piece; 8] = [
    (1, "media 1\ndev d\nfeat p\nchan audio d a p a\nprog p"),
    (64, " s%"),
    (1, "\n"),
    (63, STATE),
    (1, LAST_STATE),
    (1, "begin\nset d a open\n"),
    (63, "settle\ntell p w15\n"),
    (1, "settle\n"),
];

const STATES_PRINTED: [Piece; 2] = [
    (63, "settle ^\npath d/a p/a open close closed audio\n"),
    (
        1,
        "settle 64\npath d/a p/a open hold flowing audio\nhears d/a none\nhears p/a none\n",
    ),
];

#[test]
fn a_program_goes_through_64_states(rt: HostRuntime) -> Result<(), AllocError> {
    let printed = text_of(rt.alloc(), &STATES_PRINTED)?;
    is_answered_in_pieces(
        &rt,
        rt.alloc(),
        &["run"],
        &STATES,
        0,
        printed.as_str(),
        "64 states",
    )
}
