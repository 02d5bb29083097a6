// Networks of devices and features: links, paths of several tunnels, and rings.

use super::{Piece, Row, are_answered, is_answered_in_pieces, is_kept};
use mc_box::{Change, Event, Turn};
use mc_script::JournalLine;
use std::alloc::AllocError;

/// A path of four tunnels: three features link their two slots each.
pub const FOUR_TUNNELS: &str = "media 1\n\
    codec g711\n\
    dev alice g711\n\
    feat f\n\
    feat g\n\
    feat h\n\
    dev bob g711\n\
    chan audio alice a f w\n\
    chan audio f e g w\n\
    chan audio g e h w\n\
    chan audio h e bob a\n\
    begin\n\
    link f w e\n\
    link g w e\n\
    link h w e\n\
    set alice a open\n\
    set bob a open\n\
    settle\n";

// The feature holds alice's call, and only then links her to bob, who refuses her.
const HELD_THEN_REFUSED: &str = "media 1\n\
    codec g711\n\
    dev alice g711\n\
    feat f\n\
    dev bob g711\n\
    chan audio alice a f w\n\
    chan audio f e bob a\n\
    begin\n\
    set alice a open\n\
    set f w hold\n\
    settle\n\
    link f w e\n\
    settle\n";

// The feature moves alice's link from bob to carol, and keeps bob on hold.
const MOVED: &str = "media 1\n\
    codec g711\n\
    dev alice g711\n\
    dev bob g711\n\
    dev carol g711\n\
    feat f\n\
    chan audio alice a f a\n\
    chan audio bob a f b\n\
    chan audio carol a f c\n\
    begin\n\
    set alice a open\n\
    set bob a hold\n\
    set carol a hold\n\
    link f a b\n\
    settle\n\
    link f a c\n\
    settle\n";

// Both features move their links to the second channel between them. Bob's descriptor doesn't change meanwhile.
const MOVED_BETWEEN: &str = "media 1\n\
    codec g711\n\
    dev alice g711\n\
    feat f\n\
    feat g\n\
    dev bob g711\n\
    chan audio alice a f w\n\
    chan audio f p g p\n\
    chan audio f q g q\n\
    chan audio g e bob a\n\
    begin\n\
    set alice a open\n\
    set bob a hold\n\
    link f w p\n\
    link g p e\n\
    settle\n\
    link f w q\n\
    link g q e\n\
    settle\n";

// Two features that are joined twice, and each of which links its two slots.
const RING: &str = "media 1\n\
    feat x\n\
    feat y\n\
    chan audio x a y a\n\
    chan audio x b y b\n\
    begin\n\
    link x a b\n\
    link y a b\n\
    settle\n";

// After two phones, which settle before, so that the ring isn't at the first slots.
const LATER_RING: &str = "media 1\n\
    dev d\n\
    dev e\n\
    feat x\n\
    feat y\n\
    chan audio d a e a\n\
    chan audio y b x b\n\
    chan audio x a y a\n\
    begin\n\
    set d a open\n\
    settle\n\
    link x a b\n\
    link y a b\n\
    settle\n";

// A ring that the same batch takes apart again is none at its end.
const NO_RING: &str = "media 1\n\
    feat x\n\
    feat y\n\
    chan audio x a y a\n\
    chan audio x b y b\n\
    begin\n\
    link x a b\n\
    link y a b\n\
    set y b close\n\
    settle\n";

// One channel carries audio and video.
const AUDIO_AND_VIDEO: &str = "media 1\n\
    codec g711\n\
    dev alice g711\n\
    dev bob g711\n\
    chan audio alice a bob a\n\
    also video v v\n\
    begin\n\
    set alice a open\n\
    set alice v open\n\
    set bob a hold\n\
    set bob v hold\n\
    settle\n";

/// Networks, the status of a call, and what it prints.
pub const TABLE: [Row; 8] = [
    (
        AUDIO_AND_VIDEO,
        "",
        0,
        "settle 1\npath alice/a bob/a open hold flowing audio\nhears alice/a g711\nhears bob/a g711\npath alice/v bob/v open hold flowing video\nhears alice/v g711\nhears bob/v g711\n",
    ),
    (
        FOUR_TUNNELS,
        "",
        0,
        "settle 1\npath alice/a bob/a open open flowing audio\nhears alice/a g711\nhears bob/a g711\n",
    ),
    (
        HELD_THEN_REFUSED,
        "",
        0,
        "settle 1\npath alice/a f/w open hold flowing audio\nhears alice/a none\nhears f/w none\npath f/e bob/a close close closed audio\nsettle 2\npath alice/a bob/a open close closed audio\n",
    ),
    (
        MOVED,
        "",
        0,
        "settle 1\npath alice/a bob/a open hold flowing audio\nhears alice/a g711\nhears bob/a g711\npath carol/a f/c hold close closed audio\nsettle 2\npath alice/a carol/a open hold flowing audio\nhears alice/a g711\nhears carol/a g711\npath bob/a f/b hold hold flowing audio\nhears bob/a none\nhears f/b none\n",
    ),
    (
        MOVED_BETWEEN,
        "",
        0,
        "settle 1\npath alice/a bob/a open hold flowing audio\nhears alice/a g711\nhears bob/a g711\npath f/q g/q close close closed audio\nsettle 2\npath alice/a bob/a open hold flowing audio\nhears alice/a g711\nhears bob/a g711\npath f/p g/p hold hold flowing audio\nhears f/p none\nhears g/p none\n",
    ),
    (RING, "", 7, "ring x/a\n"),
    (LATER_RING, "", 7, "ring y/b\n"),
    (
        NO_RING,
        "",
        0,
        "settle 1\npath y/a y/b hold close closed audio\n",
    ),
];

#[test]
fn links_make_paths_and_rings(rt: HostRuntime) -> Result<(), AllocError> {
    are_answered(&rt, rt.alloc(), &["run"], &TABLE)
}

// The commands alone decide what is printed of these texts, wherever the draws begin.
#[test]
fn other_draws_print_the_same(rt: HostRuntime) -> Result<(), AllocError> {
    for state in &["1", "2", "3", "1000000007", "2147483647"] {
        are_answered(&rt, rt.alloc(), &["one", state], &TABLE)?;
    }
    Ok(())
}

// The turns in which two boxes link their first two slots each.
const LINKED: [JournalLine; 2] = [
    JournalLine::Turn(Turn {
        who: 0,
        event: Event::Set(Change::Link(0, 1)),
    }),
    JournalLine::Turn(Turn {
        who: 1,
        event: Event::Set(Change::Link(0, 1)),
    }),
];

#[test]
fn a_ring_keeps_the_turns_before_it(rt: HostRuntime) -> Result<(), AllocError> {
    is_kept(
        &rt,
        rt.alloc(),
        &["one", "0"],
        RING,
        7,
        &LINKED,
        "ring x/a\n",
    )
}

// Two phones with 254 features in a row between them, of which each is to link its two slots: one calls the other ten
// times.
const CHAIN: [Piece; 8] = [
    (1, "media 1\ncodec g711\ndev alice g711\ndev bob g711\n"),
    (254, "feat f%\n"),
    (1, "chan audio alice a f0 w\n"),
    (253, "chan audio f% e f^ w\n"),
    (1, "chan audio f253 e bob a\nbegin\n"),
    (254, "link f% w e\n"),
    (1, "set bob a hold\n"),
    (10, "set alice a open\nsettle\nset alice a close\nsettle\n"),
];

const CHAIN_PRINTED: &str = "settle 1\n\
    path alice/a bob/a open hold flowing audio\n\
    hears alice/a g711\n\
    hears bob/a g711\n\
    settle 2\n\
    path alice/a bob/a close hold closed audio\n\
    settle 3\n\
    path alice/a bob/a open hold flowing audio\n\
    hears alice/a g711\n\
    hears bob/a g711\n\
    settle 4\n\
    path alice/a bob/a close hold closed audio\n\
    settle 5\n\
    path alice/a bob/a open hold flowing audio\n\
    hears alice/a g711\n\
    hears bob/a g711\n\
    settle 6\n\
    path alice/a bob/a close hold closed audio\n\
    settle 7\n\
    path alice/a bob/a open hold flowing audio\n\
    hears alice/a g711\n\
    hears bob/a g711\n\
    settle 8\n\
    path alice/a bob/a close hold closed audio\n\
    settle 9\n\
    path alice/a bob/a open hold flowing audio\n\
    hears alice/a g711\n\
    hears bob/a g711\n\
    settle 10\n\
    path alice/a bob/a close hold closed audio\n\
    settle 11\n\
    path alice/a bob/a open hold flowing audio\n\
    hears alice/a g711\n\
    hears bob/a g711\n\
    settle 12\n\
    path alice/a bob/a close hold closed audio\n\
    settle 13\n\
    path alice/a bob/a open hold flowing audio\n\
    hears alice/a g711\n\
    hears bob/a g711\n\
    settle 14\n\
    path alice/a bob/a close hold closed audio\n\
    settle 15\n\
    path alice/a bob/a open hold flowing audio\n\
    hears alice/a g711\n\
    hears bob/a g711\n\
    settle 16\n\
    path alice/a bob/a close hold closed audio\n\
    settle 17\n\
    path alice/a bob/a open hold flowing audio\n\
    hears alice/a g711\n\
    hears bob/a g711\n\
    settle 18\n\
    path alice/a bob/a close hold closed audio\n\
    settle 19\n\
    path alice/a bob/a open hold flowing audio\n\
    hears alice/a g711\n\
    hears bob/a g711\n\
    settle 20\n\
    path alice/a bob/a close hold closed audio\n";

#[test]
fn a_call_over_254_features_is_made_and_ended_ten_times(rt: HostRuntime) -> Result<(), AllocError> {
    is_answered_in_pieces(
        &rt,
        rt.alloc(),
        &["run"],
        &CHAIN,
        0,
        CHAIN_PRINTED,
        "254 features",
    )
}
