// Networks that grow and shrink at settles: what their settles print, cuts that are refused, and faults after `grow`.

use super::{Piece, Row, are_answered, are_no_command, is_answered, is_answered_in_pieces};
use std::alloc::{AllocError, Global};
use std::process::Abort;
use std::thread::Threads;

// Three phones. Alice and bob speak, up to the first settle.
const CALLING: &str = "media 1\n\
    codec g711\n\
    dev alice g711\n\
    dev bob g711\n\
    dev carol g711\n\
    chan audio alice a bob a\n\
    begin\n\
    set alice a open\n\
    set bob a hold\n\
    settle\n";

// They have ended their call by the second.
const CALLED: &str = "media 1\n\
    codec g711\n\
    dev alice g711\n\
    dev bob g711\n\
    dev carol g711\n\
    chan audio alice a bob a\n\
    begin\n\
    set alice a open\n\
    set bob a hold\n\
    settle\n\
    set alice a close\n\
    set bob a close\n\
    settle\n";

const TWO_SETTLES: &str = "settle 1\n\
    path alice/a bob/a open hold flowing audio\n\
    hears alice/a g711\n\
    hears bob/a g711\n\
    settle 2\n\
    path alice/a bob/a close close closed audio\n";

const THREE_SETTLES: &str = "settle 1\n\
    path alice/a bob/a open hold flowing audio\n\
    hears alice/a g711\n\
    hears bob/a g711\n\
    settle 2\n\
    path alice/a bob/a close close closed audio\n\
    settle 3\n\
    path alice/b carol/a open open flowing audio\n\
    hears alice/b g711\n\
    hears carol/a g711\n";

// Their channel is cut, and carol calls alice.
const CAROL_CALLS: &str = "grow\n\
    cut alice a\n\
    join audio alice b carol a\n\
    set alice b open\n\
    set carol a open\n\
    settle\n";

const ROWS: [Row; 19] = [
    (CALLED, CAROL_CALLS, 0, THREE_SETTLES),
    (CALLING, CAROL_CALLS, 10, "cut alice/a\n"),
    // bob still holds
    (
        CALLING,
        "set alice a close\nsettle\ngrow\ncut alice a\nsettle\n",
        10,
        "cut bob/a\n",
    ),
    // nothing is settled after it, so the cut isn't made
    (
        CALLING,
        "grow\ncut alice a\n",
        0,
        "settle 1\npath alice/a bob/a open hold flowing audio\nhears alice/a g711\nhears bob/a g711\n",
    ),
    // either end names the channel
    (
        CALLED,
        "grow\ncut bob a\nsettle\n",
        0,
        "settle 1\npath alice/a bob/a open hold flowing audio\nhears alice/a g711\nhears bob/a g711\nsettle 2\npath alice/a bob/a close close closed audio\nsettle 3\n",
    ),
    (
        CALLED,
        "grow\njoin video alice v carol v\nsettle\n",
        0,
        "settle 1\npath alice/a bob/a open hold flowing audio\nhears alice/a g711\nhears bob/a g711\nsettle 2\npath alice/a bob/a close close closed audio\nsettle 3\npath alice/a bob/a close close closed audio\npath alice/v carol/v close close closed video\n",
    ),
    // without the line it is run as by `run`
    (CALLED, "", 0, TWO_SETTLES),
    (CALLED, "grow\n", 0, TWO_SETTLES),
    // a slot that is out is named again
    (
        CALLED,
        "grow\ncut alice a\nset bob a open\n",
        1,
        "fault 11 line 16\n",
    ),
    (
        CALLED,
        "grow\ncut alice a\ncut bob a\n",
        1,
        "fault 11 line 16\n",
    ),
    (
        CALLED,
        "grow\ncut alice a\njoin audio alice a carol a\n",
        1,
        "fault 9 line 16\n",
    ),
    // commands before a join, a cut, and `grow`
    (
        CALLED,
        "grow\nset alice a open\njoin audio alice b carol a\n",
        1,
        "fault 20 line 16\n",
    ),
    (
        CALLED,
        "grow\nset alice a open\ncut alice a\n",
        1,
        "fault 20 line 16\n",
    ),
    (CALLED, "set alice a open\ngrow\n", 1, "fault 20 line 15\n"),
    // lines of the beginning don't stand after `grow`
    (CALLED, "grow\ndev dan\n", 1, "fault 5 line 15\n"),
    (CALLED, "grow\ngrow\n", 1, "fault 5 line 15\n"),
    // nor do these stand before it
    (
        CALLED,
        "join audio alice b carol a\ngrow\n",
        1,
        "fault 5 line 14\n",
    ),
    // boxes with programs keep their channels
    (
        "media 1\ndev alice\nfeat pbx\nchan audio alice a pbx a\nprog pbx on\nstate on\ngoal a hold\nbegin\n",
        "grow\njoin audio alice b pbx b\n",
        1,
        "fault 5 line 10\n",
    ),
    (
        "media 1\ndev alice\nfeat pbx\nchan audio alice a pbx a\nprog pbx on\nstate on\ngoal a hold\nbegin\n",
        "grow\ncut alice a\n",
        1,
        "fault 5 line 10\n",
    ),
];

#[test]
fn networks_grow_and_shrink_at_settles(rt: HostRuntime) -> Result<(), AllocError> {
    are_answered(&rt, rt.alloc(), &["grow"], &ROWS)
}

const OTHER_WORDS: [&[&str]; 4] = [
    &["grow", "x"],
    &["--journal", "grow"],
    &["grow", "--journal"],
    &["grow", "run"],
];

#[test]
fn grow_stands_alone(rt: HostRuntime) -> Result<(), AllocError> {
    are_no_command(&rt, rt.alloc(), &OTHER_WORDS)
}

const LINES: [&str; 19] = [
    "media 1\n",
    "codec g711\n",
    "dev alice g711\n",
    "dev bob g711\n",
    "dev carol g711\n",
    "chan audio alice a bob a\n",
    "begin\n",
    "set alice a open\n",
    "set bob a hold\n",
    "settle\n",
    "set alice a close\n",
    "set bob a close\n",
    "settle\n",
    "grow\n",
    "cut alice a\n",
    "join audio alice b carol a\n",
    "set alice b open\n",
    "set carol a open\n",
    "settle\n",
];

// What is printed of so many of the lines.
fn front_prints(count: usize) -> &'static str {
    match count {
        0 => "fault 17 line 1\n",
        1 => "fault 16 line 2\n",
        2 => "fault 16 line 3\n",
        3 => "fault 16 line 4\n",
        4 => "fault 16 line 5\n",
        5 => "fault 16 line 6\n",
        6 => "fault 16 line 7\n",
        7..=9 => "",
        10..=12 => {
            "settle 1\npath alice/a bob/a open hold flowing audio\nhears alice/a g711\nhears bob/a g711\n"
        }
        13..=18 => TWO_SETTLES,
        _ => THREE_SETTLES,
    }
}

// A call on so many of the lines prints that.
fn is_front<R: Threads + Sync + Abort>(
    rt: &R,
    alloc: Global,
    text: &str,
    count: usize,
) -> Result<(), AllocError> {
    let printed = front_prints(count);
    let status = u8::from(printed.starts_with("fault"));
    is_answered(rt, alloc, &["grow"], text, status, printed, text)
}

#[test]
fn each_front_of_a_text_has_its_fault_or_its_settles(rt: HostRuntime) -> Result<(), AllocError> {
    let mut text = String::new(rt.alloc());
    for (count, line) in LINES.iter().enumerate() {
        is_front(&rt, rt.alloc(), text.as_str(), count)?;
        text.push_str(line)?;
    }
    is_front(&rt, rt.alloc(), text.as_str(), LINES.len())
}

// Alice calls bob through a feature by channels that join for the call, and are cut after it.
const CALLS: [Piece; 2] = [
    (
        1,
        "media 1\ncodec g711\ndev alice g711\ndev bob g711\nfeat desk\nbegin\ngrow\n",
    ),
    (
        3,
        "join audio alice a% desk a%\n\
        join audio desk b% bob b%\n\
        link desk a% b%\n\
        set alice a% open\n\
        set bob b% hold\n\
        settle\n\
        set alice a% close\n\
        set desk a% close\n\
        set desk b% close\n\
        set bob b% close\n\
        settle\n\
        cut alice a%\n\
        cut bob b%\n",
    ),
];

const CALLS_PRINT: &str = "settle 1\n\
    path alice/a0 bob/b0 open hold flowing audio\n\
    hears alice/a0 g711\n\
    hears bob/b0 g711\n\
    settle 2\n\
    path alice/a0 desk/a0 close close closed audio\n\
    path desk/b0 bob/b0 close close closed audio\n\
    settle 3\n\
    path alice/a1 bob/b1 open hold flowing audio\n\
    hears alice/a1 g711\n\
    hears bob/b1 g711\n\
    settle 4\n\
    path alice/a1 desk/a1 close close closed audio\n\
    path desk/b1 bob/b1 close close closed audio\n\
    settle 5\n\
    path alice/a2 bob/b2 open hold flowing audio\n\
    hears alice/a2 g711\n\
    hears bob/b2 g711\n\
    settle 6\n\
    path alice/a2 desk/a2 close close closed audio\n\
    path desk/b2 bob/b2 close close closed audio\n";

#[test]
fn channels_join_for_a_call_and_are_cut_after_it(rt: HostRuntime) -> Result<(), AllocError> {
    is_answered_in_pieces(&rt, rt.alloc(), &["grow"], &CALLS, 0, CALLS_PRINT, "calls")
}

// Eight channels of two boxes.
const EIGHT_CHANNELS: &str = "chan audio l% a r% a\n\
    chan video l% b r% b\n\
    chan audio l% c r% c\n\
    chan video l% d r% d\n\
    chan audio l% e r% e\n\
    chan video l% f r% f\n\
    chan audio l% g r% g\n\
    chan video l% h r% h\n";

const TWO_BOXES: &str = "media 1\ndev a\ndev b\nbegin\ngrow\n";

const TWO_PHONES: &str = "media 1\ndev a\ndev b\nchan audio a x b y\nbegin\n";

const CLOSED: &str = "settle 1\npath a/x b/y close close closed audio\n";

// Texts whose joins and commands reach a limit, or pass it, and what is printed.
const LIMITS: [(&[Piece], &str); 10] = [
    // slots of a box, those that are out among them
    (&[(1, TWO_BOXES), (64, "join audio a s% b s%\n")], ""),
    (
        &[(1, TWO_BOXES), (65, "join audio a s% b s%\n")],
        "fault 14 line 70\n",
    ),
    (
        &[
            (1, TWO_BOXES),
            (64, "join audio a s% b s%\n"),
            (1, "cut a s0\njoin audio a t b t\n"),
        ],
        "fault 14 line 71\n",
    ),
    // channels, those that are out among them
    (
        &[
            (1, "media 1\n"),
            (128, "dev l%\ndev r%\n"),
            (127, EIGHT_CHANNELS),
            (1, "begin\ngrow\n"),
            (8, "join audio l127 s% r127 s%\n"),
        ],
        "",
    ),
    (
        &[
            (1, "media 1\n"),
            (128, "dev l%\ndev r%\n"),
            (127, EIGHT_CHANNELS),
            (1, "begin\ngrow\ncut l0 a\n"),
            (9, "join audio l127 s% r127 s%\n"),
        ],
        "fault 14 line 1285\n",
    ),
    // bytes of a name
    (
        &[(1, TWO_BOXES), (1, "join audio a abcdefghijklmnop b y\n")],
        "",
    ),
    (
        &[(1, TWO_BOXES), (1, "join audio a abcdefghijklmnopq b y\n")],
        "fault 18 line 6\n",
    ),
    // commands, over the whole text
    (
        &[
            (1, TWO_PHONES),
            (1, "settle\ngrow\n"),
            (4095, "set a x hold\n"),
        ],
        CLOSED,
    ),
    (
        &[
            (1, TWO_PHONES),
            (4095, "set a x hold\n"),
            (1, "settle\ngrow\nsettle\n"),
        ],
        "fault 14 line 4103\n",
    ),
    (
        &[
            (1, TWO_PHONES),
            (1, "settle\ngrow\n"),
            (4095, "set a x hold\n"),
            (1, "settle\n"),
        ],
        "fault 14 line 4103\n",
    ),
];

// A call on the text of these pieces prints this.
fn is_grown<R: Threads + Sync + Abort>(
    rt: &R,
    alloc: Global,
    pieces: &[Piece],
    printed: &str,
) -> Result<(), AllocError> {
    let status = u8::from(printed.starts_with("fault"));
    is_answered_in_pieces(rt, alloc, &["grow"], pieces, status, printed, printed)
}

#[test]
fn joins_reach_the_limits_and_pass_them(rt: HostRuntime) -> Result<(), AllocError> {
    for (pieces, printed) in &LIMITS {
        is_grown(&rt, rt.alloc(), pieces, printed)?;
    }
    Ok(())
}
