// Why paths closed: what `why` says of a text with a journal.

use super::journals::{FEATURE, FEATURE_PRINTED};
use super::{CALLED, PHONES, Piece, Row, answered, are_answered, is_equal, is_equal_at, text_of};
use mc_box::{Change, Event, Turn};
use mc_script::JournalLine;
use mc_slot::Goal;
use std::alloc::{AllocError, Global};
use std::process::Abort;
use std::thread::Threads;

// A call that alice makes, ends, makes again and ends again.
const TWICE: &str = "set alice a open\nset bob a hold\nsettle\n\
    set alice a close\nsettle\n\
    set alice a open\nsettle\n\
    set alice a close\nsettle\n\
    journal\n\
    turn set alice a open\n\
    turn set bob a hold\n\
    turn take bob a\n\
    turn take alice a\n\
    turn take bob a\n\
    turn take alice a\n\
    settle\n\
    turn set alice a close\n\
    turn take bob a\n\
    turn take alice a\n\
    settle\n\
    turn set alice a open\n\
    turn take bob a\n\
    turn take alice a\n\
    turn take bob a\n\
    turn take alice a\n\
    settle\n\
    turn set alice a close\n\
    turn take bob a\n\
    turn take alice a\n\
    settle\n";

// A feature whose program opens, and closes when it is told.
const PROGRAMMED: &str = "media 1\n\
    codec g711\n\
    dev d g711\n\
    feat p\n\
    chan audio d a p a\n\
    prog p s0 s1\n\
    state s0\n\
    goal a open\n\
    when told out s1\n\
    state s1\n\
    goal a close\n\
    begin\n\
    set d a hold\n\
    settle\n\
    tell p out\n\
    settle\n";

const ROWS: [Row; 9] = [
    // bob refuses the call, and at turn 6 what alice asks once more
    (
        PHONES,
        "set alice a open\nsettle\n\
        journal\n\
        turn set alice a open\n\
        turn take bob a\n\
        turn take alice a\n\
        turn take bob a\n\
        turn retry alice a\n\
        turn take bob a\n\
        turn take alice a\n\
        turn take bob a\n\
        settle\n",
        0,
        "settle 1\n\
        path alice/a bob/a open close closed audio\n\
        why alice/a 6\n\
        why bob/a 6\n",
    ),
    // two ends that hold have never been open
    (
        PHONES,
        "set alice a hold\nset bob a hold\nsettle\n\
        journal\n\
        turn set alice a hold\n\
        turn set bob a hold\n\
        settle\n",
        0,
        "settle 1\n\
        path alice/a bob/a hold hold closed audio\n\
        why alice/a never\n\
        why bob/a never\n",
    ),
    // both hang up, each before it has taken the other's close: a closeack closes each, and it is closed by its own
    (
        CALLED,
        "set alice a close\nset bob a close\nsettle\n\
        journal\n\
        turn set alice a open\n\
        turn set bob a hold\n\
        turn take bob a\n\
        turn take alice a\n\
        turn take bob a\n\
        turn take alice a\n\
        settle\n\
        turn set alice a close\n\
        turn set bob a close\n\
        turn take alice a\n\
        turn take bob a\n\
        turn take alice a\n\
        turn take bob a\n\
        settle\n",
        0,
        "settle 1\n\
        path alice/a bob/a open hold flowing audio\n\
        hears alice/a g729\n\
        hears bob/a g729\n\
        settle 2\n\
        path alice/a bob/a close close closed audio\n\
        why alice/a 7\n\
        why bob/a 8\n",
    ),
    // the last time counts
    (
        PHONES,
        TWICE,
        0,
        "settle 1\n\
        path alice/a bob/a open hold flowing audio\n\
        hears alice/a g729\n\
        hears bob/a g729\n\
        settle 2\n\
        path alice/a bob/a close hold closed audio\n\
        why alice/a 7\n\
        why bob/a 7\n\
        settle 3\n\
        path alice/a bob/a open hold flowing audio\n\
        hears alice/a g729\n\
        hears bob/a g729\n\
        settle 4\n\
        path alice/a bob/a close hold closed audio\n\
        why alice/a 15\n\
        why bob/a 15\n",
    ),
    // the step of a program
    (
        PROGRAMMED,
        "journal\n\
        turn set d a hold\n\
        turn shift p\n\
        turn take d a\n\
        turn take p a\n\
        turn take d a\n\
        turn take p a\n\
        settle\n\
        turn tell p out\n\
        turn shift p\n\
        turn take d a\n\
        turn take p a\n\
        settle\n",
        0,
        "settle 1\n\
        path d/a p/a hold open flowing audio\n\
        hears d/a none\n\
        hears p/a none\n\
        settle 2\n\
        path d/a p/a hold close closed audio\n\
        why d/a 8\n\
        why p/a 8\n",
    ),
    // texts and journals have their faults as under `check`
    (PHONES, "settle now\n", 1, "fault 7 line 8\n"),
    (CALLED, "", 8, "fault 35 turn 1\n"),
    (CALLED, "journal\nsettle 1\n", 8, "fault 32 turn 1\n"),
    (CALLED, "journal\nturn take bob a\n", 8, "fault 31 turn 1\n"),
];

#[test]
fn each_closed_path_has_its_causes(rt: HostRuntime) -> Result<(), AllocError> {
    are_answered(&rt, rt.alloc(), &["why"], &ROWS)
}

// bob refuses what alice asks once more, through a feature that passes it on.
const THROUGH: &str = "journal\n\
    turn link f w e\n\
    turn set alice a open\n\
    turn set bob a hold\n\
    turn take f w\n\
    turn take bob a\n\
    turn take f e\n\
    turn take alice a\n\
    turn take f e\n\
    turn take f w\n\
    turn take alice a\n\
    turn take bob a\n\
    settle\n\
    turn set bob a close\n\
    turn take f e\n\
    turn take bob a\n\
    turn take alice a\n\
    turn take f w\n\
    turn retry alice a\n\
    turn take f w\n\
    turn take bob a\n\
    turn take f e\n\
    turn take bob a\n\
    turn take alice a\n\
    turn take f w\n\
    settle\n";

#[test]
fn a_refusal_is_the_cause_through_a_feature(rt: HostRuntime) -> Result<(), AllocError> {
    let text = format!(in rt.alloc(); "{FEATURE}{THROUGH}")?;
    let printed = format!(in rt.alloc(); "{FEATURE_PRINTED}why alice/a 19\nwhy bob/a 19\n")?;
    let call = answered(&rt, rt.alloc(), &["why"], text.as_bytes())?;
    is_equal(&rt, &call.done.status, &0);
    is_equal(&rt, &call.written.as_slice(), &printed.as_bytes());
    Ok(())
}

// Two phones with 254 features in a row between them: alice calls bob, and hangs up.
const CHAIN: [Piece; 7] = [
    (1, "media 1\ncodec g711\ndev alice g711\ndev bob g711\n"),
    (254, "feat f%\n"),
    (1, "chan audio alice a f0 w\n"),
    (253, "chan audio f% e f^ w\n"),
    (1, "chan audio f253 e bob a\nbegin\n"),
    (254, "link f% w e\n"),
    (
        1,
        "set bob a hold\nset alice a open\nsettle\nset alice a close\nsettle\n",
    ),
];

const CHAIN_PRINTED: &str = "settle 1\n\
    path alice/a bob/a open hold flowing audio\n\
    hears alice/a g711\n\
    hears bob/a g711\n\
    settle 2\n\
    path alice/a bob/a close hold closed audio\n";

// alice hangs up.
const HANG_UP: JournalLine = JournalLine::Turn(Turn {
    who: 0,
    event: Event::Set(Change::End(0, Goal::Close)),
});

// The number of that turn, after the mark of the first settle.
fn hang_up_number(lines: &[JournalLine]) -> usize {
    let mut number = 0;
    for (index, line) in lines.iter().enumerate() {
        if *line == HANG_UP {
            number = index;
        }
    }
    number
}

// What `why` says of the text with the journal of a call on it.
fn is_told_at_both_ends<R: Threads + Sync + Abort>(
    rt: &R,
    alloc: Global,
    text: &str,
) -> Result<(), AllocError> {
    let run = answered(rt, alloc, &["one", "1", "--journal"], text.as_bytes())?;
    assert!(rt; CHAIN_PRINTED.len() <= run.written.len());
    let mut told = Vec::from_slice(alloc, text.as_bytes())?;
    told.extend_from_slice(&run.written[CHAIN_PRINTED.len()..])?;
    let number = hang_up_number(&run.done.journal);
    let printed = format!(in alloc; "{CHAIN_PRINTED}why alice/a {number}\nwhy bob/a {number}\n")?;
    let call = answered(rt, alloc, &["why"], &told)?;
    is_equal_at(rt, &call.done.status, &0, text);
    is_equal_at(rt, &call.written.as_slice(), &printed.as_bytes(), text);
    Ok(())
}

#[test]
fn a_hang_up_is_the_cause_over_254_features(rt: HostRuntime) -> Result<(), AllocError> {
    let text = text_of(rt.alloc(), &CHAIN)?;
    is_told_at_both_ends(&rt, rt.alloc(), text.as_str())
}
