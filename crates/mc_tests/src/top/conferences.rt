// Whom a mixer at a box would let each party hear, and boxes that aren't features.

use super::{Row, are_answered, are_no_command, call, is_answered, is_equal};
use mc_io::OpenGate;
use std::alloc::AllocError;

// Three phones at a box, which holds all three.
const PARTIES: &str = "media 1\n\
    codec g711\n\
    dev alice g711\n\
    dev bob g711\n\
    dev carol g711\n\
    feat m\n\
    chan audio alice a m a\n\
    chan audio bob a m b\n\
    chan audio carol a m c\n\
    begin\n\
    set alice a open\n\
    set bob a open\n\
    set carol a open\n\
    set m a hold\n\
    set m b hold\n\
    set m c hold\n";

// What is printed of their paths at the first settle.
const PATHS: &str = "settle 1\n\
    path alice/a m/a open hold flowing audio\n\
    hears alice/a none\n\
    hears m/a none\n\
    path bob/a m/b open hold flowing audio\n\
    hears bob/a none\n\
    hears m/b none\n\
    path carol/a m/c open hold flowing audio\n\
    hears carol/a none\n\
    hears m/c none\n";

const ALL_PAIRS: &str = "conf m legs 3\n\
    mix alice/a bob/a g711\n\
    mix alice/a carol/a g711\n\
    mix bob/a alice/a g711\n\
    mix bob/a carol/a g711\n\
    mix carol/a alice/a g711\n\
    mix carol/a bob/a g711\n";

// The commands of the three, what is printed after their paths, and the words' box.
const THREE: [(&str, &str); 3] = [
    ("settle\n", ALL_PAIRS),
    // bob is muted, and carol doesn't hear
    (
        "talk bob a off\nhear carol a off\nsettle\n",
        "conf m legs 3\nmix alice/a carol/a g711\nmix bob/a alice/a g711\nmix bob/a carol/a g711\n",
    ),
    // nothing is run after the last settle
    ("settle\ntalk bob a off\n", ALL_PAIRS),
];

#[test]
fn three_parties_hear_each_other(rt: HostRuntime) -> Result<(), AllocError> {
    let alloc = rt.alloc();
    for (rest, pairs) in THREE {
        let text = format!(in alloc; "{PARTIES}{rest}")?;
        let printed = format!(in alloc; "{PATHS}{pairs}")?;
        is_answered(
            &rt,
            alloc,
            &["conf", "m"],
            text.as_str(),
            0,
            printed.as_str(),
            rest,
        )?;
    }
    Ok(())
}

const AT_BOX_M: [Row; 6] = [
    // one leaves
    (
        PARTIES,
        "set alice a close\nset bob a close\nsettle\nset m c close\nsettle\n",
        0,
        "settle 1\n\
        path alice/a m/a close hold closed audio\n\
        path bob/a m/b close hold closed audio\n\
        path carol/a m/c open hold flowing audio\n\
        hears carol/a none\n\
        hears m/c none\n\
        conf m legs 1\n\
        settle 2\n\
        path alice/a m/a close hold closed audio\n\
        path bob/a m/b close hold closed audio\n\
        path carol/a m/c open close closed audio\n\
        conf m legs 0\n",
    ),
    // legs of two media: a pair needs one
    (
        "media 2\ncodec g711\ncodec h264\ndev alice g711\ndev bob h264\ndev carol g711\nfeat m\n",
        "chan audio alice a m a\nchan video bob v m v\nchan audio m c carol a\nbegin\nset alice a open\nset bob v open\nset carol a open\nset m a hold\nset m v hold\nset m c hold\nsettle\n",
        0,
        "settle 1\n\
        path alice/a m/a open hold flowing audio\n\
        hears alice/a none\n\
        hears m/a none\n\
        path bob/v m/v open hold flowing video\n\
        hears bob/v none\n\
        hears m/v none\n\
        path m/c carol/a hold open flowing audio\n\
        hears m/c none\n\
        hears carol/a none\n\
        conf m legs 3\n\
        mix alice/a carol/a g711\n\
        mix carol/a alice/a g711\n",
    ),
    // a leg whose far end is a feature is none
    (
        "media 1\ncodec g711\ndev alice g711\ndev bob g711\nfeat m\nfeat voice\n",
        "chan audio alice a m a\nchan audio voice v m v\nchan audio bob a m b\nbegin\nset alice a open\nset voice v open\nset bob a open\nset m a hold\nset m v hold\nset m b hold\nsettle\n",
        0,
        "settle 1\n\
        path alice/a m/a open hold flowing audio\n\
        hears alice/a none\n\
        hears m/a none\n\
        path voice/v m/v open hold flowing audio\n\
        hears voice/v none\n\
        hears m/v none\n\
        path bob/a m/b open hold flowing audio\n\
        hears bob/a none\n\
        hears m/b none\n\
        conf m legs 2\n\
        mix alice/a bob/a g711\n\
        mix bob/a alice/a g711\n",
    ),
    // two conference boxes on one call: what is between them is no leg
    (
        "media 1\ncodec g711\ndev alice g711\ndev bob g711\nfeat m\nfeat n\n",
        "chan audio alice a m a\nchan audio m n n m\nchan audio bob a n b\nbegin\nset alice a open\nset m n open\nset bob a open\nset m a hold\nset n m hold\nset n b hold\nsettle\n",
        0,
        "settle 1\n\
        path alice/a m/a open hold flowing audio\n\
        hears alice/a none\n\
        hears m/a none\n\
        path m/n n/m open hold flowing audio\n\
        hears m/n none\n\
        hears n/m none\n\
        path bob/a n/b open hold flowing audio\n\
        hears bob/a none\n\
        hears n/b none\n\
        conf m legs 1\n",
    ),
    // hold against hold stays closed
    (
        "media 1\ncodec g711\ndev alice g711\ndev bob g711\nfeat m\n",
        "chan audio alice a m a\nchan audio bob a m b\nbegin\nset alice a hold\nset bob a hold\nset m a hold\nset m b hold\nsettle\n",
        0,
        "settle 1\n\
        path alice/a m/a hold hold closed audio\n\
        path bob/a m/b hold hold closed audio\n\
        conf m legs 0\n",
    ),
    // the codec is the first of the one that hears, and the order that of the slots, whichever side began
    (
        "media 1\ncodec g711\ncodec g729\ndev alice g729 g711\ndev bob g711\nfeat m\nfeat f\n",
        "chan audio m b f w\nchan audio f e bob a\nchan audio m a alice a\nbegin\nlink f w e\nset alice a open\nset bob a open\nset m a hold\nset m b hold\nsettle\n",
        0,
        "settle 1\n\
        path m/b bob/a hold open flowing audio\n\
        hears m/b none\n\
        hears bob/a none\n\
        path m/a alice/a hold open flowing audio\n\
        hears m/a none\n\
        hears alice/a none\n\
        conf m legs 2\n\
        mix bob/a alice/a g711\n\
        mix alice/a bob/a g729\n",
    ),
];

#[test]
fn legs_and_pairs_of_a_box(rt: HostRuntime) -> Result<(), AllocError> {
    are_answered(&rt, rt.alloc(), &["conf", "m"], &AT_BOX_M)
}

// A fault of the text comes first, and a box that is no feature before the settles: also before a ring.
const NO_FEATURES: [(&str, &str, u8, &str); 5] = [
    ("alice", "settle\n", 9, "nobox alice\n"),
    ("nobody", "settle\n", 9, "nobox nobody\n"),
    ("alice", "settle now\n", 1, "fault 7 line 17\n"),
    ("m", "settle now\n", 1, "fault 7 line 17\n"),
    ("alice", "link m a b\nsettle\n", 9, "nobox alice\n"),
];

#[test]
fn a_box_that_is_no_feature_is_told_before_the_settles(rt: HostRuntime) -> Result<(), AllocError> {
    let alloc = rt.alloc();
    for (name, rest, status, printed) in NO_FEATURES {
        let text = format!(in alloc; "{PARTIES}{rest}")?;
        is_answered(
            &rt,
            alloc,
            &["conf", name],
            text.as_str(),
            status,
            printed,
            rest,
        )?;
    }
    Ok(())
}

#[test]
fn a_box_that_is_no_feature_keeps_no_journal(rt: HostRuntime) -> Result<(), AllocError> {
    let alloc = rt.alloc();
    let ended = call(
        &rt,
        alloc,
        &OpenGate,
        &["conf", "alice"],
        PARTIES.as_bytes(),
        0,
        1,
    )?;
    is_equal(&rt, &ended.done.status, &5);
    is_equal(&rt, &ended.done.due, &9);
    is_equal(&rt, &ended.done.journal.len(), &0);
    Ok(())
}

const NOT_A_BOX: [&[&str]; 8] = [
    &["conf"],
    &["conf", ""],
    &["conf", "M"],
    &["conf", "1"],
    &["conf", "abcdefghijklmnopq"],
    &["conf", "m", "n"],
    &["--journal", "conf", "m"],
    &["conf", "--", "m", "--journal"],
];

#[test]
fn words_without_the_name_of_a_box_are_no_command(rt: HostRuntime) -> Result<(), AllocError> {
    are_no_command(&rt, rt.alloc(), &NOT_A_BOX)
}
