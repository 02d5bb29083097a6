// Journals: what `--journal` prints after the settles, and what `check` says of a text with a journal.

use super::{
    CALLED, PHONES, Piece, Row, answered, are_answered, is_answered_in_pieces, is_equal_at,
};
use std::alloc::{AllocError, Global};
use std::process::Abort;
use std::thread::Threads;

// Words, a script of the two phones, and what is printed.
const PRINTED: [(&[&str], &str, &str); 6] = [
    (
        &["one", "1", "--journal"],
        "set alice a open\nset bob a hold\nsettle\n",
        "settle 1\n\
        path alice/a bob/a open hold flowing audio\n\
        hears alice/a g729\n\
        hears bob/a g729\n\
        journal\n\
        turn set alice a open\n\
        turn set bob a hold\n\
        turn take bob a\n\
        turn take alice a\n\
        turn take bob a\n\
        turn take alice a\n\
        settle\n",
    ),
    (
        &["--journal", "one", "1"],
        "set alice a open\nsettle\n",
        "settle 1\n\
        path alice/a bob/a open close closed audio\n\
        journal\n\
        turn set alice a open\n\
        turn take bob a\n\
        turn take alice a\n\
        turn take bob a\n\
        turn retry alice a\n\
        turn take bob a\n\
        turn take alice a\n\
        turn take bob a\n\
        settle\n",
    ),
    (
        &["run", "--journal"],
        "settle\nsettle\n",
        "settle 1\n\
        path alice/a bob/a close close closed audio\n\
        settle 2\n\
        path alice/a bob/a close close closed audio\n\
        journal\n\
        settle\n\
        settle\n",
    ),
    (&["--journal", "run", "--journal", "--"], "", "journal\n"),
    (
        &["--journal", "--", "run"],
        "set alice a open\n",
        "journal\n",
    ),
    (
        &["one", "--journal", "7", "--"],
        "# nobody calls\n",
        "journal\n",
    ),
];

#[test]
fn the_flag_prints_the_journal_behind_the_settles(rt: HostRuntime) -> Result<(), AllocError> {
    for (words, script, printed) in &PRINTED {
        are_answered(&rt, rt.alloc(), words, &[(PHONES, script, 0, printed)])?;
    }
    Ok(())
}

// Two phones of one codec, which call each other by audio and by video over one channel.
const VIDEO: &str = "media 1\n\
    codec g711\n\
    dev alice g711\n\
    dev bob g711\n\
    chan audio alice a bob a\n\
    also video v v\n\
    begin\n\
    set alice a open\n\
    set alice v open\n\
    set bob a hold\n\
    set bob v hold\n\
    settle\n";

// A call through one feature, accepted and then ended by bob.
pub const FEATURE: &str = "media 1\n\
    codec g711\n\
    dev alice g711\n\
    feat f\n\
    dev bob g711\n\
    chan audio alice a f w\n\
    chan audio f e bob a\n\
    begin\n\
    link f w e\n\
    set alice a open\n\
    set bob a hold\n\
    settle\n\
    set bob a close\n\
    settle\n";

pub const FEATURE_PRINTED: &str = "settle 1\n\
    path alice/a bob/a open hold flowing audio\n\
    hears alice/a g711\n\
    hears bob/a g711\n\
    settle 2\n\
    path alice/a bob/a open close closed audio\n";

// A text, what stands after it, the status, and what is printed.
const CHECKED: [Row; 26] = [
    (
        CALLED,
        "journal\n\
        turn set alice a open\n\
        turn set bob a hold\n\
        turn take bob a\n\
        turn take alice a\n\
        turn take bob a\n\
        turn take alice a\n\
        settle\n",
        0,
        "settle 1\npath alice/a bob/a open hold flowing audio\nhears alice/a g729\nhears bob/a g729\n",
    ),
    // Blank lines, comments and spare spaces say nothing, and the last line may lack its end.
    (
        CALLED,
        "  journal\n\n\
        turn  set alice a open\n\
        # bob accepts\n \
        turn set bob a  hold \n\
        turn take bob a\n\
        turn take alice a\n\
        turn take bob a\n\
        turn take alice a\n\
        settle",
        0,
        "settle 1\npath alice/a bob/a open hold flowing audio\nhears alice/a g729\nhears bob/a g729\n",
    ),
    // The fifth turn twice.
    (
        CALLED,
        "journal\n\
        turn set alice a open\n\
        turn set bob a hold\n\
        turn take bob a\n\
        turn take alice a\n\
        turn take bob a\n\
        turn take bob a\n\
        turn take alice a\n\
        settle\n",
        8,
        "fault 31 turn 6\n",
    ),
    (
        CALLED,
        "journal\n\
        turn set alice a open\n\
        turn set bob a hold\n\
        turn take bob a\n\
        turn take alice a\n",
        8,
        "fault 35 turn 5\n",
    ),
    (
        CALLED,
        "journal\n\
        turn set alice a open\n\
        turn set bob a hold\n\
        turn take bob a\n\
        turn take alice a\n\
        settle\n",
        8,
        "fault 33 turn 5\n",
    ),
    // The first turn twice.
    (
        CALLED,
        "journal\n\
        turn set alice a open\n\
        turn set alice a open\n\
        turn set bob a hold\n\
        turn take bob a\n\
        turn take alice a\n\
        turn take bob a\n\
        turn take alice a\n\
        settle\n",
        8,
        "fault 34 turn 2\n",
    ),
    // A command that isn't bob's.
    (
        CALLED,
        "journal\n\
        turn set alice a open\n\
        turn set bob a open\n\
        turn take bob a\n",
        8,
        "fault 34 turn 2\n",
    ),
    // A box that isn't there.
    (
        CALLED,
        "journal\nturn take zed a\nturn set bob a hold\n",
        8,
        "fault 32 turn 1\n",
    ),
    // A retry that isn't owed.
    (
        CALLED,
        "journal\n\
        turn set alice a open\n\
        turn set bob a hold\n\
        turn take bob a\n\
        turn take alice a\n\
        turn take bob a\n\
        turn take alice a\n\
        turn retry alice a\n\
        settle\n",
        8,
        "fault 31 turn 7\n",
    ),
    // A shift of a phone.
    (
        CALLED,
        "journal\n\
        turn set alice a open\n\
        turn set bob a hold\n\
        turn take bob a\n\
        turn take alice a\n\
        turn shift alice\n\
        turn take alice a\n\
        settle\n",
        8,
        "fault 31 turn 5\n",
    ),
    // A turn after the last settle.
    (
        CALLED,
        "journal\n\
        turn set alice a open\n\
        turn set bob a hold\n\
        turn take bob a\n\
        turn take alice a\n\
        turn take bob a\n\
        turn take alice a\n\
        settle\n\
        turn take bob a\n",
        8,
        "fault 33 turn 7\n",
    ),
    // A settle too many, a bad line after the last settle, and a command left out.
    (
        CALLED,
        "journal\n\
        turn set alice a open\n\
        turn set bob a hold\n\
        turn take bob a\n\
        turn take alice a\n\
        turn take bob a\n\
        turn take alice a\n\
        settle\n\
        settle\n",
        8,
        "fault 33 turn 7\n",
    ),
    (
        CALLED,
        "journal\n\
        turn set alice a open\n\
        turn set bob a hold\n\
        turn take bob a\n\
        turn take alice a\n\
        turn take bob a\n\
        turn take alice a\n\
        settle\n\
        turn settle\n",
        8,
        "fault 32 turn 7\n",
    ),
    (
        CALLED,
        "journal\n\
        turn set alice a open\n\
        turn take bob a\n\
        turn take alice a\n\
        turn take bob a\n\
        settle\n",
        8,
        "fault 33 turn 5\n",
    ),
    // No journal, in three ways.
    (CALLED, "journal\n", 8, "fault 35 turn 1\n"),
    (CALLED, "journal", 8, "fault 35 turn 1\n"),
    (CALLED, "", 8, "fault 35 turn 1\n"),
    // Lines of a journal that are none.
    (CALLED, "journal\nsettle 1\n", 8, "fault 32 turn 1\n"),
    (CALLED, "journal\njournal\n", 8, "fault 32 turn 1\n"),
    (
        CALLED,
        "journal\nset alice a open\n",
        8,
        "fault 32 turn 1\n",
    ),
    // The line `journal` has one word, and the bytes of a text.
    (CALLED, "journal now\n", 1, "fault 7 line 11\n"),
    (CALLED, "journal\t\n", 1, "fault 3 line 11\n"),
    // A text without settles has an empty journal.
    (PHONES, "", 0, ""),
    // A call through a feature, whose last settle comes at the end, or early.
    (
        FEATURE,
        "journal\n\
        turn link f w e\n\
        turn set alice a open\n\
        turn set bob a hold\n\
        turn take f w\n\
        turn take bob a\n\
        turn take f e\n\
        turn take alice a\n\
        turn take f e\n\
        turn take f w\n\
        turn take alice a\n\
        turn take bob a\n\
        settle\n\
        turn set bob a close\n\
        turn take f e\n\
        turn take bob a\n\
        turn take alice a\n\
        turn take f w\n\
        turn retry alice a\n\
        turn take f w\n\
        turn take bob a\n\
        turn take f e\n\
        turn take bob a\n\
        turn take alice a\n\
        turn take f w\n\
        settle\n",
        0,
        FEATURE_PRINTED,
    ),
    (
        FEATURE,
        "journal\n\
        turn link f w e\n\
        turn set alice a open\n\
        turn set bob a hold\n\
        turn take f w\n\
        turn take bob a\n\
        turn take f e\n\
        turn take alice a\n\
        turn take f e\n\
        turn take f w\n\
        turn take alice a\n\
        turn take bob a\n\
        settle\n\
        turn set bob a close\n\
        turn take f e\n\
        turn take bob a\n\
        turn take alice a\n\
        turn take f w\n\
        settle\n\
        turn retry alice a\n\
        turn take f w\n\
        turn take bob a\n\
        turn take f e\n\
        turn take bob a\n\
        turn take alice a\n\
        turn take f w\n",
        8,
        "fault 33 turn 17\n",
    ),
    // A signal after another tunnel's is not taken: the front of the lane is for the first tunnel.
    (
        VIDEO,
        "journal\n\
        turn set alice a open\n\
        turn set alice v open\n\
        turn take bob v\n",
        8,
        "fault 31 turn 3\n",
    ),
];

#[test]
fn a_journal_is_accepted_or_its_first_fault_is_named(rt: HostRuntime) -> Result<(), AllocError> {
    are_answered(&rt, rt.alloc(), &["check"], &CHECKED)?;
    are_answered(&rt, rt.alloc(), &["--", "check"], &[(PHONES, "", 0, "")])
}

// The journal alone passes the limit of the whole input, in its comments.
const LONG: [Piece; 3] = [
    (1, CALLED),
    (1, "journal\nturn set alice a open\n"),
    (
        65_537,
        "#0123456789012345678901234567890123456789012345678901234567890123456789012345678901234567890123456789\
        0123456789012345678901234567890123456789012345678901234567890123456789012345678901234567890123456789\
        012345678901234567890123456789012345678901234567891234\n",
    ),
];

#[test]
fn a_journal_past_the_limit_has_a_bad_line(rt: HostRuntime) -> Result<(), AllocError> {
    is_answered_in_pieces(
        &rt,
        rt.alloc(),
        &["check"],
        &LONG,
        8,
        "fault 32 turn 2\n",
        "a long journal",
    )
}

// The text with what a call with these words on it writes after what is printed.
fn with_journal<R: Threads + Sync + Abort>(
    rt: &R,
    alloc: Global,
    words: &[&str],
    text: &str,
    printed: &str,
) -> Result<Vec<u8>, AllocError> {
    let call = answered(rt, alloc, words, text.as_bytes())?;
    assert!(rt; printed.len() <= call.written.len());
    let mut checked = Vec::from_slice(alloc, text.as_bytes())?;
    checked.extend_from_slice(&call.written[printed.len()..])?;
    Ok(checked)
}

/// A call with these words on a text prints this and a journal, which `check` accepts after the text.
pub fn is_accepted<R: Threads + Sync + Abort>(
    rt: &R,
    alloc: Global,
    words: &[&str],
    text: &str,
    printed: &str,
) -> Result<(), AllocError> {
    let checked = with_journal(rt, alloc, words, text, printed)?;
    let call = answered(rt, alloc, &["check"], &checked)?;
    is_equal_at(rt, &call.done.status, &0, text);
    is_equal_at(rt, &call.written.as_slice(), &printed.as_bytes(), text);
    Ok(())
}

// Whichever interleaving it is that `run` makes.
#[test]
fn what_was_printed_is_accepted(rt: HostRuntime) -> Result<(), AllocError> {
    let table: [&[&str]; 4] = [
        &["run", "--journal"],
        &["one", "0", "--journal"],
        &["one", "1", "--journal"],
        &["one", "2147483647", "--journal"],
    ];
    for words in &table {
        is_accepted(&rt, rt.alloc(), words, FEATURE, FEATURE_PRINTED)?;
    }
    Ok(())
}
