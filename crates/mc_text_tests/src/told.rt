// What a person is told of how a call ended.

use crate::equal::is_equal;
use mc_explain::{Reason, explain};
use mc_net::{Detail, Limit, Why};
use std::alloc::{AllocError, Global};
use std::process::Abort;

// A text with a fault in its second line, which ends with a carriage return.
const TEXT: &[u8] = b"media 1\ndev alice g711\r\nbegin\n";

// Whether these words stand in a text.
fn has_words(text: &[u8], words: &str) -> bool {
    match str::from_utf8(text) {
        Ok(text) => text.contains(words),
        Err(_) => false,
    }
}

// These words stand in what is told of a reason.
fn is_told(rt: &impl Abort, alloc: Global, reason: &Reason, words: &str) -> Result<(), AllocError> {
    let told = explain(alloc, reason)?;
    is_equal(rt, &(words, has_words(&told, words)), &(words, true));
    Ok(())
}

// The same for each reason of a table.
fn are_told(rt: &impl Abort, alloc: Global, table: &[(Reason, &str)]) -> Result<(), AllocError> {
    for (reason, words) in table {
        is_told(rt, alloc, reason, words)?;
    }
    Ok(())
}

// A word as it is kept of a stop.
fn word(alloc: Global, bytes: &[u8]) -> Result<Vec<u8>, AllocError> {
    Vec::from_slice(alloc, bytes)
}

#[test]
fn each_reason_is_told_in_words(rt: HostRuntime) -> Result<(), AllocError> {
    let table = [
        (
            Reason::Help,
            "mediactl: the commands are:\nmediactl:   mediactl run [--journal]  ",
        ),
        (
            Reason::Usage,
            "mediactl: the words after the program's name are no command; the commands are:\n",
        ),
        (Reason::NoMemory, "memory"),
        (Reason::ReadFault, "standard input"),
        (Reason::WriteFault, "standard output"),
    ];
    are_told(&rt, rt.alloc(), &table)
}

// A stop is told by its slot or its box, and by its settle.
#[test]
fn each_stop_is_told_by_its_place(rt: HostRuntime) -> Result<(), AllocError> {
    let table = [
        (
            Reason::VersionEnd {
                place: word(rt.alloc(), b"bob/a")?,
                settle: 3,
            },
            "mediactl: settle 3 of the script stopped at bob/a: a hear command",
        ),
        (
            Reason::Ring {
                place: word(rt.alloc(), b"pbx/west")?,
                settle: 1,
            },
            "mediactl: settle 1 of the script stopped at pbx/west: this slot is on a ring",
        ),
        (
            Reason::Restless {
                place: word(rt.alloc(), b"pbx")?,
                settle: 12,
            },
            "mediactl: settle 12 of the script stopped at pbx: the program of this box made 256 steps",
        ),
        (
            Reason::ChannelInUse {
                place: word(rt.alloc(), b"bob/a")?,
                settle: 2,
            },
            "mediactl: settle 2 of the script stopped at bob/a: a slot that is to be cut off must be closed",
        ),
    ];
    are_told(&rt, rt.alloc(), &table)
}

// A journal's fault is told by its line, and by the turns before it; then the line's bytes are shown.
#[test]
fn a_fault_of_a_journal_is_told_by_its_line(rt: HostRuntime) -> Result<(), AllocError> {
    const JOURNAL: &[u8] = b"journal\nturn take bob a\n";
    let table = [
        (
            Reason::faulty_journal(rt.alloc(), 31, 1, 2, JOURNAL)?,
            "mediactl: line 2 of the text, turn 1 of its journal, breaks rule 31: this turn can't happen here",
        ),
        (
            Reason::faulty_journal(rt.alloc(), 31, 1, 2, JOURNAL)?,
            ".\nmediactl: the line is: turn take bob a\n",
        ),
        (
            Reason::faulty_journal(rt.alloc(), 35, 17, 3, JOURNAL)?,
            "mediactl: line 3 of the text, with 16 turns of its journal made, breaks rule 35: the journal ends",
        ),
    ];
    are_told(&rt, rt.alloc(), &table)
}

// The fault's number and its line are told, and then the line's bytes.
#[test]
fn a_faulty_line_is_shown(rt: HostRuntime) -> Result<(), AllocError> {
    let reason = Reason::faulty_text(rt.alloc(), 3, 2, Detail::Nothing, TEXT)?;
    is_told(
        &rt,
        rt.alloc(),
        &reason,
        "mediactl: line 2 of the text breaks rule 3: the line has a byte",
    )?;
    is_told(
        &rt,
        rt.alloc(),
        &reason,
        "mediactl: the line is: dev alice g711\\x0d\n",
    )
}

#[test]
fn nothing_is_told_where_all_was_done(rt: HostRuntime) -> Result<(), AllocError> {
    let told = explain(rt.alloc(), &Reason::Worked)?;
    is_equal(&rt, &told.len(), &0);
    Ok(())
}

// The form of a line goes by its first word. Before it the word at fault is told.
#[test]
fn the_form_of_a_line_is_told(rt: HostRuntime) -> Result<(), AllocError> {
    let opening = Detail::Word {
        place: 0,
        why: Why::Opening,
    };
    let table = [
        (
            Reason::faulty_text(rt.alloc(), 6, 1, Detail::Nothing, b"set alice a\n")?,
            "\nmediactl: such a line: set BOX SLOT GOAL after begin, with open, close or hold for GOAL\n",
        ),
        (
            Reason::faulty_text(rt.alloc(), 5, 1, opening, b"  fly away\n")?,
            "\nmediactl: at fault is fly: no line may begin with it here\nmediactl: such a line: no line of a text begins with this word\n",
        ),
    ];
    are_told(&rt, rt.alloc(), &table)
}

// At rule 14 the limit is told, with its value.
#[test]
fn a_limit_is_told_with_its_value(rt: HostRuntime) -> Result<(), AllocError> {
    let boxes = Detail::Limit(Limit::Boxes);
    let table = [(
        Reason::faulty_text(rt.alloc(), 14, 1, boxes, b"feat f")?,
        "\nmediactl: the limit: a text has at most 256 boxes\n",
    )];
    are_told(&rt, rt.alloc(), &table)
}
