// Whole calls over sources and sinks in memory: what is written, and the status.
mod conferences;
mod drawn_growth;
mod draws;
mod grown;
mod journals;
mod limits;
mod media;
mod networks;
mod programs;
mod refusals;
mod scenes;
mod threads;
mod whys;

use mc_call::Done;
use mc_io::{Gate, MemSink, MemSource, OpenGate};
use mc_script::JournalLine;
use mc_top::media_top;
use std::alloc::{AllocError, Global};
use std::fmt::Debug;
use std::process::Abort;
use std::thread::Threads;

const ROOM: usize = 1048576;

/// Two phones.
pub const PHONES: &str =
    "media 1\ncodec g711\ncodec g729\ndev alice g711 g729\ndev bob g729\nchan audio alice a bob a\nbegin\n";

// As above, but that alice has one codec alone, which bob has not.
const ONE_CODEC: &str =
    "media 1\ncodec g711\ncodec g729\ndev alice g711\ndev bob g729\nchan audio alice a bob a\nbegin\n";

/// What a call of the one to the other prints.
pub const FLOWING: &str =
    "settle 1\npath alice/a bob/a open hold flowing audio\nhears alice/a g729\nhears bob/a g729\n";

const CLOSED: &str = "settle 1\npath alice/a bob/a close close closed audio\n";

/// The beginning of a text, the rest of it, the status of a call on it, and what it prints.
pub type Row = (&'static str, &'static str, u8, &'static str);

/// How often a piece of a text stands there, and the piece. `%` stands for its number, from 0 on, and `^` for the next.
pub type Piece = (u32, &'static str);

/// How a call ended, what it wrote, and how far it read.
#[derive(Drop)]
pub struct CallEnd {
    pub done: Done,
    pub written: Vec<u8>,
    pub reads: u64,
    pub at: usize,
}

/// The values are compared, and both shown where they differ.
pub fn is_equal<T: PartialEq + Debug>(rt: &impl Abort, got: &T, want: &T) {
    assert_eq!(rt; *got, *want);
}

/// The same, with the text that the values belong to.
pub fn is_equal_at<T: PartialEq + Debug>(rt: &impl Abort, got: &T, want: &T, text: &str) {
    assert_eq!(rt; *got, *want, "at {text}");
}

fn words_of(alloc: Global, words: &[&str]) -> Result<Vec<String>, AllocError> {
    let mut made = Vec::new(alloc);
    for word in words {
        made.push(String::from_str(alloc, word)?)?;
    }
    Ok(made)
}

// Gives a text in pieces of 64 bytes, but that the call of this number fails. The first is 1, and 0 is none.
fn source_of(alloc: Global, text: &[u8], failing: u64) -> Result<MemSource, AllocError> {
    let failing = vec![in alloc; failing]?;
    let bytes = Vec::from_slice(alloc, text)?;
    Ok(MemSource::new(bytes, 64, failing))
}

// Takes pieces of 10 bytes, but that the call of this number fails.
fn sink_of(alloc: Global, failing: u64) -> Result<MemSink, AllocError> {
    MemSink::new(alloc, ROOM, 10, vec![in alloc; failing]?)
}

// The top call, of which nothing is said beforehand.
fn top<R: Threads + Sync, G: Gate + Sync>(
    rt: &R,
    alloc: Global,
    words: Vec<String>,
    source: &mut MemSource,
    sink: &mut MemSink,
    gate: &G,
) -> Done {
    media_top(rt, alloc, words, source, sink, gate)
}

/// A call with these words on a text under this gate. Its read and its write of these numbers fail: 0 is none's.
pub fn call<R: Threads + Sync, G: Gate + Sync>(
    rt: &R,
    alloc: Global,
    gate: &G,
    words: &[&str],
    text: &[u8],
    failing_read: u64,
    failing_write: u64,
) -> Result<CallEnd, AllocError> {
    let mut source = source_of(alloc, text, failing_read)?;
    let mut sink = sink_of(alloc, failing_write)?;
    let words = words_of(alloc, words)?;
    let done = top(rt, alloc, words, &mut source, &mut sink, gate);
    let MemSink { bytes, .. } = sink;
    Ok(CallEnd {
        done,
        written: bytes,
        reads: source.calls,
        at: source.at,
    })
}

/// A call with these words on a text.
pub fn answered<R: Threads + Sync>(
    rt: &R,
    alloc: Global,
    words: &[&str],
    text: &[u8],
) -> Result<CallEnd, AllocError> {
    call(rt, alloc, &OpenGate, words, text, 0, 0)
}

/// A call with these words on a text ends with this status, and prints this.
pub fn is_answered<R: Threads + Sync + Abort>(
    rt: &R,
    alloc: Global,
    words: &[&str],
    text: &str,
    status: u8,
    printed: &str,
    name: &str,
) -> Result<(), AllocError> {
    let call = answered(rt, alloc, words, text.as_bytes())?;
    is_equal_at(rt, &call.done.status, &status, name);
    is_equal_at(rt, &call.written.as_slice(), &printed.as_bytes(), name);
    Ok(())
}

/// A call with these words on the text of each row ends and prints as the row says.
pub fn are_answered<R: Threads + Sync + Abort>(
    rt: &R,
    alloc: Global,
    words: &[&str],
    rows: &[Row],
) -> Result<(), AllocError> {
    for (before, rest, status, printed) in rows {
        let text = format!(in alloc; "{before}{rest}")?;
        is_answered(rt, alloc, words, text.as_str(), *status, printed, rest)?;
    }
    Ok(())
}

/// With these words nothing is read: the call ends with this status, and prints this.
pub fn is_answered_unread<R: Threads + Sync + Abort>(
    rt: &R,
    alloc: Global,
    words: &[&str],
    status: u8,
    printed: &str,
) -> Result<(), AllocError> {
    let call = answered(rt, alloc, words, b"fly\n")?;
    is_equal(rt, &call.done.status, &status);
    is_equal(rt, &call.reads, &0);
    is_equal(rt, &call.written.as_slice(), &printed.as_bytes());
    Ok(())
}

/// A call with these words on a text is due to end with this status and does, keeps this journal, and prints this.
pub fn is_kept<R: Threads + Sync + Abort>(
    rt: &R,
    alloc: Global,
    words: &[&str],
    text: &str,
    status: u8,
    journal: &[JournalLine],
    printed: &str,
) -> Result<(), AllocError> {
    let call = answered(rt, alloc, words, text.as_bytes())?;
    is_equal(rt, &call.done.status, &status);
    is_equal(rt, &call.done.due, &status);
    is_equal(rt, &&call.done.journal[..], &journal);
    is_equal(rt, &call.written.as_slice(), &printed.as_bytes());
    Ok(())
}

// The text with a number in place of each such sign.
fn with_number(alloc: Global, text: &str, sign: &str, number: u32) -> Result<String, AllocError> {
    let digits = format!(in alloc; "{number}")?;
    text.replace(alloc, sign, digits.as_str())
}

// Adds a piece so many times, with its numbers.
fn add_piece(alloc: Global, count: u32, piece: &str, text: &mut String) -> Result<(), AllocError> {
    for number in 0..count {
        let once = with_number(alloc, piece, "%", number)?;
        let both = with_number(alloc, once.as_str(), "^", number + 1)?;
        text.push_str(both.as_str())?;
    }
    Ok(())
}

/// The text of these pieces.
pub fn text_of(alloc: Global, pieces: &[(u32, &str)]) -> Result<String, AllocError> {
    let mut text = String::new(alloc);
    for (count, piece) in pieces {
        add_piece(alloc, *count, piece, &mut text)?;
    }
    Ok(text)
}

/// A call with these words on the text of these pieces ends with this status, and prints this.
pub fn is_answered_in_pieces<R: Threads + Sync + Abort>(
    rt: &R,
    alloc: Global,
    words: &[&str],
    pieces: &[(u32, &str)],
    status: u8,
    printed: &str,
    name: &str,
) -> Result<(), AllocError> {
    let text = text_of(alloc, pieces)?;
    is_answered(rt, alloc, words, text.as_str(), status, printed, name)
}

const CALLS: [Row; 13] = [
    (PHONES, "", 0, ""),
    (PHONES, "set alice a open\n", 0, ""),
    (PHONES, "settle\n", 0, CLOSED),
    (PHONES, "settle", 0, CLOSED),
    (PHONES, "\n# nobody calls\n  settle  \n", 0, CLOSED),
    (
        "media 1\ndev b\ndev a\nchan video a x b y\nbegin\n",
        "settle\n",
        0,
        "settle 1\npath a/x b/y close close closed video\n",
    ),
    (
        PHONES,
        "set alice a open\nset bob a hold\nsettle\n",
        0,
        FLOWING,
    ),
    (
        PHONES,
        "set alice a open\nset bob a hold\nsettle",
        0,
        FLOWING,
    ),
    (
        ONE_CODEC,
        "set alice a open\nset bob a open\nsettle\n",
        0,
        "settle 1\npath alice/a bob/a open open flowing audio\nhears alice/a none\nhears bob/a none\n",
    ),
    (
        PHONES,
        "set alice a open\nsettle\n",
        0,
        "settle 1\npath alice/a bob/a open close closed audio\n",
    ),
    (
        PHONES,
        "set alice a hold\nset bob a hold\nsettle\n",
        0,
        "settle 1\npath alice/a bob/a hold hold closed audio\n",
    ),
    (
        PHONES,
        "set alice a open\nset alice a close\nset bob a hold\nsettle\n",
        0,
        "settle 1\npath alice/a bob/a close hold closed audio\n",
    ),
    (
        PHONES,
        "set alice a open\nset bob a hold\nsettle\nset alice a hold\nsettle\n",
        0,
        "settle 1\npath alice/a bob/a open hold flowing audio\nhears alice/a g729\nhears bob/a g729\nsettle 2\npath alice/a bob/a hold hold flowing audio\nhears alice/a g729\nhears bob/a g729\n",
    ),
];

#[test]
fn calls_and_what_they_print(rt: HostRuntime) -> Result<(), AllocError> {
    are_answered(&rt, rt.alloc(), &["run"], &CALLS)
}

const OTHER_WORDS: [&[&str]; 30] = [
    &["fly"],
    &[],
    &["run", "x"],
    &["one"],
    &["one", "2147483648"],
    &["one", "01"],
    &["one", "-1"],
    &["one", ""],
    &["one", "1", "2"],
    &["one", "--journal"],
    &["--journal"],
    &["--journal", "run", "x"],
    &["--", "--journal"],
    &["1", "one"],
    &["run", "run"],
    &["Run"],
    &["--"],
    &["--", "--"],
    &["--", "--", "run"],
    &["--", "run", "x"],
    &["run", "--", "--journal"],
    &["-run"],
    &["-", "run"],
    &["check", "--journal"],
    &["--journal", "check"],
    &["check", "x"],
    &["why", "--journal"],
    &["why", "why"],
    &["--help"],
    &["--version"],
];

/// What is printed for these words is how the program is called, and nothing is read.
pub fn are_no_command<R: Threads + Sync + Abort>(
    rt: &R,
    alloc: Global,
    table: &[&[&str]],
) -> Result<(), AllocError> {
    for words in table {
        is_answered_unread(rt, alloc, words, 2, "usage\n")?;
    }
    Ok(())
}

#[test]
fn other_words_are_no_command(rt: HostRuntime) -> Result<(), AllocError> {
    are_no_command(&rt, rt.alloc(), &OTHER_WORDS)
}

const DASHES: [&[&str]; 4] = [
    &["--", "run"],
    &["run", "--"],
    &["--", "one", "1"],
    &["one", "--", "1"],
];

#[test]
fn a_first_pair_of_dashes_says_nothing(rt: HostRuntime) -> Result<(), AllocError> {
    for words in &DASHES {
        are_answered(&rt, rt.alloc(), words, &[(PHONES, "settle\n", 0, CLOSED)])?;
    }
    Ok(())
}

/// Two phones of which one calls the other. Their text is given in three pieces, and the fourth read finds its end.
pub const CALLED: &str =
    "media 1\ncodec g711\ncodec g729\ndev alice g711 g729\ndev bob g729\nchan audio alice a bob a\nbegin\nset alice a open\nset bob a hold\nsettle\n";

// Which call of the source fails and which of the sink, from 1 on: the status, the due one, how many turns are kept,
// and how many bytes are written. There are nine writes.
const FAILURES: [(u64, u64, u8, u8, usize, usize); 9] = [
    (1, 0, 4, 4, 0, 0),
    (2, 0, 4, 4, 0, 0),
    (3, 0, 4, 4, 0, 0),
    (4, 0, 4, 4, 0, 0),
    (0, 1, 5, 0, 7, 0),
    (0, 2, 5, 0, 7, 10),
    (0, 5, 5, 0, 7, 40),
    (0, 9, 5, 0, 7, 80),
    (0, 10, 0, 0, 7, 88),
];

// What is written of a call with these words in which these calls of the source and the sink fail is a beginning of the
// whole.
fn fails_as_it_should<R: Threads + Sync + Abort>(
    rt: &R,
    alloc: Global,
    words: &[&str],
) -> Result<(), AllocError> {
    for (read, write, status, due, turns, length) in &FAILURES {
        let call = call(
            rt,
            alloc,
            &OpenGate,
            words,
            CALLED.as_bytes(),
            *read,
            *write,
        )?;
        let got = (
            call.done.status,
            call.done.due,
            call.done.journal.len(),
            call.written.len(),
        );
        is_equal(rt, &got, &(*status, *due, *turns, *length));
        assert!(rt; FLOWING.as_bytes().starts_with(&call.written));
    }
    Ok(())
}

#[test]
fn a_failed_read_prints_nothing_and_a_failed_write_a_beginning(
    rt: HostRuntime,
) -> Result<(), AllocError> {
    for words in [&["run"][..], &["one", "0"]] {
        fails_as_it_should(&rt, rt.alloc(), words)?;
    }
    Ok(())
}

const LONG: [Piece; 2] = [(1, PHONES), (150_000, "settle\n")];

#[test]
fn a_text_past_the_limit_is_not_read_on(rt: HostRuntime) -> Result<(), AllocError> {
    let text = text_of(rt.alloc(), &LONG)?;
    let call = answered(&rt, rt.alloc(), &["run"], text.as_bytes())?;
    is_equal(&rt, &call.done.status, &1);
    is_equal(&rt, &call.at, &1_048_577);
    is_equal(
        &rt,
        &call.written.as_slice(),
        &b"fault 14 line 4104\n".as_slice(),
    );
    Ok(())
}
