// Many calls at once, settled live.

use crate::top::{call, is_answered, is_equal_at, sink_of, source_of, words_of};
use mc_call::Done;
use mc_io::{MemSink, MemSource, OpenGate};
use mc_top::media_top;
use std::alloc::{AllocError, Global};
use std::process::Abort;
use std::sync::Wait;
use std::thread::Threads;

// How often the calls are settled, each time by boxes and operators of which others are the faster.
const TIMES: u32 = 20;

// How often a piece of a text stands there, and the piece. `%` stands for its number, from 0 on.
type Piece = (u32, &'static str);

// 64 calls side by side, of which each other one goes through a feature.
const CALLS: [Piece; 6] = [
    (1, "media 1\ncodec g711\n"),
    (
        32,
        "dev alice% g711\ndev bob% g711\ndev carol% g711\nfeat f%\ndev dave% g711\n",
    ),
    (
        32,
        "chan audio alice% a bob% a\nchan audio carol% a f% w\nchan audio f% e dave% a\n",
    ),
    (1, "begin\n"),
    (
        32,
        "set alice% a open\nset bob% a hold\nset carol% a open\nlink f% w e\nset dave% a hold\n",
    ),
    (1, "settle\n"),
];

// Where one end opens and the other holds the path flows, and both hear the one codec.
const FLOWING: [Piece; 2] = [
    (1, "settle 1\n"),
    (
        32,
        "path alice%/a bob%/a open hold flowing audio\nhears alice%/a g711\nhears bob%/a g711\n\
        path carol%/a dave%/a open hold flowing audio\nhears carol%/a g711\nhears dave%/a g711\n",
    ),
];

// Adds a piece so many times, with its numbers.
fn add_piece(alloc: Global, count: u32, piece: &str, text: &mut String) -> Result<(), AllocError> {
    for number in 0..count {
        let digits = format!(in alloc; "{number}")?;
        let numbered = piece.replace(alloc, "%", digits.as_str())?;
        text.push_str(numbered.as_str())?;
    }
    Ok(())
}

// The text of these pieces.
fn text_of(alloc: Global, pieces: &[Piece]) -> Result<String, AllocError> {
    let mut text = String::new(alloc);
    for (count, piece) in pieces {
        add_piece(alloc, *count, piece, &mut text)?;
    }
    Ok(text)
}

#[test]
fn eight_operators_settle_many_calls(rt: HostRuntime) -> Result<(), AllocError> {
    let text = text_of(rt.alloc(), &CALLS)?;
    let printed = text_of(rt.alloc(), &FLOWING)?;
    let words = ["live", "8"];
    for _time in 0..TIMES {
        is_answered(
            &rt,
            rt.alloc(),
            &words,
            text.as_str(),
            0,
            printed.as_str(),
            "eight operators",
        )?;
    }
    Ok(())
}

// The top call of `mediactl`, of which nothing is said beforehand.
fn top<R: Threads + Sync>(
    rt: &R,
    alloc: Global,
    words: Vec<String>,
    source: &mut MemSource,
    sink: &mut MemSink,
) -> Done {
    media_top(rt, alloc, words, source, sink, &OpenGate)
}

// `mediactl check` accepts a text with a journal, and prints this.
fn is_accepted<R: Threads + Sync + Abort>(
    rt: &R,
    alloc: Global,
    checked: &[u8],
    printed: &str,
) -> Result<(), AllocError> {
    let mut source = source_of(alloc, checked)?;
    let mut sink = sink_of(alloc)?;
    let words = words_of(alloc, &["check"])?;
    let done = top(rt, alloc, words, &mut source, &mut sink);
    is_equal_at(rt, &done.status, &0, "check");
    is_equal_at(rt, &sink.bytes.as_slice(), &printed.as_bytes(), "check");
    Ok(())
}

// The text with the journal that one operator's live run writes after what it prints.
fn with_journal<R: Threads + Wait + Sync + Abort>(
    rt: &R,
    alloc: Global,
    text: &str,
    printed: &str,
) -> Result<Vec<u8>, AllocError> {
    let words = ["live", "1", "--journal"];
    let call = call(rt, alloc, &OpenGate, &words, text.as_bytes())?;
    assert!(rt; printed.len() <= call.written.len());
    let mut checked = Vec::from_slice(alloc, text.as_bytes())?;
    checked.extend_from_slice(&call.written[printed.len()..])?;
    Ok(checked)
}

#[test]
fn the_journal_of_one_operator_is_accepted(rt: HostRuntime) -> Result<(), AllocError> {
    let text = text_of(rt.alloc(), &CALLS)?;
    let printed = text_of(rt.alloc(), &FLOWING)?;
    let checked = with_journal(&rt, rt.alloc(), text.as_str(), printed.as_str())?;
    is_accepted(&rt, rt.alloc(), &checked, printed.as_str())
}
