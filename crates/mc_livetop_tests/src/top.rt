// Whole calls: what they write, and their status.

use mc_call::Done;
use mc_io::{Gate, MemSink, MemSource, OpenGate};
use mc_livetop::live_top;
use std::alloc::{AllocError, Global};
use std::fmt::Debug;
use std::process::Abort;
use std::sync::Wait;
use std::thread::Threads;

const ROOM: usize = 1048576;

/// A call between two phones.
pub const PHONES: &str = "media 1\n\
    codec g711\n\
    codec g729\n\
    dev alice g711 g729\n\
    dev bob g729\n\
    chan audio alice a bob a\n\
    begin\n\
    set alice a open\n\
    set bob a hold\n\
    settle\n";

/// What `mediactl run` prints of it.
pub const FLOWING: &str = "settle 1\n\
    path alice/a bob/a open hold flowing audio\n\
    hears alice/a g729\n\
    hears bob/a g729\n";

/// How a call ended, what it wrote, and how often it read.
#[derive(Drop)]
pub struct CallEnd {
    pub done: Done,
    pub written: Vec<u8>,
    pub reads: u64,
}

/// The values are compared, and both shown where they differ, with what they belong to.
pub fn is_equal_at<T: PartialEq + Debug>(rt: &impl Abort, got: &T, want: &T, name: &str) {
    assert_eq!(rt; *got, *want, "at {name}");
}

/// The words of a command line.
pub fn words_of(alloc: Global, words: &[&str]) -> Result<Vec<String>, AllocError> {
    let mut made = Vec::new(alloc);
    for word in words {
        made.push(String::from_str(alloc, word)?)?;
    }
    Ok(made)
}

/// Gives a text in pieces of 64 bytes.
pub fn source_of(alloc: Global, text: &[u8]) -> Result<MemSource, AllocError> {
    let bytes = Vec::from_slice(alloc, text)?;
    Ok(MemSource::new(bytes, 64, Vec::new(alloc)))
}

/// Takes pieces of 10 bytes.
pub fn sink_of(alloc: Global) -> Result<MemSink, AllocError> {
    MemSink::new(alloc, ROOM, 10, Vec::new(alloc))
}

// The top call, of which nothing is said beforehand.
fn top<R: Threads + Wait + Sync, G: Gate + Sync>(
    rt: &R,
    alloc: Global,
    words: Vec<String>,
    source: &mut MemSource,
    sink: &mut MemSink,
    gate: &G,
) -> Done {
    live_top(rt, alloc, words, source, sink, gate)
}

/// A call with these words on a text under this gate.
pub fn call<R: Threads + Wait + Sync, G: Gate + Sync>(
    rt: &R,
    alloc: Global,
    gate: &G,
    words: &[&str],
    text: &[u8],
) -> Result<CallEnd, AllocError> {
    let mut source = source_of(alloc, text)?;
    let mut sink = sink_of(alloc)?;
    let words = words_of(alloc, words)?;
    let done = top(rt, alloc, words, &mut source, &mut sink, gate);
    let MemSink { bytes, .. } = sink;
    Ok(CallEnd {
        done,
        written: bytes,
        reads: source.calls,
    })
}

/// A call with these words on a text under this gate ends with this status, and prints this.
pub fn is_answered_under<R: Threads + Wait + Sync + Abort, G: Gate + Sync>(
    rt: &R,
    alloc: Global,
    gate: &G,
    words: &[&str],
    text: &str,
    status: u8,
    printed: &str,
    name: &str,
) -> Result<(), AllocError> {
    let call = call(rt, alloc, gate, words, text.as_bytes())?;
    is_equal_at(rt, &call.done.status, &status, name);
    is_equal_at(rt, &call.written.as_slice(), &printed.as_bytes(), name);
    Ok(())
}

/// The same where nobody is held.
pub fn is_answered<R: Threads + Wait + Sync + Abort>(
    rt: &R,
    alloc: Global,
    words: &[&str],
    text: &str,
    status: u8,
    printed: &str,
    name: &str,
) -> Result<(), AllocError> {
    is_answered_under(rt, alloc, &OpenGate, words, text, status, printed, name)
}
