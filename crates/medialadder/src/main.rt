//! `medialadder` draws the journal of a network as a call ladder: it reads a text with its journal from standard input,
//! checks both, and draws the journal on standard output. Where it ends with another status than 0, it tells on standard
//! error why.
#![tactic(auto)]

use mc_call::status::{NO_MEMORY, WORKED};
use mc_explain::{Reason, explain};
use mc_io::{StdSink, StdSource};
use mc_ladder_top::ladder_top;
use std::alloc::AllocError;
use std::io::{Error, ErrorKind, Write};
use std::process::ExitCode;
use std::rt::Env;
use std::{env, io};

// How the program is called.
const HELP: &str =
    "medialadder: reads a text with its journal from standard input, and draws the journal as a call ladder:
medialadder: a column for each box, time downwards, and an arrow for each signal that a box took.
medialadder:   medialadder                  draws in UTF-8
medialadder:   medialadder --ascii          draws in ASCII
medialadder:   medialadder --svg            draws as SVG
medialadder:   medialadder --html           draws a page for a browser, with what stands after each turn
medialadder: Any of these words may stand beside them:
medialadder:   --settles A-B                draws the settles from A to B alone, which are counted from 1
medialadder:   --box NAME                   draws what concerns the box NAME alone; with more of them, what concerns one
medialadder:   --up-to-fault                draws a faulty journal, too, up to its first fault, and then prints the fault
medialadder: 'mediactl run --journal' prints a journal. Append it to its text, and both can be drawn.
";

// The words after the program's name. Where they can't be had as text there are none.
fn words<R: Env + AllocGlobal>(rt: &R) -> Result<Vec<String>, AllocError> {
    match env::args(rt) {
        Ok(args) => args.skip(1).collect(rt.alloc()),
        Err(e) if e.kind() == ErrorKind::OutOfMemory => Err(AllocError),
        Err(_) => Ok(Vec::new(rt.alloc())),
    }
}

// Tells a person on standard error why the call ended. Where that fails, nothing else changes.
fn tell(rt: &HostRuntime, reason: &Reason) {
    match reason {
        Reason::Help => tell_help(rt, ""),
        Reason::Usage => tell_help(
            rt,
            "medialadder: the words after the program's name are none that it knows.\n",
        ),
        Reason::NoBox { place, .. } => tell_no_box(rt, place),
        _ => tell_reason(rt, reason),
    }
}

// That the text has no box of a name. A name is shown as it was given.
fn tell_no_box(rt: &HostRuntime, name: &[u8]) {
    let mut stderr = rt.stderr();
    let _ = stderr.write_all(b"medialadder: the text declares no box ");
    let _ = stderr.write_all(name);
    let _ = stderr.write_all(b".\n");
}

// How the program is called, after a line of complaint or none.
fn tell_help(rt: &HostRuntime, complaint: &str) {
    let _ = rt.stderr().write_all(complaint.as_bytes());
    let _ = rt.stderr().write_all(HELP.as_bytes());
}

// The words of `mediactl` for a reason.
fn tell_reason(rt: &HostRuntime, reason: &Reason) {
    let Ok(words) = explain(rt.alloc(), reason) else {
        return;
    };
    let _ = rt.stderr().write_all(&words);
}

// The same of what the system said of a read or a write that failed.
fn tell_error(rt: &HostRuntime, error: Option<Error>) {
    let Some(error) = error else {
        return;
    };
    let Ok(words) = format!(in rt.alloc(); "medialadder: the system says: {error}.\n") else {
        return;
    };
    let _ = rt.stderr().write_all(words.as_bytes());
}

fn main(rt: HostRuntime) -> ExitCode {
    let Ok(words) = words(&rt) else {
        tell(&rt, &Reason::NoMemory);
        return ExitCode::from(NO_MEMORY);
    };
    let mut source = StdSource::new(rt.reader());
    let mut sink = StdSink::new(io::writer(&rt));
    let done = ladder_top(rt.alloc(), words, &mut source, &mut sink);
    if done.status != WORKED {
        tell(&rt, &done.reason);
    }
    match done.reason {
        Reason::ReadFault => tell_error(&rt, source.last_error()),
        Reason::WriteFault => tell_error(&rt, sink.last_error()),
        _ => {}
    }
    ExitCode::from(done.status)
}
