//! `medialive` settles a text from standard input while its boxes run freely, each on a thread of its own, and several
//! operators ask them for their commands at once. It prints the paths of its calls, as `mediactl run` does. Where it
//! ends with another status than 0, it tells on standard error why.
#![tactic(auto)]

use mc_call::status::{NO_MEMORY, WORKED};
use mc_explain::{Reason, explain};
use mc_io::{OpenGate, StdSink, StdSource};
use mc_livetop::live_top;
use std::alloc::AllocError;
use std::io::{Error, ErrorKind, Write};
use std::process::ExitCode;
use std::rt::Env;
use std::{env, io};

// How the program is called.
const HELP: &str =
    "medialive: settles the text on standard input while its boxes run freely, each on a thread, and prints its paths:
medialive:   medialive live N [--journal]     N operators, 1 to 8, ask for the commands of each settle at once
medialive: With --journal each turn is printed after the paths. 'mediactl check' accepts the journal of one operator.
";

// The words after the program's name. Where they can't be had as text there are none, and none is no command.
fn words<R: Env + AllocGlobal>(rt: &R) -> Result<Vec<String>, AllocError> {
    match env::args(rt) {
        Ok(args) => args.skip(1).collect(rt.alloc()),
        Err(e) if e.kind() == ErrorKind::OutOfMemory => Err(AllocError),
        Err(_) => Ok(Vec::new(rt.alloc())),
    }
}

// Tells a person on standard error why the call ended. Where that fails, nothing else changes.
fn tell(rt: &HostRuntime, reason: &Reason) {
    match reason {
        Reason::Help => tell_help(rt, ""),
        Reason::Usage => tell_help(
            rt,
            "medialive: the words after the program's name are none that it knows.\n",
        ),
        _ => tell_reason(rt, reason),
    }
}

// How the program is called, after a line of complaint or none.
fn tell_help(rt: &HostRuntime, complaint: &str) {
    let _ = rt.stderr().write_all(complaint.as_bytes());
    let _ = rt.stderr().write_all(HELP.as_bytes());
}

// The words of `mediactl` for a reason.
fn tell_reason(rt: &HostRuntime, reason: &Reason) {
    let Ok(words) = explain(rt.alloc(), reason) else {
        return;
    };
    let _ = rt.stderr().write_all(&words);
}

// The same of what the system said of a read or a write that failed.
fn tell_error(rt: &HostRuntime, error: Option<Error>) {
    let Some(error) = error else {
        return;
    };
    let Ok(words) = format!(in rt.alloc(); "medialive: the system says: {error}.\n") else {
        return;
    };
    let _ = rt.stderr().write_all(words.as_bytes());
}

fn main(rt: HostRuntime) -> ExitCode {
    let Ok(words) = words(&rt) else {
        tell(&rt, &Reason::NoMemory);
        return ExitCode::from(NO_MEMORY);
    };
    let mut source = StdSource::new(rt.reader());
    let mut sink = StdSink::new(io::writer(&rt));
    let done = live_top(&rt, rt.alloc(), words, &mut source, &mut sink, &OpenGate);
    if done.status != WORKED {
        tell(&rt, &done.reason);
    }
    match done.reason {
        Reason::ReadFault => tell_error(&rt, source.last_error()),
        Reason::WriteFault => tell_error(&rt, sink.last_error()),
        _ => {}
    }
    ExitCode::from(done.status)
}
