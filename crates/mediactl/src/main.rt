//! `mediactl` does what its words ask for: it settles a text from standard input and prints the paths of its calls
//! (`run`, `one N`, `grow`), checks a journal (`check`), or settles a network of its own (`gen N SIZE`, `scene NAME`).
//! Where it ends with another status than 0, it tells on standard error why.
#![tactic(auto)]

use mc_call::status::{NO_MEMORY, WORKED};
use mc_explain::{Reason, explain};
use mc_io::{OpenGate, StdSink, StdSource};
use mc_top::media_top;
use std::alloc::AllocError;
use std::io::{Error, ErrorKind, Write};
use std::process::ExitCode;
use std::rt::Env;
use std::{env, io};

// The words after the program's name. Where they can't be had as text there are none, and none is no command.
fn words<R: Env + AllocGlobal>(rt: &R) -> Result<Vec<String>, AllocError> {
    match env::args(rt) {
        Ok(args) => args.skip(1).collect(rt.alloc()),
        Err(e) if e.kind() == ErrorKind::OutOfMemory => Err(AllocError),
        Err(_) => Ok(Vec::new(rt.alloc())),
    }
}

// Tells a person on standard error why the call ended. Where that fails, nothing else changes.
fn tell(rt: &HostRuntime, reason: &Reason) {
    let Ok(words) = explain(rt.alloc(), reason) else {
        return;
    };
    let _ = rt.stderr().write_all(&words);
}

// The same of what the system said of a read or a write that failed.
fn tell_error(rt: &HostRuntime, error: Option<Error>) {
    let Some(error) = error else {
        return;
    };
    let Ok(words) = format!(in rt.alloc(); "mediactl: the system says: {error}.\n") else {
        return;
    };
    let _ = rt.stderr().write_all(words.as_bytes());
}

fn main(rt: HostRuntime) -> ExitCode {
    let Ok(words) = words(&rt) else {
        tell(&rt, &Reason::NoMemory);
        return ExitCode::from(NO_MEMORY);
    };
    let mut source = StdSource::new(rt.reader());
    let mut sink = StdSink::new(io::writer(&rt));
    let done = media_top(&rt, rt.alloc(), words, &mut source, &mut sink, &OpenGate);
    if done.status != WORKED {
        tell(&rt, &done.reason);
    }
    match done.reason {
        Reason::ReadFault => tell_error(&rt, source.last_error()),
        Reason::WriteFault => tell_error(&rt, sink.last_error()),
        _ => {}
    }
    ExitCode::from(done.status)
}
