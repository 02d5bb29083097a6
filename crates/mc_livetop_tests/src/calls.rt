// Two phones, and words that are no command.

use crate::top::{FLOWING, PHONES, call, is_answered, is_equal_at};
use mc_io::OpenGate;
use std::alloc::{AllocError, Global};
use std::process::Abort;
use std::sync::Wait;
use std::thread::Threads;

// With these words nothing is read: the call says how it is used.
fn is_no_command<R: Threads + Wait + Sync + Abort>(
    rt: &R,
    alloc: Global,
    words: &[&str],
    name: &str,
) -> Result<(), AllocError> {
    let call = call(rt, alloc, &OpenGate, words, PHONES.as_bytes())?;
    is_equal_at(rt, &call.done.status, &2, name);
    is_equal_at(rt, &call.reads, &0, name);
    is_equal_at(rt, &call.written.as_slice(), &b"usage\n".as_slice(), name);
    Ok(())
}

#[test]
fn two_phones_are_settled_live(rt: HostRuntime) -> Result<(), AllocError> {
    for operators in ["1", "2"] {
        let words = ["live", operators];
        is_answered(&rt, rt.alloc(), &words, PHONES, 0, FLOWING, operators)?;
    }
    Ok(())
}

#[test]
fn other_words_are_no_command(rt: HostRuntime) -> Result<(), AllocError> {
    let alloc = rt.alloc();
    is_no_command(&rt, alloc, &[], "no word")?;
    is_no_command(&rt, alloc, &["run"], "run")?;
    is_no_command(&rt, alloc, &["live"], "live")?;
    is_no_command(&rt, alloc, &["live", "0"], "live 0")?;
    is_no_command(&rt, alloc, &["live", "9"], "live 9")?;
    is_no_command(&rt, alloc, &["live", "two"], "live two")?;
    is_no_command(&rt, alloc, &["live", "2", "3"], "live 2 3")?;
    is_no_command(&rt, alloc, &["live", "2", "--loud"], "live 2 --loud")
}
