//! `two_phones TIMES`: two phones with rings between them call and hang up so many times, on one thread. It prints how
//! many signals they took. It shows how boxes with ports are run by hand; `bench/workers` times it.
#![tactic(auto)]

mod call;
mod phones;

use crate::call::make_calls;
use crate::phones::phones;
use std::alloc::AllocError;
use std::process::ExitCode;
use std::rt::Env;
use std::{env, io};

const USAGE: u8 = 2;

// How many times the word after the program's name asks for.
fn asked<R: Env + AllocGlobal>(rt: &R) -> Option<u32> {
    let mut words = env::args(rt).ok()?.skip(1);
    let times = words.next()?.parse::<u32>().ok()?;
    match words.next() {
        Some(_) => None,
        None => Some(times),
    }
}

// Calls and hangs up so many times. How many signals were taken.
fn run(rt: &HostRuntime, times: u32) -> Result<u64, AllocError> {
    let (mut alice, mut bob) = phones(rt.alloc())?;
    make_calls(&mut alice, &mut bob, times)
}

fn print_count(rt: &HostRuntime, took: u64) -> io::Result<()> {
    println!(rt; "{took} signals taken")
}

fn main(rt: HostRuntime) -> ExitCode {
    let Some(times) = asked(&rt) else {
        let _ = eprintln!(&rt; "usage: two_phones TIMES");
        return ExitCode::from(USAGE);
    };
    let Ok(took) = run(&rt, times) else {
        let _ = eprintln!(&rt; "two_phones: out of memory");
        return ExitCode::FAILURE;
    };
    match print_count(&rt, took) {
        Ok(()) => ExitCode::SUCCESS,
        Err(_) => ExitCode::FAILURE,
    }
}
