//! `many_calls CALLS PARTS TIMES`: so many calls of two phones over two features each, side by side in one network that is
//! cut into at most so many parts, are opened, muted, heard again, held, resumed and closed, so many times. It prints how
//! many turns that took. It shows how a network is settled in parts from one batch to the next; `bench/calls` times it.
#![tactic(auto)]

mod fault;
mod network;
mod script;
mod settling;

use crate::fault::CallsFault;
use crate::network::network;
use crate::script::script;
use crate::settling::{allows_all, settle_times};
use mc_divided::limit::NETWORK_LIMIT;
use mc_rounds::InParts;
use std::env;
use std::process::ExitCode;
use std::rt::Env;
use std::thread::Threads;

const USAGE: u8 = 2;

// How many calls, parts and times the words after the program's name ask for.
fn asked<R: Env + AllocGlobal>(rt: &R) -> Option<(u32, usize, u32)> {
    let mut words = env::args(rt).ok()?.skip(1);
    let calls = words.next()?.parse::<u32>().ok()?;
    let parts = words.next()?.parse::<usize>().ok()?;
    let times = words.next()?.parse::<u32>().ok()?;
    match words.next() {
        Some(_) => None,
        None => Some((calls, parts, times)),
    }
}

// Makes so many calls. How many turns that takes.
fn run<R: Threads + Sync + AllocGlobal>(
    rt: &R,
    calls: u32,
    parts: usize,
    times: u32,
) -> Result<u64, CallsFault> {
    let world = network(rt.alloc(), calls)?;
    let batches = script(rt.alloc(), calls)?;
    if world.boxes().len() > NETWORK_LIMIT || !allows_all(&world, &batches) {
        return Err(CallsFault::TooMany);
    }
    let parted = InParts::new(rt.alloc(), world, parts)?;
    settle_times(rt, parted, &batches, times)
}

fn main(rt: HostRuntime) -> ExitCode {
    let Some((calls, parts, times)) = asked(&rt) else {
        let _ = eprintln!(&rt; "usage: many_calls CALLS PARTS TIMES");
        return ExitCode::from(USAGE);
    };
    match run(&rt, calls, parts, times) {
        Ok(turns) => {
            let _ = println!(&rt; "{turns} turns");
            ExitCode::SUCCESS
        }
        Err(fault) => {
            let _ = eprintln!(&rt; "many_calls: {fault:?}");
            ExitCode::FAILURE
        }
    }
}
