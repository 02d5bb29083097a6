//! `chain TUNNELS calls TIMES`: a caller and a callee, with a chain of features between them that are linked through,
//! call and hang up so many times. It prints what their path is each time, and on standard error how many turns the
//! boxes had. `rings` or `paths` in place of `calls` asks that many times for the rings or the paths of the chain. It
//! shows how a network is laid out and run by hand; `bench/steps` times it.
#![tactic(auto)]

mod call;
mod fault;
mod network;

use crate::call::{call, hang_up};
use crate::fault::ChainFault;
use crate::network::{chain, link_through};
use mc_path::paths;
use mc_world::World;
use std::env;
use std::process::ExitCode;
use std::rt::Env;

const USAGE: u8 = 2;

// What is done so many times.
#[derive(Clone, Copy)]
enum Job {
    Calls,
    Rings,
    Paths,
}

// How many tunnels the words after the program's name ask for, what is to be done, and how many times.
fn asked<R: Env + AllocGlobal>(rt: &R) -> Option<(u32, Job, u32)> {
    let mut words = env::args(rt).ok()?.skip(1);
    let tunnels = words.next()?.parse::<u32>().ok()?;
    let job = match words.next()?.as_str() {
        "calls" => Job::Calls,
        "rings" => Job::Rings,
        "paths" => Job::Paths,
        _ => return None,
    };
    let times = words.next()?.parse::<u32>().ok()?;
    match words.next() {
        Some(_) => None,
        None => Some((tunnels, job, times)),
    }
}

// Prints each path of a world.
fn print_paths(rt: &HostRuntime, world: &World) -> Result<(), ChainFault> {
    for view in paths(rt.alloc(), world)? {
        let state = if view.flowing { "flowing" } else { "closed" };
        println!(rt; "{state} over {} tunnels", view.tunnels)?;
    }
    Ok(())
}

// Calls and hangs up so many times. How many turns that takes.
fn make_calls(rt: &HostRuntime, world: &mut World, times: u32) -> Result<u64, ChainFault> {
    let mut turns: u64 = 0;
    for _call in 0..times {
        turns = turns.saturating_add(call(world)?);
        print_paths(rt, world)?;
        turns = turns.saturating_add(hang_up(world)?);
        print_paths(rt, world)?;
    }
    Ok(turns)
}

// Asks so many times whether there is a ring. How often there was one.
fn ask_rings(world: &World, times: u32) -> u64 {
    let mut found: u64 = 0;
    for _ask in 0..times {
        if world.ring().is_some() {
            found = found.saturating_add(1);
        }
    }
    found
}

// Asks so many times for the paths. How many there were in all.
fn ask_paths(rt: &HostRuntime, world: &World, times: u32) -> Result<u64, ChainFault> {
    let mut found: u64 = 0;
    for _ask in 0..times {
        found = found.saturating_add(paths(rt.alloc(), world)?.len() as u64);
    }
    Ok(found)
}

// Does a job over a chain, and prints its count.
fn work(rt: &HostRuntime, world: &mut World, job: Job, times: u32) -> Result<(), ChainFault> {
    link_through(world)?;
    let (count, counted) = match job {
        Job::Calls => (make_calls(rt, world, times)?, "turns"),
        Job::Rings => (ask_rings(world, times), "rings"),
        Job::Paths => (ask_paths(rt, world, times)?, "paths"),
    };
    eprintln!(rt; "{count} {counted}")?;
    Ok(())
}

fn run(rt: &HostRuntime, tunnels: u32, job: Job, times: u32) -> Result<(), ChainFault> {
    let mut world = chain(rt.alloc(), tunnels)?;
    work(rt, &mut world, job, times)
}

fn main(rt: HostRuntime) -> ExitCode {
    let Some((tunnels, job, times)) = asked(&rt) else {
        let _ = eprintln!(&rt; "usage: chain TUNNELS calls|rings|paths TIMES");
        return ExitCode::from(USAGE);
    };
    match run(&rt, tunnels, job, times) {
        Ok(()) => ExitCode::SUCCESS,
        Err(fault) => {
            let _ = eprintln!(&rt; "chain: {fault:?}");
            ExitCode::FAILURE
        }
    }
}
