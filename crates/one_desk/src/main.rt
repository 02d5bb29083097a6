//! `one_desk WAY TIMES`: so many times a request is put down and taken again, on one thread. `WAY` says where:
//! `desk`, by the one operator of a desk, or `queue`, which is a bare one. It prints how many were taken. It shows
//! how a desk is used by hand; `bench/desks` times both.
#![tactic(auto)]

mod ways;

use crate::ways::{through_desk, through_queue};
use std::alloc::AllocError;
use std::process::ExitCode;
use std::rt::Env;
use std::sync::Wait;
use std::{env, io};

const USAGE: u8 = 2;

// What the requests go through.
#[derive(Clone, Copy)]
enum Way {
    Desk,
    Queue,
}

// The way of this name.
fn way_of(word: &str) -> Option<Way> {
    match word {
        "desk" => Some(Way::Desk),
        "queue" => Some(Way::Queue),
        _ => None,
    }
}

// Which way, and how many times, the words after the program's name ask for.
fn asked<R: Env + AllocGlobal>(rt: &R) -> Option<(Way, u32)> {
    let mut words = env::args(rt).ok()?.skip(1);
    let way = way_of(&words.next()?)?;
    let times = words.next()?.parse::<u32>().ok()?;
    match words.next() {
        Some(_) => None,
        None => Some((way, times)),
    }
}

// Puts down and takes so many requests. How many were taken.
fn run<R: Wait + AllocGlobal>(rt: &R, way: Way, times: u32) -> Result<u32, AllocError> {
    match way {
        Way::Desk => through_desk(rt, times),
        Way::Queue => through_queue(rt, times),
    }
}

fn print_count(rt: &HostRuntime, took: u32) -> io::Result<()> {
    println!(rt; "{took} requests taken")
}

fn main(rt: HostRuntime) -> ExitCode {
    let Some((way, times)) = asked(&rt) else {
        let _ = eprintln!(&rt; "usage: one_desk WAY TIMES");
        return ExitCode::from(USAGE);
    };
    let Ok(took) = run(&rt, way, times) else {
        let _ = eprintln!(&rt; "one_desk: out of memory");
        return ExitCode::FAILURE;
    };
    match print_count(&rt, took) {
        Ok(()) => ExitCode::SUCCESS,
        Err(_) => ExitCode::FAILURE,
    }
}
