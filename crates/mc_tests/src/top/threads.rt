// Settles on threads, whichever thread is how fast: what is printed, and that two boxes run at once.

use super::journals::is_accepted;
use super::networks::{FOUR_TUNNELS, TABLE};
use super::programs::{SWAP, SWAPPED};
use super::{CALLED, FLOWING, Piece, answered, call, is_equal, text_of};
use mc_io::{Gate, OpenGate};
use mc_script::JournalLine;
use std::alloc::{AllocError, Global};
use std::hint::spin_loop;
use std::process::Abort;
use std::sync::atomic::{AtomicBool, AtomicU64, Ordering};
use std::thread::Threads;

// A call with the word `run` on a text under this gate ends well, and prints this.
fn is_run_under<R: Threads + Sync + Abort, G: Gate + Sync>(
    rt: &R,
    alloc: Global,
    gate: &G,
    text: &str,
    printed: &str,
) -> Result<(), AllocError> {
    let call = call(rt, alloc, gate, &["run"], text.as_bytes(), 0, 0)?;
    is_equal(rt, &call.done.status, &0);
    is_equal(rt, &call.written.as_slice(), &printed.as_bytes());
    Ok(())
}

// Holds each box for a while before each of its turns, those of higher numbers longer.
#[derive(Drop)]
struct SlowGate {
    flag: AtomicBool,
}

impl Gate for SlowGate {
    fn reached(&self, who: u32, _turn: u32) {
        for _ in 0..1000 * u64::from(who) {
            let _ = self.flag.load(Ordering::SeqCst);
        }
    }
}

const FOUR_TUNNELS_FLOW: &str =
    "settle 1\npath alice/a bob/a open open flowing audio\nhears alice/a g711\nhears bob/a g711\n";

#[test]
fn slow_boxes_print_the_same(rt: HostRuntime) -> Result<(), AllocError> {
    let gate = SlowGate {
        flag: AtomicBool::new(false),
    };
    is_run_under(&rt, rt.alloc(), &gate, FOUR_TUNNELS, FOUR_TUNNELS_FLOW)?;
    is_run_under(&rt, rt.alloc(), &OpenGate, FOUR_TUNNELS, FOUR_TUNNELS_FLOW)
}

// How often a box looks for the other at most. Between two looks it leaves its processor to others for a moment.
const LOOKS: u32 = 1 << 26;

// A box that is to meet another: whether it came, and whether it saw the other one before it went on.
#[derive(Drop)]
struct Guest {
    came: AtomicBool,
    met: AtomicBool,
}

impl Guest {
    fn new() -> Guest {
        Guest {
            came: AtomicBool::new(false),
            met: AtomicBool::new(false),
        }
    }

    // Waits for the other one, where it comes for the first time.
    fn meet(&self, other: &Guest) {
        if !self.came.swap(true, Ordering::SeqCst) {
            self.met.store(other.is_awaited(), Ordering::SeqCst);
        }
    }

    // Whether it comes within so many looks.
    fn is_awaited(&self) -> bool {
        for _ in 0..LOOKS {
            if self.came.load(Ordering::SeqCst) {
                return true;
            }
            spin_loop();
        }
        false
    }
}

// Holds each of two boxes before its first turn until the other one comes to its own.
#[derive(Drop)]
struct MeetingGate {
    first: Guest,
    second: Guest,
}

impl Gate for MeetingGate {
    fn reached(&self, who: u32, _turn: u32) {
        if who == 0 {
            self.first.meet(&self.second);
        } else {
            self.second.meet(&self.first);
        }
    }
}

// Each waits at its first turn for the other's, so they meet on two threads alone.
#[test]
fn two_boxes_run_at_once(rt: HostRuntime) -> Result<(), AllocError> {
    let gate = MeetingGate {
        first: Guest::new(),
        second: Guest::new(),
    };
    is_run_under(&rt, rt.alloc(), &gate, CALLED, FLOWING)?;
    assert!(rt; gate.first.met.load(Ordering::SeqCst));
    assert!(rt; gate.second.met.load(Ordering::SeqCst));
    Ok(())
}

#[test]
fn journals_of_threads_are_accepted(rt: HostRuntime) -> Result<(), AllocError> {
    for (text, _, status, printed) in &TABLE {
        if *status == 0 {
            is_accepted(&rt, rt.alloc(), &["run", "--journal"], text, printed)?;
        }
    }
    is_accepted(&rt, rt.alloc(), &["run", "--journal"], SWAP, SWAPPED)
}

// The left phones of a group of calls get this goal.
const OPEN: &str = "set la% s open\nset lb% s open\nset lc% s open\nset ld% s open\n";

const CLOSE: &str = "set la% s close\nset lb% s close\nset lc% s close\nset ld% s close\n";

// 64 calls side by side, in sixteen groups: with no feature between the two phones, with one, with two and with three.
const CALLS: [Piece; 11] = [
    (1, "media 1\ncodec g711\n"),
    (
        16,
        "dev la% g711\ndev ra% g711\n\
        dev lb% g711\ndev rb% g711\nfeat fb%_0\n\
        dev lc% g711\ndev rc% g711\nfeat fc%_0\nfeat fc%_1\n\
        dev ld% g711\ndev rd% g711\nfeat fd%_0\nfeat fd%_1\nfeat fd%_2\n",
    ),
    (
        16,
        "chan audio la% s ra% s\n\
        chan audio lb% s fb%_0 w\nchan audio fb%_0 e rb% s\n\
        chan audio lc% s fc%_0 w\nchan audio fc%_0 e fc%_1 w\nchan audio fc%_1 e rc% s\n\
        chan audio ld% s fd%_0 w\nchan audio fd%_0 e fd%_1 w\nchan audio fd%_1 e fd%_2 w\nchan audio fd%_2 e rd% s\n",
    ),
    (1, "begin\n"),
    (
        16,
        "set ra% s hold\n\
        link fb%_0 w e\nset rb% s hold\n\
        link fc%_0 w e\nlink fc%_1 w e\nset rc% s hold\n\
        link fd%_0 w e\nlink fd%_1 w e\nlink fd%_2 w e\nset rd% s hold\n",
    ),
    (16, OPEN),
    (1, "settle\n"),
    (16, CLOSE),
    (1, "settle\n"),
    (16, OPEN),
    (1, "settle\n"),
];

#[test]
fn many_calls_print_what_draws_print(rt: HostRuntime) -> Result<(), AllocError> {
    let text = text_of(rt.alloc(), &CALLS)?;
    let on_threads = answered(&rt, rt.alloc(), &["run"], text.as_bytes())?;
    let by_draws = answered(&rt, rt.alloc(), &["one", "5"], text.as_bytes())?;
    is_equal(
        &rt,
        &(on_threads.done.status, by_draws.done.status),
        &(0, 0),
    );
    is_equal(
        &rt,
        &on_threads.written.as_slice(),
        &by_draws.written.as_slice(),
    );
    Ok(())
}

// Counts the turns of which it's told.
#[derive(Drop)]
struct CountingGate {
    turns: AtomicU64,
}

impl Gate for CountingGate {
    fn reached(&self, _who: u32, _turn: u32) {
        let _ = self.turns.fetch_add(1, Ordering::SeqCst);
    }
}

#[test]
fn the_gate_is_told_of_each_turn(rt: HostRuntime) -> Result<(), AllocError> {
    let gate = CountingGate {
        turns: AtomicU64::new(0),
    };
    let text = text_of(rt.alloc(), &CALLS)?;
    let call = call(&rt, rt.alloc(), &gate, &["run"], text.as_bytes(), 0, 0)?;
    is_equal(&rt, &call.done.status, &0);
    let turns = call
        .done
        .journal
        .iter()
        .filter(|line| matches!(line, JournalLine::Turn(_)))
        .count();
    is_equal(&rt, &gate.turns.load(Ordering::SeqCst), &(turns as u64));
    Ok(())
}
