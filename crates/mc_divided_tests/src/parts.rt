// Networks settled by phases of their parts.

use crate::equal::is_equal;
use crate::fault::TestFault;
use crate::networks::{add, device, feature, link_through, row, step, two_features};
use crate::programs::flipping;
use crate::settles::{
    BACK, CALLS, Case, Ending, LINK, OPEN, Outcome, PROGRAMS, drawn_case, ended, outcome_of,
    programmed_case, two_states,
};
use mc_box::{Change, Event, MediaChange, Turn};
use mc_divided::limit::NETWORK_LIMIT;
use mc_io::{Gate, OpenGate};
use mc_plan::Plan;
use mc_rounds::settle_world;
use mc_seq::fits;
use mc_signal::Medium;
use mc_slot::{Goal, State};
use mc_world::World;
use std::alloc::{AllocError, Global};
use std::hint::spin_loop;
use std::process::Abort;
use std::sync::atomic::{AtomicBool, AtomicU64, Ordering};
use std::thread::Threads;

// A world is divided into so many parts, settled, and put together again.
fn in_parts<R: Threads + Sync + AllocGlobal, G: Gate + Sync>(
    rt: &R,
    gate: &G,
    world: World,
    parts: usize,
    batch: &[Turn],
) -> Outcome {
    let alloc = rt.alloc();
    if !fits(&world, batch) || world.boxes().len() > NETWORK_LIMIT {
        return ended(alloc, Ending::Refused, 0);
    }
    let settled = settle_world(rt, alloc, gate, world, parts, batch);
    outcome_of(alloc, settled, 0)
}

// The order of the turns is free, and their number isn't, since the commands come first.
#[test]
fn calls_are_settled_in_parts(rt: HostRuntime) -> Result<(), TestFault> {
    for (batch, turns, _draws) in CALLS {
        for parts in 0..4 {
            let done = in_parts(&rt, &OpenGate, row(rt.alloc(), 1)?, parts, batch);
            is_equal(&rt, &done.ending, &Ending::Rest);
            is_equal(&rt, &done.turns.len(), &turns.len());
        }
    }
    Ok(())
}

#[test]
fn parts_stop_at_a_ring(rt: HostRuntime) -> Result<(), TestFault> {
    for parts in 1..3 {
        let world = two_features(rt.alloc())?;
        let done = in_parts(&rt, &OpenGate, world, parts, &[LINK, BACK]);
        is_equal(&rt, &done.ending, &Ending::Ring(0));
    }
    Ok(())
}

#[test]
fn programs_go_on_in_parts(rt: HostRuntime) -> Result<(), TestFault> {
    for (waits, ending, turns, _draws) in PROGRAMS {
        let world = two_states(rt.alloc(), flipping(rt.alloc(), waits)?)?;
        let done = in_parts(&rt, &OpenGate, world, 2, &[]);
        is_equal(&rt, &done.ending, &ending);
        is_equal(&rt, &done.turns.as_slice(), &turns);
    }
    Ok(())
}

// ---- drawn networks

// A case that is drawn comes to an end other than want of memory.
fn ends<R: Threads + Sync + Abort + AllocGlobal>(rt: &R, parts: usize, case: Case) {
    let done = in_parts(rt, &OpenGate, case.world, parts, &case.batch);
    let is_end = !matches!(done.ending, Ending::NoMemory | Ending::Refused);
    assert!(rt; is_end);
}

#[test]
fn drawn_networks_are_settled_in_parts(rt: HostRuntime) -> Result<(), TestFault> {
    let alloc = rt.alloc();
    for seed in 0..600u32 {
        let parts = seed as usize % 6;
        ends(&rt, parts, drawn_case(alloc, seed)?);
        ends(&rt, parts, programmed_case(alloc, seed)?);
    }
    Ok(())
}

// ---- many signals at once

// Phones mute and unmute so many times in one batch: more signals at once than a ring buffer holds.
const TIMES: u32 = 40;

// The commands for that.
fn mutes(alloc: Global) -> Result<Vec<Turn>, AllocError> {
    let mut batch = Vec::new(alloc);
    for time in 0..TIMES {
        batch.push(Turn {
            who: 0,
            event: Event::Media(MediaChange::Hear(0, time % 2 == 1)),
        })?;
    }
    Ok(batch)
}

// Each time the other phone is told, and answers, so there are three turns.
#[test]
fn a_full_ring_buffer_loses_nothing(rt: HostRuntime) -> Result<(), TestFault> {
    let batch = mutes(rt.alloc())?;
    let done = in_parts(&rt, &OpenGate, settled_call(&rt)?, 2, &batch);
    is_equal(&rt, &done.ending, &Ending::Rest);
    is_equal(&rt, &done.turns.len(), &(3 * TIMES as usize));
    Ok(())
}

// A call between two phones that flows.
fn settled_call<R: Threads + Sync + AllocGlobal>(rt: &R) -> Result<World, TestFault> {
    let world = row(rt.alloc(), 1)?;
    let (batch, _turns, _draws) = CALLS[0];
    if !fits(&world, batch) || world.boxes().len() > NETWORK_LIMIT {
        return Err(TestFault::NoMemory(AllocError));
    }
    match settle_world(rt, rt.alloc(), &OpenGate, world, 2, batch) {
        Ok(done) => Ok(done.world),
        Err(_) => Err(TestFault::NoMemory(AllocError)),
    }
}

// Between two boxes of a wide row there are two channels of eight tunnels each.
const WIDTH: u8 = 16;

// A row of so many boxes, phones at its ends and features between them.
fn wide_row(alloc: Global, boxes: u32) -> Result<World, TestFault> {
    let mut plan = Plan::new(alloc);
    for who in 0..boxes {
        let at_end = who == 0 || who.saturating_add(1) == boxes;
        add(&mut plan, if at_end { device() } else { feature() })?;
    }
    for who in 1..boxes {
        plan.join(who.saturating_sub(1), who, &[Medium::Audio; 8])?;
        plan.join(who.saturating_sub(1), who, &[Medium::Audio; 8])?;
    }
    Ok(plan.world()?)
}

// The first phone of a wide row opens a slot, the last one holds its own, and a feature links two.
fn called(who: u32, boxes: u32, local: u8) -> Turn {
    let change = if who == 0 {
        Change::End(local, Goal::Open)
    } else if who.saturating_add(1) == boxes {
        Change::End(local, Goal::Hold)
    } else {
        Change::Link(local, local.saturating_add(WIDTH))
    };
    Turn {
        who,
        event: Event::Set(change),
    }
}

// The same of all slots of all boxes.
fn call_on_all(alloc: Global, boxes: u32) -> Result<Vec<Turn>, AllocError> {
    let mut batch = Vec::new(alloc);
    for who in 0..boxes {
        for local in 0..WIDTH {
            batch.push(called(who, boxes, local))?;
        }
    }
    Ok(batch)
}

// All slots of a box flow.
fn all_flow(world: &World, who: u32) -> bool {
    match world.boxes().get(who as usize) {
        Some(home) => home.slots().iter().all(|slot| slot.state == State::Flowing),
        None => false,
    }
}

const BOXES: u32 = 160;

// Links may make a ring, so a part makes 4,096 turns at most beside its commands in a phase. This call takes more, and
// flows at both of its ends. The gate was told of each turn.
#[test]
fn a_settle_goes_on_where_turns_are_used_up(rt: HostRuntime) -> Result<(), TestFault> {
    let alloc = rt.alloc();
    let gate = CountingGate::new();
    let world = wide_row(alloc, BOXES)?;
    let batch = call_on_all(alloc, BOXES)?;
    if !fits(&world, &batch) || world.boxes().len() > NETWORK_LIMIT {
        return Err(TestFault::NoMemory(AllocError));
    }
    match settle_world(&rt, alloc, &gate, world, 2, &batch) {
        Ok(done) => {
            assert!(rt; all_flow(&done.world, 0) && all_flow(&done.world, BOXES - 1));
            assert!(rt; done.turns.len() > batch.len() + 2 * 4_096);
            is_equal(&rt, &gate.count(), &(done.turns.len() as u64));
            Ok(())
        }
        Err(_) => Err(TestFault::NoMemory(AllocError)),
    }
}

// ---- a long call

// Counts the turns of which it's told, those of each half of the boxes apart.
#[derive(Drop)]
struct CountingGate {
    low: AtomicU64,
    high: AtomicU64,
}

impl CountingGate {
    fn new() -> CountingGate {
        CountingGate {
            low: AtomicU64::new(0),
            high: AtomicU64::new(0),
        }
    }

    fn count(&self) -> u64 {
        self.low
            .load(Ordering::SeqCst)
            .wrapping_add(self.high.load(Ordering::SeqCst))
    }
}

impl Gate for CountingGate {
    fn reached(&self, who: u32, _turn: u32) {
        let count = if who < 128 { &self.low } else { &self.high };
        let _ = count.fetch_add(1, Ordering::SeqCst);
    }
}

// A call through 254 features, which are linked.
fn long_call<R: AllocGlobal>(rt: &R) -> Result<World, TestFault> {
    let mut world = row(rt.alloc(), 255)?;
    link_through(&mut world, 255)?;
    Ok(world)
}

// The far phone accepts.
const ACCEPTS: Turn = Turn {
    who: 255,
    event: Event::Set(Change::End(0, Goal::Hold)),
};

// Whether the first slot of a box flows.
fn flows(world: &World, who: usize) -> bool {
    match world.boxes().get(who) {
        Some(home) => home.slots().iter().any(|slot| slot.state == State::Flowing),
        None => false,
    }
}

// A call that the first phone opens and the last accepts flows at both, and the gate was told of each of its turns.
fn is_connected<R: Threads + Sync + Abort + AllocGlobal>(
    rt: &R,
    parts: usize,
) -> Result<(), TestFault> {
    let world = long_call(rt)?;
    let gate = CountingGate::new();
    let batch = [OPEN, ACCEPTS];
    if !fits(&world, &batch) || world.boxes().len() > NETWORK_LIMIT {
        return Err(TestFault::NoMemory(AllocError));
    }
    match settle_world(rt, rt.alloc(), &gate, world, parts, &batch) {
        Ok(done) => {
            assert!(rt; flows(&done.world, 0) && flows(&done.world, 255));
            is_equal(rt, &gate.count(), &(done.turns.len() as u64));
            Ok(())
        }
        Err(_) => Err(TestFault::NoMemory(AllocError)),
    }
}

#[test]
fn a_long_call_is_settled_in_parts(rt: HostRuntime) -> Result<(), TestFault> {
    is_connected(&rt, 1)?;
    is_connected(&rt, 2)?;
    is_connected(&rt, 4)
}

// ---- at once

// How often a box looks for the other at most.
const LOOKS: u32 = 1 << 26;

// Whether a flag is set within so many looks.
fn is_awaited(flag: &AtomicBool) -> bool {
    for _ in 0..LOOKS {
        if flag.load(Ordering::SeqCst) {
            return true;
        }
        spin_loop();
    }
    false
}

// Holds two boxes before their turns until the other one has come to its own, and says whether one wasn't seen.
#[derive(Drop)]
struct WaitingGate {
    one: u32,
    other: u32,
    first: AtomicBool,
    second: AtomicBool,
    missed: AtomicBool,
}

impl WaitingGate {
    fn new(one: u32, other: u32) -> WaitingGate {
        WaitingGate {
            one,
            other,
            first: AtomicBool::new(false),
            second: AtomicBool::new(false),
            missed: AtomicBool::new(false),
        }
    }

    // A box has come, and waits for the other one.
    fn meet(&self, own: &AtomicBool, other: &AtomicBool) {
        own.store(true, Ordering::SeqCst);
        if !is_awaited(other) {
            self.missed.store(true, Ordering::SeqCst);
        }
    }
}

impl Gate for WaitingGate {
    fn reached(&self, who: u32, _turn: u32) {
        if who == self.one {
            self.meet(&self.first, &self.second);
        } else if who == self.other {
            self.meet(&self.second, &self.first);
        }
    }
}

// Each of two phones to which a batch speaks waits for the other one, so their parts run at once.
#[test]
fn two_parts_run_at_once(rt: HostRuntime) -> Result<(), TestFault> {
    let gate = WaitingGate::new(0, 1);
    let (batch, _turns, _draws) = CALLS[0];
    let done = in_parts(&rt, &gate, row(rt.alloc(), 1)?, 2, batch);
    is_equal(&rt, &done.ending, &Ending::Rest);
    assert!(rt; !gate.missed.load(Ordering::SeqCst));
    Ok(())
}

// Three calls, each between two phones.
fn three_calls(alloc: Global) -> Result<World, TestFault> {
    let mut plan = Plan::new(alloc);
    for _phone in 0..6 {
        add(&mut plan, device())?;
    }
    for call in 0..3u32 {
        plan.join(2 * call, 2 * call + 1, &[Medium::Audio])?;
    }
    Ok(plan.world()?)
}

// The first phone of a call opens.
const fn opens(who: u32) -> Turn {
    Turn {
        who,
        event: Event::Set(Change::End(0, Goal::Open)),
    }
}

// A batch speaks to three phones, each of a call of its own, and any two of them wait for each other.
#[test]
fn any_two_of_three_parts_run_at_once(rt: HostRuntime) -> Result<(), TestFault> {
    for (one, other) in [(0, 2), (0, 4), (2, 4)] {
        let gate = WaitingGate::new(one, other);
        let world = three_calls(rt.alloc())?;
        let done = in_parts(&rt, &gate, world, 3, &[opens(0), opens(2), opens(4)]);
        is_equal(&rt, &done.ending, &Ending::Rest);
        assert!(rt; !gate.missed.load(Ordering::SeqCst));
    }
    Ok(())
}

// ---- a long call that one phone ends

// The first phone ends the call, and opens it again.
const CLOSES: Turn = Turn {
    who: 0,
    event: Event::Set(Change::End(0, Goal::Close)),
};

// A box far behind the middle. Before the call's end comes to it, the half that it stands in has made more turns than go
// between two times at which it carries over what crosses.
const FAR: u32 = 240;

// How often the call is ended at most. Each time a half may have given up waiting before the other one answers.
const TRIES: u32 = 256;

// Holds the far box before its turns for a while, until a box of the first half comes to a turn, and says whether one did.
// On one thread none could.
#[derive(Drop)]
struct HalvesGate {
    near: AtomicU64,
    met: AtomicBool,
}

impl HalvesGate {
    fn new() -> HalvesGate {
        HalvesGate {
            near: AtomicU64::new(0),
            met: AtomicBool::new(false),
        }
    }

    // Whether a box of the first half comes to a turn within so many looks.
    fn is_joined(&self) -> bool {
        let before = self.near.load(Ordering::SeqCst);
        for _ in 0..HOLD {
            if self.near.load(Ordering::SeqCst) != before {
                return true;
            }
            spin_loop();
        }
        false
    }
}

impl Gate for HalvesGate {
    fn reached(&self, who: u32, _turn: u32) {
        if who < 128 {
            let _ = self.near.fetch_add(1, Ordering::SeqCst);
        } else if who == FAR && self.is_joined() {
            self.met.store(true, Ordering::SeqCst);
        }
    }
}

// How long the far box is held at most.
const HOLD: u32 = 1 << 16;

// A batch of one command settles, with turns that the gate is told of.
fn settle_one<R: Threads + Sync + AllocGlobal>(
    rt: &R,
    gate: &HalvesGate,
    world: World,
    command: Turn,
) -> Result<World, TestFault> {
    let batch = [command];
    if !fits(&world, &batch) || world.boxes().len() > NETWORK_LIMIT {
        return Err(TestFault::NoMemory(AllocError));
    }
    match settle_world(rt, rt.alloc(), gate, world, 2, &batch) {
        Ok(done) => Ok(done.world),
        Err(_) => Err(TestFault::NoMemory(AllocError)),
    }
}

// A call through 254 features, of which one phone alone is told something, is settled on two threads side by side: while
// one of them is at a turn the other comes to one.
#[test]
fn a_long_call_of_one_command_takes_two_threads(rt: HostRuntime) -> Result<(), TestFault> {
    let gate = HalvesGate::new();
    let mut world = long_call(&rt)?;
    step(&mut world, 255, Event::Set(Change::End(0, Goal::Hold)))?;
    for _try in 0..TRIES {
        world = settle_one(&rt, &gate, world, OPEN)?;
        world = settle_one(&rt, &gate, world, CLOSES)?;
        if gate.met.load(Ordering::SeqCst) {
            return Ok(());
        }
    }
    assert!(rt; gate.met.load(Ordering::SeqCst));
    Ok(())
}
