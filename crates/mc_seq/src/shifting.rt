// The Shifts that boxes may still make, and counts by which the settle finds one.

ghost use Rattle.std.specs.Prelude.{◌≡◌, ℕ, ◌<◌, ◌≤◌, ◌-◌, ◌^◌, length, slice_index_or, slice_set, IfOk};
ghost use Rattle.mc_box.specs.BoxEvents.{is_shift};
ghost use Rattle.mc_seq.specs.Commands.{AreKept, AreKeptFor, commands_left};
ghost use Rattle.mc_seq.specs.Drawing.{IsDrawOf};
ghost use Rattle.mc_seq.specs.Ready.{CountsEach};
ghost use Rattle.mc_seq.specs.Schedule.{due_after, may_shift, shifts_by};
ghost use Rattle.mc_seq.specs.Spare.{AreCountedBut, AreKeptBut, AreShiftsCounted, AreShiftsKept, AreShiftsLong};
ghost use Rattle.mc_seq.specs.Spare.{all_spare, others_of, spare_of};

use crate::batches::has_programs;
use crate::commands::{Commands, next_command};
use crate::stopping::DrawOutcome;
use mc_box::limit::SHIFT_LIMIT;
use mc_box::{Event, Turn};
use mc_sums::Sums;
use mc_world::World;
use std::alloc::{AllocError, Global};

// How many Shifts each box may still make, and for each box how many of its next command and its Shift are listed.
#[derive(Drop)]
pub struct Shifts {
    pub spare: Vec<u16>,
    pub others: Sums,
}

// All Shifts, at the beginning of a settle; none where no box has a program, and then nothing is counted.
pub fn all_shifts(
    alloc: Global,
    world: &World,
    left: &Commands,
) -> Result<Option<Shifts>, AllocError>
    requires { AreKeptFor world.now left.now }
    ensures kept { IfOk result (AreShiftsKept world.now (commands_left left.now)) }
    ensures spare { IfOk result (λ shifts. spare_of world.now shifts ≡ all_spare world.now) }
{
    if !has_programs(world) {
        return Ok(None);
    }
    let boxes = world.boxes().len();
    let spare = vec![in alloc; SHIFT_LIMIT; boxes]?;
    let counts = other_counts(alloc, world, left, &spare)?;
    let others = Sums::new(alloc, counts)?;
    Ok(Some(Shifts { spare, others }))
}

// The counts of all boxes.
fn other_counts(
    alloc: Global,
    world: &World,
    left: &Commands,
    spare: &[u16],
) -> Result<Vec<u64>, AllocError>
    requires { AreKeptFor world.now left.now }
    ensures counts { IfOk result (λ counts. CountsEach (others_of world.now (commands_left left.now) spare.now)
        counts.items (length world.now.boxes)) }
    ensures small { IfOk result (λ counts. (who : ℕ) → slice_index_or counts.items who 0 ≤ 2) }
    ensures few { IfOk result (λ counts. length counts.items ≤ 2 ^ 32) }
{
    world.keeps();
    let boxes = world.boxes().len();
    let mut counts = Vec::with_capacity(alloc, boxes)?;
    for who in 0..boxes {
        counts.push(other_count(world, left, spare, who as u32))?;
    }
    Ok(counts)
}

// The same of one box.
fn other_count(world: &World, left: &Commands, spare: &[u16], who: u32) -> u64
    requires kept { AreKept left.now }
    requires there { who < length world.now.boxes }
    ensures count { result ≡ length (others_of world.now (commands_left left.now) spare.now who) }
    ensures small { result ≤ 2 }
{
    u64::from(next_command(left, who).is_some()) + u64::from(may_shift(world, spare, who))
}

// Whether a box may make a Shift.
pub fn may_shift(world: &World, spare: &[u16], who: u32) -> bool
    requires { who < length world.now.boxes }
    ensures { result ≡ may_shift world.now spare.now who }
{
    0 < spare_at(spare, who) && world.boxes()[who as usize].enabled(&Event::Shift)
}

// How many Shifts a box may still make; 0 for one that isn't there.
fn spare_at(spare: &[u16], who: u32) -> u16
    ensures { result ≡ slice_index_or spare.now who 0 }
{
    if (who as usize) < spare.len() {
        spare[who as usize]
    } else {
        0
    }
}

// Counts a turn that was made, where some box has a program.
#[inline]
pub fn count_programmed(
    shifts: &mut Option<Shifts>,
    due: &mut bool,
    world: &World,
    left: &Commands,
    turn: Turn,
) -> DrawOutcome
    requires kept { AreKeptFor world.now left.now }
    requires but { AreKeptBut world.now (commands_left left.now) shifts.old turn }
    ensures kept { AreShiftsKept world.now (commands_left left.now) shifts.new }
    ensures spare { spare_of world.now shifts.new ≡ shifts_by turn (spare_of world.now shifts.old) }
    ensures due { due.new ≡ due_after turn due.old }
    ensures draw { IsDrawOf turn result }
{
    match shifts {
        None => DrawOutcome::Drawn,
        Some(counted) => count_among(counted, due, world, left, turn),
    }
}

// The same there. It stands apart, so that a turn in a world without programs is short.
#[inline(never)]
fn count_among(
    shifts: &mut Shifts,
    due: &mut bool,
    world: &World,
    left: &Commands,
    turn: Turn,
) -> DrawOutcome
    requires kept { AreKeptFor world.now left.now }
    requires but { AreCountedBut world.now (commands_left left.now) shifts.old turn.who }
    ensures kept { AreShiftsCounted world.now (commands_left left.now) shifts.new }
    ensures spare { shifts.new.spare.items ≡ shifts_by turn shifts.old.spare.items }
    ensures due { due.new ≡ due_after turn due.old }
    ensures draw { IsDrawOf turn result }
{
    let draw = count_shift(&mut shifts.spare, due, turn);
    recount(shifts, world, left, turn.who);
    draw
}

// A Shift is one of those that its box may make, and makes a round of retries due.
pub fn count_shift(spare: &mut Vec<u16>, due: &mut bool, turn: Turn) -> DrawOutcome
    ensures spare { spare.new.items ≡ shifts_by turn spare.old.items }
    ensures due { due.new ≡ due_after turn due.old }
    ensures draw { IsDrawOf turn result }
{
    if is_shift(turn.event) {
        lower_spare(spare, turn.who);
        *due = true;
        return DrawOutcome::Shifted;
    }
    DrawOutcome::Drawn
}

// Whether an event is a Shift.
fn is_shift(event: Event) -> bool
    ensures { result ≡ is_shift event }
{
    matches!(event, Event::Shift)
}

// One fewer for a box.
fn lower_spare(spare: &mut Vec<u16>, who: u32)
    ensures { spare.new.items ≡ slice_set spare.old.items who (slice_index_or spare.old.items who 0 - 1) }
{
    if (who as usize) < spare.len() {
        spare[who as usize] = spare[who as usize].saturating_sub(1);
    }
}

// Sets the count of a box anew.
fn recount(shifts: &mut Shifts, world: &World, left: &Commands, who: u32)
    requires kept { AreKept left.now }
    requires there { who < length world.now.boxes }
    requires long { length shifts.old.others ≡ length world.now.boxes }
    ensures spare { shifts.new.spare ≡ shifts.old.spare }
    ensures others { shifts.new.others ≡ slice_set shifts.old.others who
        (length (others_of world.now (commands_left left.now) shifts.old.spare.items who)) }
{
    let count = other_count(world, left, &shifts.spare, who);
    raise_to(&mut shifts.others, who, count);
    lower_to(&mut shifts.others, who, count);
}

// A count becomes at least so great.
fn raise_to(counts: &mut Sums, who: u32, count: u64)
    requires inside { who < length counts.old }
    requires small { count ≤ 2 }
    ensures set { counts.new ≡ slice_set counts.old who (slice_index_or counts.new who 0) }
    ensures high { count ≤ slice_index_or counts.new who 0 }
{
    'up: while counts.get(who as usize) < count {
        counts.raise(who as usize);
    }
}

// A count becomes at most so great.
fn lower_to(counts: &mut Sums, who: u32, count: u64)
    requires inside { who < length counts.old }
    requires high { count ≤ slice_index_or counts.old who 0 }
    ensures { counts.new ≡ slice_set counts.old who count }
{
    'down: while count < counts.get(who as usize) {
        counts.lower(who as usize);
    }
}

// Sets the counts of all boxes anew, after a round of retries.
pub fn recount_all(shifts: &mut Option<Shifts>, world: &World, left: &Commands)
    requires kept { AreKeptFor world.now left.now }
    requires long { AreShiftsLong world.now shifts.old }
    ensures kept { AreShiftsKept world.now (commands_left left.now) shifts.new }
    ensures spare { spare_of world.now shifts.new ≡ spare_of world.now shifts.old }
{
    match shifts {
        None => {}
        Some(counted) => recount_each(counted, world, left),
    }
}

// The same where some box has a program.
fn recount_each(shifts: &mut Shifts, world: &World, left: &Commands)
    requires kept { AreKeptFor world.now left.now }
    requires long { length shifts.old.spare.items ≡ length world.now.boxes }
    requires others { length shifts.old.others ≡ length world.now.boxes }
    ensures kept { AreShiftsCounted world.now (commands_left left.now) shifts.new }
    ensures spare { shifts.new.spare ≡ shifts.old.spare }
{
    world.keeps();
    for who in 0..world.boxes().len() {
        recount(shifts, world, left, who as u32);
    }
}
