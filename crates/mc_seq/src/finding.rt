// How many candidates there are, and the k-th of them, without a list of them.

ghost use Rattle.std.specs.Prelude.{◌≡◌, ◌<◌, ◌++◌, false, Some, length, slice_get};
ghost use Rattle.mc_seq.specs.Commands.{AreKept, AreKeptFor, commands_left};
ghost use Rattle.mc_seq.specs.Ready.{all_of_two, all_takes, next_commands, two_candidates};
ghost use Rattle.mc_seq.specs.Schedule.{all_candidates, candidates_of, shift_of, takes_of};
ghost use Rattle.mc_seq.specs.Spare.{AreShiftsCounted, AreShiftsKept, spare_of};

use crate::commands::{Commands, next_command};
use crate::shifting::Shifts;
use mc_box::{Event, Turn};
use mc_world::World;

/// How many candidates there are.
#[inline]
pub fn candidate_count(
    world: &World,
    left: &Commands,
    shifts: &Option<Shifts>,
    only_commands: bool,
) -> u64
    requires kept { AreKeptFor world.now left.now }
    requires shifts { AreShiftsKept world.now (commands_left left.now) shifts.now }
    ensures { result
        ≡ length (all_candidates world.now (commands_left left.now) (spare_of world.now shifts.now) only_commands) }
{
    match shifts {
        None => count_of_two(world, left, only_commands),
        Some(counted) => count_of_three(world, left, counted, only_commands),
    }
}

/// The k-th candidate.
#[inline]
pub fn kth(
    world: &World,
    left: &Commands,
    shifts: &Option<Shifts>,
    only_commands: bool,
    k: u64,
) -> Turn
    requires kept { AreKeptFor world.now left.now }
    requires shifts { AreShiftsKept world.now (commands_left left.now) shifts.now }
    requires inside { k
        < length (all_candidates world.now (commands_left left.now) (spare_of world.now shifts.now) only_commands) }
    ensures { slice_get (all_candidates world.now (commands_left left.now) (spare_of world.now shifts.now) only_commands) k
        ≡ Some result }
{
    match shifts {
        None => kth_of_two(world, left, only_commands, k),
        Some(counted) => kth_of_three(world, left, counted, only_commands, k),
    }
}

// ---- where no box has a program

// How many next commands and Takes there are.
fn count_of_two(world: &World, left: &Commands, only_commands: bool) -> u64
    requires { AreKeptFor world.now left.now }
    ensures { result ≡ length (all_of_two world.now (commands_left left.now) only_commands) }
{
    if only_commands {
        return left.next.total();
    }
    let takes = world.takes();
    if left.count == 0 {
        return takes.total();
    }
    left.next.keeps();
    takes.keeps();
    left.next.total() + takes.total()
}

// The k-th of them.
fn kth_of_two(world: &World, left: &Commands, only_commands: bool, k: u64) -> Turn
    requires kept { AreKeptFor world.now left.now }
    requires inside { k < length (all_of_two world.now (commands_left left.now) only_commands) }
    ensures { slice_get (all_of_two world.now (commands_left left.now) only_commands) k ≡ Some result }
{
    if only_commands {
        return kth_command(left, k);
    }
    if left.count == 0 {
        return kth_take(world, k);
    }
    kth_of_both(world, left, k)
}

// The k-th next command.
fn kth_command(left: &Commands, k: u64) -> Turn
    requires kept { AreKept left.now }
    requires inside { k < length (next_commands (commands_left left.now) (length left.now.queues.items)) }
    ensures { slice_get (next_commands (commands_left left.now) (length left.now.queues.items)) k ≡ Some result }
{
    left.next.keeps();
    let (who, _) = left.next.find(k);
    let Some(turn) = next_command(left, who as u32) else {
        unreachable!()
    };
    turn
}

// The k-th Take.
#[inline(always)]
fn kth_take(world: &World, k: u64) -> Turn
    requires { k < length (all_takes world.now) }
    ensures { slice_get (all_takes world.now) k ≡ Some result }
{
    world.keeps();
    let (who, rest) = world.takes().find(k);
    kth_take_of(world, who as u32, rest)
}

// The k-th among next commands and Takes.
fn kth_of_both(world: &World, left: &Commands, k: u64) -> Turn
    requires kept { AreKeptFor world.now left.now }
    requires inside { k < length (all_of_two world.now (commands_left left.now) false) }
    ensures { slice_get (all_of_two world.now (commands_left left.now) false) k ≡ Some result }
{
    world.keeps();
    let (who, rest) = world.takes().find_in_both(&left.next, k);
    kth_of_box(world, left, who as u32, rest)
}

// The k-th of a box: its next command comes first.
fn kth_of_box(world: &World, left: &Commands, who: u32, k: u64) -> Turn
    requires kept { AreKept left.now }
    requires inside { k < length (two_candidates world.now (commands_left left.now) false who) }
    ensures { slice_get (two_candidates world.now (commands_left left.now) false who) k ≡ Some result }
{
    match next_command(left, who) {
        Some(turn) => {
            if k == 0 {
                turn
            } else {
                kth_take_of(world, who, k - 1)
            }
        }
        None => kth_take_of(world, who, k),
    }
}

// The k-th Take of a box.
fn kth_take_of(world: &World, who: u32, k: u64) -> Turn
    requires { k < length (takes_of world.now who) }
    ensures { slice_get (takes_of world.now who) k ≡ Some result }
{
    let event = Event::Take(world.kth_take(who, k));
    Turn { who, event }
}

// ---- where some box has a program; these stand apart, so that a turn in a world without programs is short

// How many next commands, Takes and Shifts there are.
#[inline(never)]
fn count_of_three(world: &World, left: &Commands, shifts: &Shifts, only_commands: bool) -> u64
    requires kept { AreKeptFor world.now left.now }
    requires shifts { AreShiftsCounted world.now (commands_left left.now) shifts.now }
    ensures { result ≡ length (all_candidates world.now (commands_left left.now) shifts.now.spare.items only_commands) }
{
    if only_commands {
        return left.next.total();
    }
    let takes = world.takes();
    shifts.others.keeps();
    takes.keeps();
    shifts.others.total() + takes.total()
}

// The k-th of them.
#[inline(never)]
fn kth_of_three(
    world: &World,
    left: &Commands,
    shifts: &Shifts,
    only_commands: bool,
    k: u64,
) -> Turn
    requires kept { AreKeptFor world.now left.now }
    requires shifts { AreShiftsCounted world.now (commands_left left.now) shifts.now }
    requires inside { k < length (all_candidates world.now (commands_left left.now) shifts.now.spare.items only_commands) }
    ensures { slice_get (all_candidates world.now (commands_left left.now) shifts.now.spare.items only_commands) k
        ≡ Some result }
{
    if only_commands {
        return kth_command(left, k);
    }
    let others = shifts.others.total();
    if others == 0 {
        return kth_take(world, k);
    }
    world.keeps();
    let (who, rest) = world.takes().find_in_both(&shifts.others, k);
    kth_at_box(world, left, &shifts.spare, who as u32, rest)
}

// The k-th of a box: its next command comes first.
fn kth_at_box(world: &World, left: &Commands, spare: &[u16], who: u32, k: u64) -> Turn
    requires kept { AreKept left.now }
    requires there { who < length world.now.boxes }
    requires inside { k < length (candidates_of world.now (commands_left left.now) spare.now false who) }
    ensures { slice_get (candidates_of world.now (commands_left left.now) spare.now false who) k ≡ Some result }
{
    match next_command(left, who) {
        Some(turn) => {
            if k == 0 {
                turn
            } else {
                kth_behind(world, spare, who, k - 1)
            }
        }
        None => kth_behind(world, spare, who, k),
    }
}

// The k-th after it: the Shift comes last.
fn kth_behind(world: &World, spare: &[u16], who: u32, k: u64) -> Turn
    requires there { who < length world.now.boxes }
    requires inside { k < length (takes_of world.now who ++ shift_of world.now spare.now who) }
    ensures { slice_get (takes_of world.now who ++ shift_of world.now spare.now who) k ≡ Some result }
{
    if k < world.takes().get(who as usize) {
        kth_take_of(world, who, k)
    } else {
        let event = Event::Shift;
        Turn { who, event }
    }
}
