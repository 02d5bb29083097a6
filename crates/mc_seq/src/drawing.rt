// A settle by draws, of which a turn takes no longer in a larger network.

ghost use Rattle.std.specs.Prelude.{◌≡◌, ℕ, ◌<◌, ◌%◌, [], false, is_some, length, IfOk, IfErr, OnOk};
ghost use Rattle.mc_model.specs.Shapes.{AreAllowed};
ghost use Rattle.mc_model.specs.Paths.{has_ring};
ghost use Rattle.mc_model.specs.Rings.{IsLeastOnRing};
ghost use Rattle.mc_model.specs.Settles.{IsSettled};
ghost use Rattle.mc_seq.specs.Commands.{AreKept, AreKeptFor, commands_left};
ghost use Rattle.mc_seq.specs.Draws.{SettlesByDraws, StopsByDraws};
ghost use Rattle.mc_seq.specs.Drawing.{CameTo, DrewOn, DrewOnce, Ended, IsKept, MayCome, Picks, RoundMade, TriedTurn};
ghost use Rattle.mc_seq.specs.Drawing.{UsedUp, first_drawn, so_far_of, drawn_of};
ghost use Rattle.mc_seq.specs.Restless.{IsFirstShifterOr};
ghost use Rattle.mc_seq.specs.Schedule.{commands_only, left_by, since_by};
ghost use Rattle.mc_seq.specs.ShiftLimit.{KeepsShiftLimit};

use crate::batches::is_command;
use crate::commands::{Commands, all_commands, drop_command};
use crate::fault::SettleFault;
use crate::finding::{candidate_count, kth};
use crate::retrying::retry_by_box;
use crate::shifting::{Shifts, all_shifts, count_programmed, recount_all};
use crate::stopping::{DrawOutcome, SettleStop, answer, first_shifter, heard_slot};
use mc_box::Turn;
use mc_text::Draws;
use mc_world::{Settled, StepFault, World};
use std::alloc::{AllocError, Global};

// Where a settle stands: its world and its turns so far, the commands that are left, how many turns came since the
// last command or the beginning, counted to 63, the Shifts that boxes may still make, where some box has a program, and
// whether a round of retries is due.
#[derive(Drop)]
struct SettleSoFar {
    settled: Settled,
    left: Commands,
    since: u8,
    shifts: Option<Shifts>,
    due: bool,
}

/// Settles a batch by draws. Each turn is drawn among those that can come: the next command of each box, a Take of each
/// slot for which a signal waits, and the Shift of each box whose program has an enabled transition and that has made
/// fewer than `SHIFT_LIMIT` of them. After 63 turns that were no commands only commands are drawn, while any are left.
/// Where the batch is used up and nothing can come, each retry that is owed is made, once and again whenever a Shift
/// came since, and turns are drawn again.
///
/// The world allows each command. It always ends: at rest, at a ring of links that the batch or a Shift left, at a box
/// that has made all its Shifts and has one more enabled, or at a Hear of a descriptor that has the last version; or
/// for want of memory, and then the draws may have gone on.
///
/// The world and the commands that are left keep how many candidates each box has, in trees of sums. So the time of a
/// turn depends on its box, and beside that on the network's size by its logarithm alone.
pub fn settle_one(
    alloc: Global,
    world: World,
    batch: &[Turn],
    draws: &mut Draws,
) -> Result<Settled, SettleFault>
    requires { AreAllowed world batch.now }
    ensures scheduled { IfOk result (SettlesByDraws world batch.now draws.old.state draws.new.state) }
    ensures settled { IfOk result (λ done. IsSettled world batch.now done.turns.items done.world) }
    ensures shift_limit { IfOk result (λ done. KeepsShiftLimit done.turns.items) }
    ensures stops { IfErr result (StopsByDraws world batch.now draws.old.state draws.new.state) }
{
    world.keeps();
    let mut so_far = begin(alloc, world, batch)?;
    let ended = settle(&mut so_far, draws);
    let settled = settled_by(so_far);
    let ending = ended?;
    answer(settled, ending)
}

// Where a settle begins.
fn begin(alloc: Global, world: World, batch: &[Turn]) -> Result<SettleSoFar, AllocError>
    requires { AreAllowed world batch.now }
    ensures kept { IfOk result IsKept }
    ensures begins { IfOk result (λ so_far. (draws : ℕ) → drawn_of so_far draws ≡ first_drawn world batch.now draws) }
{
    let left = all_commands(alloc, &world, batch)?;
    let shifts = all_shifts(alloc, &world, &left)?;
    let turns = Vec::new(alloc);
    let settled = Settled { world, turns };
    Ok(SettleSoFar {
        settled,
        left,
        since: 0,
        shifts,
        due: true,
    })
}

// The world and the turns of a settle.
fn settled_by(so_far: SettleSoFar) -> Settled
    ensures { result ≡ so_far.settled }
{
    let SettleSoFar {
        settled,
        left: _,
        since: _,
        shifts: _,
        due: _,
    } = so_far;
    settled
}

// Makes all the turns of a settle.
fn settle(so_far: &mut SettleSoFar, draws: &mut Draws) -> Result<Option<SettleStop>, AllocError>
    requires allowed { AreAllowed so_far.old.settled.world (commands_left so_far.old.left) }
    requires kept { IsKept so_far.old }
    ensures { IfOk result (Ended (drawn_of so_far.old draws.old.state) (drawn_of so_far.new draws.new.state)) }
{
    if let Some(at) = use_up(so_far, draws)? {
        return Ok(Some(SettleStop::VersionEnd(at)));
    }
    finish(so_far, draws)
}

// Draws until the batch is used up, or to the last version of a slot.
fn use_up(so_far: &mut SettleSoFar, draws: &mut Draws) -> Result<Option<u32>, AllocError>
    requires allowed { AreAllowed so_far.old.settled.world (commands_left so_far.old.left) }
    requires kept { IsKept so_far.old }
    ensures drew { IfOk result (UsedUp (drawn_of so_far.old draws.old.state) (drawn_of so_far.new draws.new.state)) }
    ensures kept { OnOk result (IsKept so_far.new) }
{
    so_far.settled.world.keeps();
    'commands: while so_far.left.count > 0 {
        match draw_once(so_far, draws)? {
            DrawOutcome::Drawn | DrawOutcome::Shifted => {}
            DrawOutcome::Nothing => unreachable!(),
            DrawOutcome::VersionEnd(at) => return Ok(Some(at)),
        }
    }
    Ok(None)
}

// After the batch: comes to rest again and again, with a round of retries between.
fn finish(so_far: &mut SettleSoFar, draws: &mut Draws) -> Result<Option<SettleStop>, AllocError>
    requires used_up { commands_left so_far.old.left ≡ [] }
    requires kept { IsKept so_far.old }
    ensures { IfOk result (Ended (drawn_of so_far.old draws.old.state) (drawn_of so_far.new draws.new.state)) }
{
    'rounds: loop {
        if let Some(at) = come_to_rest(so_far, draws)? {
            return Ok(Some(SettleStop::Ring(at)));
        }
        if let Some(at) = shifter(so_far) {
            return Ok(Some(SettleStop::Restless(at)));
        }
        if !so_far.due {
            return Ok(None);
        }
        make_round(so_far)?;
    }
}

// The first box whose program has an enabled transition.
fn shifter(so_far: &SettleSoFar) -> Option<u32>
    requires { IsKept so_far.now }
    ensures { IsFirstShifterOr so_far.now.settled.world result }
{
    match so_far.shifts {
        None => None,
        Some(_) => first_shifter(&so_far.settled.world),
    }
}

// Makes each retry that is owed.
fn make_round(so_far: &mut SettleSoFar) -> Result<(), AllocError>
    requires { IsKept so_far.old }
    ensures made { OnOk result (RoundMade (so_far_of so_far.old) (so_far_of so_far.new)) }
    ensures kept { OnOk result (IsKept so_far.new) }
{
    so_far.settled.world.keeps();
    retry_by_box(&mut so_far.settled)?;
    recount_all(&mut so_far.shifts, &so_far.settled.world, &so_far.left);
    so_far.due = false;
    Ok(())
}

// Draws until nothing is listed, or there is a ring, where the batch is used up. Only a Shift can make one.
fn come_to_rest(so_far: &mut SettleSoFar, draws: &mut Draws) -> Result<Option<u32>, AllocError>
    requires used_up { commands_left so_far.old.left ≡ [] }
    requires kept { IsKept so_far.old }
    ensures came { IfOk result (CameTo (drawn_of so_far.old draws.old.state) (drawn_of so_far.new draws.new.state)) }
    ensures kept { OnOk result (IsKept so_far.new) }
{
    'stretches: loop {
        if let Some(at) = find_ring(so_far) {
            return Ok(Some(at));
        }
        if !draw_on(so_far, draws)? {
            return Ok(None);
        }
    }
}

// The least slot on a ring, if there is one.
fn find_ring(so_far: &mut SettleSoFar) -> Option<u32>
    ensures same { so_far.new ≡ so_far.old }
    ensures least { IsLeastOnRing so_far.old.settled.world result }
    ensures has { has_ring so_far.old.settled.world ≡ is_some result }
{
    so_far.settled.world.find_ring()
}

// Draws until nothing is listed, or a Shift was made, where the batch is used up and there is no ring. Tells whether
// one was.
fn draw_on(so_far: &mut SettleSoFar, draws: &mut Draws) -> Result<bool, AllocError>
    requires used_up { commands_left so_far.old.left ≡ [] }
    requires free { has_ring so_far.old.settled.world ≡ false }
    requires kept { IsKept so_far.old }
    ensures drew { IfOk result (DrewOn (drawn_of so_far.old draws.old.state) (drawn_of so_far.new draws.new.state)) }
    ensures kept { OnOk result (IsKept so_far.new) }
{
    so_far.settled.world.keeps();
    'takes: loop {
        match draw_once(so_far, draws)? {
            DrawOutcome::Drawn => {}
            DrawOutcome::Shifted => return Ok(true),
            DrawOutcome::Nothing => return Ok(false),
            DrawOutcome::VersionEnd(_) => unreachable!(),
        }
    }
}

// Draws once, where anything is listed, and makes the turn that is drawn.
fn draw_once(so_far: &mut SettleSoFar, draws: &mut Draws) -> Result<DrawOutcome, AllocError>
    requires allowed { AreAllowed so_far.old.settled.world (commands_left so_far.old.left) }
    requires kept { IsKept so_far.old }
    ensures drew { IfOk result
        (DrewOnce (drawn_of so_far.old draws.old.state) (drawn_of so_far.new draws.new.state)) }
    ensures kept { OnOk result (IsKept so_far.new) }
{
    so_far.settled.world.keeps();
    match pick(so_far, draws) {
        Some(turn) => try_turn(so_far, turn),
        None => Ok(DrawOutcome::Nothing),
    }
}

// The candidate that is drawn; none where there is none, and then nothing is drawn.
fn pick(so_far: &SettleSoFar, draws: &mut Draws) -> Option<Turn>
    requires { IsKept so_far.now }
    ensures { Picks (drawn_of so_far.now draws.old.state).schedule draws.new.state result }
{
    let only_commands = commands_only(&so_far.left, so_far.since);
    let count = candidate_count(
        &so_far.settled.world,
        &so_far.left,
        &so_far.shifts,
        only_commands,
    );
    if count == 0 {
        return None;
    }
    let k = modulo(draws.draw(), count);
    Some(kth(
        &so_far.settled.world,
        &so_far.left,
        &so_far.shifts,
        only_commands,
        k,
    ))
}

// A draw modulo a count. One or two are counted as a rule, and a remainder by a constant takes no division.
fn modulo(draw: u32, count: u64) -> u64
    requires { 0 < count }
    ensures { result ≡ draw % count }
{
    if count <= 2 {
        return u64::from(draw % 2) * (count - 1);
    }
    match count {
        3 => u64::from(draw % 3),
        4 => u64::from(draw % 4),
        _ => short_modulo(draw, count),
    }
}

// The same by a division of 32 bits at most, which takes half the time of one of 64.
fn short_modulo(draw: u32, count: u64) -> u64
    requires { 0 < count }
    ensures { result ≡ draw % count }
{
    let wide = u64::from(draw);
    if wide < count {
        return wide;
    }
    u64::from(draw % count as u32)
}

// Whether commands alone are listed.
fn commands_only(left: &Commands, since: u8) -> bool
    requires { AreKept left.now }
    ensures { result ≡ commands_only (commands_left left.now) since }
{
    left.count != 0 && !(since < 63)
}

// Makes a turn, unless it ends a version.
fn try_turn(so_far: &mut SettleSoFar, turn: Turn) -> Result<DrawOutcome, AllocError>
    requires comes { MayCome so_far.old.settled.world turn }
    requires kept { IsKept so_far.old }
    ensures tried { IfOk result (TriedTurn (so_far_of so_far.old) (so_far_of so_far.new) turn) }
    ensures kept { OnOk result (IsKept so_far.new) }
{
    so_far.settled.world.keeps();
    match so_far.settled.world.step(turn.who, turn.event) {
        Ok(()) => {
            so_far.settled.turns.push(turn)?;
            count(&mut so_far.left, &mut so_far.since, turn);
            Ok(count_programmed(
                &mut so_far.shifts,
                &mut so_far.due,
                &so_far.settled.world,
                &so_far.left,
                turn,
            ))
        }
        Err(StepFault::VersionEnd) => {
            Ok(DrawOutcome::VersionEnd(heard_slot(&so_far.settled.world, turn)))
        }
        Err(StepFault::NoMemory(e)) => Err(e),
        Err(StepFault::NotEnabled) => unreachable!(),
    }
}

// Counts a turn that was made; a command isn't left any more.
fn count(left: &mut Commands, since: &mut u8, turn: Turn)
    requires { AreKept left.old }
    ensures kept { AreKept left.new }
    ensures boxes { length left.new.queues.items ≡ length left.old.queues.items }
    ensures left { commands_left left.new ≡ left_by turn (commands_left left.old) }
    ensures since { since.new ≡ since_by turn since.old }
{
    if is_command(turn.event) {
        drop_command(left, turn.who);
        *since = 0;
    } else if *since < 63 {
        *since += 1;
    }
}
