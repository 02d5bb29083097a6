//! A segment of a journal: the turns since the last settle, replayed one after another.

ghost use Rattle.std.specs.Prelude.{◌≡◌, ◌↔◌, ◌==◌, ◌&&◌, ◌+◌, ◌<◌, ◌≤◌, ◌^◌, List, [], Some, length, true, IfOk, IsTrue, OnOk};
ghost use Rattle.mc_box.specs.declared.event.Turn.{Turn};
ghost use Rattle.mc_model.specs.Shapes.{AreAllowed};
ghost use Rattle.mc_model.specs.Settles.{is_quiet, rests};
ghost use Rattle.mc_model.specs.Steps.{step};
ghost use Rattle.mc_model.specs.Worlds.{WorldState};
ghost use Rattle.mc_seq.specs.Commands.{AreKept, commands_left};
ghost use Rattle.mc_seq.specs.Schedule.{left_by, next_of};
ghost use Rattle.mc_replay.specs.Counts.{AreCounted};
ghost use Rattle.mc_replay.specs.Follows.{Follows, MakesTurn, Stands, TellsNext, TellsSettled, TriedStep, is_last};
ghost use Rattle.mc_replay.specs.Moments.{with_present};
ghost use Rattle.mc_replay.specs.declared.segment.TurnFault.TheVariants.{NoMemory};

use crate::counts::{Counts, count_all, counts_of, recounted};
use crate::moments::{QuietMoment, forget, is_quiet, some_serves};
use crate::retries::{Retries, count_retry, no_retries};
use mc_box::Turn;
use mc_seq::{Commands, all_commands, drop_command, is_command, next_command};
use mc_world::{StepFault, World};
use std::alloc::{AllocError, Global};

/// Where a segment stands: its world, the commands that are left of its batch, how many slots owe a retry and how many
/// boxes have an enabled Shift, the retries of the whole journal, and the moments that may be the last rest.
#[derive(Drop)]
pub struct Segment {
    pub world: World,
    pub left: Commands,
    pub counts: Counts,
    pub retries: Retries,
    pub moments: Vec<QuietMoment>,
}

/// Why a turn isn't made.
#[derive(Drop)]
pub enum TurnFault {
    /// It is a command, and not the next one of its box.
    NotNext,
    /// It can't happen now.
    NotEnabled,
    /// Memory ran out.
    NoMemory(AllocError),
}

impl From<AllocError> for TurnFault {
    ghost from_gives = { λ e fault. fault ≡ NoMemory e };

    fn from(e: AllocError) -> Self {
        TurnFault::NoMemory(e)
    }
}

/// The first segment.
pub fn begin(alloc: Global, world: World, batch: &[Turn]) -> Result<Segment, AllocError>
    requires { AreAllowed world batch.now }
    ensures follows { IfOk result (Follows world batch.now []) }
    ensures none { IfOk result (λ segment. segment.retries.made ≡ 0) }
{
    let (left, counts, retries, moments) = first_parts(alloc, &world, batch)?;
    Ok(Segment {
        world,
        left,
        counts,
        retries,
        moments,
    })
}

// What the first segment has beside its world.
fn first_parts(
    alloc: Global,
    world: &World,
    batch: &[Turn],
) -> Result<(Commands, Counts, Retries, Vec<QuietMoment>), AllocError>
    requires { AreAllowed world.now batch.now }
    ensures follows { IfOk result (λ parts. Follows world.now batch.now []
        (record { world = world.now; left = parts.0; counts = parts.1; retries = parts.2; moments = parts.3 })) }
    ensures none { IfOk result (λ parts. parts.2.made ≡ 0) }
{
    world.keeps();
    let counts = count_all(world);
    let retries = no_retries(alloc, world)?;
    let left = all_commands(alloc, world, batch)?;
    let mut moments = Vec::new(alloc);
    keep_moment(&mut moments, world, &left, counts, &retries)?;
    Ok((left, counts, retries, moments))
}

/// Keeps a moment at which the world rests and the batch is used up.
pub fn keep_moment(
    moments: &mut Vec<QuietMoment>,
    world: &World,
    left: &Commands,
    counts: Counts,
    retries: &Retries,
) -> Result<(), AllocError>
    requires kept { AreKept left.now }
    requires counted { AreCounted world.now counts }
    ensures { OnOk result (moments.new.items
        ≡ with_present (rests world.now && length (commands_left left.now) == 0)
        (record { retries = retries.now.made; owed = counts.owed }) moments.old.items) }
{
    if rests(world, counts) && left.count == 0 {
        moments.push(QuietMoment {
            retries: retries.made,
            owed: counts.owed,
        })?;
    }
    Ok(())
}

// Whether nothing is under way, and no program can go on.
fn rests(world: &World, counts: Counts) -> bool
    requires { AreCounted world.now counts }
    ensures { result ≡ rests world.now }
{
    is_quiet(world) && counts.ready == 0
}

impl Segment {
    /// The next segment, which begins where this one has ended.
    pub fn go_on(&mut self, alloc: Global, batch: &[Turn]) -> Result<(), AllocError>
        requires stands { Stands self.old }
        requires allowed { AreAllowed self.old.world batch.now }
        ensures follows { OnOk result (Follows self.old.world batch.now [] self.new) }
        ensures made { OnOk result (self.new.retries.made ≡ self.old.retries.made) }
        ensures world { OnOk result (self.new.world ≡ self.old.world) }
    {
        self.world.keeps();
        self.left = all_commands(alloc, &self.world, batch)?;
        self.moments.clear();
        keep_moment(
            &mut self.moments,
            &self.world,
            &self.left,
            self.counts,
            &self.retries,
        )?;
        Ok(())
    }

    /// Makes a turn.
    pub fn make(&mut self, turn: Turn) -> Result<(), TurnFault>
        requires stands { Stands self.old }
        requires few { self.old.retries.made + 1 < 2 ^ 64 }
        ensures makes { (begins : WorldState) (batch turns : List Turn) → Follows begins batch turns self.old
            → MakesTurn begins batch turns turn result self.new }
        ensures made { OnOk result (self.new.retries.made ≤ self.old.retries.made + 1) }
        ensures goes { OnOk result (step self.old.world turn ≡ Some self.new.world) }
    {
        self.world.keeps();
        if !may_come(&self.left, turn) {
            return Err(TurnFault::NotNext);
        }
        step(&mut self.world, &mut self.counts, turn)?;
        drop_made(&mut self.left, turn);
        count_retry(&mut self.retries, &self.world, turn);
        forget(&mut self.moments, turn.event);
        keep_moment(
            &mut self.moments,
            &self.world,
            &self.left,
            self.counts,
            &self.retries,
        )?;
        Ok(())
    }

    /// Whether the turns have settled the batch.
    pub fn is_settled(&mut self) -> bool
        requires { Stands self.old }
        ensures same { self.new ≡ self.old }
        ensures quiet { IsTrue result → IsTrue (is_quiet self.old.world) }
        ensures settled { (begins : WorldState) (batch turns : List Turn) → Follows begins batch turns self.old
            → TellsSettled begins batch turns self.old.world result }
    {
        self.is_last() && self.world.find_ring().is_none()
    }

    // Whether nothing is left of the batch, the world rests, and some moment may be the last rest.
    fn is_last(&self) -> bool
        requires { Stands self.now }
        ensures { result ≡ is_last self.now }
    {
        self.left.count == 0
            && rests(&self.world, self.counts)
            && some_serves(&self.moments, &self.retries)
    }
}

// Whether a turn is no command, or the next one of its box.
fn may_come(left: &Commands, turn: Turn) -> bool
    requires { AreKept left.now }
    ensures { TellsNext (commands_left left.now) turn result }
{
    !is_command(turn.event) || is_next(left, turn)
}

// Whether a command is the next one of its box.
fn is_next(left: &Commands, turn: Turn) -> bool
    requires { AreKept left.now }
    ensures { (result ≡ true) ↔ (next_of turn.who (commands_left left.now) ≡ Some turn) }
{
    next_command(left, turn.who) == Some(turn)
}

// A command that was made isn't left any more.
fn drop_made(left: &mut Commands, turn: Turn)
    requires { AreKept left.old }
    ensures kept { AreKept left.new }
    ensures boxes { length left.new.queues.items ≡ length left.old.queues.items }
    ensures left { commands_left left.new ≡ left_by turn (commands_left left.old) }
{
    if is_command(turn.event) {
        drop_command(left, turn.who);
    }
}

/// Makes a turn, and counts its box anew. No other box changes.
pub fn step(world: &mut World, counts: &mut Counts, turn: Turn) -> Result<(), TurnFault>
    requires { AreCounted world.old counts.old }
    ensures { TriedStep world.old world.new counts.new turn result }
{
    world.keeps();
    let less = counts_of(world, turn.who);
    match world.step(turn.who, turn.event) {
        Ok(()) => {}
        Err(StepFault::NotEnabled | StepFault::VersionEnd) => return Err(TurnFault::NotEnabled),
        Err(StepFault::NoMemory(e)) => return Err(TurnFault::NoMemory(e)),
    }
    world.keeps();
    let more = counts_of(world, turn.who);
    *counts = recounted(*counts, less, more);
    Ok(())
}
