// The commands of a batch by their boxes, so that the next one of a box is found at once.

ghost use Rattle.std.specs.Prelude.{◌≡◌, ℕ, ◌<◌, ◌≤◌, ◌-◌, ◌^◌, ◌++◌, if◌then◌else◌, [], ◌∷◌, length, replicate, slice_index_or, slice_set, IfOk, OnOk};
ghost use Rattle.std.specs.List.{slice_get};
ghost use Rattle.mc_model.specs.Shapes.{AreAllowed};
ghost use Rattle.mc_seq.specs.Commands.{AreKept, AreKeptFor, commands_left, first_of, queue_at, queues_of, turns_of, used_of};
ghost use Rattle.mc_seq.specs.Ready.{CountsEach};
ghost use Rattle.mc_seq.specs.Schedule.{next_of, without_next};

use mc_box::Turn;
use mc_sums::Sums;
use mc_world::World;
use std::alloc::{AllocError, Global};

/// The commands of a batch, of which some have come: the batch, the commands of each box in their order, how many of
/// these have come, which boxes have a command left (1 for one that has, else 0), and how many commands are left in
/// all.
#[derive(Debug, Drop)]
pub struct Commands {
    pub batch: Vec<Turn>,
    pub queues: Vec<Vec<Turn>>,
    pub used: Vec<usize>,
    pub next: Sums,
    pub count: usize,
}

/// The commands of a batch, of which none has come.
pub fn all_commands(alloc: Global, world: &World, batch: &[Turn]) -> Result<Commands, AllocError>
    requires { AreAllowed world.now batch.now }
    ensures kept { IfOk result (AreKeptFor world.now) }
    ensures left { IfOk result (λ commands. commands_left commands ≡ batch.now) }
{
    let boxes = world.boxes().len();
    let used = vec![in alloc; 0; boxes]?;
    let kept = Vec::from_slice(alloc, batch)?;
    let queues = queues_by_box(alloc, world, batch)?;
    let next = first_sums(alloc, world, &queues)?;
    Ok(Commands {
        batch: kept,
        queues,
        used,
        next,
        count: batch.len(),
    })
}

/// The next command of a box; none where all have come.
pub fn next_command(commands: &Commands, who: u32) -> Option<Turn>
    requires { AreKept commands.now }
    ensures { result ≡ next_of who (commands_left commands.now) }
{
    command_at(&commands.queues, who, used_at(&commands.used, who))
}

/// Takes the next command of a box from those that are left.
pub fn drop_command(commands: &mut Commands, who: u32)
    requires { AreKept commands.old }
    ensures kept { AreKept commands.new }
    ensures boxes { length commands.new.queues.items ≡ length commands.old.queues.items }
    ensures left { commands_left commands.new ≡ without_next who (commands_left commands.old) }
{
    let used = used_at(&commands.used, who);
    let all = queue_len(&commands.queues, who);
    if used < all {
        commands.used[who as usize] = used + 1;
        commands.count -= 1;
        lower_at_last(&mut commands.next, who, used + 1 == all);
    }
}

// A box whose last command has come has none left.
fn lower_at_last(next: &mut Sums, who: u32, last: bool)
    requires { 0 < slice_index_or next.old who 0 }
    ensures { next.new ≡ (if last then slice_set next.old who (slice_index_or next.old who 0 - 1) else next.old) }
{
    if last {
        next.lower(who as usize);
    }
}

// How many commands of a box have come; 0 for a box that isn't there.
fn used_at(used: &[usize], who: u32) -> usize
    ensures { result ≡ used_of used.now who }
{
    if (who as usize) < used.len() {
        used[who as usize]
    } else {
        0
    }
}

// How many commands a box has in all.
fn queue_len(queues: &[Vec<Turn>], who: u32) -> usize
    ensures { result ≡ length (queue_at (queues_of queues.now) who) }
{
    match queues.get(who as usize) {
        Some(queue) => queue.len(),
        None => 0,
    }
}

// A command of a box, by its place among these.
fn command_at(queues: &[Vec<Turn>], who: u32, place: usize) -> Option<Turn>
    ensures { result ≡ slice_get (queue_at (queues_of queues.now) who) place }
{
    let queue = queues.get(who as usize)?;
    queue.get(place).copied()
}

// The commands of each box.
fn queues_by_box(alloc: Global, world: &World, batch: &[Turn]) -> Result<Vec<Vec<Turn>>, AllocError>
    requires { AreAllowed world.now batch.now }
    ensures long { IfOk result (λ queues. length queues.items ≡ length world.now.boxes) }
    ensures each { IfOk result (λ queues. (who : ℕ) → queue_at (queues_of queues.items) who ≡ turns_of who batch.now) }
{
    let mut queues = empty_queues(alloc, world.boxes().len())?;
    for turn in batch {
        put_last(&mut queues, *turn)?;
    }
    Ok(queues)
}

// Which boxes have a command: 1 for one that has, else 0.
fn first_sums(alloc: Global, world: &World, queues: &[Vec<Turn>]) -> Result<Sums, AllocError>
    ensures { IfOk result (λ sums. CountsEach (first_of (queues_of queues.now)) sums (length world.now.boxes)) }
{
    let counts = first_counts(alloc, world, queues)?;
    Sums::new(alloc, counts)
}

// The same as a list.
fn first_counts(alloc: Global, world: &World, queues: &[Vec<Turn>]) -> Result<Vec<u64>, AllocError>
    ensures counts { IfOk result (λ counts. CountsEach (first_of (queues_of queues.now))
        counts.items (length world.now.boxes)) }
    ensures small { IfOk result (λ counts. (who : ℕ) → slice_index_or counts.items who 0 ≤ 1) }
    ensures few { IfOk result (λ counts. length counts.items ≤ 2 ^ 32) }
{
    world.keeps();
    let boxes = world.boxes().len();
    let mut counts = Vec::with_capacity(alloc, boxes)?;
    for who in 0..boxes {
        counts.push(first_count(queues, who as u32))?;
    }
    Ok(counts)
}

// The same of one box.
fn first_count(queues: &[Vec<Turn>], who: u32) -> u64
    ensures count { result ≡ length (first_of (queues_of queues.now) who) }
    ensures small { result ≤ 1 }
{
    match command_at(queues, who, 0) {
        Some(_) => 1,
        None => 0,
    }
}

// As many empty lists.
fn empty_queues(alloc: Global, boxes: usize) -> Result<Vec<Vec<Turn>>, AllocError>
    ensures { IfOk result (λ queues. queues_of queues.items ≡ replicate boxes []) }
{
    let mut queues = Vec::with_capacity(alloc, boxes)?;
    for _done in 0..boxes {
        queues.push(Vec::new(alloc))?;
    }
    Ok(queues)
}

// Puts a command last in the list of its box.
fn put_last(queues: &mut Vec<Vec<Turn>>, turn: Turn) -> Result<(), AllocError>
    requires { turn.who < length queues.old.items }
    ensures { OnOk result (queues_of queues.new.items
        ≡ slice_set (queues_of queues.old.items) turn.who
        (queue_at (queues_of queues.old.items) turn.who ++ turn ∷ [])) }
{
    let queue = &mut queues[turn.who as usize];
    queue.push(turn)?;
    Ok(())
}
