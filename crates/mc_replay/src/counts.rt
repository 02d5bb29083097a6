//! How many slots owe a retry, and how many boxes have an enabled Shift, kept while turns are made.

ghost use Rattle.std.specs.Prelude.{◌≡◌, ◌<◌, ◌≤◌, ◌+◌, ◌-◌, ◌^◌};
ghost use Rattle.mc_model.specs.Worlds.{box_at};
ghost use Rattle.mc_replay.specs.Counts.{AreCounted, AreOfBox, owed_in};

use mc_box::{Event, MediaBox};
use mc_world::World;

/// How many slots owe a retry, and how many boxes have an enabled Shift: of a world, or of one box.
#[derive(Clone, Copy)]
pub struct Counts {
    pub owed: u64,
    pub ready: u64,
}

/// Those of a world.
pub fn count_all(world: &World) -> Counts
    ensures { AreCounted world.now result }
{
    world.keeps();
    let mut counts = Counts { owed: 0, ready: 0 };
    for who in 0..world.boxes().len() {
        let more = counts_of(world, who as u32);
        counts.owed += more.owed;
        counts.ready += more.ready;
    }
    counts
}

/// Those of one box; none of one that isn't there.
pub fn counts_of(world: &World, who: u32) -> Counts
    ensures { AreOfBox (box_at world.now who) result }
{
    match world.boxes().get(who as usize) {
        Some(one) => counts_in(one),
        None => Counts { owed: 0, ready: 0 },
    }
}

// The same, of the box itself.
fn counts_in(one: &MediaBox) -> Counts
    ensures { AreOfBox one.now result }
{
    Counts {
        owed: owed_in(one),
        ready: u64::from(one.enabled(&Event::Shift)),
    }
}

// How many slots of a box owe a retry.
fn owed_in(one: &MediaBox) -> u64
    ensures { result ≡ owed_in one.now }
{
    let mut owed = 0;
    for local in 0..one.slots().len() {
        owed += u64::from(one.enabled(&Event::Retry(local as u8)));
    }
    owed
}

/// The counts of a world, where those of one box alone have changed.
pub fn recounted(counts: Counts, less: Counts, more: Counts) -> Counts
    requires owed { less.owed ≤ counts.owed }
    requires ready { less.ready ≤ counts.ready }
    requires owed_fits { counts.owed + more.owed < 2 ^ 64 }
    requires ready_fits { counts.ready + more.ready < 2 ^ 64 }
    ensures owed { result.owed ≡ counts.owed - less.owed + more.owed }
    ensures ready { result.ready ≡ counts.ready - less.ready + more.ready }
{
    Counts {
        owed: counts.owed - less.owed + more.owed,
        ready: counts.ready - less.ready + more.ready,
    }
}
