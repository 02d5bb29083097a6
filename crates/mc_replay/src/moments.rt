//! The moments of a segment that may be its last rest.

ghost use Rattle.std.specs.Prelude.{◌≡◌, if◌then◌else◌, []};
ghost use Rattle.std.specs.List.{list_any};
ghost use Rattle.mc_model.specs.Settles.{is_quiet, takes_or_retries};
ghost use Rattle.mc_replay.specs.Moments.{serves};

use crate::retries::Retries;
use mc_box::Event;
use mc_world::World;
use std::alloc::AllocError;

/// What is kept of a moment at which the world rests and the batch is used up: how many retries were made until then,
/// and how many slots owed one.
#[derive(Clone, Copy)]
pub struct QuietMoment {
    pub retries: u64,
    pub owed: u64,
}

/// Forgets all moments at a command and at a Shift, which come before the last rest.
pub fn forget(moments: &mut Vec<QuietMoment>, event: Event)
    ensures { moments.new.items ≡ (if takes_or_retries event then moments.old.items else []) }
{
    if !takes_or_retries(event) {
        moments.clear();
    }
}

// Whether an event is a Take or a retry.
fn takes_or_retries(event: Event) -> bool
    ensures { result ≡ takes_or_retries event }
{
    matches!(event, Event::Take(_) | Event::Retry(_))
}

/// Whether some moment may be the last rest: after it no slot was retried twice, and as many were as owed a retry.
pub fn some_serves(moments: &[QuietMoment], retries: &Retries) -> bool
    ensures { result ≡ list_any (λ moment. serves moment retries.now) moments.now }
{
    moments.iter().any(|moment| serves(moment, retries))
}

fn serves(moment: &QuietMoment, retries: &Retries) -> bool
    ensures { result ≡ serves moment.now retries.now }
{
    retries.low <= moment.retries && retries.made.saturating_sub(moment.retries) == moment.owed
}

/// Whether nothing is under way: then no signal waits that a slot can take.
#[inline]
pub fn is_quiet(world: &World) -> bool
    ensures { result ≡ is_quiet world.now }
{
    world.keeps();
    world.takes().total() == 0
}
