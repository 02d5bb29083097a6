// The numbers that stand for variants.

ghost use Rattle.std.specs.Prelude.{◌≡◌, ℕ};
ghost use Rattle.mc_entry.specs.Codes.{bit_code, event_code, event_of, goal_code, goal_of, medium_of};

use mc_box::{Change, Event, MediaChange};
use mc_signal::Medium;
use mc_slot::Goal;

/// The version of the form.
pub const FORM_VERSION: u8 = 3;

fn goal_code(goal: Goal) -> u8
    ensures { result ≡ goal_code goal }
{
    match goal {
        Goal::Open => 0,
        Goal::Close => 1,
        Goal::Hold => 2,
    }
}

fn bit_code(on: bool) -> u8
    ensures { result ≡ bit_code on }
{
    if on { 1 } else { 0 }
}

/// The three numbers of an event.
pub fn event_code(event: Event) -> (u8, u8, u8)
    ensures { (result.0, result.1, result.2) ≡ event_code event }
{
    match event {
        Event::Take(slot) => (0, slot, 0),
        Event::Set(Change::End(slot, goal)) => (1, slot, goal_code(goal)),
        Event::Set(Change::Link(first, second)) => (2, first, second),
        Event::Media(MediaChange::Hear(slot, on)) => (3, slot, bit_code(on)),
        Event::Media(MediaChange::Talk(slot, on)) => (4, slot, bit_code(on)),
        Event::Tell(word) => (5, word, 0),
        Event::Retry(slot) => (6, slot, 0),
        Event::Shift => (7, 0, 0),
    }
}

/// The medium of a number.
pub fn medium_of(code: u8) -> Medium
    ensures { result ≡ medium_of code }
{
    if code == 1 {
        Medium::Video
    } else {
        Medium::Audio
    }
}

fn goal_of(code: u8) -> Goal
    ensures { result ≡ goal_of code }
{
    match code {
        0 => Goal::Open,
        1 => Goal::Close,
        _ => Goal::Hold,
    }
}

/// The event of three numbers, and a Shift where they are no event's.
pub fn event_of(kind: u8, first: u8, second: u8) -> Event
    ensures { result ≡ event_of (kind, first, second) }
{
    match kind {
        0 => Event::Take(first),
        1 => Event::Set(Change::End(first, goal_of(second))),
        2 => Event::Set(Change::Link(first, second)),
        3 => Event::Media(MediaChange::Hear(first, second == 1)),
        4 => Event::Media(MediaChange::Talk(first, second == 1)),
        5 => Event::Tell(first),
        6 => Event::Retry(first),
        _ => Event::Shift,
    }
}
