// What a worker takes.

ghost use Rattle.std.specs.Prelude.{◌≡◌, ◌≢◌, ◌==◌, ◌<◌, ◌≤◌, ℕ, [], length, map, if◌then◌else◌, Some, IfNone, IfSome, IsSome};
ghost use Rattle.std.specs.Option.{option_to_list};
ghost use Rattle.mc_port.specs.Ends.{in_ring};
ghost use Rattle.mc_worker.specs.Ends.{InAccount, Passed, in_end, next_in, ring_end, unclaimed as is_unclaimed};

use crate::inboxes::Inboxes;
use mc_port::{InPort, Stamped};
use mc_signal::Tagged;

/// What waits in an inbox counts with the stamp 0.
pub(crate) fn unclaimed(tagged: Tagged) -> Stamped
    ensures { result ≡ is_unclaimed tagged }
{
    Stamped {
        stamp: 0,
        tunnel: tagged.tunnel,
        signal: tagged.signal,
    }
}

/// The first ring from an end on in which something is, and what it is.
pub(crate) fn first_known(ins: &mut Vec<InPort>, from: usize) -> Option<(usize, Stamped)>
    ensures account { (e : ℕ) → InAccount (ring_end ins.old.items e) (ring_end ins.new.items e) [] }
    ensures rings { map in_ring ins.new.items ≡ map in_ring ins.old.items }
    ensures ports { length ins.new.items ≡ length ins.old.items }
    ensures there { IfSome result (λ found. found.0 < length ins.old.items) }
    ensures found { IfSome result (λ found. next_in (ring_end ins.new.items found.0) ≡ Some found.1) }
    ensures passed { IfSome result (λ found. (e : ℕ) → e < found.0
        → Passed from e (ring_end ins.old.items e) (ring_end ins.new.items e)) }
    ensures idle { IfNone result ((e : ℕ) → e < length ins.old.items
        → Passed from e (ring_end ins.old.items e) (ring_end ins.new.items e)) }
{
    for end in from..ins.len() {
        if let Some(item) = ins[end].peek() {
            return Some((end, item));
        }
    }
    None
}

/// Takes what is next at a channel end: from the inbox, else from the ring.
pub(crate) fn take_at(ins: &mut Vec<InPort>, inboxes: &mut Inboxes, end: u8) -> Option<Stamped>
    requires port { end < length ins.old.items }
    requires inbox { end < length inboxes.old }
    requires next { IsSome (next_in (in_end ins.old.items inboxes.old end)) }
    ensures account { (e : ℕ) → InAccount (in_end ins.old.items inboxes.old e) (in_end ins.new.items inboxes.new e)
        (if end == e then option_to_list result else []) }
    ensures others { (e : ℕ) → e ≢ end
        → in_end ins.new.items inboxes.new e ≡ in_end ins.old.items inboxes.old e }
    ensures next { result ≡ next_in (in_end ins.old.items inboxes.old end) }
    ensures rings { map in_ring ins.new.items ≡ map in_ring ins.old.items }
    ensures ports { length ins.new.items ≡ length ins.old.items }
    ensures boxes { length inboxes.new ≡ length inboxes.old }
{
    match inboxes.pop(end) {
        Some(tagged) => Some(unclaimed(tagged)),
        None => ins[end as usize].take(),
    }
}
