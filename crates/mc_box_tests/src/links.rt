// Turns of links by the states of their slots.
ghost use Rattle.std.specs.Prelude.{◌≡◌, Some, IsSome, IsTrue};
ghost use Rattle.mc_slot.specs.Moves.{is_live};

use crate::equal::is_equal;
use mc_link::{Side, link_turn};
use mc_signal::{CodecList, Descriptor, Medium, Signal};
use mc_slot::{Sends, Slot, State};

fn descriptor() -> Descriptor {
    Descriptor {
        origin: 3,
        version: 1,
        addr: 7,
        port: 5001,
        codecs: CodecList::none(),
    }
}

// A slot in this state, which has got the descriptor where it is live.
fn in_state(state: State) -> Slot
    ensures state { result.state ≡ state }
    ensures medium { result.medium ≡ Medium.Audio }
    ensures got { IsTrue (is_live result.state) → IsSome result.got }
{
    let mut slot = Slot::new(Medium::Audio, true);
    slot.state = state;
    if slot.live() {
        slot.got = Some(descriptor());
    }
    slot
}

// The turn of two such slots, of which the first may have been closed by the far side.
fn turned(first: State, second: State, closed: bool) -> (Slot, Slot, Sends)
    requires { IsTrue closed → first ≡ State.Closed }
{
    let mut a = in_state(first);
    let mut b = in_state(second);
    let closed_by_far = if closed { Some(Side::First) } else { None };
    let sends = link_turn(&mut a, 2, &mut b, 5, closed_by_far);
    (a, b, sends)
}

// What is sent where the second slot sends one signal.
fn sent_by_second(s: Signal) -> Sends {
    let mut sends = Sends::none();
    sends.push(5, s);
    sends
}

#[test]
fn turns_by_states(rt: HostRuntime) {
    let open = Signal::Open(Medium::Audio, descriptor());
    let mut opening = in_state(State::Opening);
    opening.sent = Some(descriptor());
    let table = [
        (
            turned(State::Opened, State::Closed, false),
            (in_state(State::Opened), opening, sent_by_second(open)),
        ),
        (
            turned(State::Closed, State::Closed, false),
            (
                in_state(State::Closed),
                in_state(State::Closed),
                Sends::none(),
            ),
        ),
        (
            turned(State::Closed, State::Opening, true),
            (
                in_state(State::Closed),
                in_state(State::Closing),
                sent_by_second(Signal::Close),
            ),
        ),
    ];
    for (got, want) in table {
        is_equal(&rt, &got, &want);
    }
}
