// An opened end that holds answers with its descriptor, and then chooses.
use crate::equal::is_equal;
use mc_goal::{end_turn, owes};
use mc_signal::{CodecList, Descriptor, Medium, Sender, Signal, choose};
use mc_slot::{Goal, Sends, Slot, State};

fn descriptor(origin: u32) -> Descriptor {
    Descriptor {
        origin,
        version: 1,
        addr: 7,
        port: 5001,
        codecs: CodecList::none(),
    }
}

#[test]
fn hold_answers_and_chooses(rt: HostRuntime) {
    let me = Sender {
        addr: 1,
        port: 5000,
        codecs: CodecList::none(),
    };
    let mut slot = Slot::new(Medium::Audio, false);
    slot.state = State::Opened;
    slot.got = Some(descriptor(4));
    let sends = end_turn(&mut slot, 3, Goal::Hold, false, descriptor(5), &me);
    let choice = choose(descriptor(4), &me);
    let mut want = Sends::none();
    want.push(3, Signal::Oack(descriptor(5)));
    want.push(3, Signal::Select(choice));
    is_equal(&rt, &sends, &want);
    is_equal(&rt, &slot.state, &State::Flowing);
    is_equal(&rt, &slot.sent, &Some(descriptor(5)));
    is_equal(&rt, &slot.sel_out, &Some(choice));
}

#[test]
fn a_closed_end_that_opens_owes_a_retry(rt: HostRuntime) {
    let slot = Slot::new(Medium::Audio, true);
    is_equal(&rt, &owes(&slot, Goal::Open), &true);
    is_equal(&rt, &owes(&slot, Goal::Hold), &false);
}
