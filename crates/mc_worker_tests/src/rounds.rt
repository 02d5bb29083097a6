// Rounds of two phones whose channel ends are joined. Each expected log and stamp is by the rules of rounds.

ghost use Rattle.std.specs.Prelude.{◌≡◌, ◌≤◌, length, IfOk};
ghost use Rattle.mc_worker.specs.Ready.{IsReady};
ghost use Rattle.mc_worker.specs.declared.limit.TheConstants.{FIRST_STAMP_LIMIT};

use crate::equal::is_equal;
use crate::phones::{lone_phone, phones, round};
use mc_box::{Change, Event};
use mc_lane::Lane;
use mc_signal::{CodecList, Descriptor, Medium, Signal, Tagged};
use mc_slot::Goal;
use mc_worker::{Inboxes, Logged, Stop, Worker};
use std::alloc::{AllocError, Global};
use std::process::Abort;

pub const OPENS: Event = Event::Set(Change::End(0, Goal::Open));

pub const HOLDS: Event = Event::Set(Change::End(0, Goal::Hold));

/// The worker's log has these entries, oldest first, and is empty then.
pub fn has_logged(rt: &impl Abort, log: &mut Lane<Logged>, want: &[(u32, Event)]) {
    for entry in want {
        let logged = Logged {
            stamp: entry.0,
            event: entry.1,
        };
        is_equal(rt, &log.pop(), &Some(logged));
    }
    is_equal(rt, &log.pop(), &None);
}

// The signals of an accepted call stand in the ring with their stamps.
fn is_accepted(rt: &impl Abort, alice: &mut Worker) {
    assert!(rt; alice.ins.len() == 1);
    let first = alice.ins[0].take();
    assert!(rt;
        matches!(first, Some(item) if item.stamp == 2 && matches!(item.signal, Signal::Oack(_)))
    );
    let second = alice.ins[0].take();
    assert!(rt;
        matches!(second, Some(item) if item.stamp == 2 && matches!(item.signal, Signal::Select(_)))
    );
    is_equal(rt, &alice.ins[0].take(), &None);
}

// A round of the phone rests after so many turns, signals that it sent and that it took, and leaves this log.
fn rests(rt: &impl Abort, phone: &mut Worker, counts: (u32, u32, u32), log: &[(u32, Event)])
    requires ready { IsReady phone.old }
    requires stamp { phone.old.stamp ≤ FIRST_STAMP_LIMIT }
{
    let end = round(phone);
    assert!(rt; matches!(end.stop, Stop::Rested));
    is_equal(rt, &(end.turns, end.sent, end.took), &counts);
    has_logged(rt, &mut phone.log, log);
}

#[test]
fn a_call_is_accepted_in_two_rounds(rt: HostRuntime) -> Result<(), AllocError> {
    let (mut alice, mut bob) = phones(rt.alloc())?;
    rests(&rt, &mut alice, (1, 1, 0), &[(1, OPENS)]);
    rests(&rt, &mut bob, (2, 2, 1), &[(1, HOLDS), (2, Event::Take(0))]);
    is_accepted(&rt, &mut alice);
    Ok(())
}

// A descriptor of another phone.
fn far(version: u32) -> Descriptor {
    Descriptor {
        origin: 0,
        version,
        addr: 1,
        port: 5000,
        codecs: CodecList::none(),
    }
}

// An open, and 64 describes after it.
fn many_signals(alloc: Global) -> Result<Lane<Tagged>, AllocError> {
    let mut lane = Lane::new(alloc);
    lane.reserve(65)?;
    lane.push(Tagged {
        tunnel: 0,
        signal: Signal::Open(Medium::Audio, far(1)),
    });
    for version in 2..66 {
        lane.reserve(1)?;
        lane.push(Tagged {
            tunnel: 0,
            signal: Signal::Describe(far(version)),
        });
    }
    Ok(lane)
}

/// The inboxes of a phone with an open and 64 describes.
pub fn full_inboxes(alloc: Global) -> Result<Inboxes, AllocError>
    ensures { IfOk result (λ made. length made ≡ 1) }
{
    let mut lanes = Vec::new(alloc);
    lanes.push(many_signals(alloc)?)?;
    Ok(Inboxes::new(lanes))
}

// A first round of the phone spends its turns, and a second one rests.
fn spends_a_round(rt: &impl Abort, phone: &mut Worker)
    requires ready { IsReady phone.old }
    requires stamp { phone.old.stamp ≤ FIRST_STAMP_LIMIT }
{
    let end = round(phone);
    assert!(rt; matches!(end.stop, Stop::Spent));
    is_equal(rt, &(end.turns, end.took), &(64, 63));
    phone.stamp = 0;
    let end = round(phone);
    assert!(rt; matches!(end.stop, Stop::Rested));
    is_equal(rt, &(end.turns, end.took), &(2, 2));
}

#[test]
fn a_round_has_64_turns(rt: HostRuntime) -> Result<(), AllocError> {
    let inboxes = full_inboxes(rt.alloc())?;
    let (mut bob, _far_out, _far_in) = lone_phone(rt.alloc(), 1, HOLDS)?;
    bob.inboxes = inboxes;
    spends_a_round(&rt, &mut bob);
    Ok(())
}
