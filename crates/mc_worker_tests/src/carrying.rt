// What is under way between phones, carried from end to end. Which signals a phone sends is by the rules of rounds.

ghost use Rattle.std.specs.Prelude.{◌≡◌, ◌∷◌, ◌<◌, ◌≤◌, [], length, map, IfOk};
ghost use Rattle.mc_port.specs.Ends.{IsPair, in_ring, out_ring};
ghost use Rattle.mc_worker.specs.Ready.{IsReady};
ghost use Rattle.mc_worker.specs.declared.limit.TheConstants.{FIRST_STAMP_LIMIT};

use crate::equal::is_equal;
use crate::phones::{phone, phones, worker};
use crate::rounds::{HOLDS, full_inboxes};
use mc_io::OpenGate;
use mc_port::{InPort, OutPort, Stamped, pair};
use mc_signal::{CodecList, Descriptor, Medium, Signal, Tagged};
use mc_worker::{Inboxes, Worker, carry, carry_within};
use std::alloc::{AllocError, Global};
use std::process::Abort;

// Two phones whose channel ends are joined. The second one has an open and 64 describes in its inbox.
fn waiting_phones(alloc: Global) -> Result<(Worker, Worker), AllocError>
    ensures ready { IfOk result (λ both. IsReady both.0 × IsReady both.1) }
    ensures stamp { IfOk result (λ both. both.1.stamp ≡ 0) }
    ensures ends { IfOk result (λ both. (length both.0.ins.items ≡ 1) × (length both.1.outs.items ≡ 1)) }
    ensures ring { IfOk result (λ both. map out_ring both.1.outs.items ≡ map in_ring both.0.ins.items) }
{
    let inboxes = full_inboxes(alloc)?;
    let (alice, mut bob) = phones(alloc)?;
    bob.inboxes = inboxes;
    Ok((alice, bob))
}

// The phone takes the open and 62 describes in one round. What it sends fills its ring and goes into its outbox.
fn answer(rt: &impl Abort, phone: &mut Worker)
    requires ready { IsReady phone.old }
    requires stamp { phone.old.stamp ≤ FIRST_STAMP_LIMIT }
    ensures ready { IsReady phone.new }
    ensures rings { map out_ring phone.new.outs.items ≡ map out_ring phone.old.outs.items }
    ensures ends { length phone.new.outs.items ≡ length phone.old.outs.items }
{
    let end = phone.round(&OpenGate, false);
    is_equal(rt, &(end.took, end.sent), &(63, 64));
}

// The inbox has an oack and then a select for each of the versions 1 to 63, and nothing else.
fn is_answered(rt: &impl Abort, inboxes: &mut Inboxes)
    requires { 0 < length inboxes.old }
    ensures { length inboxes.new ≡ length inboxes.old }
{
    let first = inboxes.pop(0);
    assert!(rt; matches!(first, Some(tagged) if matches!(tagged.signal, Signal::Oack(_))));
    for version in 1..64 {
        let next = inboxes.pop(0);
        assert!(rt;
            matches!(next, Some(tagged) if matches!(tagged.signal, Signal::Select(answer) if answer.version == version))
        );
    }
    is_equal(rt, &inboxes.pop(0), &None);
}

// What has waited at the phone's ends comes to the other's in order, and nothing else.
fn is_carried(rt: &impl Abort, bob: &mut Worker, alice: &mut Worker) -> Result<(), AllocError>
    requires ready { IsReady bob.old × IsReady alice.old }
    requires ends { (length bob.old.outs.items ≡ 1) × (length alice.old.ins.items ≡ 1) }
    requires ring { map out_ring bob.old.outs.items ≡ map in_ring alice.old.ins.items }
{
    is_equal(rt, &carry(bob, 0, alice, 0)?, &true);
    is_equal(rt, &carry(bob, 0, alice, 0)?, &true);
    is_equal(
        rt,
        &(alice.inboxes.is_empty(), alice.inboxes.count_ends()),
        &(false, 1),
    );
    is_answered(rt, &mut alice.inboxes);
    is_equal(
        rt,
        &(alice.inboxes.is_empty(), alice.inboxes.count_ends()),
        &(true, 0),
    );
    is_equal(rt, &carry(bob, 0, alice, 0)?, &false);
    Ok(())
}

// Bob's answers come to alice in order.
fn is_heard(rt: &impl Abort, bob: &mut Worker, alice: &mut Worker) -> Result<(), AllocError>
    requires ready { IsReady bob.old × IsReady alice.old }
    requires stamp { bob.old.stamp ≤ FIRST_STAMP_LIMIT }
    requires ends { (length bob.old.outs.items ≡ 1) × (length alice.old.ins.items ≡ 1) }
    requires ring { map out_ring bob.old.outs.items ≡ map in_ring alice.old.ins.items }
{
    answer(rt, bob);
    assert!(rt; bob.outboxes.has_items(0));
    is_carried(rt, bob, alice)
}

#[test]
fn a_ring_and_an_outbox_are_carried_in_order(rt: HostRuntime) -> Result<(), AllocError> {
    let (mut alice, mut bob) = waiting_phones(rt.alloc())?;
    is_heard(&rt, &mut bob, &mut alice)
}

fn open() -> Signal {
    Signal::Open(
        Medium::Audio,
        Descriptor {
            origin: 0,
            version: 1,
            addr: 1,
            port: 5000,
            codecs: CodecList::none(),
        },
    )
}

// A phone whose channel end is joined to itself.
fn alone(alloc: Global, out: OutPort, taking: InPort) -> Result<Worker, AllocError>
    requires { IsPair out taking }
    ensures ready { IfOk result (λ made. IsReady made) }
    ensures ends { IfOk result (λ made. (length made.outs.items ≡ 1) × (length made.ins.items ≡ 1)) }
    ensures ring { IfOk result (λ made. map out_ring made.outs.items ≡ map in_ring made.ins.items) }
{
    let phone = phone(alloc, 1, 1)?;
    worker(alloc, phone, out, taking, HOLDS)
}

// An item in the ring of the phone's end comes into its own inbox.
fn comes_back(rt: &impl Abort, phone: &mut Worker) -> Result<(), AllocError>
    requires ready { IsReady phone.old }
    requires ends { (length phone.old.outs.items ≡ 1) × (length phone.old.ins.items ≡ 1) }
    requires ring { map out_ring phone.old.outs.items ≡ map in_ring phone.old.ins.items }
{
    is_equal(rt, &carry_within(phone, 0, 0)?, &true);
    let tagged = Tagged {
        tunnel: 0,
        signal: open(),
    };
    is_equal(rt, &phone.inboxes.pop(0), &Some(tagged));
    Ok(())
}

#[test]
fn a_signal_is_carried_within_a_box(rt: HostRuntime) -> Result<(), AllocError> {
    let (mut out, taking) = pair(rt.alloc())?;
    let item = Stamped {
        stamp: 7,
        tunnel: 0,
        signal: open(),
    };
    is_equal(&rt, &out.give(item), &Ok(()));
    let mut bob = alone(rt.alloc(), out, taking)?;
    comes_back(&rt, &mut bob)
}
