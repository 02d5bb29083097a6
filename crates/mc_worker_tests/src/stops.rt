// Why rounds end where something is in their way.

ghost use Rattle.std.specs.Prelude.{◌≤◌};
ghost use Rattle.mc_worker.specs.Ready.{IsReady};
ghost use Rattle.mc_worker.specs.declared.limit.TheConstants.{FIRST_STAMP_LIMIT};

use crate::equal::is_equal;
use crate::phones::{lone_phone, round};
use crate::rounds::HOLDS;
use mc_box::{Event, MediaChange};
use mc_port::Stamped;
use mc_signal::{CodecList, Descriptor, Medium, Signal};
use mc_worker::{Stop, Worker};
use std::process::Abort;
use std::test::Fail;

#[test]
fn a_hear_at_the_last_version_ends_a_round(rt: HostRuntime) -> Result<(), Fail> {
    let hears = Event::Media(MediaChange::Hear(0, true));
    let (mut last, _far_out, _far_in) = lone_phone(rt.alloc(), u32::MAX, hears)?;
    hears_no_more(&rt, &mut last, hears);
    Ok(())
}

// The phone has work, makes no turn for it, and keeps the command.
fn hears_no_more(rt: &impl Abort, phone: &mut Worker, command: Event)
    requires ready { IsReady phone.old }
    requires stamp { phone.old.stamp ≤ FIRST_STAMP_LIMIT }
{
    assert!(rt; phone.has_work(false));
    let end = round(phone);
    assert!(rt; matches!(end.stop, Stop::VersionEnd(0)));
    is_equal(rt, &end.turns, &0);
    is_equal(rt, &phone.stimuli.front(), &Some(command));
}

// A descriptor of another phone.
fn far() -> Descriptor {
    Descriptor {
        origin: 0,
        version: 1,
        addr: 1,
        port: 5000,
        codecs: CodecList::none(),
    }
}

fn item(stamp: u32, tunnel: u8, signal: Signal) -> Stamped {
    Stamped {
        stamp,
        tunnel,
        signal,
    }
}

// The phone has this item next and can't take it, after so many turns.
fn is_strange(rt: &impl Abort, phone: &mut Worker, item: Stamped, turns: u32)
    requires ready { IsReady phone.old }
    requires stamp { phone.old.stamp ≤ FIRST_STAMP_LIMIT }
    ensures { IsReady phone.new }
{
    let end = round(phone);
    assert!(rt; matches!(end.stop, Stop::Strange(0, tunnel) if tunnel == item.tunnel));
    is_equal(rt, &end.turns, &turns);
}

// The phone leaves this item in its ring, in this round and in the next.
fn leaves(rt: &impl Abort, phone: &mut Worker, item: Stamped)
    requires ready { IsReady phone.old }
    requires stamp { phone.old.stamp ≤ FIRST_STAMP_LIMIT }
{
    is_strange(rt, phone, item, 1);
    phone.stamp = 0;
    is_strange(rt, phone, item, 0);
    assert!(rt; phone.ins.len() == 1);
    is_equal(rt, &phone.ins[0].take(), &Some(item));
}

// A phone that finds this item in its ring leaves it there.
fn stays(rt: &(impl Abort + AllocGlobal), item: Stamped) -> Result<(), Fail> {
    let (mut bob, mut far_out, _far_in) = lone_phone(rt.alloc(), 1, HOLDS)?;
    is_equal(rt, &far_out.give(item), &Ok(()));
    leaves(rt, &mut bob, item);
    Ok(())
}

// A signal that a closed slot may not take, one of a tunnel that no slot has, and one with too great a stamp.
#[test]
fn what_cant_be_taken_stays(rt: HostRuntime) -> Result<(), Fail> {
    let open = Signal::Open(Medium::Audio, far());
    stays(&rt, item(1, 0, Signal::Oack(far())))?;
    stays(&rt, item(1, 5, open))?;
    stays(&rt, item(16_777_217, 0, open))
}
