// A ring from end to end.

ghost use Rattle.std.specs.Prelude.{◌≡◌};
ghost use Rattle.mc_port.specs.Ends.{in_ring, out_ring};

use crate::equal::is_equal;
use mc_lane::Lane;
use mc_port::{InPort, OutPort, Stamped, drain_beside, pair};
use mc_signal::{CodecList, Descriptor, Signal, Tagged};
use std::alloc::AllocError;
use std::process::Abort;

fn describe(version: u32) -> Signal {
    Signal::Describe(Descriptor {
        origin: 0,
        version,
        addr: 1,
        port: 2,
        codecs: CodecList::none(),
    })
}

// The item with a stamp: a describe of that version, of tunnel 3.
fn item(stamp: u32) -> Stamped {
    Stamped {
        stamp,
        tunnel: 3,
        signal: describe(stamp),
    }
}

fn tagged(version: u32) -> Tagged {
    Tagged {
        tunnel: 3,
        signal: describe(version),
    }
}

// Gives the items with the stamps 1 to 16.
fn fill(rt: &impl Abort, out: &mut OutPort)
    ensures { out_ring out.new ≡ out_ring out.old }
{
    for stamp in 1..17 {
        is_equal(rt, &out.give(item(stamp)), &Ok(()));
    }
}

// Takes the items with the stamps 1 to 16.
fn empty(rt: &impl Abort, taking: &mut InPort)
    ensures { in_ring taking.new ≡ in_ring taking.old }
{
    for stamp in 1..17 {
        is_equal(rt, &taking.take(), &Some(item(stamp)));
    }
}

// What is left in a ring goes into a lane, in order.
fn is_drained(rt: &impl Abort, lane: &mut Lane<Tagged>) {
    is_equal(rt, &lane.pop(), &Some(tagged(18)));
    is_equal(rt, &lane.pop(), &Some(tagged(19)));
    is_equal(rt, &lane.pop(), &None);
}

// Sixteen items go through a ring, and then one more; the last two stay.
fn is_filled_twice(rt: &impl Abort, out: &mut OutPort, taking: &mut InPort)
    ensures out { out_ring out.new ≡ out_ring out.old }
    ensures taking { in_ring taking.new ≡ in_ring taking.old }
{
    fill(rt, out);
    is_equal(rt, &out.give(item(17)), &Err(item(17)));
    is_equal(rt, &taking.peek(), &Some(item(1)));
    empty(rt, taking);
    is_equal(rt, &taking.take(), &None);
    is_equal(rt, &out.give(item(17)), &Ok(()));
    is_equal(rt, &taking.take(), &Some(item(17)));
    is_equal(rt, &out.give(item(18)), &Ok(()));
    is_equal(rt, &out.give(item(19)), &Ok(()));
}

#[test]
fn a_ring_has_sixteen_places(rt: HostRuntime) -> Result<(), AllocError> {
    let (mut out, mut taking) = pair(rt.alloc())?;
    is_filled_twice(&rt, &mut out, &mut taking);
    let mut lane = Lane::new(rt.alloc());
    drain_beside(&mut out, &mut taking, &mut lane)?;
    is_drained(&rt, &mut lane);
    is_equal(&rt, &taking.take(), &None);
    Ok(())
}
