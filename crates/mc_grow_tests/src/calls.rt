// Calls over channels that join a network, which are cut when the call is over.

use crate::changes::{cut, devices, join, network, reopened, set, shown, take_all};
use crate::fault::TestFault;
use mc_grow::{Grown, InUse};
use mc_slot::Goal;
use std::alloc::Global;
use std::process::Abort;

const ALICE: u32 = 0;

const BOB: u32 = 1;

// As many rounds as a call or its end takes, and some more.
const ROUNDS: u32 = 8;

// Alice calls bob over the channel of these local numbers, and bob picks up.
fn call(grown: &mut Grown, alice: u8, bob: u8) -> Result<(), TestFault> {
    set(grown, ALICE, alice, Goal::Open)?;
    set(grown, BOB, bob, Goal::Hold)?;
    take_all(grown, ROUNDS)
}

// Both hang up.
fn hang_up(grown: &mut Grown, alice: u8, bob: u8) -> Result<(), TestFault> {
    set(grown, ALICE, alice, Goal::Close)?;
    set(grown, BOB, bob, Goal::Close)?;
    take_all(grown, ROUNDS)
}

// Nothing is under way, and the one path of the network begins at this slot, and flows or not.
fn has_path<R: Abort + AllocGlobal>(
    rt: &R,
    grown: &Grown,
    low: u32,
    flowing: bool,
) -> Result<(), TestFault> {
    assert!(rt; grown.world().quiet());
    let views = shown(rt.alloc(), grown)?;
    assert!(rt; views.len() == 1);
    assert!(rt; views[0].low.slot == low);
    assert!(rt; views[0].high.slot == low.saturating_add(1));
    assert!(rt; views[0].flowing == flowing);
    assert!(rt; views[0].low.hears.is_some() == flowing);
    assert!(rt; views[0].high.hears.is_some() == flowing);
    Ok(())
}

// A channel isn't cut, since this slot is in use.
fn is_in_use(rt: &impl Abort, grown: &mut Grown, channel: u32, slot: u32) {
    assert!(rt;
        matches!(cut(grown, channel), Err(TestFault::Cut(InUse { slot: used })) if used == slot)
    );
}

// Alice may set nothing at a slot of hers.
fn may_set_nothing(rt: &impl Abort, grown: &mut Grown, local: u8) {
    assert!(rt;
        matches!(
            set(grown, ALICE, local, Goal::Open),
            Err(TestFault::Refused)
        )
    );
}

// Alice and bob speak over channel 0, and it is cut once both have hung up.
fn speak_and_cut<R: Abort + AllocGlobal>(rt: &R, grown: &mut Grown) -> Result<(), TestFault> {
    has_path(rt, grown, 0, false)?;
    call(grown, 0, 0)?;
    has_path(rt, grown, 0, true)?;
    is_in_use(rt, grown, 0, 0);
    set(grown, ALICE, 0, Goal::Close)?;
    is_in_use(rt, grown, 0, 0);
    hang_up(grown, 0, 0)?;
    has_path(rt, grown, 0, false)?;
    cut(grown, 0)?;
    may_set_nothing(rt, grown, 0);
    Ok(())
}

// They speak over channel 1, whose slots are 2 and 3, while channel 0 is out.
fn speak_again<R: Abort + AllocGlobal>(rt: &R, grown: &mut Grown) -> Result<(), TestFault> {
    has_path(rt, grown, 2, false)?;
    call(grown, 1, 1)?;
    assert!(rt; grown.is_out(0) && grown.is_out(1));
    assert!(rt; !grown.is_out(2) && !grown.is_out(3));
    has_path(rt, grown, 2, true)
}

fn joined(alloc: Global) -> Result<Grown, TestFault> {
    let grown = network(alloc, devices(alloc, 2)?)?;
    join(alloc, grown, ALICE, BOB)
}

#[test]
fn alice_and_bob_speak_over_one_channel_after_another(rt: HostRuntime) -> Result<(), TestFault> {
    let mut first = joined(rt.alloc())?;
    speak_and_cut(&rt, &mut first)?;
    let mut second = join(rt.alloc(), reopened(first), BOB, ALICE)?;
    speak_again(&rt, &mut second)
}
