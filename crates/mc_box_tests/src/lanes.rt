// That memory is found where there is some, and each call at a type of its own.
use crate::equal::is_equal;
use mc_lane::Lane;
use std::alloc::AllocError;
use std::process::Abort;

fn two_go_in(rt: &impl Abort, lane: &mut Lane<(u32, bool)>) -> Result<(), AllocError> {
    is_equal(rt, &lane.front(), &None);
    is_equal(rt, &lane.pop(), &None);
    lane.reserve(2)?;
    lane.push((1, true));
    lane.push((2, false));
    is_equal(rt, &lane.front(), &Some((1, true)));
    is_equal(rt, &lane.pop(), &Some((1, true)));
    Ok(())
}

// The next item fills the ring from its end to its start, and the one after it wants a greater ring.
fn two_more_go_in(lane: &mut Lane<(u32, bool)>) -> Result<(), AllocError> {
    lane.reserve(1)?;
    lane.push((3, true));
    lane.reserve(1)?;
    lane.push_all(&[(4, false)]);
    Ok(())
}

fn three_come_out(rt: &impl Abort, lane: &mut Lane<(u32, bool)>) {
    assert!(rt; lane.len() == 3);
    is_equal(rt, &lane.get(0), &(2, false));
    is_equal(rt, &lane.get(2), &(4, false));
    for number in 2..5 {
        is_equal(rt, &lane.pop(), &Some((number, number == 3)));
    }
    is_equal(rt, &lane.len(), &0);
}

fn all_go_through(rt: &impl Abort, lane: &mut Lane<(u32, bool)>) -> Result<(), AllocError> {
    two_go_in(rt, lane)?;
    two_more_go_in(lane)?;
    three_come_out(rt, lane);
    Ok(())
}

#[test]
fn items_come_out_in_their_order(rt: HostRuntime) -> Result<(), AllocError> {
    let mut lane = Lane::new(rt.alloc());
    all_go_through(&rt, &mut lane)
}
