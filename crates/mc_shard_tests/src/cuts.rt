// What may be cut of the journal of a call.

use crate::calls::speak;
use crate::equal::is_equal;
use crate::fault::TestFault;
use crate::phones::{ALICE, ALICE_END, BOB, BOB_END, new_side};
use mc_shard::{cuttable, may_be_cut};

#[test]
fn what_bob_has_taken_may_be_cut(rt: HostRuntime) -> Result<(), TestFault> {
    let alloc = rt.alloc();
    let mut alice = new_side(alloc, ALICE, ALICE_END)?;
    let mut bob = new_side(alloc, BOB, BOB_END)?;
    speak(alloc, &mut alice, &mut bob)?;
    // She sent an open, and then a selector, and at last she took his, and sent nothing.
    is_equal(&rt, &cuttable(&[], &alice.journal), &0);
    is_equal(&rt, &cuttable(&[1], &alice.journal), &1);
    is_equal(&rt, &cuttable(&[2], &alice.journal), &3);
    for entry in &alice.journal {
        is_equal(&rt, &may_be_cut(&[2], entry), &true);
    }
    Ok(())
}
