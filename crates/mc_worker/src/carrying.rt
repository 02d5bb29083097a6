// How what is under way at a channel end is carried to the far one, when no round is made at either.

ghost use Rattle.std.specs.Prelude.{◌≡◌, ◌<◌, length, map, IfOk, slice_get};
ghost use Rattle.mc_port.specs.Ends.{in_ring, out_ring};
ghost use Rattle.mc_worker.specs.Account.{in_at, out_at};
ghost use Rattle.mc_worker.specs.Boxes.{box_of, has_items};
ghost use Rattle.mc_worker.specs.Carrying.{BringsIn, ChangesOnlyIn, ChangesOnlyOut, IsSameButIns, IsSameButOuts};
ghost use Rattle.mc_worker.specs.Ends.{in_end, out_end};
ghost use Rattle.mc_worker.specs.Ready.{IsReady};

use crate::inboxes::Inboxes;
use crate::outboxes::Outboxes;
use crate::worker::Worker;
use mc_port::{InPort, OutPort};
use std::alloc::AllocError;

/// Moves what is under way at a channel end of one box to the far end, which is of another box: all that the ring still
/// has, and then what is in the outbox, goes after what the inbox has. Whether the inbox has something then. It fails
/// only for want of memory, and loses nothing then: what it didn't move is carried when it is called again.
pub fn carry(from: &mut Worker, end: u8, to: &mut Worker, far: u8) -> Result<bool, AllocError>
    requires ready_from { IsReady from.old }
    requires ready_to { IsReady to.old }
    requires end { end < length from.old.outs.items }
    requires far { far < length to.old.ins.items }
    // The two are the ends of one ring.
    requires ring { slice_get (map out_ring from.old.outs.items) end ≡ slice_get (map in_ring to.old.ins.items) far }

    ensures carried { BringsIn result
        (out_at from.old end) (out_at from.new end) (in_at to.old far) (in_at to.new far) }
    ensures waits { IfOk result (λ waits. waits ≡ has_items (box_of to.new.inboxes far)) }
    ensures outs { ChangesOnlyOut
        from.old.outs.items from.new.outs.items from.old.outboxes.boxes from.new.outboxes.boxes end }
    ensures ins { ChangesOnlyIn to.old.ins.items to.new.ins.items to.old.inboxes to.new.inboxes far }
    ensures from { IsSameButOuts from.old from.new }
    ensures to { IsSameButIns to.old to.new }
{
    carry_over(
        &mut from.outs,
        &mut from.outboxes,
        end,
        &mut to.ins,
        &mut to.inboxes,
        far,
    )
}

/// The same where both ends are of one box.
pub fn carry_within(worker: &mut Worker, end: u8, far: u8) -> Result<bool, AllocError>
    requires ready { IsReady worker.old }
    requires end { end < length worker.old.outs.items }
    requires far { far < length worker.old.ins.items }
    requires ring { slice_get (map out_ring worker.old.outs.items) end
        ≡ slice_get (map in_ring worker.old.ins.items) far }

    ensures carried { BringsIn result
        (out_at worker.old end) (out_at worker.new end) (in_at worker.old far) (in_at worker.new far) }
    ensures waits { IfOk result (λ waits. waits ≡ has_items (box_of worker.new.inboxes far)) }
    ensures outs { ChangesOnlyOut
        worker.old.outs.items worker.new.outs.items worker.old.outboxes.boxes worker.new.outboxes.boxes end }
    ensures ins { ChangesOnlyIn worker.old.ins.items worker.new.ins.items worker.old.inboxes worker.new.inboxes far }
    ensures same { worker.new ≡ record worker.old {
      outs = worker.new.outs;
      outboxes = worker.new.outboxes;
      ins = worker.new.ins;
      inboxes = worker.new.inboxes;
    } }
    ensures ready { IsReady worker.new }
{
    carry_over(
        &mut worker.outs,
        &mut worker.outboxes,
        end,
        &mut worker.ins,
        &mut worker.inboxes,
        far,
    )
}

// Moves what is under way between two ends.
fn carry_over(
    outs: &mut Vec<OutPort>,
    outboxes: &mut Outboxes,
    end: u8,
    ins: &mut Vec<InPort>,
    inboxes: &mut Inboxes,
    far: u8,
) -> Result<bool, AllocError>
    requires out { end < length outs.old.items }
    requires outbox { end < length outboxes.old.boxes }
    requires taking { far < length ins.old.items }
    requires inbox { far < length inboxes.old }
    requires ring { slice_get (map out_ring outs.old.items) end ≡ slice_get (map in_ring ins.old.items) far }
    ensures carried { BringsIn result
        (out_end outs.old.items outboxes.old.boxes end) (out_end outs.new.items outboxes.new.boxes end)
        (in_end ins.old.items inboxes.old far) (in_end ins.new.items inboxes.new far) }
    ensures waits { IfOk result (λ waits. waits ≡ has_items (box_of inboxes.new far)) }
    ensures outs { ChangesOnlyOut outs.old.items outs.new.items outboxes.old.boxes outboxes.new.boxes end }
    ensures ins { ChangesOnlyIn ins.old.items ins.new.items inboxes.old inboxes.new far }
{
    inboxes.bring_in(
        &mut outs[end as usize],
        outboxes,
        end,
        &mut ins[far as usize],
        far,
    )
}
