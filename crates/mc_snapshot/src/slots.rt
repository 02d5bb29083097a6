// Slots and their goals as bytes.

ghost use Rattle.mc_snapshot.specs.Lengths.{goal_long, slot_long};
ghost use Rattle.mc_snapshot.specs.Slots.{FitsGoal, FitsSlot, goal_wire, slot_wire};

use crate::wire::{Get, Put};
use mc_entry::bytes::Bytes;
use mc_signal::{Descriptor, Medium, Selector};
use mc_slot::{Goal, Slot, SlotGoal, State};
use std::alloc::{AllocError, Global};

impl Put for SlotGoal {
    ghost wire = { goal_wire };

    ghost Fits = { FitsGoal };

    fn put(&self, out: &mut Vec<u8>) -> Result<(), AllocError> {
        match self {
            SlotGoal::End(goal) => {
                0u8.put(out)?;
                goal.put(out)
            }
            SlotGoal::Link(partner) => {
                1u8.put(out)?;
                partner.put(out)
            }
        }
    }
}

impl Get for SlotGoal {
    ghost wire = { goal_wire };

    ghost Fits = { FitsGoal };

    ghost long = { λ goal more. goal_long goal more };

    fn get(alloc: Global, bytes: &mut Bytes<'_>) -> Result<SlotGoal, AllocError> {
        Ok(match u8::get(alloc, bytes)? {
            0 => SlotGoal::End(Goal::get(alloc, bytes)?),
            _ => SlotGoal::Link(u8::get(alloc, bytes)?),
        })
    }
}

impl Put for Slot {
    ghost wire = { slot_wire };

    ghost Fits = { FitsSlot };

    fn put(&self, out: &mut Vec<u8>) -> Result<(), AllocError> {
        self.state.put(out)?;
        self.medium.put(out)?;
        self.initiator.put(out)?;
        self.sent.put(out)?;
        self.got.put(out)?;
        self.sel_out.put(out)?;
        self.sel_in.put(out)
    }
}

// Its fields, in their order, without its state and its medium.
type SlotFields = (
    bool,
    (
        Option<Descriptor>,
        (Option<Descriptor>, (Option<Selector>, Option<Selector>)),
    ),
);

impl Get for Slot {
    ghost wire = { slot_wire };

    ghost Fits = { FitsSlot };

    ghost long = { λ slot more. slot_long slot more };

    fn get(alloc: Global, bytes: &mut Bytes<'_>) -> Result<Slot, AllocError> {
        let (state, (medium, fields)) = <(State, (Medium, SlotFields))>::get(alloc, bytes)?;
        let (initiator, (sent, (got, (sel_out, sel_in)))) = fields;
        Ok(Slot {
            state,
            medium,
            initiator,
            sent,
            got,
            sel_out,
            sel_in,
        })
    }
}
