// Boxes as bytes.

ghost use Rattle.std.specs.Prelude.{◌≡◌, IfOk, OnOk};
ghost use Rattle.mc_entry.specs.Reading.{Reads};
ghost use Rattle.mc_entry.specs.Wire.{Writes};
ghost use Rattle.mc_box.specs.BoxSound.{box_state};
ghost use Rattle.mc_snapshot.specs.Boxes.{FitsBox, IsWritten, box_wire};
ghost use Rattle.mc_snapshot.specs.Forms.{FitsList, FitsOption, list_wire, option_wire, states_in};
ghost use Rattle.mc_snapshot.specs.Lengths.{box_long};
ghost use Rattle.mc_snapshot.specs.Rules.{FitsState, state_wire};

use crate::lists::{get_list, put_list};
use crate::wire::{Get, Put};
use mc_box::{BoxParts, Kind, MediaBox, SlotMedia};
use mc_entry::bytes::Bytes;
use mc_rule::{ProgState, Program};
use mc_signal::CodecList;
use mc_slot::{Slot, SlotGoal};
use std::alloc::{AllocError, Global};
use std::marker::Model;

/// The fields of a box as they were read, of which it isn't known whether a box keeps such.
#[derive(Drop)]
pub struct BoxFields {
    pub kind: Kind,
    pub number: u32,
    pub codecs: CodecList,
    pub sends: CodecList,
    pub first_version: u32,
    pub slots: Vec<Slot>,
    pub goals: Vec<SlotGoal>,
    pub media: Vec<SlotMedia>,
    pub states: Option<Vec<ProgState>>,
    pub at: Option<u32>,
    pub told: Option<u8>,
}

impl Model for BoxFields {
    ghost use Rattle.mc_box.specs.Boxes.{BoxState};
    ghost use Rattle.mc_snapshot.specs.Forms.{states_in};

    ghost Value = { BoxState };

    ghost view = { λ fields. record {
      kind = fields.kind;
      number = fields.number;
      receives = fields.codecs;
      sends = fields.sends;
      first_version = fields.first_version;
      slots = fields.slots.items;
      goals = fields.goals.items;
      media = fields.media.items;
      program = states_in fields.states;
      at = fields.at;
      told = fields.told;
    } };
}

// A program's states, or that there is none.
fn put_program(program: &Option<Program>, out: &mut Vec<u8>) -> Result<(), AllocError>
    ensures fits { OnOk result (FitsOption (FitsList FitsState) program.now) }
    ensures writes { OnOk result (Writes out.old.items out.new.items
        (option_wire (list_wire state_wire) program.now)) }
{
    match program {
        Some(program) => {
            1u8.put(out)?;
            put_list(program.states(), out)
        }
        None => 0u8.put(out),
    }
}

fn get_states(alloc: Global, bytes: &mut Bytes<'_>) -> Result<Option<Vec<ProgState>>, AllocError>
    ensures fits { IfOk result (λ found. FitsOption (FitsList FitsState) (states_in found)) }
    ensures reads { IfOk result (λ found. Reads (FitsOption (FitsList FitsState))
        (option_wire (list_wire state_wire)) bytes.old bytes.new (states_in found)) }
{
    if u8::get(alloc, bytes)? == 1 {
        Ok(Some(get_list(alloc, bytes)?))
    } else {
        Ok(None)
    }
}

// All that a box keeps.
fn put_parts(parts: &BoxParts, out: &mut Vec<u8>) -> Result<(), AllocError>
    ensures fits { OnOk result (FitsBox (box_state parts.now)) }
    ensures writes { OnOk result (Writes out.old.items out.new.items (box_wire (box_state parts.now))) }
{
    parts.kind.put(out)?;
    parts.number.put(out)?;
    parts.codecs.put(out)?;
    parts.sends.put(out)?;
    parts.first_version.put(out)?;
    put_list(&parts.slots, out)?;
    put_list(&parts.goals, out)?;
    put_list(&parts.media, out)?;
    put_program(&parts.program, out)?;
    parts.at.put(out)?;
    parts.told.put(out)
}

impl Put for MediaBox {
    ghost wire = { box_wire };

    ghost Fits = { IsWritten };

    fn put(&self, out: &mut Vec<u8>) -> Result<(), AllocError> {
        self.keeps();
        put_parts(self.parts(), out)
    }
}

// What a box is, in the order of its fields.
type Head = (Kind, (u32, (CodecList, (CodecList, u32))));

impl Get for BoxFields {
    ghost wire = { box_wire };

    ghost Fits = { FitsBox };

    ghost long = { λ box more. box_long box more };

    fn get(alloc: Global, bytes: &mut Bytes<'_>) -> Result<BoxFields, AllocError> {
        let (kind, (number, (codecs, (sends, first_version)))) = Head::get(alloc, bytes)?;
        let slots = get_list(alloc, bytes)?;
        let goals = get_list(alloc, bytes)?;
        let media = get_list(alloc, bytes)?;
        let states = get_states(alloc, bytes)?;
        let (at, told) = <(Option<u32>, Option<u8>)>::get(alloc, bytes)?;
        Ok(BoxFields {
            kind,
            number,
            codecs,
            sends,
            first_version,
            slots,
            goals,
            media,
            states,
            at,
            told,
        })
    }
}
