// Boxes and places made of the fields that were read, where there are such.

ghost use Rattle.std.specs.Prelude.{◌≡◌, IfOk, MatchOption};
ghost use Rattle.std.specs.List.{AllByRecursion};
ghost use Rattle.mc_box.specs.BoxSound.{IsSoundBox};
ghost use Rattle.mc_snapshot.specs.Boxes.{NoProgram};
ghost use Rattle.mc_snapshot.specs.Forms.{states_in};
ghost use Rattle.mc_snapshot.specs.Shards.{AreFewPlaces};

use crate::boxes::BoxFields;
use crate::programs::program_of;
use crate::shards::PlacesFields;
use mc_box::{BoxParts, MediaBox};
use mc_rule::{ProgState, Program};
use mc_shard::SlotPlaces;
use std::alloc::{AllocError, Global};

// The program of states, if there are any, in an Option; none where they are no program's.
fn program_if(states: Option<Vec<ProgState>>) -> Option<Option<Program>>
    ensures { MatchOption result (NoProgram (states_in states)) (λ made. made ≡ states_in states) }
{
    match states {
        None => Some(None),
        Some(states) => Some(Some(program_of(states)?)),
    }
}

/// The box of these fields; none where no box keeps such.
pub fn box_of(fields: BoxFields) -> Option<MediaBox>
    ensures { MatchOption result (IsSoundBox fields → ⊥) (λ made. made ≡ fields) }
{
    let program = program_if(fields.states)?;
    MediaBox::from_parts(BoxParts {
        kind: fields.kind,
        number: fields.number,
        codecs: fields.codecs,
        sends: fields.sends,
        first_version: fields.first_version,
        slots: fields.slots,
        goals: fields.goals,
        media: fields.media,
        program,
        at: fields.at,
        told: fields.told,
    })
}

/// The boxes of these fields; none where one of them is no box's.
pub fn boxes_of(alloc: Global, all: Vec<BoxFields>) -> Result<Option<Vec<MediaBox>>, AllocError>
    ensures { IfOk result (λ made. MatchOption made (AllByRecursion IsSoundBox all.items → ⊥)
        (λ boxes. boxes.items ≡ all.items)) }
{
    let mut boxes = Vec::with_capacity(alloc, all.len())?;
    for fields in all {
        let Some(one) = box_of(fields) else {
            return Ok(None);
        };
        boxes.push(one)?;
    }
    Ok(Some(boxes))
}

/// The places of these fields; none where a box has more than it can have.
pub fn places_of(
    alloc: Global,
    all: Vec<PlacesFields>,
) -> Result<Option<Vec<SlotPlaces>>, AllocError>
    ensures { IfOk result (λ made. MatchOption made (AllByRecursion AreFewPlaces all.items → ⊥)
        (λ places. places.items ≡ all.items)) }
{
    let mut places = Vec::with_capacity(alloc, all.len())?;
    for fields in all {
        if fields.list.len() > 256 {
            return Ok(None);
        }
        places.push(SlotPlaces::new(fields.list))?;
    }
    Ok(Some(places))
}
