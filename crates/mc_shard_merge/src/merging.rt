// All journals as one run.

ghost use Rattle.std.specs.Prelude.{◌≡◌, length, map, IfErr, IfOk};
ghost use Rattle.mc_box.specs.declared.event.Turn.{Turn};
ghost use Rattle.mc_shard_merge.specs.Compared.{journals_of};
ghost use Rattle.mc_shard_merge.specs.Stamped.{bare_turn, merged_stamped};
ghost use Rattle.mc_shard_merge.specs.Turns.{AllNamed, AreMergedTurns, AreRunOfShards, IsMergeFault, merged_turns, name_of, names_of};

use crate::comparing::journal_at;
use crate::fault::MergeFault;
use crate::naming::{first_unnamed, names_at};
use crate::stamped::{StampedTurn, merged_with};
use mc_box::Turn;
use mc_shard::Entry;
use std::alloc::{AllocError, Global};

// The turns of all journals, with their stamps.
fn merged_stamped(
    alloc: Global,
    journals: &[Vec<Entry>],
    names: &[Vec<u32>],
) -> Result<Vec<StampedTurn>, AllocError>
    requires { AllNamed (names_of names.now) (journals_of journals.now) }
    ensures { IfOk result (λ turns. turns.items ≡ merged_stamped (length (journals_of journals.now))
        (name_of (names_of names.now)) (journals_of journals.now)) }
{
    let mut turns = Vec::new(alloc);
    for shard in 0..journals.len() {
        turns = merged_with(
            alloc,
            journal_at(journals, shard),
            names_at(names, shard),
            &turns,
        )?;
    }
    Ok(turns)
}

// The turns without their stamps.
fn bare_turns(alloc: Global, stamped: &[StampedTurn]) -> Result<Vec<Turn>, AllocError>
    ensures { IfOk result (λ turns. turns.items ≡ map bare_turn stamped.now) }
{
    let mut turns = Vec::with_capacity(alloc, stamped.len())?;
    for one in stamped {
        turns.push(one.turn)?;
    }
    Ok(turns)
}

/// The turns of all journals in the order of their stamps: of one stamp, the turn of the shard with the greater number
/// stands first. `names` has for each shard the world's numbers of its boxes, and `MergeFault::Unnamed` says that a box
/// has none. Where the shards hold all boxes of a world, `Shard::replay` accepts each journal, and `compare` finds that
/// they agree on each lane, the turns are a run of it. It takes time in proportion to the turns, times the shards.
pub fn merged_turns(
    alloc: Global,
    journals: &[Vec<Entry>],
    names: &[Vec<u32>],
) -> Result<Vec<Turn>, MergeFault>
    ensures named { IfOk result (λ turns. AllNamed (names_of names.now) (journals_of journals.now)) }
    ensures turns { IfOk result (λ turns. turns.items
        ≡ merged_turns (journals_of journals.now) (names_of names.now)) }
    ensures merged { IfOk result (λ turns.
        AreMergedTurns (journals_of journals.now) (names_of names.now) turns.items) }
    ensures run { IfOk result (λ turns.
        AreRunOfShards (journals_of journals.now) (names_of names.now) turns.items) }
    ensures why { IfErr result (λ why. IsMergeFault why (names_of names.now) (journals_of journals.now)) }
{
    if let Some(place) = first_unnamed(journals, names) {
        return Err(MergeFault::Unnamed(place));
    }
    let stamped = merged_stamped(alloc, journals, names)?;
    Ok(bare_turns(alloc, &stamped)?)
}
