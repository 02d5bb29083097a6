// Shards as bytes.

ghost use Rattle.std.specs.Prelude.{◌≡◌, [], IfErr, IfNone, IfOk, IfSome, MatchBool, MatchOption, OnOk};
ghost use Rattle.mc_entry.specs.Wire.{Writes};
ghost use Rattle.mc_shard.specs.Shards.{LaidShard, shard_of};
ghost use Rattle.mc_snapshot.specs.Lengths.{places_long, reached_long, shard_long};
ghost use Rattle.mc_snapshot.specs.Shards.{ArePlacesWritten, FitsPlaces, FitsReached, FitsShard, IsKept, IsShardWritten, places_wire, reached_wire, shard_wire};

use crate::boxes::BoxFields;
use crate::lists::{get_list, put_list};
use crate::making::{boxes_of, places_of};
use crate::wire::{Get, Put};
use mc_entry::bytes::Bytes;
use mc_shard::{Reached, Shard, ShardParts, SlotPlaces};
use std::alloc::{AllocError, Global};
use std::marker::Model;

/// The version of the form.
pub const SNAPSHOT_VERSION: u8 = 1;

/// The places of a box's slots as they were read, however many.
#[derive(Drop)]
pub struct PlacesFields {
    pub list: Vec<(u32, u8)>,
}

impl Model for PlacesFields {
    ghost use Rattle.std.specs.Prelude.{List, ℕ};

    ghost Value = { List (ℕ × ℕ) };

    ghost view = { λ places. places.list.items };
}

/// The fields of a shard as they were read, of which it isn't known whether a shard keeps such.
#[derive(Drop)]
pub struct ShardFields {
    pub stamp: u64,
    pub boxes: Vec<BoxFields>,
    pub places: Vec<PlacesFields>,
    pub owners: Vec<u32>,
    pub sent: Vec<Reached>,
    pub taken: Vec<Reached>,
    pub asked: Vec<u64>,
}

impl Model for ShardFields {
    ghost use Rattle.mc_shard.specs.Shards.{LaidShard};

    ghost Value = { LaidShard };

    ghost view = { λ fields. record {
      places = fields.places.items;
      owners = fields.owners.items;
      state = record {
        boxes = fields.boxes.items;
        stamp = fields.stamp;
        sent = fields.sent.items;
        taken = fields.taken.items;
        asked = fields.asked.items;
      };
    } };
}

impl Put for SlotPlaces {
    ghost wire = { places_wire };

    ghost Fits = { ArePlacesWritten };

    fn put(&self, out: &mut Vec<u8>) -> Result<(), AllocError> {
        put_list(self.list(), out)
    }
}

impl Get for PlacesFields {
    ghost wire = { places_wire };

    ghost Fits = { FitsPlaces };

    ghost long = { λ places more. places_long places more };

    fn get(alloc: Global, bytes: &mut Bytes<'_>) -> Result<PlacesFields, AllocError> {
        let list = get_list(alloc, bytes)?;
        Ok(PlacesFields { list })
    }
}

impl Put for Reached {
    ghost wire = { reached_wire };

    ghost Fits = { FitsReached };

    fn put(&self, out: &mut Vec<u8>) -> Result<(), AllocError> {
        self.count.put(out)?;
        self.digest.put(out)
    }
}

impl Get for Reached {
    ghost wire = { reached_wire };

    ghost Fits = { FitsReached };

    ghost long = { λ reached more. reached_long reached more };

    fn get(alloc: Global, bytes: &mut Bytes<'_>) -> Result<Reached, AllocError> {
        let count = u64::get(alloc, bytes)?;
        let digest = u64::get(alloc, bytes)?;
        Ok(Reached { count, digest })
    }
}

// All that a shard keeps.
fn put_parts(parts: &ShardParts, out: &mut Vec<u8>) -> Result<(), AllocError>
    ensures fits { OnOk result (IsShardWritten (shard_of parts.now)) }
    ensures writes { OnOk result (Writes out.old.items out.new.items (shard_wire (shard_of parts.now))) }
{
    SNAPSHOT_VERSION.put(out)?;
    parts.stamp.put(out)?;
    put_list(&parts.boxes, out)?;
    put_list(&parts.places, out)?;
    put_list(&parts.owners, out)?;
    put_list(&parts.sent, out)?;
    put_list(&parts.taken, out)?;
    put_list(&parts.asked, out)
}

impl Put for Shard {
    ghost wire = { shard_wire };

    ghost Fits = { IsShardWritten };

    fn put(&self, out: &mut Vec<u8>) -> Result<(), AllocError> {
        put_parts(self.parts(), out)
    }
}

impl Get for ShardFields {
    ghost wire = { shard_wire };

    ghost Fits = { FitsShard };

    ghost long = { λ shard more. shard_long shard more };

    fn get(alloc: Global, bytes: &mut Bytes<'_>) -> Result<ShardFields, AllocError> {
        let _version = u8::get(alloc, bytes)?;
        let stamp = u64::get(alloc, bytes)?;
        let boxes = get_list(alloc, bytes)?;
        let places = get_list(alloc, bytes)?;
        let owners = get_list(alloc, bytes)?;
        let sent = get_list(alloc, bytes)?;
        let taken = get_list(alloc, bytes)?;
        let asked = get_list(alloc, bytes)?;
        Ok(ShardFields {
            stamp,
            boxes,
            places,
            owners,
            sent,
            taken,
            asked,
        })
    }
}

/// Why no shard was read.
#[derive(Clone, Copy, PartialEq, Eq, Debug)]
pub enum SnapshotFault {
    /// The bytes are the form of no shard.
    NoShard,
    /// Memory ran out.
    NoMemory,
}

// The shard of fields; none where no shard keeps such.
fn shard_of(alloc: Global, fields: ShardFields) -> Result<Option<Shard>, AllocError>
    ensures { IfOk result (λ made. MatchOption made (IsKept fields → ⊥) (λ shard. shard ≡ fields)) }
{
    let Some(boxes) = boxes_of(alloc, fields.boxes)? else {
        return Ok(None);
    };
    let Some(places) = places_of(alloc, fields.places)? else {
        return Ok(None);
    };
    Ok(Shard::from_parts(ShardParts {
        boxes,
        places,
        owners: fields.owners,
        sent: fields.sent,
        taken: fields.taken,
        asked: fields.asked,
        stamp: fields.stamp,
    }))
}

// Whether the bytes are the shard's form.
fn is_form(alloc: Global, shard: &Shard, bytes: &[u8]) -> Result<bool, AllocError>
    ensures { IfOk result (λ same. MatchBool same (bytes.now ≡ shard_wire shard.now [])
        (bytes.now ≡ shard_wire shard.now [] → ⊥)) }
{
    let mut form = Vec::new(alloc);
    shard.put(&mut form)?;
    Ok(form.as_slice() == bytes)
}

/// Appends a shard's form. It fails only for want of memory. After an error the buffer has a part of it.
pub fn write_shard(shard: &Shard, out: &mut Vec<u8>) -> Result<(), AllocError>
    ensures kept { OnOk result (IsKept shard.now) }
    ensures fits { OnOk result (FitsShard shard.now) }
    ensures writes { OnOk result (Writes out.old.items out.new.items (shard_wire shard.now)) }
{
    shard.keeps();
    shard.put(out)
}

// A shard whose form the bytes may be, if they are one's.
fn read_fields(alloc: Global, bytes: &[u8]) -> Result<Option<Shard>, AllocError>
    ensures one { IfOk result (λ found. IfSome found (λ shard. (value : LaidShard) → FitsShard value
        → bytes.now ≡ shard_wire value [] → shard ≡ value)) }
    ensures none { IfOk result (λ found. IfNone found ((value : LaidShard) → FitsShard value → IsKept value
        → bytes.now ≡ shard_wire value [] → ⊥)) }
{
    let fields = ShardFields::get(alloc, &mut Bytes::new(bytes))?;
    shard_of(alloc, fields)
}

/// The shard whose form the bytes are: the one that was written. What is read is written again and compared, and what
/// no shard keeps is refused, so no other bytes are read.
pub fn read_shard(alloc: Global, bytes: &[u8]) -> Result<Shard, SnapshotFault>
    ensures is { IfOk result (λ shard. bytes.now ≡ shard_wire shard []) }
    ensures one { IfOk result (λ shard. (value : LaidShard) → FitsShard value → bytes.now ≡ shard_wire value []
        → shard ≡ value) }
    ensures none { IfErr result (λ why. why ≡ SnapshotFault.NoShard → (value : LaidShard) → FitsShard value
        → IsKept value → bytes.now ≡ shard_wire value [] → ⊥) }
{
    let Ok(found) = read_fields(alloc, bytes) else {
        return Err(SnapshotFault::NoMemory);
    };
    let Some(shard) = found else {
        return Err(SnapshotFault::NoShard);
    };
    match is_form(alloc, &shard, bytes) {
        Ok(true) => Ok(shard),
        Ok(false) => Err(SnapshotFault::NoShard),
        Err(_) => Err(SnapshotFault::NoMemory),
    }
}
