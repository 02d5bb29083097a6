// Lists of values, written one after another after their number.

ghost use Rattle.std.specs.Prelude.{◌≡◌, length, IfOk, OnOk};
ghost use Rattle.std.specs.List.{AllByRecursion};
ghost use Rattle.mc_entry.specs.Reading.{Reads};
ghost use Rattle.mc_entry.specs.Wire.{Writes};
ghost use Rattle.mc_snapshot.specs.Forms.{FitsList, ReadsEach, each_wire, list_wire};

use crate::wire::{Get, Put};
use mc_entry::bytes::Bytes;
use mc_entry::writing::put8;
use std::alloc::{AllocError, Global};

fn put_each<T: Put>(list: &[T], out: &mut Vec<u8>) -> Result<(), AllocError>
    ensures fits { OnOk result (AllByRecursion T.Fits list.now) }
    ensures writes { OnOk result (Writes out.old.items out.new.items (each_wire T.wire list.now)) }
{
    for i in 0..list.len() {
        list[i].put(out)?;
    }
    Ok(())
}

/// Appends how many values there are, and each of them. It fails only for want of memory.
pub fn put_list<T: Put>(list: &[T], out: &mut Vec<u8>) -> Result<(), AllocError>
    ensures fits { OnOk result (FitsList T.Fits list.now) }
    ensures writes { OnOk result (Writes out.old.items out.new.items (list_wire T.wire list.now)) }
{
    put8(out, list.len() as u64)?;
    put_each(list, out)
}

fn get_each<T: Get + Drop>(
    alloc: Global,
    bytes: &mut Bytes<'_>,
    count: u64,
) -> Result<Vec<T>, AllocError>
    ensures few { IfOk result (λ found. length found.items ≡ count) }
    ensures fits { IfOk result (λ found. AllByRecursion T.Fits found.items) }
    ensures reads { IfOk result (λ found. ReadsEach T.Fits T.wire count bytes.old bytes.new found.items) }
{
    let mut found = Vec::new(alloc);
    for _ in 0..count {
        found.push(T::get(alloc, bytes)?)?;
    }
    Ok(found)
}

/// The list with whose form the bytes begin. Where they begin with none, what is read has no meaning, and isn't longer
/// than they are.
pub fn get_list<T: Get + Drop>(alloc: Global, bytes: &mut Bytes<'_>) -> Result<Vec<T>, AllocError>
    ensures fits { IfOk result (λ found. FitsList T.Fits found.items) }
    ensures reads { IfOk result (λ found.
        Reads (FitsList T.Fits) (list_wire T.wire) bytes.old bytes.new found.items) }
{
    let count = bytes.word8();
    if count > bytes.left() as u64 {
        return Ok(Vec::new(alloc));
    }
    get_each(alloc, bytes, count)
}
