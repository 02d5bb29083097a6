// What a writer gives before an entry stands, and after it.

use crate::bytes::OPENS;
use crate::calls::open;
use crate::equal::{is_count, is_equal};
use crate::fault::TestFault;
use crate::phones::{ALICE, ALICE_END, shard};
use mc_box::{Change, Event};
use mc_shard::{Entry, Refused};
use mc_shard_writer::{NoTurn, ShardWriter};
use mc_slot::Goal;
use std::alloc::Global;
use std::process::Abort;

// Alice's phone is asked to open.
fn open_by(alloc: Global, writer: &mut ShardWriter) -> Result<bool, NoTurn> {
    writer.request(alloc, None, 0, Event::Set(Change::End(0, Goal::Open)), 0)
}

// The writer appends these bytes.
fn writes(
    rt: &impl Abort,
    alloc: Global,
    writer: &ShardWriter,
    want: &[u8],
) -> Result<(), TestFault> {
    let mut out = Vec::new(alloc);
    let wrote = writer.write(&mut out)?;
    is_equal(rt, &wrote, &!want.is_empty());
    is_equal(rt, &&out[..], &want);
    Ok(())
}

// Alice's open is what an entry sent.
fn is_open(rt: &impl Abort, entry: &Entry) {
    is_count(rt, entry.sent.len(), 1);
    is_equal(rt, &entry.sent.get(0), &open());
}

#[test]
fn nothing_is_seen_before_it_stands(rt: HostRuntime) -> Result<(), TestFault> {
    let alloc = rt.alloc();
    let mut writer = ShardWriter::new(shard(alloc, ALICE, ALICE_END)?);
    writes(&rt, alloc, &writer, &[])?;
    is_equal(&rt, &open_by(alloc, &mut writer), &Ok(true));
    is_equal(&rt, &writer.boxes().is_some(), &false);
    is_equal(&rt, &open_by(alloc, &mut writer), &Err(NoTurn::Waits));
    is_equal(&rt, &writer.arrive(alloc, open()), &Err(NoTurn::Waits));
    writes(&rt, alloc, &writer, &OPENS)?;
    match writer.stands() {
        Some(entry) => is_open(&rt, &entry),
        None => return Err(TestFault::Had),
    }
    is_equal(&rt, &writer.boxes().is_some(), &true);
    writes(&rt, alloc, &writer, &[])?;
    let early = NoTurn::Refused(Refused::Ahead);
    let mut late = open();
    late.item.number = 2;
    is_equal(&rt, &writer.arrive(alloc, late), &Err(early));
    Ok(())
}
