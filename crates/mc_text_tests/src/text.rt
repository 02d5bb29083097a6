use crate::equal::{is_equal, is_within};
use crate::look::look_at;
use mc_text::{Draws, NameFault, Names};
use std::alloc::Global;
use std::process::Abort;

#[test]
fn draws_are_the_published_ones(rt: HostRuntime) {
    let mut draws = Draws { state: 1 };
    let first: [u32; 18] = [
        16838, 5758, 10113, 17515, 31051, 5627, 23010, 7419, 16212, 4086, 2749, 12767, 9084, 12060,
        32225, 17543, 25089, 21183,
    ];
    for want in &first {
        is_equal(&rt, &draws.draw(), want);
    }
}

// The first codec has number 0, and a told word keeps its number.
fn get_numbers<R: Abort>(rt: &R, names: &mut Names) -> Result<(), NameFault> {
    let codec = names.add_codec(b"g711")?;
    let word = names.add_told(b"paid")?;
    let again = names.add_told(b"paid")?;
    is_equal(rt, &(codec, again), &(0, word));
    Ok(())
}

#[test]
fn codecs_and_words_get_numbers(rt: HostRuntime) -> Result<(), NameFault> {
    look_at(&rt, Names::new(rt.alloc()), get_numbers)
}

// A box and its slot, by their numbers.
fn add_both(rt: &impl Abort, names: &mut Names) -> Result<(u32, u8), NameFault> {
    let who = names.add_box(b"alice")?;
    is_within(rt, who as usize, names.box_count());
    let slot = names.add_slot(who, b"a")?;
    Ok((who, slot))
}

// The slot is printed by these names.
fn is_printed(rt: &impl Abort, alloc: Global, names: &Names, who: u32, slot: u8) {
    is_within(rt, who as usize, names.box_count());
    is_within(rt, slot as usize, names.slot_count(who));
    let mut out = Vec::new(alloc);
    let put = names.print_slot(who, slot, &mut out);
    is_equal(rt, &put.is_ok(), &true);
    is_equal(rt, &out.as_slice(), &b"alice/a".as_slice());
}

// A box and its slot are printed by their names.
fn are_printed<R: Abort>(context: (&R, Global), names: &mut Names) -> Result<(), NameFault> {
    let (rt, alloc) = context;
    let (who, slot) = add_both(rt, names)?;
    is_printed(rt, alloc, names, who, slot);
    Ok(())
}

#[test]
fn a_slot_is_printed_with_its_box(rt: HostRuntime) -> Result<(), NameFault> {
    let names = Names::new(rt.alloc());
    look_at((&rt, rt.alloc()), names, are_printed)
}
