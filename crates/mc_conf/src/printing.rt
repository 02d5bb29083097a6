// The printed lines of a conference.
ghost use Rattle.std.specs.Prelude.{◌≡◌, ◌++◌, ◌<◌, All, IfOk, OnOk, length};
ghost use Rattle.std.specs.List.{flat_map};
ghost use Rattle.mc_conf.specs.Printed.{AreNamedEnds, IsNamedMix, heading_line, mix_line, print_conf};

use crate::mixing::{Mix, mixes};
use crate::party::leg_count;
use mc_table::put_line;
use mc_text::Names;
use mc_view::PathView;
use std::alloc::{AllocError, Global};

/// The lines of a conference at a box: its name and how many legs it has, and then who hears whom. The box, and the
/// boxes, the slots and the own codecs of all ends have names.
pub fn print_conf(
    alloc: Global,
    names: &Names,
    who: u32,
    views: &[PathView],
) -> Result<Vec<u8>, AllocError>
    requires who { who < length names.now.boxes }
    requires ends { All (AreNamedEnds names.now) views.now }
    ensures { IfOk result (λ text. text.items ≡ print_conf names.now who views.now) }
{
    let found = mixes(alloc, views, who)?;
    let mut text = Vec::new(alloc);
    put_heading(alloc, names, who, leg_count(views, who), &mut text)?;
    put_mixes(alloc, names, &found, &mut text)?;
    Ok(text)
}

// Appends the line of the box.
fn put_heading(
    alloc: Global,
    names: &Names,
    who: u32,
    count: usize,
    out: &mut Vec<u8>,
) -> Result<(), AllocError>
    requires { who < length names.now.boxes }
    ensures { OnOk result (out.new.items ≡ out.old.items ++ heading_line names.now who count) }
{
    let word = format!(in alloc; "{count}")?;
    put_line(
        b"conf",
        &[names.box_name(who), b"legs", word.as_bytes()],
        out,
    )
}

// Appends the lines of who hears whom, in their order.
fn put_mixes(
    alloc: Global,
    names: &Names,
    found: &[Mix],
    out: &mut Vec<u8>,
) -> Result<(), AllocError>
    requires { All (IsNamedMix names.now) found.now }
    ensures { OnOk result (out.new.items ≡ out.old.items ++ flat_map (mix_line names.now) found.now) }
{
    for mix in found {
        put_mix(alloc, names, mix, out)?;
    }
    Ok(())
}

// Appends the line that tells whom a party hears.
fn put_mix(alloc: Global, names: &Names, mix: &Mix, out: &mut Vec<u8>) -> Result<(), AllocError>
    requires { IsNamedMix names.now mix.now }
    ensures { OnOk result (out.new.items ≡ out.old.items ++ mix_line names.now mix.now) }
{
    let mut hearer = Vec::new(alloc);
    names.print_slot(mix.hearer.0, mix.hearer.1, &mut hearer)?;
    let mut heard = Vec::new(alloc);
    names.print_slot(mix.heard.0, mix.heard.1, &mut heard)?;
    put_line(b"mix", &[&hearer, &heard, names.codec_name(mix.codec)], out)
}
