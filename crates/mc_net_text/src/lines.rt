// The lines of codecs, boxes and channels.

ghost use Rattle.std.specs.Prelude.{◌≡◌, ◌++◌, OnOk};
ghost use Rattle.std.specs.List.{flat_map, list_any};
ghost use Rattle.mc_net_text.specs.Lines.{also_line, box_lines, chan_line, channel_lines, codec_line, codec_words, device_line, lines_of_kind, media_line, send_line, sends_others, version_word};

use crate::line::{put_four, put_next, put_six};
use crate::words::{box_at, codec_at, medium_word, slot_at};
use mc_box::Kind;
use mc_plan::BoxPlan;
use mc_table::put_line;
use mc_text::Names;
use mc_world::{Channel, Tunnel};
use std::alloc::{AllocError, Global};

// Whether a box sends other codecs than it receives.
fn sends_others(planned: &BoxPlan) -> bool
    ensures { result ≡ sends_others planned.now }
{
    planned.codecs.as_slice() != planned.sends.as_slice()
}

// Whether some box does.
fn some_sends_others(boxes: &[BoxPlan]) -> bool
    ensures { result ≡ list_any sends_others boxes.now }
{
    boxes.iter().any(|planned| sends_others(planned))
}

// Appends the version line.
pub fn put_media(boxes: &[BoxPlan], out: &mut Vec<u8>) -> Result<(), AllocError>
    ensures { OnOk result (out.new.items ≡ out.old.items ++ media_line boxes.now) }
{
    if some_sends_others(boxes) {
        return out.extend_from_slice(b"media 2\n");
    }
    out.extend_from_slice(b"media 1\n")
}

// Appends the line of each codec.
pub fn put_codecs(names: &Names, out: &mut Vec<u8>) -> Result<(), AllocError>
    ensures { OnOk result (out.new.items ≡ out.old.items ++ flat_map codec_line names.now.codecs) }
{
    for codec in 0..names.codec_count() {
        put_line(b"codec", &[names.codec_name(codec as u8)], out)?;
    }
    Ok(())
}

// Appends the names of codecs, each after a space.
fn put_codec_words(names: &Names, codecs: &[u8], out: &mut Vec<u8>) -> Result<(), AllocError>
    ensures { OnOk result (out.new.items ≡ out.old.items ++ codec_words names.now codecs.now) }
{
    for codec in codecs {
        put_next(codec_at(names, *codec), out)?;
    }
    Ok(())
}

// Appends a first version after a space, where it isn't 1.
fn put_version(alloc: Global, version: u32, out: &mut Vec<u8>) -> Result<(), AllocError>
    ensures { OnOk result (out.new.items ≡ out.old.items ++ version_word version) }
{
    if version == 1 {
        return Ok(());
    }
    let word = format!(in alloc; "{version}")?;
    put_next(word.as_bytes(), out)
}

// Appends the line of a device.
fn put_device(
    alloc: Global,
    names: &Names,
    who: usize,
    planned: &BoxPlan,
    out: &mut Vec<u8>,
) -> Result<(), AllocError>
    ensures { OnOk result (out.new.items ≡ out.old.items ++ device_line names.now who planned.now) }
{
    out.extend_from_slice(b"dev")?;
    put_next(box_at(names, who), out)?;
    put_version(alloc, planned.first_version, out)?;
    put_codec_words(names, planned.codecs.as_slice(), out)?;
    out.extend_from_slice(b"\n")
}

// Appends what a device sends, where it receives something else.
fn put_sends(
    names: &Names,
    who: usize,
    planned: &BoxPlan,
    out: &mut Vec<u8>,
) -> Result<(), AllocError>
    ensures { OnOk result (out.new.items ≡ out.old.items ++ send_line names.now who planned.now) }
{
    if !sends_others(planned) {
        return Ok(());
    }
    out.extend_from_slice(b"send")?;
    put_next(box_at(names, who), out)?;
    put_codec_words(names, planned.sends.as_slice(), out)?;
    out.extend_from_slice(b"\n")
}

// Appends the lines of a box.
fn put_box(
    alloc: Global,
    names: &Names,
    who: usize,
    planned: &BoxPlan,
    out: &mut Vec<u8>,
) -> Result<(), AllocError>
    ensures { OnOk result (out.new.items ≡ out.old.items ++ lines_of_kind planned.now.kind names.now who planned.now) }
{
    match planned.kind {
        Kind::Device => {
            put_device(alloc, names, who, planned, out)?;
            put_sends(names, who, planned, out)
        }
        Kind::Feature => put_line(b"feat", &[box_at(names, who)], out),
    }
}

// Appends the lines of boxes, in the order of their numbers.
pub fn put_boxes(
    alloc: Global,
    names: &Names,
    boxes: &[BoxPlan],
    out: &mut Vec<u8>,
) -> Result<(), AllocError>
    ensures { OnOk result (out.new.items ≡ out.old.items ++ box_lines names.now 0 boxes.now) }
{
    for who in 0..boxes.len() {
        put_box(alloc, names, who, &boxes[who], out)?;
    }
    Ok(())
}

// Appends a channel's line of one tunnel more.
fn put_also(
    names: &Names,
    from: u32,
    to: u32,
    tunnel: &Tunnel,
    out: &mut Vec<u8>,
) -> Result<(), AllocError>
    ensures { OnOk result (out.new.items ≡ out.old.items ++ also_line names.now from to tunnel.now) }
{
    put_four(
        b"also",
        medium_word(tunnel.medium),
        slot_at(names, from, usize::from(tunnel.from)),
        slot_at(names, to, usize::from(tunnel.to)),
        out,
    )
}

// Appends the line of a channel with its first tunnel.
fn put_chan(
    names: &Names,
    from: u32,
    to: u32,
    tunnel: &Tunnel,
    out: &mut Vec<u8>,
) -> Result<(), AllocError>
    ensures { OnOk result (out.new.items ≡ out.old.items ++ chan_line names.now from to tunnel.now) }
{
    put_six(
        b"chan",
        medium_word(tunnel.medium),
        box_at(names, from as usize),
        slot_at(names, from, usize::from(tunnel.from)),
        box_at(names, to as usize),
        slot_at(names, to, usize::from(tunnel.to)),
        out,
    )
}

// Appends the lines of tunnels that a channel has beside its first.
fn put_others(
    names: &Names,
    from: u32,
    to: u32,
    tunnels: &[Tunnel],
    out: &mut Vec<u8>,
) -> Result<(), AllocError>
    ensures { OnOk result (out.new.items ≡ out.old.items ++ flat_map (also_line names.now from to) tunnels.now) }
{
    for tunnel in tunnels {
        put_also(names, from, to, tunnel, out)?;
    }
    Ok(())
}

// Appends the lines of a channel.
fn put_channel(names: &Names, ends: &Channel, out: &mut Vec<u8>) -> Result<(), AllocError>
    ensures { OnOk result (out.new.items ≡ out.old.items ++ channel_lines names.now ends.now) }
{
    match ends.tunnels.split_first() {
        None => Ok(()),
        Some((first, others)) => {
            put_chan(names, ends.from, ends.to, first, out)?;
            put_others(names, ends.from, ends.to, others, out)
        }
    }
}

// Appends the lines of channels, in their order.
pub fn put_channels(
    names: &Names,
    channels: &[Channel],
    out: &mut Vec<u8>,
) -> Result<(), AllocError>
    ensures { OnOk result (out.new.items ≡ out.old.items ++ flat_map (channel_lines names.now) channels.now) }
{
    for ends in channels {
        put_channel(names, ends, out)?;
    }
    Ok(())
}
