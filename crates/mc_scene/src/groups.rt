// The lines that a generated text has for each of its chains.

ghost use Rattle.std.specs.Prelude.{◌≡◌, ◌++◌, OnOk, codes, flat_map, string_bytes};
ghost use Rattle.std.specs.Fmt.{decimal};
ghost use Rattle.std.specs.List.{range_with_len};
ghost use Rattle.mc_scene.specs.Groups.{calls_text, chain_text, channels_text, boxes_text, device_text, feature_text};
ghost use Rattle.mc_scene.specs.Groups.{feature_letter, first_goal_word, group_text, link_text, near_name, near_slot};

use crate::chains::{Chain, CodecRun, FirstGoal};
use std::alloc::AllocError;

// What the lines of a group say of a chain.
#[derive(Clone, Copy)]
pub enum Group {
    // Its boxes, from left to right.
    Boxes,
    // Its channels, from left to right.
    Channels,
    // The links of its features, and the first goals of its ends.
    Calls,
    // That its right end is to hold.
    Holds,
    // That its left end is to close.
    Closes,
}

// Appends the lines of a group, chain by chain. Want of memory may come in the middle, here and below.
pub fn put_group(group: Group, chains: &[Chain], text: &mut String) -> Result<(), AllocError>
    ensures { OnOk result (string_bytes text.new ≡ string_bytes text.old ++ group_text group chains.now) }
{
    for chain in chains {
        put_chain(group, chain, text)?;
    }
    Ok(())
}

fn put_chain(group: Group, chain: &Chain, text: &mut String) -> Result<(), AllocError>
    ensures { OnOk result (string_bytes text.new ≡ string_bytes text.old ++ chain_text group chain.now) }
{
    let number = chain.number;
    match group {
        Group::Boxes => put_boxes(chain, text),
        Group::Channels => put_channels(chain, text),
        Group::Calls => put_calls(chain, text),
        Group::Holds => writeln!(text, "set r{number} s hold"),
        Group::Closes => writeln!(text, "set l{number} s close"),
    }
}

fn put_boxes(chain: &Chain, text: &mut String) -> Result<(), AllocError>
    ensures { OnOk result (string_bytes text.new ≡ string_bytes text.old ++ boxes_text chain.now) }
{
    put_device("l", chain.number, chain.left, text)?;
    put_features(chain, text)?;
    put_device("r", chain.number, chain.right, text)
}

// Appends the line of a device: its name is the side and the chain's number.
fn put_device(
    side: &str,
    number: u32,
    codecs: CodecRun,
    text: &mut String,
) -> Result<(), AllocError>
    ensures { OnOk result (string_bytes text.new
        ≡ string_bytes text.old ++ device_text (side.now ++ decimal number) codecs) }
{
    write!(text, "dev {side}{number}")?;
    for place in 0..codecs.count {
        let codec = codecs.codec(place);
        write!(text, " c{codec}")?;
    }
    writeln!(text)
}

fn put_features(chain: &Chain, text: &mut String) -> Result<(), AllocError>
    ensures { OnOk result (string_bytes text.new
        ≡ string_bytes text.old ++ flat_map (feature_text chain.now) (range_with_len 0 chain.now.features)) }
{
    let number = chain.number;
    for place in 0..chain.features {
        let letter = feature_letter(place);
        writeln!(text, "feat f{number}{letter}")?;
    }
    Ok(())
}

// Appends the channels, each on the left of a feature or of the right device.
fn put_channels(chain: &Chain, text: &mut String) -> Result<(), AllocError>
    ensures { OnOk result (string_bytes text.new ≡ string_bytes text.old ++ channels_text chain.now) }
{
    let number = chain.number;
    for place in 0..chain.features {
        put_near_end(chain, place, text)?;
        let letter = feature_letter(place);
        writeln!(text, "f{number}{letter} w")?;
    }
    put_near_end(chain, chain.features, text)?;
    writeln!(text, "r{number} s")
}

// Appends the beginning of a channel's line, up to the end on the left.
fn put_near_end(chain: &Chain, place: u32, text: &mut String) -> Result<(), AllocError>
    ensures { OnOk result (string_bytes text.new ≡ string_bytes text.old
        ++ (codes "chan audio " ++ near_name chain.now place ++ codes " " ++ near_slot place ++ codes " ")) }
{
    let number = chain.number;
    if place == 0 {
        write!(text, "chan audio l{number} s ")
    } else {
        let letter = feature_letter(place - 1);
        write!(text, "chan audio f{number}{letter} e ")
    }
}

fn put_calls(chain: &Chain, text: &mut String) -> Result<(), AllocError>
    ensures { OnOk result (string_bytes text.new ≡ string_bytes text.old ++ calls_text chain.now) }
{
    put_links(chain, text)?;
    let number = chain.number;
    let goal = first_goal_word(chain.goal);
    writeln!(text, "set l{number} s open")?;
    writeln!(text, "set r{number} s {goal}")
}

fn put_links(chain: &Chain, text: &mut String) -> Result<(), AllocError>
    ensures { OnOk result (string_bytes text.new
        ≡ string_bytes text.old ++ flat_map (link_text chain.now) (range_with_len 0 chain.now.features)) }
{
    let number = chain.number;
    for place in 0..chain.features {
        let letter = feature_letter(place);
        writeln!(text, "link f{number}{letter} w e")?;
    }
    Ok(())
}

// What tells the features of a chain apart.
fn feature_letter(place: u32) -> &'static str
    ensures { result.now ≡ feature_letter place }
{
    if place == 0 {
        "a"
    } else if place == 1 {
        "b"
    } else {
        "c"
    }
}

fn first_goal_word(goal: FirstGoal) -> &'static str
    ensures { result.now ≡ first_goal_word goal }
{
    match goal {
        FirstGoal::Open => "open",
        FirstGoal::Hold => "hold",
        FirstGoal::Close => "close",
    }
}
