// Whole texts of drawn chains.

ghost use Rattle.std.specs.Prelude.{◌≡◌, ◌≤◌, ◌++◌, IfOk, OnOk, string_bytes};
ghost use Rattle.mc_scene.specs.Generated.{batch_text, commands_text, generated, network_text};
ghost use Rattle.mc_scene.specs.declared.limit.TheConstants.{NUMBER_LIMIT, SIZE_LIMIT};

use crate::chains::{Chain, draw_chains};
use crate::groups::{Group, put_group};
use std::alloc::{AllocError, Global};

const CODECS: &str = "media 1\n\
    codec c0\n\
    codec c1\n\
    codec c2\n\
    codec c3\n\
    codec c4\n\
    codec c5\n\
    codec c6\n\
    codec c7\n";

/// The text of so many chains, drawn from a number on: each of them has at most three features, between two devices
/// with one to four of eight codecs. Their left ends open, while each right end opens, holds or closes; then all right
/// ends hold; then all left ends close.
pub fn generated(alloc: Global, number: u32, size: u32) -> Result<Vec<u8>, AllocError>
    requires number { number ≤ NUMBER_LIMIT }
    requires some { 1 ≤ size }
    requires few { size ≤ SIZE_LIMIT }
    ensures { IfOk result (λ text. text.items ≡ generated number size) }
{
    let chains = draw_chains(alloc, number, size)?;
    let mut text = String::new(alloc);
    put_network(&chains, &mut text)?;
    put_commands(&chains, &mut text)?;
    Ok(text.into_bytes())
}

// Appends the lines before the commands. Want of memory may come in the middle, here and below.
fn put_network(chains: &[Chain], text: &mut String) -> Result<(), AllocError>
    ensures { OnOk result (string_bytes text.new ≡ string_bytes text.old ++ network_text chains.now) }
{
    text.push_str(CODECS)?;
    put_group(Group::Boxes, chains, text)?;
    put_group(Group::Channels, chains, text)?;
    text.push_str("begin\n")
}

fn put_commands(chains: &[Chain], text: &mut String) -> Result<(), AllocError>
    ensures { OnOk result (string_bytes text.new ≡ string_bytes text.old ++ commands_text chains.now) }
{
    put_batch(Group::Calls, chains, text)?;
    put_batch(Group::Holds, chains, text)?;
    put_batch(Group::Closes, chains, text)
}

// Appends the commands of a group, and a settle after them.
fn put_batch(group: Group, chains: &[Chain], text: &mut String) -> Result<(), AllocError>
    ensures { OnOk result (string_bytes text.new ≡ string_bytes text.old ++ batch_text group chains.now) }
{
    put_group(group, chains, text)?;
    text.push_str("settle\n")
}
