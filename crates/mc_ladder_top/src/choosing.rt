// What is asked for, in a network.

ghost use Rattle.std.specs.Prelude.{◌≡◌, ◌++◌, [], filter_map, map, option_map, IfOk, OnOk};
ghost use Rattle.std.specs.List.{cons_option};
ghost use Rattle.mc_ladder_top.specs.Requests.{asked, box_named, choice_of, unknown_in};

use crate::words::LadderRequest;
use mc_ladder_choice::Choice;
use mc_text::Names;
use std::alloc::{AllocError, Global};

// The number of the box with a name.
fn box_named(names: &Names, name: &str) -> Option<u32>
    ensures { result ≡ box_named names.now name.now }
{
    names.find_box(name.as_bytes())
}

// The first of these names that no box has.
pub fn unknown_in<'a>(names: &Names, wanted: &[&'a str]) -> Option<&'a str>
    ensures { option_map (λ name. name.now) result ≡ unknown_in names.now (map (λ name. name.now) wanted.now) }
{
    for name in wanted {
        if box_named(names, name).is_none() {
            return Some(name);
        }
    }
    None
}

// The numbers of the boxes with these names.
fn boxes_named(alloc: Global, names: &Names, wanted: &[&str]) -> Result<Vec<u32>, AllocError>
    ensures { IfOk result (λ boxes. boxes.items
        ≡ filter_map (λ name. box_named names.now name) (map (λ name. name.now) wanted.now)) }
{
    let mut boxes = Vec::new(alloc);
    for name in wanted {
        add_named(names, name, &mut boxes)?;
    }
    Ok(boxes)
}

// Appends the number of the box with a name, if there is one.
fn add_named(names: &Names, name: &str, boxes: &mut Vec<u32>) -> Result<(), AllocError>
    ensures { OnOk result (boxes.new.items
        ≡ boxes.old.items ++ cons_option (box_named names.now name.now) []) }
{
    if let Some(who) = box_named(names, name) {
        boxes.push(who)?;
    }
    Ok(())
}

// What is chosen of a journal, by the names of a network.
pub fn choice_of(
    alloc: Global,
    names: &Names,
    request: &LadderRequest,
) -> Result<Choice, AllocError>
    ensures { IfOk result (λ choice. choice ≡ choice_of names.now (asked request.now)) }
{
    Ok(Choice {
        settles: request.settles,
        boxes: boxes_named(alloc, names, &request.boxes)?,
    })
}
