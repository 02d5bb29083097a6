// The lines of programs.

ghost use Rattle.std.specs.Prelude.{◌≡◌, ◌++◌, OnOk, Some};
ghost use Rattle.std.specs.List.{flat_map};
ghost use Rattle.mc_slot.specs.declared.SlotGoal.TheVariants.{Link};
ghost use Rattle.mc_program_lines.specs.Programs.{words_of};
ghost use Rattle.mc_net_text.specs.Lines.{goal_line, goal_lines, next_word, part_lines, parts_lines, prog_line, program_lines, when_line};

use crate::line::{put_five, put_four, put_next, put_three};
use crate::words::{box_at, slot_at, state_at, state_word, told_at};
use mc_program_lines::{Block, StatePart};
use mc_rule::{Guard, Rule};
use mc_script::goal_word;
use mc_slot::SlotGoal;
use mc_table::put_line;
use mc_text::Names;
use std::alloc::AllocError;

// Appends the goal of a slot, a link at the lesser of its slots.
fn put_goal(
    names: &Names,
    who: u32,
    local: usize,
    goal: Option<SlotGoal>,
    out: &mut Vec<u8>,
) -> Result<(), AllocError>
    ensures { OnOk result (out.new.items ≡ out.old.items ++ goal_line names.now who local goal) }
{
    match goal {
        None => Ok(()),
        Some(SlotGoal::End(goal)) => {
            put_three(b"goal", slot_at(names, who, local), goal_word(goal), out)
        }
        Some(SlotGoal::Link(partner)) => put_link(names, who, local, partner, out),
    }
}

// Appends a link, at the lesser of its slots.
fn put_link(
    names: &Names,
    who: u32,
    local: usize,
    partner: u8,
    out: &mut Vec<u8>,
) -> Result<(), AllocError>
    ensures { OnOk result (out.new.items ≡ out.old.items ++ goal_line names.now who local (Some (Link partner))) }
{
    let partner = usize::from(partner);
    if local < partner {
        let (low, high) = (slot_at(names, who, local), slot_at(names, who, partner));
        return put_three(b"link", low, high, out);
    }
    Ok(())
}

// Appends the goals of a part.
fn put_goals(
    names: &Names,
    who: u32,
    goals: &[Option<SlotGoal>],
    out: &mut Vec<u8>,
) -> Result<(), AllocError>
    ensures { OnOk result (out.new.items ≡ out.old.items ++ goal_lines names.now who 0 goals.now) }
{
    for local in 0..goals.len() {
        put_goal(names, who, local, goals[local], out)?;
    }
    Ok(())
}

// Appends a transition.
fn put_when(
    names: &Names,
    who: u32,
    states: &[Vec<u8>],
    rule: Rule,
    out: &mut Vec<u8>,
) -> Result<(), AllocError>
    ensures { OnOk result (out.new.items ≡ out.old.items ++ when_line names.now who (words_of states.now) rule) }
{
    let target = state_at(states, rule.target as usize);
    match rule.guard {
        Guard::SlotIs(local, state) => {
            let slot = slot_at(names, who, usize::from(local));
            put_five(b"when", b"is", slot, state_word(state), target, out)
        }
        Guard::Told(word) => put_four(b"when", b"told", told_at(names, word), target, out),
    }
}

// Appends the transitions of a part.
fn put_whens(
    names: &Names,
    who: u32,
    states: &[Vec<u8>],
    rules: &[Rule],
    out: &mut Vec<u8>,
) -> Result<(), AllocError>
    ensures { OnOk result (out.new.items
        ≡ out.old.items ++ flat_map (when_line names.now who (words_of states.now)) rules.now) }
{
    for rule in rules {
        put_when(names, who, states, *rule, out)?;
    }
    Ok(())
}

// Appends a part of a program.
fn put_part(
    names: &Names,
    who: u32,
    states: &[Vec<u8>],
    number: usize,
    part: &StatePart,
    out: &mut Vec<u8>,
) -> Result<(), AllocError>
    ensures { OnOk result (out.new.items
        ≡ out.old.items ++ part_lines names.now who (words_of states.now) number part.now) }
{
    put_line(b"state", &[state_at(states, number)], out)?;
    put_goals(names, who, &part.goals, out)?;
    put_whens(names, who, states, &part.transitions, out)
}

// Appends the parts of a program.
fn put_parts(
    names: &Names,
    who: u32,
    states: &[Vec<u8>],
    parts: &[StatePart],
    out: &mut Vec<u8>,
) -> Result<(), AllocError>
    ensures { OnOk result (out.new.items
        ≡ out.old.items ++ parts_lines names.now who (words_of states.now) 0 parts.now) }
{
    for number in 0..parts.len() {
        put_part(names, who, states, number, &parts[number], out)?;
    }
    Ok(())
}

// Appends words, each after a space.
fn put_words(words: &[Vec<u8>], out: &mut Vec<u8>) -> Result<(), AllocError>
    ensures { OnOk result (out.new.items ≡ out.old.items ++ flat_map next_word (words_of words.now)) }
{
    for word in words {
        put_next(word, out)?;
    }
    Ok(())
}

// Appends the line that begins a program.
fn put_prog(names: &Names, block: &Block, out: &mut Vec<u8>) -> Result<(), AllocError>
    ensures { OnOk result (out.new.items ≡ out.old.items ++ prog_line names.now block.now) }
{
    out.extend_from_slice(b"prog")?;
    put_next(box_at(names, block.who as usize), out)?;
    put_words(&block.states, out)?;
    out.extend_from_slice(b"\n")
}

// Appends the lines of programs, in their order.
pub fn put_programs(names: &Names, blocks: &[Block], out: &mut Vec<u8>) -> Result<(), AllocError>
    ensures { OnOk result (out.new.items ≡ out.old.items ++ flat_map (program_lines names.now) blocks.now) }
{
    for block in blocks {
        put_program(names, block, out)?;
    }
    Ok(())
}

// Appends the lines of a program.
fn put_program(names: &Names, block: &Block, out: &mut Vec<u8>) -> Result<(), AllocError>
    ensures { OnOk result (out.new.items ≡ out.old.items ++ program_lines names.now block.now) }
{
    put_prog(names, block, out)?;
    put_parts(names, block.who, &block.states, &block.parts, out)
}
