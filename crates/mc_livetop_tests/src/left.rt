// A box that is told more than the turns that it makes while it runs freely.

use crate::fault::TestFault;
use crate::phones::{settled, two_phones};
use crate::top::is_equal_at;
use mc_box::{Event, MediaChange, Turn};
use mc_live_settle::deal;
use mc_signal::Medium;
use std::alloc::{AllocError, Global};
use std::process::Abort;

const OPERATORS: u32 = 8;

// A box makes at most 4,096 turns while it runs freely.
const COMMANDS: u32 = 5_000;

// The command at a place of the batch. Those of an operator are of a slot of its own, by which they are known.
fn command_at(place: u32) -> Turn {
    let slot = (place % OPERATORS) as u8;
    let on = place / OPERATORS % 3 == 0;
    Turn {
        who: 0,
        event: Event::Media(MediaChange::Talk(slot, on)),
    }
}

fn all_commands(alloc: Global) -> Result<Vec<Turn>, AllocError> {
    let mut batch = Vec::new(alloc);
    for place in 0..COMMANDS {
        batch.push(command_at(place))?;
    }
    Ok(batch)
}

// Whether a turn is a command of the first box.
fn is_command(turn: Turn) -> bool {
    turn.who == 0 && matches!(turn.event, Event::Media(_))
}

// Whether it is one of this slot.
fn is_command_of(turn: Turn, slot: usize) -> bool {
    match turn.event {
        Event::Media(MediaChange::Talk(at, _)) => turn.who == 0 && usize::from(at) == slot,
        _ => false,
    }
}

// The commands of this slot among the turns.
fn commands_of(alloc: Global, turns: &[Turn], slot: usize) -> Result<Vec<Turn>, AllocError> {
    let mut commands = Vec::new(alloc);
    for turn in turns {
        if is_command_of(*turn, slot) {
            commands.push(*turn)?;
        }
    }
    Ok(commands)
}

// Among the turns are the commands of each operator, in the order in which they were dealt.
fn keep_hands(
    rt: &impl Abort,
    alloc: Global,
    batch: &[Turn],
    turns: &[Turn],
) -> Result<(), AllocError> {
    let hands = deal(alloc, OPERATORS, batch)?;
    for (slot, hand) in hands.iter().enumerate() {
        let commands = commands_of(alloc, turns, slot)?;
        is_equal_at(rt, &commands.as_slice(), &hand.as_slice(), "a hand");
    }
    Ok(())
}

#[test]
fn what_a_phone_was_asked_besides_is_settled(rt: HostRuntime) -> Result<(), TestFault> {
    let world = two_phones(rt.alloc(), &[Medium::Audio; 8], 1)?;
    let batch = all_commands(rt.alloc())?;
    let Ok(done) = settled(&rt, rt.alloc(), OPERATORS, world, &batch) else {
        return Err(TestFault::Ended);
    };
    let count = done.turns.iter().filter(|turn| is_command(**turn)).count();
    is_equal_at(&rt, &count, &(COMMANDS as usize), "all hands");
    keep_hands(&rt, rt.alloc(), &batch, &done.turns)?;
    Ok(())
}
