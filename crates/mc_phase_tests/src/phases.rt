// Two phones, and operators who ask them while they run.

use crate::fault::TestFault;
use crate::hands::may_ask;
use mc_box::{Change, Event, Kind, MediaChange, Turn};
use mc_desk::limit::OPERATOR_LIMIT;
use mc_flight::limit::SEAT_LIMIT;
use mc_io::OpenGate;
use mc_phase::{Phase, live_phase};
use mc_plan::{BoxPlan, Plan};
use mc_signal::{CodecList, Medium};
use mc_slot::Goal;
use mc_world::World;
use std::alloc::{AllocError, Global};
use std::process::Abort;
use std::sync::Wait;
use std::thread::Threads;

const OPENS: Turn = Turn {
    who: 0,
    event: Event::Set(Change::End(0, Goal::Open)),
};

const HOLDS: Turn = Turn {
    who: 1,
    event: Event::Set(Change::End(0, Goal::Hold)),
};

const TALKS: Turn = Turn {
    who: 0,
    event: Event::Media(MediaChange::Talk(0, true)),
};

// A device that receives and sends the one codec 0.
fn device() -> BoxPlan {
    let mut codecs = CodecList::none();
    let _ = codecs.add(0);
    BoxPlan {
        kind: Kind::Device,
        codecs,
        sends: codecs,
        first_version: 1,
    }
}

fn lay_two_phones(plan: &mut Plan) -> Result<(), TestFault> {
    plan.add(device())?;
    plan.add(device())?;
    plan.join(0, 1, &[Medium::Audio])?;
    Ok(())
}

// Two phones with a channel between them.
fn two_phones(alloc: Global) -> Result<World, TestFault> {
    let mut plan = Plan::new(alloc);
    lay_two_phones(&mut plan)?;
    Ok(plan.world()?)
}

// A phase in which operators ask for these hands.
fn phase_of<R: Threads + Wait + Sync + Abort + AllocGlobal>(
    rt: &R,
    world: World,
    hands: &[Vec<Turn>],
) -> Result<Phase, AllocError> {
    assert!(rt; may_ask(&world, hands));
    assert!(rt; world.boxes().len() <= SEAT_LIMIT as usize);
    assert!(rt; !hands.is_empty());
    assert!(rt; hands.len() <= OPERATOR_LIMIT as usize);
    live_phase(rt, rt.alloc(), &OpenGate, world, hands)
}

// What a box took of an operator: so many commands, and then its end.
fn took(rt: &impl Abort, phase: &Phase, who: usize, operator: u32, commands: &[Event]) {
    assert!(rt; who < phase.taken.len());
    let mut met = 0;
    for request in &phase.taken[who] {
        if request.operator == operator {
            assert!(rt; request.event == commands.get(met).copied());
            assert!(rt; met <= commands.len());
            met += 1;
        }
    }
    assert!(rt; met == commands.len() + 1);
}

// How many turns of a box there are.
fn turns_of(turns: &[Turn], who: u32) -> usize {
    turns.iter().filter(|turn| turn.who == who).count()
}

#[test]
fn two_operators_ask_two_phones(rt: HostRuntime) -> Result<(), TestFault> {
    let world = two_phones(rt.alloc())?;
    let hands = [
        [OPENS].to_vec(rt.alloc())?,
        [HOLDS, TALKS].to_vec(rt.alloc())?,
    ];
    let phase = phase_of(&rt, world, &hands)?;
    took(&rt, &phase, 0, 0, &[OPENS.event]);
    took(&rt, &phase, 0, 1, &[TALKS.event]);
    took(&rt, &phase, 1, 0, &[]);
    took(&rt, &phase, 1, 1, &[HOLDS.event]);
    assert!(rt; phase.left.turns.is_empty());
    assert!(rt; phase.turns.contains(&OPENS));
    assert!(rt; phase.turns.contains(&HOLDS));
    assert!(rt; phase.flight.taken <= phase.flight.sent);
    Ok(())
}

// So many operators, each with the same hand of so many commands.
fn many_hands(
    alloc: Global,
    operators: usize,
    commands: usize,
) -> Result<Vec<Vec<Turn>>, AllocError> {
    let mut hands = Vec::with_capacity(alloc, operators)?;
    for _operator in 0..operators {
        hands.push(vec![in alloc; TALKS; commands]?)?;
    }
    Ok(hands)
}

// A box makes at most 4,096 turns, and what it was asked besides is left to it.
#[test]
fn eight_operators_ask_a_phone_for_much(rt: HostRuntime) -> Result<(), TestFault> {
    let world = two_phones(rt.alloc())?;
    let hands = many_hands(rt.alloc(), 8, 700)?;
    let phase = phase_of(&rt, world, &hands)?;
    let made = turns_of(&phase.turns, 0);
    assert!(rt; made > 4_032);
    assert!(rt; made <= 4_096);
    assert!(rt; phase.left.turns.len() < 5_600);
    assert!(rt; made + phase.left.turns.len() == 5_600);
    Ok(())
}

// A network without boxes has nobody to ask.
#[test]
fn a_network_without_boxes_runs(rt: HostRuntime) -> Result<(), TestFault> {
    let plan = Plan::new(rt.alloc());
    let world = plan.world()?;
    let hands = [Vec::new(rt.alloc())];
    let phase = phase_of(&rt, world, &hands)?;
    assert!(rt; phase.turns.is_empty());
    assert!(rt; phase.taken.is_empty());
    assert!(rt; phase.flight.sent == 0);
    Ok(())
}
