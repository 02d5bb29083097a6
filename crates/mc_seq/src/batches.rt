// What a settle asks of a world and a batch of commands.

ghost use Rattle.std.specs.Prelude.{◌≡◌, ◌↔◌, false, is_some};
ghost use Rattle.std.specs.List.{list_all, list_any};
ghost use Rattle.mc_box.specs.BoxEvents.{is_command};
ghost use Rattle.mc_model.specs.Shapes.{is_allowed};
ghost use Rattle.mc_model.specs.Unprogrammed.{HasNoPrograms};

use mc_box::{Event, MediaBox, Turn};
use mc_world::World;

/// Whether the world allows each command, so that the batch can be settled.
pub fn fits(world: &World, batch: &[Turn]) -> bool
    ensures { result ≡ list_all (is_allowed world.now) batch.now }
{
    batch.iter().all(|turn| is_allowed(world, *turn))
}

// Whether the world allows a command: its box is there, and enables it.
#[tactic(auto, using(mc_box::proofs::ShapeEnables::shape_enables))]
fn is_allowed(world: &World, turn: Turn) -> bool
    ensures { result ≡ is_allowed world.now turn }
{
    let boxes = world.boxes();
    (turn.who as usize) < boxes.len()
        && is_command(turn.event)
        && boxes[turn.who as usize].enabled(&turn.event)
}

/// Whether an event comes from a command.
pub fn is_command(event: Event) -> bool
    ensures { result ≡ is_command event }
{
    matches!(event, Event::Set(_) | Event::Media(_) | Event::Tell(_))
}

/// Whether some box of a world has a program.
pub fn has_programs(world: &World) -> bool
    ensures { (result ≡ false) ↔ HasNoPrograms world.now }
{
    some_has_program(world.boxes())
}

// Whether one of these boxes has a program.
fn some_has_program(boxes: &[MediaBox]) -> bool
    ensures { result ≡ list_any (λ one. is_some one.program) boxes.now }
{
    boxes.iter().any(|one| one.has_program())
}
