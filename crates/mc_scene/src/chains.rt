// Chains of features between two devices, as they are drawn.

ghost use Rattle.std.specs.Prelude.{◌≡◌, ◌<◌, ◌+◌, ◌%◌, IfOk};
ghost use Rattle.mc_scene.specs.Chains.{draw_at, state_after_draws};
ghost use Rattle.mc_scene.specs.Chains.{drawn_chain, drawn_chains, drawn_codec_run, drawn_goal};

use mc_text::Draws;
use std::alloc::{AllocError, Global};

// So many codecs of a device, by their numbers: each is one more than the one before it, and 0 comes after 7.
#[derive(Clone, Copy)]
pub struct CodecRun {
    pub count: u32,
    pub first: u32,
}

// What a chain's right end is told first.
#[derive(Clone, Copy)]
pub enum FirstGoal {
    Open,
    Hold,
    Close,
}

// A chain: its number, how many features stand in it, the codecs of the devices at its left and its right end, and the
// first goal of the right end.
#[derive(Clone, Copy)]
pub struct Chain {
    pub number: u32,
    pub features: u32,
    pub left: CodecRun,
    pub right: CodecRun,
    pub goal: FirstGoal,
}

impl CodecRun {
    // The codec at a place.
    pub fn codec(self, place: u32) -> u64
        ensures { result ≡ (self.first + place) % 8 }
    {
        (u64::from(self.first) + u64::from(place)) % 8
    }
}

// So many chains, each drawn after the one before it.
pub fn draw_chains(alloc: Global, state: u32, size: u32) -> Result<Vec<Chain>, AllocError>
    ensures { IfOk result (λ chains. chains.items ≡ drawn_chains state size) }
{
    let mut draws = Draws { state };
    let mut chains = Vec::with_capacity(alloc, size as usize)?;
    for number in 0..size {
        let chain = draw_chain(number, &mut draws);
        chains.push(chain)?;
    }
    Ok(chains)
}

// The chain that the next six draws make.
fn draw_chain(number: u32, draws: &mut Draws) -> Chain
    ensures chain { result ≡ drawn_chain number draws.old.state }
    ensures after { draws.new.state ≡ state_after_draws 6 draws.old.state }
{
    let features = draw_below(4, draws);
    let left = draw_run(draws);
    let right = draw_run(draws);
    let goal = drawn_goal(draw_below(3, draws));
    Chain {
        number,
        features,
        left,
        right,
        goal,
    }
}

// The codecs that the next two draws make: one to four of them, and any of the eight as the first.
fn draw_run(draws: &mut Draws) -> CodecRun
    ensures run { result ≡ drawn_codec_run draws.old.state }
    ensures after { draws.new.state ≡ state_after_draws 2 draws.old.state }
{
    let count = 1 + draw_below(4, draws);
    let first = draw_below(8, draws);
    CodecRun { count, first }
}

// The next draw modulo a count.
fn draw_below(count: u32, draws: &mut Draws) -> u32
    requires { 0 < count }
    ensures drawn { result ≡ draw_at 0 draws.old.state % count }
    ensures below { result < count }
    ensures after { draws.new.state ≡ state_after_draws 1 draws.old.state }
{
    draws.draw() % count
}

fn drawn_goal(drawn: u32) -> FirstGoal
    ensures { result ≡ drawn_goal drawn }
{
    if drawn == 0 {
        FirstGoal::Open
    } else if drawn == 1 {
        FirstGoal::Hold
    } else {
        FirstGoal::Close
    }
}
