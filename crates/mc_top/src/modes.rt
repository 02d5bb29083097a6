//! What a mode reads, draws and reports.
ghost use Rattle.std.specs.Prelude.{◌≡◌};
ghost use Rattle.mc_top.specs.Drawn.{draws_state};
ghost use Rattle.mc_top.specs.Modes.{draws_from, has_box, has_feature, report_of, tail_of};
ghost use Rattle.mc_net.specs.Nets.{NamesAll};

use crate::report::Report;
use mc_box::Kind;
use mc_net::Tail;
use mc_text::{Draws, Names};
use mc_words::Mode;
use mc_world::World;

/// What may stand after the commands of a mode's text.
pub fn tail_of(mode: Mode) -> Tail
    ensures { result ≡ tail_of mode }
{
    match mode {
        Mode::Run { .. } => Tail::Nothing,
        Mode::One { .. } => Tail::Nothing,
        Mode::Check { .. } => Tail::Journal,
        Mode::Gen { .. } => Tail::Nothing,
        Mode::Scene { .. } => Tail::Nothing,
        Mode::Conf { .. } => Tail::Nothing,
    }
}

/// The draws by which a mode settles. None where it settles in parts, or settles nothing.
pub fn draws_from(mode: Mode) -> Option<Draws>
    ensures { draws_state result ≡ draws_from mode }
{
    match mode {
        Mode::Run { .. } => None,
        Mode::One { state, .. } => Some(Draws { state }),
        Mode::Check { .. } => None,
        Mode::Gen { .. } => None,
        Mode::Scene { .. } => None,
        Mode::Conf { .. } => None,
    }
}

/// What a mode reports at its settles.
pub fn report_of(mode: Mode, names: &Names) -> Report
    ensures { result ≡ report_of mode names.now }
{
    match mode {
        Mode::Run { .. } => Report::Paths,
        Mode::One { .. } => Report::Paths,
        Mode::Check { .. } => Report::Paths,
        Mode::Gen { number, size } => Report::Summary { number, size },
        Mode::Scene { .. } => Report::Paths,
        Mode::Conf { name } => Report::Conference {
            who: names.find_box(name.as_slice()).unwrap_or(0),
        },
    }
}

/// Whether a feature has the name of the box that a mode is about, if it is about one.
pub fn has_box(mode: Mode, names: &Names, world: &World) -> bool
    requires { NamesAll names.now world.now }
    ensures { result ≡ has_box mode names.now world.now }
{
    match mode {
        Mode::Run { .. } => true,
        Mode::One { .. } => true,
        Mode::Check { .. } => true,
        Mode::Gen { .. } => true,
        Mode::Scene { .. } => true,
        Mode::Conf { name } => has_feature(names, world, name.as_slice()),
    }
}

// Whether a feature has this name.
fn has_feature(names: &Names, world: &World, name: &[u8]) -> bool
    requires { NamesAll names.now world.now }
    ensures { result ≡ has_feature names.now world.now name.now }
{
    match names.find_box(name) {
        Some(who) => world.boxes()[who as usize].kind() == Kind::Feature,
        None => false,
    }
}
