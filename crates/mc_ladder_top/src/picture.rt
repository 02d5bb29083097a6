// The forms in which a ladder is drawn.

ghost use Rattle.std.specs.Prelude.{◌≡◌, ◌-◌, ◌<◌, ◌^◌, length, IfOk};
ghost use Rattle.mc_cause.specs.CauseLaws.{NoneCloses};
ghost use Rattle.mc_ladder_choice.specs.Surveys.{survey_of};
ghost use Rattle.mc_ladder_top.specs.Drawn.{ladder_bytes};

use mc_ladder::{Style, draw_ladder};
use mc_ladder_choice::{Choice, Survey};
use mc_ladder_svg::draw_svg;
use mc_program_lines::Block;
use mc_script::JournalLine;
use mc_text::Names;
use mc_world::World;
use std::alloc::{AllocError, Global};

/// A form in which a ladder is drawn.
#[derive(Clone, Copy)]
pub enum Picture {
    /// As text, in these bytes.
    Text(Style),
    Svg,
    /// As SVG in a page, which tells beside it what stands after each row.
    Page,
}

// Draws what is chosen of a journal, of which this was found before, from the first world of a network on: for a page the
// ladder alone.
pub fn draw(
    alloc: Global,
    picture: Picture,
    names: &Names,
    blocks: &[Block],
    choice: &Choice,
    found: &Survey,
    world: &mut World,
    journal: &[JournalLine],
) -> Result<Vec<u8>, AllocError>
    requires few { length journal.now < 2 ^ 32 - 1 }
    requires none { NoneCloses world.old }
    requires found { found.now ≡ survey_of choice.now world.old journal.now }
    ensures { IfOk result (λ drawn.
        drawn.items ≡ ladder_bytes picture names.now blocks.now world.old choice.now journal.now) }
{
    match picture {
        Picture::Text(style) => {
            draw_ladder(alloc, style, names, blocks, choice, found, world, journal)
        }
        Picture::Svg | Picture::Page => {
            draw_svg(alloc, names, blocks, choice, found, world, journal)
        }
    }
}
