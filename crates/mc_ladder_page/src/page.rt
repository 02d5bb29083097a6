// A whole page.

ghost use Rattle.std.specs.Prelude.{◌≡◌, ◌-◌, ◌<◌, ◌^◌, length, IfOk};
ghost use Rattle.mc_ladder_page.specs.Data.{page_data};
ghost use Rattle.mc_ladder_page.specs.Pages.{page_of};

use crate::data::put_data;
use crate::frame::{HEAD, MIDDLE, TAIL};
use crate::quoted::put_bytes;
use mc_program_lines::Block;
use mc_script::JournalLine;
use mc_text::Names;
use mc_world::World;
use std::alloc::{AllocError, Global};

/// The page of a journal with its ladder as SVG: what stands beside the ladder is told of the first world of a network,
/// whose boxes, slots, codecs and told words have these names, and whose programs these blocks declare, and of the
/// journal's turns from there on.
pub fn draw_page(
    alloc: Global,
    ladder: &[u8],
    names: &Names,
    blocks: &[Block],
    world: &mut World,
    journal: &[JournalLine],
) -> Result<Vec<u8>, AllocError>
    requires { length journal.now < 2 ^ 32 - 1 }
    ensures { IfOk result (λ page.
        page.items ≡ page_of ladder.now (page_data names.now blocks.now world.old journal.now)) }
{
    let mut page = Vec::from_slice(alloc, HEAD)?;
    put_bytes(ladder, &mut page)?;
    put_bytes(MIDDLE, &mut page)?;
    put_data(alloc, names, blocks, world, journal, &mut page)?;
    put_bytes(TAIL, &mut page)?;
    Ok(page)
}
