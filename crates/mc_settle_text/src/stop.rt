// The one line of a settle that stopped: a word, and where it was.

ghost use Rattle.std.specs.Prelude.{◌≡◌, ◌<◌, ◌∷◌, [], length, IfOk};
ghost use Rattle.mc_settle_text.specs.Names.{IsNamedPlace};
ghost use Rattle.mc_settle_text.specs.Stops.{stop_word};
ghost use Rattle.mc_settle_text.specs.Words.{box_word};
ghost use Rattle.mc_table.specs.Words.{line_of};
ghost use Rattle.mc_text.specs.NameLists.{slot_word};

use mc_seq::SettleStop;
use mc_table::put_line;
use mc_text::Names;
use std::alloc::{AllocError, Global};

/// The word for why a settle stopped.
pub fn stop_word(stop: SettleStop) -> &'static [u8]
    ensures { result.now ≡ stop_word stop }
{
    match stop {
        SettleStop::VersionEnd(_) => b"version",
        SettleStop::Ring(_) => b"ring",
        SettleStop::Restless(_) => b"restless",
    }
}

/// The line of a stop at a slot: a word, and the slot by its place.
pub fn print_slot_stop(
    alloc: Global,
    names: &Names,
    word: &[u8],
    place: (u32, u8),
) -> Result<Vec<u8>, AllocError>
    requires { IsNamedPlace names.now place }
    ensures { IfOk result (λ line. line.items ≡ line_of (word.now ∷ slot_word names.now place.0 place.1 ∷ [])) }
{
    let (who, local) = place;
    let mut slot = Vec::new(alloc);
    names.print_slot(who, local, &mut slot)?;
    let mut line = Vec::new(alloc);
    put_line(word, &[&slot], &mut line)?;
    Ok(line)
}

/// The line of a stop at a box.
pub fn print_box_stop(
    alloc: Global,
    names: &Names,
    word: &[u8],
    who: u32,
) -> Result<Vec<u8>, AllocError>
    requires { who < length names.now.boxes }
    ensures { IfOk result (λ line. line.items ≡ line_of (word.now ∷ box_word names.now who ∷ [])) }
{
    let mut line = Vec::new(alloc);
    put_line(word, &[names.box_name(who)], &mut line)?;
    Ok(line)
}
