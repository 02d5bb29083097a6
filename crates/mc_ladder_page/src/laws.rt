//! What a page's rows give, one after the other.

ghost use Rattle.mc_ladder_page.specs.Replaying.{RowsGiveWorlds};

/// The rows of a page up to any give, one after the other, what the page shows of the world after the line of the last.
pub fn rows_give_worlds()
    ensures { RowsGiveWorlds }
{}
