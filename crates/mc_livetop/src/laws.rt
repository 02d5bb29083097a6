//! Laws of scripts that are run live, over the definitions alone.

ghost use Rattle.mc_livetop.specs.Laws.{LiveNeverStop, LiveStopsShowCause, OneOperatorSettlesBatches};

/// Where one operator asks, the journal of a live run settles the batches of the text, so that `mediactl check` accepts
/// it after the text.
pub fn one_operator_settles_batches()
    ensures { OneOperatorSettlesBatches }
{}

/// A stop of a live run shows its cause in what the script says: at the last version in versions and Hears, at a ring
/// in links, and for one operator in goals, at a restless box in programs and told words.
pub fn live_stops_show_cause()
    ensures { LiveStopsShowCause }
{}

/// So a text that can be run live stops nowhere.
pub fn live_never_stop()
    ensures { LiveNeverStop }
{}
