//! Which scripts of networks that grow come to their end: by what their plans say, before any of it is run.
#![tactic(auto)]

ghost use Rattle.mc_grown_rest.specs.GrowingTexts.{FirstWorldsAreClosed, TextsNeverStop};
ghost use Rattle.mc_grown_rest.specs.RestLaws.{NewAreClosed, ScriptsComeToEnd, StopsShow};

/// All slots of a sound network of new boxes are closed, whatever programs the boxes have.
pub fn new_are_closed()
    ensures { NewAreClosed }
{}

/// A script that stops shows this of its plans: at the last version some slot's first version and its Hears are more
/// than that together; at a ring the goals or named links make one; at a restless box not all programs go by words, of
/// which few are told; and at a cut the commands before it leave another goal than close at a slot of its channel.
pub fn stops_show()
    ensures { StopsShow }
{}

/// So a script comes to its end where no command meets the last version, no settle meets a ring, programs come to rest,
/// and the commands before each cut leave the goal close at each slot of its channel.
pub fn scripts_come_to_end()
    ensures { ScriptsComeToEnd }
{}

/// In the first world of a text all slots are closed, whatever programs its boxes have.
pub fn first_worlds_are_closed()
    ensures { FirstWorldsAreClosed }
{}

/// The script of a text that shows that it comes to its end doesn't stop, whichever plans stand for the text.
pub fn texts_never_stop()
    ensures { TextsNeverStop }
{}
