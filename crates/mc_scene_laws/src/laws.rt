//! Laws of texts that are made, over the definitions alone: each function's contract is the law's sentence.

ghost use Rattle.mc_scene_laws.specs.GeneratedLaws.{ChainsAreTexts, DrawnChainsAreNumbered, GeneratedAreTexts};
ghost use Rattle.mc_scene_laws.specs.GeneratedLaws.{GeneratedAreUnprogrammed, GeneratedComeToRest, GeneratedLeaveDecided};
ghost use Rattle.mc_scene_laws.specs.SceneLaws.{ScenesAreTexts, ScenesComeToRest};

/// The text of each scene is in the grammar.
pub fn scenes_are_texts()
    ensures { ScenesAreTexts }
{}

/// The batches of each scene come to rest, whatever the order of the turns: programs go by told words, and no chain of
/// links and tunnels can be closed.
pub fn scenes_come_to_rest()
    ensures { ScenesComeToRest }
{}

/// The text of one to fifty chains is in the grammar, and declares their boxes, channels and commands, if the chains
/// are numbered in their order from 0 on, with at most three features each, and one to four of the eight codecs at each
/// end.
pub fn chains_are_texts()
    ensures { ChainsAreTexts }
{}

/// Drawn chains are such chains, whatever number they are drawn by.
pub fn drawn_chains_are_numbered()
    ensures { DrawnChainsAreNumbered }
{}

/// So each generated text of one to fifty chains is in the grammar, and declares the boxes, channels and commands of
/// its chains.
pub fn generated_are_texts()
    ensures { GeneratedAreTexts }
{}

/// No box of a generated text has a program.
pub fn generated_are_unprogrammed()
    ensures { GeneratedAreUnprogrammed }
{}

/// The batches of a generated text come to rest: a chain of links and tunnels goes one way, and so is never closed.
pub fn generated_come_to_rest()
    ensures { GeneratedComeToRest }
{}

/// No batch of a generated text leaves a path of hold against hold: only right devices hold, and each path leads from
/// one side of its chain to the other.
pub fn generated_leave_decided()
    ensures { GeneratedLeaveDecided }
{}
