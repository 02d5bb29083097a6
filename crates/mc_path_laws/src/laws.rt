//! Laws of paths, over the definitions alone: each function's contract is the law's sentence.

ghost use Rattle.mc_path_laws.specs.PathLaws.{EachEndOnce, EachSlotOnce, PathsPassOnce, PathsOfOneMedium, QuietPaths, CleanPaths, RestedPathsHold, SettledPathsHold, OwedSinceQuiet};
ghost use Rattle.mc_path_laws.specs.Rests.{EndsAtRest, LinksAtRest};

/// Each end of a sound world is an end of exactly one of its paths: the walk from there comes to another end, and from
/// that end back.
pub fn each_end_once()
    ensures { EachEndOnce }
{}

/// Each slot of a sound world stands on a ring, and no path goes over it, or on none, and exactly one path goes over
/// it.
pub fn each_slot_once()
    ensures { EachSlotOnce }
{}

/// No path of a sound world goes over a slot twice, nor over a tunnel.
pub fn paths_pass_once()
    ensures { PathsPassOnce }
{}

/// All slots of a path of a sound world have one medium, which is that of its lower end's tunnel.
pub fn paths_of_one_medium()
    ensures { PathsOfOneMedium }
{}

/// Where nothing is under way in a sound world, each path, over however many tunnels and links, is closed at all its
/// slots, or flows at all of them with each end having the other's newest descriptor and the choice for its own. An end
/// that closes makes it closed, and one that opens and owes no retry makes it flow.
pub fn quiet_paths()
    ensures { QuietPaths }
{}

/// After a moment at which nothing was under way, while only Takes and Retries come, no close is ever under way on a
/// path without an end that closes, over however many tunnels and links.
pub fn clean_paths()
    ensures { CleanPaths }
{}

/// Between two moments at which nothing is under way, where only Takes and Retries come, and among them each Retry that
/// is owed at the first: then each path is as the path table says.
pub fn rested_paths_hold()
    ensures { RestedPathsHold }
{}

/// After each settled segment, whatever its batch and the order of its turns, each path is as the path table says:
/// closed where an end closes, flowing where one opens and none closes, either of the two for hold against hold; and
/// where it flows its ends have each other's newest descriptor and the choice for their own.
pub fn settled_paths_hold()
    ensures { SettledPathsHold }
{}

/// After a moment at which nothing was under way, while only Takes and Retries come, a slot that owes a retry owed it
/// at that moment, too.
pub fn owed_since_quiet()
    ensures { OwedSinceQuiet }
{}

/// An end, whose slot keeps what its state allows, is at rest exactly where the table by its goal and its state has it:
/// under close it is closed or closing; else it isn't opened, and where it flows it has sent its own descriptor and the
/// choice for what it got.
pub fn ends_at_rest()
    ensures { EndsAtRest }
{}

/// A link, whose slots keep what their states allow, is at rest exactly where the table by their states has it: one of
/// them is opening or closing, or both are closed, or both flow and each has sent on the descriptor that the other got,
/// and the selector that the other got, where that answers what it got itself.
pub fn links_at_rest()
    ensures { LinksAtRest }
{}
