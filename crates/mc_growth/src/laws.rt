//! Laws of networks that grow and shrink, over the definitions alone: each function's contract is the law's sentence.

ghost use Rattle.mc_growth.specs.GrowthLaws.{CutKeepsOut, EventWidens, JoinCommutes, JoinKeepsOut, JoinKeepsSound, OutStays, PathsAreWhole, PresentPathsHold};

/// A channel that joins a sound world, at two boxes that have room for a slot and no programs, leaves it sound: its two
/// slots are closed, nothing is under way between them, and all that was there stays.
pub fn join_keeps_sound()
    ensures { JoinKeepsSound }
{}

/// Slots that are out stay closed in each run that makes no Set on them, and nothing comes to them.
pub fn out_stays()
    ensures { OutStays }
{}

/// They stay so where a channel joins, whose own two slots are not out.
pub fn join_keeps_out()
    ensures { JoinKeepsOut }
{}

/// The slots of a channel that is cut stay so from then on, where none of them is in use. The rest of the world need
/// not be quiet.
pub fn cut_keeps_out()
    ensures { CutKeepsOut }
{}

/// A path is in or out as a whole: no path goes over a slot that is out and over one that isn't.
pub fn paths_are_whole()
    ensures { PathsAreWhole }
{}

/// After a settled segment each path of the network is as the path table says.
pub fn present_paths_hold()
    ensures { PresentPathsHold }
{}

/// What a sound box without a program does in an event it does with one slot more, too: it sends the same, and all else
/// of it is the same then.
pub fn event_widens()
    ensures { EventWidens }
{}

/// A run is a run of the network that a channel has joined, too, and comes to the same world with the channel: whether
/// a channel joins before a run or after it is the same.
pub fn join_commutes()
    ensures { JoinCommutes }
{}
