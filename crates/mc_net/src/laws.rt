//! Laws of texts and of their first worlds, over the definitions alone: each function's contract is the law's sentence.

ghost use Rattle.mc_net.specs.Followed.{JournalsMayFollow};
ghost use Rattle.mc_net.specs.TextLaws.{DeclaresOrFaults, OneFault, OneOrTheOther, UnprogrammedTexts};
ghost use Rattle.mc_net.specs.TextLaws.{EachLineDeclares, SoundLinesMean};
ghost use Rattle.mc_net.specs.TextLaws.{BlocksOfTheFirstBytes, FaultsOfTheFirstBytes, NetsOfTheFirstBytes, SaysTheWhole};
ghost use Rattle.mc_net.specs.TextLaws.{LinesBehind, NetsAreNamed, UnendedTexts};
ghost use Rattle.mc_net.specs.TextLaws.{OneDeclared, OneFirstWorld, OneNet};
ghost use Rattle.mc_net.specs.Versions.{FirstVersions};

/// A text that says something has no fault.
pub fn declares_or_faults()
    ensures { DeclaresOrFaults }
{}

/// A text has one fault at most: one line, and one number.
pub fn one_fault()
    ensures { OneFault }
{}

/// A text says something, or it has a fault.
pub fn one_or_the_other()
    ensures { OneOrTheOther }
{}

/// A line that breaks no rule means something, whatever the lines before it declared. So what a text declares is what
/// its lines mean, one after the other.
pub fn sound_lines_mean()
    ensures means { SoundLinesMean }
    ensures declares { EachLineDeclares }
{}

/// Of a text that is too long, the bytes up to the one with which it passes the limit have the fault of the whole, or
/// declare its network and the blocks of its programs. Where they declare one and no journal may stand after the
/// commands, there are no others.
pub fn faults_of_the_first_bytes()
    ensures faults { FaultsOfTheFirstBytes }
    ensures nets { NetsOfTheFirstBytes }
    ensures blocks { BlocksOfTheFirstBytes }
    ensures whole { SaysTheWhole }
{}

/// What stands after the line that ends the commands of a text are its other lines.
pub fn lines_behind()
    ensures { LinesBehind }
{}

/// Where nothing may stand after the commands, each line is one of the text's, and the text ends where its bytes do.
pub fn unended_texts()
    ensures { UnendedTexts }
{}

/// A text declares one network: it says one thing, what was declared has one first world, and clauses see the same of
/// any two networks that a text declares.
pub fn one_net()
    ensures declared { OneDeclared }
    ensures world { OneFirstWorld }
    ensures net { OneNet }
{}

/// A journal may follow: what a text declares where nothing may stand after its commands, it declares with the line
/// `journal` and any journal after it, too, as long as all of it is within its limit. The journal begins after that line.
pub fn journals_may_follow()
    ensures { JournalsMayFollow }
{}

/// Each slot of a text's first world has the version that the line of its box says.
pub fn first_versions()
    ensures { FirstVersions }
{}

/// In the first world of a text that declares no program, no box has one.
pub fn unprogrammed_texts()
    ensures { UnprogrammedTexts }
{}

/// In the network of a text boxes, slots and told words have names, and no list has a name twice. All of its first
/// world has names, and so has what each command is about. The shapes of boxes allow all commands.
pub fn nets_are_named()
    ensures { NetsAreNamed }
{}
