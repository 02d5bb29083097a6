// The sections of a text, and the words that open its lines.

ghost use Rattle.std.specs.Prelude.{◌≡◌};
ghost use Rattle.mc_lines.specs.Rules.{rank};

use mc_script::keyword::CommandWord;

/// A part of a text. They stand in this order.
#[derive(Clone, Copy, PartialEq, Eq, Debug)]
pub enum Section {
    Version,
    Codecs,
    Boxes,
    Channels,
    Programs,
    Begin,
    Commands,
}

impl Section {
    /// The place of the section in the order.
    pub fn rank(self) -> u8
        ensures { result ≡ rank self }
    {
        match self {
            Section::Version => 0,
            Section::Codecs => 1,
            Section::Boxes => 2,
            Section::Channels => 3,
            Section::Programs => 4,
            Section::Begin => 5,
            Section::Commands => 6,
        }
    }
}

/// The word that opens a line.
#[derive(Clone, Copy, PartialEq, Eq, Debug)]
pub enum Keyword {
    Media,
    Codec,
    Dev,
    Feat,
    Send,
    Chan,
    Also,
    Prog,
    State,
    Goal,
    When,
    Begin,
    /// It opens a line only where a journal may stand after the commands.
    Journal,
    /// It opens a line only where lines by which the network grows may stand after the commands.
    Grow,
    /// The word of a command. In the programs `link` opens a part's line.
    Command(CommandWord),
}
