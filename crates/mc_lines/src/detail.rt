//! What is known of a line's fault beside the number of its rule.

/// What is known of a line's fault beside the number of its rule.
#[derive(Clone, Copy, Debug, PartialEq, Eq)]
pub enum Detail {
    /// Nothing more.
    Nothing,
    /// The word at this place of the line, counted from 0 with the word that opens it, is at fault.
    Word { place: usize, why: Why },
    /// This limit was passed.
    Limit(Limit),
}

/// Why a word is at fault.
#[derive(Clone, Copy, Debug, PartialEq, Eq)]
pub enum Why {
    /// It isn't declared.
    Undeclared,
    /// Its box has no such slot.
    NoSlot,
    /// No line may begin with it here.
    Opening,
    /// It isn't one of those that may stand in its place.
    Fixed,
    /// It isn't spelt as a name.
    Misspelt,
    /// It isn't the listed state that is next.
    NotNext,
    /// The box that it names is no device.
    NoDevice,
    /// The box that it names is no feature.
    NoFeature,
    /// The box that it names has no program.
    NoProgram,
}

/// A limit of texts that a line may pass.
#[derive(Clone, Copy, Debug, PartialEq, Eq)]
pub enum Limit {
    /// The codecs of a text.
    Codecs,
    /// The codecs of one line.
    ListedCodecs,
    /// The boxes of a text.
    Boxes,
    /// The channels of a text.
    Channels,
    /// The tunnels of a channel.
    Tunnels,
    /// The slots of a box.
    Slots,
    /// The states of a program.
    States,
    /// The transitions of a state.
    Transitions,
    /// The told words of a text.
    ToldWords,
    /// The commands of a text.
    Commands,
}
