//! What holds of all lists of words.

ghost use Rattle.mc_words.specs.Commands.{GrowingIsNoMode, WordsAskForOneMode};

/// No list of words asks for two modes.
pub fn words_ask_for_one_mode()
    ensures { WordsAskForOneMode }
{}

/// Words that ask for a script in which channels join and are cut ask for no mode.
pub fn growing_is_no_mode()
    ensures { GrowingIsNoMode }
{}
