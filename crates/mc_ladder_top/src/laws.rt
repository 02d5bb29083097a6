//! Laws of the program's words, over the definitions alone: each function's contract is the law's sentence.

ghost use Rattle.mc_ladder_top.specs.Words.{WordsAskForBoxes, WordsAskForPictures, WordsAskForSettles, WordsAskUpToFault};

/// Without words a ladder is drawn in UTF-8, with the flag `--ascii` in ASCII, with `--svg` as SVG, and with `--html` as
/// a page, however often the flag stands there; a `--` after it says nothing. Two of these flags together ask for nothing.
/// A word of another kind isn't taken, nor is another flag, `--help` among them.
pub fn words_ask_for_pictures()
    ensures { WordsAskForPictures }
{}

/// The option `--settles A-B`, whose value may stand after a `=`, too, asks for the settles from A to B alone: once, with
/// numbers from 1 on of which the second is no less.
pub fn words_ask_for_settles()
    ensures { WordsAskForSettles }
{}

/// The option `--box NAME` asks for what concerns the box of that name alone, and, where it stands more than once, for
/// what concerns one of these boxes. Without a name it isn't taken.
pub fn words_ask_for_boxes()
    ensures { WordsAskForBoxes }
{}

/// The flag `--up-to-fault`, once or more often and beside any of the others, asks for a ladder of a faulty journal, too, up
/// to its first fault. It takes no value.
pub fn words_ask_up_to_fault()
    ensures { WordsAskUpToFault }
{}
