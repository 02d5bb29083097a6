//! Laws of lines, over the definitions alone: each function's contract is the law's sentence.

ghost use Rattle.mc_lines.specs.DetailLaws.{TellsByRule};

/// Of a line's fault a word that stands in the line is told where one word is at fault (4, 5 and 11), the limit where
/// one is passed (14), and else nothing.
pub fn tells_by_rule()
    ensures { TellsByRule }
{}
