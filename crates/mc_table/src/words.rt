// The words of printed lines.
ghost use Rattle.std.specs.Prelude.{◌≡◌, ◌++◌, ◌∷◌, []};
ghost use Rattle.mc_script.specs.Meaning.{goal_word};
ghost use Rattle.mc_table.specs.Words.{codec_word, flow_word, medium_word, IsNamedCodec};

use mc_signal::Medium;
use mc_slot::Goal;
use mc_text::Names;

/// The goals of a path's two ends, with a space before each and one after both.
pub fn goals_words(low: Goal, high: Goal) -> &'static [u8]
    ensures { result.now ≡ 32 ∷ goal_word low ++ 32 ∷ goal_word high ++ 32 ∷ [] }
{
    match (low, high) {
        (Goal::Open, Goal::Open) => b" open open ",
        (Goal::Open, Goal::Close) => b" open close ",
        (Goal::Open, Goal::Hold) => b" open hold ",
        (Goal::Close, Goal::Open) => b" close open ",
        (Goal::Close, Goal::Close) => b" close close ",
        (Goal::Close, Goal::Hold) => b" close hold ",
        (Goal::Hold, Goal::Open) => b" hold open ",
        (Goal::Hold, Goal::Close) => b" hold close ",
        (Goal::Hold, Goal::Hold) => b" hold hold ",
    }
}

/// Whether a path flows, its medium, and the line end after them.
pub fn state_words(flowing: bool, medium: Medium) -> &'static [u8]
    ensures { result.now ≡ flow_word flowing ++ 32 ∷ medium_word medium ++ 10 ∷ [] }
{
    match (flowing, medium) {
        (true, Medium::Audio) => b"flowing audio\n",
        (true, Medium::Video) => b"flowing video\n",
        (false, Medium::Audio) => b"closed audio\n",
        (false, Medium::Video) => b"closed video\n",
    }
}

/// The word for a codec that is heard, or for none.
pub fn codec_word<'a>(names: &'a Names, codec: Option<u8>) -> &'a [u8]
    requires { IsNamedCodec names.now codec }
    ensures { result.now ≡ codec_word names.now codec }
{
    match codec {
        Some(codec) => names.codec_name(codec),
        None => b"none",
    }
}
