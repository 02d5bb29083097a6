// The words of a network's lines. Where no name has a number, a word stands there that is none.

ghost use Rattle.std.specs.Prelude.{◌≡◌};
ghost use Rattle.mc_table.specs.Words.{medium_word};
ghost use Rattle.mc_text.specs.NameLists.{slot_names};
ghost use Rattle.mc_program_lines.specs.Programs.{words_of};
ghost use Rattle.mc_net_text.specs.Lines.{state_word, word_at};

use mc_signal::Medium;
use mc_slot::State;
use mc_text::Names;

// The name of a codec.
pub fn codec_at(names: &Names, codec: u8) -> &[u8]
    ensures { result.now ≡ word_at names.now.codecs codec }
{
    if usize::from(codec) >= names.codec_count() {
        return b"?";
    }
    names.codec_name(codec)
}

// The name of a box.
pub fn box_at(names: &Names, who: usize) -> &[u8]
    ensures { result.now ≡ word_at names.now.boxes who }
{
    if who >= names.box_count() {
        return b"?";
    }
    names.box_name(who as u32)
}

// The name of a slot of a box.
pub fn slot_at(names: &Names, who: u32, local: usize) -> &[u8]
    ensures { result.now ≡ word_at (slot_names names.now who) local }
{
    if who as usize >= names.box_count() {
        return b"?";
    }
    if local >= names.slot_count(who) {
        return b"?";
    }
    names.slot_name(who, local as u8)
}

// A told word.
pub fn told_at(names: &Names, word: u8) -> &[u8]
    ensures { result.now ≡ word_at names.now.told word }
{
    if usize::from(word) >= names.told_count() {
        return b"?";
    }
    names.told_name(word)
}

// The name of a program's state.
pub fn state_at(states: &[Vec<u8>], number: usize) -> &[u8]
    ensures { result.now ≡ word_at (words_of states.now) number }
{
    match states.get(number) {
        Some(name) => name.as_slice(),
        None => b"?",
    }
}

// The word of a medium.
pub fn medium_word(medium: Medium) -> &'static [u8]
    ensures { result.now ≡ medium_word medium }
{
    match medium {
        Medium::Audio => b"audio",
        Medium::Video => b"video",
    }
}

// The word of a slot's state.
pub fn state_word(state: State) -> &'static [u8]
    ensures { result.now ≡ state_word state }
{
    match state {
        State::Closed => b"closed",
        State::Opening => b"opening",
        State::Opened => b"opened",
        State::Flowing => b"flowing",
        State::Closing => b"closing",
    }
}
