//! What is known of a line's fault beside the number of its rule.

ghost use Rattle.std.specs.Prelude.{◌≡◌, ◌<◌, ◌^◌, IfSome, length, not, position};
ghost use Rattle.std.specs.List.{slice_get};
ghost use Rattle.std.specs.Option.{is_none, option_copied};
ghost use Rattle.mc_text.specs.Lines.{words};
ghost use Rattle.mc_text.specs.NameLists.{place_of};
ghost use Rattle.mc_text.specs.Spelling.{is_spelt};
ghost use Rattle.mc_script.specs.Places.{box_named, is_no, lacks, lacks_slot};
ghost use Rattle.mc_script.specs.Rules.{is_no_device, is_no_feature};
ghost use Rattle.mc_program_lines.specs.Programs.{waits_for};
ghost use Rattle.mc_lines.specs.Details.{awaited, detail_by, detail_of, first_misspelt, first_undeclared, has_version, is_full_box, no_slot_by_link, no_slot_place, open_box, open_part, opening, passed_by_also, passed_by_channel, passed_by_device, passed_by_when, passed_limit, target_place, undeclared_by_channel, undeclared_by_device, undeclared_by_send, undeclared_by_tell, undeclared_place, wrong_in_also, wrong_in_channel, wrong_in_command, wrong_in_goal, wrong_in_media, wrong_in_name, wrong_in_program, wrong_in_send, wrong_in_state, wrong_in_wait, wrong_in_when, wrong_word};
ghost use Rattle.mc_lines.specs.Forms.{IsInForm};
ghost use Rattle.mc_lines.specs.Rules.{is_full, spelt_medium};

use crate::codec_words::codec_words;
use crate::detail::{Detail, Limit, Why};
use crate::keyword::keyword_of;
use crate::places::{begins_digit, fixed_medium};
use crate::reader::Reader;
use crate::section::{Keyword, Section};
use mc_program_lines::limit::TRANSITION_LIMIT;
use mc_program_lines::{StatePart, WaitWord};
use mc_script::keyword::CommandWord;
use mc_script::places::{is_misspelt, known_box, needs_device, needs_feature};
use mc_script::rule::{LIMIT_PASSED, NO_SUCH_SLOT, UNDECLARED, WRONG_WORD};
use mc_text::limit::{BOX_LIMIT, SLOT_LIMIT};
use mc_text::{FirstWords, Names, Words, is_spelt};

impl Reader {
    /// What is known of a line's fault beside the number of its rule, which is the least that the line breaks. The
    /// line is the next, and isn't read.
    pub fn detail(&self, number: u8, line: &[u8]) -> Detail
        requires { IsInForm self.now }
        ensures { result ≡ detail_of self.now (words line.now) number }
    {
        let mut words = Words::new(line);
        let kind = words.next_word().and_then(|first| keyword_of(first));
        self.detail_by(kind, words, number)
    }

    fn detail_by<'a>(&self, kind: Option<Keyword>, words: Words<'a>, number: u8) -> Detail
        requires in_form { IsInForm self.now }
        requires few { length words < 2 ^ 63 }
        ensures { result ≡ detail_by self.now kind words.entry number }
    {
        if number == UNDECLARED {
            return Detail::Word {
                place: self.undeclared_place(kind, words),
                why: Why::Undeclared,
            };
        }
        if number == WRONG_WORD {
            return self.wrong_word(kind, words);
        }
        if number == NO_SUCH_SLOT {
            return Detail::Word {
                place: self.no_slot_place(kind, words),
                why: Why::NoSlot,
            };
        }
        if number == LIMIT_PASSED {
            return self.passed_limit(kind, words);
        }
        Detail::Nothing
    }

    // The place of the first word that isn't declared.
    fn undeclared_place<'a>(&self, kind: Option<Keyword>, words: Words<'a>) -> usize
        requires { length words < 2 ^ 63 }
        ensures { result ≡ undeclared_place self.now kind words.entry }
    {
        match kind {
            Some(Keyword::Dev) => undeclared_by_device(&self.names, words),
            Some(Keyword::Send) => undeclared_by_send(&self.names, words),
            Some(Keyword::Chan) => undeclared_by_channel(&self.names, words),
            Some(Keyword::When) => target_place(awaited(words)),
            Some(Keyword::Command(CommandWord::Tell)) => undeclared_by_tell(&self.names, words),
            _ => 1,
        }
    }

    // The word that may not stand in its place.
    fn wrong_word<'a>(&self, kind: Option<Keyword>, words: Words<'a>) -> Detail
        requires in_form { IsInForm self.now }
        requires few { length words < 2 ^ 63 }
        ensures { result ≡ wrong_word self.now kind words.entry }
    {
        match kind {
            Some(Keyword::Codec) => wrong_in_name(self.is_late(Section::Codecs)),
            Some(Keyword::Dev | Keyword::Feat) => wrong_in_name(self.is_late(Section::Boxes)),
            Some(Keyword::Send) => self.wrong_in_send(),
            Some(Keyword::Chan) => self.wrong_in_channel(words),
            Some(Keyword::Also) => self.wrong_in_also(words),
            Some(Keyword::Prog) => self.wrong_in_program(words),
            Some(Keyword::State) => self.wrong_in_state(),
            Some(Keyword::Goal) => self.wrong_in_goal(),
            Some(Keyword::When) => self.wrong_in_when(words),
            Some(Keyword::Command(kind)) => self.wrong_in_command(kind, words),
            _ => opening(),
        }
    }

    // The wrong word of `send BOX CODEC ..`, which has none but its box.
    fn wrong_in_send(&self) -> Detail
        ensures { result ≡ wrong_in_send self.now }
    {
        if !self.sends_apart || self.is_late(Section::Boxes) {
            return opening();
        }
        word(1, Why::NoDevice)
    }

    // The wrong word of `chan MEDIUM BOX SLOT BOX SLOT`.
    fn wrong_in_channel<'a>(&self, words: Words<'a>) -> Detail
        ensures { result ≡ wrong_in_channel self.now words.entry }
    {
        let parts = FirstWords::new(words);
        if self.is_late(Section::Channels) {
            return opening();
        }
        if fixed_medium(parts.first).is_err() {
            return word(1, Why::Fixed);
        }
        let place = if is_misspelt(parts.third) { 3 } else { 5 };
        word(place, Why::Misspelt)
    }

    // The wrong word of `also MEDIUM SLOT SLOT`.
    fn wrong_in_also<'a>(&self, words: Words<'a>) -> Detail
        ensures { result ≡ wrong_in_also self.now words.entry }
    {
        let parts = FirstWords::new(words);
        if self.is_late(Section::Channels) || self.plan.channels().is_empty() {
            return opening();
        }
        if fixed_medium(parts.first).is_err() {
            return word(1, Why::Fixed);
        }
        let place = if is_misspelt(parts.second) { 2 } else { 3 };
        word(place, Why::Misspelt)
    }

    // The wrong word of `prog BOX STATE ..`.
    fn wrong_in_program<'a>(&self, mut words: Words<'a>) -> Detail
        requires in_form { IsInForm self.now }
        requires few { length words < 2 ^ 63 }
        ensures { result ≡ wrong_in_program self.now words.entry }
    {
        if self.is_late(Section::Programs) {
            return opening();
        }
        let who = box_named(&self.names, words.next_word());
        if needs_feature(&self.shape, who).is_err() {
            return word(1, Why::NoFeature);
        }
        word(2 + first_misspelt(words), Why::Misspelt)
    }

    // The wrong word of `state NAME`.
    fn wrong_in_state(&self) -> Detail
        ensures { result ≡ wrong_in_state self.now }
    {
        match self.open_block() {
            None => opening(),
            Some(_) => word(1, Why::NotNext),
        }
    }

    // The part that is open.
    fn open_part(&self) -> Option<&StatePart>
        ensures { option_copied result ≡ open_part self.now }
    {
        let block = self.open_block()?;
        block.parts.last()
    }

    // The wrong word of `goal SLOT GOAL`.
    fn wrong_in_goal(&self) -> Detail
        ensures { result ≡ wrong_in_goal self.now }
    {
        match self.open_part() {
            None => opening(),
            Some(_) => word(2, Why::Fixed),
        }
    }

    // The wrong word of `when is ..` or `when told ..`.
    fn wrong_in_when<'a>(&self, words: Words<'a>) -> Detail
        ensures { result ≡ wrong_in_when self.now words.entry }
    {
        match self.open_part() {
            None => opening(),
            Some(_) => wrong_in_wait(awaited(words)),
        }
    }

    // The wrong word of a command, and of `link` in the programs.
    fn wrong_in_command<'a>(&self, kind: CommandWord, words: Words<'a>) -> Detail
        requires { IsInForm self.now }
        ensures { result ≡ wrong_in_command self.now kind words.entry }
    {
        match kind {
            CommandWord::Set => word(3, Why::Fixed),
            CommandWord::Link => match self.section {
                Section::Programs => opening(),
                _ => word(1, Why::NoFeature),
            },
            CommandWord::Hear | CommandWord::Talk => self.wrong_in_media(words),
            CommandWord::Tell => word(1, Why::NoProgram),
            CommandWord::Settle => opening(),
        }
    }

    // The wrong word of `hear BOX SLOT SWITCH` or `talk BOX SLOT SWITCH`.
    fn wrong_in_media<'a>(&self, mut words: Words<'a>) -> Detail
        requires { IsInForm self.now }
        ensures { result ≡ wrong_in_media self.now words.entry }
    {
        let who = box_named(&self.names, words.next_word());
        if needs_device(&self.shape, who).is_err() {
            return word(1, Why::NoDevice);
        }
        word(3, Why::Fixed)
    }

    // The place of the slot that its box hasn't.
    fn no_slot_place<'a>(&self, kind: Option<Keyword>, words: Words<'a>) -> usize
        requires { IsInForm self.now }
        ensures { result ≡ no_slot_place self.now kind words.entry }
    {
        match kind {
            Some(Keyword::Goal) => 1,
            Some(Keyword::Command(CommandWord::Link)) => self.no_slot_by_link(words),
            _ => 2,
        }
    }

    // The same, of `link SLOT SLOT` in a part and of `link BOX SLOT SLOT`.
    fn no_slot_by_link<'a>(&self, words: Words<'a>) -> usize
        requires { IsInForm self.now }
        ensures { result ≡ no_slot_by_link self.now words.entry }
    {
        let parts = FirstWords::new(words);
        match self.section {
            Section::Programs => {
                let who = self.open_box();
                if lacks_slot(&self.names, who, parts.first) {
                    1
                } else {
                    2
                }
            }
            _ => {
                let who = box_named(&self.names, parts.first);
                if lacks_slot(&self.names, who, parts.second) {
                    2
                } else {
                    3
                }
            }
        }
    }

    // The box of the program that is open.
    fn open_box(&self) -> Option<u32>
        requires { IsInForm self.now }
        ensures named { result ≡ open_box self.now }
        ensures known { IfSome result (λ who. who < length self.now.names.boxes) }
    {
        let block = self.open_block()?;
        Some(block.who)
    }

    // The limit that is passed.
    fn passed_limit<'a>(&self, kind: Option<Keyword>, words: Words<'a>) -> Detail
        requires { IsInForm self.now }
        ensures { result ≡ passed_limit self.now kind words.entry }
    {
        match kind {
            Some(Keyword::Codec) => Detail::Limit(Limit::Codecs),
            Some(Keyword::Dev) => Detail::Limit(passed_by_device(&self.names)),
            Some(Keyword::Feat) => Detail::Limit(Limit::Boxes),
            Some(Keyword::Send) => Detail::Limit(Limit::ListedCodecs),
            Some(Keyword::Chan) => Detail::Limit(passed_by_channel(&self.names, words)),
            Some(Keyword::Also) => Detail::Limit(passed_by_also(&self.names, self.last_ends())),
            Some(Keyword::Prog) => Detail::Limit(Limit::States),
            Some(Keyword::When) => Detail::Limit(passed_by_when(self.open_part())),
            Some(Keyword::Command(_)) => Detail::Limit(Limit::Commands),
            _ => Detail::Nothing,
        }
    }
}

fn word(place: usize, why: Why) -> Detail
    ensures { result ≡ Detail.Word place why }
{
    Detail::Word { place, why }
}

// No line may begin so here.
fn opening() -> Detail
    ensures { result ≡ opening }
{
    word(0, Why::Opening)
}

// The wrong word of `codec NAME`, `dev NAME ..` or `feat NAME`, which may come too late.
fn wrong_in_name(late: bool) -> Detail
    ensures { result ≡ wrong_in_name late }
{
    if late {
        return opening();
    }
    word(1, Why::Misspelt)
}

// The wrong word of `when is SLOT STATE TARGET` or `when told WORD TARGET`, in a part.
fn wrong_in_wait(awaited: Option<WaitWord>) -> Detail
    ensures { result ≡ wrong_in_wait awaited }
{
    match awaited {
        Some(WaitWord::Is) => word(3, Why::Fixed),
        Some(WaitWord::Told) => word(2, Why::Misspelt),
        None => word(1, Why::Fixed),
    }
}

// What a `when` line waits for.
fn awaited<'a>(mut words: Words<'a>) -> Option<WaitWord>
    ensures { result ≡ awaited words.entry }
{
    let first = words.next_word()?;
    waits_for(first)
}

fn waits_for(word: &[u8]) -> Option<WaitWord>
    ensures { result ≡ waits_for word.now }
{
    if word == b"is".as_slice() {
        Some(WaitWord::Is)
    } else if word == b"told".as_slice() {
        Some(WaitWord::Told)
    } else {
        None
    }
}

// The place of the target in a `when` line.
fn target_place(awaited: Option<WaitWord>) -> usize
    ensures { result ≡ target_place awaited }
{
    match awaited {
        Some(WaitWord::Told) => 3,
        _ => 4,
    }
}

// The place of the undeclared codec of `dev NAME CODEC ..` or `dev NAME VERSION CODEC ..`.
fn undeclared_by_device<'a>(names: &Names, mut words: Words<'a>) -> usize
    requires { length words < 2 ^ 63 }
    ensures { result ≡ undeclared_by_device names.now words.entry }
{
    words.next_word();
    let first = if has_version(words.again()) { 3 } else { 2 };
    first + first_undeclared(names, codec_words(words))
}

// Whether the first word is a version.
fn has_version<'a>(mut words: Words<'a>) -> bool
    ensures { result ≡ has_version words.entry }
{
    match words.next_word() {
        Some(first) => begins_digit(first),
        None => false,
    }
}

// The place of the undeclared word of `send BOX CODEC ..`.
fn undeclared_by_send<'a>(names: &Names, mut words: Words<'a>) -> usize
    requires { length words < 2 ^ 63 }
    ensures { result ≡ undeclared_by_send names.now words.entry }
{
    if known_box(names, words.next_word()).is_err() {
        return 1;
    }
    2 + first_undeclared(names, words)
}

// The place of the undeclared box of `chan MEDIUM BOX SLOT BOX SLOT`.
fn undeclared_by_channel<'a>(names: &Names, words: Words<'a>) -> usize
    ensures { result ≡ undeclared_by_channel names.now words.entry }
{
    let parts = FirstWords::new(words);
    if known_box(names, parts.second).is_err() {
        2
    } else {
        4
    }
}

// The place of the undeclared word of `tell BOX WORD`.
fn undeclared_by_tell<'a>(names: &Names, mut words: Words<'a>) -> usize
    ensures { result ≡ undeclared_by_tell names.now words.entry }
{
    if known_box(names, words.next_word()).is_err() {
        1
    } else {
        2
    }
}

// How many words stand before the first that is no codec's name.
fn first_undeclared<'a>(names: &Names, words: Words<'a>) -> usize
    requires { length words < 2 ^ 63 }
    ensures first { result ≡ first_undeclared names.now words.entry }
    ensures small { result < 2 ^ 63 }
{
    find_undeclared(names, words).unwrap_or(0)
}

// The same, where there is such a word.
fn find_undeclared<'a>(names: &Names, mut words: Words<'a>) -> Option<usize>
    requires { length words < 2 ^ 63 }
    ensures place { result ≡ position (λ word. is_none (place_of names.now.codecs word)) words.entry }
    ensures small { IfSome result (λ place. place < 2 ^ 63) }
{
    words.position(|word| names.find_codec(word).is_none())
}

// How many words stand before the first that isn't spelt as a name.
fn first_misspelt<'a>(words: Words<'a>) -> usize
    requires { length words < 2 ^ 63 }
    ensures first { result ≡ first_misspelt words.entry }
    ensures small { result < 2 ^ 63 }
{
    find_misspelt(words).unwrap_or(0)
}

// The same, where there is such a word.
fn find_misspelt<'a>(mut words: Words<'a>) -> Option<usize>
    requires { length words < 2 ^ 63 }
    ensures place { result ≡ position (λ word. not (is_spelt word)) words.entry }
    ensures small { IfSome result (λ place. place < 2 ^ 63) }
{
    words.position(|word| !is_spelt(word))
}

// The box that a word names.
fn box_named(names: &Names, word: Option<&[u8]>) -> Option<u32>
    ensures named { result ≡ box_named names.now (option_copied word.entry) }
    ensures known { IfSome result (λ who. who < length names.now.boxes) }
{
    names.find_box(word?)
}

// Whether a word stands there, its box is known, and it is no slot of the box.
fn lacks_slot(names: &Names, who: Option<u32>, word: Option<&[u8]>) -> bool
    requires { IfSome who (λ known. known < length names.now.boxes) }
    ensures { result ≡ lacks_slot names.now who (option_copied word.entry) }
{
    match (who, word) {
        (Some(who), Some(word)) => names.find_slot(who, word).is_none(),
        _ => false,
    }
}

// The limit that `dev NAME CODEC ..` passes.
fn passed_by_device(names: &Names) -> Limit
    ensures { result ≡ passed_by_device names.now }
{
    if BOX_LIMIT <= names.box_count() {
        Limit::Boxes
    } else {
        Limit::ListedCodecs
    }
}

// The limit that `chan MEDIUM BOX SLOT BOX SLOT` passes.
fn passed_by_channel<'a>(names: &Names, words: Words<'a>) -> Limit
    ensures { result ≡ passed_by_channel names.now words.entry }
{
    let parts = FirstWords::new(words);
    let from = box_named(names, parts.second);
    let to = box_named(names, parts.fourth);
    if is_full_box(names, from) || is_full_box(names, to) {
        Limit::Slots
    } else {
        Limit::Channels
    }
}

// Whether a box is known, and has as many slots as it may have.
fn is_full_box(names: &Names, who: Option<u32>) -> bool
    requires { IfSome who (λ known. known < length names.now.boxes) }
    ensures { result ≡ is_full_box names.now who }
{
    match who {
        Some(who) => is_full(names, who),
        None => false,
    }
}

// Whether a box has as many slots as it may have.
fn is_full(names: &Names, who: u32) -> bool
    requires { who < length names.now.boxes }
    ensures { result ≡ is_full names.now who }
{
    SLOT_LIMIT <= names.slot_count(who)
}

// The limit that `also MEDIUM SLOT SLOT` between these two boxes passes.
fn passed_by_also(names: &Names, ends: Option<(u32, u32)>) -> Limit
    requires { IfSome ends (λ both. (both.0 < length names.now.boxes) × (both.1 < length names.now.boxes)) }
    ensures { result ≡ passed_by_also names.now ends }
{
    match ends {
        Some((from, to)) if is_full(names, from) || is_full(names, to) => Limit::Slots,
        _ => Limit::Tunnels,
    }
}

// The limit that `when ..` in a part passes.
fn passed_by_when(part: Option<&StatePart>) -> Limit
    ensures { result ≡ passed_by_when (option_copied part.entry) }
{
    match part {
        Some(part) if TRANSITION_LIMIT <= part.transitions.len() => Limit::Transitions,
        _ => Limit::ToldWords,
    }
}
