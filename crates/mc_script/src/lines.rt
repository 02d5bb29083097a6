//! The lines of each kind of command, by the words after the first.

ghost use Rattle.std.specs.Prelude.{◌≡◌, ◌<◌, IfSome, MatchResult, None, Some, length};
ghost use Rattle.std.specs.List.{slice_get};
ghost use Rattle.std.specs.Option.{option_copied};
ghost use Rattle.mc_slot.specs.Moves.{is_same_medium};
ghost use Rattle.mc_box.specs.BoxShapes.{slot_medium};
ghost use Rattle.mc_script.specs.Places.{box_named, slot_named, spelt_value, Fits};
ghost use Rattle.mc_script.specs.Rules.{least_broken, set_rules, link_rules, media_rules, tell_rules, settle_rules, spelt_switch};
ghost use Rattle.mc_script.specs.SlotLines.{NamesTwoSlots, ReadsSlot};
ghost use Rattle.mc_script.specs.Meaning.{ReadsAs, ReadsCommand};

use crate::command::{Command, LineFault};
use crate::keyword::CommandWord;
use crate::places::{
    fixed_goal, fixed_switch, known_box, known_slot, known_told, needs_device, needs_feature,
    needs_program,
};
use crate::rule::{EXTRA_WORD, MISSING_WORD, SAME_SLOT, TWO_MEDIA};
use mc_box::{BoxShape, Change, Event, MediaChange, Shape, Turn};
use mc_text::{FirstWords, Names, Words};

/// Reads `set BOX SLOT GOAL` from the box on.
#[tactic(auto, using(crate::proofs::Missing::misses_third, crate::proofs::Missing::misses_box, crate::proofs::Missing::misses_value))]
pub fn set_line<'a>(names: &Names, words: Words<'a>) -> Result<Command, LineFault>
    ensures { ReadsCommand names.now CommandWord.Set (set_rules names.now words.entry) words.entry result }
{
    let parts = FirstWords::new(words);
    let who = known_box(names, parts.first)?;
    let goal = fixed_goal(parts.third)?;
    let SlotLine { who, local, value } = slot_line(names, who, parts.second, goal, parts.fourth)?;
    Ok(stimulus(who, Event::Set(Change::End(local, value))))
}

/// Reads `link BOX SLOT SLOT` from the box on, which must be a feature.
pub fn link_line<'a>(names: &Names, shape: &Shape, words: Words<'a>) -> Result<Command, LineFault>
    requires { Fits names.now shape.now }
    ensures { ReadsCommand names.now CommandWord.Link (link_rules names.now shape.now words.entry) words.entry result }
{
    let SlotLine {
        who,
        local,
        value: other,
    } = pair_line(names, shape, words)?;
    if local == other {
        return Err(LineFault { number: SAME_SLOT });
    }
    if !are_of_one_medium(&shape.boxes[who as usize], local, other) {
        return Err(LineFault { number: TWO_MEDIA });
    }
    Ok(stimulus(who, Event::Set(Change::Link(local, other))))
}

// Two slots of a box, the box being a feature.
#[tactic(auto, using(crate::proofs::Missing::misses_third, crate::proofs::Missing::misses_box, crate::proofs::Missing::misses_value))]
fn pair_line<'a>(names: &Names, shape: &Shape, words: Words<'a>) -> Result<SlotLine<u8>, LineFault>
    requires { Fits names.now shape.now }
    ensures { MatchResult result (NamesTwoSlots names.now shape.now words.entry)
        (λ e. least_broken (link_rules names.now shape.now words.entry) ≡ Some e.number) }
{
    let parts = FirstWords::new(words);
    let who = known_box(names, parts.first)?;
    needs_feature(shape, who)?;
    let SlotLine {
        who,
        local,
        value: other,
    } = slot_line(names, who, parts.second, parts.third, parts.fourth)?;
    let other = known_slot(names, who, other)?;
    Ok(SlotLine {
        who,
        local,
        value: other,
    })
}

/// Reads `hear BOX SLOT SWITCH` from the box on, which must be a device.
pub fn hear_line<'a>(names: &Names, shape: &Shape, words: Words<'a>) -> Result<Command, LineFault>
    requires { Fits names.now shape.now }
    ensures { ReadsCommand names.now CommandWord.Hear (media_rules names.now shape.now words.entry) words.entry result }
{
    let SlotLine { who, local, value } = switch_line(names, shape, words)?;
    Ok(stimulus(who, Event::Media(MediaChange::Hear(local, value))))
}

/// Reads `talk BOX SLOT SWITCH` from the box on, which must be a device.
pub fn talk_line<'a>(names: &Names, shape: &Shape, words: Words<'a>) -> Result<Command, LineFault>
    requires { Fits names.now shape.now }
    ensures { ReadsCommand names.now CommandWord.Talk (media_rules names.now shape.now words.entry) words.entry result }
{
    let SlotLine { who, local, value } = switch_line(names, shape, words)?;
    Ok(stimulus(who, Event::Media(MediaChange::Talk(local, value))))
}

/// Reads `tell BOX WORD` from the box on, which must have a program.
#[tactic(auto, using(crate::proofs::Missing::misses_second, crate::proofs::Missing::misses_box))]
pub fn tell_line<'a>(names: &Names, shape: &Shape, words: Words<'a>) -> Result<Command, LineFault>
    requires { Fits names.now shape.now }
    ensures { ReadsCommand names.now CommandWord.Tell (tell_rules names.now shape.now words.entry) words.entry result }
{
    let parts = FirstWords::new(words);
    let who = known_box(names, parts.first)?;
    let told = known_told(names, parts.second)?;
    needs_program(shape, who)?;
    let (Some(who), Some(told)) = (who, told) else {
        return Err(LineFault {
            number: MISSING_WORD,
        });
    };
    if parts.third.is_some() {
        return Err(LineFault { number: EXTRA_WORD });
    }
    Ok(stimulus(who, Event::Tell(told)))
}

/// Reads `settle`, after which no word stands.
pub fn settle_line<'a>(mut words: Words<'a>) -> Result<Command, LineFault>
    ensures { ReadsAs result (least_broken (settle_rules words.entry)) (Some Command.Settle) }
{
    match words.next_word() {
        None => Ok(Command::Settle),
        Some(_) => Err(LineFault { number: EXTRA_WORD }),
    }
}

// `BOX SLOT SWITCH`, the box being a device.
#[tactic(auto, using(crate::proofs::Missing::misses_third, crate::proofs::Missing::misses_box, crate::proofs::Missing::misses_value))]
fn switch_line<'a>(
    names: &Names,
    shape: &Shape,
    words: Words<'a>,
) -> Result<SlotLine<bool>, LineFault>
    requires { Fits names.now shape.now }
    ensures { MatchResult result
        (λ switch. (least_broken (media_rules names.now shape.now words.entry) ≡ None)
        × (box_named names.now (slice_get words.entry 0) ≡ Some switch.who)
        × (slot_named names.now (Some switch.who) (slice_get words.entry 1) ≡ Some switch.local)
        × (spelt_value spelt_switch (slice_get words.entry 2) ≡ Some switch.value))
        (λ e. least_broken (media_rules names.now shape.now words.entry) ≡ Some e.number) }
{
    let parts = FirstWords::new(words);
    let who = known_box(names, parts.first)?;
    needs_device(shape, who)?;
    let on = fixed_switch(parts.third)?;
    slot_line(names, who, parts.second, on, parts.fourth)
}

// A slot of a box, and the value of the word after it.
struct SlotLine<T> {
    who: u32,
    local: u8,
    value: T,
}

// What `BOX SLOT VALUE` says, whose box and value are known where their words are there.
fn slot_line<T: Copy>(
    names: &Names,
    who: Option<u32>,
    slot: Option<&[u8]>,
    value: Option<T>,
    left_over: Option<&[u8]>,
) -> Result<SlotLine<T>, LineFault>
    requires { IfSome who (λ known. known < length names.now.boxes) }
    ensures { ReadsSlot names.now who (option_copied slot.entry) value (option_copied left_over.entry) result }
{
    let (Some(who), Some(slot), Some(value)) = (who, slot, value) else {
        return Err(LineFault {
            number: MISSING_WORD,
        });
    };
    if left_over.is_some() {
        return Err(LineFault { number: EXTRA_WORD });
    }
    let local = known_slot(names, who, slot)?;
    Ok(SlotLine { who, local, value })
}

fn stimulus(who: u32, event: Event) -> Command
    ensures { result ≡ Command.Stimulus (record { who = who; event = event }) }
{
    Command::Stimulus(Turn { who, event })
}

// Whether two slots of a box are of one medium.
fn are_of_one_medium(shape: &BoxShape, one: u8, other: u8) -> bool
    requires one { one < length shape.now.media }
    requires other { other < length shape.now.media }
    ensures { result ≡ is_same_medium (slot_medium shape.now one) (slot_medium shape.now other) }
{
    shape.media[one as usize] == shape.media[other as usize]
}
