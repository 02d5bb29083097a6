//! The part of a state in a program, and the lines in it.

ghost use Rattle.std.specs.Prelude.{◌≡◌, ◌<◌, ◌≤◌, false, length, position, IfOk, IfSome, IsTrue, MatchResult, OnErr, OnOk};
ghost use Rattle.std.specs.Str.{bytes_eq};
ghost use Rattle.std.specs.Option.{option_copied};
ghost use Rattle.mc_text.specs.Adding.{told_number};
ghost use Rattle.mc_text.specs.NameLists.{place_of, slot_names, with_told_word};
ghost use Rattle.mc_text.specs.Spelling.{is_name};
ghost use Rattle.mc_box.specs.BoxShapes.{medium_at, shape_of};
ghost use Rattle.mc_slot.specs.Moves.{is_same_medium};
ghost use Rattle.mc_script.specs.Places.{Fits, fixed_word, known_name};
ghost use Rattle.mc_program_lines.specs.Programs.{new_part, has_goal, lacks_goal, spelt_state, has_no_room, with_transition, words_of, waits_for, IsToldLine};
ghost use Rattle.mc_program_lines.specs.LineReadings.{BreaksWhenTold, ReadsGoal, ReadsLink, ReadsWhen, ReadsWhenIs, ReadsWhenTold, SpellsTransition};

use crate::fault::{ReadFault, name_wanting};
use crate::limit::{STATE_LIMIT, TRANSITION_LIMIT};
use mc_box::Shape;
use mc_rule::{Guard, Rule};
use mc_script::LineFault;
use mc_script::places::{fixed_goal, is_misspelt, is_overlong, known_slot};
use mc_script::rule::{
    EXTRA_WORD, GIVEN_TWICE, LIMIT_PASSED, MISSING_WORD, NAME_TOO_LONG, NO_SUCH_SLOT, SAME_SLOT,
    TWO_MEDIA, UNDECLARED, WRONG_WORD,
};
use mc_slot::{SlotGoal, State};
use mc_text::limit::TOLD_LIMIT;
use mc_text::{FirstWords, Names, Words};
use std::alloc::{AllocError, Global};
use std::marker::Model;

/// What a transition waits for.
#[derive(Clone, Copy, PartialEq, Eq, Debug)]
pub enum WaitWord {
    /// A slot is in a state.
    Is,
    /// The box was told a word.
    Told,
}

/// A state's part: the goals that its lines gave so far, by slot, and its transitions in their order.
#[derive(Debug, Drop)]
pub struct StatePart {
    pub goals: Vec<Option<SlotGoal>>,
    pub transitions: Vec<Rule>,
}

impl Model for StatePart {
    ghost use Rattle.mc_program_lines.specs.Programs.{PartState};

    ghost Value = { PartState };

    ghost view = { λ part. record { goals = part.goals.items; transitions = part.transitions.items } };
}

// A `when told` line: the word, and the state that it leads to.
#[derive(Drop)]
struct ToldLine<'a> {
    word: &'a [u8],
    target: u32,
}

impl StatePart {
    /// A part in which no slot has a goal.
    pub fn new(alloc: Global, slots: usize) -> Result<StatePart, AllocError>
        ensures { IfOk result (λ part. part ≡ new_part slots) }
    {
        let mut goals = Vec::new(alloc);
        goals.resize(slots, None)?;
        Ok(StatePart {
            goals,
            transitions: Vec::new(alloc),
        })
    }

    /// Whether some slot has no goal yet.
    pub fn lacks_goal(&self) -> bool
        ensures { result ≡ lacks_goal self.now }
    {
        self.goals.iter().any(|goal| goal.is_none())
    }

    /// Reads `goal SLOT GOAL` from the slot on.
    pub fn read_goal<'a>(
        &mut self,
        names: &Names,
        who: u32,
        words: Words<'a>,
    ) -> Result<(), LineFault>
        requires who { who < length names.now.boxes }
        requires slots { length self.old.goals ≡ length (slot_names names.now who) }
        ensures goal { ReadsGoal names.now who self.old words.entry result self.new }
        ensures slots { length self.new.goals ≡ length self.old.goals }
    {
        let parts = FirstWords::new(words);
        let goal = fixed_goal(parts.second)?;
        let (Some(slot), Some(goal)) = (parts.first, goal) else {
            return Err(LineFault {
                number: MISSING_WORD,
            });
        };
        if parts.third.is_some() {
            return Err(LineFault { number: EXTRA_WORD });
        }
        let Some(local) = names.find_slot(who, slot) else {
            return Err(LineFault {
                number: NO_SUCH_SLOT,
            });
        };
        if self.goals[local as usize].is_some() {
            return Err(LineFault {
                number: GIVEN_TWICE,
            });
        }
        self.goals[local as usize] = Some(SlotGoal::End(goal));
        Ok(())
    }

    /// Reads `link SLOT SLOT` from the first slot on. The link is the goal of both.
    pub fn read_link<'a>(
        &mut self,
        names: &Names,
        shape: &Shape,
        who: u32,
        words: Words<'a>,
    ) -> Result<(), LineFault>
        requires fits { Fits names.now shape.now }
        requires who { who < length names.now.boxes }
        requires slots { length self.old.goals ≡ length (slot_names names.now who) }
        ensures link { ReadsLink names.now shape.now who self.old words.entry result self.new }
        ensures slots { length self.new.goals ≡ length self.old.goals }
    {
        let parts = FirstWords::new(words);
        let (Some(one), Some(other)) = (parts.first, parts.second) else {
            return Err(LineFault {
                number: MISSING_WORD,
            });
        };
        if parts.third.is_some() {
            return Err(LineFault { number: EXTRA_WORD });
        }
        let one = names.find_slot(who, one);
        let other = names.find_slot(who, other);
        if self.has_goal(one) || self.has_goal(other) {
            return Err(LineFault {
                number: GIVEN_TWICE,
            });
        }
        let (Some(one), Some(other)) = (one, other) else {
            return Err(LineFault {
                number: NO_SUCH_SLOT,
            });
        };
        if one == other {
            return Err(LineFault { number: SAME_SLOT });
        }
        if !are_of_one_medium(shape, who, one, other) {
            return Err(LineFault { number: TWO_MEDIA });
        }
        self.goals[one as usize] = Some(SlotGoal::Link(other));
        self.goals[other as usize] = Some(SlotGoal::Link(one));
        Ok(())
    }

    // Adds a transition as the last.
    fn push(&mut self, transition: Rule) -> Result<(), AllocError>
        ensures added { OnOk result (self.new ≡ with_transition self.old transition) }
        ensures unchanged { OnErr result (self.new ≡ self.old) }
    {
        self.transitions.push(transition)?;
        Ok(())
    }

    /// Reads `when is SLOT STATE TARGET` or `when told WORD TARGET` from the second word on, in a program with these
    /// states. A told word that is new gets a number. Memory runs out only where the line breaks no rule; the part is
    /// as it was then, and the word may have its number.
    pub fn read_when<'a>(
        &mut self,
        names: &mut Names,
        who: u32,
        states: &[Vec<u8>],
        mut words: Words<'a>,
    ) -> Result<(), ReadFault>
        requires who { who < length names.old.boxes }
        requires states { length states.now ≤ STATE_LIMIT }
        ensures when { ReadsWhen names.old who (words_of states.now) self.old words.entry result (names.new, self.new) }
        ensures kept { OnErr result (self.new ≡ self.old) }
        ensures goals { self.new.goals ≡ self.old.goals }
        ensures boxes { OnOk result (names.new.boxes ≡ names.old.boxes) }
        ensures slots { OnOk result (names.new.slots ≡ names.old.slots) }
    {
        let Some(first) = words.next_word() else {
            return Err(ReadFault::Line(LineFault {
                number: MISSING_WORD,
            }));
        };
        match waits_for(first) {
            None => Err(ReadFault::Line(LineFault { number: WRONG_WORD })),
            Some(WaitWord::Is) => self.read_when_is(names, who, states, words),
            Some(WaitWord::Told) => self.read_when_told(names, states, words),
        }
    }

    fn read_when_is<'a>(
        &mut self,
        names: &Names,
        who: u32,
        states: &[Vec<u8>],
        words: Words<'a>,
    ) -> Result<(), ReadFault>
        requires who { who < length names.now.boxes }
        requires states { length states.now ≤ STATE_LIMIT }
        ensures is { ReadsWhenIs names.now who (words_of states.now) self.old words.entry result self.new }
        ensures kept { OnErr result (self.new ≡ self.old) }
        ensures goals { self.new.goals ≡ self.old.goals }
    {
        let transition = self.when_is_line(names, who, states, words)?;
        self.push(transition)?;
        Ok(())
    }

    fn read_when_told<'a>(
        &mut self,
        names: &mut Names,
        states: &[Vec<u8>],
        words: Words<'a>,
    ) -> Result<(), ReadFault>
        requires { length states.now ≤ STATE_LIMIT }
        ensures told { ReadsWhenTold names.old (words_of states.now) self.old words.entry result (names.new, self.new) }
        ensures kept { OnErr result (self.new ≡ self.old) }
        ensures goals { self.new.goals ≡ self.old.goals }
        ensures boxes { OnOk result (names.new.boxes ≡ names.old.boxes) }
        ensures slots { OnOk result (names.new.slots ≡ names.old.slots) }
    {
        let line = self.when_told_line(names, states, words)?;
        let word = add_told(names, line.word)?;
        self.push(Rule {
            guard: Guard::Told(word),
            target: line.target,
        })?;
        Ok(())
    }

    // Reads the transition of `when is SLOT STATE TARGET` from the slot on.
    fn when_is_line<'a>(
        &self,
        names: &Names,
        who: u32,
        states: &[Vec<u8>],
        words: Words<'a>,
    ) -> Result<Rule, LineFault>
        requires who { who < length names.now.boxes }
        requires states { length states.now ≤ STATE_LIMIT }
        ensures { SpellsTransition names.now who (words_of states.now) self.now words.entry result }
    {
        let parts = FirstWords::new(words);
        let target = known_target(states, parts.third)?;
        let state = fixed_state(parts.second)?;
        let (Some(slot), Some(state), Some(target)) = (parts.first, state, target) else {
            return Err(LineFault {
                number: MISSING_WORD,
            });
        };
        if parts.fourth.is_some() {
            return Err(LineFault { number: EXTRA_WORD });
        }
        let local = known_slot(names, who, slot)?;
        if TRANSITION_LIMIT <= self.transitions.len() {
            return Err(LineFault {
                number: LIMIT_PASSED,
            });
        }
        Ok(Rule {
            guard: Guard::SlotIs(local, state),
            target,
        })
    }

    // Reads `when told WORD TARGET` from the word on.
    fn when_told_line<'a>(
        &self,
        names: &Names,
        states: &[Vec<u8>],
        words: Words<'a>,
    ) -> Result<ToldLine<'a>, LineFault>
        requires { length states.now ≤ STATE_LIMIT }
        ensures { MatchResult result
            (λ line. IsToldLine names.now (words_of states.now) self.now words.entry line.word.now line.target)
            (BreaksWhenTold names.now (words_of states.now) self.now words.entry) }
    {
        let parts = FirstWords::new(words);
        let target = known_target(states, parts.second)?;
        if is_misspelt(parts.first) {
            return Err(LineFault { number: WRONG_WORD });
        }
        let (Some(word), Some(target)) = (parts.first, target) else {
            return Err(LineFault {
                number: MISSING_WORD,
            });
        };
        if parts.third.is_some() {
            return Err(LineFault { number: EXTRA_WORD });
        }
        if TRANSITION_LIMIT <= self.transitions.len() || has_no_room(names, word) {
            return Err(LineFault {
                number: LIMIT_PASSED,
            });
        }
        if is_overlong(parts.first) {
            return Err(LineFault {
                number: NAME_TOO_LONG,
            });
        }
        Ok(ToldLine { word, target })
    }

    // Whether a slot is known and has a goal.
    fn has_goal(&self, local: Option<u8>) -> bool
        requires { IfSome local (λ known. known < length self.now.goals) }
        ensures { result ≡ has_goal self.now local }
    {
        match local {
            Some(local) => self.goals[local as usize].is_some(),
            None => false,
        }
    }
}

// Whether two slots of a box are of one medium.
fn are_of_one_medium(shape: &Shape, who: u32, one: u8, other: u8) -> bool
    requires who { who < length shape.now }
    requires one { one < length (shape_of shape.now who).media }
    requires other { other < length (shape_of shape.now who).media }
    ensures { result ≡ is_same_medium (medium_at shape.now who one) (medium_at shape.now who other) }
{
    let shape = &shape.boxes[who as usize];
    shape.media[one as usize] == shape.media[other as usize]
}

// The number of a told word, which is added where it is new. There is room for it.
#[tactic(auto, using(crate::proofs::Wanting::told_wanting))]
fn add_told(names: &mut Names, word: &[u8]) -> Result<u8, AllocError>
    requires name { IsTrue (is_name word.now) }
    requires room { has_no_room names.old (Some word.now) ≡ false }
    ensures number { IfOk result (λ number. told_number names.old.told word.now ≡ Ok number) }
    ensures added { OnOk result (names.new ≡ with_told_word names.old word.now) }
{
    match names.add_told(word) {
        Ok(number) => Ok(number),
        Err(fault) => Err(name_wanting(fault)),
    }
}

// Whether a word is a new told word, for which there is no room.
fn has_no_room(names: &Names, word: &[u8]) -> bool
    ensures { result ≡ has_no_room names.now (Some word.now) }
{
    names.find_told(word).is_none() && TOLD_LIMIT <= names.told_count()
}

// The state that a word names. Fault 4 where no state has the name.
fn known_target(states: &[Vec<u8>], word: Option<&[u8]>) -> Result<Option<u32>, LineFault>
    requires { length states.now ≤ STATE_LIMIT }
    ensures { result ≡ known_name (words_of states.now) (option_copied word.entry) }
{
    let Some(word) = word else { return Ok(None) };
    match find_state(states, word) {
        Some(target) => Ok(Some(target)),
        None => Err(LineFault { number: UNDECLARED }),
    }
}

fn find_state(states: &[Vec<u8>], word: &[u8]) -> Option<u32>
    requires { length states.now ≤ STATE_LIMIT }
    ensures { result ≡ place_of (words_of states.now) word.now }
{
    place_in(states, word).map(|place| place as u32)
}

fn place_in(states: &[Vec<u8>], word: &[u8]) -> Option<usize>
    ensures place { result ≡ position (λ state. bytes_eq word.now state.items) states.now }
    ensures within { IfSome result (λ place. place < length states.now) }
{
    states.iter().position(|state| word == state.as_slice())
}

// The state of a slot that a word spells. Fault 5 where it spells none.
fn fixed_state(word: Option<&[u8]>) -> Result<Option<State>, LineFault>
    ensures { result ≡ fixed_word spelt_state (option_copied word.entry) }
{
    let Some(word) = word else { return Ok(None) };
    match spelt_state(word) {
        Some(state) => Ok(Some(state)),
        None => Err(LineFault { number: WRONG_WORD }),
    }
}

fn spelt_state(word: &[u8]) -> Option<State>
    ensures { result ≡ spelt_state word.now }
{
    if word == b"closed".as_slice() {
        Some(State::Closed)
    } else if word == b"opening".as_slice() {
        Some(State::Opening)
    } else if word == b"opened".as_slice() {
        Some(State::Opened)
    } else if word == b"flowing".as_slice() {
        Some(State::Flowing)
    } else if word == b"closing".as_slice() {
        Some(State::Closing)
    } else {
        None
    }
}

fn waits_for(word: &[u8]) -> Option<WaitWord>
    ensures { result ≡ waits_for word.now }
{
    if word == b"is".as_slice() {
        Some(WaitWord::Is)
    } else if word == b"told".as_slice() {
        Some(WaitWord::Told)
    } else {
        None
    }
}
