//! The program of a box, and the lines that declare it.

ghost use Rattle.std.specs.Prelude.{◌≡◌, ◌<◌, ◌≤◌, IfOk, IsSome, Some, drop, length, OnErr, OnOk};
ghost use Rattle.std.specs.Option.{option_and_then, option_copied};
ghost use Rattle.std.specs.List.{slice_get};
ghost use Rattle.mc_script.specs.Places.{Fits};
ghost use Rattle.mc_program_lines.specs.Programs.{has_program, is_not_next, is_other, is_unfinished_block, new_block, open_part_of, part_lacks_goal, with_new_part, words_of, FitsBox};
ghost use Rattle.mc_program_lines.specs.LineReadings.{BlockReadsGoal, BlockReadsLink, BlockReadsWhen, SpellsProgram, SpellsState};

use crate::fault::ReadFault;
use crate::limit::STATE_LIMIT;
use crate::part::StatePart;
use crate::word_list::{are_more_than, has_misspelt, has_overlong, has_repeat};
use mc_box::Shape;
use mc_script::LineFault;
use mc_script::places::{known_box, needs_feature};
use mc_script::rule::{
    EXTRA_WORD, GIVEN_TWICE, LIMIT_PASSED, MISSING_WORD, NAME_TOO_LONG, UNFINISHED, WRONG_WORD,
};
use mc_text::{Names, Words};
use std::alloc::{AllocError, Global};
use std::marker::Model;

/// A program as its lines declare it: its box, the names of its states, and the parts of those that were begun.
/// The last part is still open. After a fault nothing is said of it.
#[derive(Debug, Drop)]
pub struct Block {
    pub who: u32,
    pub states: Vec<Vec<u8>>,
    pub parts: Vec<StatePart>,
}

impl Model for Block {
    ghost use Rattle.std.specs.Prelude.{◌≤◌, length};
    ghost use Rattle.mc_program_lines.specs.Programs.{BlockState, words_of};
    ghost use Rattle.mc_program_lines.specs.declared.limit.TheConstants.{STATE_LIMIT};

    ghost Value = { BlockState };

    ghost view = { λ block. record {
      who = block.who;
      states = words_of block.states.items;
      parts = block.parts.items;
    } };

    ghost invariant = { λ block. length block.states.items ≤ STATE_LIMIT };
}

impl Block {
    /// The program of a box with these states, without parts.
    pub fn new<'a>(alloc: Global, who: u32, states: Words<'a>) -> Result<Block, AllocError>
        requires { length states ≤ STATE_LIMIT }
        ensures { IfOk result (λ block. block ≡ new_block who states.entry) }
    {
        Ok(Block {
            who,
            states: owned(alloc, states)?,
            parts: Vec::new(alloc),
        })
    }

    /// Whether some slot of the open part has no goal yet, where a part is open.
    pub fn lacks_goal(&self) -> bool
        ensures { result ≡ part_lacks_goal (open_part_of self.now) }
    {
        match self.parts.last() {
            None => false,
            Some(part) => part.lacks_goal(),
        }
    }

    /// Whether some slot of the open part has no goal yet, or some state has no part.
    pub fn is_unfinished(&self) -> bool
        ensures { result ≡ is_unfinished_block (Some self.now) }
    {
        self.lacks_goal() || self.parts.len() < self.states.len()
    }

    // Whether a word isn't the state whose part is next.
    fn is_other(&self, word: &[u8]) -> bool
        ensures { result ≡ is_other (slice_get self.now.states (length self.now.parts)) word.now }
    {
        match self.states.get(self.parts.len()) {
            None => true,
            Some(next) => next.as_slice() != word,
        }
    }

    /// Begins the part of the next state.
    pub fn begin_part(&mut self, alloc: Global, names: &Names) -> Result<(), AllocError>
        requires { self.old.who < length names.now.boxes }
        ensures begun { OnOk result (self.new ≡ with_new_part names.now self.old) }
        ensures fits { OnOk result (FitsBox names.now self.new) }
        ensures unchanged { OnErr result (self.new ≡ self.old) }
    {
        let part = StatePart::new(alloc, names.slot_count(self.who))?;
        self.parts.push(part)?;
        Ok(())
    }

    /// Reads `goal SLOT GOAL` from the slot on. Fault 5 where no part is open.
    pub fn read_goal<'a>(&mut self, names: &Names, words: Words<'a>) -> Result<(), LineFault>
        requires { FitsBox names.now self.old }
        ensures goal { BlockReadsGoal names.now self.old words.entry result self.new }
        ensures fits { OnOk result (FitsBox names.now self.new) }
    {
        match self.parts.last_mut() {
            None => Err(LineFault { number: WRONG_WORD }),
            Some(part) => part.read_goal(names, self.who, words),
        }
    }

    /// Reads `link SLOT SLOT` from the first slot on. Fault 5 where no part is open.
    pub fn read_link<'a>(
        &mut self,
        names: &Names,
        shape: &Shape,
        words: Words<'a>,
    ) -> Result<(), LineFault>
        requires names { Fits names.now shape.now }
        requires block { FitsBox names.now self.old }
        ensures link { BlockReadsLink names.now shape.now self.old words.entry result self.new }
        ensures fits { OnOk result (FitsBox names.now self.new) }
    {
        match self.parts.last_mut() {
            None => Err(LineFault { number: WRONG_WORD }),
            Some(part) => part.read_link(names, shape, self.who, words),
        }
    }

    /// Reads `when is SLOT STATE TARGET` or `when told WORD TARGET` from the second word on. Fault 5 where no part is
    /// open. A told word that is new gets a number. Memory runs out only where the line breaks no rule; the program is
    /// as it was then, and the word may have its number.
    pub fn read_when<'a>(&mut self, names: &mut Names, words: Words<'a>) -> Result<(), ReadFault>
        requires { FitsBox names.old self.old }
        ensures when { BlockReadsWhen names.old self.old words.entry result (names.new, self.new) }
        ensures kept { OnErr result (self.new ≡ self.old) }
        ensures fits { OnOk result (FitsBox names.new self.new) }
        ensures boxes { OnOk result (names.new.boxes ≡ names.old.boxes) }
        ensures slots { OnOk result (names.new.slots ≡ names.old.slots) }
    {
        match self.parts.last_mut() {
            None => Err(ReadFault::Line(LineFault { number: WRONG_WORD })),
            Some(part) => part.read_when(names, self.who, &self.states, words),
        }
    }
}

/// Whether a program is open that is unfinished.
pub fn is_unfinished(block: Option<&Block>) -> bool
    ensures { result ≡ is_unfinished_block (option_copied block.entry) }
{
    match block {
        None => false,
        Some(block) => block.is_unfinished(),
    }
}

/// Reads `prog BOX STATE STATE ..` from the box on: the box, after which its states stand.
pub fn program_line<'a>(
    names: &Names,
    shape: &Shape,
    late: bool,
    block: Option<&Block>,
    words: Words<'a>,
) -> Result<u32, LineFault>
    requires { Fits names.now shape.now }
    ensures line { SpellsProgram names.now shape.now late (option_copied block.entry) words.entry result }
    ensures fits { IfOk result (λ who. FitsBox names.now (new_block who (drop 1 words.entry))) }
    ensures few { OnOk result (length (drop 1 words.entry) ≤ STATE_LIMIT) }
{
    let mut states = words;
    let who = known_box(names, states.next_word())?;
    needs_feature(shape, who)?;
    if late || has_misspelt(states.again()) {
        return Err(LineFault { number: WRONG_WORD });
    }
    let (Some(who), Some(_)) = (who, states.again().next_word()) else {
        return Err(LineFault {
            number: MISSING_WORD,
        });
    };
    if has_program(shape, who) || has_repeat(states.again()) {
        return Err(LineFault {
            number: GIVEN_TWICE,
        });
    }
    if are_more_than(STATE_LIMIT, states.again()) {
        return Err(LineFault {
            number: LIMIT_PASSED,
        });
    }
    if is_unfinished(block) {
        return Err(LineFault { number: UNFINISHED });
    }
    if has_overlong(states) {
        return Err(LineFault {
            number: NAME_TOO_LONG,
        });
    }
    Ok(who)
}

fn has_program(shape: &Shape, who: u32) -> bool
    requires { who < length shape.now }
    ensures { result ≡ has_program shape.now (Some who) }
{
    let shape = &shape.boxes[who as usize];
    shape.programmed
}

// Words with memory of their own.
fn owned<'a>(alloc: Global, mut words: Words<'a>) -> Result<Vec<Vec<u8>>, AllocError>
    ensures { IfOk result (λ owned. words_of owned.items ≡ words.entry) }
{
    let mut owned = Vec::new(alloc);
    while let Some(word) = words.next_word() {
        owned.push(Vec::from_slice(alloc, word)?)?;
    }
    Ok(owned)
}

/// Reads `state NAME` from the name on, which must be the next of the open program's states.
pub fn state_line<'a>(
    late: bool,
    block: Option<&Block>,
    mut words: Words<'a>,
) -> Result<(), LineFault>
    ensures line { SpellsState late (option_copied block.entry) words.entry result }
    ensures begun { OnOk result (IsSome block.entry) }
{
    let name = words.next_word();
    if late || is_not_next(block, name) {
        return Err(LineFault { number: WRONG_WORD });
    }
    if name.is_none() {
        return Err(LineFault {
            number: MISSING_WORD,
        });
    }
    if words.next_word().is_some() {
        return Err(LineFault { number: EXTRA_WORD });
    }
    if lacks_goal(block) {
        return Err(LineFault { number: UNFINISHED });
    }
    Ok(())
}

// Whether a word stands there and isn't the state of the program whose part is next.
fn is_not_next(block: Option<&Block>, word: Option<&[u8]>) -> bool
    ensures { result ≡ is_not_next (option_copied block.entry) (option_copied word.entry) }
{
    match (block, word) {
        (_, None) => false,
        (None, Some(_)) => true,
        (Some(block), Some(word)) => block.is_other(word),
    }
}

// Whether a program is open, and a part in it in which some slot has no goal.
fn lacks_goal(block: Option<&Block>) -> bool
    ensures { result ≡ part_lacks_goal (option_and_then open_part_of (option_copied block.entry)) }
{
    match block {
        None => false,
        Some(block) => block.lacks_goal(),
    }
}
