//! The lines of a text, one after the other, and what they declare.

ghost use Rattle.std.specs.Prelude.{◌≡◌, ◌+◌, ◌<◌, ◌^◌, ◌∷◌, length, OnOk, map};
ghost use Rattle.std.specs.Option.{option_copied};
ghost use Rattle.mc_lines.specs.BoxLines.{box_seen};
ghost use Rattle.mc_lines.specs.Forms.{IsInForm};
ghost use Rattle.mc_lines.specs.LineReadings.{ReadsEntry, ReadsKind, ReadsLine, ReadsVersion, ReadsWords};
ghost use Rattle.mc_lines.specs.Rules.{end_fault, is_late, is_unfinished, open_block};
ghost use Rattle.mc_lines.specs.SoFar.{nothing};

mod boxes;
mod channels;
mod codecs;
mod commands;
mod details;
mod joins;
mod programs;
mod sends;

use crate::keyword::keyword_of;
use crate::places::{is_second, is_version};
use crate::section::{Keyword, Section};
use crate::tail::Tail;
pub use channels::ChannelLine;
pub use joins::lesser;
use mc_box::Shape;
use mc_plan::Plan;
use mc_program_lines::{Block, ReadFault, is_unfinished};
use mc_script::rule::{NO_BEGIN, NO_VERSION_LINE, TEXT_TOO_LONG, UNFINISHED, WRONG_WORD};
use mc_script::{Command, LineFault, begins_hash, check_bytes};
use mc_text::{Names, Words};
use std::alloc::Global;
use std::marker::Model;

/// What a text declares: names, the shapes of the boxes, the plan of boxes and channels, programs, and commands.
#[derive(Drop)]
pub struct Declarations {
    pub names: Names,
    pub shape: Shape,
    pub plan: Plan,
    pub blocks: Vec<Block>,
    pub commands: Vec<Command>,
}

/// What the lines of a text so far have declared. After an error nothing is said of it.
#[derive(Drop)]
pub struct Reader {
    alloc: Global,
    tail: Tail,
    section: Section,
    versioned: bool,
    sends_apart: bool,
    begun: bool,
    names: Names,
    shape: Shape,
    plan: Plan,
    senders: Vec<u32>,
    blocks: Vec<Block>,
    commands: Vec<Command>,
}

impl Model for Reader {
    ghost use Rattle.std.specs.Prelude.{◌≤◌, length, map};
    ghost use Rattle.mc_lines.specs.BoxLines.{box_seen};
    ghost use Rattle.mc_lines.specs.SoFar.{Declared};

    ghost Value = { Declared };

    ghost view = { λ r. record {
      tail = r.tail;
      section = r.section;
      versioned = r.versioned;
      sends_apart = r.sends_apart;
      begun = r.begun;
      names = r.names;
      shape = r.shape;
      boxes = map box_seen r.plan.boxes;
      senders = r.senders.items;
      channels = r.plan.channels;
      blocks = r.blocks.items;
      commands = r.commands.items;
    } };

    ghost use Rattle.mc_lines.specs.declared.limit.TheConstants.{CHANNEL_LIMIT};

    ghost invariant = { λ r. length r.plan.channels ≤ CHANNEL_LIMIT };
}

impl Reader {
    /// Nothing was read yet of a text that may have this tail.
    pub fn new(alloc: Global, tail: Tail) -> Reader
        ensures nothing { result ≡ nothing tail }
        ensures in_form { IsInForm result }
    {
        Reader {
            alloc,
            tail,
            section: Section::Version,
            versioned: false,
            sends_apart: false,
            begun: false,
            names: Names::new(alloc),
            shape: Shape {
                boxes: Vec::new(alloc),
            },
            plan: Plan::new(alloc),
            senders: Vec::new(alloc),
            blocks: Vec::new(alloc),
            commands: Vec::new(alloc),
        }
    }

    // Whether a later section has begun than this one.
    fn is_late(&self, section: Section) -> bool
        ensures { result ≡ is_late self.now section }
    {
        section.rank() < self.section.rank()
    }

    // The program that is open.
    fn open_block(&self) -> Option<&Block>
        ensures { option_copied result ≡ open_block self.now }
    {
        match self.section {
            Section::Programs => self.blocks.last(),
            _ => None,
        }
    }

    // Whether a program is open that lacks a part, or whose last part lacks a goal.
    fn is_unfinished(&self) -> bool
        ensures { result ≡ is_unfinished self.now }
    {
        is_unfinished(self.open_block())
    }

    /// Reads a line of this kind. The words are those after the first.
    pub fn read_kind<'a>(&mut self, kind: Keyword, words: Words<'a>) -> Result<(), ReadFault>
        requires { IsInForm self.old }
        ensures declared { ReadsKind self.old kind words.entry result self.new }
        ensures in_form { OnOk result (IsInForm self.new) }
    {
        match kind {
            Keyword::Media => Err(ReadFault::Line(LineFault { number: WRONG_WORD })),
            Keyword::Codec => self.read_codec(words),
            Keyword::Dev => self.read_device(words),
            Keyword::Feat => self.read_feature(words),
            Keyword::Send => self.read_send(words),
            Keyword::Chan => self.read_channel(words),
            Keyword::Also => self.read_also(words),
            Keyword::Prog => self.read_program(words),
            Keyword::State => self.read_state(words),
            Keyword::Goal => self.read_goal(words),
            Keyword::When => self.read_when(words),
            Keyword::Begin => self.read_begin(words),
            Keyword::Journal => self.read_journal(words),
            Keyword::Grow => self.read_grow(words),
            Keyword::Command(kind) => self.read_command_word(kind, words),
        }
    }

    // Reads a line of words after the version line. The words are those after the first.
    fn read_words<'a>(&mut self, first: &[u8], words: Words<'a>) -> Result<(), ReadFault>
        requires { IsInForm self.old }
        ensures declared { ReadsWords self.old (first.now ∷ words.entry) result self.new }
        ensures in_form { OnOk result (IsInForm self.new) }
    {
        match keyword_of(first) {
            Some(kind) => self.read_kind(kind, words),
            None => Err(ReadFault::Line(LineFault { number: WRONG_WORD })),
        }
    }

    // Reads the first line of words, which must be the version line.
    fn read_version<'a>(&mut self, words: Words<'a>) -> Result<(), ReadFault>
        requires { IsInForm self.old }
        ensures declared { ReadsVersion self.old words.entry result self.new }
        ensures in_form { OnOk result (IsInForm self.new) }
    {
        if !is_version(words.again()) {
            return Err(ReadFault::Line(LineFault {
                number: NO_VERSION_LINE,
            }));
        }
        self.versioned = true;
        self.sends_apart = is_second(words);
        Ok(())
    }

    // Reads the words of a line, if it is neither blank nor a comment.
    #[tactic(auto, using(crate::proofs::Entries::after_skipped, crate::proofs::Entries::after_version))]
    fn read_entry<'a>(&mut self, mut words: Words<'a>) -> Result<(), ReadFault>
        requires { IsInForm self.old }
        ensures declared { ReadsEntry self.old words.entry result self.new }
        ensures in_form { OnOk result (IsInForm self.new) }
    {
        let all = words.again();
        let Some(first) = words.next_word() else {
            return Ok(());
        };
        if begins_hash(first) {
            return Ok(());
        }
        if self.versioned {
            return self.read_words(first, words);
        }
        self.read_version(all)
    }

    /// Reads the next line of a text of `total` bytes, with so many bytes before it.
    pub fn read_line(&mut self, total: usize, before: usize, line: &[u8]) -> Result<(), ReadFault>
        requires small { before + length line.now < 2 ^ 64 }
        requires in_form { IsInForm self.old }
        ensures declared { ReadsLine total before self.old line.now result self.new }
        ensures in_form { OnOk result (IsInForm self.new) }
    {
        let limit = self.tail.text_limit();
        if limit < total && before <= limit && limit <= before + line.len() {
            return Err(ReadFault::Line(LineFault {
                number: TEXT_TOO_LONG,
            }));
        }
        check_bytes(line)?;
        self.read_entry(Words::new(line))
    }

    /// The number of the rule that the end of the text breaks, if it breaks one.
    pub fn end_fault(&self) -> Option<u8>
        ensures { result ≡ end_fault self.now }
    {
        if self.is_unfinished() {
            return Some(UNFINISHED);
        }
        if self.versioned && !self.begun {
            return Some(NO_BEGIN);
        }
        if !self.versioned {
            return Some(NO_VERSION_LINE);
        }
        None
    }

    /// What was declared.
    pub fn into_parts(self) -> Declarations
        ensures names { result.names ≡ self.names }
        ensures shape { result.shape ≡ self.shape }
        ensures boxes { map box_seen result.plan.boxes ≡ self.boxes }
        ensures channels { result.plan.channels ≡ self.channels }
        ensures blocks { result.blocks.items ≡ self.blocks }
        ensures commands { result.commands.items ≡ self.commands }
    {
        Declarations {
            names: self.names,
            shape: self.shape,
            plan: self.plan,
            blocks: self.blocks,
            commands: self.commands,
        }
    }
}
