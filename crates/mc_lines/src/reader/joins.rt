//! Lines by which channels join after the commands, and what they are read from.

ghost use Rattle.std.specs.Prelude.{◌≡◌, ◌≤◌, IfOk, OnOk, length};
ghost use Rattle.mc_lines.specs.BoxLines.{CanJoin};
ghost use Rattle.mc_lines.specs.Forms.{IsInForm};
ghost use Rattle.mc_lines.specs.JoinReadings.{ReadsJoin, SpellsJoin, lesser};
ghost use Rattle.mc_lines.specs.Joins.{after_commands, check_joins, has_program, names_programmed, with_command};
ghost use Rattle.mc_lines.specs.Rules.{is_pending};
ghost use Rattle.mc_script.specs.Places.{box_named};
ghost use Rattle.std.specs.Option.{option_copied};
ghost use Rattle.mc_lines.specs.declared.limit.TheConstants.{CHANNEL_LIMIT};

use crate::reader::Reader;
use crate::reader::channels::ChannelLine;
use crate::section::Section;
use mc_box::Shape;
use mc_model::Channel;
use mc_program_lines::ReadFault;
use mc_script::rule::{NOT_SETTLED, WRONG_WORD};
use mc_script::{Command, LineFault};
use mc_text::{FirstWords, Names, Words};
use std::alloc::AllocError;

/// Of the fault of a line and a rule that may be broken, too, the one with the lesser number.
pub fn lesser(number: u8, more: bool, fault: LineFault) -> LineFault
    ensures { result ≡ record { number = lesser number more fault.number } }
{
    if more && number < fault.number {
        return LineFault { number };
    }
    fault
}

impl Reader {
    /// The names of what was declared.
    pub fn names(&self) -> &Names
        ensures { result.now ≡ self.now.names }
    {
        &self.names
    }

    /// The shapes of the boxes.
    pub fn shape(&self) -> &Shape
        ensures { result.now ≡ self.now.shape }
    {
        &self.shape
    }

    /// The channels, in the order of their numbers.
    pub fn channels(&self) -> &[Channel]
        ensures channels { result.now ≡ self.now.channels }
        ensures few { length result.now ≤ CHANNEL_LIMIT }
    {
        self.plan.channels()
    }

    /// A command comes last.
    pub fn push_command(&mut self, command: Command) -> Result<(), AllocError>
        requires { IsInForm self.old }
        ensures pushed { OnOk result (self.new ≡ with_command self.old command) }
        ensures in_form { OnOk result (IsInForm self.new) }
    {
        self.commands.push(command)?;
        self.section = Section::Commands;
        Ok(())
    }

    // Whether the box that a word names has a program.
    fn is_programmed(&self, word: Option<&[u8]>) -> bool
        ensures { result ≡ has_program self.now.shape (box_named self.now.names (option_copied word.entry)) }
    {
        let Some(word) = word else { return false };
        let Some(who) = self.names.find_box(word) else {
            return false;
        };
        match self.shape.boxes.get(who as usize) {
            Some(of_box) => of_box.programmed,
            None => false,
        }
    }

    // Whether a box that a `join` line names has a program.
    fn names_programmed<'a>(&self, words: Words<'a>) -> bool
        ensures { result ≡ names_programmed self.now words.entry }
    {
        let parts = FirstWords::new(words);
        self.is_programmed(parts.second) || self.is_programmed(parts.fourth)
    }

    // What a `join` line declares, where channels are declared.
    fn join_line<'a>(&self, words: Words<'a>) -> Result<ChannelLine<'a>, LineFault>
        requires in_form { IsInForm self.now }
        requires among { self.now.section ≡ Section.Channels }
        ensures read { SpellsJoin self.now words.entry result }
        ensures can_join { IfOk result (CanJoin self.now) }
    {
        let programmed = self.names_programmed(words.again());
        let line = match self.channel_line(words) {
            Ok(line) => line,
            Err(fault) => return Err(lesser(WRONG_WORD, programmed, fault)),
        };
        self.check_joins(programmed)?;
        Ok(line)
    }

    // Whether a channel may join here: no box of it has a program, and commands were settled.
    fn check_joins(&self, programmed: bool) -> Result<(), LineFault>
        ensures { result ≡ check_joins programmed (is_pending self.now.commands) }
    {
        if programmed {
            return Err(LineFault { number: WRONG_WORD });
        }
        if self.is_pending() {
            return Err(LineFault {
                number: NOT_SETTLED,
            });
        }
        Ok(())
    }

    /// Reads `join MEDIUM BOX SLOT BOX SLOT` from the medium on, wherever the line stands.
    pub fn read_join<'a>(&mut self, words: Words<'a>) -> Result<ChannelLine<'a>, ReadFault>
        requires { IsInForm self.old }
        ensures read { ReadsJoin self.old words.entry result self.new }
        ensures in_form { OnOk result (IsInForm self.new) }
    {
        self.section = Section::Channels;
        let line = self.join_line(words)?;
        self.join(line.from, line.to, line.medium)?;
        self.add_slots(&line)?;
        self.end_channels();
        Ok(line)
    }

    // Commands may come again.
    #[tactic(auto, using(crate::proofs::AlsoBroken::after_in_form))]
    fn end_channels(&mut self)
        requires { IsInForm self.old }
        ensures is { self.new ≡ after_commands self.old }
        ensures in_form { IsInForm self.new }
    {
        self.section = Section::Commands;
    }
}
