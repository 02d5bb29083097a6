//! The lines `begin`, `journal` and `grow`, and the commands between them.

ghost use Rattle.std.specs.Prelude.{◌≡◌, OnOk};
ghost use Rattle.mc_script.specs.Meaning.{ReadsCommand};
ghost use Rattle.mc_lines.specs.Forms.{IsInForm};
ghost use Rattle.mc_lines.specs.LineReadings.{ReadsCommandLine, ReadsKind};
ghost use Rattle.mc_lines.specs.Rules.{command_line_rules, is_pending};

use crate::limit::COMMAND_LIMIT;
use crate::reader::Reader;
use crate::section::{Keyword, Section};
use mc_program_lines::ReadFault;
use mc_script::keyword::CommandWord;
use mc_script::rule::{EXTRA_WORD, LIMIT_PASSED, NOT_SETTLED, UNFINISHED, WRONG_WORD};
use mc_script::{Command, LineFault, read_kind};
use mc_text::Words;

impl Reader {
    /// Reads `begin`, after which no word stands.
    pub fn read_begin<'a>(&mut self, mut words: Words<'a>) -> Result<(), ReadFault>
        requires { IsInForm self.old }
        ensures declared { ReadsKind self.old Keyword.Begin words.entry result self.new }
        ensures in_form { OnOk result (IsInForm self.new) }
    {
        if self.is_late(Section::Begin) {
            return Err(ReadFault::Line(LineFault { number: WRONG_WORD }));
        }
        if words.next_word().is_some() {
            return Err(ReadFault::Line(LineFault { number: EXTRA_WORD }));
        }
        if self.is_unfinished() {
            return Err(ReadFault::Line(LineFault { number: UNFINISHED }));
        }
        self.section = Section::Commands;
        self.begun = true;
        Ok(())
    }

    /// Reads `journal`, after which no word stands. It ends the commands.
    pub fn read_journal<'a>(&mut self, mut words: Words<'a>) -> Result<(), ReadFault>
        requires { IsInForm self.old }
        ensures declared { ReadsKind self.old Keyword.Journal words.entry result self.new }
        ensures in_form { OnOk result (IsInForm self.new) }
    {
        if !(self.begun && self.tail.has_journal()) {
            return Err(ReadFault::Line(LineFault { number: WRONG_WORD }));
        }
        if words.next_word().is_some() {
            return Err(ReadFault::Line(LineFault { number: EXTRA_WORD }));
        }
        Ok(())
    }

    /// Reads `grow`, after which no word stands. It ends the commands, the last of which must be a settle.
    pub fn read_grow<'a>(&mut self, mut words: Words<'a>) -> Result<(), ReadFault>
        requires { IsInForm self.old }
        ensures declared { ReadsKind self.old Keyword.Grow words.entry result self.new }
        ensures in_form { OnOk result (IsInForm self.new) }
    {
        if !(self.begun && self.tail.has_growth()) {
            return Err(ReadFault::Line(LineFault { number: WRONG_WORD }));
        }
        if words.next_word().is_some() {
            return Err(ReadFault::Line(LineFault { number: EXTRA_WORD }));
        }
        if self.is_pending() {
            return Err(ReadFault::Line(LineFault {
                number: NOT_SETTLED,
            }));
        }
        Ok(())
    }

    /// Whether commands came since the last settle.
    pub fn is_pending(&self) -> bool
        ensures { result ≡ is_pending self.now.commands }
    {
        matches!(self.commands.last(), Some(Command::Stimulus(_)))
    }

    /// The command that a line of this kind spells, if there may be one more.
    #[tactic(auto, using(crate::proofs::FirstBroken::of_the_first, crate::proofs::FirstBroken::of_the_others))]
    pub fn command_line<'a>(
        &self,
        kind: CommandWord,
        words: Words<'a>,
    ) -> Result<Command, LineFault>
        requires { IsInForm self.now }
        ensures { ReadsCommand self.now.names kind (command_line_rules self.now kind words.entry) words.entry result }
    {
        let command = read_kind(&self.names, &self.shape, kind, words)?;
        if COMMAND_LIMIT <= self.commands.len() {
            return Err(LineFault {
                number: LIMIT_PASSED,
            });
        }
        if self.is_unfinished() {
            return Err(LineFault { number: UNFINISHED });
        }
        Ok(command)
    }

    /// Reads a command of a kind, by the words after the first.
    pub fn read_command<'a>(&mut self, kind: CommandWord, words: Words<'a>) -> Result<(), ReadFault>
        requires { IsInForm self.old }
        ensures declared { ReadsCommandLine self.old kind words.entry result self.new }
        ensures in_form { OnOk result (IsInForm self.new) }
    {
        let command = self.command_line(kind, words)?;
        self.push_command(command)?;
        Ok(())
    }
}
