//! Lines of programs.

ghost use Rattle.std.specs.Prelude.{◌≡◌, ◌<◌, OnOk, length};
ghost use Rattle.mc_lines.specs.Forms.{IsInForm};
ghost use Rattle.mc_lines.specs.Meaning.{programmed_shape};
ghost use Rattle.mc_lines.specs.LineReadings.{ReadsKind, ReadsProgramLink};
ghost use Rattle.mc_lines.specs.Rules.{is_program_link};

use crate::reader::Reader;
use crate::section::{Keyword, Section};
use mc_box::Shape;
use mc_program_lines::{Block, ReadFault, program_line, state_line};
use mc_script::LineFault;
use mc_script::keyword::CommandWord;
use mc_script::rule::WRONG_WORD;
use mc_text::Words;

impl Reader {
    /// Reads `prog BOX STATE STATE ..` from the box on.
    pub fn read_program<'a>(&mut self, mut words: Words<'a>) -> Result<(), ReadFault>
        requires { IsInForm self.old }
        ensures declared { ReadsKind self.old Keyword.Prog words.entry result self.new }
        ensures in_form { OnOk result (IsInForm self.new) }
    {
        let late = self.is_late(Section::Programs);
        let who = program_line(
            &self.names,
            &self.shape,
            late,
            self.open_block(),
            words.again(),
        )?;
        words.next_word();
        let block = Block::new(self.alloc, who, words)?;
        self.blocks.push(block)?;
        set_programmed(&mut self.shape, who);
        self.section = Section::Programs;
        Ok(())
    }

    /// Reads `state NAME` from the name on.
    pub fn read_state<'a>(&mut self, words: Words<'a>) -> Result<(), ReadFault>
        requires { IsInForm self.old }
        ensures declared { ReadsKind self.old Keyword.State words.entry result self.new }
        ensures in_form { OnOk result (IsInForm self.new) }
    {
        let late = self.is_late(Section::Programs);
        state_line(late, self.open_block(), words)?;
        if let Some(block) = self.blocks.last_mut() {
            block.begin_part(self.alloc, &self.names)?;
        }
        Ok(())
    }

    /// Reads `goal SLOT GOAL` from the slot on, which must stand in a part.
    pub fn read_goal<'a>(&mut self, words: Words<'a>) -> Result<(), ReadFault>
        requires { IsInForm self.old }
        ensures declared { ReadsKind self.old Keyword.Goal words.entry result self.new }
        ensures in_form { OnOk result (IsInForm self.new) }
    {
        match (self.section, self.blocks.last_mut()) {
            (Section::Programs, Some(block)) => Ok(block.read_goal(&self.names, words)?),
            _ => Err(ReadFault::Line(LineFault { number: WRONG_WORD })),
        }
    }

    /// Reads `when is ..` or `when told ..` from the second word on, which must stand in a part.
    pub fn read_when<'a>(&mut self, words: Words<'a>) -> Result<(), ReadFault>
        requires { IsInForm self.old }
        ensures declared { ReadsKind self.old Keyword.When words.entry result self.new }
        ensures in_form { OnOk result (IsInForm self.new) }
    {
        match (self.section, self.blocks.last_mut()) {
            (Section::Programs, Some(block)) => block.read_when(&mut self.names, words),
            _ => Err(ReadFault::Line(LineFault { number: WRONG_WORD })),
        }
    }

    /// Reads a line that a command's word opens, from the second word on: in the programs `link` is
    /// a part's line, and all else is a command.
    pub fn read_command_word<'a>(
        &mut self,
        kind: CommandWord,
        words: Words<'a>,
    ) -> Result<(), ReadFault>
        requires { IsInForm self.old }
        ensures declared { ReadsKind self.old (Keyword.Command kind) words.entry result self.new }
        ensures in_form { OnOk result (IsInForm self.new) }
    {
        if is_program_link(self.section, kind) {
            self.read_program_link(words)
        } else {
            self.read_command(kind, words)
        }
    }

    // Reads `link SLOT SLOT` from the first slot on, which must stand in a part.
    fn read_program_link<'a>(&mut self, words: Words<'a>) -> Result<(), ReadFault>
        requires { IsInForm self.old }
        ensures declared { ReadsProgramLink self.old words.entry result self.new }
        ensures in_form { OnOk result (IsInForm self.new) }
    {
        match (self.section, self.blocks.last_mut()) {
            (Section::Programs, Some(block)) => {
                Ok(block.read_link(&self.names, &self.shape, words)?)
            }
            _ => Err(ReadFault::Line(LineFault { number: WRONG_WORD })),
        }
    }
}

// Whether a line of this kind is a part's in this section, and no command.
fn is_program_link(section: Section, kind: CommandWord) -> bool
    ensures { result ≡ is_program_link section kind }
{
    matches!((section, kind), (Section::Programs, CommandWord::Link))
}

// A box has a program.
fn set_programmed(shape: &mut Shape, who: u32)
    requires { who < length shape.old }
    ensures { shape.new ≡ programmed_shape shape.old who }
{
    let of_box = &mut shape.boxes[who as usize];
    of_box.programmed = true;
}
