//! Lines that say what a device sends.

ghost use Rattle.std.specs.Prelude.{◌≡◌, ◌<◌, IfOk, Some, OnOk, length};
ghost use Rattle.mc_lines.specs.BoxLines.{send_seen};
ghost use Rattle.mc_lines.specs.Forms.{IsInForm};
ghost use Rattle.mc_lines.specs.LineReadings.{ReadsKind, SpellsSends};
ghost use Rattle.mc_lines.specs.Rules.{has_sent};

use crate::codec_words::{is_overfull, listed, lists_undeclared};
use crate::reader::Reader;
use crate::section::{Keyword, Section};
use mc_program_lines::ReadFault;
use mc_program_lines::word_list::has_repeat;
use mc_script::LineFault;
use mc_script::places::{known_box, needs_device};
use mc_script::rule::{GIVEN_TWICE, LIMIT_PASSED, MISSING_WORD, UNDECLARED, WRONG_WORD};
use mc_signal::CodecList;
use mc_text::Words;
use std::alloc::AllocError;

/// What a `send` line says: a device, and the codecs that it sends.
#[derive(Drop)]
pub struct SendLine {
    who: u32,
    sends: CodecList,
}

impl Reader {
    // What a `send` line says, where send lists stand apart.
    #[tactic(auto, using(crate::proofs::Missing::no_word_without_box))]
    fn send_line<'a>(&self, mut words: Words<'a>) -> Result<SendLine, LineFault>
        requires { IsInForm self.now }
        ensures read { SpellsSends self.now words.entry result }
        ensures there { IfOk result (λ line. line.who < length self.now.boxes) }
    {
        let who = known_box(&self.names, words.next_word())?;
        if lists_undeclared(&self.names, words.again()) {
            return Err(LineFault { number: UNDECLARED });
        }
        if self.is_late(Section::Boxes) {
            return Err(LineFault { number: WRONG_WORD });
        }
        needs_device(&self.shape, who)?;
        let Some(who) = who else {
            return Err(LineFault {
                number: MISSING_WORD,
            });
        };
        if self.has_sent(who) || has_repeat(words.again()) {
            return Err(LineFault {
                number: GIVEN_TWICE,
            });
        }
        if is_overfull(words.again()) {
            return Err(LineFault {
                number: LIMIT_PASSED,
            });
        }
        let sends = listed(&self.names, words);
        Ok(SendLine { who, sends })
    }

    // Whether a box had a `send` line.
    fn has_sent(&self, who: u32) -> bool
        ensures { result ≡ has_sent self.now.senders (Some who) }
    {
        self.senders.as_slice().iter().any(|sender| *sender == who)
    }

    /// Reads `send BOX CODEC CODEC ..` from the box on.
    pub fn read_send<'a>(&mut self, words: Words<'a>) -> Result<(), ReadFault>
        requires { IsInForm self.old }
        ensures declared { ReadsKind self.old Keyword.Send words.entry result self.new }
        ensures in_form { OnOk result (IsInForm self.new) }
    {
        if !self.sends_apart {
            return Err(ReadFault::Line(LineFault { number: WRONG_WORD }));
        }
        let line = self.send_line(words)?;
        self.set_sends(line)?;
        Ok(())
    }

    // A device sends what its line says.
    #[tactic(auto, using(crate::proofs::Sends::sends_seen))]
    fn set_sends(&mut self, line: SendLine) -> Result<(), AllocError>
        requires there { line.who < length self.old.boxes }
        ensures said { OnOk result (self.new ≡ send_seen self.old line) }
    {
        self.senders.push(line.who)?;
        self.plan.set_sends(line.who, line.sends);
        self.section = Section::Boxes;
        Ok(())
    }
}
