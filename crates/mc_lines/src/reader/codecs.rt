//! Lines that declare codecs.

ghost use Rattle.std.specs.Prelude.{IsTrue, OnOk};
ghost use Rattle.mc_text.specs.Spelling.{is_spelt};
ghost use Rattle.mc_lines.specs.Forms.{IsInForm};
ghost use Rattle.mc_lines.specs.LineReadings.{ReadsCodec, ReadsKind};

use crate::places::overlong;
use crate::reader::Reader;
use crate::section::{Keyword, Section};
use mc_program_lines::ReadFault;
use mc_script::LineFault;
use mc_script::places::{is_misspelt, is_overlong};
use mc_script::rule::{EXTRA_WORD, MISSING_WORD, WRONG_WORD};
use mc_text::limit::CODEC_LIMIT;
use mc_text::{FirstWords, Words};

impl Reader {
    /// Reads `codec NAME` from the name on.
    pub fn read_codec<'a>(&mut self, words: Words<'a>) -> Result<(), ReadFault>
        requires { IsInForm self.old }
        ensures declared { ReadsKind self.old Keyword.Codec words.entry result self.new }
        ensures in_form { OnOk result (IsInForm self.new) }
    {
        let parts = FirstWords::new(words);
        if self.is_late(Section::Codecs) || is_misspelt(parts.first) {
            return Err(ReadFault::Line(LineFault { number: WRONG_WORD }));
        }
        let Some(name) = parts.first else {
            return Err(ReadFault::Line(LineFault {
                number: MISSING_WORD,
            }));
        };
        if parts.second.is_some() {
            return Err(ReadFault::Line(LineFault { number: EXTRA_WORD }));
        }
        self.add_codec(name)
    }

    // Adds a codec last.
    fn add_codec(&mut self, name: &[u8]) -> Result<(), ReadFault>
        requires spelt { IsTrue (is_spelt name.now) }
        requires in_form { IsInForm self.old }
        ensures declared { ReadsCodec self.old name.now result self.new }
        ensures in_form { OnOk result (IsInForm self.new) }
    {
        if is_overlong(Some(name)) {
            let used = self.names.find_codec(name).is_some();
            return Err(overlong(used, CODEC_LIMIT <= self.names.codec_count()));
        }
        self.names.add_codec(name)?;
        self.section = Section::Codecs;
        Ok(())
    }
}
