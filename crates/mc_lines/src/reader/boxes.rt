//! Lines that declare boxes.

ghost use Rattle.std.specs.Prelude.{◌≡◌, ◌<◌, IfOk, IsTrue, OnOk, length};
ghost use Rattle.mc_text.specs.Spelling.{is_spelt};
ghost use Rattle.mc_lines.specs.BoxLines.{box_seen};
ghost use Rattle.mc_lines.specs.Forms.{IsInForm};
ghost use Rattle.mc_lines.specs.Meaning.{with_planned};
ghost use Rattle.mc_lines.specs.LineReadings.{ReadsBox, ReadsKind, SpellsDevice};

use crate::codec_words::{
    codec_words, has_bad_version, is_overfull, listed, lists_undeclared, version_of,
};
use crate::places::overlong;
use crate::reader::Reader;
use crate::section::{Keyword, Section};
use crate::wanting::plan_wanting;
use mc_box::{BoxShape, Kind};
use mc_plan::BoxPlan;
use mc_program_lines::ReadFault;
use mc_program_lines::word_list::has_repeat;
use mc_script::LineFault;
use mc_script::places::{is_misspelt, is_overlong};
use mc_script::rule::{
    EXTRA_WORD, GIVEN_TWICE, LIMIT_PASSED, MISSING_WORD, UNDECLARED, WRONG_VERSION, WRONG_WORD,
};
use mc_signal::CodecList;
use mc_text::limit::BOX_LIMIT;
use mc_text::{FirstWords, Words};
use std::alloc::AllocError;

/// What a `dev` line declares.
#[derive(Drop)]
pub struct DeviceLine<'a> {
    name: &'a [u8],
    planned: BoxPlan,
}

impl Reader {
    // What a `dev` line declares.
    fn device_line<'a>(&self, mut words: Words<'a>) -> Result<DeviceLine<'a>, LineFault>
        ensures read { SpellsDevice self.now words.entry result }
        ensures spelt { IfOk result (λ line. IsTrue (is_spelt line.name.now)) }
    {
        let name = words.next_word();
        let codecs = codec_words(words.again());
        if lists_undeclared(&self.names, codecs.again()) {
            return Err(LineFault { number: UNDECLARED });
        }
        if self.is_late(Section::Boxes) || is_misspelt(name) {
            return Err(LineFault { number: WRONG_WORD });
        }
        let Some(spelt) = name else {
            return Err(LineFault {
                number: MISSING_WORD,
            });
        };
        if has_bad_version(words.again()) {
            return Err(LineFault {
                number: WRONG_VERSION,
            });
        }
        if has_repeat(codecs.again()) {
            return Err(LineFault {
                number: GIVEN_TWICE,
            });
        }
        if is_overfull(codecs.again()) {
            // a name that is used comes before too many codecs
            let used = self.names.find_box(spelt).is_some();
            return Err(LineFault {
                number: if used { GIVEN_TWICE } else { LIMIT_PASSED },
            });
        }
        let codecs = listed(&self.names, codecs);
        let planned = BoxPlan {
            kind: Kind::Device,
            codecs,
            sends: codecs,
            first_version: version_of(words),
        };
        Ok(DeviceLine {
            name: spelt,
            planned,
        })
    }

    /// Reads `dev NAME CODEC CODEC ..` or `dev NAME VERSION CODEC CODEC ..` from the name on.
    pub fn read_device<'a>(&mut self, words: Words<'a>) -> Result<(), ReadFault>
        requires { IsInForm self.old }
        ensures declared { ReadsKind self.old Keyword.Dev words.entry result self.new }
        ensures in_form { OnOk result (IsInForm self.new) }
    {
        let line = self.device_line(words)?;
        self.add_box(line.name, line.planned)
    }

    /// Reads `feat NAME` from the name on.
    pub fn read_feature<'a>(&mut self, words: Words<'a>) -> Result<(), ReadFault>
        requires { IsInForm self.old }
        ensures declared { ReadsKind self.old Keyword.Feat words.entry result self.new }
        ensures in_form { OnOk result (IsInForm self.new) }
    {
        let parts = FirstWords::new(words);
        if self.is_late(Section::Boxes) || is_misspelt(parts.first) {
            return Err(ReadFault::Line(LineFault { number: WRONG_WORD }));
        }
        let Some(name) = parts.first else {
            return Err(ReadFault::Line(LineFault {
                number: MISSING_WORD,
            }));
        };
        if parts.second.is_some() {
            return Err(ReadFault::Line(LineFault { number: EXTRA_WORD }));
        }
        let planned = BoxPlan {
            kind: Kind::Feature,
            codecs: CodecList::none(),
            sends: CodecList::none(),
            first_version: 1,
        };
        self.add_box(name, planned)
    }

    // Adds a box last, without slots.
    fn add_box(&mut self, name: &[u8], planned: BoxPlan) -> Result<(), ReadFault>
        requires spelt { IsTrue (is_spelt name.now) }
        requires in_form { IsInForm self.old }
        ensures declared { ReadsBox self.old name.now (box_seen planned) result self.new }
        ensures in_form { OnOk result (IsInForm self.new) }
    {
        if is_overlong(Some(name)) {
            let used = self.names.find_box(name).is_some();
            return Err(overlong(used, BOX_LIMIT <= self.names.box_count()));
        }
        self.names.add_box(name)?;
        self.plan_box(planned)?;
        self.section = Section::Boxes;
        Ok(())
    }

    // Plans a box, which has no slots. There is room for it.
    fn plan_box(&mut self, planned: BoxPlan) -> Result<(), AllocError>
        requires { length self.old.boxes < BOX_LIMIT }
        ensures { OnOk result (self.new ≡ with_planned self.old (box_seen planned)) }
    {
        if let Err(fault) = self.plan.add(planned) {
            return Err(plan_wanting(fault));
        }
        self.shape.boxes.push(BoxShape {
            kind: planned.kind,
            media: Vec::new(self.alloc),
            programmed: false,
        })?;
        Ok(())
    }
}
