//! Lines that declare channels.

ghost use Rattle.std.specs.Prelude.{◌≡◌, ◌≢◌, ◌<◌, [], IfOk, IfSome, IsTrue, OnOk, Some, length};
ghost use Rattle.std.specs.Option.{is_some, option_copied};
ghost use Rattle.mc_text.specs.NameLists.{place_of, slot_names};
ghost use Rattle.mc_text.specs.Spelling.{is_name, is_spelt};
ghost use Rattle.mc_lines.specs.BoxLines.{CanJoin, CanWiden, IsOfLast, KnowsEnds, MayAddSlot, MayAddSlots, also_seen, channel_seen, check_join, check_slots, check_widen, last_ends, missing_word, slots_seen};
ghost use Rattle.mc_plan.specs.Plans.{last_channel};
ghost use Rattle.mc_lines.specs.Forms.{IsInForm};
ghost use Rattle.mc_lines.specs.Meaning.{with_new_channel, with_medium, with_new_slot, with_new_tunnel};
ghost use Rattle.mc_lines.specs.LineReadings.{ReadsKind, SpellsAlso, SpellsChannel, SpellsKind};

use crate::limit::CHANNEL_LIMIT;
use crate::places::fixed_medium;
use crate::reader::Reader;
use crate::section::{Keyword, Section};
use crate::wanting::plan_wanting;
use mc_box::Shape;
use mc_plan::PlanFault;
use mc_program_lines::{ReadFault, name_wanting};
use mc_script::LineFault;
use mc_script::places::{is_misspelt, is_overlong, known_box};
use mc_script::rule::{
    EXTRA_WORD, GIVEN_TWICE, LIMIT_PASSED, MISSING_WORD, NAME_TOO_LONG, SAME_BOX, WRONG_WORD,
};
use mc_signal::Medium;
use mc_text::{FirstWords, Words};
use std::alloc::AllocError;

/// What a `chan` line declares: its medium, its two boxes, and the names of the slot that each gets.
#[derive(Drop)]
pub struct ChannelLine<'a> {
    pub medium: Medium,
    pub from: u32,
    pub slot: &'a [u8],
    pub to: u32,
    pub far_slot: &'a [u8],
}

impl Reader {
    // What a `chan` line spells, in words that are known where they must be.
    fn channel_words<'a>(&self, words: Words<'a>) -> Result<ChannelLine<'a>, LineFault>
        ensures read { SpellsChannel self.now words.entry result }
        ensures known { IfOk result (KnowsEnds self.now) }
    {
        let parts = FirstWords::new(words);
        let from = known_box(&self.names, parts.second)?;
        let to = known_box(&self.names, parts.fourth)?;
        let medium = fixed_medium(parts.first)?;
        let Some(far_slot) = parts.fifth else {
            return Err(self.missing_word(from, parts.third));
        };
        // where the fifth word is there, so are those before it
        let (Some(medium), Some(from), Some(slot), Some(to)) = (medium, from, parts.third, to)
        else {
            unreachable!()
        };
        self.check_slots(slot, far_slot, parts.sixth)?;
        Ok(ChannelLine {
            medium,
            from,
            slot,
            to,
            far_slot,
        })
    }

    // Why a line of two slots isn't taken whose last word is missing: 5 where it comes too late or its first slot is
    // misspelt, which is asked only where its box is known, and else 6.
    fn missing_word(&self, from: Option<u32>, slot: Option<&[u8]>) -> LineFault
        ensures { result ≡ record { number = missing_word self.now (is_some from) (option_copied slot.entry) } }
    {
        let number = if self.is_late(Section::Channels) || from.is_some() && is_misspelt(slot) {
            WRONG_WORD
        } else {
            MISSING_WORD
        };
        LineFault { number }
    }

    // Whether the slots of a line may be spelt so, and no word is left over.
    fn check_slots(
        &self,
        slot: &[u8],
        far_slot: &[u8],
        left_over: Option<&[u8]>,
    ) -> Result<(), LineFault>
        ensures checked { result
            ≡ check_slots self.now slot.now far_slot.now (is_some (option_copied left_over.entry)) }
        ensures spelt { OnOk result (IsTrue (is_spelt slot.now) × IsTrue (is_spelt far_slot.now)) }
    {
        if self.is_late(Section::Channels)
            || is_misspelt(Some(slot))
            || is_misspelt(Some(far_slot))
        {
            return Err(LineFault { number: WRONG_WORD });
        }
        if left_over.is_some() {
            return Err(LineFault { number: EXTRA_WORD });
        }
        Ok(())
    }

    /// What a `chan` line declares.
    pub fn channel_line<'a>(&self, words: Words<'a>) -> Result<ChannelLine<'a>, LineFault>
        requires { IsInForm self.now }
        ensures read { SpellsKind (channel_seen self.now) (λ line. []) self.now Keyword.Chan words.entry result }
        ensures can_join { IfOk result (CanJoin self.now) }
    {
        let line = self.channel_words(words)?;
        if self.has_slot(line.from, line.slot) || self.has_slot(line.to, line.far_slot) {
            return Err(LineFault {
                number: GIVEN_TWICE,
            });
        }
        // asked before the length of the names, which comes after it
        self.check_join(line.from, line.to, line.medium)?;
        if is_overlong(Some(line.slot)) || is_overlong(Some(line.far_slot)) {
            return Err(LineFault {
                number: NAME_TOO_LONG,
            });
        }
        Ok(line)
    }

    // Whether a box has a slot of this name.
    fn has_slot(&self, who: u32, name: &[u8]) -> bool
        requires { who < length self.now.names.boxes }
        ensures { result ≡ is_some (place_of (slot_names self.now.names who) name.now) }
    {
        self.names.find_slot(who, name).is_some()
    }

    // Whether two boxes may be joined by one more channel of one tunnel: else fault 10 where they are the same box, and
    // 14 where there would be too many channels, or slots of a box.
    #[tactic(auto, using(crate::proofs::Joining::joins_by_plan))]
    fn check_join(&self, from: u32, to: u32, medium: Medium) -> Result<(), LineFault>
        requires in_form { IsInForm self.now }
        requires near { from < length self.now.names.boxes }
        requires far { to < length self.now.names.boxes }
        ensures { result ≡ check_join self.now.names self.now.channels from to }
    {
        if from == to {
            return Err(LineFault { number: SAME_BOX });
        }
        if CHANNEL_LIMIT <= self.plan.channels().len() {
            return Err(LineFault {
                number: LIMIT_PASSED,
            });
        }
        match self.plan.may_join(from, to, &[medium]) {
            Ok(()) => Ok(()),
            Err(PlanFault::SlotsFull) => Err(LineFault {
                number: LIMIT_PASSED,
            }),
            // a plan has room for more channels than a text
            Err(_) => unreachable!(),
        }
    }

    /// Reads `chan MEDIUM BOX SLOT BOX SLOT` from the medium on.
    pub fn read_channel<'a>(&mut self, words: Words<'a>) -> Result<(), ReadFault>
        requires { IsInForm self.old }
        ensures declared { ReadsKind self.old Keyword.Chan words.entry result self.new }
        ensures in_form { OnOk result (IsInForm self.new) }
    {
        let line = self.channel_line(words)?;
        self.join(line.from, line.to, line.medium)?;
        self.add_slots(&line)?;
        Ok(())
    }

    // What an `also` line spells, in words that are known where they must be.
    fn also_words<'a>(&self, words: Words<'a>) -> Result<ChannelLine<'a>, LineFault>
        requires { IsInForm self.now }
        ensures read { SpellsAlso self.now words.entry result }
        ensures last { IfOk result (IsOfLast self.now) }
        ensures known { IfOk result (KnowsEnds self.now) }
    {
        let parts = FirstWords::new(words);
        let medium = fixed_medium(parts.first)?;
        let Some((from, to)) = self.last_ends() else {
            return Err(LineFault { number: WRONG_WORD });
        };
        let Some(far_slot) = parts.third else {
            return Err(self.missing_word(Some(from), parts.second));
        };
        // where the third word is there, so are those before it
        let (Some(medium), Some(slot)) = (medium, parts.second) else {
            unreachable!()
        };
        self.check_slots(slot, far_slot, parts.fourth)?;
        Ok(ChannelLine {
            medium,
            from,
            slot,
            to,
            far_slot,
        })
    }

    /// The two boxes of the last channel, the initiator first. None where there is no channel.
    pub fn last_ends(&self) -> Option<(u32, u32)>
        requires { IsInForm self.now }
        ensures is { result ≡ last_ends self.now.channels }
        ensures there { IfSome result (λ ends.
            (ends.0 < length self.now.names.boxes) × (ends.1 < length self.now.names.boxes)) }
        ensures apart { IfSome result (λ ends. ends.0 ≢ ends.1) }
    {
        self.plan.keeps();
        let channels = self.plan.channels();
        if channels.is_empty() {
            return None;
        }
        let last = &channels[channels.len() - 1];
        Some((last.from, last.to))
    }

    // What an `also` line declares.
    fn also_line<'a>(&self, words: Words<'a>) -> Result<ChannelLine<'a>, LineFault>
        requires { IsInForm self.now }
        ensures read { SpellsKind (also_seen self.now) (λ line. []) self.now Keyword.Also words.entry result }
        ensures can_widen { IfOk result (CanWiden self.now) }
    {
        let line = self.also_words(words)?;
        if self.has_slot(line.from, line.slot) || self.has_slot(line.to, line.far_slot) {
            return Err(LineFault {
                number: GIVEN_TWICE,
            });
        }
        // asked before the length of the names, which comes after it
        self.check_widen()?;
        if is_overlong(Some(line.slot)) || is_overlong(Some(line.far_slot)) {
            return Err(LineFault {
                number: NAME_TOO_LONG,
            });
        }
        Ok(line)
    }

    // Whether the last channel may have one more tunnel: else fault 14, as it would have too many, or one of its boxes
    // too many slots.
    #[tactic(auto, using(crate::proofs::Joining::widens_by_plan))]
    fn check_widen(&self) -> Result<(), LineFault>
        requires in_form { IsInForm self.now }
        requires some { 0 < length self.now.channels }
        ensures { result ≡ check_widen self.now.names (last_channel self.now.channels) }
    {
        match self.plan.may_widen() {
            Ok(()) => Ok(()),
            Err(_) => Err(LineFault {
                number: LIMIT_PASSED,
            }),
        }
    }

    /// Reads `also MEDIUM SLOT SLOT` from the medium on.
    pub fn read_also<'a>(&mut self, words: Words<'a>) -> Result<(), ReadFault>
        requires { IsInForm self.old }
        ensures declared { ReadsKind self.old Keyword.Also words.entry result self.new }
        ensures in_form { OnOk result (IsInForm self.new) }
    {
        let line = self.also_line(words)?;
        self.widen(line.medium)?;
        self.add_slots(&line)?;
        Ok(())
    }

    // Gives the last channel one more tunnel.
    fn widen(&mut self, medium: Medium) -> Result<(), AllocError>
        requires in_form { IsInForm self.old }
        requires some { 0 < length self.old.channels }
        requires widens { check_widen self.old.names (last_channel self.old.channels) ≡ Ok tt }
        ensures { OnOk result (self.new ≡ with_new_tunnel self.old medium) }
    {
        if let Err(fault) = self.plan.widen(medium) {
            return Err(plan_wanting(fault));
        }
        Ok(())
    }

    /// Joins two boxes by one more channel of one tunnel.
    pub fn join(&mut self, from: u32, to: u32, medium: Medium) -> Result<(), AllocError>
        requires in_form { IsInForm self.old }
        requires near { from < length self.old.names.boxes }
        requires far { to < length self.old.names.boxes }
        requires joins { check_join self.old.names self.old.channels from to ≡ Ok tt }
        ensures { OnOk result (self.new ≡ with_new_channel self.old from to medium) }
    {
        if let Err(fault) = self.plan.join(from, to, &[medium]) {
            return Err(plan_wanting(fault));
        }
        Ok(())
    }

    /// Adds the two slots of a line to their boxes, each as its last.
    pub fn add_slots<'a>(&mut self, line: &ChannelLine<'a>) -> Result<(), AllocError>
        requires known { KnowsEnds self.old line.now }
        requires may { MayAddSlots self.old.names line.now }
        requires near { IsTrue (is_name line.now.slot.now) }
        requires far { IsTrue (is_name line.now.far_slot.now) }
        requires boxes { length self.old.shape ≡ length self.old.names.boxes }
        ensures { OnOk result (self.new ≡ slots_seen self.old line.now) }
    {
        self.add_slot(line.from, line.slot, line.medium)?;
        self.add_slot(line.to, line.far_slot, line.medium)?;
        self.section = Section::Channels;
        Ok(())
    }

    // Adds a slot to a box, as its last.
    fn add_slot(&mut self, who: u32, name: &[u8], medium: Medium) -> Result<(), AllocError>
        requires who { who < length self.old.names.boxes }
        requires named { IsTrue (is_name name.now) }
        requires may { MayAddSlot self.old.names who name.now }
        requires boxes { length self.old.shape ≡ length self.old.names.boxes }
        ensures added { OnOk result (self.new ≡ with_new_slot self.old who name.now medium) }
    {
        // each box has its list of slots
        let _ = self.names.box_count();
        if let Err(fault) = self.names.add_slot(who, name) {
            return Err(name_wanting(fault));
        }
        add_medium(&mut self.shape, who, medium)
    }
}

// A box has one more slot, of this medium.
fn add_medium(shape: &mut Shape, who: u32, medium: Medium) -> Result<(), AllocError>
    requires { who < length shape.old }
    ensures { OnOk result (shape.new ≡ with_medium shape.old who medium) }
{
    let of_box = &mut shape.boxes[who as usize];
    of_box.media.push(medium)?;
    Ok(())
}
