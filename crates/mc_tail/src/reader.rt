// The lines after `grow`, one after the other.

ghost use Rattle.std.specs.Prelude.{◌≡◌, ◌+◌, ◌<◌, ◌==◌, ◌^◌, if◌then◌else◌, length, IfOk, IfSome, OnOk, Some};
ghost use Rattle.std.specs.List.{list_any, slice_get};
ghost use Rattle.std.specs.Option.{option_copied};
ghost use Rattle.mc_lines.specs.Forms.{IsInForm};
ghost use Rattle.mc_script.specs.Meaning.{ReadsAs, ReadsCommand};
ghost use Rattle.mc_script.specs.Places.{unless};
ghost use Rattle.mc_script.specs.Rules.{least_broken};
ghost use Rattle.mc_tail.specs.Readings.{ReadsTailEntry, ReadsTailKind, ReadsTailLine};
ghost use Rattle.mc_tail.specs.Rules.{cut_rules, cut_word_rules, earlier_rules, joins_programmed, tail_command_rules, tail_keyword};
ghost use Rattle.mc_tail.specs.SoFar.{channel_named, is_cut, is_out, names_out};
ghost use Rattle.mc_tail.specs.declared.keyword.TailKeyword.TheVariants as tail;

use crate::channels::{channel_of, joins_programmed};
use crate::item::Item;
use crate::keyword::{TailKeyword, tail_keyword};
use mc_lines::{Keyword, Reader, Tail, lesser};
use mc_program_lines::ReadFault;
use mc_script::keyword::CommandWord;
use mc_script::places::known_box;
use mc_script::rule::{
    EXTRA_WORD, MISSING_WORD, NO_SUCH_SLOT, NOT_SETTLED, TEXT_TOO_LONG, UNDECLARED, WRONG_WORD,
};
use mc_script::{Command, LineFault, begins_hash, check_bytes};
use mc_text::{FirstWords, Words};
use std::marker::Model;

/// What the lines of a text so far have declared. After an error nothing is said of it.
#[derive(Drop)]
pub struct TailReader {
    pub reader: Reader,
    pub out: Vec<u32>,
    pub items: Vec<Item>,
}

impl Model for TailReader {
    ghost use Rattle.mc_tail.specs.SoFar.{TailState};

    ghost Value = { TailState };

    ghost view = { λ r. record { declared = r.reader; out = r.out.items; items = r.items.items } };
}

impl TailReader {
    // The number of the channel of the slot that two words name, where they name one.
    fn channel_named(&self, home: Option<&[u8]>, slot: Option<&[u8]>) -> Option<u32>
        ensures is { result ≡ channel_named self.now.declared (option_copied home.entry) (option_copied slot.entry) }
        ensures there { IfSome result (λ channel. channel < length self.now.declared.channels) }
    {
        let who = self.reader.names().find_box(home?)?;
        let local = self.reader.names().find_slot(who, slot?)?;
        let channel = channel_of(self.reader.channels(), who, local)?;
        Some(channel as u32)
    }

    // Whether a channel was cut.
    fn is_cut(&self, channel: Option<u32>) -> bool
        ensures { result ≡ is_cut self.now.out channel }
    {
        match channel {
            Some(channel) => is_among(&self.out, channel),
            None => false,
        }
    }

    // Whether the slot that two words name is out.
    fn is_out(&self, home: Option<&[u8]>, slot: Option<&[u8]>) -> bool
        ensures { result ≡ is_out self.now (option_copied home.entry) (option_copied slot.entry) }
    {
        self.is_cut(self.channel_named(home, slot))
    }

    // Whether a command names a slot that is out.
    fn names_out<'a>(&self, kind: CommandWord, words: Words<'a>) -> bool
        ensures { result ≡ names_out self.now kind words.entry }
    {
        let parts = FirstWords::new(words);
        match kind {
            CommandWord::Set | CommandWord::Hear | CommandWord::Talk => {
                self.is_out(parts.first, parts.second)
            }
            CommandWord::Link => {
                self.is_out(parts.first, parts.second) || self.is_out(parts.first, parts.third)
            }
            CommandWord::Tell | CommandWord::Settle => false,
        }
    }

    // The command that a line of this kind spells, of which no slot may be out.
    #[tactic(auto, using(crate::proofs::Commands::command_refused, crate::proofs::Commands::slot_refused, crate::proofs::Commands::command_kept))]
    fn command_line<'a>(&self, kind: CommandWord, words: Words<'a>) -> Result<Command, LineFault>
        requires { IsInForm self.now.declared }
        ensures { ReadsCommand self.now.declared.names kind (tail_command_rules self.now kind words.entry) words.entry result }
    {
        let out = self.names_out(kind, words.again());
        match self.reader.command_line(kind, words) {
            Ok(command) => unless_out(out, command),
            Err(fault) => Err(lesser(NO_SUCH_SLOT, out, fault)),
        }
    }

    // Reads a command of a kind, by the words after the first.
    fn read_command<'a>(&mut self, kind: CommandWord, words: Words<'a>) -> Result<(), ReadFault>
        requires { IsInForm self.old.declared }
        ensures declared { ReadsTailKind self.old (Some (tail.Command kind)) words.entry result self.new }
        ensures in_form { OnOk result (IsInForm self.new.declared) }
    {
        let command = self.command_line(kind, words)?;
        self.reader.push_command(command)?;
        self.items.push(Item::Line(command))?;
        Ok(())
    }

    // Reads `join MEDIUM BOX SLOT BOX SLOT` from the medium on.
    #[tactic(auto, using(crate::proofs::Joins::joined_is))]
    fn read_join<'a>(&mut self, words: Words<'a>) -> Result<(), ReadFault>
        requires { IsInForm self.old.declared }
        ensures declared { ReadsTailKind self.old (Some tail.Join) words.entry result self.new }
        ensures in_form { OnOk result (IsInForm self.new.declared) }
    {
        let line = self.reader.read_join(words)?;
        self.items.push(Item::Join {
            medium: line.medium,
            from: line.from,
            to: line.to,
        })?;
        Ok(())
    }

    // The number of the channel that a `cut` line names, from the box on. It is asked which words may stand there.
    fn cut_words<'a>(&self, words: Words<'a>) -> Result<Option<u32>, LineFault>
        ensures read { ReadsAs result (least_broken (cut_word_rules self.now.declared words.entry))
            (Some (channel_named self.now.declared (slice_get words.entry 0) (slice_get words.entry 1))) }
        ensures there { IfOk result (λ found. IfSome found (λ channel. channel < length self.now.declared.channels)) }
    {
        let parts = FirstWords::new(words);
        known_box(self.reader.names(), parts.first)?;
        let channel = self.channel_named(parts.first, parts.second);
        if self.joins_programmed(channel) {
            return Err(LineFault { number: WRONG_WORD });
        }
        if parts.second.is_none() {
            return Err(LineFault {
                number: MISSING_WORD,
            });
        }
        if parts.third.is_some() {
            return Err(LineFault { number: EXTRA_WORD });
        }
        Ok(channel)
    }

    // Whether a channel is known, and a box of it has a program.
    fn joins_programmed(&self, channel: Option<u32>) -> bool
        requires { IfSome channel (λ known. known < length self.now.declared.channels) }
        ensures { result ≡ joins_programmed self.now.declared channel }
    {
        match channel {
            Some(channel) => {
                joins_programmed(
                    self.reader.shape(),
                    self.reader.channels(),
                    channel as usize,
                )
            }
            None => false,
        }
    }

    // The number of the channel that a `cut` line cuts.
    fn cut_line<'a>(&self, words: Words<'a>) -> Result<u32, LineFault>
        ensures { ReadsAs result (least_broken (cut_rules self.now words.entry))
            (channel_named self.now.declared (slice_get words.entry 0) (slice_get words.entry 1)) }
    {
        let Some(channel) = self.cut_words(words)? else {
            return Err(LineFault {
                number: NO_SUCH_SLOT,
            });
        };
        if self.is_cut(Some(channel)) {
            return Err(LineFault {
                number: NO_SUCH_SLOT,
            });
        }
        if self.reader.is_pending() {
            return Err(LineFault {
                number: NOT_SETTLED,
            });
        }
        Ok(channel)
    }

    // Reads `cut BOX SLOT` from the box on.
    fn read_cut<'a>(&mut self, words: Words<'a>) -> Result<(), ReadFault>
        requires { IsInForm self.old.declared }
        ensures declared { ReadsTailKind self.old (Some tail.Cut) words.entry result self.new }
        ensures in_form { OnOk result (IsInForm self.new.declared) }
    {
        let channel = self.cut_line(words)?;
        self.out.push(channel)?;
        self.items.push(Item::Cut { channel })?;
        Ok(())
    }

    // Why a line isn't taken that belongs before `grow`: it names what isn't declared, or it stands here.
    #[tactic(auto, using(crate::proofs::Earlier::earlier_broken, crate::proofs::Earlier::earlier_kept))]
    fn refuse_earlier<'a>(&mut self, kind: Keyword, words: Words<'a>) -> LineFault
        requires { IsInForm self.old.declared }
        ensures { least_broken (earlier_rules self.old.declared kind words.entry) ≡ Some result.number }
    {
        match self.reader.read_kind(kind, words) {
            Err(ReadFault::Line(fault)) => LineFault {
                number: undeclared_or_wrong(fault.number),
            },
            _ => LineFault { number: WRONG_WORD },
        }
    }

    // Reads a line of this kind. The words are those after the first.
    fn read_kind<'a>(&mut self, kind: TailKeyword, words: Words<'a>) -> Result<(), ReadFault>
        requires { IsInForm self.old.declared }
        ensures declared { ReadsTailKind self.old (Some kind) words.entry result self.new }
        ensures in_form { OnOk result (IsInForm self.new.declared) }
    {
        match kind {
            TailKeyword::Join => self.read_join(words),
            TailKeyword::Cut => self.read_cut(words),
            TailKeyword::Command(kind) => self.read_command(kind, words),
            TailKeyword::Earlier(kind) => Err(ReadFault::Line(self.refuse_earlier(kind, words))),
        }
    }

    // Reads the words of a line that isn't skipped.
    fn read_words<'a>(&mut self, first: &[u8], words: Words<'a>) -> Result<(), ReadFault>
        requires { IsInForm self.old.declared }
        ensures declared { ReadsTailKind self.old (tail_keyword first.now) words.entry result self.new }
        ensures in_form { OnOk result (IsInForm self.new.declared) }
    {
        match tail_keyword(first) {
            Some(kind) => self.read_kind(kind, words),
            None => Err(ReadFault::Line(LineFault { number: WRONG_WORD })),
        }
    }

    // Reads the words of a line, if it is neither blank nor a comment.
    fn read_entry<'a>(&mut self, mut words: Words<'a>) -> Result<(), ReadFault>
        requires { IsInForm self.old.declared }
        ensures declared { ReadsTailEntry self.old words.entry result self.new }
        ensures in_form { OnOk result (IsInForm self.new.declared) }
    {
        let Some(first) = words.next_word() else {
            return Ok(());
        };
        if begins_hash(first) {
            return Ok(());
        }
        self.read_words(first, words)
    }

    /// Reads the next line of a text of `total` bytes, with so many bytes before it.
    pub fn read_line(&mut self, total: usize, before: usize, line: &[u8]) -> Result<(), ReadFault>
        requires small { before + length line.now < 2 ^ 64 }
        requires in_form { IsInForm self.old.declared }
        ensures declared { ReadsTailLine total before self.old line.now result self.new }
        ensures in_form { OnOk result (IsInForm self.new.declared) }
    {
        let limit = Tail::Grow.text_limit();
        if limit < total && before <= limit && limit <= before + line.len() {
            return Err(ReadFault::Line(LineFault {
                number: TEXT_TOO_LONG,
            }));
        }
        check_bytes(line)?;
        self.read_entry(Words::new(line))
    }
}

// Whether a channel is one of these.
fn is_among(channels: &[u32], channel: u32) -> bool
    ensures { result ≡ list_any (λ cut. cut == channel) channels.now }
{
    channels.iter().any(|cut| *cut == channel)
}

// A command, of which a slot may be out.
fn unless_out(out: bool, command: Command) -> Result<Command, LineFault>
    ensures { result ≡ unless out NO_SUCH_SLOT command }
{
    if out {
        return Err(LineFault {
            number: NO_SUCH_SLOT,
        });
    }
    Ok(command)
}

// The fault of a line that belongs before `grow` and breaks the rule of this number, too.
fn undeclared_or_wrong(number: u8) -> u8
    ensures { result ≡ if number == UNDECLARED then UNDECLARED else WRONG_WORD }
{
    if number == UNDECLARED {
        UNDECLARED
    } else {
        WRONG_WORD
    }
}
