// The rules, each with its sentence, without the sentence's end.

ghost use Rattle.std.specs.Prelude.{◌≡◌, map};
ghost use Rattle.mc_explain.specs.Sentences.{journal_rule, sentence_in, text_rule};

use mc_replay::rule as journal;
use mc_script::rule as text;

// The rules on the lines of a text.
const TEXT_RULES: [(u8, &str); 19] = [
    (
        text::TEXT_TOO_LONG,
        "the text is too long: it may have 1048576 bytes, and under check and why 16777216 with its journal",
    ),
    (text::LINE_TOO_LONG, "the line has more than 256 bytes"),
    (
        text::STRANGE_BYTE,
        "the line has a byte that no text may have, such as a tab or a carriage return",
    ),
    (
        text::UNDECLARED,
        "the line names a codec, a box, a state or a told word that isn't declared",
    ),
    (
        text::WRONG_WORD,
        "a word of the line may not stand in its place",
    ),
    (
        text::MISSING_WORD,
        "a word is missing at the end of the line",
    ),
    (text::EXTRA_WORD, "the line has a word too many"),
    (
        text::WRONG_VERSION,
        "the first version of a device must be a number from 1 to 4294967295, without a leading zero",
    ),
    (
        text::GIVEN_TWICE,
        "a name is taken, a codec is listed twice, or a device gets a second send line, a box a second program, or a slot a second goal",
    ),
    (text::SAME_BOX, "the channel has one box at both ends"),
    (text::NO_SUCH_SLOT, "the box has no slot of that name"),
    (text::SAME_SLOT, "the line links a slot to itself"),
    (
        text::TWO_MEDIA,
        "the line links a slot for audio and one for video",
    ),
    (text::LIMIT_PASSED, "the line passes a limit of texts"),
    (
        text::UNFINISHED,
        "the program that ends here lacks a state, or a state of it lacks the goal of a slot",
    ),
    (
        text::NO_BEGIN,
        "the text ends without a line begin, which must stand after what it declares, also where no command follows",
    ),
    (
        text::NO_VERSION_LINE,
        "the first line of a text must be media 1 or media 2",
    ),
    (text::NAME_TOO_LONG, "a new name has more than 16 bytes"),
    (
        text::NOT_SETTLED,
        "commands stand before this line without a settle after them",
    ),
];

// The rules on journals.
const JOURNAL_RULES: [(u8, &str); 5] = [
    (
        journal::NOT_ENABLED,
        "this turn can't happen here: look at what the turns before it left to its slot or its box",
    ),
    (
        journal::NO_LINE,
        "a line that no journal may have: look for a misspelt word, or for a name that the text doesn't declare",
    ),
    (
        journal::NOT_SETTLED,
        "not all is settled: a command, a signal, a retry or a step of a program is still to come, or links make a ring; or the script has no further settle",
    ),
    (
        journal::NOT_NEXT,
        "this command isn't the next one that the script has for its box: look at the order of the script",
    ),
    (
        journal::ENDS_EARLY,
        "the journal ends before the script does: look for a settle that is missing at its end",
    ),
];

/// What a rule of texts says, by its number.
pub fn text_rule(number: u8) -> &'static str
    ensures { result.now ≡ text_rule number }
{
    sentence_in(&TEXT_RULES, number)
}

/// What a rule of journals says, by its number.
pub fn journal_rule(number: u8) -> &'static str
    ensures { result.now ≡ journal_rule number }
{
    sentence_in(&JOURNAL_RULES, number)
}

// The sentence of a rule, among rules with theirs.
fn sentence_in(rules: &[(u8, &'static str)], number: u8) -> &'static str
    ensures { result.now ≡ sentence_in (map (λ rule. (rule.0, rule.1.now)) rules.now) number }
{
    for (rule, sentence) in rules {
        if *rule == number {
            return *sentence;
        }
    }
    "no rule has this number"
}
