// Words that ask for help.

ghost use Rattle.std.specs.Prelude.{◌≡◌, map, string_bytes};
ghost use Rattle.mc_words.specs.Help.{asks_for_help, is_help_word};

/// Whether there are no words, or the only one asks for help. They are no command all the same.
pub fn asks_for_help(words: &[String]) -> bool
    ensures { result ≡ asks_for_help (map string_bytes words.now) }
{
    words.len() == 0 || words.len() == 1 && is_help_word(&words[0])
}

fn is_help_word(word: &str) -> bool
    ensures { result ≡ is_help_word word.now }
{
    word == "-h" || word == "--help" || word == "help"
}
