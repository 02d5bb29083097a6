//! Laws of told words, over the definitions alone: each function's contract is the law's sentence.

ghost use Rattle.mc_program_laws.specs.Told.{BeginsAtFirst, ToldWordLeads, UnprogrammedFollows, UntoldStays};

/// After any run of a sound world a box without a program has the goals and the media that its own commands make of
/// those before, whatever programs other boxes have.
pub fn unprogrammed_follows()
    ensures { UnprogrammedFollows }
{}

/// A box whose program is at a state without a transition that goes before a word is told stays there, with its goals
/// and its media, as long as it has no command.
pub fn untold_stays()
    ensures { UntoldStays }
{}

/// A box whose program is at no state yet is at the first one, with its goals, when a batch is settled that has no
/// command of the box, if no transition of that state goes before a word is told.
pub fn begins_at_first()
    ensures { BeginsAtFirst }
{}

/// Where nothing is under way, no retry is owed and only one box has a program, the settled segment of one Tell is that
/// Tell, then the Shift that the word is for, and then Takes and Retries alone; and the box is at the state that the
/// word leads to, with its goals.
pub fn told_word_leads()
    ensures { ToldWordLeads }
{}
