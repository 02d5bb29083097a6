//! Laws of conferences, over the definitions alone: each function's contract is the law's sentence.

ghost use Rattle.mc_conf.specs.Pairs.{MixesAreAllPairs, OthersChangeNothing};

/// Whom a mixer would let each party hear is each pair of parties of which the one hears the other, once, by the hearer
/// and then by the heard, both in rising slot number; and there is no other pair. No slot is the party of two legs.
pub fn mixes_are_all_pairs()
    ensures { MixesAreAllPairs }
{}

/// Two lists of paths with the same legs of a box give the same pairs: parties outside the conference change nothing.
pub fn others_change_nothing()
    ensures { OthersChangeNothing }
{}
