// What each seat counted, and the rule that ties it to the two words of the counter. Proofs alone know of it: no value
// of these types is made.
//
// There are 256 parts. Each seat has at least one of them until another one takes it in. So who has them all knows
// that no other seat counts any more, and both words are what it counted itself. A seat's counts are at most 2^48 for
// each part that it has, so no word passes its end.

use atomic_table::{Join, Play, Split, TableRule};

// What is known of a seat: its number, its parts, whether another one took it in, and how many signals were counted
// with it as sent and as taken.
pub struct Account {
    pub number: u32,
    pub parts: u32,
    pub spent: bool,
    pub sent: u64,
    pub taken: u64,
}

// Each word is the sum of one count over all seats that no other one took in.
pub struct TallyRule;

impl TableRule<(), Account, ()> for TallyRule {
    ghost use Rattle.mc_flight.specs.Tallies.{IsTallied, account};
    ghost use Rattle.mc_flight.specs.declared.limit.TheConstants.{SEAT_LIMIT};

    ghost holds = { λ _. IsTallied };

    ghost first = { λ _. account 0 SEAT_LIMIT 0 0 };
}

// A seat counts signals as sent.
pub struct CountsSent;

impl Play<(), Account> for CountsSent {
    ghost use Rattle.mc_flight.specs.Tallies.{SentMore};

    ghost then = { SentMore };
}

// A seat counts signals as taken.
pub struct CountsTaken;

impl Play<(), Account> for CountsTaken {
    ghost use Rattle.mc_flight.specs.Tallies.{TookMore};

    ghost then = { TookMore };
}

// A seat reads how many signals were counted as sent with all seats.
pub struct Reads;

impl Play<(), Account> for Reads {
    ghost use Rattle.mc_flight.specs.Tallies.{ReadSent};

    ghost then = { ReadSent };
}

// A seat keeps one part, and the next one has the others.
pub struct NextSeat;

impl Split<Account> for NextSeat {
    ghost use Rattle.mc_flight.specs.Tallies.{kept_part, other_parts};

    ghost left = { kept_part };

    ghost right = { other_parts };
}

// A seat takes another one in, and has what both had.
pub struct BothSeats;

impl Join<Account> for BothSeats {
    ghost use Rattle.mc_flight.specs.Tallies.{both_accounts, spent_account};

    ghost both = { both_accounts };

    ghost spent = { spent_account };
}
