// The counter and its seats.

ghost use Rattle.std.specs.Prelude.{◌≡◌, ◌<◌, ◌≤◌, [], false};
ghost use Rattle.mc_flight.specs.declared.limit.TheConstants.{SEAT_LIMIT};

use crate::account::{Account, BothSeats, CountsSent, CountsTaken, NextSeat, Reads, TallyRule};
use atomic_table::{Seat, Table};
use std::alloc::{AllocError, Global};
use std::mem;

// The word of the signals that were sent, and the one of those that were taken.
const SENT: usize = 0;

const TAKEN: usize = 1;

/// How many signals were sent, and how many were taken: two words, which threads share by reference.
///
/// Each thread raises them with a seat of its own, and `close` tells both totals once all seats are back.
#[derive(Drop)]
pub struct Flight {
    table: Table<(), Account, (), TallyRule, Global>,
    seats: u32,
    ghost words: { table.shared.table_id.words ≡ 2 },
    ghost no_slots: { table.shared.table_id.slots ≡ 0 },
    ghost some_seats: { 0 < seats },
    ghost few_seats: { seats ≤ SEAT_LIMIT },
}

/// The right to raise a counter, of which each thread has one. It has no bytes: its number, and how many signals were
/// counted with it, are known to contracts alone.
#[derive(Drop)]
pub struct FlightSeat {
    seat: Seat<(), Account>,
    ghost no_slot_out: { seat.me.1 ≡ [] },
    ghost lives: { seat.me.0.spent ≡ false },
}

/// How many signals were counted with all seats of a counter.
#[derive(Clone, Copy, PartialEq, Eq, Debug)]
pub struct Totals {
    /// As sent.
    pub sent: u64,
    /// As taken.
    pub taken: u64,
}

impl Flight {
    ghost use Rattle.std.specs.Prelude.{◌+◌, map, IfOk};
    ghost use Rattle.std.specs.List.{All, range_with_len, sum_by};
    ghost use Rattle.mc_flight.specs.Seats.{AreAllSeats, IsFirstSeat, IsSameSeat, IsSeatOf, IsUnused};
    ghost use Rattle.mc_flight.specs.Seats.{number_of, part_count, seat_count, sent_count, taken_count};
    ghost use Rattle.mc_flight.specs.declared.limit.TheConstants.{COUNT_LIMIT};

    /// A counter whose totals are 0, and its 1 to 256 seats, in the order of their numbers. It fails only for want of
    /// memory.
    pub fn new(alloc: Global, seats: u32) -> Result<(Flight, Vec<FlightSeat>), AllocError>
        requires some { 0 < seats }
        requires few { seats ≤ SEAT_LIMIT }
        ensures seats { IfOk result (λ made. seat_count made.0 ≡ seats) }
        ensures all { IfOk result (λ made. AreAllSeats made.0 made.1.items) }
        ensures numbers { IfOk result (λ made. map number_of made.1.items ≡ range_with_len 0 seats) }
        ensures unused { IfOk result (λ made. All IsUnused made.1.items) }
    {
        let (table, first) = Table::of_words(alloc, &[0, 0], &())?;
        let flight = Flight { table, seats };
        let list = flight.deal(alloc, FlightSeat { seat: first })?;
        Ok((flight, list))
    }

    // All seats of a new counter, in order: each is made from the one before it.
    fn deal(&self, alloc: Global, first: FlightSeat) -> Result<Vec<FlightSeat>, AllocError>
        requires { IsFirstSeat self.now first }
        ensures all { IfOk result (λ list. AreAllSeats self.now list.items) }
        ensures numbers { IfOk result (λ list. map number_of list.items ≡ range_with_len 0 (seat_count self.now)) }
        ensures unused { IfOk result (λ list. All IsUnused list.items) }
    {
        let mut list = Vec::with_capacity(alloc, self.seats as usize)?;
        let mut last = first;
        for _ in 0..self.seats - 1 {
            let next = self.table.shared.split_seat::<NextSeat>(&mut last.seat);
            list.push(mem::replace(&mut last, FlightSeat { seat: next }))?;
        }
        list.push(last)?;
        Ok(list)
    }

    /// Counts so many signals as sent. With one seat at most 2^48 signals may be counted so in all.
    pub fn sent(&self, seat: &mut FlightSeat, n: u32)
        requires seat { IsSeatOf self.now seat.old }
        requires room { sent_count seat.old + n ≤ COUNT_LIMIT }
        ensures same { IsSameSeat seat.old seat.new }
        ensures sent { sent_count seat.new ≡ sent_count seat.old + n }
        ensures taken { taken_count seat.new ≡ taken_count seat.old }
    {
        self.table
            .shared
            .fetch_add::<CountsSent>(&mut seat.seat, SENT, n as u64);
    }

    /// Counts so many signals as taken. With one seat at most 2^48 signals may be counted so in all.
    pub fn took(&self, seat: &mut FlightSeat, n: u32)
        requires seat { IsSeatOf self.now seat.old }
        requires room { taken_count seat.old + n ≤ COUNT_LIMIT }
        ensures same { IsSameSeat seat.old seat.new }
        ensures sent { sent_count seat.new ≡ sent_count seat.old }
        ensures taken { taken_count seat.new ≡ taken_count seat.old + n }
    {
        self.table
            .shared
            .fetch_add::<CountsTaken>(&mut seat.seat, TAKEN, n as u64);
    }

    /// How many signals were counted as sent with all seats, at one moment of the call: at least those of this seat,
    /// and exactly those where the counter has no other.
    pub fn sent_so_far(&self, seat: &mut FlightSeat) -> u64
        requires seat { IsSeatOf self.now seat.old }
        ensures same { IsSameSeat seat.old seat.new }
        ensures sent { sent_count seat.new ≡ sent_count seat.old }
        ensures taken { taken_count seat.new ≡ taken_count seat.old }
        ensures own { sent_count seat.old ≤ result }
        ensures alone { seat_count self.now ≡ 1 → result ≡ sent_count seat.old }
    {
        self.table.shared.load::<Reads>(&mut seat.seat, SENT)
    }

    /// How many signals were counted with all seats, which have to be back, in whatever order. It takes no memory.
    pub fn close(self, seats: Vec<FlightSeat>) -> Totals
        requires { AreAllSeats self seats.items }
        ensures sent { result.sent ≡ sum_by sent_count seats.items }
        ensures taken { result.taken ≡ sum_by taken_count seats.items }
    {
        let mut seats = seats;
        let Some(FlightSeat { seat: first }) = seats.pop() else {
            unreachable!()
        };
        let all = self.join_all(first, seats);
        let Flight { table, .. } = self;
        let closed = table.close_with(all);
        let sent = closed.word(SENT);
        let taken = closed.word(TAKEN);
        closed.free();
        Totals { sent, taken }
    }

    // One seat that has what the first one had, and what these had.
    fn join_all(&self, first: Seat<(), Account>, seats: Vec<FlightSeat>) -> Seat<(), Account>
        requires counter { first.table_id ≡ self.now.table.shared.table_id }
        requires lives { first.me.0.spent ≡ false }
        requires of { All (IsSeatOf self.now) seats.items }
        ensures counter { result.table_id ≡ self.now.table.shared.table_id }
        ensures lives { result.me.0.spent ≡ false }
        ensures parts { result.me.0.parts ≡ first.me.0.parts + sum_by part_count seats.items }
        ensures sent { result.me.0.sent ≡ first.me.0.sent + sum_by sent_count seats.items }
        ensures taken { result.me.0.taken ≡ first.me.0.taken + sum_by taken_count seats.items }
    {
        let mut all = first;
        for other in seats {
            let FlightSeat { seat } = other;
            self.table.shared.join_seat::<BothSeats>(&mut all, seat);
        }
        all
    }
}
