// The counter of signals in flight, on one thread and on several.

ghost use Rattle.std.specs.Prelude.{◌≡◌, ◌∷◌, [], All};
ghost use Rattle.mc_flight.specs.Seats.{AreAllSeats, IsSameSeat, IsSeatOf, IsUnused};
ghost use Rattle.mc_flight.specs.Seats.{seat_count, sent_count, taken_count};

use crate::equal::is_equal;
use crate::two::{put_two, take_two};
use mc_flight::limit::SEAT_LIMIT;
use mc_flight::{Flight, FlightSeat, Totals};
use std::alloc::AllocError;
use std::process::Abort;
use std::thread;
use std::thread::Threads;

// A seat that counts three signals as sent, a thousand times.
fn send_often(flight: &Flight, seat: &mut FlightSeat)
    requires seat { IsSeatOf flight.now seat.old }
    requires unused { IsUnused seat.old }
    ensures same { IsSameSeat seat.old seat.new }
    ensures sent { sent_count seat.new ≡ 3000 }
    ensures taken { taken_count seat.new ≡ 0 }
{
    for _ in 0..1000_u32 {
        flight.sent(seat, 3);
    }
}

// A seat that counts two signals as taken, a thousand times.
fn take_often(flight: &Flight, seat: &mut FlightSeat)
    requires seat { IsSeatOf flight.now seat.old }
    requires few { taken_count seat.old ≡ 0 }
    ensures same { IsSameSeat seat.old seat.new }
    ensures sent { sent_count seat.new ≡ sent_count seat.old }
    ensures taken { taken_count seat.new ≡ 2000 }
{
    for _ in 0..1000_u32 {
        flight.took(seat, 2);
    }
}

// Both at once, each in a thread of its own.
fn count_beside<R: Threads>(
    rt: &R,
    flight: &Flight,
    sender: &mut FlightSeat,
    taker: &mut FlightSeat,
)
    requires seats { IsSeatOf flight.now sender.old × IsSeatOf flight.now taker.old }
    requires unused { IsUnused sender.old × IsUnused taker.old }
    ensures same { IsSameSeat sender.old sender.new × IsSameSeat taker.old taker.new }
    ensures sender { (sent_count sender.new ≡ 3000) × (taken_count sender.new ≡ 0) }
    ensures taker { (sent_count taker.new ≡ 0) × (taken_count taker.new ≡ 2000) }
{
    thread::join_mut(
        rt,
        &mut || send_often(flight, sender),
        &mut || take_often(flight, taker),
    );
}

// A seat that counts both.
fn count_often(flight: &Flight, seat: &mut FlightSeat)
    requires seat { IsSeatOf flight.now seat.old }
    requires unused { IsUnused seat.old }
    ensures { IsSameSeat seat.old seat.new }
{
    send_often(flight, seat);
    take_often(flight, seat);
}

// Each seat of the counter counts both, on eight threads at once.
fn count_all<R: Threads + Sync>(rt: &R, flight: &Flight, seats: &mut [FlightSeat])
    requires seats { AreAllSeats flight.now seats.old }
    requires unused { All IsUnused seats.old }
    ensures { AreAllSeats flight.now seats.new }
{
    thread::for_each_mut(
        rt,
        seats,
        8,
        &|_, seat: &mut FlightSeat| count_often(flight, seat),
    );
}

// The only seat counts five signals as sent and two as taken. It reads how many were sent.
fn count_alone(flight: &Flight, seat: &mut FlightSeat) -> u64
    requires alone { seat_count flight.now ≡ 1 }
    requires seat { IsSeatOf flight.now seat.old }
    requires unused { IsUnused seat.old }
    ensures same { IsSameSeat seat.old seat.new }
    ensures read { result ≡ 5 }
{
    flight.sent(seat, 5);
    flight.took(seat, 2);
    flight.sent_so_far(seat)
}

#[test]
fn one_seat_knows_all(rt: HostRuntime) -> Result<(), AllocError> {
    let (flight, mut seats) = Flight::new(rt.alloc(), 1)?;
    let Some(mut seat) = seats.pop() else {
        unreachable!()
    };
    is_equal(&rt, &count_alone(&flight, &mut seat), &5);
    seats.push(seat)?;
    is_equal(&rt, &flight.close(seats), &Totals { sent: 5, taken: 2 });
    Ok(())
}

#[test]
fn two_threads_count_beside(rt: HostRuntime) -> Result<(), AllocError> {
    let (flight, mut seats) = Flight::new(rt.alloc(), 2)?;
    let (mut sender, mut taker) = take_two(&mut seats);
    count_beside(&rt, &flight, &mut sender, &mut taker);
    put_two(&mut seats, sender, taker)?;
    is_equal(
        &rt,
        &flight.close(seats),
        &Totals {
            sent: 3000,
            taken: 2000,
        },
    );
    Ok(())
}

#[test]
fn all_seats_count_side_by_side(rt: HostRuntime) -> Result<(), AllocError> {
    let (flight, mut seats) = Flight::new(rt.alloc(), SEAT_LIMIT)?;
    count_all(&rt, &flight, seats.as_mut_slice());
    is_equal(
        &rt,
        &flight.close(seats),
        &Totals {
            sent: 768_000,
            taken: 512_000,
        },
    );
    Ok(())
}
