// A box that runs freely, with all that it has on its thread.

use crate::course::Course;
use mc_desk::Taker;
use mc_flight::FlightSeat;
use mc_worker::Worker;

/// A box that runs freely: its worker, the right to take from its desk, its seat at the counter of signals in flight,
/// and how far it has come.
#[derive(Drop)]
pub struct BoxRun {
    pub worker: Worker,
    pub taker: Taker,
    pub seat: FlightSeat,
    pub course: Course,
}
