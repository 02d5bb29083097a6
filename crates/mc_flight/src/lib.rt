//! A counter of the signals in flight, which many boxes raise from threads of their own: how many were sent, and how
//! many were taken. Once all seats are back, each total is exactly the sum of what was counted with them.
#![tactic(auto)]

mod account;
mod flight;
pub mod limit;

pub use flight::{Flight, FlightSeat, Totals};
