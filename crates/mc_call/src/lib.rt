//! How a call of a program ends: its status, what it delivered, which fault it found, and what a person is told of it.
#![tactic(auto)]

mod behind;
mod done;
mod printing;
mod reasons;
mod refusing;
pub mod status;
mod stop;

pub use behind::{TailPlace, journal_behind, journal_line};
pub use done::{Done, deliver, give_up};
pub use printing::print_journal_fault;
pub use reasons::{cut_reason, stop_reason};
pub use refusing::{refuse_journal, refuse_line, refuse_name, refuse_text, refuse_words};
pub use stop::due_by;
