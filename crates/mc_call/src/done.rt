// How a call ended, and how it comes to its end.

ghost use Rattle.std.specs.Prelude.{◌≡◌, ◌≢◌, ◌⊎◌, ◌==◌, []};
ghost use Rattle.mc_call.specs.Calls.{Delivers};
ghost use Rattle.mc_call.specs.Reasons.{EndsFor};
ghost use Rattle.mc_io.specs.Faults.{faults_after};

use crate::status::WRITE_FAULT;
use mc_explain::Reason;
use mc_io::{Sink, write_whole};
use mc_script::JournalLine;
use std::alloc::Global;

/// How a call of a program ended.
///
/// `status` is one of `mc_call::status`, and `due` the status that would stand had no write failed. The journal
/// holds what was settled or checked, and the turns up to a stop, where the due status keeps a journal, and else
/// nothing. `reason` says why the status is what it is.
#[derive(Debug, Drop)]
pub struct Done {
    pub status: u8,
    pub due: u8,
    pub journal: Vec<JournalLine>,
    pub reason: Reason,
}

/// Writes what is due. A call that can't write it whole ends with `WRITE_FAULT` in place of the due status.
pub fn deliver<K: Sink>(
    sink: &mut K,
    due: u8,
    output: &[u8],
    journal: Vec<JournalLine>,
    reason: Reason,
) -> Done
    requires due { due ≢ WRITE_FAULT }
    ensures delivers { Delivers result.status due (K.written sink.old) (K.written sink.new) output.now }
    ensures due { result.due ≡ due }
    ensures status { (result.status ≡ due) ⊎ (result.status ≡ WRITE_FAULT) }
    ensures journal { result.journal ≡ journal }
    ensures reason { EndsFor reason due result }
    ensures fault { K.faults sink.new ≡ faults_after (K.faults sink.old) (result.status == WRITE_FAULT) }
{
    let (status, reason) = match write_whole(sink, output) {
        Ok(()) => (due, reason),
        Err(_) => (WRITE_FAULT, Reason::WriteFault),
    };
    Done {
        status,
        due,
        journal,
        reason,
    }
}

/// A call that ended before there was anything to write.
pub fn give_up(alloc: Global, status: u8, reason: Reason) -> Done
    ensures status { result.status ≡ status }
    ensures due { result.due ≡ status }
    ensures journal { result.journal.items ≡ [] }
    ensures reason { result.reason ≡ reason }
{
    Done {
        status,
        due: status,
        journal: Vec::new(alloc),
        reason,
    }
}
