//! Where a script stops before its end.

ghost use Rattle.std.specs.Prelude.{◌≡◌};
ghost use Rattle.mc_call.specs.Statuses.{due_by};

use crate::status::{RESTLESS, RING, VERSION_END, WORKED};
use mc_seq::SettleStop;

/// The status that is due for a script that stopped so, or came to its end.
pub fn due_by(stop: Option<SettleStop>) -> u8
    ensures { result ≡ due_by stop }
{
    match stop {
        None => WORKED,
        Some(SettleStop::VersionEnd(_)) => VERSION_END,
        Some(SettleStop::Ring(_)) => RING,
        Some(SettleStop::Restless(_)) => RESTLESS,
    }
}
