// How long a part looks on for what others send.

use crate::limit::{IDLE_LIMIT, QUIET_LIMIT};
use std::sync::atomic::{AtomicU64, Ordering};
use std::thread::yield_now;

/// How many looks in turn have found nothing, and how many of them while no part was busy; and whether this part is
/// counted as busy.
#[derive(Drop)]
pub struct Patience {
    idle: u32,
    quiet: u32,
    active: bool,
}

impl Patience {
    /// A part that is about to begin is busy.
    pub fn new() -> Patience {
        Patience {
            idle: 0,
            quiet: 0,
            active: true,
        }
    }

    /// Whether a part ends after a look that has found something or not. Where it goes on though nothing was found,
    /// another thread may run first.
    pub fn ends(&mut self, busy: &AtomicU64, found: bool) -> bool {
        self.count(busy, found);
        if found {
            self.idle = 0;
            self.quiet = 0;
            return false;
        }
        self.idle = self.idle.saturating_add(1);
        if busy.load(Ordering::SeqCst) == 0 {
            self.quiet = self.quiet.saturating_add(1);
        } else {
            self.quiet = 0;
            yield_now();
        }
        self.idle >= IDLE_LIMIT || self.quiet >= QUIET_LIMIT
    }

    /// Counts this part as busy, or no longer.
    pub fn count(&mut self, busy: &AtomicU64, found: bool) {
        if found && !self.active {
            let _ = busy.fetch_add(1, Ordering::SeqCst);
        }
        if !found && self.active {
            let _ = busy.fetch_sub(1, Ordering::SeqCst);
        }
        self.active = found;
    }
}
