// Boxes that run while operators ask them. No clause tells them from boxes that begin once all was asked.

use crate::top::{FLOWING, PHONES, is_answered_under};
use mc_io::Gate;
use mc_live::limit::FIRST_OPERATOR_GATE;
use std::alloc::AllocError;
use std::sync::atomic::{AtomicBool, Ordering};
use std::thread::yield_now;

// How often the operator looks for the box at most. Between two looks it leaves its processor to others for a moment.
const LOOKS: u32 = 1 << 26;

// Holds the first operator before its second ask until box 0 has come to its first turn, and says whether it did.
#[derive(Drop)]
struct AskingGate {
    came: AtomicBool,
    seen: AtomicBool,
}

impl AskingGate {
    fn new() -> AskingGate {
        AskingGate {
            came: AtomicBool::new(false),
            seen: AtomicBool::new(false),
        }
    }

    // Whether the box comes within so many looks.
    fn is_awaited(&self) -> bool {
        for _ in 0..LOOKS {
            if self.came.load(Ordering::SeqCst) {
                return true;
            }
            yield_now();
        }
        false
    }
}

impl Gate for AskingGate {
    fn reached(&self, who: u32, number: u32) {
        if who == 0 {
            self.came.store(true, Ordering::SeqCst);
        } else if who == FIRST_OPERATOR_GATE && number == 2 {
            self.seen.store(self.is_awaited(), Ordering::SeqCst);
        }
    }
}

#[test]
fn a_box_runs_while_its_operator_asks(rt: HostRuntime) -> Result<(), AllocError> {
    let gate = AskingGate::new();
    let words = ["live", "1"];
    is_answered_under(
        &rt,
        rt.alloc(),
        &gate,
        &words,
        PHONES,
        0,
        FLOWING,
        "a box that runs",
    )?;
    assert!(rt; gate.seen.load(Ordering::SeqCst));
    Ok(())
}
