//! A gate that shows, in tests, that two parts are walked at the same time.
#![tactic(auto)]

use aprs_base::Gate;
use std::sync::atomic::{AtomicU64, Ordering};
use std::thread::yield_now;

/// A gate at which each of two parts waits for the other. It counts how many entered it, met another there, and left it.
#[derive(Drop)]
pub struct Meeting {
    pub entered: AtomicU64,
    pub met: AtomicU64,
    pub left: AtomicU64,
}

impl Default for Meeting {
    ghost use Rattle.std.specs.Prelude.{⊤};

    ghost is_default = { λ m. ⊤ };

    fn default() -> Meeting {
        Meeting {
            entered: AtomicU64::new(0),
            met: AtomicU64::new(0),
            left: AtomicU64::new(0),
        }
    }
}

impl Gate for Meeting {
    fn enter(&self, _part: u32) {
        self.entered.fetch_add(1, Ordering::SeqCst);
        for _ in 0..10_000_000 {
            if self.entered.load(Ordering::SeqCst) == 2 {
                self.met.fetch_add(1, Ordering::SeqCst);
                return;
            }
            yield_now();
        }
    }

    fn leave(&self, _part: u32) {
        self.left.fetch_add(1, Ordering::SeqCst);
    }
}
