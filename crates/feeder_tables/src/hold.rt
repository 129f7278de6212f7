//! A gate that holds one line until another is answered.

use line_feeders::Gate;
use std::sync::atomic::{AtomicBool, Ordering};

/// How often it looks at most whether the other is answered.
const MOST_LOOKS: u32 = 1_000_000_000;

/// Which line is held, until which other is answered, and what came of it.
#[derive(Drop)]
pub struct Hold {
    line: u32,
    until: u32,
    answered: AtomicBool,
    went_on: AtomicBool,
}

impl Hold {
    pub fn new(line: u32, until: u32) -> Hold {
        Hold {
            line,
            until,
            answered: AtomicBool::new(false),
            went_on: AtomicBool::new(false),
        }
    }

    /// Whether the line went on once the other was answered.
    pub fn told(&self) -> &'static str {
        if self.went_on.load(Ordering::SeqCst) {
            "it went on once the other was answered"
        } else {
            "in vain"
        }
    }
}

impl Gate for Hold {
    fn before(&self, line: u32) {
        if line != self.line {
            return;
        }
        for _ in 0..MOST_LOOKS {
            if self.answered.load(Ordering::SeqCst) {
                self.went_on.store(true, Ordering::SeqCst);
                return;
            }
        }
    }

    fn answered(&self, line: u32) {
        if line == self.until {
            self.answered.store(true, Ordering::SeqCst);
        }
    }
}
