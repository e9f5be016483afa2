// What is asked before and after each call of a thread.
ghost use Rattle.std.specs.Prelude.{◌≡◌};

use std::sync::atomic::{AtomicBool, Ordering};
use std::thread;

// How often a line that is held is looked at again.
const TURNS: u64 = 1_000_000_000;

/// Is asked before and after each call that a thread of a trace makes on a line, outside every turnstile. A gate may keep a thread
/// back, but not for ever.
pub trait Gate {
    /// The thread is about to make the call of this line.
    fn before(&self, thread: u32, line: u32);

    /// The thread has made the call of this line, or the call has ended early.
    fn after(&self, thread: u32, line: u32);
}

/// Keeps nobody back.
#[derive(Debug, Drop)]
pub struct OpenGate;

impl Gate for OpenGate {
    fn before(&self, thread: u32, line: u32) {
        let _ = (thread, line);
    }

    fn after(&self, thread: u32, line: u32) {
        let _ = (thread, line);
    }
}

/// Holds one line until the call of another line was made, for at most a thousand million turns, and then remembers that it
/// gave up.
#[derive(Drop)]
pub struct HoldGate {
    held: u32,
    until: u32,
    answered: AtomicBool,
    gave_up: AtomicBool,
}

impl HoldGate {
    /// A gate that holds the line `held` until the line `until` was answered. It takes no memory.
    pub fn new(held: u32, until: u32) -> HoldGate
        ensures held { result.held ≡ held }
        ensures until { result.until ≡ until }
    {
        HoldGate {
            held,
            until,
            answered: AtomicBool::new(false),
            gave_up: AtomicBool::new(false),
        }
    }

    /// Whether the line was let go although the other one was not answered.
    pub fn gave_up(&self) -> bool {
        self.gave_up.load(Ordering::SeqCst)
    }
}

impl Gate for HoldGate {
    fn before(&self, thread: u32, line: u32) {
        let _ = thread;
        if line == self.held {
            for _ in 0..TURNS {
                if self.answered.load(Ordering::SeqCst) {
                    return;
                }
                thread::yield_now();
            }
            self.gave_up.store(true, Ordering::SeqCst);
        }
    }

    fn after(&self, thread: u32, line: u32) {
        let _ = thread;
        if line == self.until {
            self.answered.store(true, Ordering::SeqCst);
        }
    }
}
