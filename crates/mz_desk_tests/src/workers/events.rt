//! What one thread brings about and another waits for.
use mz_io::gate::Gate;
use std::sync::atomic::{AtomicU64, Ordering};
use std::thread;

/// The most turns of a wait. Each yields the processor.
const MOST: u32 = 1_000_000;

/// Whether an event has happened, and whether a wait for it ran out of turns.
#[derive(Drop)]
pub struct Event {
    happened: AtomicU64,
    ran_out: AtomicU64,
}

impl Event {
    /// An event that has not happened.
    pub fn new() -> Event {
        Event {
            happened: AtomicU64::new(0),
            ran_out: AtomicU64::new(0),
        }
    }

    /// The event happens.
    pub fn happen(&self) {
        self.happened.store(1, Ordering::SeqCst);
    }

    /// Waits until the event has happened, for `MOST` turns at most.
    pub fn wait(&self) {
        for _ in 0..MOST {
            if self.happened.load(Ordering::SeqCst) == 1 {
                return;
            }
            thread::yield_now();
        }
        self.ran_out.store(1, Ordering::SeqCst);
    }

    /// Whether it has happened, and no wait ran out.
    pub fn was_in_time(&self) -> bool {
        self.happened.load(Ordering::SeqCst) == 1 && self.ran_out.load(Ordering::SeqCst) == 0
    }
}

/// A gate that holds row 1 until row 2 has entered.
#[derive(Drop)]
pub struct Hold {
    pub entered: Event,
}

impl Hold {
    /// The gate before the first row.
    pub fn new() -> Hold {
        Hold {
            entered: Event::new(),
        }
    }
}

impl Gate for Hold {
    fn enter(&self, article: u32) {
        if article == 2 {
            self.entered.happen();
        }
        if article == 1 {
            self.entered.wait();
        }
    }
}
