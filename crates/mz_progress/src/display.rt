//! A line on standard error that is drawn again and again.
use crate::progress::Progress;
use std::alloc::Global;
use std::rt::Clock;
use std::sync::{Condvar, Mutex, Wait};
use std::time::Duration;

/// How many milliseconds lie between two drawings at the least.
const PAUSE: u64 = 100;

/// Whether the line stands on the terminal, and whether the display has ended.
#[derive(Drop)]
struct State {
    drawn: bool,
    ended: bool,
}

/// The line on standard error that shows how far a run is.
#[derive(Drop)]
pub struct Display {
    state: Mutex<State>,
    bell: Condvar,
}

/// Draws the line in place of the one before. A write that fails, or want of memory, is passed over: nothing rests on it.
fn draw<R: Wait + Eprint>(rt: &R, alloc: Global, progress: &Progress) {
    if let Ok(line) = progress.line(rt, alloc) {
        let _ = eprint!(rt; "\r\x1b[K{line}");
    }
}

impl Display {
    /// A display that has drawn nothing.
    pub fn new() -> Display {
        Display {
            state: Mutex::new(State {
                drawn: false,
                ended: false,
            }),
            bell: Condvar::new(),
        }
    }

    /// Draws how far the run is, ten times in a second at most, until the display has ended. A run that takes less than
    /// a tenth of a second has no line. It waits for another thread to end the display.
    pub fn follow<R: Wait + Clock + Eprint>(&self, rt: &R, alloc: Global, progress: &Progress) {
        let mut state = self.state.lock(rt);
        for _ in rt.forever() {
            if state.ended {
                return;
            }
            let (next, waited) = self
                .bell
                .wait_timeout(rt, state, Duration::from_millis(PAUSE));
            state = next;
            if waited.timed_out() && !state.ended {
                state.drawn = true;
                draw(rt, alloc, progress);
            }
        }
    }

    /// Ends the display, and wipes its line out.
    pub fn end<R: Wait + Eprint>(&self, rt: &R) {
        let mut state = self.state.lock(rt);
        state.ended = true;
        if state.drawn {
            state.drawn = false;
            let _ = eprint!(rt; "\r\x1b[K");
        }
        drop(state);
        self.bell.notify_all();
    }
}
