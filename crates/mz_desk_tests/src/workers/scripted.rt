//! A checker that waits and fails where a test wants it.
use crate::desk::plain::Plain;
use crate::workers::events::Event;
use mz_axioms::checker::{Checker, Semantics};
use mz_axioms::exports::Exports;
use mz_base::name::Name;
use mz_base::vocabularies::Vocabularies;
use mz_core::outcome::Outcome;
use std::alloc::{AllocError, Global};
use std::sync::Wait;
use std::sync::atomic::{AtomicU64, Ordering};
use std::thread;
use std::thread::Threads;

/// How often a check yields before it fails, so that other workers go on to wait.
const TURNS: u32 = 100;

/// A checker as `Plain`. The check of one article begins an event, and that of another waits for it; the first checks
/// of an article meet want of memory.
#[derive(Drop)]
pub struct Scripted {
    pub begins: Option<Name>,
    pub waits: Option<Name>,
    pub event: Event,
    pub fails: Option<Name>,
    /// How many checks of that article are still to fail.
    pub left: AtomicU64,
    /// How many checks there were.
    pub checks: AtomicU64,
}

impl Scripted {
    /// It neither waits nor fails.
    pub fn new() -> Scripted {
        Scripted {
            begins: None,
            waits: None,
            event: Event::new(),
            fails: None,
            left: AtomicU64::new(0),
            checks: AtomicU64::new(0),
        }
    }

    /// Its first checks of the article fail, as many as this.
    pub fn failing(name: Name, count: u64) -> Scripted {
        Scripted {
            begins: None,
            waits: None,
            event: Event::new(),
            fails: Some(name),
            left: AtomicU64::new(count),
            checks: AtomicU64::new(0),
        }
    }

    /// Its check of one article waits until that of another has begun.
    pub fn waiting(waits: Name, begins: Name) -> Scripted {
        Scripted {
            begins: Some(begins),
            waits: Some(waits),
            event: Event::new(),
            fails: None,
            left: AtomicU64::new(0),
            checks: AtomicU64::new(0),
        }
    }

    /// How many checks there were.
    pub fn count(&self) -> u64 {
        self.checks.load(Ordering::SeqCst)
    }

    /// Whether one of the failing checks is left, which is taken.
    fn takes_failure(&self) -> bool {
        let left = self.left.load(Ordering::SeqCst);
        if left == 0 {
            return false;
        }
        self.left.store(left - 1, Ordering::SeqCst);
        true
    }
}

impl Semantics for Scripted {
    ghost use Rattle.mz_desk_tests.specs.Plain.{IsPlain};
    ghost use Rattle.mz_desk_tests.specs.PlainLaws.{plain-once, plain-name, plain-sound};

    ghost is_outcome = { IsPlain };

    ghost one_outcome = { plain-once };

    ghost answers_name = { plain-name };

    ghost keeps_sound = { plain-sound };
}

impl Checker for Scripted {
    fn check<R: Threads + Wait + Sync>(
        &self,
        rt: &R,
        alloc: Global,
        name: Name,
        vocabularies: &Vocabularies,
        exports: &Exports,
        bytes: &[u8],
    ) -> Result<Outcome, AllocError> {
        self.checks.fetch_add(1, Ordering::SeqCst);
        if self.begins == Some(name) {
            self.event.happen();
        }
        if self.waits == Some(name) {
            self.event.wait();
        }
        if self.fails == Some(name) && self.takes_failure() {
            for _ in 0..TURNS {
                thread::yield_now();
            }
            return Err(AllocError);
        }
        Plain.check(rt, alloc, name, vocabularies, exports, bytes)
    }
}
