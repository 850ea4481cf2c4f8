//! Runs by several workers. What one article waits for, another worker has to bring about.
use crate::checker::ProgramChecker;
use crate::tests::libraries::diamond;
use crate::tests::shared::{check_row, shelf_of, words_of};
use mz_axioms::checker::{Checker, Semantics};
use mz_axioms::exports::Exports;
use mz_base::name::Name;
use mz_base::numbers::Numbers;
use mz_base::status::Status;
use mz_base::vocabularies::Vocabularies;
use mz_core::outcome::Outcome;
use mz_io::gate::{Gate, OpenGate};
use mz_io::memory_sink::MemorySink;
use mz_run::run::run_with;
use std::alloc::{AllocError, Global};
use std::mem::forget;
use std::sync::Wait;
use std::sync::atomic::{AtomicU64, Ordering};
use std::thread;
use std::thread::Threads;

/// The most turns of a wait. Each yields the processor.
const MOST: u32 = 1_000_000;

/// Whether an event has happened, and whether a wait for it ran out of turns.
#[derive(Drop)]
pub struct Event {
    happened: AtomicU64,
    ran_out: AtomicU64,
}

impl Event {
    /// An event that has not happened.
    pub fn new() -> Event {
        Event {
            happened: AtomicU64::new(0),
            ran_out: AtomicU64::new(0),
        }
    }

    /// The event happens.
    pub fn happen(&self) {
        self.happened.store(1, Ordering::SeqCst);
    }

    /// Waits until the event has happened, for `MOST` turns at most.
    pub fn wait(&self) {
        for _ in 0..MOST {
            if self.happened.load(Ordering::SeqCst) == 1 {
                return;
            }
            thread::yield_now();
        }
        self.ran_out.store(1, Ordering::SeqCst);
    }

    /// Whether it has happened, and no wait ran out.
    pub fn was_in_time(&self) -> bool {
        self.happened.load(Ordering::SeqCst) == 1 && self.ran_out.load(Ordering::SeqCst) == 0
    }
}

/// A gate that holds DB, which is row 1, until DC, which is row 2, has entered.
#[derive(Drop)]
pub struct Hold {
    pub entered: Event,
}

impl Gate for Hold {
    fn enter(&self, article: u32) {
        if article == 2 {
            self.entered.happen();
        }
        if article == 1 {
            self.entered.wait();
        }
    }
}

#[test]
fn a_gate_holds_one_article_until_another_has_entered(rt: HostRuntime) {
    let gate = Hold {
        entered: Event::new(),
    };
    let row = diamond(&["--workers", "4", "DD"]);
    let calls = check_row(&rt, rt.alloc(), &row, &gate);
    assert!(&rt; calls == 4);
    assert!(&rt; gate.entered.was_in_time());
}

/// The checker of articles, whose check of DB waits until that of DC has begun.
#[derive(Drop)]
struct Waiting {
    begun: Event,
    first: Name,
    second: Name,
}

impl Semantics for Waiting {
    ghost use Rattle.mz_article.specs.Outcome.{IsOutcome};
    ghost use Rattle.mz_checker.proofs.Verdicts.{one_outcome, accepted_law, name_law};

    ghost is_outcome = { IsOutcome };

    ghost one_outcome = { one_outcome };

    ghost answers_name = { name_law };

    ghost keeps_sound = { accepted_law };
}

impl Checker for Waiting {
    fn check<R: Threads + Wait + Sync>(
        &self,
        rt: &R,
        alloc: Global,
        name: Name,
        vocabularies: &Vocabularies,
        exports: &Exports,
        bytes: &[u8],
    ) -> Result<Outcome, AllocError> {
        if name == self.second {
            self.begun.happen();
        }
        if name == self.first {
            self.begun.wait();
        }
        ProgramChecker::new().check(rt, alloc, name, vocabularies, exports, bytes)
    }
}

#[test]
fn a_check_waits_for_another(rt: HostRuntime) {
    let alloc: Global = rt.alloc();
    let checker = Waiting {
        begun: Event::new(),
        first: Name::read(b"DB").expect(&rt, "a name"),
        second: Name::read(b"DC").expect(&rt, "a name"),
    };
    let row = diamond(&["--workers", "2", "DD"]);
    let mut shelf = shelf_of(&rt, alloc, &row);
    let mut out = MemorySink::new(alloc, 4096, Numbers::new(alloc)).expect(&rt, "memory");
    let words = words_of(&rt, alloc, row.words);
    let status = run_with(&rt, alloc, &checker, words, &mut shelf, &mut out, &OpenGate);
    let same = out.bytes() == row.report.as_bytes();
    forget(shelf);
    forget(out);
    assert!(&rt; status == Status::Accepted && same);
    assert!(&rt; checker.begun.was_in_time());
}
