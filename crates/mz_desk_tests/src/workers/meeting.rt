//! How many articles are checked at once.
use crate::desk::corpora::corpus_of;
use crate::desk::plain::Plain;
use crate::workers::events::Event;
use mz_axioms::checker::{Checker, Semantics};
use mz_axioms::exports::Exports;
use mz_base::name::Name;
use mz_base::vocabularies::Vocabularies;
use mz_core::outcome::Outcome;
use mz_io::gate::OpenGate;
use mz_turns::turn::Turn;
use mz_workers::run_all::run_all;
use std::alloc::{AllocError, Global};
use std::sync::Wait;
use std::sync::atomic::{AtomicU64, Ordering};
use std::thread::Threads;

/// A checker as `Plain`, whose checks wait until so many have begun that have not ended.
#[derive(Drop)]
struct Meeting {
    wanted: u64,
    met: Event,
    /// How many checks have begun and have not ended.
    inside: AtomicU64,
    /// How often there were more of them than wanted.
    passed: AtomicU64,
}

impl Semantics for Meeting {
    ghost use Rattle.mz_desk_tests.specs.Plain.{IsPlain};
    ghost use Rattle.mz_desk_tests.specs.PlainLaws.{plain-once, plain-name, plain-sound};

    ghost is_outcome = { IsPlain };

    ghost one_outcome = { plain-once };

    ghost answers_name = { plain-name };

    ghost keeps_sound = { plain-sound };
}

impl Checker for Meeting {
    fn check<R: Threads + Wait + Sync>(
        &self,
        rt: &R,
        alloc: Global,
        name: Name,
        vocabularies: &Vocabularies,
        exports: &Exports,
        bytes: &[u8],
    ) -> Result<Outcome, AllocError> {
        let inside = self.inside.fetch_add(1, Ordering::SeqCst).wrapping_add(1);
        if inside > self.wanted {
            self.passed.fetch_add(1, Ordering::SeqCst);
        }
        if inside == self.wanted {
            self.met.happen();
        }
        self.met.wait();
        let outcome = Plain.check(rt, alloc, name, vocabularies, exports, bytes);
        self.inside.fetch_sub(1, Ordering::SeqCst);
        outcome
    }
}

/// Nine articles that rest on none.
const NINE: &str = "AA::a AB::a AC::a AD::a AE::a AF::a AG::a AH::a AI::a";

/// How many of the first turns, one for each worker, are claims by this one.
fn claims_by(turns: &[Turn], workers: u32, worker: u32) -> usize {
    turns
        .iter()
        .take(workers as usize)
        .filter(|turn| matches!(turn, Turn::Take(_, by) if *by == worker))
        .count()
}

/// As many workers as were asked for check at once, and no more; each has a number of its own, from 0 on. Since none
/// publishes before all have claimed, the first turns are their claims.
#[test]
fn as_many_are_checked_at_once_as_there_are_workers(rt: HostRuntime) {
    let alloc: Global = rt.alloc();
    for workers in [1, 3, 7] {
        let checker = Meeting {
            wanted: u64::from(workers),
            met: Event::new(),
            inside: AtomicU64::new(0),
            passed: AtomicU64::new(0),
        };
        let corpus = corpus_of(&rt, alloc, NINE);
        let desk = run_all(&rt, alloc, corpus, &checker, &OpenGate, workers).expect(&rt, "memory");
        assert!(&rt; desk.verdicts().is_ok());
        assert!(&rt; checker.met.was_in_time());
        assert!(&rt; checker.passed.load(Ordering::SeqCst) == 0);
        for worker in 0..workers {
            assert!(&rt; claims_by(desk.turns(), workers, worker) == 1);
        }
    }
}
