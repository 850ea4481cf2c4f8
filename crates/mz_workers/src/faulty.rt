//! A checker that gives up at chosen checks, for runs in which memory is wanting now and then.
ghost use Rattle.std.specs.Prelude.{◌≡◌};

use mz_axioms::checker::{Checker, Semantics};
use mz_axioms::exports::Exports;
use mz_base::name::Name;
use mz_base::numbers::Numbers;
use mz_base::vocabularies::Vocabularies;
use mz_core::outcome::Outcome;
use std::alloc::{AllocError, Global};
use std::sync::Wait;
use std::sync::atomic::{AtomicU64, Ordering};
use std::thread::Threads;

/// A checker over another one, with that one's outcomes and laws. Its checks are numbered from 1 as they begin, in whatever thread;
/// those whose numbers it was given answer want of memory, and the others what the other checker answers.
#[derive(Drop)]
pub struct Faulty<C: Checker + Drop> {
    checker: C,
    fail: Numbers,
    checks: AtomicU64,
}

impl<C: Checker + Drop> Faulty<C> {
    /// A checker that hasn't checked anything.
    pub fn new(checker: C, fail: Numbers) -> Faulty<C>
        ensures checker { result.checker ≡ checker }
        ensures fail { result.fail ≡ fail }
    {
        Faulty {
            checker,
            fail,
            checks: AtomicU64::new(0),
        }
    }
}

impl<C: Checker + Drop> Semantics for Faulty<C> {
    ghost is_outcome = { C.is_outcome };

    ghost one_outcome = { C.one_outcome };

    ghost answers_name = { C.answers_name };

    ghost keeps_sound = { C.keeps_sound };
}

impl<C: Checker + Drop> Checker for Faulty<C> {
    fn check<R: Threads + Wait + Sync>(
        &self,
        rt: &R,
        alloc: Global,
        name: Name,
        vocabularies: &Vocabularies,
        exports: &Exports,
        bytes: &[u8],
    ) -> Result<Outcome, AllocError> {
        let before = self.checks.fetch_add(1, Ordering::SeqCst);
        if self.fail.contains(before.wrapping_add(1)) {
            return Err(AllocError);
        }
        self.checker
            .check(rt, alloc, name, vocabularies, exports, bytes)
    }
}
