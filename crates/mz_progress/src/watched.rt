//! A shelf, a checker and a sink that do what others do, and tell a display of it.
ghost use Rattle.std.specs.Prelude.{◌≡◌};

use crate::display::Display;
use crate::progress::Progress;
use mz_axioms::checker::{Checker, Semantics};
use mz_axioms::exports::Exports;
use mz_base::name::Name;
use mz_base::text::Text;
use mz_base::vocabularies::Vocabularies;
use mz_core::outcome::Outcome;
use mz_io::fetch_fault::FetchFault;
use mz_io::file_kind::FileKind;
use mz_io::shelf::Shelf;
use mz_io::sink::{Sink, SinkFailed};
use std::alloc::{AllocError, Global};
use std::sync::Wait;
use std::thread::Threads;

/// A shelf that counts the articles whose texts it gives.
#[derive(Drop)]
pub struct CountedShelf<'p, S: Shelf + Drop> {
    pub shelf: S,
    pub progress: &'p Progress,
}

impl<'p, S: Shelf + Drop> Shelf for CountedShelf<'p, S> {
    ghost faults = { λ s. S.faults s.shelf };

    ghost amount = { λ s. S.amount s.shelf };

    ghost contents = { λ s. S.contents s.shelf };

    ghost faults_fit = { λ s. S.faults_fit s.shelf };

    ghost amount_fits = { λ s. S.amount_fits s.shelf };

    fn fetch(
        &mut self,
        alloc: Global,
        kind: FileKind,
        name: &Name,
    ) -> Result<Option<Text>, FetchFault> {
        let answer = self.shelf.fetch(alloc, kind, name);
        if kind.is(FileKind::Article) && matches!(&answer, Ok(Some(_))) {
            self.progress.find();
        }
        answer
    }
}

/// A checker that tells which articles it checks.
#[derive(Drop)]
pub struct WatchedChecker<'p, C: Checker + Drop> {
    pub checker: C,
    pub progress: &'p Progress,
}

impl<'p, C: Checker + Drop> Semantics for WatchedChecker<'p, C> {
    ghost is_outcome = { C.is_outcome };

    ghost one_outcome = { C.one_outcome };

    ghost answers_name = { C.answers_name };

    ghost keeps_sound = { C.keeps_sound };
}

impl<'p, C: Checker + Drop> Checker for WatchedChecker<'p, C> {
    fn check<R: Threads + Wait + Sync>(
        &self,
        rt: &R,
        alloc: Global,
        name: Name,
        vocabularies: &Vocabularies,
        exports: &Exports,
        bytes: &[u8],
    ) -> Result<Outcome, AllocError> {
        self.progress.begin(rt, name);
        let outcome = self
            .checker
            .check(rt, alloc, name, vocabularies, exports, bytes);
        self.progress.end(rt, name);
        outcome
    }
}

/// A sink that ends a display before it takes bytes, so that the display's line doesn't stand between them.
#[derive(Drop)]
pub struct ClearedSink<'p, R: Wait + Eprint, W: Sink + Drop> {
    pub sink: W,
    pub rt: &'p R,
    pub display: &'p Display,
}

impl<'p, R: Wait + Eprint, W: Sink + Drop> Sink for ClearedSink<'p, R, W> {
    ghost faults = { λ s. W.faults s.sink };

    ghost taken = { λ s. W.taken s.sink };

    ghost faults_fit = { λ s. W.faults_fit s.sink };

    fn write(&mut self, bytes: &[u8]) -> Result<usize, SinkFailed> {
        self.display.end(self.rt);
        self.sink.write(bytes)
    }
}
