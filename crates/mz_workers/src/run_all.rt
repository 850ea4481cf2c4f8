//! All the work.
ghost use Rattle.std.specs.Prelude.{◌≡◌, ◌≤◌, ◌<◌, ◌^◌, IfOk, OnOk, IsTrue, IsFalse};
ghost use Rattle.std.specs.Arc.{arc_value};
ghost use Rattle.mz_axioms.specs.Library.{Sound};
ghost use Rattle.mz_turns.specs.Library.{library_of};
ghost use Rattle.mz_turns.specs.Verdicts.{AreVerdicts};
ghost use Rattle.mz_desk.specs.Job.{Done};
ghost use Rattle.mz_desk.specs.Desk.{AllAreSettled, Stands, Publishes};
ghost use Rattle.mz_workers.specs.Work.{work_left};

use crate::board::{Board, SharedCorpus};
use crate::work::work;
use mz_axioms::checker::Checker;
use mz_corpus::corpus::Corpus;
use mz_desk::claim::Claim;
use mz_desk::desk::Desk;
use mz_desk::job::Job;
use mz_desk::laws::answers_law;
use mz_io::gate::Gate;
use std::alloc::{AllocError, Global};
use std::marker::Brand;
use std::sync::{Arc, Condvar, Mutex, Wait};
use std::thread;
use std::thread::Threads;

/// Runs so many workers over the desk, and takes it out of its lock again. A worker that stops leaves rows that are not settled.
pub fn run_workers<C: Checker, K: SharedCorpus + Send, G: Gate, R: Threads + Wait + Sync>(
    rt: &R,
    alloc: Global,
    desk: Desk<C>,
    checker: &C,
    gate: &G,
    workers: u32,
) -> Desk<C>
    requires { desk.corpus ≡ K.corpus }
    ensures { result.corpus ≡ desk.corpus }
{
    let board: Mutex<Board<C, K>> = Mutex::new(Board::new(desk));
    let bell = Condvar::new();
    let ended = thread::map_indices(
        rt,
        alloc,
        workers as usize,
        &|i: usize| -> Result<(), AllocError>
            requires { i < 2 ^ 32 }
        { work(rt, alloc, &board, &bell, checker, gate, i as u32) },
    );
    drop(ended);
    board.into_inner().into_desk()
}

/// Checks a job and publishes its result, where it stands.
fn check_one<C: Checker, R: Threads + Wait + Sync>(
    rt: &R,
    alloc: Global,
    desk: &mut Desk<C>,
    job: Job,
    checker: &C,
) -> Result<(), AllocError>
    ensures corpus { desk.new.corpus ≡ desk.old.corpus }
    ensures published { OnOk result (Stands desk.old.corpus.articles desk.old.rows job → (d : Done) × (d.job ≡ job) × Publishes desk.old desk.new d) }
{
    answers_law();
    match job.check(rt, alloc, checker) {
        Ok(done) => {
            let _ = desk.publish(done);
            Ok(())
        }
        Err((_, e)) => Err(e),
    }
}

/// Checks the first ready row, or takes claims away where none is ready; whether there was something to do. So less
/// is left.
fn advance<C: Checker, R: Threads + Wait + Sync>(
    rt: &R,
    alloc: Global,
    desk: &mut Desk<C>,
    checker: &C,
) -> Result<bool, AllocError>
    ensures corpus { desk.new.corpus ≡ desk.old.corpus }
    ensures less { IfOk result (λ more. IsTrue more → work_left desk.new.rows < work_left desk.old.rows) }
    ensures settled { IfOk result (λ more. IsFalse more → AllAreSettled desk.new) }
{
    desk.law();
    desk.corpus().law();
    answers_law();
    match desk.claim(alloc, 0)? {
        Claim::Take(job) => {
            check_one(rt, alloc, &mut *desk, job, checker)?;
            Ok(true)
        }
        Claim::NotYet { .. } => {
            desk.reclaim();
            Ok(true)
        }
        Claim::Finished => Ok(false),
    }
}

/// Finishes the work of a desk in this thread. It passes no gate, since it is no worker's.
fn finish<C: Checker, R: Threads + Wait + Sync>(
    rt: &R,
    alloc: Global,
    mut desk: Desk<C>,
    checker: &C,
) -> Result<Desk<C>, AllocError>
    ensures corpus { IfOk result (λ s. s.corpus ≡ desk.corpus) }
    ensures settled { IfOk result (λ s. AllAreSettled s) }
    ensures verdicts { IfOk result (λ s. AreVerdicts C.is_outcome s.corpus.articles s.rows) }
    ensures sound { IfOk result (λ s. Sound (library_of s.rows)) }
{
    while advance(rt, alloc, &mut desk, checker)? {}
    desk.law();
    Ok(desk)
}

/// A desk over the corpus with every row settled, by this many workers, 1 to 16. The rows are the verdicts of
/// the articles, whatever the workers do and in whatever order they come to the lock.
///
/// The caller's thread finishes what the workers leave, as where a thread can't be started or one of them meets
/// want of memory. It may wait for the workers.
///
/// # Errors
/// `AllocError` where memory is wanting.
pub fn run_all<C: Checker, G: Gate, R: Threads + Wait + Sync>(
    rt: &R,
    alloc: Global,
    corpus: Arc<Corpus>,
    checker: &C,
    gate: &G,
    workers: u32,
) -> Result<Desk<C>, AllocError>
    requires { (1 ≤ workers) × (workers ≤ 16) }
    ensures corpus { IfOk result (λ s. s.corpus ≡ arc_value corpus) }
    ensures settled { IfOk result (λ s. AllAreSettled s) }
    ensures verdicts { IfOk result (λ s. AreVerdicts C.is_outcome (arc_value corpus).articles s.rows) }
    ensures sound { IfOk result (λ s. Sound (library_of s.rows)) }
{
    let desk = Desk::open(alloc, corpus)?;
    let mut desk = run_workers::<C, Brand, G, R>(rt, alloc, desk, checker, gate, workers);
    desk.reclaim();
    finish(rt, alloc, desk, checker)
}
