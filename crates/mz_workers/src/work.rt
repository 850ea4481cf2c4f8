//! One worker's loop.
ghost use Rattle.std.specs.Prelude.{IfOk, IfSome};
ghost use Rattle.mz_desk.specs.Own.{HasOwnInput};

use crate::board::{Board, SharedCorpus};
use mz_axioms::checker::Checker;
use mz_desk::claim::Claim;
use mz_desk::job::{Done, Job};
use mz_io::gate::Gate;
use std::alloc::{AllocError, Global};
use std::sync::{Condvar, Mutex, Wait};
use std::thread::Threads;

/// The next job, or none where every row is settled. It waits with the guard under which it claimed.
fn next_job<C: Checker, K: SharedCorpus, R: Wait>(
    rt: &R,
    alloc: Global,
    board: &Mutex<Board<C, K>>,
    bell: &Condvar,
    worker: u32,
) -> Result<Option<Job>, AllocError>
    ensures { IfOk result (λ o. IfSome o (λ j. HasOwnInput C.is_outcome K.corpus.articles j)) }
{
    let mut guard = board.lock(rt);
    for _ in rt.forever() {
        match guard.claim(alloc, worker)? {
            Claim::Take(job) => return Ok(Some(job)),
            Claim::Finished => return Ok(None),
            Claim::NotYet { .. } => guard = bell.wait(rt, guard),
        }
    }
    unreachable!()
}

/// Publishes a result and wakes the others. A result that is refused is dropped, outside the lock.
fn hand_in<C: Checker, K: SharedCorpus, R: Wait>(
    rt: &R,
    board: &Mutex<Board<C, K>>,
    bell: &Condvar,
    done: Done<C>,
)
    requires { HasOwnInput C.is_outcome K.corpus.articles done.job }
{
    let published = board.lock(rt).publish(done);
    bell.notify_all();
    drop(published);
}

/// Takes every claim away and wakes the others, so that they go on.
fn give_up<C: Checker, K: SharedCorpus, R: Wait>(
    rt: &R,
    board: &Mutex<Board<C, K>>,
    bell: &Condvar,
) {
    board.lock(rt).reclaim();
    bell.notify_all();
}

/// Whether one more row was claimed and checked.
fn one_more<C: Checker, K: SharedCorpus, G: Gate, R: Threads + Wait + Sync>(
    rt: &R,
    alloc: Global,
    board: &Mutex<Board<C, K>>,
    bell: &Condvar,
    checker: &C,
    gate: &G,
    worker: u32,
) -> Result<bool, AllocError> {
    let Some(job) = next_job(rt, alloc, board, bell, worker)? else {
        return Ok(false);
    };
    gate.enter(job.row());
    match job.check(rt, alloc, checker) {
        Ok(done) => {
            hand_in(rt, board, bell, done);
            Ok(true)
        }
        Err((_, e)) => Err(e),
    }
}

/// One worker: it claims, calls the gate, checks outside the lock, publishes and wakes the others, until every
/// row is settled. Under the lock no input is compared. A result whose claim another worker has taken away is dropped, and the worker claims again.
///
/// It may wait for the lock and for other workers.
///
/// # Errors
/// `AllocError` where memory is wanting; then every claim is taken away and the others are woken.
pub fn work<C: Checker, K: SharedCorpus, G: Gate, R: Threads + Wait + Sync>(
    rt: &R,
    alloc: Global,
    board: &Mutex<Board<C, K>>,
    bell: &Condvar,
    checker: &C,
    gate: &G,
    worker: u32,
) -> Result<(), AllocError> {
    for _ in rt.forever() {
        match one_more(rt, alloc, board, bell, checker, gate, worker) {
            Ok(true) => {}
            Ok(false) => return Ok(()),
            Err(e) => {
                give_up(rt, board, bell);
                return Err(e);
            }
        }
    }
    unreachable!()
}
