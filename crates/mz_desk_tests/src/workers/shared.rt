//! What the tests of workers share.
ghost use Rattle.std.specs.Prelude.{◌≡◌, ◌<◌, ◌^◌};

use crate::desk::corpora::{diamond, name_of};
use crate::desk::letters::letter;
use crate::workers::scripted::Scripted;
use mz_axioms::checker::Semantics;
use mz_axioms::exports::Exports;
use mz_compare::items::export_equal;
use mz_core::verdict::{Entry, Verdicts};
use mz_desk::desk::Desk;
use mz_io::gate::Gate;
use mz_workers::board::{Board, SharedCorpus};
use mz_workers::work::work;
use std::alloc::{AllocError, Global};
use std::marker::Brand;
use std::process::Abort;
use std::sync::{Condvar, Mutex, Wait};
use std::thread;
use std::thread::Threads;

/// The articles, in the order of gathering.
const ARTICLES: [&str; 4] = ["DD", "DB", "DC", "DA"];

/// The library where all of them are accepted, in the order of names.
pub const LIBRARY: [&str; 7] = ["DA", "DB", "DC", "DD", "HIDDEN", "TARSKI_0", "TARSKI_A"];

/// Whether the desk has these verdicts of the four articles, by their letters.
pub fn has_verdicts<C: Semantics, R: Abort>(rt: &R, desk: &Desk<C>, letters: &str) -> bool {
    let Ok(verdicts) = desk.verdicts() else {
        return false;
    };
    if verdicts.items.len() != 4 {
        return false;
    }
    let wanted = ARTICLES.iter().zip(letters.as_bytes());
    for (entry, (word, wanted)) in verdicts.items.iter().zip(wanted) {
        if entry.name != name_of(rt, word) || letter(entry) != *wanted {
            return false;
        }
    }
    true
}

/// Whether the desk's library has exports of these names alone.
pub fn has_library<C: Semantics, R: Abort>(rt: &R, desk: &Desk<C>, names: &[&str]) -> bool {
    if desk.library().len() != names.len() {
        return false;
    }
    for (export, word) in desk.library().as_slice().iter().zip(names) {
        if export.name != name_of(rt, word) {
            return false;
        }
    }
    true
}

/// Whether all four articles are accepted.
pub fn is_accepted<C: Semantics, R: Abort>(rt: &R, desk: &Desk<C>) -> bool {
    has_verdicts(rt, desk, "aaaa") && has_library(rt, desk, &LIBRARY)
}

fn is_same_entry(a: &Entry, b: &Entry) -> bool {
    a.name == b.name
        && letter(a) == letter(b)
        && a.counts.theorems == b.counts.theorems
        && a.counts.definitions == b.counts.definitions
        && a.counts.registrations == b.counts.registrations
        && a.counts.schemes == b.counts.schemes
        && a.faults.items == b.faults.items
}

fn is_same_told(a: &Verdicts, b: &Verdicts) -> bool {
    if a.items.len() != b.items.len() {
        return false;
    }
    for (x, y) in a.items.iter().zip(b.items.iter()) {
        if !is_same_entry(x, y) {
            return false;
        }
    }
    true
}

fn is_same_library(a: &Exports, b: &Exports) -> bool {
    if a.len() != b.len() {
        return false;
    }
    for (x, y) in a.as_slice().iter().zip(b.as_slice().iter()) {
        if !export_equal(x, y) {
            return false;
        }
    }
    true
}

/// Whether two desks whose rows are all settled tell the same of each row, and have the same library.
pub fn is_same<C: Semantics>(a: &Desk<C>, b: &Desk<C>) -> bool {
    match (a.verdicts(), b.verdicts()) {
        (Ok(told), Ok(others)) => {
            is_same_told(told, others) && is_same_library(a.library(), b.library())
        }
        _ => false,
    }
}

/// A desk over the four articles, by two workers on two threads, and how many of them stopped.
pub fn by_two<G: Gate, R: Abort + Threads + Wait + Sync>(
    rt: &R,
    alloc: Global,
    checker: &Scripted,
    gate: &G,
) -> (Desk<Scripted>, usize) {
    let corpus = diamond(rt, alloc, "b");
    let desk: Desk<Scripted> = Desk::open(alloc, corpus).expect(rt, "memory");
    two_over::<Brand, G, R>(rt, alloc, desk, checker, gate)
}

/// The desk after two workers on two threads, and how many of them stopped.
fn two_over<K: SharedCorpus + Send, G: Gate, R: Abort + Threads + Wait + Sync>(
    rt: &R,
    alloc: Global,
    desk: Desk<Scripted>,
    checker: &Scripted,
    gate: &G,
) -> (Desk<Scripted>, usize)
    requires { desk.corpus ≡ K.corpus }
{
    let board: Mutex<Board<Scripted, K>> = Mutex::new(Board::new(desk));
    let bell = Condvar::new();
    let ended = thread::map_indices(
        rt,
        alloc,
        2,
        &|i: usize| -> Result<(), AllocError>
            requires { i < 2 ^ 32 }
        { one_of_two(rt, alloc, &board, &bell, checker, gate, i as u32) },
    );
    let ended = ended.expect(rt, "memory");
    let stopped = ended.iter().filter(|e| e.is_err()).count();
    (board.into_inner().into_desk(), stopped)
}

/// A worker, which begins the event where it stops.
fn one_of_two<K: SharedCorpus, G: Gate, R: Threads + Wait + Sync>(
    rt: &R,
    alloc: Global,
    board: &Mutex<Board<Scripted, K>>,
    bell: &Condvar,
    checker: &Scripted,
    gate: &G,
    worker: u32,
) -> Result<(), AllocError> {
    let ended = work(rt, alloc, board, bell, checker, gate, worker);
    if ended.is_err() {
        checker.event.happen();
    }
    ended
}

/// The desk after one worker, and whether it stopped.
pub fn one_over<K: SharedCorpus, G: Gate, R: Threads + Wait + Sync>(
    rt: &R,
    alloc: Global,
    desk: Desk<Scripted>,
    checker: &Scripted,
    gate: &G,
) -> (Desk<Scripted>, bool)
    requires { desk.corpus ≡ K.corpus }
{
    let board: Mutex<Board<Scripted, K>> = Mutex::new(Board::new(desk));
    let bell = Condvar::new();
    let ended = work(rt, alloc, &board, &bell, checker, gate, 0);
    (board.into_inner().into_desk(), ended.is_err())
}
