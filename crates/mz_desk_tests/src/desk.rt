//! Desks over small corpora and what they answer, worked out by hand, with a checker, corpora and letters of verdicts.
mod bench;
pub mod corpora;
pub mod letters;
pub mod plain;
mod rows;

use crate::desk::bench::{Bench, put_answer};
use crate::desk::rows::DESKS;
use std::alloc::Global;
use std::mem::forget;
use std::process::Abort;
use std::sync::Wait;
use std::thread::Threads;

/// Does what the line says; where `=>` stands in it, the answer is what stands behind this.
fn check_line<R: Abort + Threads + Wait + Sync>(
    rt: &R,
    alloc: Global,
    bench: &mut Bench,
    line: &'static str,
) {
    let (order, wanted) = match line.split_once(" => ") {
        Some((order, wanted)) => (order, Some(wanted)),
        None => (line, None),
    };
    let mut found = Vec::new(alloc);
    put_answer(rt, alloc, &mut found, bench, order);
    if let Some(wanted) = wanted {
        let same = found.as_slice() == wanted.as_bytes();
        assert!(rt; same, "{line}");
    }
    forget(found);
}

#[test]
fn desks_and_results_of_others(rt: HostRuntime) {
    for row in DESKS.split("\n\n") {
        let mut bench = Bench::new(rt.alloc());
        for line in row.lines() {
            if !line.starts_with("# ") {
                check_line(&rt, rt.alloc(), &mut bench, line);
            }
        }
        forget(bench);
    }
}
