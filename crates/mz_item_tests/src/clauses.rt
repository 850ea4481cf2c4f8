//! The clauses of items of each kind, worked out by hand. A clause is written as the number of its variables, its trigger,
//! `:`, its premises, `=>` and its conclusion.
mod rows;

use crate::answers::{put, put_clauses, put_clauses_of};
use crate::clauses::rows::{CLAUSES, CLAUSES_OF_EXPORT, EXPORTED};
use crate::reading::items::{item, items, letter};
use crate::reading::parts::{front_of, without_comment};
use mz_base::name::Name;
use mz_base::names::Names;
use mz_clauses::clauses_of::{clauses_of, letter_clauses};
use mz_core::notations::Notations;
use mz_core::outcome::Export;
use std::alloc::Global;
use std::mem::forget;
use std::process::Abort;

/// Puts the clauses of the item, or of the letter.
fn put_given(rt: &impl Abort, alloc: Global, out: &mut Vec<u8>, line: &'static str) {
    match line.strip_prefix("letter ") {
        Some(text) => {
            let l = letter(rt, alloc, text);
            let cs = letter_clauses(alloc, &l).expect(rt, "memory");
            put_clauses(rt, alloc, out, b"\ntyping ", &cs);
            forget(l);
            forget(cs);
        }
        None => {
            let item = item(rt, alloc, line);
            put_clauses_of(rt, alloc, out, &item);
            forget(item);
        }
    }
}

/// The clauses of the item are those of its row.
fn check_clauses(rt: &impl Abort, alloc: Global, row: &'static str) {
    let mut rest = row;
    let line = front_of(&mut rest, '\n');
    let mut found = Vec::new(alloc);
    put(rt, &mut found, line.as_bytes());
    put_given(rt, alloc, &mut found, line);
    let same = found.as_slice() == row.as_bytes();
    forget(found);
    assert!(rt; same, "{line}");
}

#[test]
fn clauses_of_items(rt: HostRuntime) {
    for row in CLAUSES.split("\n\n") {
        check_clauses(&rt, rt.alloc(), without_comment(row));
    }
}

#[test]
fn clauses_of_an_export(rt: HostRuntime) {
    let export = Export {
        name: Name::hidden(),
        dependencies: Names::new(rt.alloc()),
        items: items(&rt, rt.alloc(), EXPORTED),
        notations: Notations::new(rt.alloc()),
    };
    let cs = clauses_of(rt.alloc(), &export).expect(&rt, "memory");
    forget(export);
    let mut found = Vec::new(rt.alloc());
    put_clauses(&rt, rt.alloc(), &mut found, b"\n", &cs);
    forget(cs);
    let same = found.as_slice() == CLAUSES_OF_EXPORT.as_bytes();
    forget(found);
    assert!(rt; same);
}
