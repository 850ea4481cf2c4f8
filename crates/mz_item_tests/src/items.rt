//! Statements, and items of each kind, worked out by hand.
mod comparisons;
mod rows;
mod statements;

use crate::answers::{put, put_answers};
use crate::items::rows::ITEMS;
use crate::reading::items::item;
use crate::reading::parts::{front_of, without_comment};
use mz_items::condition::Condition;
use std::alloc::Global;
use std::mem::forget;
use std::process::Abort;

/// 6 is the number of `correctness`, and 7 that of a property.
#[test]
fn numbers_of_conditions(rt: HostRuntime) {
    let rows = [
        (Condition::Existence, 1),
        (Condition::Uniqueness, 2),
        (Condition::Coherence, 3),
        (Condition::Compatibility, 4),
        (Condition::Consistency, 5),
        (Condition::Reducibility, 8),
    ];
    for (c, number) in rows {
        assert!(rt; c.number() == number);
    }
}

/// The answers to the item are those of its row.
fn check_item(rt: &impl Abort, alloc: Global, row: &'static str) {
    let mut rest = row;
    let line = front_of(&mut rest, '\n');
    let item = item(rt, alloc, line);
    let mut found = Vec::new(alloc);
    put(rt, &mut found, line.as_bytes());
    put_answers(rt, alloc, &mut found, &item);
    forget(item);
    let same = found.as_slice() == row.as_bytes();
    forget(found);
    assert!(rt; same, "{line}");
}

#[test]
fn items_of_each_kind(rt: HostRuntime) {
    for row in ITEMS.split("\n\n") {
        check_item(&rt, rt.alloc(), without_comment(row));
    }
}
