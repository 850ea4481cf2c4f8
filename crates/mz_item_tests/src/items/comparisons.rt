//! Items and exports that are equal, and that differ.
use crate::reading::items::item;
use mz_base::name::Name;
use mz_base::names::Names;
use mz_compare::items::{export_equal, item_equal};
use mz_core::items::Items;
use mz_core::outcome::Export;
use mz_items::notations_of::notations_of;
use std::alloc::Global;
use std::mem::forget;
use std::process::Abort;

const PREDICATE: &str =
    "define pred A.R5 ; ; set, set ; (A.R1 b0 b1) if (A.R3 b0) | (A.R2 b0 b1) if (A.R4 b0)";

const ATTRIBUTE: &str = "define attr A.V1 ; ; set, set ; 0 ; (A.R2 b1 b0)";

const PAIRS: &str = "struct A.G1 ; A.V1 ; A.A1 ; set ; A.G2 ; A.U1 A.M1 | A.U2 (A.M2 b1)";

const WITH_NOTATIONS: &str =
    "struct A.G1 ; A.V1 ; A.A1 ; set ; A.G2 ; A.U1 A.M1 | A.U2 (A.M2 b1) ; (A.M1 b0) | (A.M2 b0)";

/// Two items, and whether they are equal.
const ITEMS: [(&str, &str, bool); 3] = [
    (PREDICATE, PREDICATE, true),
    (PREDICATE, ATTRIBUTE, false),
    (PAIRS, WITH_NOTATIONS, false),
];

fn check_items(rt: &impl Abort, alloc: Global, a: &'static str, b: &'static str, wanted: bool) {
    let first = item(rt, alloc, a);
    let second = item(rt, alloc, b);
    let found = item_equal(&first, &second);
    forget(first);
    forget(second);
    assert!(rt; found == wanted, "{a}");
}

#[test]
fn equal_items(rt: HostRuntime) {
    for (a, b, wanted) in ITEMS {
        check_items(&rt, rt.alloc(), a, b, wanted);
    }
}

/// An export of this item and its notations.
fn export(rt: &impl Abort, alloc: Global, name: &str, line: &'static str) -> Export {
    let item = item(rt, alloc, line);
    let notations = notations_of(alloc, &item).expect(rt, "memory");
    let mut items = Items::new(alloc);
    items.push(item).expect(rt, "memory");
    Export {
        name: Name::read(name.as_bytes()).expect(rt, "a name"),
        dependencies: Names::new(alloc),
        items,
        notations,
    }
}

/// The names and the items of two exports, and whether they are equal.
const EXPORTS: [(&str, &str, &str, &str, bool); 3] = [
    ("HIDDEN", ATTRIBUTE, "HIDDEN", ATTRIBUTE, true),
    ("HIDDEN", ATTRIBUTE, "TARSKI_0", ATTRIBUTE, false),
    ("HIDDEN", ATTRIBUTE, "HIDDEN", PREDICATE, false),
];

fn check_exports(rt: &impl Abort, a: Export, b: Export, wanted: bool) {
    let found = export_equal(&a, &b);
    forget(a);
    forget(b);
    assert!(rt; found == wanted);
}

#[test]
fn equal_exports(rt: HostRuntime) {
    for (name, line, other, others, wanted) in EXPORTS {
        let first = export(&rt, rt.alloc(), name, line);
        let second = export(&rt, rt.alloc(), other, others);
        check_exports(&rt, first, second, wanted);
    }
}
