//! What the built-in articles grant, with texts worked out by hand, and checkers.
mod checkers;

use crate::answers::{put, put_granted};
use mz_axioms::built_in::built_in;
use mz_base::name::Name;
use mz_base::names::Names;
use mz_core::items::Items;
use mz_core::notation::{Meaning, Notation};
use mz_core::notations::Notations;
use mz_core::outcome::Export;
use mz_item_samples::texts::type_text;
use mz_logic::texts::term_text;
use mz_samples::texts::literal_text;
use std::alloc::Global;
use std::mem::forget;
use std::process::Abort;
use std::sync::Arc;

/// Each built-in article with the number of its items, what they grant, and what its notations read to.
const BUILT_IN: &str = "HIDDEN with 5 items
spells object HIDDEN.M1
spells set HIDDEN.M2
spells = (= b1 b0)
spells <> (not (= b1 b0))
spells in (HIDDEN.R1 b1 b0)

TARSKI_0 with 6 items
grants (all true)
grants (all (all (not (and (all (and (not (and (HIDDEN.R1 b0 b2) (not (HIDDEN.R1 b0 b1)))) (not (and (HIDDEN.R1 b0 b1) (not (HIDDEN.R1 b0 b2)))))) (not (= b1 b0))))))
grants (all (all (not (all (not (all (and (not (and (HIDDEN.R1 b0 b1) (and (not (= b0 b3)) (not (= b0 b2))))) (not (and (not (and (not (= b0 b3)) (not (= b0 b2)))) (not (HIDDEN.R1 b0 b1)))))))))))
grants (all (not (all (not (all (and (not (and (HIDDEN.R1 b0 b1) (all (not (and (HIDDEN.R1 b1 b0) (HIDDEN.R1 b0 b3)))))) (not (and (not (all (not (and (HIDDEN.R1 b1 b0) (HIDDEN.R1 b0 b3))))) (not (HIDDEN.R1 b0 b1))))))))))
grants (all (all (not (and (HIDDEN.R1 b1 b0) (all (not (and (HIDDEN.R1 b0 b1) (all (not (and (HIDDEN.R1 b0 b2) (HIDDEN.R1 b0 b1)))))))))))
grants (not (and (all (all (all (not (and (and (TARSKI_0.P1 b2 b1) (TARSKI_0.P1 b2 b0)) (not (= b1 b0))))))) (all (not (all (and (not (and (HIDDEN.R1 b0 b1) (all (not (and (HIDDEN.R1 b0 TARSKI_0.F1) (TARSKI_0.P1 b0 b1)))))) (not (and (not (all (not (and (HIDDEN.R1 b0 TARSKI_0.F1) (TARSKI_0.P1 b0 b1))))) (not (HIDDEN.R1 b0 b1))))))))))

TARSKI_A with 1 items
grants (all (not (all (not (and (and (and (HIDDEN.R1 b1 b0) (all (all (not (and (and (HIDDEN.R1 b1 b2) (all (not (and (HIDDEN.R1 b0 b1) (not (HIDDEN.R1 b0 b2)))))) (not (HIDDEN.R1 b0 b2))))))) (all (not (and (HIDDEN.R1 b0 b1) (all (not (and (HIDDEN.R1 b0 b2) (all (not (and (all (not (and (HIDDEN.R1 b0 b1) (not (HIDDEN.R1 b0 b3))))) (not (HIDDEN.R1 b0 b1)))))))))))) (all (not (and (all (not (and (HIDDEN.R1 b0 b1) (not (HIDDEN.R1 b0 b2))))) (and (not (HIDDEN.R1 b0 b1)) (all (not (and (and (all (not (and (HIDDEN.R1 b0 b2) (all (not (and (HIDDEN.R1 b0 b4) (not (all (not (and (HIDDEN.R1 b0 b3) (all (and (not (and (HIDDEN.R1 b0 b1) (and (not (all (and (not (and (HIDDEN.R1 b0 b1) (and (not (= b0 b4)) (not (= b0 b3))))) (not (and (not (and (not (= b0 b4)) (not (= b0 b3)))) (not (HIDDEN.R1 b0 b1))))))) (not (all (and (not (and (HIDDEN.R1 b0 b1) (not (= b0 b4)))) (not (and (= b0 b4) (not (HIDDEN.R1 b0 b1)))))))))) (not (and (not (and (not (all (and (not (and (HIDDEN.R1 b0 b1) (and (not (= b0 b4)) (not (= b0 b3))))) (not (and (not (and (not (= b0 b4)) (not (= b0 b3)))) (not (HIDDEN.R1 b0 b1))))))) (not (all (and (not (and (HIDDEN.R1 b0 b1) (not (= b0 b4)))) (not (and (= b0 b4) (not (HIDDEN.R1 b0 b1))))))))) (not (HIDDEN.R1 b0 b1)))))))))))))))) (all (not (and (HIDDEN.R1 b0 b3) (all (not (and (HIDDEN.R1 b0 b3) (not (all (not (and (HIDDEN.R1 b0 b3) (all (and (not (and (HIDDEN.R1 b0 b1) (and (not (all (and (not (and (HIDDEN.R1 b0 b1) (and (not (= b0 b3)) (not (= b0 b4))))) (not (and (not (and (not (= b0 b3)) (not (= b0 b4)))) (not (HIDDEN.R1 b0 b1))))))) (not (all (and (not (and (HIDDEN.R1 b0 b1) (not (= b0 b3)))) (not (and (= b0 b3) (not (HIDDEN.R1 b0 b1)))))))))) (not (and (not (and (not (all (and (not (and (HIDDEN.R1 b0 b1) (and (not (= b0 b3)) (not (= b0 b4))))) (not (and (not (and (not (= b0 b3)) (not (= b0 b4)))) (not (HIDDEN.R1 b0 b1))))))) (not (all (and (not (and (HIDDEN.R1 b0 b1) (not (= b0 b3)))) (not (and (= b0 b3) (not (HIDDEN.R1 b0 b1))))))))) (not (HIDDEN.R1 b0 b1))))))))))))))))) (all (all (all (all (not (and (and (not (all (not (and (HIDDEN.R1 b0 b5) (all (and (not (and (HIDDEN.R1 b0 b1) (and (not (all (and (not (and (HIDDEN.R1 b0 b1) (and (not (= b0 b6)) (not (= b0 b5))))) (not (and (not (and (not (= b0 b6)) (not (= b0 b5)))) (not (HIDDEN.R1 b0 b1))))))) (not (all (and (not (and (HIDDEN.R1 b0 b1) (not (= b0 b6)))) (not (and (= b0 b6) (not (HIDDEN.R1 b0 b1)))))))))) (not (and (not (and (not (all (and (not (and (HIDDEN.R1 b0 b1) (and (not (= b0 b6)) (not (= b0 b5))))) (not (and (not (and (not (= b0 b6)) (not (= b0 b5)))) (not (HIDDEN.R1 b0 b1))))))) (not (all (and (not (and (HIDDEN.R1 b0 b1) (not (= b0 b6)))) (not (and (= b0 b6) (not (HIDDEN.R1 b0 b1))))))))) (not (HIDDEN.R1 b0 b1)))))))))) (not (all (not (and (HIDDEN.R1 b0 b5) (all (and (not (and (HIDDEN.R1 b0 b1) (and (not (all (and (not (and (HIDDEN.R1 b0 b1) (and (not (= b0 b4)) (not (= b0 b3))))) (not (and (not (and (not (= b0 b4)) (not (= b0 b3)))) (not (HIDDEN.R1 b0 b1))))))) (not (all (and (not (and (HIDDEN.R1 b0 b1) (not (= b0 b4)))) (not (and (= b0 b4) (not (HIDDEN.R1 b0 b1)))))))))) (not (and (not (and (not (all (and (not (and (HIDDEN.R1 b0 b1) (and (not (= b0 b4)) (not (= b0 b3))))) (not (and (not (and (not (= b0 b4)) (not (= b0 b3)))) (not (HIDDEN.R1 b0 b1))))))) (not (all (and (not (and (HIDDEN.R1 b0 b1) (not (= b0 b4)))) (not (and (= b0 b4) (not (HIDDEN.R1 b0 b1))))))))) (not (HIDDEN.R1 b0 b1))))))))))) (not (and (not (and (= b3 b1) (not (= b2 b0)))) (not (and (= b2 b0) (not (= b3 b1))))))))))))))))))))))))
";

/// A line with the name of the export and the number of its items.
fn put_head(rt: &impl Abort, alloc: Global, out: &mut Vec<u8>, export: &Export) {
    let name = export.name.text(alloc).expect(rt, "memory");
    put(rt, out, name.as_slice());
    let count = export.items.items.len();
    let text = format!(in alloc; " with {count} items").expect(rt, "memory");
    put(rt, out, text.as_bytes());
    if !export.dependencies.is_empty() {
        put(rt, out, b" and dependencies");
    }
}

/// A line for the notation.
fn put_notation(rt: &impl Abort, alloc: Global, out: &mut Vec<u8>, n: &Notation) {
    let text = match &n.meaning {
        Meaning::OfTerm(t) => term_text(alloc, t),
        Meaning::OfLiteral(l) => literal_text(alloc, l),
        Meaning::OfType(ty) => type_text(alloc, ty),
    };
    let text = text.expect(rt, "memory");
    put(rt, out, b"\nspells ");
    put(rt, out, n.pattern.symbol.as_slice());
    put(rt, out, b" ");
    put(rt, out, text.as_slice());
}

/// The lines of the export.
fn put_export(rt: &impl Abort, alloc: Global, out: &mut Vec<u8>, export: &Export) {
    put_head(rt, alloc, out, export);
    for n in &export.notations.items {
        put_notation(rt, alloc, out, n);
    }
    for item in &export.items.items {
        put_granted(rt, alloc, out, item);
    }
    put(rt, out, b"\n");
}

#[test]
fn the_built_in_articles(rt: HostRuntime) {
    let exports = built_in(rt.alloc()).expect(&rt, "memory");
    let mut found = Vec::new(rt.alloc());
    for export in exports.as_slice() {
        if !found.is_empty() {
            put(&rt, &mut found, b"\n");
        }
        put_export(&rt, rt.alloc(), &mut found, export);
    }
    forget(exports);
    assert!(rt; found.as_slice() == BUILT_IN.as_bytes());
}

/// Another export stands at its place in the order of names.
#[test]
fn an_export_at_its_place(rt: HostRuntime) {
    let mut exports = built_in(rt.alloc()).expect(&rt, "memory");
    assert!(rt; exports.len() == 3);
    let export = Export {
        name: Name::read(b"M").expect(&rt, "a name"),
        dependencies: Names::new(rt.alloc()),
        items: Items::new(rt.alloc()),
        notations: Notations::new(rt.alloc()),
    };
    exports.insert(Arc::new(rt.alloc(), export).expect(&rt, "memory"));
    let mut found = Vec::new(rt.alloc());
    for export in exports.as_slice() {
        put_head(&rt, rt.alloc(), &mut found, export);
        put(&rt, &mut found, b"; ");
    }
    forget(exports);
    let wanted =
        b"HIDDEN with 5 items; M with 0 items; TARSKI_0 with 6 items; TARSKI_A with 1 items; ";
    assert!(rt; found.as_slice() == wanted.as_slice());
}
