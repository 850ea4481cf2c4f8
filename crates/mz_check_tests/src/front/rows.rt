//! Texts, and the one fault that each has in front of its items, worked out from the rules.
use crate::front::texts::{READ, Told, exports, told};
use std::mem::forget;

/// Texts, with no vocabulary there.
const HEADS: [(&[u8], Told); 10] = [
    (b"environ begin", READ),
    (b"", (1, 1, 16, 0)),
    (b"environ theorems A;", (1, 20, 16, 0)),
    (b"environ theorems; begin", (1, 17, 14, 0)),
    (b"foo \x01", (1, 5, 11, 0)),
    (b"foo \x01 begin", (1, 5, 11, 0)),
    (b"foo begin \x01", (1, 1, 14, 0)),
    (b"environ ::$C1\nbegin", (1, 9, 12, 0)),
    (b"environ equalities A; begin", (1, 9, 30, 0)),
    (b"environ theorems equalities; begin", (1, 18, 14, 0)),
];

const STAGES: [(&[u8], Told); 14] = [
    (b"environ vocabularies V; begin", (1, 22, 21, 0)),
    (b"environ vocabularies V; begin \x01", (1, 22, 21, 0)),
    (
        b"environ theorems FOO; vocabularies V; begin",
        (1, 36, 21, 0),
    ),
    (
        b"environ vocabularies V; equalities A; begin",
        (1, 25, 30, 0),
    ),
    (b"environ begin ; \x01", (1, 17, 11, 0)),
    (b"environ begin ;\n ::$CT", (2, 2, 12, 0)),
    (b"environ begin ; ::$D", (1, 15, 14, 0)),
    (b"environ theorems FOO; begin \x01", (1, 29, 11, 0)),
    (b"environ theorems FOO; begin ;", (1, 29, 14, 0)),
    (b"environ begin theorem", (1, 22, 16, 0)),
    (b"environ theorems FOO; begin", (1, 18, 29, 0)),
    (b"environ requirements BOOLE; begin", (1, 22, 28, 0)),
    (b"environ requirements HIDDEN; begin", READ),
    (b"environ theorems TARSKI_0; begin", READ),
];

/// Texts, and the text of the vocabulary V.
const SYMBOLS: [(&[u8], &[u8], Told); 8] = [
    (b"environ vocabularies V; begin \x01", b"Rx", (1, 31, 11, 0)),
    (b"environ vocabularies V; begin", b"Rx\nX y", (1, 22, 22, 2)),
    (b"environ vocabularies V; begin", b"O* x", (1, 22, 23, 1)),
    (
        b"environ vocabularies V; begin",
        b"Rx\nRy\nOx",
        (1, 22, 24, 3),
    ),
    (
        b"environ vocabularies V, W; begin",
        b"Rx\n\nR=",
        (1, 22, 22, 3),
    ),
    (b"environ vocabularies V, W; begin", b"Rx", (1, 25, 21, 0)),
    (b"environ vocabularies HIDDEN; begin", b"Rx\nRx", READ),
    (
        b"environ vocabularies V; begin theorem for Xc,Y being object st Xc=Y holds Y = Xc;",
        b"Rc=",
        READ,
    ),
];

/// Texts, and the texts of the vocabularies V and W.
const TWO_VOCABULARIES: [(&[u8], &[u8], &[u8], Told); 4] = [
    (
        b"environ vocabularies V, W; begin",
        b"Rx",
        b"Ox",
        (1, 25, 25, 0),
    ),
    (b"environ vocabularies V, W; begin", b"Ox 3", b"Ox 4", READ),
    (
        b"environ vocabularies W, V; begin",
        b"Rx\nRx",
        b"O* 256",
        (1, 22, 23, 1),
    ),
    (
        b"environ vocabularies V, TARSKI_0, W; begin",
        b"Rx",
        b"Ox",
        (1, 25, 21, 0),
    ),
];

const LET_IN: [(&[u8], Told); 9] = [
    (b"environ notations P; begin", (1, 19, 27, 2)),
    (b"environ notations P; begin ;", (1, 28, 14, 0)),
    (b"environ notations P; constructors P; begin", READ),
    (b"environ theorems P; begin", READ),
    (b"environ notations P, FOO; begin", (1, 19, 27, 2)),
    (b"environ notations FOO, P; begin", (1, 19, 29, 0)),
    (
        b"environ requirements ARITHM; notations P; begin",
        (1, 22, 28, 0),
    ),
    (
        b"environ constructors TARSKI_0; notations P; requirements ARITHM; begin",
        (1, 42, 27, 2),
    ),
    (
        b"environ constructors TARSKI_0; notations HIDDEN; begin",
        READ,
    ),
];

#[test]
fn faults_of_environment_parts(rt: HostRuntime) {
    let exports = exports(&rt, rt.alloc());
    for (text, wanted) in &HEADS {
        let fault = told(&rt, rt.alloc(), &exports, text, None, None);
        assert!(rt; fault == *wanted, "at {:?}", text);
    }
    forget(exports);
}

#[test]
fn stages_in_their_order(rt: HostRuntime) {
    let exports = exports(&rt, rt.alloc());
    for (text, wanted) in &STAGES {
        let fault = told(&rt, rt.alloc(), &exports, text, None, None);
        assert!(rt; fault == *wanted, "at {:?}", text);
    }
    forget(exports);
}

#[test]
fn faults_of_a_vocabulary(rt: HostRuntime) {
    let exports = exports(&rt, rt.alloc());
    for (text, v, wanted) in &SYMBOLS {
        let fault = told(&rt, rt.alloc(), &exports, text, Some(*v), None);
        assert!(rt; fault == *wanted, "at {:?}", text);
    }
    forget(exports);
}

#[test]
fn faults_of_two_vocabularies(rt: HostRuntime) {
    let exports = exports(&rt, rt.alloc());
    for (text, v, w, wanted) in &TWO_VOCABULARIES {
        let fault = told(&rt, rt.alloc(), &exports, text, Some(*v), Some(*w));
        assert!(rt; fault == *wanted, "at {:?}", text);
    }
    forget(exports);
}

#[test]
fn faults_of_what_is_let_in(rt: HostRuntime) {
    let exports = exports(&rt, rt.alloc());
    for (text, wanted) in &LET_IN {
        let fault = told(&rt, rt.alloc(), &exports, text, None, None);
        assert!(rt; fault == *wanted, "at {:?}", text);
    }
    forget(exports);
}
