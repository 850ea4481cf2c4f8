//! Articles, and how many faults the checker finds in them.
use mz_axioms::built_in::built_in;
use mz_axioms::checker::Checker;
use mz_base::name::Name;
use mz_base::vocabularies::Vocabularies;
use mz_checker::article_checker::ArticleChecker;
use mz_core::outcome::Outcome;
use mz_defs::defining::Defining;
use mz_regs::registering::Registering;
use mz_structs::structuring::Structuring;
use std::alloc::Global;
use std::mem::forget;
use std::process::Abort;
use std::sync::Wait;
use std::thread::Threads;

/// How many faults the checker finds in the text; none where it accepts it.
fn faults_found<R: Abort + Threads + Wait + Sync, C: Checker>(
    rt: &R,
    alloc: Global,
    checker: &C,
    text: &[u8],
) -> usize {
    let name = Name::read(b"A").expect(rt, "a name");
    let none = Vocabularies {
        items: Vec::new(alloc),
    };
    let exports = built_in(alloc).expect(rt, "memory");
    let outcome = checker
        .check(rt, alloc, name, &none, &exports, text)
        .expect(rt, "memory");
    forget(exports);
    forget(none);
    match outcome {
        Outcome::Accepted(export) => {
            forget(export);
            0
        }
        Outcome::Rejected(faults) => faults.items.len(),
    }
}

const ROWS: [(&[u8], usize); 3] = [
    (b"environ begin theorem for x being object holds x = x;", 0),
    (
        b"environ begin\ntheorem for x,y being object holds x = y;\ntheorem for x,y being object holds x in y;",
        2,
    ),
    (
        b"environ theorems TARSKI_0; begin theorem for x being object holds x is set by TARSKI_0:1;",
        0,
    ),
];

#[test]
fn articles_are_checked(rt: HostRuntime) {
    let checker = ArticleChecker::<Defining, Registering, Structuring>::new();
    for (text, faults) in &ROWS {
        let found = faults_found(&rt, rt.alloc(), &checker, text);
        assert!(rt; found == *faults);
    }
}
