//! Articles that are cut after each of their bytes: each part has an outcome, and its faults lie in it or just after its end.
use crate::articles::checking::{check, exports, no_vocabularies, outcome_of, vocabulary};
use mz_axioms::exports::Exports;
use mz_base::vocabularies::Vocabularies;
use mz_core::fault::Fault;
use mz_core::outcome::Outcome;
use mz_parser_samples::places::stands_in;
use std::alloc::Global;
use std::mem::forget;
use std::process::Abort;
use std::thread::Threads;

/// So many bytes of a text are an article by the grammar, and this is its outcome.
type Part = (usize, &'static str);

/// Subsets: a predicate with its reflexivity, that it is transitive and antisymmetric.
const SUBSETS: &[u8] =
    b"environ vocabularies SUBV; theorems TARSKI_0;\nbegin\nreserve X,Y,Z for set;\ndefinition let X,Y be set;\n pred X c= Y means :Def1: for x being object st x in X holds x in Y;\n reflexivity;\nend;\ntheorem X c= Y & Y c= Z implies X c= Z\nproof assume A1: X c= Y & Y c= Z;\n let x be object; assume x in X;\n then x in Y by A1,Def1;\n hence x in Z by A1,Def1;\nend;\ntheorem X c= Y & Y c= X implies X = Y\nproof assume A1: X c= Y & Y c= X;\n then for x being object holds x in X iff x in Y by Def1;\n hence X = Y by TARSKI_0:2;\nend;\n";

/// Up to `begin`, the `;` of `reserve`, the `end;` of the definition and those of the theorems, without and with the line end.
const PARTS_OF_SUBSETS: [Part; 10] = [
    (51, "accepted 0"),
    (52, "accepted 0"),
    (74, "accepted 0"),
    (75, "accepted 0"),
    (189, "accepted 2"),
    (190, "accepted 2"),
    (351, "accepted 3"),
    (352, "accepted 3"),
    (514, "accepted 4"),
    (515, "accepted 4"),
];

/// Reserved variables, steps that are open, cases, citations, and a variable that isn't known.
const STEPS: &[u8] =
    b"environ theorems TARSKI_0;\nbegin\nreserve x,y for object;\nnow let x; assume x = x; thus x in x; end;\ntheorem x = y implies y = x\nproof assume A: x = y; per cases;\nsuppose x = x; thus y = x by A; end;\nsuppose x = y; hence thesis; end;\nend;\ntheorem x in y by A:1,TARSKI_0:1;\ntheorem z = z;\n";

/// Up to `begin` and the `;` of each item, without and with the line end.
const PARTS_OF_STEPS: [Part; 12] = [
    (32, "accepted 0"),
    (33, "accepted 0"),
    (56, "accepted 0"),
    (57, "accepted 0"),
    (99, "4:37 61 1"),
    (100, "4:37 61 1"),
    (237, "4:37 61 1"),
    (238, "4:37 61 1"),
    (271, "4:37 61 1; 10:16 61 1"),
    (272, "4:37 61 1; 10:16 61 1"),
    (286, "11:9 33"),
    (287, "11:9 33"),
];

/// The only fault of a rejected article.
fn only_fault(rt: &impl Abort, outcome: Outcome) -> Option<Fault> {
    match outcome {
        Outcome::Accepted(export) => {
            forget(export);
            None
        }
        Outcome::Rejected(faults) => {
            assert!(rt; faults.items.len() == 1);
            Some(faults.items[0])
        }
    }
}

/// The outcome of a part that is an article by the grammar.
fn wanted_of(parts: &[Part], len: usize) -> Option<&'static str> {
    for (at, wanted) in parts {
        if *at == len {
            return Some(*wanted);
        }
    }
    None
}

/// A part that is no article by the grammar has the one fault of that: a token that isn't expected, or the end of the text.
fn check_broken(
    rt: &(impl Abort + Threads + Sync),
    alloc: Global,
    exports: &Exports,
    vocabularies: &Vocabularies,
    text: &[u8],
) {
    match only_fault(rt, outcome_of(rt, alloc, exports, vocabularies, text)) {
        Some(fault) => {
            let code = fault.code.code();
            assert!(rt; code == 14 || code == 16);
            assert!(rt; stands_in(text, fault.place));
        }
        None => rt.abort(),
    }
}

/// Checks each part of the text.
fn check_parts(
    rt: &(impl Abort + Threads + Sync),
    alloc: Global,
    vocabularies: &Vocabularies,
    text: &[u8],
    parts: &[Part],
) {
    let exports = exports(rt, alloc);
    for len in 0..=text.len() {
        let part = &text[..len];
        match wanted_of(parts, len) {
            Some(wanted) => check(rt, alloc, &exports, vocabularies, part, wanted),
            None => check_broken(rt, alloc, &exports, vocabularies, part),
        }
    }
    forget(exports);
}

#[test]
fn each_part_of_an_article_with_a_definition(rt: HostRuntime) {
    let all = vocabulary(&rt, rt.alloc(), b"SUBV", b"Rc=");
    check_parts(&rt, rt.alloc(), &all, SUBSETS, &PARTS_OF_SUBSETS);
    forget(all);
}

#[test]
fn each_part_of_an_article_with_proofs(rt: HostRuntime) {
    let none = no_vocabularies(rt.alloc());
    check_parts(&rt, rt.alloc(), &none, STEPS, &PARTS_OF_STEPS);
    forget(none);
}
