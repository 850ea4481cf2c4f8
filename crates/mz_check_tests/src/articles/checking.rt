//! Articles, and what their check gives.
use mz_article::check::check_article;
use mz_axioms::built_in::built_in;
use mz_axioms::exports::Exports;
use mz_base::name::Name;
use mz_base::vocabularies::Vocabularies;
use mz_core::fault::{Fault, Faults};
use mz_core::outcome::{Export, Outcome};
use mz_defs::defining::Defining;
use mz_parser_samples::texts;
use mz_regs::registering::Registering;
use mz_structs::structuring::Structuring;
use std::alloc::Global;
use std::mem::forget;
use std::process::Abort;
use std::thread::Threads;

/// An article, and `accepted` with the number of its items; or its faults: line, column, number of the code, and the number
/// that comes with it.
pub type Row = (&'static str, &'static str);

/// The built-in exports.
pub fn exports(rt: &impl Abort, alloc: Global) -> Exports {
    built_in(alloc).expect(rt, "memory")
}

/// No vocabularies.
pub fn no_vocabularies(alloc: Global) -> Vocabularies {
    Vocabularies {
        items: Vec::new(alloc),
    }
}

/// The vocabulary of this name alone.
pub fn vocabulary(rt: &impl Abort, alloc: Global, name: &[u8], text: &[u8]) -> Vocabularies {
    texts::vocabulary(alloc, name, text).expect(rt, "a vocabulary")
}

/// The outcome of the article of this name.
pub fn outcome_named(
    rt: &(impl Abort + Threads + Sync),
    alloc: Global,
    name: &[u8],
    exports: &Exports,
    vocabularies: &Vocabularies,
    text: &[u8],
) -> Outcome {
    let name = Name::read(name).expect(rt, "a name");
    check_article::<Defining, Registering, Structuring>(
        rt,
        alloc,
        name,
        vocabularies,
        exports,
        text,
    ).expect(rt, "memory")
}

/// The outcome of the article `A`.
pub fn outcome_of(
    rt: &(impl Abort + Threads + Sync),
    alloc: Global,
    exports: &Exports,
    vocabularies: &Vocabularies,
    text: &[u8],
) -> Outcome {
    outcome_named(rt, alloc, b"A", exports, vocabularies, text)
}

fn push_text(rt: &impl Abort, out: &mut Vec<u8>, text: &str) {
    out.extend_from_slice(text.as_bytes()).expect(rt, "memory");
}

fn push_fault(rt: &impl Abort, alloc: Global, out: &mut Vec<u8>, fault: Fault) {
    let line = fault.place.line;
    let column = fault.place.column;
    let code = fault.code.code();
    let text = format!(in alloc; "{line}:{column} {code}").expect(rt, "memory");
    push_text(rt, out, text.as_str());
    if let Some(number) = fault.number {
        let text = format!(in alloc; " {number}").expect(rt, "memory");
        push_text(rt, out, text.as_str());
    }
}

fn accepted_text(rt: &impl Abort, alloc: Global, export: Export) -> Vec<u8> {
    let count = export.items.items.len();
    forget(export);
    let text = format!(in alloc; "accepted {count}").expect(rt, "memory");
    text.into_bytes()
}

fn faults_text(rt: &impl Abort, alloc: Global, faults: &Faults) -> Vec<u8> {
    let mut out = Vec::new(alloc);
    for fault in &faults.items {
        if !out.is_empty() {
            push_text(rt, &mut out, "; ");
        }
        push_fault(rt, alloc, &mut out, *fault);
    }
    out
}

/// `accepted` with the number of its items; or its faults, `; ` between them.
fn outcome_text(rt: &impl Abort, alloc: Global, outcome: Outcome) -> Vec<u8> {
    match outcome {
        Outcome::Accepted(export) => accepted_text(rt, alloc, export),
        Outcome::Rejected(faults) => faults_text(rt, alloc, &faults),
    }
}

/// Checks what an article gives.
pub fn check(
    rt: &(impl Abort + Threads + Sync),
    alloc: Global,
    exports: &Exports,
    vocabularies: &Vocabularies,
    text: &[u8],
    wanted: &str,
) {
    let outcome = outcome_of(rt, alloc, exports, vocabularies, text);
    let found = outcome_text(rt, alloc, outcome);
    let same = found.as_slice() == wanted.as_bytes();
    forget(found);
    assert!(rt; same, "{wanted}");
}

/// Checks rows.
pub fn check_rows(
    rt: &(impl Abort + Threads + Sync),
    alloc: Global,
    exports: &Exports,
    vocabularies: &Vocabularies,
    rows: &[Row],
) {
    for (text, wanted) in rows {
        check(rt, alloc, exports, vocabularies, text.as_bytes(), wanted);
    }
}

/// Checks rows over the built-in exports, without a vocabulary.
pub fn check_all(rt: &(impl Abort + Threads + Sync), alloc: Global, rows: &[Row]) {
    let exports = exports(rt, alloc);
    let none = no_vocabularies(alloc);
    check_rows(rt, alloc, &exports, &none, rows);
    forget(none);
    forget(exports);
}
