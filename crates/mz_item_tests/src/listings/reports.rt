//! Reports on a few articles.
use mz_base::name::Name;
use mz_base::names::Names;
use mz_base::place::Place;
use mz_base::rule_code::RuleCode;
use mz_core::fault::{Fault, Faults};
use mz_core::verdict::{Counts, Entry, Verdict, Verdicts};
use mz_corpus::ordering::Ordering;
use mz_report::report::report;
use std::alloc::Global;
use std::process::Abort;

fn named<R: Abort>(rt: &R, word: &str) -> Name {
    Name::read(word.as_bytes()).expect(rt, "a name")
}

fn names<R: Abort>(rt: &R, alloc: Global, words: &[&str]) -> Names {
    let mut names = Names::new(alloc);
    for word in words {
        names.push(named(rt, word)).expect(rt, "memory");
    }
    names
}

fn entry(alloc: Global, name: Name, verdict: Verdict) -> Entry {
    let counts = Counts {
        theorems: 0,
        definitions: 0,
        registrations: 0,
        schemes: 0,
    };
    let faults = Faults::new(alloc);
    Entry {
        name,
        verdict: Some(verdict),
        counts,
        faults,
    }
}

#[test]
fn reports_cyclic_and_blocked_articles(rt: HostRuntime) {
    let a = named(&rt, "A");
    let mut items = Vec::new(rt.alloc());
    for (name, verdict) in [
        ("A", Verdict::Cyclic),
        ("B", Verdict::Cyclic),
        ("C", Verdict::Blocked(a)),
        ("D", Verdict::Accepted),
    ] {
        let entry = entry(rt.alloc(), named(&rt, name), verdict);
        items.push(entry).expect(&rt, "memory");
    }
    let order = names(&rt, rt.alloc(), &["D"]);
    let rest = names(&rt, rt.alloc(), &["A", "B", "C"]);
    let text = report(rt.alloc(), &Ordering { order, rest }, &Verdicts { items }).expect(
        &rt, "memory",
    );
    assert!(rt;
        text.as_slice()
            == b"D accepted 0 theorems, 0 definitions, 0 registrations, 0 schemes\nA cyclic\nB cyclic\nC blocked by A\ntotal 1 accepted, 0 rejected, 1 blocked, 2 cyclic, 0 missing\n".as_slice()
    );
}

#[test]
fn reports_faults(rt: HostRuntime) {
    let a = named(&rt, "A14");
    let mut rejected = entry(rt.alloc(), a, Verdict::Rejected);
    for (line, column) in [(2, 41), (3, 42)] {
        let fault = Fault {
            place: Place { line, column },
            code: RuleCode::Open,
            number: Some(1),
        };
        rejected.faults.push(fault).expect(&rt, "memory");
    }
    let mut items = Vec::new(rt.alloc());
    let blocked = entry(rt.alloc(), named(&rt, "B14"), Verdict::Blocked(a));
    items.push(blocked).expect(&rt, "memory");
    items.push(rejected).expect(&rt, "memory");
    let order = names(&rt, rt.alloc(), &["A14", "B14"]);
    let rest = Names::new(rt.alloc());
    let text = report(rt.alloc(), &Ordering { order, rest }, &Verdicts { items }).expect(
        &rt, "memory",
    );
    assert!(rt;
        text.as_slice()
            == b"A14 rejected 2 faults\n  2:41 61 open 1\n  3:42 61 open 1\nB14 blocked by A14\ntotal 0 accepted, 1 rejected, 1 blocked, 0 cyclic, 0 missing\n".as_slice()
    );
}

/// An accepted article with all counts, a rejected one whose fault has no number, and a missing one.
#[test]
fn reports_counts_and_missing_articles(rt: HostRuntime) {
    let mut accepted = entry(rt.alloc(), named(&rt, "SUBV"), Verdict::Accepted);
    accepted.counts = Counts {
        theorems: 2,
        definitions: 1,
        registrations: 4,
        schemes: 3,
    };
    let mut rejected = entry(rt.alloc(), named(&rt, "X16"), Verdict::Rejected);
    let fault = Fault {
        place: Place {
            line: 1,
            column: 65,
        },
        code: RuleCode::EndsEarly,
        number: Some(7),
    };
    rejected.faults.push(fault).expect(&rt, "memory");
    let mut items = Vec::new(rt.alloc());
    let missing = entry(rt.alloc(), named(&rt, "NOFILE"), Verdict::Missing);
    items.push(rejected).expect(&rt, "memory");
    items.push(missing).expect(&rt, "memory");
    items.push(accepted).expect(&rt, "memory");
    let order = names(&rt, rt.alloc(), &["NOFILE", "SUBV", "X16"]);
    let rest = Names::new(rt.alloc());
    let text = report(rt.alloc(), &Ordering { order, rest }, &Verdicts { items }).expect(
        &rt, "memory",
    );
    assert!(rt;
        text.as_slice()
            == b"NOFILE missing\nSUBV accepted 2 theorems, 1 definitions, 4 registrations, 3 schemes\nX16 rejected 1 faults\n  1:65 16 ends early\ntotal 1 accepted, 1 rejected, 0 blocked, 0 cyclic, 1 missing\n".as_slice()
    );
}
