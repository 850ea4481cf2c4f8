//! Verdicts on schemes, and the faults that they are told as.
use mz_base::place::Place;
use mz_base::rule_code::RuleCode;
use mz_core::fault::Fault;
use mz_ground::clauses::Clauses;
use mz_judged::judge::judge;
use mz_obligations::obligation::{Duty, Extent, Obligation, SchemeVerdict};
use std::alloc::Global;
use std::mem::forget;
use std::process::Abort;

/// An obligation with the verdict, at 3:7.
fn obligation(alloc: Global, verdict: SchemeVerdict) -> Obligation {
    Obligation {
        place: Place { line: 3, column: 7 },
        extent: Extent {
            clauses: 0,
            unfoldings: 0,
            theorems: 0,
            schemes: 0,
        },
        letters: Clauses::new(alloc),
        duty: Duty::From(verdict),
    }
}

/// The code and its number, of the fault at 3:7.
fn is_told(fault: Option<Fault>, wanted: Option<(u64, Option<u64>)>) -> bool {
    match (fault, wanted) {
        (None, None) => true,
        (Some(f), Some((code, number))) => {
            f.place == Place { line: 3, column: 7 } && f.code.code() == code && f.number == number
        }
        _ => false,
    }
}

const VERDICTS: [(SchemeVerdict, Option<(u64, Option<u64>)>); 4] = [
    (SchemeVerdict::Fits, None),
    (SchemeVerdict::NoFit, Some((66, None))),
    (SchemeVerdict::PremiseCount(3), Some((67, Some(3)))),
    (SchemeVerdict::PremiseNoFit(2), Some((68, Some(2)))),
];

#[test]
fn verdicts_on_schemes(rt: HostRuntime) {
    let alloc = rt.alloc();
    let clauses = Clauses::new(alloc);
    for row in &VERDICTS {
        let o = obligation(alloc, row.0);
        let fault = judge(alloc, &clauses, &o).expect(&rt, "memory");
        forget(o);
        assert!(rt; is_told(fault, row.1));
    }
    forget(clauses);
}
