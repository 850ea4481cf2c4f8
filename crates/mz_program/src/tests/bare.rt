//! Desks over texts of articles, without words and report.
use crate::checker::ProgramChecker;
use crate::tests::libraries::{DIAMOND, FIRST};
use crate::tests::shared::{ample_row, shelf_of};
use crate::tests::threads::{Event, Hold};
use mz_base::name::Name;
use mz_base::names::Names;
use mz_base::status::Status;
use mz_corpus::gather::gather;
use mz_desk::claim::Claim;
use mz_desk::desk::Desk;
use mz_desk::job::{Done, Why};
use mz_desk::look::Look;
use mz_rows::standing::RowState;
use mz_workers::run_all::run_workers;
use std::alloc::Global;
use std::marker::Brand;
use std::mem::forget;
use std::process::Abort;
use std::sync::{Arc, Wait};
use std::thread::Threads;

/// DA, with another theorem.
const OTHER: &[(&str, &str)] = &[(
    "da",
    "environ begin theorem for x,y being object holds x = x;",
)];

/// DA alone.
const ALONE: &[(&str, &str)] = &[("da", FIRST)];

/// As the diamond, but that DB has another theorem.
const OTHER_DIAMOND: &[(&str, &str)] = &[
    ("da", FIRST),
    (
        "db",
        "environ theorems DA; begin theorem for x,y being object holds x = x;",
    ),
    (
        "dc",
        "environ theorems DA; begin theorem for x being object holds x = x by DA:1;",
    ),
    (
        "dd",
        "environ theorems DB, DC; begin theorem for x being object holds x = x by DB:1, DC:1;",
    ),
];

fn name_of(rt: &impl Abort, word: &str) -> Name {
    Name::read(word.as_bytes()).expect(rt, "a name")
}

/// A desk over the article and all on which it depends.
fn desk_over(
    rt: &impl Abort,
    alloc: Global,
    articles: &'static [(&'static str, &'static str)],
    word: &str,
) -> Desk<ProgramChecker> {
    let row = ample_row(&[], articles, "", Status::Accepted);
    let mut shelf = shelf_of(rt, alloc, &row);
    let mut names = Names::new(alloc);
    names.push(name_of(rt, word)).expect(rt, "memory");
    let corpus = gather(alloc, &mut shelf, &names).expect(rt, "a corpus");
    forget(shelf);
    let corpus = Arc::new(alloc, corpus).expect(rt, "memory");
    Desk::open(alloc, corpus).expect(rt, "memory")
}

/// The worker claims a row and checks it.
fn result_by<R: Abort + Threads + Wait + Sync>(
    rt: &R,
    alloc: Global,
    desk: &mut Desk<ProgramChecker>,
    worker: u32,
) -> Done<ProgramChecker> {
    let job = match desk.claim(alloc, worker).expect(rt, "memory") {
        Claim::Take(job) => job,
        _ => panic!(rt; "no ready row"),
    };
    match job.check(rt, alloc, &ProgramChecker::new()) {
        Ok(done) => done,
        Err(_) => panic!(rt; "memory"),
    }
}

/// A worker publishes so many rows.
fn publish_rows<R: Abort + Threads + Wait + Sync>(
    rt: &R,
    alloc: Global,
    desk: &mut Desk<ProgramChecker>,
    count: u32,
) {
    for _ in 0..count {
        let done = result_by(rt, alloc, desk, 0);
        assert!(rt; desk.publish(done).is_ok());
    }
}

/// Why the desk refuses the result, or none where it takes it.
fn refusal(desk: &mut Desk<ProgramChecker>, done: Done<ProgramChecker>) -> Option<Why> {
    match desk.publish(done) {
        Ok(()) => None,
        Err(strayed) => {
            let why = strayed.why;
            forget(strayed);
            Some(why)
        }
    }
}

/// Two workers, one of which is held until the other has claimed.
#[test]
fn a_gate_over_a_bare_desk(rt: HostRuntime) {
    let alloc: Global = rt.alloc();
    let gate = Hold {
        entered: Event::new(),
    };
    let desk = desk_over(&rt, alloc, DIAMOND, "DD");
    let checker = ProgramChecker::new();
    let desk = run_workers::<ProgramChecker, Brand, _, _>(&rt, alloc, desk, &checker, &gate, 2);
    assert!(&rt; gate.entered.was_in_time());
    for word in ["DA", "DB", "DC", "DD"] {
        assert!(&rt; matches!(desk.look(&name_of(&rt, word)), Look::Accepted(_)));
    }
    forget(desk);
}

/// A result over another text, and one of another worker, are refused, and the row's own is taken.
#[test]
fn results_of_one_article(rt: HostRuntime) {
    let alloc: Global = rt.alloc();
    let mut desk = desk_over(&rt, alloc, ALONE, "DA");
    let mut other = desk_over(&rt, alloc, OTHER, "DA");
    let name = name_of(&rt, "DA");
    assert!(&rt; matches!(desk.look(&name), Look::NotYet));
    assert!(&rt; matches!(desk.look(&name_of(&rt, "DB")), Look::Unknown));
    let done = result_by(&rt, alloc, &mut desk, 0);
    let claim = desk.claim(alloc, 1).expect(&rt, "memory");
    assert!(&rt; matches!(claim, Claim::NotYet { claimed: 0 }));
    forget(claim);
    let strange = result_by(&rt, alloc, &mut other, 0);
    assert!(&rt; refusal(&mut desk, strange) == Some(Why::Text));
    other.reclaim();
    let strange = result_by(&rt, alloc, &mut other, 1);
    let claimed = Why::NotClaimed(Some(RowState::Claimed(0)));
    assert!(&rt; refusal(&mut desk, strange) == Some(claimed));
    assert!(&rt; matches!(desk.look(&name), Look::NotYet));
    assert!(&rt; refusal(&mut desk, done).is_none());
    assert!(&rt; matches!(desk.look(&name), Look::Accepted(_)));
    let claim = desk.claim(alloc, 0).expect(&rt, "memory");
    assert!(&rt; matches!(claim, Claim::Finished));
    forget(claim);
    forget(desk);
    forget(other);
}

/// A result from another export of DB is refused.
#[test]
fn a_result_from_another_export(rt: HostRuntime) {
    let alloc: Global = rt.alloc();
    let mut desk = desk_over(&rt, alloc, DIAMOND, "DD");
    let mut other = desk_over(&rt, alloc, OTHER_DIAMOND, "DD");
    publish_rows(&rt, alloc, &mut desk, 3);
    publish_rows(&rt, alloc, &mut other, 3);
    let done = result_by(&rt, alloc, &mut desk, 0);
    let strange = result_by(&rt, alloc, &mut other, 0);
    let name = name_of(&rt, "DB");
    assert!(&rt; refusal(&mut desk, strange) == Some(Why::Export { name }));
    assert!(&rt; refusal(&mut desk, done).is_none());
    forget(desk);
    forget(other);
}
