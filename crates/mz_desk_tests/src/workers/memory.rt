//! Workers that meet want of memory.
use crate::desk::corpora::{diamond, name_of};
use crate::desk::plain::Plain;
use crate::workers::scripted::Scripted;
use crate::workers::shared::{by_two, is_accepted, one_over};
use mz_base::numbers::Numbers;
use mz_desk::claim::Claim;
use mz_desk::desk::Desk;
use mz_io::gate::OpenGate;
use mz_workers::faulty::Faulty;
use mz_workers::run_all::run_all;
use std::alloc::Global;
use std::marker::Brand;

/// One worker of two stops, or both do, and the caller finishes; where its own check fails too, it says so.
#[test]
fn want_of_memory_in_workers(rt: HostRuntime) {
    let alloc: Global = rt.alloc();
    for failing in [1, 2] {
        let checker = Scripted::failing(name_of(&rt, "DA"), failing);
        let corpus = diamond(&rt, alloc, "b");
        let desk = run_all(&rt, alloc, corpus, &checker, &OpenGate, 2).expect(&rt, "memory");
        assert!(&rt; is_accepted(&rt, &desk));
        assert!(&rt; checker.count() == 4 + failing);
    }
    let checker = Scripted::failing(name_of(&rt, "DA"), 3);
    let corpus = diamond(&rt, alloc, "b");
    assert!(&rt; run_all(&rt, alloc, corpus, &checker, &OpenGate, 2).is_err());
}

/// Whichever check meets want of memory, the other worker goes on, and every row is settled as without it.
#[test]
fn want_of_memory_at_any_check(rt: HostRuntime) {
    let alloc: Global = rt.alloc();
    for failing in [1, 2, 3, 4] {
        let fail = Numbers::from_slice(alloc, &[failing]).expect(&rt, "memory");
        let checker = Faulty::new(Plain, fail);
        let corpus = diamond(&rt, alloc, "b");
        let desk = run_all(&rt, alloc, corpus, &checker, &OpenGate, 2).expect(&rt, "memory");
        assert!(&rt; is_accepted(&rt, &desk));
    }
}

#[test]
fn want_of_memory_frees_the_claim(rt: HostRuntime) {
    let alloc: Global = rt.alloc();
    let checker = Scripted::failing(name_of(&rt, "DA"), 1);
    let corpus = diamond(&rt, alloc, "b");
    let desk: Desk<Scripted> = Desk::open(alloc, corpus).expect(&rt, "memory");
    let (mut desk, stopped) = one_over::<Brand, _, _>(&rt, alloc, desk, &checker, &OpenGate);
    assert!(&rt; stopped);
    assert!(&rt; matches!(desk.claim(alloc, 1).expect(&rt, "memory"), Claim::Take(_)));
}

/// While one worker checks the only ready row the other waits at the condition variable; the first one stops, and the other
/// goes on.
#[test]
fn want_of_memory_wakes_the_other(rt: HostRuntime) {
    let alloc: Global = rt.alloc();
    let checker = Scripted::failing(name_of(&rt, "DA"), 1);
    let (desk, stopped) = by_two(&rt, alloc, &checker, &OpenGate);
    assert!(&rt; stopped == 1);
    assert!(&rt; is_accepted(&rt, &desk));
    assert!(&rt; checker.count() == 5);
}

/// The check of DB waits until the other worker, whose check of DC failed, has taken all claims away. So the result of
/// DB is refused, and the worker checks both.
#[test]
fn a_claim_taken_away_while_it_is_checked(rt: HostRuntime) {
    let alloc: Global = rt.alloc();
    let mut checker = Scripted::failing(name_of(&rt, "DC"), 1);
    checker.waits = Some(name_of(&rt, "DB"));
    let (desk, stopped) = by_two(&rt, alloc, &checker, &OpenGate);
    assert!(&rt; stopped == 1);
    assert!(&rt; checker.event.was_in_time());
    assert!(&rt; is_accepted(&rt, &desk));
    assert!(&rt; checker.count() == 6);
}
