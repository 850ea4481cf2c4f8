//! Workers on several threads. What one article's check waits for, another worker has to bring about.
ghost use Rattle.std.specs.Prelude.{◌≤◌};

use crate::desk::corpora::{diamond, name_of};
use crate::desk::plain::Plain;
use crate::workers::events::Hold;
use crate::workers::scripted::Scripted;
use crate::workers::shared::{LIBRARY, by_two, has_library, has_verdicts, is_accepted, is_same};
use mz_desk::desk::Desk;
use mz_io::gate::OpenGate;
use mz_workers::run_all::run_all;
use std::alloc::Global;
use std::process::Abort;
use std::sync::Wait;
use std::thread::Threads;

/// The desk that this many workers leave.
fn desk_by<R: Abort + Threads + Wait + Sync>(
    rt: &R,
    alloc: Global,
    text_of_db: &str,
    workers: u32,
) -> Desk<Plain>
    requires { (1 ≤ workers) × (workers ≤ 16) }
{
    let corpus = diamond(rt, alloc, text_of_db);
    run_all(rt, alloc, corpus, &Plain, &OpenGate, workers).expect(rt, "memory")
}

/// The text of DB, the verdicts of DD, DB, DC and DA, and the names of the library. Another first byte of DB makes
/// another export.
#[test]
fn one_worker_and_many(rt: HostRuntime) {
    let alloc: Global = rt.alloc();
    let without_db = ["DA", "DC", "HIDDEN", "TARSKI_0", "TARSKI_A"];
    let rows: [(&str, &str, &[&str]); 3] = [
        ("b", "aaaa", &LIBRARY),
        ("+b", "aaaa", &LIBRARY),
        ("", "braa", &without_db),
    ];
    for (text_of_db, letters, names) in rows {
        let one = desk_by(&rt, alloc, text_of_db, 1);
        assert!(&rt; has_verdicts(&rt, &one, letters));
        assert!(&rt; has_library(&rt, &one, names));
        for workers in [4, 16] {
            assert!(&rt; is_same(&one, &desk_by(&rt, alloc, text_of_db, workers)));
        }
    }
    let plain = desk_by(&rt, alloc, "b", 4);
    assert!(&rt; !is_same(&plain, &desk_by(&rt, alloc, "+b", 4)));
}

#[test]
fn a_gate_holds_one_until_another_has_entered(rt: HostRuntime) {
    let alloc: Global = rt.alloc();
    let gate = Hold::new();
    let corpus = diamond(&rt, alloc, "b");
    let desk = run_all(&rt, alloc, corpus, &Plain, &gate, 4).expect(&rt, "memory");
    assert!(&rt; gate.entered.was_in_time());
    assert!(&rt; is_accepted(&rt, &desk));
}

#[test]
fn a_gate_over_a_bare_desk(rt: HostRuntime) {
    let alloc: Global = rt.alloc();
    let gate = Hold::new();
    let checker = Scripted::new();
    let (desk, stopped) = by_two(&rt, alloc, &checker, &gate);
    assert!(&rt; stopped == 0);
    assert!(&rt; gate.entered.was_in_time());
    assert!(&rt; is_accepted(&rt, &desk));
    assert!(&rt; checker.count() == 4);
}

#[test]
fn a_check_waits_for_another(rt: HostRuntime) {
    let alloc: Global = rt.alloc();
    let checker = Scripted::waiting(name_of(&rt, "DB"), name_of(&rt, "DC"));
    let corpus = diamond(&rt, alloc, "b");
    let desk = run_all(&rt, alloc, corpus, &checker, &OpenGate, 2).expect(&rt, "memory");
    assert!(&rt; checker.event.was_in_time());
    assert!(&rt; is_accepted(&rt, &desk));
    assert!(&rt; checker.count() == 4);
}

#[test]
fn a_check_waits_for_another_over_a_bare_desk(rt: HostRuntime) {
    let alloc: Global = rt.alloc();
    let checker = Scripted::waiting(name_of(&rt, "DB"), name_of(&rt, "DC"));
    let (desk, stopped) = by_two(&rt, alloc, &checker, &OpenGate);
    assert!(&rt; stopped == 0);
    assert!(&rt; checker.event.was_in_time());
    assert!(&rt; is_accepted(&rt, &desk));
}
