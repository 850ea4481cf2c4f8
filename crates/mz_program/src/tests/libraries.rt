//! Runs over libraries.
use crate::run::run;
use crate::tests::shared::{Row, add_file, ample_row, check_row, repeated, words_of};
use mz_base::numbers::Numbers;
use mz_base::status::Status;
use mz_io::file_kind::FileKind;
use mz_io::file_list::FileList;
use mz_io::gate::OpenGate;
use mz_io::memory_shelf::MemoryShelf;
use mz_io::memory_sink::MemorySink;
use std::alloc::Global;
use std::mem::forget;
use std::process::Abort;
use std::sync::Wait;
use std::thread::Threads;

pub const FIRST: &str = "environ begin theorem for x being object holds x = x;";

const ACCEPTED: &str =
    "A accepted 1 theorems, 0 definitions, 0 registrations, 0 schemes\ntotal 1 accepted, 0 rejected, 0 blocked, 0 cyclic, 0 missing\n";

const LISTED: &str =
    "A accepted 1 theorems, 0 definitions, 0 registrations, 0 schemes\ntotal 1 accepted, 0 rejected, 0 blocked, 0 cyclic, 0 missing\nA 1 theorem |- (all (= b0 b0))\n";

/// The article A alone.
const ONE: &[(&str, &str)] = &[("a", FIRST)];

/// Two that depend on each other, one that depends on them, and one alone.
const CIRCLE: &[(&str, &str)] = &[
    ("a", "environ theorems B; begin"),
    ("b", "environ theorems A; begin"),
    ("c", "environ theorems A; begin"),
    ("d", "environ begin"),
];

/// One with two open steps, and one that depends on it.
const OPEN: &[(&str, &str)] = &[
    (
        "a14",
        "environ begin\ntheorem for x,y being object holds x = y;\ntheorem for x,y being object holds x in y;",
    ),
    ("b14", "environ theorems A14; begin"),
];

/// DD over DB and DC, which are over DA.
pub const DIAMOND: &[(&str, &str)] = &[
    ("da", FIRST),
    (
        "db",
        "environ theorems DA; begin theorem for x being object holds x = x by DA:1;",
    ),
    (
        "dc",
        "environ theorems DA; begin theorem for x being object holds x = x by DA:1;",
    ),
    (
        "dd",
        "environ theorems DB, DC; begin theorem for x being object holds x = x by DB:1, DC:1;",
    ),
];

/// A over X, which isn't there.
const LONELY: &[(&str, &str)] = &[("a", "environ\n theorems TARSKI_0; constructors X; begin")];

const DIAMOND_REPORT: &str =
    "DA accepted 1 theorems, 0 definitions, 0 registrations, 0 schemes\nDB accepted 1 theorems, 0 definitions, 0 registrations, 0 schemes\nDC accepted 1 theorems, 0 definitions, 0 registrations, 0 schemes\nDD accepted 1 theorems, 0 definitions, 0 registrations, 0 schemes\ntotal 4 accepted, 0 rejected, 0 blocked, 0 cyclic, 0 missing\n";

const DIAMOND_LISTED: &str =
    "DA accepted 1 theorems, 0 definitions, 0 registrations, 0 schemes\nDB accepted 1 theorems, 0 definitions, 0 registrations, 0 schemes\nDC accepted 1 theorems, 0 definitions, 0 registrations, 0 schemes\nDD accepted 1 theorems, 0 definitions, 0 registrations, 0 schemes\ntotal 4 accepted, 0 rejected, 0 blocked, 0 cyclic, 0 missing\nDA 1 theorem |- (all (= b0 b0))\nDB 1 theorem |- (all (= b0 b0))\nDC 1 theorem |- (all (= b0 b0))\nDD 1 theorem |- (all (= b0 b0))\n";

/// A run over this library by these words.
pub fn diamond(words: &'static [&'static str]) -> Row {
    ample_row(words, DIAMOND, DIAMOND_REPORT, Status::Accepted)
}

const CIRCLE_REPORT: &str =
    "D accepted 0 theorems, 0 definitions, 0 registrations, 0 schemes\nA cyclic\nB cyclic\nC blocked by A\ntotal 1 accepted, 0 rejected, 1 blocked, 2 cyclic, 0 missing\n";

const OPEN_REPORT: &str =
    "A14 rejected 2 faults\n  2:41 61 open 1\n  3:42 61 open 1\nB14 blocked by A14\ntotal 0 accepted, 1 rejected, 1 blocked, 0 cyclic, 0 missing\n";

const LONELY_REPORT: &str =
    "X missing\nA blocked by X\ntotal 0 accepted, 0 rejected, 1 blocked, 0 cyclic, 1 missing\n";

const NO_FILE_REPORT: &str =
    "NOFILE missing\ntotal 0 accepted, 0 rejected, 0 blocked, 0 cyclic, 1 missing\n";

const STEP_REPORT: &str =
    "A rejected 1 faults\n  1:55 61 open 1\ntotal 0 accepted, 1 rejected, 0 blocked, 0 cyclic, 0 missing\n";

const EMPTY_REPORT: &str =
    "A accepted 0 theorems, 0 definitions, 0 registrations, 0 schemes\ntotal 1 accepted, 0 rejected, 0 blocked, 0 cyclic, 0 missing\n";

/// One open step.
const STEP: &[(&str, &str)] = &[(
    "a",
    "environ begin theorem for x,y being object holds x = y;",
)];

/// No item.
const EMPTY: &[(&str, &str)] = &[("a", "environ begin")];

/// The words of a run, its articles, what it writes, and how it ends.
const RUNS: [(&[&str], &[(&str, &str)], &str, Status); 12] = [
    (&["A"], ONE, ACCEPTED, Status::Accepted),
    (&["a"], ONE, ACCEPTED, Status::Accepted),
    (&["A", "A"], ONE, ACCEPTED, Status::Accepted),
    (&["--", "A"], ONE, ACCEPTED, Status::Accepted),
    (&["--list", "A"], ONE, LISTED, Status::Accepted),
    (
        &["A", "B", "C", "D"],
        CIRCLE,
        CIRCLE_REPORT,
        Status::Rejected,
    ),
    (&["B14"], OPEN, OPEN_REPORT, Status::Rejected),
    (&["--list", "B14"], OPEN, OPEN_REPORT, Status::Rejected),
    (&["A"], LONELY, LONELY_REPORT, Status::Rejected),
    (&["NOFILE"], ONE, NO_FILE_REPORT, Status::Rejected),
    (&["A"], STEP, STEP_REPORT, Status::Rejected),
    (&["A"], EMPTY, EMPTY_REPORT, Status::Accepted),
];

#[test]
fn libraries_have_their_reports(rt: HostRuntime) {
    for (words, articles, report, status) in RUNS {
        let row = ample_row(words, articles, report, status);
        let _calls = check_row(&rt, rt.alloc(), &row, &OpenGate);
    }
}

/// By one worker and by many, for one name of the library and for several.
#[test]
fn each_order_has_the_report(rt: HostRuntime) {
    let plain: [&[&str]; 3] = [
        &["DD"],
        &["--workers", "4", "DD"],
        &["DD", "--workers=16", "DA", "DB"],
    ];
    for words in plain {
        let _calls = check_row(&rt, rt.alloc(), &diamond(words), &OpenGate);
    }
    let words = &["--workers", "2", "DD", "--list"];
    let row = ample_row(words, DIAMOND, DIAMOND_LISTED, Status::Accepted);
    let _calls = check_row(&rt, rt.alloc(), &row, &OpenGate);
}

/// A vocabulary that the article names.
const VOCABULARIES: &[(&str, &str)] = &[("v", "Rc=")];

/// The article that names it.
const NAMING: &[(&str, &str)] = &[("a", "environ vocabularies V; begin")];

#[test]
fn a_vocabulary_is_fetched(rt: HostRuntime) {
    let row = Row {
        vocabularies: VOCABULARIES,
        ..ample_row(&["A"], NAMING, EMPTY_REPORT, Status::Accepted)
    };
    assert!(&rt; check_row(&rt, rt.alloc(), &row, &OpenGate) == 2);
}

/// Two predicates with one symbol, and articles that use them.
const NOTATIONS: &[(&str, &str)] = &[
    (
        "p8",
        "environ vocabularies V8; begin definition let x,y be object; pred x ## y means x = y; end;",
    ),
    (
        "q8",
        "environ vocabularies V8; begin definition let x,y be object; pred x ## y means not x = y; end;",
    ),
    (
        "r8",
        "environ vocabularies V8; notations P8, Q8; constructors P8, Q8; theorems Q8; begin theorem for x being object holds not x ## x by Q8:def 1;",
    ),
    (
        "s8",
        "environ vocabularies V8; notations Q8, P8; constructors P8, Q8; theorems Q8; begin theorem for x being object holds not x ## x by Q8:def 1;",
    ),
    ("m8", "environ vocabularies V8; notations P8; begin"),
];

/// The words of a run over them, what it writes, and how it ends.
const NOTATION_RUNS: [(&[&str], &str, Status); 3] = [
    (
        &["R8"],
        "P8 accepted 0 theorems, 1 definitions, 0 registrations, 0 schemes\nQ8 accepted 0 theorems, 1 definitions, 0 registrations, 0 schemes\nR8 accepted 1 theorems, 0 definitions, 0 registrations, 0 schemes\ntotal 3 accepted, 0 rejected, 0 blocked, 0 cyclic, 0 missing\n",
        Status::Accepted,
    ),
    (
        &["S8"],
        "P8 accepted 0 theorems, 1 definitions, 0 registrations, 0 schemes\nQ8 accepted 0 theorems, 1 definitions, 0 registrations, 0 schemes\nS8 rejected 1 faults\n  1:128 61 open 1\ntotal 2 accepted, 1 rejected, 0 blocked, 0 cyclic, 0 missing\n",
        Status::Rejected,
    ),
    (
        &["M8"],
        "P8 accepted 0 theorems, 1 definitions, 0 registrations, 0 schemes\nM8 rejected 1 faults\n  1:36 27 missing constructor 1\ntotal 1 accepted, 1 rejected, 0 blocked, 0 cyclic, 0 missing\n",
        Status::Rejected,
    ),
];

/// The latest notation is meant; a notation isn't let in without its constructor.
#[test]
fn the_latest_notation_is_meant(rt: HostRuntime) {
    for (words, report, status) in NOTATION_RUNS {
        let row = Row {
            vocabularies: &[("v8", "R##")],
            ..ample_row(words, NOTATIONS, report, status)
        };
        let _calls = check_row(&rt, rt.alloc(), &row, &OpenGate);
    }
}

/// Words that are no order; nothing is fetched.
const FAULTY: [&[&str]; 12] = [
    &[],
    &["--workers", "0", "A"],
    &["--workers", "17", "A"],
    &["--workers", "2", "--workers", "2", "A"],
    &["HIDDEN"],
    &["A", "TARSKI_A"],
    &["--list", "--generate", "3"],
    &["--generate", "513"],
    &["--generate", "3", "A"],
    &["1A"],
    &["--help"],
    &["A", "--list", "--list"],
];

#[test]
fn faulty_words_are_refused(rt: HostRuntime) {
    for words in FAULTY {
        let row = ample_row(words, ONE, "", Status::Usage);
        assert!(&rt; check_row(&rt, rt.alloc(), &row, &OpenGate) == 0);
    }
}

/// Calls of the shelf that fail: the words and the articles of a run, which call fails, and how the run ends.
const FAILING_FETCHES: [(&[&str], &[(&str, &str)], u64, Status); 3] = [
    (&["DD"], DIAMOND, 3, Status::ReadFault),
    (&["DD"], DIAMOND, 1, Status::ReadFault),
    (&["A"], NAMING, 2, Status::ReadFault),
];

/// That call is the last. A call behind the last one isn't made.
#[test]
fn failed_fetches_end_the_run(rt: HostRuntime) {
    for (words, articles, call, status) in FAILING_FETCHES {
        let row = Row {
            failing_fetch: call,
            ..ample_row(words, articles, "", status)
        };
        assert!(&rt; check_row(&rt, rt.alloc(), &row, &OpenGate) == call);
    }
    let row = Row {
        failing_fetch: 2,
        ..ample_row(&["A"], ONE, ACCEPTED, Status::Accepted)
    };
    assert!(&rt; check_row(&rt, rt.alloc(), &row, &OpenGate) == 1);
}

/// Calls of the sink that fail: the words of a run, which call fails, how many bytes each takes, what was written, and how
/// the run ends.
const FAILING_WRITES: [(&[&str], u64, usize, &str, Status); 4] = [
    (&["A"], 2, 1_048_576, ACCEPTED, Status::Accepted),
    (&["A"], 2, 10, "A accepted", Status::WriteFault),
    (&["A"], 1, 1_048_576, "", Status::WriteFault),
    (&["--list", "A"], 2, 1_048_576, ACCEPTED, Status::WriteFault),
];

#[test]
fn failed_writes_end_the_run(rt: HostRuntime) {
    for (words, call, step, report, status) in FAILING_WRITES {
        let row = Row {
            failing_write: call,
            step,
            ..ample_row(words, ONE, report, status)
        };
        assert!(&rt; check_row(&rt, rt.alloc(), &row, &OpenGate) == 1);
    }
}

const MADE: [(&[&str], &str); 4] = [
    (
        &["--generate", "1"],
        "total 1 accepted, 0 rejected, 0 blocked, 0 cyclic, 0 missing\n",
    ),
    (
        &["--generate=3", "--workers", "2"],
        "total 3 accepted, 0 rejected, 0 blocked, 0 cyclic, 0 missing\n",
    ),
    (
        &["--generate", "200"],
        "total 200 accepted, 0 rejected, 0 blocked, 0 cyclic, 0 missing\n",
    ),
    (
        &["--workers", "8", "--generate", "200"],
        "total 200 accepted, 0 rejected, 0 blocked, 0 cyclic, 0 missing\n",
    ),
];

/// Made articles are all accepted, and the shelf, whose first call would fail, isn't asked.
#[test]
fn made_articles_are_accepted(rt: HostRuntime) {
    for (words, report) in MADE {
        let row = Row {
            failing_fetch: 1,
            ..ample_row(words, ONE, report, Status::Accepted)
        };
        assert!(&rt; check_row(&rt, rt.alloc(), &row, &OpenGate) == 0);
    }
}

/// How a run ends whose words are so many names of articles that aren't there, over a shelf whose first call fails where it is
/// told so, and how many calls of it there were; it writes exactly where it is rejected.
fn run_names<R: Abort + Threads + Wait + Sync>(
    rt: &R,
    alloc: Global,
    count: u32,
    failing: u64,
) -> (Status, u64) {
    let mut words = words_of(rt, alloc, &[]);
    for i in 0..count {
        let word = format!(in alloc; "N{i}").expect(rt, "memory");
        words.push(word).expect(rt, "memory");
    }
    let fail = Numbers::from_slice(alloc, &[failing]).expect(rt, "memory");
    let mut shelf = MemoryShelf::new(FileList::new(alloc), fail);
    let mut out = MemorySink::new(alloc, 4096, Numbers::new(alloc)).expect(rt, "memory");
    let status = run(rt, alloc, words, &mut shelf, &mut out, &OpenGate);
    let wrote = !out.bytes().is_empty();
    let calls = shelf.calls;
    forget(shelf);
    forget(out);
    assert!(rt; wrote == (status == Status::Rejected));
    (status, calls)
}

/// A limit that is passed before the call that would fail decides.
#[test]
fn names_are_512_at_most(rt: HostRuntime) {
    let rows = [
        (512, 0, (Status::Rejected, 512)),
        (512, 1, (Status::ReadFault, 1)),
        (513, 0, (Status::TooLarge, 0)),
        (513, 1, (Status::TooLarge, 0)),
    ];
    for (count, failing, wanted) in rows {
        assert!(&rt; run_names(&rt, rt.alloc(), count, failing) == wanted);
    }
}

/// A text that is too long decides before the next call, which would fail; one byte less, and that call fails.
#[test]
fn a_limit_comes_before_a_later_fault(rt: HostRuntime) {
    let alloc: Global = rt.alloc();
    for (length, wanted) in [
        (1_048_577, (Status::TooLarge, 1)),
        (1_048_576, (Status::ReadFault, 2)),
    ] {
        let text = repeated(&rt, alloc, b"", b" ", length);
        let mut files = FileList::new(alloc);
        add_file(
            &rt,
            alloc,
            &mut files,
            FileKind::Article,
            b"A",
            text.as_slice(),
        );
        let fail = Numbers::from_slice(alloc, &[2]).expect(&rt, "memory");
        let mut shelf = MemoryShelf::new(files, fail);
        let mut out = MemorySink::new(alloc, 4096, Numbers::new(alloc)).expect(&rt, "memory");
        let words = words_of(&rt, alloc, &["A", "B"]);
        let status = run(&rt, alloc, words, &mut shelf, &mut out, &OpenGate);
        let same = (status, shelf.calls) == wanted && out.bytes().is_empty();
        forget(shelf);
        forget(out);
        forget(text);
        assert!(&rt; same);
    }
}
