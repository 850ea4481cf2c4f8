//! Runs over a shelf in memory.
use crate::run::run;
use mz_base::name::Name;
use mz_base::numbers::Numbers;
use mz_base::status::Status;
use mz_base::text::Text;
use mz_io::file::File;
use mz_io::file_kind::FileKind;
use mz_io::file_list::FileList;
use mz_io::gate::Gate;
use mz_io::memory_shelf::MemoryShelf;
use mz_io::memory_sink::MemorySink;
use std::alloc::Global;
use std::mem::forget;
use std::process::Abort;
use std::sync::Wait;
use std::thread::Threads;

/// A run: its words; the articles and vocabularies of its shelf; which call of the shelf and which of the sink fails, 0 for
/// none; how many bytes a write takes; and what it must write and answer.
#[derive(Clone, Copy)]
pub struct Row {
    pub words: &'static [&'static str],
    pub articles: &'static [(&'static str, &'static str)],
    pub vocabularies: &'static [(&'static str, &'static str)],
    pub failing_fetch: u64,
    pub failing_write: u64,
    pub step: usize,
    pub report: &'static str,
    pub status: Status,
}

/// A run with no failing call.
pub fn ample_row(
    words: &'static [&'static str],
    articles: &'static [(&'static str, &'static str)],
    report: &'static str,
    status: Status,
) -> Row {
    Row {
        words,
        articles,
        vocabularies: &[],
        failing_fetch: 0,
        failing_write: 0,
        step: 1_048_576,
        report,
        status,
    }
}

/// Adds a file to the list.
pub fn add_file(
    rt: &impl Abort,
    alloc: Global,
    files: &mut FileList,
    kind: FileKind,
    name: &[u8],
    bytes: &[u8],
) {
    let name = Name::read(name).expect(rt, "a name");
    let bytes = Text::from_slice(alloc, bytes).expect(rt, "memory");
    files.push(File { kind, name, bytes }).expect(rt, "memory");
}

/// The front, and so often the piece behind it.
pub fn repeated(rt: &impl Abort, alloc: Global, front: &[u8], piece: &[u8], times: usize) -> Text {
    let mut text = Text::from_slice(alloc, front).expect(rt, "memory");
    for _ in 0..times {
        text.extend_from_slice(piece).expect(rt, "memory");
    }
    text
}

/// A list with the number.
fn numbers_of(rt: &impl Abort, alloc: Global, number: u64) -> Numbers {
    Numbers::from_slice(alloc, &[number]).expect(rt, "memory")
}

/// The shelf of a run.
pub fn shelf_of(rt: &impl Abort, alloc: Global, row: &Row) -> MemoryShelf {
    let mut files = FileList::new(alloc);
    for (name, text) in row.articles {
        let kind = FileKind::Article;
        add_file(
            rt,
            alloc,
            &mut files,
            kind,
            name.as_bytes(),
            text.as_bytes(),
        );
    }
    for (name, text) in row.vocabularies {
        let kind = FileKind::Vocabulary;
        add_file(
            rt,
            alloc,
            &mut files,
            kind,
            name.as_bytes(),
            text.as_bytes(),
        );
    }
    MemoryShelf::new(files, numbers_of(rt, alloc, row.failing_fetch))
}

/// The words of a run.
pub fn words_of(rt: &impl Abort, alloc: Global, words: &[&str]) -> Vec<String> {
    let mut all = Vec::new(alloc);
    for word in words {
        let word = String::from_str(alloc, word).expect(rt, "memory");
        all.push(word).expect(rt, "memory");
    }
    all
}

/// The run of the row writes and answers what it must, through this gate; how many calls of its shelf there were.
pub fn check_row<G: Gate, R: Abort + Threads + Wait + Sync>(
    rt: &R,
    alloc: Global,
    row: &Row,
    gate: &G,
) -> u64 {
    let words = words_of(rt, alloc, row.words);
    let mut shelf = shelf_of(rt, alloc, row);
    assert!(rt; row.step >= 1);
    let fail = numbers_of(rt, alloc, row.failing_write);
    let mut out = MemorySink::new(alloc, row.step, fail).expect(rt, "memory");
    let status = run(rt, alloc, words, &mut shelf, &mut out, gate);
    let same = out.bytes() == row.report.as_bytes();
    let calls = shelf.calls;
    forget(shelf);
    forget(out);
    assert!(rt; status == row.status, "at {}", row.report);
    assert!(rt; same, "at {}", row.report);
    calls
}
