//! Runs over the working folder.
use crate::checker::ProgramChecker;
use crate::run::run;
use mz_base::status::Status;
use mz_base::text::Text;
use mz_io::folder_shelf::FolderShelf;
use mz_io::gate::OpenGate;
use mz_io::stream_sink::StreamSink;
use mz_progress::display::Display;
use mz_progress::progress::Progress;
use mz_progress::watched::{ClearedSink, CountedShelf, WatchedChecker};
use mz_run::run::run_with;
use mz_words::words::read_words;
use std::alloc::Global;
use std::io;
use std::io::Eprint;
use std::rt::{Clock, Files};
use std::sync::Wait;
use std::thread::{Threads, join};

/// A run that writes to standard output.
fn plain_run<R: Threads + Wait + Sync + Files + Print>(
    rt: &R,
    alloc: Global,
    words: Vec<String>,
) -> Status {
    let mut shelf = FolderShelf::new(rt, Text::new(alloc));
    let mut out = StreamSink::new(io::writer(rt));
    run(rt, alloc, words, &mut shelf, &mut out, &OpenGate)
}

/// The same, told to a display. It is the run of a checker with the same relation, so the same holds of it.
fn told_run<R: Threads + Wait + Sync + Files + Print + Eprint>(
    rt: &R,
    alloc: Global,
    words: Vec<String>,
    progress: &Progress,
    display: &Display,
) -> Status {
    let checker = WatchedChecker {
        checker: ProgramChecker::new(),
        progress,
    };
    let mut shelf = CountedShelf {
        shelf: FolderShelf::new(rt, Text::new(alloc)),
        progress,
    };
    let mut out = ClearedSink {
        sink: StreamSink::new(io::writer(rt)),
        rt,
        display,
    };
    let status = run_with(rt, alloc, &checker, words, &mut shelf, &mut out, &OpenGate);
    display.end(rt);
    status
}

/// The same, with a line on standard error that shows how far it is, of which so many articles are found at first.
fn shown_run<R: Threads + Wait + Sync + Files + Print + Eprint + Clock>(
    rt: &R,
    alloc: Global,
    words: Vec<String>,
    found: u64,
) -> Status {
    let progress = Progress::new(alloc, found);
    let display = Display::new();
    let (_, status) = join(
        rt,
        || display.follow(rt, alloc, &progress),
        || told_run(rt, alloc, words, &progress, &display),
    );
    status
}

/// How many articles a run by these words has found before it gathers any, where it is shown how far it is: those that it
/// makes. A run that lists isn't shown, nor one that words refuse.
fn found_at_first(alloc: Global, words: &[String]) -> Option<u64> {
    match read_words(alloc, words) {
        Ok(order) if !order.list => match order.generate {
            Some(n) => Some(u64::from(n)),
            None => Some(0),
        },
        _ => None,
    }
}

/// A run over the articles of the working folder, which writes to standard output; where standard error is a terminal and no
/// listing is asked for, a line there shows how far it is.
pub fn run_folder<R: Threads + Wait + Sync + Files + Print + Eprint + Clock>(
    rt: &R,
    alloc: Global,
    words: Vec<String>,
    is_terminal: bool,
) -> Status {
    let found = if is_terminal {
        found_at_first(alloc, words.as_slice())
    } else {
        None
    };
    match found {
        Some(found) => shown_run(rt, alloc, words, found),
        None => plain_run(rt, alloc, words),
    }
}
