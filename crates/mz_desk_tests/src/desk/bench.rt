//! Desks and results by their numbers, and what is done with them line by line.
use crate::desk::corpora::{corpus_of, name_of};
use crate::desk::letters::letter;
use crate::desk::plain::Plain;
use mz_base::name::Name;
use mz_core::verdict::{Entry, Verdict};
use mz_desk::claim::Claim;
use mz_desk::desk::Desk;
use mz_desk::job::{Done, Found, Job, Why};
use mz_desk::look::Look;
use mz_rows::standing::RowState;
use std::alloc::Global;
use std::mem::{forget, replace};
use std::process::Abort;
use std::sync::Wait;
use std::thread::Threads;

/// Desks, and results of which those that were published are gone; each by its number, from 0.
#[derive(Drop)]
pub struct Bench {
    desks: Vec<Desk<Plain>>,
    results: Vec<Option<Done<Plain>>>,
}

impl Bench {
    /// Without desks.
    pub fn new(alloc: Global) -> Bench {
        Bench {
            desks: Vec::new(alloc),
            results: Vec::new(alloc),
        }
    }
}

/// The first word of the line, which goes on behind it.
fn word(line: &mut &'static str) -> &'static str {
    let all: &'static str = *line;
    match all.split_once(' ') {
        Some((front, behind)) => {
            *line = behind;
            front
        }
        None => {
            *line = "";
            all
        }
    }
}

/// The number that is the first word of the line.
fn number<R: Abort>(rt: &R, line: &mut &'static str) -> u32 {
    match word(line).parse::<u32>() {
        Ok(n) => n,
        Err(_) => panic!(rt; "a number"),
    }
}

/// The desk whose number is the first word of the line.
fn desk_at<'a, R: Abort>(
    rt: &R,
    bench: &'a mut Bench,
    line: &mut &'static str,
) -> &'a mut Desk<Plain> {
    let at = number(rt, line);
    bench.desks.get_mut(at as usize).expect(rt, "a desk")
}

fn put<R: Abort>(rt: &R, out: &mut Vec<u8>, bytes: &[u8]) {
    out.extend_from_slice(bytes).expect(rt, "memory");
}

fn put_count<R: Abort>(rt: &R, alloc: Global, out: &mut Vec<u8>, count: usize) {
    let text = format!(in alloc; "{count}").expect(rt, "memory");
    put(rt, out, text.as_bytes());
}

fn put_name<R: Abort>(rt: &R, alloc: Global, out: &mut Vec<u8>, name: Name) {
    let text = name.text(alloc).expect(rt, "memory");
    put(rt, out, text.as_slice());
}

/// How the row of the result's name stands, or which part of its input isn't the desk's.
fn put_why<R: Abort>(rt: &R, alloc: Global, out: &mut Vec<u8>, why: Why) {
    match why {
        Why::NotClaimed(None) => put(rt, out, b"no row"),
        Why::NotClaimed(Some(RowState::Waiting)) => put(rt, out, b"waiting"),
        Why::NotClaimed(Some(RowState::Claimed(worker))) => {
            put(rt, out, b"claimed by ");
            put_count(rt, alloc, out, worker as usize);
        }
        Why::NotClaimed(Some(RowState::Accepted)) => put(rt, out, b"accepted"),
        Why::NotClaimed(Some(_)) => put(rt, out, b"settled"),
        Why::Text => put(rt, out, b"text"),
        Why::Vocabulary { name } => {
            put(rt, out, b"vocabulary ");
            put_name(rt, alloc, out, name);
        }
        Why::Export { name } => {
            put(rt, out, b"export ");
            put_name(rt, alloc, out, name);
        }
    }
}

/// The job that a claim gives.
fn taken<R: Abort>(rt: &R, alloc: Global, desk: &mut Desk<Plain>, worker: u32) -> Job {
    match desk.claim(alloc, worker).expect(rt, "memory") {
        Claim::Take(job) => job,
        _ => panic!(rt; "no job"),
    }
}

/// The result of the next claim.
fn next_done<R: Abort + Threads + Wait + Sync>(
    rt: &R,
    alloc: Global,
    desk: &mut Desk<Plain>,
    worker: u32,
) -> Done<Plain> {
    match taken(rt, alloc, desk, worker).check(rt, alloc, &Plain) {
        Ok(done) => done,
        Err(_) => panic!(rt; "memory"),
    }
}

/// The article of a job, its row and worker, how many exports and vocabularies it is given, and its text.
fn put_job<R: Abort>(rt: &R, alloc: Global, out: &mut Vec<u8>, job: &Job) {
    put_name(rt, alloc, out, job.name());
    let (row, worker) = (job.row(), job.worker());
    let exports = job.exports().len();
    let vocabularies = job.vocabularies().items.len();
    let text = format!(in alloc;
        " row {row} worker {worker} exports {exports} vocabularies {vocabularies} text "
    ).expect(rt, "memory");
    put(rt, out, text.as_bytes());
    put(rt, out, job.text());
}

/// `result D W`: the result of the worker's next claim of the desk is put behind the others.
fn make_result<R: Abort + Threads + Wait + Sync>(
    rt: &R,
    alloc: Global,
    out: &mut Vec<u8>,
    bench: &mut Bench,
    line: &mut &'static str,
) {
    let desk = desk_at(rt, bench, line);
    let worker = number(rt, line);
    let done = next_done(rt, alloc, desk, worker);
    put_job(rt, alloc, out, done.job());
    bench.results.push(Some(done)).expect(rt, "memory");
}

/// `publish D N`: the worker 0 makes so many results, and each is taken.
fn publish<R: Abort + Threads + Wait + Sync>(
    rt: &R,
    alloc: Global,
    bench: &mut Bench,
    line: &mut &'static str,
) {
    let desk = desk_at(rt, bench, line);
    for _ in 0..number(rt, line) {
        let done = next_done(rt, alloc, desk, 0);
        assert!(rt; desk.publish(done).is_ok());
    }
}

/// `job K`: the job of the result, and whether it was accepted.
fn put_result<R: Abort>(
    rt: &R,
    alloc: Global,
    out: &mut Vec<u8>,
    bench: &mut Bench,
    line: &mut &'static str,
) {
    let at = number(rt, line) as usize;
    match bench.results.get(at) {
        Some(Some(done)) => {
            put_job(rt, alloc, out, done.job());
            if matches!(done.found(), Found::Accepted { .. }) {
                put(rt, out, b" accepted");
            }
        }
        _ => panic!(rt; "a result"),
    }
}

/// The result with the number, in whose place there is none then.
fn result_at<R: Abort>(rt: &R, bench: &mut Bench, at: usize) -> Done<Plain> {
    let place = bench.results.get_mut(at).expect(rt, "a result");
    replace(place, None).expect(rt, "a result")
}

/// `give D K`: the desk takes the result, or tells why it doesn't and gives it back.
fn give<R: Abort>(
    rt: &R,
    alloc: Global,
    out: &mut Vec<u8>,
    bench: &mut Bench,
    line: &mut &'static str,
) {
    let own = number(rt, line) as usize;
    let at = number(rt, line) as usize;
    let done = result_at(rt, bench, at);
    let desk = bench.desks.get_mut(own).expect(rt, "a desk");
    match desk.publish(done) {
        Ok(()) => put(rt, out, b"taken"),
        Err(strayed) => {
            put_why(rt, alloc, out, strayed.why);
            let place = bench.results.get_mut(at).expect(rt, "a result");
            forget(replace(place, Some(strayed.done)));
        }
    }
}

/// `look D NAME`: how the desk tells of the article.
fn look<R: Abort>(
    rt: &R,
    alloc: Global,
    out: &mut Vec<u8>,
    bench: &mut Bench,
    line: &mut &'static str,
) {
    let desk = desk_at(rt, bench, line);
    let name = name_of(rt, word(line));
    match desk.look(&name) {
        Look::Accepted(_) => put(rt, out, b"accepted"),
        Look::Rejected => put(rt, out, b"rejected"),
        Look::Blocked(by) => {
            put(rt, out, b"blocked by ");
            put_name(rt, alloc, out, by);
        }
        Look::Cyclic => put(rt, out, b"cyclic"),
        Look::Missing => put(rt, out, b"missing"),
        Look::NotYet => put(rt, out, b"not yet"),
        Look::Unknown => put(rt, out, b"unknown"),
    }
}

/// `claim D W`: the first row that is claimed, where none is ready.
fn claim<R: Abort>(
    rt: &R,
    alloc: Global,
    out: &mut Vec<u8>,
    bench: &mut Bench,
    line: &mut &'static str,
) {
    let desk = desk_at(rt, bench, line);
    let worker = number(rt, line);
    match desk.claim(alloc, worker).expect(rt, "memory") {
        Claim::Take(job) => {
            put(rt, out, b"a job");
            forget(job);
        }
        Claim::NotYet { claimed } => {
            put(rt, out, b"claimed ");
            put_count(rt, alloc, out, claimed as usize);
        }
        Claim::Finished => put(rt, out, b"finished"),
    }
}

/// The letter of a verdict, by whom an article is blocked, and how many faults another one has.
fn put_entry<R: Abort>(rt: &R, alloc: Global, out: &mut Vec<u8>, entry: &Entry) {
    put(rt, out, &[letter(entry), b' ']);
    match entry.verdict {
        Some(Verdict::Blocked(by)) => put_name(rt, alloc, out, by),
        _ => put_count(rt, alloc, out, entry.faults.items.len()),
    }
}

/// `verdicts D`: the letters of all verdicts, or the first row that isn't settled. `entry D N`: one verdict.
fn verdicts<R: Abort>(
    rt: &R,
    alloc: Global,
    out: &mut Vec<u8>,
    bench: &mut Bench,
    line: &mut &'static str,
) {
    let desk = desk_at(rt, bench, line);
    match desk.verdicts() {
        Ok(all) => {
            for entry in &all.items {
                put(rt, out, &[letter(entry)]);
            }
        }
        Err(left) => {
            put(rt, out, b"left ");
            put_count(rt, alloc, out, left.row as usize);
        }
    }
}

fn entry<R: Abort>(
    rt: &R,
    alloc: Global,
    out: &mut Vec<u8>,
    bench: &mut Bench,
    line: &mut &'static str,
) {
    let desk = desk_at(rt, bench, line);
    let at = number(rt, line) as usize;
    match desk.verdicts() {
        Ok(all) => put_entry(rt, alloc, out, all.items.get(at).expect(rt, "an entry")),
        Err(_) => panic!(rt; "no verdicts yet"),
    }
}

/// `desk CORPUS`: a desk more. `reclaim D`: all claims are taken away. `sizes D`: how many exports and articles it has.
pub fn put_answer<R: Abort + Threads + Wait + Sync>(
    rt: &R,
    alloc: Global,
    out: &mut Vec<u8>,
    bench: &mut Bench,
    order: &'static str,
) {
    let mut line = order;
    match word(&mut line) {
        "desk" => {
            let corpus = corpus_of(rt, alloc, line);
            let desk = Desk::open(alloc, corpus).expect(rt, "memory");
            bench.desks.push(desk).expect(rt, "memory");
        }
        "publish" => publish(rt, alloc, bench, &mut line),
        "result" => make_result(rt, alloc, out, bench, &mut line),
        "job" => put_result(rt, alloc, out, bench, &mut line),
        "give" => give(rt, alloc, out, bench, &mut line),
        "look" => look(rt, alloc, out, bench, &mut line),
        "claim" => claim(rt, alloc, out, bench, &mut line),
        "reclaim" => desk_at(rt, bench, &mut line).reclaim(),
        "verdicts" => verdicts(rt, alloc, out, bench, &mut line),
        "entry" => entry(rt, alloc, out, bench, &mut line),
        "sizes" => {
            let desk = desk_at(rt, bench, &mut line);
            put_count(rt, alloc, out, desk.library().len());
            put(rt, out, b" ");
            put_count(rt, alloc, out, desk.corpus().len());
        }
        _ => panic!(rt; "an order"),
    }
}
