//! From the words to the report.
ghost use Rattle.std.specs.Prelude.{◌≡◌, ◌≤◌, ◌++◌, ℕ, true, List, Option, Some, None, is_some, length, map, string_bytes};
ghost use Rattle.mz_io.specs.Count.{Rose};
ghost use Rattle.mz_io.specs.declared.file.File.{File};
ghost use Rattle.mz_base.specs.declared.status.Status.TheVariants as status;
ghost use Rattle.mz_words.specs.Words.{Asked, asked_by, order_of, IsAnswer};
ghost use Rattle.mz_corpus.specs.Failed.{FailsEarly};
ghost use Rattle.mz_corpus.specs.Rise.{IsLarge};
ghost use Rattle.mz_order_laws.specs.Bounds.{IsBounded};
ghost use Rattle.mz_run.specs.Gathered.{is_known, PassesLimit, FailsFor};
ghost use Rattle.mz_run.specs.Run.{Written, WrittenFor, refusal_of, refusal_of_words, IsRefusalOfWords, IsRefusalOfLimit, IsCompletion};
ghost use Rattle.mz_run.specs.Steps.{Ended, EndedOn};

use crate::check::{Finished, checked};
use crate::output::write_output;
use crate::texts::gather_for;
use mz_axioms::checker::Checker;
use mz_base::status::Status;
use mz_corpus::corpus::Corpus;
use mz_corpus::gather_fault::GatherFault;
use mz_io::gate::Gate;
use mz_io::shelf::Shelf;
use mz_io::sink::Sink;
use mz_order_laws::laws::bounds_law;
use mz_words::order::Order;
use mz_words::word_fault::WordFault;
use mz_words::words::read_words;
use std::alloc::{AllocError, Global};
use std::sync::Wait;
use std::thread::Threads;

/// How a run ends whose texts can't be gathered.
fn refusal_of(fault: &GatherFault) -> Status
    ensures { result ≡ refusal_of fault.now }
{
    match fault {
        GatherFault::Read => Status::ReadFault,
        GatherFault::TooMuchText { .. }
        | GatherFault::TooManyArticles
        | GatherFault::TooLong { .. }
        | GatherFault::TooManyVocabularies => Status::TooLarge,
        GatherFault::Memory => Status::OutOfMemory,
    }
}

/// Writes what was found, and says how the run ends.
fn write_finished<W: Sink>(out: &mut W, finished: &Finished) -> Status
    ensures ended { Ended (finished.now.output.report ++ finished.now.output.listing) finished.now.accepted (W.taken out.old) (W.taken out.new) result }
    ensures write_fault { result ≡ status.WriteFault → Rose (W.faults out.old) (W.faults out.new) }
    ensures never_fall { W.faults out.old ≤ W.faults out.new }
{
    match write_output(out, &finished.output) {
        Ok(()) if finished.accepted => Status::Accepted,
        Ok(()) => Status::Rejected,
        Err(_) => Status::WriteFault,
    }
}

/// Checks the articles of a corpus, and writes the text on them.
fn run_on<C: Checker, G: Gate, R: Threads + Wait + Sync, W: Sink>(
    rt: &R,
    alloc: Global,
    checker: &C,
    gate: &G,
    order: &Order,
    corpus: Corpus,
    out: &mut W,
) -> Status
    requires workers { (1 ≤ order.now.workers) × (order.now.workers ≤ 16) }
    ensures ended { EndedOn C.is_outcome (asked_by order.now) corpus (W.taken out.old) (W.taken out.new) result }
    ensures write_fault { result ≡ status.WriteFault → Rose (W.faults out.old) (W.faults out.new) }
    ensures never_fall { W.faults out.old ≤ W.faults out.new }
{
    match checked(rt, alloc, checker, gate, order, corpus) {
        Ok(finished) => write_finished(out, &finished),
        Err(AllocError) => Status::OutOfMemory,
    }
}

/// A run by an order.
fn run_order<C: Checker, R: Threads + Wait + Sync, S: Shelf, W: Sink, G: Gate>(
    rt: &R,
    alloc: Global,
    checker: &C,
    order: &Order,
    shelf: &mut S,
    out: &mut W,
    gate: &G,
) -> Status
    requires bounded { IsBounded (asked_by order.now) }
    ensures written { WrittenFor C.is_outcome (S.contents shelf.old) (asked_by order.now) (W.taken out.old) (W.taken out.new) result }
    ensures usage { result ≡ status.Usage → ⊥ }
    ensures read_fault { result ≡ status.ReadFault → Rose (S.faults shelf.old) (S.faults shelf.new) }
    ensures early { order.now.generate ≡ None → (files : List File) → S.contents shelf.old ≡ Some files → result ≡ status.ReadFault → FailsEarly files order.now.names (S.amount shelf.old) (S.amount shelf.new) }
    ensures write_fault { result ≡ status.WriteFault → Rose (W.faults out.old) (W.faults out.new) }
    ensures too_large { is_known (S.contents shelf.old) (asked_by order.now) ≡ true → result ≡ status.TooLarge → PassesLimit (S.contents shelf.old) (asked_by order.now) }
    ensures limit { PassesLimit (S.contents shelf.old) (asked_by order.now) → IsRefusalOfLimit result }
    ensures amount { order.now.generate ≡ None → result ≡ status.TooLarge → IsLarge (length order.now.names) (S.amount shelf.old) (S.amount shelf.new) }
    ensures made { is_some order.now.generate ≡ true → (shelf.new ≡ shelf.old) × (result ≡ status.ReadFault → ⊥) }
    ensures complete { is_known (S.contents shelf.old) (asked_by order.now) ≡ true → (PassesLimit (S.contents shelf.old) (asked_by order.now) → ⊥) → (Rose (S.faults shelf.old) (S.faults shelf.new) → ⊥) → (Rose (W.faults out.old) (W.faults out.new) → ⊥) → IsCompletion result }
    ensures contents { S.contents shelf.new ≡ S.contents shelf.old }
    ensures shelf_faults { S.faults shelf.old ≤ S.faults shelf.new }
    ensures shelf_amount { S.amount shelf.old ≤ S.amount shelf.new }
    ensures sink_faults { W.faults out.old ≤ W.faults out.new }
{
    match gather_for(alloc, shelf, order) {
        Ok(corpus) => run_on(rt, alloc, checker, gate, order, corpus, out),
        Err(fault) => refusal_of(&fault),
    }
}

/// How a run ends whose words give no order.
fn refusal_of_words(fault: &WordFault) -> Status
    ensures { result ≡ refusal_of_words fault.now }
{
    match fault {
        WordFault::Usage => Status::Usage,
        WordFault::Memory(_) => Status::OutOfMemory,
    }
}

/// The order that the words give.
fn ordered(alloc: Global, words: Vec<String>) -> Result<Order, WordFault>
    ensures { IsAnswer (map string_bytes words.items) result }
{
    read_words(alloc, words.as_slice())
}

/// A run by a checker: it reads the words (see `read_words`), gathers the texts of the articles that they name and of all on
/// which these depend, or makes articles, checks them by as many workers as the words say, and writes the report, and the
/// listing where it is wanted.
///
/// The answer is the status of the run (see `Status`).
pub fn run_with<C: Checker, R: Threads + Wait + Sync, S: Shelf, W: Sink, G: Gate>(
    rt: &R,
    alloc: Global,
    checker: &C,
    words: Vec<String>,
    shelf: &mut S,
    out: &mut W,
    gate: &G,
) -> Status
    ensures written { Written C.is_outcome (S.contents shelf.old) (order_of (map string_bytes words.items)) (W.taken out.old) (W.taken out.new) result }

    // Each cause comes only where its call failed; words that are no order are refused, unless memory runs out.
    ensures usage { result ≡ status.Usage → order_of (map string_bytes words.items) ≡ None }
    ensures no_order { order_of (map string_bytes words.items) ≡ None → IsRefusalOfWords result × (shelf.new ≡ shelf.old) }
    ensures read_fault { result ≡ status.ReadFault → Rose (S.faults shelf.old) (S.faults shelf.new) }
    ensures write_fault { result ≡ status.WriteFault → Rose (W.faults out.old) (W.faults out.new) }

    // Texts that pass a limit are refused, and no others: in what is known of the files, and by the shelf's amount. A fetch that
    // fails is told only before a limit is passed.
    ensures too_large { (a : Asked) → order_of (map string_bytes words.items) ≡ Some a → is_known (S.contents shelf.old) a ≡ true → result ≡ status.TooLarge → PassesLimit (S.contents shelf.old) a }
    ensures early { (a : Asked) (files : List File) → order_of (map string_bytes words.items) ≡ Some a → a.generate ≡ None → S.contents shelf.old ≡ Some files → result ≡ status.ReadFault → FailsFor files a (S.amount shelf.old) (S.amount shelf.new) }
    ensures limit { (a : Asked) → order_of (map string_bytes words.items) ≡ Some a → PassesLimit (S.contents shelf.old) a → IsRefusalOfLimit result }
    ensures amount { (a : Asked) → order_of (map string_bytes words.items) ≡ Some a → a.generate ≡ None → result ≡ status.TooLarge → IsLarge (length a.names) (S.amount shelf.old) (S.amount shelf.new) }

    // Where articles are made, the shelf stays as it is, and no read fails.
    ensures made { (a : Asked) → order_of (map string_bytes words.items) ≡ Some a → is_some a.generate ≡ true → (shelf.new ≡ shelf.old) × (result ≡ status.ReadFault → ⊥) }

    // With an order, no limit that is passed and no failed call the whole text is written, unless memory runs out.
    ensures complete { (a : Asked) → order_of (map string_bytes words.items) ≡ Some a → is_known (S.contents shelf.old) a ≡ true → (PassesLimit (S.contents shelf.old) a → ⊥) → (Rose (S.faults shelf.old) (S.faults shelf.new) → ⊥) → (Rose (W.faults out.old) (W.faults out.new) → ⊥) → IsCompletion result }

    // What the shelf and the sink tell of themselves.
    ensures contents { S.contents shelf.new ≡ S.contents shelf.old }
    ensures shelf_faults { S.faults shelf.old ≤ S.faults shelf.new }
    ensures shelf_amount { S.amount shelf.old ≤ S.amount shelf.new }
    ensures sink_faults { W.faults out.old ≤ W.faults out.new }
{
    bounds_law();
    match ordered(alloc, words) {
        Ok(order) => run_order(rt, alloc, checker, &order, shelf, out, gate),
        Err(fault) => refusal_of_words(&fault),
    }
}
