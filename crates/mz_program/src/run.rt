//! The top call: from the words to the report.
ghost use Rattle.std.specs.Prelude.{◌≡◌, ◌≤◌, true, List, Some, None, is_some, length, map, string_bytes};
ghost use Rattle.mz_io.specs.Count.{Rose};
ghost use Rattle.mz_io.specs.declared.file.File.{File};
ghost use Rattle.mz_base.specs.declared.status.Status.TheVariants as status;
ghost use Rattle.mz_words.specs.Words.{Asked, order_of};
ghost use Rattle.mz_corpus.specs.Rise.{IsLarge};
ghost use Rattle.mz_article.specs.Outcome.{IsOutcome};
ghost use Rattle.mz_run.specs.Gathered.{is_known, PassesLimit, FailsFor};
ghost use Rattle.mz_run.specs.Run.{Written, IsRefusalOfWords, IsRefusalOfLimit, IsCompletion};

use crate::checker::ProgramChecker;
use mz_base::status::Status;
use mz_io::gate::Gate;
use mz_io::shelf::Shelf;
use mz_io::sink::Sink;
use mz_run::run::run_with;
use std::alloc::Global;
use std::sync::Wait;
use std::thread::Threads;

/// Checks the articles that the words name and all on which they depend, or makes articles and checks these, and writes the
/// report, and the listing where it is wanted (see `docs/LANGUAGE.md`).
///
/// The texts are gathered from the shelf (see `gather`), the articles are checked by 1 to 16 workers, and each passes the
/// gate before its check. The answer is the status of the run (see `Status`).
pub fn run<R: Threads + Wait + Sync, S: Shelf, W: Sink, G: Gate>(
    rt: &R,
    alloc: Global,
    words: Vec<String>,
    shelf: &mut S,
    out: &mut W,
    gate: &G,
) -> Status
    ensures written { Written IsOutcome (S.contents shelf.old) (order_of (map string_bytes words.items)) (W.taken out.old) (W.taken out.new) result }

    // Each cause comes only where its call failed; words that are no order are refused, unless memory runs out.
    ensures usage { result ≡ status.Usage → order_of (map string_bytes words.items) ≡ None }
    ensures no_order { order_of (map string_bytes words.items) ≡ None → IsRefusalOfWords result × (shelf.new ≡ shelf.old) }
    ensures read_fault { result ≡ status.ReadFault → Rose (S.faults shelf.old) (S.faults shelf.new) }
    ensures write_fault { result ≡ status.WriteFault → Rose (W.faults out.old) (W.faults out.new) }

    // Texts that pass a limit are refused, and no others: in what is known of the files, and by the shelf's amount. A fetch that
    // fails is told only before a limit is passed.
    ensures too_large { (a : Asked) → order_of (map string_bytes words.items) ≡ Some a → is_known (S.contents shelf.old) a ≡ true → result ≡ status.TooLarge → PassesLimit (S.contents shelf.old) a }
    ensures early { (a : Asked) (files : List File) → order_of (map string_bytes words.items) ≡ Some a → a.generate ≡ None → S.contents shelf.old ≡ Some files → result ≡ status.ReadFault → FailsFor files a (S.amount shelf.old) (S.amount shelf.new) }
    ensures limit { (a : Asked) → order_of (map string_bytes words.items) ≡ Some a → PassesLimit (S.contents shelf.old) a → IsRefusalOfLimit result }
    ensures amount { (a : Asked) → order_of (map string_bytes words.items) ≡ Some a → a.generate ≡ None → result ≡ status.TooLarge → IsLarge (length a.names) (S.amount shelf.old) (S.amount shelf.new) }

    // Where articles are made, the shelf stays as it is, and no read fails.
    ensures made { (a : Asked) → order_of (map string_bytes words.items) ≡ Some a → is_some a.generate ≡ true → (shelf.new ≡ shelf.old) × (result ≡ status.ReadFault → ⊥) }

    // With an order, no limit that is passed and no failed call the whole text is written, unless memory runs out.
    ensures complete { (a : Asked) → order_of (map string_bytes words.items) ≡ Some a → is_known (S.contents shelf.old) a ≡ true → (PassesLimit (S.contents shelf.old) a → ⊥) → (Rose (S.faults shelf.old) (S.faults shelf.new) → ⊥) → (Rose (W.faults out.old) (W.faults out.new) → ⊥) → IsCompletion result }

    // What the shelf and the sink tell of themselves.
    ensures contents { S.contents shelf.new ≡ S.contents shelf.old }
    ensures shelf_faults { S.faults shelf.old ≤ S.faults shelf.new }
    ensures shelf_amount { S.amount shelf.old ≤ S.amount shelf.new }
    ensures sink_faults { W.faults out.old ≤ W.faults out.new }
{
    let checker = ProgramChecker::new();
    run_with(rt, alloc, &checker, words, shelf, out, gate)
}
