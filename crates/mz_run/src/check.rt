//! The check of a corpus, and the text on it.
ghost use Rattle.std.specs.Prelude.{◌≡◌, ◌≤◌, ◌++◌, IfOk, is_some};
ghost use Rattle.std.specs.Arc.{arc_value};
ghost use Rattle.mz_words.specs.Words.{asked_by};
ghost use Rattle.mz_turns.specs.Library.{library_of};
ghost use Rattle.mz_rows.specs.Entries.{entries_of};
ghost use Rattle.mz_listing.specs.Output.{output_text};
ghost use Rattle.mz_desk.specs.Desk.{AllAreSettled};
ghost use Rattle.mz_run.specs.Checked.{Checked, IsChecked, entries_in, are_accepted, text_of};

use crate::output::{OutputTexts, are_accepted, output};
use mz_axioms::checker::Checker;
use mz_axioms::exports::Exports;
use mz_core::verdict::Verdicts;
use mz_corpus::corpus::Corpus;
use mz_corpus::ordering::Ordering;
use mz_desk::desk::Desk;
use mz_io::gate::Gate;
use mz_words::order::Order;
use mz_workers::run_all::run_all;
use std::alloc::{AllocError, Global};
use std::sync::{Arc, Wait};
use std::thread::Threads;

/// What a run has to write, and whether every article is accepted.
#[derive(Drop)]
pub struct Finished {
    pub output: OutputTexts,
    pub accepted: bool,
}

/// The text on these verdicts and this library.
fn finished_with(
    alloc: Global,
    order: &Order,
    ordering: &Ordering,
    verdicts: &Verdicts,
    library: &Exports,
) -> Result<Finished, AllocError>
    ensures output { IfOk result (λ f. f.output.report ++ f.output.listing ≡ output_text (is_some order.now.generate) order.now.list ordering.now verdicts.now library.now) }
    ensures accepted { IfOk result (λ f. f.accepted ≡ are_accepted verdicts.now) }
{
    let accepted = are_accepted(verdicts);
    let made = order.generate.is_some();
    let output = output(alloc, made, order.list, ordering, verdicts, library)?;
    Ok(Finished { output, accepted })
}

/// The text on what a desk has settled, with its own library.
fn finished_desk<C: Checker>(
    alloc: Global,
    order: &Order,
    ordering: &Ordering,
    desk: &Desk<C>,
) -> Result<Finished, AllocError>
    requires { AllAreSettled desk.now }
    ensures output { IfOk result (λ f. f.output.report ++ f.output.listing ≡ output_text (is_some order.now.generate) order.now.list ordering.now (entries_of desk.now.corpus.articles desk.now.rows) (library_of desk.now.rows)) }
    ensures accepted { IfOk result (λ f. f.accepted ≡ are_accepted (entries_of desk.now.corpus.articles desk.now.rows)) }
{
    match desk.verdicts() {
        Ok(verdicts) => finished_with(alloc, order, ordering, verdicts, desk.library()),
        Err(_) => unreachable!(),
    }
}

/// The corpus behind a shared owner.
fn owned(alloc: Global, corpus: Corpus) -> Result<Arc<Corpus>, AllocError>
    ensures { IfOk result (λ c. arc_value c ≡ corpus) }
{
    let owned = Arc::new(alloc, corpus)?;
    Ok(owned)
}

/// Checks the articles of the corpus by as many workers as the order asks for, and makes the text on them.
///
/// # Errors
/// `AllocError` where there wasn't enough memory.
pub fn checked<C: Checker, G: Gate, R: Threads + Wait + Sync>(
    rt: &R,
    alloc: Global,
    checker: &C,
    gate: &G,
    order: &Order,
    corpus: Corpus,
) -> Result<Finished, AllocError>
    requires { (1 ≤ order.now.workers) × (order.now.workers ≤ 16) }
    ensures { IfOk result (λ f. (x : Checked) × (x.corpus ≡ corpus) × IsChecked C.is_outcome x × (f.output.report ++ f.output.listing ≡ text_of (asked_by order.now) x) × (f.accepted ≡ are_accepted (entries_in x))) }
{
    corpus.law();
    let ordering = corpus.order(alloc)?;
    let shared = owned(alloc, corpus)?;
    let desk = run_all(rt, alloc, shared, checker, gate, order.workers)?;
    finished_desk(alloc, order, &ordering, &desk)
}
