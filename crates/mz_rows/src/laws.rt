//! Laws of rows, each the contract of a function that does nothing.
ghost use Rattle.std.specs.Prelude.{List};
ghost use Rattle.mz_axioms.specs.Library.{Sound};
ghost use Rattle.mz_corpus.specs.Corpus.{Corpus, IsCorpus};
ghost use Rattle.mz_corpus.specs.Order.{IsOrder};
ghost use Rattle.mz_corpus.specs.declared.ordering.Ordering.{Ordering};
ghost use Rattle.mz_turns.specs.Row.{Row};
ghost use Rattle.mz_turns.specs.Library.{library_of};
ghost use Rattle.mz_turns.specs.Verdicts.{AreVerdicts};
ghost use Rattle.mz_rows.specs.Order.{BeginsOrder};

use mz_axioms::checker::Semantics;

/// The order of a corpus, followed by some articles of the rest, is an order for the verdicts: it has each
/// article that has to be judged, once, after its direct dependencies.
pub fn order_law()
    ensures { (c : Corpus) (o : Ordering) → IsCorpus c → IsOrder c.articles o → BeginsOrder c.articles o }
{}

/// The library of the verdicts of any corpus is sound.
pub fn library_law<C: Semantics>()
    ensures { (c : Corpus) (rows : List Row) → IsCorpus c → AreVerdicts C.is_outcome c.articles rows → Sound (library_of rows) }
{}
