//! Laws of the verdicts and of the turns, each the contract of a function that does nothing.
ghost use Rattle.std.specs.Prelude.{◌≡◌, ◌≤◌, ℕ, List, length, map, true};
ghost use Rattle.mz_axioms.specs.Library.{Sound};
ghost use Rattle.mz_corpus.specs.Corpus.{Corpus, IsCorpus};
ghost use Rattle.mz_turns.specs.Row.{Row, is_settled, row_at};
ghost use Rattle.mz_turns.specs.Dependencies.{start_row};
ghost use Rattle.mz_turns.specs.Library.{library_of};
ghost use Rattle.mz_turns.specs.Verdicts.{HasVerdict, AreVerdicts};
ghost use Rattle.mz_turns.specs.Machine.{Blocks, Starts, Step, Replays};
ghost use Rattle.mz_turns.specs.Order.{IsSettled, FoldsAll, IsOrder, publications};
ghost use Rattle.mz_turns.specs.declared.turn.Turn.{Turn};

use mz_axioms::checker::Semantics;

/// After any turns that are allowed each settled row is its article's verdict, stays as it is in every
/// further turn, and was published once at most; the library is sound, and where all rows are settled it is
/// that of the verdicts. There is a row for each article. The turns determine the rows: what comes of settling
/// blocked rows is one, whatever the order, and so are the rows before any turn, and those after the turns.
pub fn turns_law<C: Semantics>()
    ensures verdict { (c : Corpus) (ts : List Turn) (rows : List Row) (r : ℕ) → IsCorpus c → Replays C.is_outcome c.articles ts rows → is_settled (row_at rows r) ≡ true → HasVerdict C.is_outcome c.articles r (row_at rows r) }
    ensures stays { (c : Corpus) (ts : List Turn) (t : Turn) (rows after : List Row) (r : ℕ) → IsCorpus c → Replays C.is_outcome c.articles ts rows → Step C.is_outcome c.articles rows t after → is_settled (row_at rows r) ≡ true → row_at after r ≡ row_at rows r }
    ensures once { (c : Corpus) (ts : List Turn) (rows : List Row) (r : ℕ) → IsCorpus c → Replays C.is_outcome c.articles ts rows → publications r ts ≤ 1 }
    ensures sound { (c : Corpus) (ts : List Turn) (rows : List Row) → IsCorpus c → Replays C.is_outcome c.articles ts rows → Sound (library_of rows) }
    ensures library { (c : Corpus) (ts : List Turn) (rows verdicts : List Row) → IsCorpus c → Replays C.is_outcome c.articles ts rows → IsSettled c.articles rows → AreVerdicts C.is_outcome c.articles verdicts → library_of rows ≡ library_of verdicts }
    ensures whole { (c : Corpus) (ts : List Turn) (rows : List Row) → IsCorpus c → Replays C.is_outcome c.articles ts rows → length rows ≡ length c.articles }
    ensures blocked { (c : Corpus) (rows after others : List Row) → Blocks c.articles rows after → Blocks c.articles rows others → after ≡ others }
    ensures begins { (c : Corpus) (rows others : List Row) → Starts c.articles rows → Starts c.articles others → rows ≡ others }
    ensures one { (c : Corpus) (ts : List Turn) (rows others : List Row) → Replays C.is_outcome c.articles ts rows → Replays C.is_outcome c.articles ts others → rows ≡ others }
{}

/// An article has one verdict at most, and there is one list of verdicts at most. What is judged one after
/// another, in whatever order, is that list, and it can be judged so in each order that has every article after
/// its direct dependencies.
pub fn verdicts_law<C: Semantics>()
    ensures one { (c : Corpus) (r : ℕ) (x y : Row) → HasVerdict C.is_outcome c.articles r x → HasVerdict C.is_outcome c.articles r y → x ≡ y }
    ensures once { (c : Corpus) (rows others : List Row) → AreVerdicts C.is_outcome c.articles rows → AreVerdicts C.is_outcome c.articles others → rows ≡ others }
    ensures in_turn { (c : Corpus) (order : List ℕ) (rows : List Row) → IsCorpus c → FoldsAll C.is_outcome c.articles order rows → AreVerdicts C.is_outcome c.articles rows }
    ensures each_order { (c : Corpus) (order : List ℕ) (rows : List Row) → IsCorpus c → AreVerdicts C.is_outcome c.articles rows → IsOrder c.articles (map start_row c.articles) order → FoldsAll C.is_outcome c.articles order rows }
{}
