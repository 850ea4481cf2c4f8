//! Rows that are settled as blocked.
ghost use Rattle.std.specs.Prelude.{◌≡◌, ◌<◌, ℕ, None, length, MatchOption};
ghost use Rattle.std.specs.List.{sum_by};
ghost use Rattle.mz_turns.specs.Machine.{Blocks, IsBlockedBy};
ghost use Rattle.mz_turns.specs.Row.{claim_weight};
ghost use Rattle.mz_rows.specs.Table.{bad_of};

use crate::table::Table;
use mz_base::name::Name;

impl Table {
    /// A ready row with a direct dependency that isn't accepted, and the name of the first such dependency.
    fn first_blocked(&self) -> Option<(usize, Name)>
        ensures { MatchOption result ((k : ℕ) → k < length self.now.corpus.articles → bad_of self.now.corpus.articles self.now.rows k ≡ None) (λ p. (p.0 < length self.now.corpus.articles) × (p.0 < length self.now.rows) × IsBlockedBy self.now.corpus.articles self.now.rows p.0 p.1) }
    {
        self.corpus().law();
        for row in 0..self.len() {
            if let Some(other) = self.bad_of(row) {
                return Some((row, self.corpus().get(other).name));
            }
        }
        None
    }

    /// Settles rows as blocked until no such row is left.
    pub fn settle_blocked(&mut self)
        ensures corpus { self.new.corpus ≡ self.old.corpus }
        ensures rows { Blocks self.old.corpus.articles self.old.rows self.new.rows }
        ensures claims { sum_by claim_weight self.new.rows ≡ sum_by claim_weight self.old.rows }
    {
        while let Some((row, name)) = self.first_blocked() {
            self.block(row, name);
        }
    }
}
