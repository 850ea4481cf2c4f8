//! Which rows are ready, blocked, claimed and settled.
ghost use Rattle.std.specs.Prelude.{◌≡◌, ◌<◌, ◌≤◌, ◌+◌, drop, true, false, ℕ, length, MatchOption};
ghost use Rattle.std.specs.List.{sum_by};
ghost use Rattle.mz_turns.specs.Row.{is_settled, is_claimed, row_at, claim_weight};
ghost use Rattle.mz_turns.specs.Machine.{all_settled, first_unaccepted};
ghost use Rattle.mz_rows.specs.Table.{is_ready, bad_of, number_at, IsFirstReady};

use crate::table::Table;

impl Table {
    /// Whether the rows with these numbers are all settled.
    fn all_settled(&self, rows: &[usize]) -> bool
        ensures { result ≡ all_settled self.now.rows rows.now }
    {
        match rows.split_first() {
            None => true,
            Some((row, rest)) => {
                if self.is_settled(*row) {
                    self.all_settled(rest)
                } else {
                    false
                }
            }
        }
    }

    /// The first of the rows with these numbers that isn't accepted.
    fn first_unaccepted(&self, rows: &[usize]) -> Option<usize>
        ensures { result ≡ first_unaccepted self.now.rows rows.now }
    {
        match rows.split_first() {
            None => None,
            Some((row, rest)) => {
                if self.is_accepted(*row) {
                    self.first_unaccepted(rest)
                } else {
                    Some(*row)
                }
            }
        }
    }

    /// Whether the row waits and its direct dependencies are all settled.
    pub fn is_ready(&self, row: usize) -> bool
        requires { row < length self.now.corpus.articles }
        ensures { result ≡ is_ready self.now.corpus.articles self.now.rows row }
    {
        let _article = self.corpus().get(row);
        if self.is_waiting(row) {
            self.all_settled(self.direct(row))
        } else {
            false
        }
    }

    /// The first direct dependency of a ready row that isn't accepted.
    pub(crate) fn bad_of(&self, row: usize) -> Option<usize>
        requires { row < length self.now.corpus.articles }
        ensures { result ≡ bad_of self.now.corpus.articles self.now.rows row }
    {
        let _article = self.corpus().get(row);
        if self.is_waiting(row) {
            let direct = self.direct(row);
            if self.all_settled(direct) {
                self.first_unaccepted(direct)
            } else {
                None
            }
        } else {
            None
        }
    }

    /// The first claimed row.
    pub fn first_claimed(&self) -> Option<usize>
        ensures { MatchOption result ((k : ℕ) → k < length self.now.rows → is_claimed (row_at self.now.rows k) ≡ false) (λ r. (r < length self.now.rows) × (is_claimed (row_at self.now.rows r) ≡ true) × ((k : ℕ) → k < r → is_claimed (row_at self.now.rows k) ≡ false)) }
    {
        for row in 0..self.len() {
            if self.is_claimed(row) {
                return Some(row);
            }
        }
        None
    }

    /// The first row that isn't settled.
    pub fn first_unsettled(&self) -> Option<usize>
        ensures { MatchOption result ((k : ℕ) → k < length self.now.rows → is_settled (row_at self.now.rows k) ≡ true) (λ r. (r < length self.now.rows) × (is_settled (row_at self.now.rows r) ≡ false) × ((k : ℕ) → k < r → is_settled (row_at self.now.rows k) ≡ true)) }
    {
        for row in 0..self.len() {
            if !self.is_settled(row) {
                return Some(row);
            }
        }
        None
    }

    /// The number of the name of the row's article.
    fn number(&self, row: usize) -> u64
        requires { row < length self.now.corpus.articles }
        ensures { result ≡ number_at self.now.corpus.articles row }
    {
        self.corpus().get(row).name.number
    }

    /// The first ready row, in the order of names, among those below the next number.
    fn earlier(&self, best: Option<usize>, row: usize) -> Option<usize>
        requires within { row < length self.now.corpus.articles }
        requires best { IsFirstReady self.now.corpus.articles self.now.rows row best }
        ensures { IsFirstReady self.now.corpus.articles self.now.rows (row + 1) result }
    {
        if !self.is_ready(row) {
            return best;
        }
        match best {
            None => Some(row),
            Some(first) => {
                if self.number(row) < self.number(first) {
                    Some(row)
                } else {
                    Some(first)
                }
            }
        }
    }

    /// The first ready row, in the order of names.
    pub fn first_ready(&self) -> Option<usize>
        ensures { IsFirstReady self.now.corpus.articles self.now.rows (length self.now.corpus.articles) result }
    {
        let mut best = None;
        for row in 0..self.len() {
            best = self.earlier(best, row);
        }
        best
    }

    /// How many of the rows from this one on are claimed.
    fn claims_from(&self, row: usize) -> usize
        requires { row ≤ length self.now.rows }
        ensures count { result ≡ sum_by claim_weight (drop row self.now.rows) }
        ensures few { result + row ≤ length self.now.rows }
    {
        if row >= self.len() {
            return 0;
        }
        let rest = self.claims_from(row + 1);
        if self.is_claimed(row) { rest + 1 } else { rest }
    }

    /// How many rows are claimed.
    pub fn claims(&self) -> usize
        ensures count { result ≡ sum_by claim_weight self.now.rows }
        ensures few { result ≤ length self.now.rows }
    {
        self.claims_from(0)
    }
}
