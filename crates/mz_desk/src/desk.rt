//! The desk: what is kept under the lock.
ghost use Rattle.std.specs.Prelude.{◌≡◌, ◌<◌, ◌≤◌, [], ℕ, true, false, length, slice_set, IfOk, IfErr, OnOk, OnErr, MatchOption};
ghost use Rattle.std.specs.Arc.{arc_value};
ghost use Rattle.mz_axioms.specs.Library.{Sound};
ghost use Rattle.std.specs.List.{sum_by};
ghost use Rattle.mz_turns.specs.Row.{is_settled, row_at, row_of, claim_weight};
ghost use Rattle.mz_turns.specs.Library.{library_of};
ghost use Rattle.mz_turns.specs.Verdicts.{HasVerdict, AreVerdicts};
ghost use Rattle.mz_turns.specs.Machine.{Starts, Blocks, Replays};
ghost use Rattle.mz_rows.specs.Entries.{entries_of};
ghost use Rattle.mz_rows.specs.Table.{is_ready, number_at};
ghost use Rattle.mz_desk.specs.Found.{IsFound, IsFreshFor, outcome_from};
ghost use Rattle.mz_desk.specs.Look.{IsLook};
ghost use Rattle.mz_desk.specs.Own.{HasOwnInput, GivesOwnInput};
ghost use Rattle.mz_desk.specs.Desk.{Takes, Answers, NoneIsReady, Stands, Strays, Publishes, Reclaims, IsFirstUnsettled, AllAreSettled};

use crate::claim::Claim;
use crate::input::{job_of, not_claimed, why_not};
use crate::job::{Done, Found, Job, Strayed, Why};
use crate::look::{Look, built_in_look, look_in};
use mz_axioms::checker::Semantics;
use mz_axioms::exports::Exports;
use mz_base::name::Name;
use mz_core::verdict::Verdicts;
use mz_corpus::corpus::Corpus;
use mz_rows::links::place_of;
use mz_rows::table::Table;
use mz_turns::turn::Turn;
use std::alloc::{AllocError, Global};
use std::marker::{Model, PhantomData};
use std::sync::Arc;

/// The first row that isn't settled.
#[derive(Clone, Copy, Debug)]
pub struct NotFinished {
    pub row: u32,
}

/// The desk over a corpus. Its rows are those that its turns made.
#[derive(Drop)]
pub struct Desk<C: Semantics> {
    table: Table,
    turns: Vec<Turn>,
    of: PhantomData<C>,
}

impl<C: Semantics> Model for Desk<C> {
    ghost use Rattle.std.specs.Prelude.{◌≤◌, ◌+◌, vec_len, vec_capacity};
    ghost use Rattle.std.specs.List.{sum_by};
    ghost use Rattle.mz_turns.specs.Row.{claim_weight};
    ghost use Rattle.mz_turns.specs.Machine.{Replays};
    ghost use Rattle.mz_desk.specs.State.{State};
    ghost use Rattle.std.specs.Coded.{codes};
    ghost use Rattle.mz_core.specs.contracts.outcome.Export as export_contract;

    ghost Value = { State };

    ghost coded = { Prim.hlevel (codes, export_contract.the_row.coded) };

    ghost view = { λ d. record { corpus = d.table.corpus; rows = d.table.rows; turns = d.turns.items } };

    ghost invariant = { λ d. Replays C.is_outcome d.table.corpus.articles d.turns.items d.table.rows × (vec_len d.turns + sum_by claim_weight d.table.rows + 1 ≤ vec_capacity d.turns) };
}

/// Settles a row with what was found.
fn put_found(table: &mut Table, row: usize, found: Found)
    requires within { row < length table.old.corpus.articles }
    requires unsettled { is_settled (row_at table.old.rows row) ≡ false }
    requires fresh { IsFreshFor table.old.rows (outcome_from found) }
    requires found { IsFound found }
    ensures corpus { table.new.corpus ≡ table.old.corpus }
    ensures rows { table.new.rows ≡ slice_set table.old.rows row (row_of (outcome_from found)) }
{
    match found {
        Found::Accepted {
            export,
            shared,
            counts,
        } => table.accept(row, export, shared, counts),
        Found::Rejected(faults) => table.reject(row, faults),
    }
}

/// Settles a row with what was found, and then the rows that are blocked.
fn settle_row(table: &mut Table, row: usize, found: Found)
    requires within { row < length table.old.corpus.articles }
    requires unsettled { is_settled (row_at table.old.rows row) ≡ false }
    requires fresh { IsFreshFor table.old.rows (outcome_from found) }
    requires found { IsFound found }
    ensures corpus { table.new.corpus ≡ table.old.corpus }
    ensures rows { Blocks table.old.corpus.articles (slice_set table.old.rows row (row_of (outcome_from found))) table.new.rows }
    ensures claims { sum_by claim_weight table.new.rows ≡ sum_by claim_weight (slice_set table.old.rows row (row_of (outcome_from found))) }
{
    put_found(&mut *table, row, found);
    Table::settle_blocked(table);
}

impl<C: Semantics> Desk<C> {
    /// A desk over the corpus, with no turn yet.
    pub fn open(alloc: Global, corpus: Arc<Corpus>) -> Result<Desk<C>, AllocError>
        ensures corpus { IfOk result (λ s. s.corpus ≡ arc_value corpus) }
        ensures rows { IfOk result (λ s. Starts s.corpus.articles s.rows) }
        ensures turns { IfOk result (λ s. s.turns ≡ []) }
    {
        let mut table = Table::open(alloc, corpus)?;
        table.settle_blocked();
        let turns = Vec::with_capacity(alloc, 1)?;
        Ok(Desk {
            table,
            turns,
            of: PhantomData,
        })
    }

    /// The corpus.
    pub fn corpus(&self) -> &Arc<Corpus>
        ensures { arc_value result.now ≡ self.now.corpus }
    {
        self.table.corpus()
    }

    /// The built-in exports and those of the accepted rows, in the order of names.
    pub fn library(&self) -> &Exports
        ensures { result.now ≡ library_of self.now.rows }
    {
        self.table.library()
    }

    /// The turns that made the rows, from the first on.
    pub fn turns(&self) -> &[Turn]
        ensures { result.now ≡ self.now.turns }
    {
        self.turns.as_slice()
    }

    /// What each desk keeps: its rows are those after its turns; so there is one for each article, its library is
    /// sound, each settled row is the verdict of its article, and where all are settled they are the verdicts.
    pub fn law(&self)
        ensures replays { Replays C.is_outcome self.now.corpus.articles self.now.turns self.now.rows }
        ensures whole { length self.now.rows ≡ length self.now.corpus.articles }
        ensures sound { Sound (library_of self.now.rows) }
        ensures verdict { (r : ℕ) → is_settled (row_at self.now.rows r) ≡ true → HasVerdict C.is_outcome self.now.corpus.articles r (row_at self.now.rows r) }
        ensures all { AllAreSettled self.now → AreVerdicts C.is_outcome self.now.corpus.articles self.now.rows }
    {
        self.table.corpus().law();
    }

    /// How the article of the name stands. Built-in names are accepted.
    pub fn look<'a>(&'a self, name: &Name) -> Look<'a>
        ensures { IsLook self.now name.now result }
    {
        self.law();
        if name.is_built_in() {
            built_in_look(self.library().as_slice(), name)
        } else {
            look_in(&self.table, name)
        }
    }

    /// What the report tells of each row, in the order of the rows.
    ///
    /// # Errors
    /// `NotFinished` exactly where a row isn't settled, with the first.
    pub fn verdicts(&self) -> Result<&Verdicts, NotFinished>
        ensures ok { IfOk result (λ v. (v.now ≡ entries_of self.now.corpus.articles self.now.rows) × AllAreSettled self.now × AreVerdicts C.is_outcome self.now.corpus.articles self.now.rows) }
        ensures err { IfErr result (λ e. IsFirstUnsettled self.now e.row) }
    {
        self.law();
        self.table.corpus().law();
        let _len = self.table.len();
        match self.table.first_unsettled() {
            Some(row) => Err(NotFinished { row: row as u32 }),
            None => Ok(self.table.verdicts()),
        }
    }

    /// Takes a ready row, and makes room for its turn, for that of its publication and for a reclaim.
    fn take(&mut self, alloc: Global, row: usize, worker: u32) -> Result<Job, AllocError>
        requires within { row < length self.old.corpus.articles }
        requires ready { is_ready self.old.corpus.articles self.old.rows row ≡ true }
        requires first { (k : ℕ) → k < length self.old.corpus.articles → is_ready self.old.corpus.articles self.old.rows k ≡ true → number_at self.old.corpus.articles row ≤ number_at self.old.corpus.articles k }
        ensures ok { IfOk result (λ j. Takes self.old worker self.new j) }
        ensures own { IfOk result (λ j. HasOwnInput C.is_outcome self.old.corpus.articles j) }
        ensures err { OnErr result (self.new ≡ self.old) }
    {
        self.table.corpus().law();
        let _len = self.table.len();
        let job = job_of(alloc, &self.table, row, worker)?;
        let claims = self.table.claims();
        self.turns.reserve(claims + 3)?;
        self.table.claim(row, worker);
        self.turns.push_reserved(Turn::Take(row as u32, worker));
        Ok(job)
    }

    /// What is answered where no row is ready.
    fn rest(&self) -> Claim
        requires { NoneIsReady self.now }
        ensures answers { (w : ℕ) → Answers self.now w self.now result }
        ensures own { GivesOwnInput C.is_outcome self.now.corpus.articles result }
    {
        self.table.corpus().law();
        let _len = self.table.len();
        match self.table.first_claimed() {
            Some(row) => Claim::NotYet {
                claimed: row as u32,
            },
            None => Claim::Finished,
        }
    }

    /// Gives the worker the first ready row, in the order of names. The job's input is its article's own on each
    /// desk over the corpus. After want of memory nothing has changed.
    pub fn claim(&mut self, alloc: Global, worker: u32) -> Result<Claim, AllocError>
        ensures ok { IfOk result (λ x. Answers self.old worker self.new x) }
        ensures own { IfOk result (λ x. GivesOwnInput C.is_outcome self.old.corpus.articles x) }
        ensures corpus { self.new.corpus ≡ self.old.corpus }
        ensures err { OnErr result (self.new ≡ self.old) }
    {
        match self.table.first_ready() {
            Some(row) => {
                let job = self.take(alloc, row, worker)?;
                Ok(Claim::Take(job))
            }
            None => Ok(self.rest()),
        }
    }

    /// Settles the row of a result that stands.
    fn settle(&mut self, done: Done<C>)
        requires { Stands self.old.corpus.articles self.old.rows done.job }
        ensures { Publishes self.old self.new done }
    {
        self.table.corpus().law();
        let job = done.job;
        let name = job.name;
        let worker = job.worker;
        let row = place_of(self.table.corpus().articles(), &name);
        settle_row(&mut self.table, row, done.found);
        self.turns.push_reserved(Turn::Publish(row as u32, worker));
    }

    /// Publishes a result where there is no reason against it, and gives it back with the reason else.
    fn publish_unless(&mut self, done: Done<C>, why: Option<Why>) -> Result<(), Strayed<C>>
        requires { MatchOption why (Stands self.old.corpus.articles self.old.rows done.job) (λ w. Strays self.old.corpus.articles self.old.rows done.job w) }
        ensures ok { OnOk result (Publishes self.old self.new done) }
        ensures err { IfErr result (λ s. (self.new ≡ self.old) × (s.done ≡ done) × Strays self.old.corpus.articles self.old.rows done.job s.why) }
        ensures corpus { self.new.corpus ≡ self.old.corpus }
    {
        match why {
            Some(why) => Err(Strayed { done, why }),
            None => {
                self.settle(done);
                Ok(())
            }
        }
    }

    /// Publishes a result. It takes no memory.
    ///
    /// # Errors
    /// The result, exactly where it doesn't stand, and why; nothing has changed then.
    pub fn publish(&mut self, done: Done<C>) -> Result<(), Strayed<C>>
        ensures ok { OnOk result (Publishes self.old self.new done) }
        ensures err { IfErr result (λ s. (self.new ≡ self.old) × (s.done ≡ done) × Strays self.old.corpus.articles self.old.rows done.job s.why) }
    {
        self.table.corpus().law();
        let why = why_not(&self.table, done.job());
        self.publish_unless(done, why)
    }

    /// Publishes a result whose job a desk over the same corpus gave, as `publish` does. It compares no input: each
    /// dependency has one verdict, so the job's input is this desk's own. It takes no memory.
    ///
    /// # Errors
    /// The result, exactly where its row isn't claimed by its worker, and how the row is; nothing has changed then.
    pub fn publish_own(&mut self, done: Done<C>) -> Result<(), Strayed<C>>
        requires own { HasOwnInput C.is_outcome self.old.corpus.articles done.job }
        ensures ok { OnOk result (Publishes self.old self.new done) }
        ensures err { IfErr result (λ s. (self.new ≡ self.old) × (s.done ≡ done) × Strays self.old.corpus.articles self.old.rows done.job s.why) }
        ensures corpus { self.new.corpus ≡ self.old.corpus }
    {
        self.table.corpus().law();
        let why = not_claimed(&self.table, done.job());
        self.publish_unless(done, why)
    }

    /// Takes every claim away. It takes no memory.
    pub fn reclaim(&mut self)
        ensures { Reclaims self.old self.new }
    {
        let _len = self.table.len();
        match self.table.first_claimed() {
            None => {}
            Some(_) => {
                self.table.free_all();
                self.turns.push_reserved(Turn::Reclaim);
            }
        }
    }
}
