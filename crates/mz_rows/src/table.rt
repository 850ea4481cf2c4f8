//! The table of rows.
ghost use Rattle.std.specs.Prelude.{◌≡◌, ◌<◌, map, length, false, Some, None, [], slice_get, slice_set, IfOk};
ghost use Rattle.std.specs.Arc.{arc_value};
ghost use Rattle.mz_axioms.specs.Library.{added};
ghost use Rattle.mz_turns.specs.Row.{Waiting, Claimed, Accepted, Rejected, Blocked, is_settled, is_waiting, is_claimed, is_accepted, freed, row_at};
ghost use Rattle.mz_turns.specs.Dependencies.{start_row, direct_rows};
ghost use Rattle.mz_turns.specs.Library.{library_of, IsFreshIn};
ghost use Rattle.mz_core.specs.declared.verdict.Verdict.TheVariants.{Accepted as accepted, Rejected as rejected};
ghost use Rattle.mz_rows.specs.Counts.{no_counts, counts_of};
ghost use Rattle.mz_rows.specs.Entries.{entry_of, entries_of, start_entry};
ghost use Rattle.mz_corpus.specs.Article.{Article};
ghost use Rattle.mz_rows.specs.Standing.{row_from, start_from, IsRowOf, state_of, standing_state, standing_freed, standing_at, is_claimed_state};

use crate::counts::no_counts;
use crate::links::{Links, RowNumbers};
use crate::standing::{RowState, Standing};
use mz_axioms::built_in::built_in;
use mz_axioms::exports::Exports;
use mz_base::name::Name;
use mz_core::fault::Faults;
use mz_core::outcome::Export;
use mz_core::verdict::{Counts, Entry, Verdict, Verdicts};
use mz_corpus::article::Article;
use mz_corpus::corpus::Corpus;
use std::alloc::{AllocError, Global};
use std::marker::Model;
use std::sync::Arc;

/// The rows of a corpus, with what the report tells of them, and the library of the accepted ones.
#[derive(Drop)]
pub struct Table {
    alloc: Global,
    corpus: Arc<Corpus>,
    links: Links,
    standings: Vec<Standing>,
    verdicts: Verdicts,
    library: Exports,
}

impl Model for Table {
    ghost use Rattle.std.specs.Arc.{arc_value};
    ghost use Rattle.mz_rows.specs.Table.{Table as TableValue};
    ghost use Rattle.mz_rows.specs.Standing.{rows_from};
    ghost use Rattle.mz_rows.specs.Stored.{IsStored};
    ghost use Rattle.std.specs.Coded.{codes};
    ghost use Rattle.mz_core.specs.contracts.outcome.Export as export_contract;

    ghost Value = { TableValue };

    ghost coded = { Prim.hlevel (codes, export_contract.the_row.coded) };

    ghost view = { λ t. record { corpus = arc_value t.corpus; rows = rows_from t.standings.items t.verdicts } };

    ghost invariant = { λ t. IsStored (arc_value t.corpus).articles t.links t.standings.items t.verdicts t.library };
}

/// How an article stands before any is checked.
fn start(a: &Article) -> Standing
    ensures { row_from result [] ≡ start_row a.now }
{
    match a.text {
        None => Standing::Missing,
        Some(_) => {
            if a.is_cyclic() {
                Standing::Cyclic
            } else {
                Standing::Waiting
            }
        }
    }
}

/// An entry without counts and faults.
fn entry(alloc: Global, name: Name, verdict: Option<Verdict>) -> Entry
    ensures { result ≡ record { name = name; verdict = verdict; counts = no_counts; faults = [] } }
{
    Entry {
        name,
        verdict,
        counts: no_counts(),
        faults: Faults::new(alloc),
    }
}

/// What the report tells of an article before any is checked.
fn start_entry(alloc: Global, a: &Article) -> Entry
    ensures { result ≡ entry_of a.now.name (start_row a.now) }
{
    match a.text {
        None => entry(alloc, a.name, Some(Verdict::Missing)),
        Some(_) => {
            if a.is_cyclic() {
                entry(alloc, a.name, Some(Verdict::Cyclic))
            } else {
                entry(alloc, a.name, None)
            }
        }
    }
}

/// The entry of an accepted article.
fn accepted_entry(alloc: Global, name: Name, counts: Counts) -> Entry
    ensures { result ≡ record { name = name; verdict = Some accepted; counts = counts; faults = [] } }
{
    Entry {
        name,
        verdict: Some(Verdict::Accepted),
        counts,
        faults: Faults::new(alloc),
    }
}

/// The entry of a rejected article.
fn rejected_entry(name: Name, faults: Faults) -> Entry
    ensures { result ≡ record { name = name; verdict = Some rejected; counts = no_counts; faults = faults } }
{
    Entry {
        name,
        verdict: Some(Verdict::Rejected),
        counts: no_counts(),
        faults,
    }
}

fn starts(alloc: Global, articles: &[Article]) -> Result<Vec<Standing>, AllocError>
    ensures { IfOk result (λ v. map start_from v.items ≡ map start_row articles.now) }
{
    let mut out = Vec::new(alloc);
    for a in articles {
        out.push(start(a))?;
    }
    Ok(out)
}

fn start_entries(alloc: Global, articles: &[Article]) -> Result<Verdicts, AllocError>
    ensures { IfOk result (λ v. v ≡ map start_entry articles.now) }
{
    let mut items = Vec::new(alloc);
    for a in articles {
        items.push(start_entry(alloc, a))?;
    }
    Ok(Verdicts { items })
}

impl Table {
    /// The rows of the corpus before any article is checked.
    pub fn open(alloc: Global, corpus: Arc<Corpus>) -> Result<Table, AllocError>
        ensures corpus { IfOk result (λ t. t.corpus ≡ arc_value corpus) }
        ensures rows { IfOk result (λ t. t.rows ≡ map start_row (arc_value corpus).articles) }
    {
        let links = Links::new(alloc, &corpus)?;
        let standings = starts(alloc, corpus.articles())?;
        let verdicts = start_entries(alloc, corpus.articles())?;
        let library = built_in(alloc)?;
        Ok(Table {
            alloc,
            corpus,
            links,
            standings,
            verdicts,
            library,
        })
    }

    /// The corpus.
    pub fn corpus(&self) -> &Arc<Corpus>
        ensures { arc_value result.now ≡ self.now.corpus }
    {
        &self.corpus
    }

    /// What the report tells of each row.
    pub fn verdicts(&self) -> &Verdicts
        ensures { result.now ≡ entries_of self.now.corpus.articles self.now.rows }
    {
        &self.verdicts
    }

    /// The built-in exports and those of the accepted rows.
    pub fn library(&self) -> &Exports
        ensures { result.now ≡ library_of self.now.rows }
    {
        &self.library
    }

    /// How many rows there are: one for each article.
    #[tactic(auto, using(crate::proofs::StandingLemmas::length_rules))]
    pub fn len(&self) -> usize
        ensures rows { result ≡ length self.now.rows }
        ensures articles { result ≡ length self.now.corpus.articles }
    {
        self.standings.len()
    }

    /// How the article of the row stands.
    pub fn standing(&self, row: usize) -> &Standing
        requires { row < length self.now.rows }
        ensures { IsRowOf result.now (row_at self.now.rows row) }
    {
        standing_in(self.standings.as_slice(), row)
    }

    /// The state of the row, waiting where there is none.
    pub fn state(&self, row: usize) -> RowState
        ensures { result ≡ state_of (row_at self.now.rows row) }
    {
        state_in(self.standings.as_slice(), row)
    }

    /// Whether the row is settled.
    #[tactic(auto, using(crate::proofs::StandingLemmas::state_rules))]
    pub fn is_settled(&self, row: usize) -> bool
        ensures { result ≡ is_settled (row_at self.now.rows row) }
    {
        self.state(row).is_settled()
    }

    /// Whether the row waits.
    #[tactic(auto, using(crate::proofs::StandingLemmas::state_rules))]
    pub fn is_waiting(&self, row: usize) -> bool
        ensures { result ≡ is_waiting (row_at self.now.rows row) }
    {
        self.state(row).is_waiting()
    }

    /// Whether the row is claimed.
    #[tactic(auto, using(crate::proofs::StandingLemmas::state_rules))]
    pub fn is_claimed(&self, row: usize) -> bool
        ensures { result ≡ is_claimed (row_at self.now.rows row) }
    {
        self.state(row).is_claimed()
    }

    /// Whether the row is accepted.
    #[tactic(auto, using(crate::proofs::StandingLemmas::state_rules))]
    pub fn is_accepted(&self, row: usize) -> bool
        ensures { result ≡ is_accepted (row_at self.now.rows row) }
    {
        self.state(row).is_accepted()
    }

    /// The rows of the direct dependencies of the article of the row.
    pub fn direct(&self, row: usize) -> &[usize]
        requires { row < length self.now.corpus.articles }
        ensures { (a : Article) → slice_get self.now.corpus.articles row ≡ Some a → result.now ≡ direct_rows self.now.corpus.articles a }
    {
        self.links.items[row].items.as_slice()
    }

    /// A worker claims a row that waits.
    pub fn claim(&mut self, row: usize, worker: u32)
        requires within { row < length self.old.corpus.articles }
        requires waits { row_at self.old.rows row ≡ Waiting }
        ensures corpus { self.new.corpus ≡ self.old.corpus }
        ensures rows { self.new.rows ≡ slice_set self.old.rows row (Claimed worker) }
    {
        put(&mut self.standings, row, Standing::Claimed(worker));
    }

    /// A row that waits is blocked by the article with this name.
    pub fn block(&mut self, row: usize, name: Name)
        requires within { row < length self.old.corpus.articles }
        requires waits { row_at self.old.rows row ≡ Waiting }
        ensures corpus { self.new.corpus ≡ self.old.corpus }
        ensures rows { self.new.rows ≡ slice_set self.old.rows row (Blocked name) }
    {
        let own = self.corpus.get(row).name;
        let told = entry(self.alloc, own, Some(Verdict::Blocked(name)));
        put(&mut self.standings, row, Standing::Blocked(name));
        put_entry(&mut self.verdicts, row, told);
    }

    /// A row that isn't settled is accepted with an export. It is handed in twice, for the row and for the
    /// library, so that no memory is taken.
    pub fn accept(&mut self, row: usize, export: Arc<Export>, shared: Arc<Export>, counts: Counts)
        requires within { row < length self.old.corpus.articles }
        requires unsettled { is_settled (row_at self.old.rows row) ≡ false }
        requires fresh { IsFreshIn self.old.rows (arc_value export) }
        requires same { arc_value shared ≡ arc_value export }
        requires counted { counts ≡ counts_of (arc_value export).items }
        ensures corpus { self.new.corpus ≡ self.old.corpus }
        ensures rows { self.new.rows ≡ slice_set self.old.rows row (Accepted (arc_value export)) }
    {
        self.corpus.law();
        let name = self.corpus.get(row).name;
        let told = accepted_entry(self.alloc, name, counts);
        put(&mut self.standings, row, Standing::Accepted(export));
        put_entry(&mut self.verdicts, row, told);
        add_export(&mut self.library, shared);
    }

    /// A row that isn't settled is rejected with faults.
    pub fn reject(&mut self, row: usize, faults: Faults)
        requires within { row < length self.old.corpus.articles }
        requires unsettled { is_settled (row_at self.old.rows row) ≡ false }
        ensures corpus { self.new.corpus ≡ self.old.corpus }
        ensures rows { self.new.rows ≡ slice_set self.old.rows row (Rejected faults) }
    {
        let name = self.corpus.get(row).name;
        let told = rejected_entry(name, faults);
        put(&mut self.standings, row, Standing::Rejected);
        put_entry(&mut self.verdicts, row, told);
    }

    /// Every claim is taken away.
    pub fn free_all(&mut self)
        ensures corpus { self.new.corpus ≡ self.old.corpus }
        ensures rows { self.new.rows ≡ map freed self.old.rows }
    {
        free_all(&mut self.standings);
    }
}

fn standing_in(standings: &[Standing], row: usize) -> &Standing
    requires { row < length standings.now }
    ensures { slice_get standings.now row ≡ Some result.now }
{
    &standings[row]
}

fn state_in(standings: &[Standing], row: usize) -> RowState
    ensures { result ≡ standing_state (standing_at standings.now row) }
{
    if row < standings.len() {
        standings[row].state()
    } else {
        RowState::Waiting
    }
}

/// Puts a standing.
fn put(standings: &mut Vec<Standing>, row: usize, standing: Standing)
    requires { row < length standings.old.items }
    ensures { standings.new.items ≡ slice_set standings.old.items row standing }
{
    standings[row] = standing;
}

/// Puts an entry.
fn put_entry(verdicts: &mut Verdicts, row: usize, entry: Entry)
    requires { row < length verdicts.old }
    ensures { verdicts.new ≡ slice_set verdicts.old row entry }
{
    verdicts.items[row] = entry;
}

/// Adds an export to a library.
fn add_export(library: &mut Exports, export: Arc<Export>)
    requires { length library.old < 515 }
    ensures { library.new ≡ added (arc_value export) library.old }
{
    library.insert(export);
}

/// Whether the standing is a claim.
fn is_claimed_at(standings: &Vec<Standing>, row: usize) -> bool
    requires { row < length standings.now.items }
    ensures { result ≡ is_claimed_state (standing_state (standing_at standings.now.items row)) }
{
    standings[row].state().is_claimed()
}

/// Takes every claim away.
fn free_all(standings: &mut Vec<Standing>)
    ensures { standings.new.items ≡ map standing_freed standings.old.items }
{
    for i in 0..standings.len() {
        if is_claimed_at(&*standings, i) {
            put(&mut *standings, i, Standing::Waiting);
        }
    }
}
