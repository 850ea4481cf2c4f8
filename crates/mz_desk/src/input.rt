//! What goes into a job, and why a result is refused.
ghost use Rattle.std.specs.Prelude.{◌≡◌, ◌<◌, ◌↔◌, List, length, Some, None, map, IfOk, IsTrue, MatchOption};
ghost use Rattle.std.specs.List.{filter};
ghost use Rattle.std.specs.Arc.{arc_value};
ghost use Rattle.mz_corpus.specs.Corpus.{IsAscending};
ghost use Rattle.mz_turns.specs.Row.{Row};
ghost use Rattle.mz_turns.specs.Library.{library_of, is_used_by};
ghost use Rattle.mz_axioms.specs.Library.{AreInOrder};
ghost use Rattle.mz_desk.specs.Desk.{HasText, IsJobOf, IsInputOf, IsClaimedFor, DiffersIn, Stands, Strays};
ghost use Rattle.mz_desk.specs.Difference.{AreRising, AreTexts, number_of_export};

use crate::differences::{exports_differ, is_used_by, vocabularies_differ};
use crate::job::{Job, Why};
use mz_axioms::exports::Exports;
use mz_base::text::Text;
use mz_base::vocabularies::{Vocabularies, VocabularyText};
use mz_core::outcome::Export;
use mz_corpus::article::Article;
use mz_rows::links::place_of;
use mz_rows::table::Table;
use std::alloc::{AllocError, Global};
use std::sync::Arc;

/// Another owner of the vocabulary.
fn shared(v: &VocabularyText) -> Result<VocabularyText, AllocError>
    ensures { IfOk result (λ w. w ≡ v.now) }
{
    match &v.text {
        None => Ok(VocabularyText {
            name: v.name,
            text: None,
        }),
        Some(text) => {
            let text = Arc::try_clone(text)?;
            Ok(VocabularyText {
                name: v.name,
                text: Some(text),
            })
        }
    }
}

/// Vocabularies with the same bytes.
fn vocabularies_of(
    alloc: Global,
    vocabularies: &[VocabularyText],
) -> Result<Vocabularies, AllocError>
    ensures { IfOk result (λ vs. vs ≡ vocabularies.now) }
{
    let mut items = Vec::new(alloc);
    for v in vocabularies {
        let v = shared(v)?;
        items.push(v)?;
    }
    Ok(Vocabularies { items })
}

/// The exports of the library from which the article is checked.
fn environment_of(
    alloc: Global,
    article: &Article,
    library: &[Arc<Export>],
) -> Result<Exports, AllocError>
    requires { IsAscending article.now.reach }
    ensures { IfOk result (λ es. es ≡ filter (is_used_by article.now) (map arc_value library.now)) }
{
    let mut out = Exports::new(alloc)?;
    for export in library {
        if is_used_by(article, export) {
            out.push(Arc::try_clone(export)?)?;
        }
    }
    Ok(out)
}

/// The job of a row.
fn job_from(
    alloc: Global,
    article: &Article,
    library: &[Arc<Export>],
    row: u32,
    worker: u32,
    text: Arc<Text>,
) -> Result<Job, AllocError>
    requires vocabularies { AreTexts article.now.vocabularies }
    requires reach { IsAscending article.now.reach }
    requires library { AreRising number_of_export (filter (is_used_by article.now) (map arc_value library.now)) }
    ensures row { IfOk result (λ j. (j.row ≡ row) × (j.worker ≡ worker) × (j.name ≡ article.now.name)) }
    ensures input { IfOk result (λ j. (j.text ≡ arc_value text) × (j.vocabularies ≡ article.now.vocabularies) × (j.exports ≡ filter (is_used_by article.now) (map arc_value library.now))) }
{
    let vocabularies = vocabularies_of(alloc, article.vocabularies.items.as_slice())?;
    let exports = environment_of(alloc, article, library)?;
    Ok(Job {
        row,
        worker,
        name: article.name,
        text,
        vocabularies,
        exports,
    })
}

/// The job of a row whose article has a text.
pub fn job_of(alloc: Global, table: &Table, row: usize, worker: u32) -> Result<Job, AllocError>
    requires within { row < length table.now.corpus.articles }
    requires text { HasText table.now.corpus.articles row }
    requires order { AreInOrder (library_of table.now.rows) }
    ensures { IfOk result (λ j. IsJobOf table.now.corpus.articles table.now.rows row worker j) }
{
    table.corpus().law();
    let article = table.corpus().get(row);
    match &article.text {
        None => unreachable!(),
        Some(text) => {
            let text = Arc::try_clone(text)?;
            let library = table.library().as_slice();
            job_from(alloc, article, library, row as u32, worker, text)
        }
    }
}

/// Whether the article has these bytes.
fn has_text(article: &Article, bytes: &[u8]) -> bool
    ensures { IsTrue result ↔ (article.now.text ≡ Some bytes.now) }
{
    match &article.text {
        None => false,
        Some(text) => text.as_slice() == bytes,
    }
}

/// The first part of the job's input that isn't the article's own.
fn differing_input(article: &Article, library: &[Arc<Export>], job: &Job) -> Option<Why>
    requires vocabularies { AreTexts article.now.vocabularies }
    requires reach { IsAscending article.now.reach }
    requires library { AreRising number_of_export (filter (is_used_by article.now) (map arc_value library.now)) }
    ensures { (rows : List Row) → map arc_value library.now ≡ library_of rows → MatchOption result (IsInputOf rows article.now job.now) (λ why. DiffersIn rows article.now job.now why) }
{
    if !has_text(article, job.text.as_slice()) {
        return Some(Why::Text);
    }
    let own = article.vocabularies.items.as_slice();
    if let Some(name) = vocabularies_differ(own, job.vocabularies.items.as_slice()) {
        return Some(Why::Vocabulary { name });
    }
    match exports_differ(article, library, job.exports.as_slice()) {
        Some(name) => Some(Why::Export { name }),
        None => None,
    }
}

/// Why the row of a job's name isn't claimed by its worker.
pub fn not_claimed(table: &Table, job: &Job) -> Option<Why>
    ensures { MatchOption result (IsClaimedFor table.now.corpus.articles table.now.rows job.now) (λ why. Strays table.now.corpus.articles table.now.rows job.now why) }
{
    table.corpus().law();
    let row = place_of(table.corpus().articles(), &job.name);
    if row >= table.len() {
        return Some(Why::NotClaimed(None));
    }
    let state = table.state(row);
    if state.is_claimed_by(job.worker) {
        None
    } else {
        Some(Why::NotClaimed(Some(state)))
    }
}

/// Why the input of a claimed job isn't its article's own.
fn why_stale(table: &Table, job: &Job) -> Option<Why>
    requires claimed { IsClaimedFor table.now.corpus.articles table.now.rows job.now }
    requires order { AreInOrder (library_of table.now.rows) }
    ensures { MatchOption result (Stands table.now.corpus.articles table.now.rows job.now) (λ why. Strays table.now.corpus.articles table.now.rows job.now why) }
{
    table.corpus().law();
    let row = place_of(table.corpus().articles(), &job.name);
    differing_input(table.corpus().get(row), table.library().as_slice(), job)
}

/// Why a result doesn't stand.
pub fn why_not(table: &Table, job: &Job) -> Option<Why>
    requires order { AreInOrder (library_of table.now.rows) }
    ensures { MatchOption result (Stands table.now.corpus.articles table.now.rows job.now) (λ why. Strays table.now.corpus.articles table.now.rows job.now why) }
{
    match not_claimed(table, job) {
        Some(why) => Some(why),
        None => why_stale(table, job),
    }
}
