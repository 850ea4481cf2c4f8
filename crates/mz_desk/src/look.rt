//! What a desk tells of an article.
ghost use Rattle.std.specs.Prelude.{◌≡◌, ℕ, true, map, Some, slice_get, Contains, MatchOption};
ghost use Rattle.std.specs.Arc.{arc_value};
ghost use Rattle.mz_base.specs.Name.{is_built_in};
ghost use Rattle.mz_core.specs.declared.outcome.Export.{Export};
ghost use Rattle.mz_corpus.specs.Article.{Article};
ghost use Rattle.mz_corpus.specs.Corpus.{names_of};
ghost use Rattle.mz_axioms.specs.Library.{Sound};
ghost use Rattle.mz_turns.specs.Row.{Row, row_at};
ghost use Rattle.mz_rows.specs.Standing.{IsRowOf};
ghost use Rattle.mz_desk.specs.Look.{Tells, TellsExport, IsUnknown};

use mz_base::name::Name;
use mz_core::outcome::Export;
use mz_rows::links::place_of;
use mz_rows::standing::Standing;
use mz_rows::table::Table;
use std::sync::Arc;

/// How an article stands, with the export of an accepted one.
#[derive(Clone, Copy)]
pub enum Look<'a> {
    Accepted(&'a Arc<Export>),
    Rejected,
    /// By the first of its direct dependencies, in the order of names, that isn't accepted.
    Blocked(Name),
    Cyclic,
    Missing,
    /// It is waiting or claimed.
    NotYet,
    /// It isn't built in and has no row.
    Unknown,
}

/// The first export with the name.
fn export_of<'a>(exports: &'a [Arc<Export>], name: &Name) -> Option<&'a Arc<Export>>
    ensures { MatchOption result ((e : Export) → Contains (map arc_value exports.now) e → e.name.number ≡ name.now.number → ⊥) (λ e. Contains (map arc_value exports.now) (arc_value e.now) × ((arc_value e.now).name.number ≡ name.now.number)) }
{
    match exports.split_first() {
        None => None,
        Some((e, rest)) => {
            if e.name.number == name.number {
                Some(e)
            } else {
                export_of(rest, name)
            }
        }
    }
}

/// A built-in article, which is accepted: a sound library has its export.
pub(crate) fn built_in_look<'a>(library: &'a [Arc<Export>], name: &Name) -> Look<'a>
    requires sound { Sound (map arc_value library.now) }
    requires built_in { is_built_in name.now.number ≡ true }
    ensures { TellsExport (map arc_value library.now) name.now result }
{
    match export_of(library, name) {
        Some(export) => Look::Accepted(export),
        None => Look::Unknown,
    }
}

/// What is told of a row.
fn look_of<'a>(standing: &'a Standing) -> Look<'a>
    ensures { (x : Row) → IsRowOf standing.now x → Tells x result }
{
    match standing {
        Standing::Waiting => Look::NotYet,
        Standing::Claimed(_) => Look::NotYet,
        Standing::Accepted(export) => Look::Accepted(export),
        Standing::Rejected => Look::Rejected,
        Standing::Blocked(name) => Look::Blocked(*name),
        Standing::Cyclic => Look::Cyclic,
        Standing::Missing => Look::Missing,
    }
}

/// The article of the name, by its row.
pub(crate) fn look_in<'a>(table: &'a Table, name: &Name) -> Look<'a>
    ensures row { (r : ℕ) (a : Article) → slice_get table.now.corpus.articles r ≡ Some a → a.name ≡ name.now → Tells (row_at table.now.rows r) result }
    ensures unknown { (Contains (names_of table.now.corpus.articles) name.now → ⊥) → IsUnknown result }
{
    table.corpus().law();
    let row = place_of(table.corpus().articles(), name);
    if row < table.len() {
        look_of(table.standing(row))
    } else {
        Look::Unknown
    }
}
