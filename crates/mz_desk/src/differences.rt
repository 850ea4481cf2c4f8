//! Where vocabularies, or exports, differ first in the order of names.
ghost use Rattle.std.specs.Prelude.{◌≡◌, ◌↔◌, map, MatchOption, IsTrue};
ghost use Rattle.std.specs.Arc.{arc_value};
ghost use Rattle.std.specs.List.{filter};
ghost use Rattle.mz_corpus.specs.Corpus.{IsAscending};
ghost use Rattle.mz_corpus.specs.Names.{is_among};
ghost use Rattle.mz_turns.specs.Library.{is_used_by};
ghost use Rattle.mz_desk.specs.Difference.{text_named, export_named, number_of_export, IsFirstDifference, AreRising, AreTexts};

use mz_base::name::Name;
use mz_base::vocabularies::VocabularyText;
use mz_compare::items::export_equal;
use mz_core::outcome::Export;
use mz_corpus::article::Article;
use std::sync::Arc;

/// Whether the bytes of two vocabularies are the same.
fn is_same_text(v: &VocabularyText, w: &VocabularyText) -> bool
    ensures { IsTrue result ↔ (v.now.text ≡ w.now.text) }
{
    match v.text() {
        None => w.text().is_none(),
        Some(bytes) => match w.text() {
            None => false,
            Some(others) => bytes.as_slice() == others.as_slice(),
        },
    }
}

/// The first name, in the order of names, at which vocabularies differ.
pub fn vocabularies_differ(own: &[VocabularyText], others: &[VocabularyText]) -> Option<Name>
    requires own { AreTexts own.now }
    requires others { AreTexts others.now }
    ensures { MatchOption result (own.now ≡ others.now) (λ n. IsFirstDifference (text_named own.now) (text_named others.now) n.number) }
{
    match own.split_first() {
        None => match others.split_first() {
            None => None,
            Some((w, _)) => Some(w.name()),
        },
        Some((v, rest)) => match others.split_first() {
            None => Some(v.name()),
            Some((w, more)) => {
                if v.name().number < w.name().number {
                    Some(v.name())
                } else if w.name().number < v.name().number {
                    Some(w.name())
                } else if is_same_text(v, w) {
                    vocabularies_differ(rest, more)
                } else {
                    Some(v.name())
                }
            }
        },
    }
}

/// Whether the name is among these, which are in the order of names.
fn has_ascending(names: &[Name], name: &Name) -> bool
    requires { IsAscending names.now }
    ensures { result ≡ is_among names.now name.now }
{
    names
        .binary_search_by_key(
            &name.number,
            |other: &Name| -> u64
                ensures { result ≡ other.now.number }
            { other.number },
        )
        .is_ok()
}

/// Whether the article is checked from the export: it is built in, or that of a dependency.
pub fn is_used_by(article: &Article, export: &Export) -> bool
    requires { IsAscending article.now.reach }
    ensures { result ≡ is_used_by article.now export.now }
{
    export.name.is_built_in() || has_ascending(article.reach.as_slice(), &export.name)
}

/// The first name, in the order of names, at which exports differ from those of a library from which the
/// article is checked.
pub fn exports_differ(
    article: &Article,
    library: &[Arc<Export>],
    others: &[Arc<Export>],
) -> Option<Name>
    requires reach { IsAscending article.now.reach }
    requires own { AreRising number_of_export (filter (is_used_by article.now) (map arc_value library.now)) }
    requires others { AreRising number_of_export (map arc_value others.now) }
    ensures { MatchOption result (filter (is_used_by article.now) (map arc_value library.now) ≡ map arc_value others.now) (λ n. IsFirstDifference (export_named (filter (is_used_by article.now) (map arc_value library.now))) (export_named (map arc_value others.now)) n.number) }
{
    match library.split_first() {
        None => match others.split_first() {
            None => None,
            Some((f, _)) => Some(f.name),
        },
        Some((e, rest)) => {
            if !is_used_by(article, e) {
                return exports_differ(article, rest, others);
            }
            match others.split_first() {
                None => Some(e.name),
                Some((f, more)) => {
                    if e.name.number < f.name.number {
                        Some(e.name)
                    } else if f.name.number < e.name.number {
                        Some(f.name)
                    } else if export_equal(e, f) {
                        exports_differ(article, rest, more)
                    } else {
                        Some(e.name)
                    }
                }
            }
        }
    }
}
