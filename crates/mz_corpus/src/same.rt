//! Whether two corpora are the same.
ghost use Rattle.std.specs.Prelude.{◌≡◌, ◌↔◌, IsTrue};
ghost use Rattle.std.specs.Option.{option_map};
ghost use Rattle.std.specs.Arc.{arc_value};

use crate::article::Article;
use crate::corpus::Corpus;
use mz_base::name::Name;
use mz_base::text::Text;
use mz_base::vocabularies::VocabularyText;
use std::sync::Arc;

fn is_same_name(a: &Name, b: &Name) -> bool
    ensures { IsTrue result ↔ (a.now ≡ b.now) }
{
    a.number == b.number
}

fn are_same_names(a: &[Name], b: &[Name]) -> bool
    ensures { IsTrue result ↔ (a.now ≡ b.now) }
{
    match a.split_first() {
        None => b.is_empty(),
        Some((x, rest)) => match b.split_first() {
            None => false,
            Some((y, others)) => is_same_name(x, y) && are_same_names(rest, others),
        },
    }
}

fn are_same_bytes(a: &[u8], b: &[u8]) -> bool
    ensures { IsTrue result ↔ (a.now ≡ b.now) }
{
    a == b
}

fn is_same_text(a: &Option<Arc<Text>>, b: &Option<Arc<Text>>) -> bool
    ensures { IsTrue result ↔ (option_map arc_value a.now ≡ option_map arc_value b.now) }
{
    match a {
        Some(a) => match b {
            Some(b) => are_same_bytes(a.as_slice(), b.as_slice()),
            None => false,
        },
        None => match b {
            Some(_) => false,
            None => true,
        },
    }
}

fn is_same_vocabulary(a: &VocabularyText, b: &VocabularyText) -> bool
    ensures { IsTrue result ↔ (a.now ≡ b.now) }
{
    is_same_name(&a.name, &b.name) && is_same_text(&a.text, &b.text)
}

fn are_same_vocabularies(a: &[VocabularyText], b: &[VocabularyText]) -> bool
    ensures { IsTrue result ↔ (a.now ≡ b.now) }
{
    match a.split_first() {
        None => b.is_empty(),
        Some((x, rest)) => match b.split_first() {
            None => false,
            Some((y, others)) => is_same_vocabulary(x, y) && are_same_vocabularies(rest, others),
        },
    }
}

fn is_same_article(a: &Article, b: &Article) -> bool
    ensures { IsTrue result ↔ (a.now ≡ b.now) }
{
    is_same_name(&a.name, &b.name)
        && is_same_text(&a.text, &b.text)
        && are_same_names(a.dependencies.as_slice(), b.dependencies.as_slice())
        && are_same_names(a.vocabulary_names.as_slice(), b.vocabulary_names.as_slice())
        && are_same_names(a.direct.as_slice(), b.direct.as_slice())
        && are_same_names(a.reach.as_slice(), b.reach.as_slice())
        && are_same_vocabularies(
            a.vocabularies.items.as_slice(),
            b.vocabularies.items.as_slice(),
        )
}

fn are_same_articles(a: &[Article], b: &[Article]) -> bool
    ensures { IsTrue result ↔ (a.now ≡ b.now) }
{
    match a.split_first() {
        None => b.is_empty(),
        Some((x, rest)) => match b.split_first() {
            None => false,
            Some((y, others)) => is_same_article(x, y) && are_same_articles(rest, others),
        },
    }
}

impl Corpus {
    /// Whether both are the same.
    pub fn is_same(&self, other: &Corpus) -> bool
        ensures { IsTrue result ↔ (self.now ≡ other.now) }
    {
        are_same_articles(self.articles.as_slice(), other.articles.as_slice())
            && are_same_vocabularies(
                self.vocabularies.items.as_slice(),
                other.vocabularies.items.as_slice(),
            )
    }
}
