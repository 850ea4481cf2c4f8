//! Corpora.
ghost use Rattle.std.specs.Prelude.{◌≡◌, ◌<◌, ◌≤◌, ◌↔◌, [], length, Some, slice_get, IsTrue};
ghost use Rattle.mz_corpus.specs.Corpus.{IsCorpus};

use crate::article::Article;
use mz_base::vocabularies::Vocabularies;
use std::marker::Model;

/// Articles, in the order of gathering, and the vocabularies that they name.
///
/// There are at most 512 articles. Their names are distinct and not built in, and each direct dependency is built in or
/// one of them.
#[derive(Drop)]
pub struct Corpus {
    pub(crate) articles: Vec<Article>,
    pub(crate) vocabularies: Vocabularies,
}

impl Model for Corpus {
    ghost use Rattle.mz_corpus.specs.Corpus.{Corpus as CorpusValue, IsCorpus};

    ghost Value = { CorpusValue };

    ghost view = { λ a. record { articles = a.articles.items; vocabularies = a.vocabularies } };

    ghost invariant = { λ a. IsCorpus (record { articles = a.articles.items; vocabularies = a.vocabularies }) };
}

impl Corpus {
    /// How many articles there are.
    pub fn len(&self) -> usize
        ensures count { result ≡ length self.now.articles }
        ensures few { result ≤ 512 }
    {
        self.articles.len()
    }

    /// Whether there is no article.
    pub fn is_empty(&self) -> bool
        ensures { IsTrue result ↔ (self.now.articles ≡ []) }
    {
        self.articles.is_empty()
    }

    /// The article at a place in the order of gathering, from 0.
    pub fn get(&self, row: usize) -> &Article
        requires { row < length self.now.articles }
        ensures { slice_get self.now.articles row ≡ Some result.now }
    {
        &self.articles[row]
    }

    /// The articles, in the order of gathering.
    pub fn articles(&self) -> &[Article]
        ensures { result.now ≡ self.now.articles }
    {
        self.articles.as_slice()
    }

    /// The vocabularies, in the order in which they were fetched.
    pub fn vocabularies(&self) -> &Vocabularies
        ensures { result.now ≡ self.now.vocabularies }
    {
        &self.vocabularies
    }

    /// What each corpus keeps.
    pub fn law(&self)
        ensures { IsCorpus self.now }
    {
        let _articles = &self.articles;
    }
}
