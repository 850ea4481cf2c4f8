//! Articles of a corpus.
ghost use Rattle.std.specs.Prelude.{◌≡◌};

use mz_base::name::Name;
use mz_base::names::Names;
use mz_base::text::Text;
use mz_base::vocabularies::Vocabularies;
use std::marker::Model;
use std::sync::Arc;

/// An article of a corpus: what was fetched for it, and what it depends on.
#[derive(Drop)]
pub struct Article {
    pub name: Name,
    /// The text, shared; none where there is no such text.
    pub text: Option<Arc<Text>>,
    /// The names of its direct dependencies, in the order of the text. Built-in names may be among them.
    pub dependencies: Names,
    /// The names of its vocabularies, in the order of the text.
    pub vocabulary_names: Names,
    /// Its direct dependencies without built-in names, in the order of names.
    pub direct: Names,
    /// All articles on which it depends, directly or by others, in the order of names.
    pub reach: Names,
    /// Those of its vocabularies that were found, in the order of names.
    pub vocabularies: Vocabularies,
}

impl Model for Article {
    ghost use Rattle.std.specs.Option.{option_map};
    ghost use Rattle.std.specs.Arc.{arc_value};
    ghost use Rattle.mz_corpus.specs.Article.{Article as ArticleValue};

    ghost Value = { ArticleValue };

    ghost view = { λ a. record { name = a.name; text = option_map arc_value a.text; dependencies = a.dependencies; vocabulary_names = a.vocabulary_names; direct = a.direct; reach = a.reach; vocabularies = a.vocabularies } };
}

impl Article {
    ghost use Rattle.mz_corpus.specs.Article.{is_cyclic};

    /// Whether it is among its own dependencies.
    pub fn is_cyclic(&self) -> bool
        ensures { result ≡ is_cyclic self.now }
    {
        self.reach
            .items
            .iter()
            .any(|name| self.name.number() == name.number())
    }
}
