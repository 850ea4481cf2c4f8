//! What was fetched for an article.
ghost use Rattle.std.specs.Prelude.{◌≡◌, ◌++◌, ◌∷◌, [], length, OnOk, OnErr};

use mz_base::name::Name;
use mz_base::names::Names;
use mz_base::text::Text;
use std::alloc::{AllocError, Global};
use std::marker::Model;
use std::sync::Arc;

/// What was fetched for an article: its text, or that there is none, and what its environment part names.
#[derive(Drop)]
pub struct Source {
    pub name: Name,
    /// The text, shared; none where there is no such text.
    pub text: Option<Arc<Text>>,
    /// The names of its direct dependencies, in the order of the text.
    pub dependencies: Names,
    /// The names of its vocabularies, in the order of the text.
    pub vocabulary_names: Names,
}

impl Model for Source {
    ghost use Rattle.std.specs.Option.{option_map};
    ghost use Rattle.std.specs.Arc.{arc_value};
    ghost use Rattle.mz_corpus.specs.Source.{Source as SourceValue};

    ghost Value = { SourceValue };

    ghost view = { λ a. record { name = a.name; text = option_map arc_value a.text; dependencies = a.dependencies; vocabulary_names = a.vocabulary_names } };
}

/// What was fetched for some articles, in the order of gathering.
#[derive(Drop)]
pub struct Sources {
    pub items: Vec<Source>,
}

impl Model for Sources {
    ghost use Rattle.std.specs.Prelude.{List};
    ghost use Rattle.mz_corpus.specs.Source.{Source as SourceValue};

    ghost Value = { List SourceValue };

    ghost view = { λ a. a.items.items };
}

impl Sources {
    /// An empty list, which takes no memory yet.
    pub fn new(alloc: Global) -> Sources
        ensures { result ≡ [] }
    {
        Sources {
            items: Vec::new(alloc),
        }
    }

    /// How many there are.
    pub fn len(&self) -> usize
        ensures { result ≡ length self.now }
    {
        self.items.len()
    }

    /// Adds one at the end.
    pub fn push(&mut self, source: Source) -> Result<(), AllocError>
        ensures ok { OnOk result (self.new ≡ self.old ++ source ∷ []) }
        ensures err { OnErr result (self.new ≡ self.old) }
    {
        self.items.push(source)?;
        Ok(())
    }
}
