//! Vocabularies.
use mz_base::symbol_kind::SymbolKind;
use mz_base::text::Text;
use std::marker::Model;

/// A symbol of a vocabulary.
#[derive(Debug, Drop)]
pub struct Entry {
    pub kind: SymbolKind,
    pub spelling: Text,
    /// The priority, 64 where none is written.
    pub priority: u8,
}

/// The entries of a vocabulary, in order.
#[derive(Debug, Drop)]
pub struct Vocabulary {
    pub items: Vec<Entry>,
}

impl Model for Vocabulary {
    ghost use Rattle.std.specs.Prelude.{List};
    ghost use Rattle.mz_voc.specs.declared.vocabulary.Entry.{Entry};

    ghost Value = { List Entry };

    ghost view = { λ a. a.items.items };
}
