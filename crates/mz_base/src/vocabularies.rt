//! Vocabularies: their names and texts.
ghost use Rattle.std.specs.Prelude.{◌≡◌};
ghost use Rattle.std.specs.Option.{option_copied};

use crate::name::Name;
use crate::text::Text;
use std::marker::Model;
use std::sync::Arc;

/// A vocabulary's name and its bytes, shared, or none where there is no such vocabulary.
#[derive(Drop)]
pub struct VocabularyText {
    pub name: Name,
    pub text: Option<Arc<Text>>,
}

impl Model for VocabularyText {
    ghost use Rattle.std.specs.Option.{option_map};
    ghost use Rattle.std.specs.Arc.{arc_value};
    ghost use Rattle.mz_base.specs.NamedText.{NamedText};

    ghost Value = { NamedText };

    ghost view = { λ a. record { name = a.name; text = option_map arc_value a.text } };
}

impl VocabularyText {
    /// The name.
    pub fn name(&self) -> Name
        ensures { result ≡ self.now.name }
    {
        self.name
    }

    /// The bytes, or none where there is no such vocabulary.
    pub fn text(&self) -> Option<&Text>
        ensures { option_copied result ≡ self.now.text }
    {
        match &self.text {
            Some(text) => Some(&**text),
            None => None,
        }
    }
}

/// Vocabularies by name. The first entry of a name counts.
#[derive(Drop)]
pub struct Vocabularies {
    pub items: Vec<VocabularyText>,
}

impl Model for Vocabularies {
    ghost use Rattle.std.specs.Prelude.{List};
    ghost use Rattle.mz_base.specs.declared.vocabularies.VocabularyText.{VocabularyText};

    ghost Value = { List VocabularyText };

    ghost view = { λ a. a.items.items };
}
