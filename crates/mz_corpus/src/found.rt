//! Vocabularies that were found.
ghost use Rattle.std.specs.Prelude.{◌≡◌, ◌++◌, IfOk, OnOk};
ghost use Rattle.std.specs.Option.{option_copied};
ghost use Rattle.mz_corpus.specs.Found.{is_text_of, text_with, with_bytes, found_by, found_list, found_in};

use crate::ascending::ascending;
use mz_base::name::Name;
use mz_base::names::Names;
use mz_base::vocabularies::{Vocabularies, VocabularyText};
use std::alloc::{AllocError, Global};
use std::sync::Arc;

fn is_text_of(name: &Name, vocabulary: &VocabularyText) -> bool
    ensures { result ≡ is_text_of name.now vocabulary.now }
{
    name.number() == vocabulary.name.number()
}

fn text_with<'a>(all: &'a [VocabularyText], name: &Name) -> Option<&'a VocabularyText>
    ensures { option_copied result ≡ text_with all.now name.now }
{
    all.iter().find(|v| is_text_of(name, v))
}

/// The same vocabulary, with its bytes shared, where it has some.
fn shared(vocabulary: &VocabularyText) -> Result<Option<VocabularyText>, AllocError>
    ensures { IfOk result (λ v. v ≡ with_bytes vocabulary.now) }
{
    match &vocabulary.text {
        Some(text) => {
            let text = Arc::clone(text)?;
            Ok(Some(VocabularyText {
                name: vocabulary.name,
                text: Some(text),
            }))
        }
        None => Ok(None),
    }
}

/// The vocabulary of the name, where there is one with a text.
fn found_by(all: &[VocabularyText], name: &Name) -> Result<Option<VocabularyText>, AllocError>
    ensures { IfOk result (λ v. v ≡ found_by all.now name.now) }
{
    match text_with(all, name) {
        Some(vocabulary) => shared(vocabulary),
        None => Ok(None),
    }
}

fn add_found(
    items: &mut Vec<VocabularyText>,
    all: &[VocabularyText],
    name: &Name,
) -> Result<(), AllocError>
    ensures { OnOk result (items.new.items ≡ items.old.items ++ found_list all.now name.now) }
{
    match found_by(all, name)? {
        Some(vocabulary) => {
            items.push(vocabulary)?;
            Ok(())
        }
        None => Ok(()),
    }
}

/// Those of the vocabularies with these names that have a text, in the order of names.
pub fn found_in(
    alloc: Global,
    all: &Vocabularies,
    names: &Names,
) -> Result<Vocabularies, AllocError>
    ensures { IfOk result (λ found. found ≡ found_in all.now names.now) }
{
    let sorted = ascending(alloc, names.as_slice())?;
    let mut items = Vec::new(alloc);
    for name in &sorted.items {
        add_found(&mut items, all.items.as_slice(), name)?;
    }
    Ok(Vocabularies { items })
}
