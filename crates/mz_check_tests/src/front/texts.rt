//! Texts with their vocabularies and the exports that they may use, and what is told of them.
use mz_axioms::built_in::built_in;
use mz_axioms::exports::Exports;
use mz_base::name::Name;
use mz_base::names::Names;
use mz_base::text::Text;
use mz_base::vocabularies::{Vocabularies, VocabularyText};
use mz_core::item::Item;
use mz_core::items::Items;
use mz_core::notations::Notations;
use mz_core::outcome::Export;
use mz_core::statement::Statement;
use mz_front::front::end;
use mz_front::front_fault::FrontFault;
use mz_front::stages::front;
use mz_item_samples::items::{ItemRow, item};
use std::alloc::Global;
use std::process::Abort;
use std::sync::Arc;

/// A fault: its line and column, its code and its number, 0 where it has none.
pub type Told = (u64, u64, u64, u64);

/// A text whose items can be read.
pub const READ: Told = (0, 0, 0, 0);

fn name(rt: &impl Abort, word: &[u8]) -> Name {
    Name::read(word).expect(rt, "a name")
}

fn push(
    rt: &impl Abort,
    alloc: Global,
    word: &[u8],
    text: Option<&[u8]>,
    items: &mut Vec<VocabularyText>,
) {
    if let Some(bytes) = text {
        let text = Text::from_slice(alloc, bytes).expect(rt, "memory");
        items
            .push(VocabularyText {
                name: name(rt, word),
                text: Some(Arc::new(alloc, text).expect(rt, "memory")),
            })
            .expect(rt, "memory");
    }
}

/// The vocabularies V and W, where they are there.
fn vocabularies(
    rt: &impl Abort,
    alloc: Global,
    v: Option<&[u8]>,
    w: Option<&[u8]>,
) -> Vocabularies {
    let mut items = Vec::new(alloc);
    push(rt, alloc, b"V", v, &mut items);
    push(rt, alloc, b"W", w, &mut items);
    Vocabularies { items }
}

/// The definition of a predicate without sides, by P.
const PREDICATE: ItemRow = ItemRow::Predicate("P.R1", ("##", &[], &[], &[]), "true");

/// The built-in exports, and P with a theorem and a predicate.
pub fn exports(rt: &impl Abort, alloc: Global) -> Exports {
    let mut items = Items::new(alloc);
    items
        .push(Item::Theorem(Statement::truth()))
        .expect(rt, "memory");
    let predicate = item(alloc, PREDICATE).expect(rt, "an item");
    items.push(predicate).expect(rt, "memory");
    let export = Export {
        name: name(rt, b"P"),
        dependencies: Names::new(alloc),
        items,
        notations: Notations::new(alloc),
    };
    let mut all = built_in(alloc).expect(rt, "memory");
    all.push(Arc::new(alloc, export).expect(rt, "memory"))
        .expect(rt, "memory");
    all
}

/// What is told of the text with the vocabularies V and W, where they are there.
pub fn told(
    rt: &impl Abort,
    alloc: Global,
    exports: &Exports,
    text: &[u8],
    v: Option<&[u8]>,
    w: Option<&[u8]>,
) -> Told {
    let all = vocabularies(rt, alloc, v, w);
    match front(alloc, &all, exports, text) {
        Ok(x) => {
            end(x);
            READ
        }
        Err(FrontFault::Refused(fault)) => (
            fault.place.line,
            fault.place.column,
            fault.code.code(),
            fault.number.unwrap_or(0),
        ),
        Err(FrontFault::Memory) => panic!(rt; "memory"),
    }
}
