//! How many items of each kind an article has.
ghost use Rattle.std.specs.Prelude.{◌≡◌, ◌+◌, IfOk};
ghost use Rattle.mz_rows.specs.Counts.{no_counts, kind_of, one_more, counts_of};

use mz_core::item::Item;
use mz_core::items::Items;
use mz_core::verdict::Counts;
use std::alloc::AllocError;

/// What an item is counted as.
#[derive(Clone, Copy, Debug, PartialEq, Eq)]
pub enum ItemKind {
    Theorem,
    /// A heading other than an abbreviation; a structure and a redefinition are among these.
    Definition,
    Registration,
    Scheme,
    /// It isn't counted.
    Other,
}

/// What the item is counted as.
pub fn kind_of(item: &Item) -> ItemKind
    ensures { result ≡ kind_of item.now }
{
    match item {
        Item::Axiom(_) => ItemKind::Other,
        Item::AxiomScheme(_) => ItemKind::Other,
        Item::Primitive(_) => ItemKind::Other,
        Item::Theorem(_) => ItemKind::Theorem,
        Item::Scheme(_) => ItemKind::Scheme,
        Item::FunctorMeans(_) => ItemKind::Definition,
        Item::FunctorEquals(_) => ItemKind::Definition,
        Item::Predicate(_) => ItemKind::Definition,
        Item::Attribute(_) => ItemKind::Definition,
        Item::ModeMeans(_) => ItemKind::Definition,
        Item::Abbreviation(_) => ItemKind::Other,
        Item::Notation(_) => ItemKind::Other,
        Item::RedefinedFunctor(_) => ItemKind::Definition,
        Item::RedefinedMode(_) => ItemKind::Definition,
        Item::RedefinedPredicate(_) => ItemKind::Definition,
        Item::RedefinedAttribute(_) => ItemKind::Definition,
        Item::Property(_) => ItemKind::Other,
        Item::Existential(_) => ItemKind::Registration,
        Item::Conditional(_) => ItemKind::Registration,
        Item::Functorial(_) => ItemKind::Registration,
        Item::Reduction(_) => ItemKind::Registration,
        Item::Identification(_) => ItemKind::Registration,
        Item::Structure(_) => ItemKind::Definition,
        Item::SetTerm(_) => ItemKind::Other,
        Item::Choice(_) => ItemKind::Other,
    }
}

/// One more, or want of memory where a `u32` has no greater number.
fn next(count: u32) -> Result<u32, AllocError>
    ensures { IfOk result (λ n. n ≡ count + 1) }
{
    count.checked_add(1).ok_or(AllocError)
}

/// The counts with one more of the kind.
fn one_more(counts: Counts, kind: ItemKind) -> Result<Counts, AllocError>
    ensures { IfOk result (λ c. c ≡ one_more counts kind) }
{
    let mut more = counts;
    match kind {
        ItemKind::Theorem => more.theorems = next(counts.theorems)?,
        ItemKind::Definition => more.definitions = next(counts.definitions)?,
        ItemKind::Registration => more.registrations = next(counts.registrations)?,
        ItemKind::Scheme => more.schemes = next(counts.schemes)?,
        ItemKind::Other => {}
    }
    Ok(more)
}

/// No items.
pub fn no_counts() -> Counts
    ensures { result ≡ no_counts }
{
    Counts {
        theorems: 0,
        definitions: 0,
        registrations: 0,
        schemes: 0,
    }
}

/// How many of the items are theorems, definitions, registrations and schemes.
pub fn counts_of(items: &Items) -> Result<Counts, AllocError>
    ensures { IfOk result (λ c. c ≡ counts_of items.now) }
{
    let mut counts = no_counts();
    for item in &items.items {
        counts = one_more(counts, kind_of(item))?;
    }
    Ok(counts)
}
