//! How many symbols of each kind an article has made.
ghost use Rattle.std.specs.Prelude.{◌≡◌, ◌+◌, IfOk, OnOk, count_by};
ghost use Rattle.mz_standing.specs.Counts.{is_new_selector, new_selectors, is_functor_letter, is_predicate_letter, with_mode, with_attribute, with_functor, with_predicate, with_structure, with_letters, counted};

use mz_context::context::SymbolCounts;
use mz_core::item::Item;
use mz_core::scheme::{Scheme, SchemeLetter};
use mz_core::structure::{Field, Structure};
use std::alloc::AllocError;

/// So many more. No more than 4,294,967,295 of them, or it is as no memory.
fn more(count: u32, by: usize) -> Result<u32, AllocError>
    ensures { IfOk result (λ n. n ≡ count + by) }
{
    let by = u32::try_from(by).map_err(|_| AllocError)?;
    count.checked_add(by).ok_or(AllocError)
}

fn count_mode(counts: &mut SymbolCounts) -> Result<(), AllocError>
    ensures { OnOk result (counts.new ≡ with_mode counts.old) }
{
    counts.modes = more(counts.modes, 1)?;
    Ok(())
}

fn count_attribute(counts: &mut SymbolCounts) -> Result<(), AllocError>
    ensures { OnOk result (counts.new ≡ with_attribute counts.old) }
{
    counts.attributes = more(counts.attributes, 1)?;
    Ok(())
}

fn count_functor(counts: &mut SymbolCounts) -> Result<(), AllocError>
    ensures { OnOk result (counts.new ≡ with_functor counts.old) }
{
    counts.functors = more(counts.functors, 1)?;
    Ok(())
}

fn count_predicate(counts: &mut SymbolCounts) -> Result<(), AllocError>
    ensures { OnOk result (counts.new ≡ with_predicate counts.old) }
{
    counts.predicates = more(counts.predicates, 1)?;
    Ok(())
}

fn is_new_selector(article: u64, given: u32, f: &Field) -> bool
    ensures { result ≡ is_new_selector article given f.now }
{
    f.selector.article == article && given < f.selector.number
}

fn new_selectors(article: u64, given: u32, fs: &[Field]) -> usize
    ensures { result ≡ new_selectors article given fs.now }
{
    fs.iter()
        .filter(|f| is_new_selector(article, given, *f))
        .count()
}

fn count_structure(counts: &mut SymbolCounts, s: &Structure) -> Result<(), AllocError>
    ensures { OnOk result (counts.new ≡ with_structure counts.old s.now) }
{
    let selectors = new_selectors(s.sym.article, counts.selectors, s.fields.items.as_slice());
    counts.structures = more(counts.structures, 1)?;
    counts.attributes = more(counts.attributes, 1)?;
    counts.aggregates = more(counts.aggregates, 1)?;
    counts.selectors = more(counts.selectors, selectors)?;
    Ok(())
}

fn is_functor_letter(l: &SchemeLetter) -> bool
    ensures { result ≡ is_functor_letter l.now }
{
    matches!(l, SchemeLetter::OfFunctor(..))
}

fn is_predicate_letter(l: &SchemeLetter) -> bool
    ensures { result ≡ is_predicate_letter l.now }
{
    matches!(l, SchemeLetter::OfPredicate(..))
}

fn functor_letters(ls: &[SchemeLetter]) -> usize
    ensures { result ≡ count_by is_functor_letter ls.now }
{
    ls.iter().filter(|l| is_functor_letter(*l)).count()
}

fn predicate_letters(ls: &[SchemeLetter]) -> usize
    ensures { result ≡ count_by is_predicate_letter ls.now }
{
    ls.iter().filter(|l| is_predicate_letter(*l)).count()
}

fn count_letters(counts: &mut SymbolCounts, s: &Scheme) -> Result<(), AllocError>
    ensures { OnOk result (counts.new ≡ with_letters counts.old s.now.letters) }
{
    let letters = s.letters.items.as_slice();
    counts.functor_letters = more(counts.functor_letters, functor_letters(letters))?;
    counts.predicate_letters = more(counts.predicate_letters, predicate_letters(letters))?;
    Ok(())
}

/// Counts the symbols that an item makes. More than 4,294,967,295 of a kind are as no memory.
pub fn count_item(counts: &mut SymbolCounts, item: &Item) -> Result<(), AllocError>
    ensures { OnOk result (counts.new ≡ counted counts.old item.now) }
{
    match item {
        Item::FunctorMeans(_) | Item::FunctorEquals(_) | Item::SetTerm(_) | Item::Choice(_) => {
            count_functor(counts)
        }
        Item::Predicate(_) => count_predicate(counts),
        Item::Attribute(_) => count_attribute(counts),
        Item::ModeMeans(_) => count_mode(counts),
        Item::Structure(s) => count_structure(counts, s),
        Item::Scheme(s) | Item::AxiomScheme(s) => count_letters(counts, s),
        Item::Axiom(_)
        | Item::Primitive(_)
        | Item::Theorem(_)
        | Item::Abbreviation(_)
        | Item::Notation(_)
        | Item::RedefinedFunctor(_)
        | Item::RedefinedMode(_)
        | Item::RedefinedPredicate(_)
        | Item::RedefinedAttribute(_)
        | Item::Property(_)
        | Item::Existential(_)
        | Item::Conditional(_)
        | Item::Functorial(_)
        | Item::Reduction(_)
        | Item::Identification(_) => Ok(()),
    }
}
