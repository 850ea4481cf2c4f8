//! The item of a structure.
ghost use Rattle.std.specs.Prelude.{◌≡◌, ◌++◌, ◌∷◌, [], map, IfOk, OnOk};
ghost use Rattle.mz_patterns.specs.Patterns.{visible};
ghost use Rattle.mz_structure_items.specs.Items.{with_object, structure_notation, pattern_of_object, strict_word, strict_notation, selected_inside, selector_notation, selector_notations, ancestor_types, structure_with, half_structure, structure_notations, whole_structure};

use crate::aggregates::aggregate_notations;
use crate::symbols::StructureSymbols;
use mz_base::numbers::Numbers;
use mz_base::text::Text;
use mz_core::notation::{Meaning, Notation};
use mz_core::notations::Notations;
use mz_core::pattern::Pattern;
use mz_core::soft_types::SoftTypes;
use mz_core::structure::Structure;
use mz_field_items::fields::{ReadField, fields_of};
use mz_items::loci::{count_of, mode_on, predicate_on};
use mz_loci::loci::type_over_loci;
use mz_logic::kind::Kind;
use mz_logic::sym::Sym;
use mz_logic::term::{Term, Terms};
use mz_patterns::patterns::pattern;
use mz_patterns::visible::Visible;
use std::alloc::{AllocError, Global};

/// The loci, and then the structure's object.
fn with_object(alloc: Global, loci: &SoftTypes, s: Sym) -> Result<SoftTypes, AllocError>
    ensures { IfOk result (λ tys. tys ≡ with_object loci.now s) }
{
    let mut out = loci.copy(alloc)?;
    out.push(mode_on(alloc, loci, s)?)?;
    Ok(out)
}

/// The places as those on the right.
fn on_right(alloc: Global, places: Numbers) -> Visible
    ensures { result ≡ visible [] places }
{
    Visible {
        left: Numbers::new(alloc),
        right: places,
    }
}

fn structure_notation(
    alloc: Global,
    symbol: &Text,
    loci: &SoftTypes,
    s: Sym,
    places: &Numbers,
) -> Result<Notation, AllocError>
    ensures { IfOk result (λ x. x ≡ structure_notation symbol.now loci.now s places.now) }
{
    let ty = mode_on(alloc, loci, s)?;
    let own = loci.copy(alloc)?;
    let v = on_right(alloc, Numbers::from_slice(alloc, places.as_slice())?);
    let pattern = pattern(alloc, Kind::Structure, symbol, own, v)?;
    Ok(Notation {
        pattern,
        meaning: Meaning::OfType(ty),
    })
}

/// A pattern whose one visible locus is the structure's object.
fn pattern_of_object(
    alloc: Global,
    kind: Kind,
    symbol: &Text,
    loci: &SoftTypes,
    s: Sym,
) -> Result<Pattern, AllocError>
    ensures { IfOk result (λ p. p ≡ pattern_of_object kind symbol.now loci.now s) }
{
    let all = with_object(alloc, loci, s)?;
    let mut right = Numbers::new(alloc);
    right.push(loci.items.len() as u64)?;
    pattern(alloc, kind, symbol, all, on_right(alloc, right))
}

fn strict_word(alloc: Global) -> Result<Text, AllocError>
    ensures { IfOk result (λ t. t ≡ strict_word) }
{
    Text::from_slice(alloc, b"strict")
}

fn strict_notation(
    alloc: Global,
    loci: &SoftTypes,
    symbols: StructureSymbols,
) -> Result<Notation, AllocError>
    ensures { IfOk result (λ x. x ≡ strict_notation loci.now symbols) }
{
    let word = strict_word(alloc)?;
    let all = with_object(alloc, loci, symbols.sym)?;
    let literal = predicate_on(alloc, &all, symbols.strict)?;
    let pattern = pattern_of_object(alloc, Kind::Attribute, &word, loci, symbols.sym)?;
    Ok(Notation {
        pattern,
        meaning: Meaning::OfLiteral(literal),
    })
}

/// The selector of the innermost index.
fn selected(alloc: Global, selector: Sym) -> Result<Term, AllocError>
    ensures { IfOk result (λ t. t ≡ selected_inside selector) }
{
    let mut args = Terms::new(alloc);
    args.push(Term::bound(0))?;
    Ok(Term::apply(selector, args))
}

fn selector_notation(
    alloc: Global,
    loci: &SoftTypes,
    s: Sym,
    f: &ReadField,
) -> Result<Notation, AllocError>
    ensures { IfOk result (λ x. x ≡ selector_notation loci.now s f.now) }
{
    let term = selected(alloc, f.selector)?;
    let pattern = pattern_of_object(alloc, Kind::Selector, &f.name, loci, s)?;
    Ok(Notation {
        pattern,
        meaning: Meaning::OfTerm(term),
    })
}

fn selector_notations(
    alloc: Global,
    loci: &SoftTypes,
    s: Sym,
    fs: &[ReadField],
) -> Result<Notations, AllocError>
    ensures { IfOk result (λ xs. xs ≡ selector_notations loci.now s fs.now) }
{
    let mut out = Vec::new(alloc);
    for f in fs {
        out.push(selector_notation(alloc, loci, s, f)?)?;
    }
    Ok(Notations { items: out })
}

fn ancestor_types(
    alloc: Global,
    ancestors: &SoftTypes,
    least: u32,
    count: u32,
) -> Result<SoftTypes, AllocError>
    ensures { IfOk result (λ tys. tys ≡ ancestor_types least count ancestors.now) }
{
    let mut out = Vec::new(alloc);
    for ty in &ancestors.items {
        out.push(type_over_loci(alloc, ty, least, count)?)?;
    }
    Ok(SoftTypes { items: out })
}

/// The structure with these notations.
fn structure_with(
    alloc: Global,
    least: u32,
    loci: &SoftTypes,
    symbols: StructureSymbols,
    ancestors: &SoftTypes,
    fs: &[ReadField],
    notations: Notations,
) -> Result<Structure, AllocError>
    ensures { IfOk result (λ x. x ≡ structure_with least loci.now symbols ancestors.now fs.now notations) }
{
    let count = count_of(loci.items.len())?;
    let own = loci.copy(alloc)?;
    let ancestors = ancestor_types(alloc, ancestors, least, count)?;
    let fields = fields_of(alloc, fs, least, count)?;
    Ok(Structure {
        loci: own,
        sym: symbols.sym,
        strict: symbols.strict,
        aggregate: symbols.aggregate,
        ancestors,
        fields,
        notations,
    })
}

/// The structure, of which so many fields were read, as the type of a further one knows it: with its ancestors, and with the notations of
/// these fields' selectors alone.
pub fn half_structure(
    alloc: Global,
    least: u32,
    loci: &SoftTypes,
    symbols: StructureSymbols,
    ancestors: &SoftTypes,
    fs: &[ReadField],
) -> Result<Structure, AllocError>
    ensures { IfOk result (λ x. x ≡ half_structure least loci.now symbols ancestors.now fs.now) }
{
    let notations = selector_notations(alloc, loci, symbols.sym, fs)?;
    structure_with(alloc, least, loci, symbols, ancestors, fs, notations)
}

fn push_notations(out: &mut Notations, more: Notations) -> Result<(), AllocError>
    ensures { OnOk result (out.new ≡ out.old ++ more) }
{
    let mut items = more.into_items();
    out.items.append(&mut items)
}

/// All notations of a structure: its own, with these of its loci visible, that of `strict`, that of its aggregate, if there is one, and
/// those of its selectors.
fn structure_notations(
    alloc: Global,
    least: u32,
    symbol: &Text,
    loci: &SoftTypes,
    symbols: StructureSymbols,
    places: &Numbers,
    fs: &[ReadField],
) -> Result<Notations, AllocError>
    ensures { IfOk result (λ xs. xs ≡ structure_notations least symbol.now loci.now symbols places.now fs.now) }
{
    let mut out = Notations::new(alloc);
    out.push(structure_notation(alloc, symbol, loci, symbols.sym, places)?)?;
    out.push(strict_notation(alloc, loci, symbols)?)?;
    push_notations(
        &mut out,
        aggregate_notations(alloc, symbol, loci, symbols.aggregate, fs, least)?,
    )?;
    push_notations(&mut out, selector_notations(alloc, loci, symbols.sym, fs)?)?;
    Ok(out)
}

/// The whole structure, whose symbol has the spelling, with these of its loci visible. As its ancestors and fields were read the loci were
/// the constants from `least` on, and its object the one behind them.
pub fn whole_structure(
    alloc: Global,
    least: u32,
    symbol: &Text,
    loci: &SoftTypes,
    symbols: StructureSymbols,
    places: &Numbers,
    ancestors: &SoftTypes,
    fs: &[ReadField],
) -> Result<Structure, AllocError>
    ensures { IfOk result (λ x. x ≡ whole_structure least symbol.now loci.now symbols places.now ancestors.now fs.now) }
{
    let notations = structure_notations(alloc, least, symbol, loci, symbols, places, fs)?;
    structure_with(alloc, least, loci, symbols, ancestors, fs, notations)
}
