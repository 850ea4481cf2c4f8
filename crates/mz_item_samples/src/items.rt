//! Items, each from the texts of its parts.
use crate::statements::statement;
use crate::types::{OBJECT, TypeRow, adjectives, ty, types};
use mz_base::numbers::Numbers;
use mz_base::text::Text;
use mz_core::definition::{AtomDefinition, AttributeDefinition, MeansDefinition};
use mz_core::formula_definiens::FormulaDefiniens;
use mz_core::item::Item;
use mz_core::notation::{Meaning, Notation};
use mz_core::notations::Notations;
use mz_core::pattern::Pattern;
use mz_core::redefinition::FunctorRedefinition;
use mz_core::registration::ExistentialRegistration;
use mz_core::soft_types::SoftTypes;
use mz_core::structure::{Field, Fields, Structure};
use mz_logic::kind::Kind;
use mz_logic::sym::Sym;
use mz_samples::fault::SampleFault;
use mz_samples::forms::term;
use mz_samples::parts::literal;
use mz_samples::symbols::symbol;
use std::alloc::Global;

/// A pattern: its symbol, of brackets both with a blank between them; its loci; and the places of the visible loci before
/// and behind it.
pub type PatternRow = (
    &'static str,
    &'static [TypeRow],
    &'static [u64],
    &'static [u64],
);

/// What a pattern reads to.
#[derive(Clone, Copy)]
pub enum MeaningRow {
    Term(&'static str),
    Literal(&'static str),
    Type(TypeRow),
}

/// A notation: its kind, its pattern, and what this reads to.
pub type NotationRow = (Kind, PatternRow, MeaningRow);

/// A field: its selector and its type.
pub type FieldRow = (&'static str, TypeRow);

/// The symbols of a structure: its own, that of its attribute, and that of its aggregate.
pub type SymbolsRow = (&'static str, &'static str, &'static str);

/// An item. A definition has its symbol, its pattern, where it has one its type, and its definiens, a formula whose
/// quantifiers are of objects.
#[derive(Clone, Copy)]
pub enum ItemRow {
    Predicate(&'static str, PatternRow, &'static str),
    /// Its subject is the last of its loci, of which there are one or two.
    Attribute(&'static str, PatternRow, &'static str),
    Mode(&'static str, PatternRow, TypeRow, &'static str),
    Functor(&'static str, PatternRow, TypeRow, &'static str),
    /// A functor whose pattern reads to the term, with the type of its definition and a new one.
    FunctorAgain(&'static str, PatternRow, TypeRow, TypeRow),
    Notation(NotationRow),
    /// A notation without a definition.
    Primitive(NotationRow),
    /// Some object of the type has the adjectives, on these loci.
    Existential(&'static [TypeRow], &'static str, TypeRow),
    /// A structure without loci: its symbols, its ancestors, its fields and its notations.
    Structure(SymbolsRow, &'static [TypeRow], &'static [FieldRow], &'static [NotationRow]),
}

fn sym_of(text: &str) -> Result<Sym, SampleFault> {
    symbol(text).ok_or(SampleFault::Text)
}

/// The symbol of a pattern and the one that closes it, which is empty where the text has no blank.
fn symbols(alloc: Global, text: &str) -> Result<(Text, Text), SampleFault> {
    match text.split_once(' ') {
        Some((left, right)) => {
            let left = Text::from_slice(alloc, left.as_bytes())?;
            let right = Text::from_slice(alloc, right.as_bytes())?;
            Ok((left, right))
        }
        None => {
            let symbol = Text::from_slice(alloc, text.as_bytes())?;
            Ok((symbol, Text::new(alloc)))
        }
    }
}

/// The pattern of the kind.
fn pattern(alloc: Global, kind: Kind, p: PatternRow) -> Result<Pattern, SampleFault> {
    let (symbol, closing) = symbols(alloc, p.0)?;
    let loci = types(alloc, p.1)?;
    let left = Numbers::from_slice(alloc, p.2)?;
    let right = Numbers::from_slice(alloc, p.3)?;
    Ok(Pattern {
        symbol,
        closing,
        kind,
        loci,
        left,
        right,
    })
}

fn meaning(alloc: Global, m: MeaningRow) -> Result<Meaning, SampleFault> {
    match m {
        MeaningRow::Term(text) => Ok(Meaning::OfTerm(term(alloc, text)?)),
        MeaningRow::Literal(text) => Ok(Meaning::OfLiteral(literal(alloc, text)?)),
        MeaningRow::Type(t) => Ok(Meaning::OfType(ty(alloc, t)?)),
    }
}

/// The notation of the row.
pub fn notation(alloc: Global, n: NotationRow) -> Result<Notation, SampleFault> {
    let pattern = Box::new(alloc, pattern(alloc, n.0, n.1)?)?;
    let meaning = meaning(alloc, n.2)?;
    Ok(Notation {
        pattern: Box::into_inner(pattern),
        meaning,
    })
}

fn notations(alloc: Global, ns: &[NotationRow]) -> Result<Notations, SampleFault> {
    let mut out = Notations::new(alloc);
    for n in ns {
        let n = notation(alloc, *n)?;
        out.push(n)?;
    }
    Ok(out)
}

fn definiens(alloc: Global, text: &str) -> Result<FormulaDefiniens, SampleFault> {
    Ok(FormulaDefiniens::Plain(statement(alloc, text, &[], OBJECT)?))
}

fn predicate(alloc: Global, s: &str, p: PatternRow, text: &str) -> Result<Item, SampleFault> {
    let sym = sym_of(s)?;
    let pattern = Box::new(alloc, pattern(alloc, Kind::Predicate, p)?)?;
    let definiens = definiens(alloc, text)?;
    Ok(Item::Predicate(AtomDefinition {
        pattern: Box::into_inner(pattern),
        sym,
        definiens,
    }))
}

fn attribute(alloc: Global, s: &str, p: PatternRow, text: &str) -> Result<Item, SampleFault> {
    let sym = sym_of(s)?;
    let pattern = Box::new(alloc, pattern(alloc, Kind::Attribute, p)?)?;
    let definiens = definiens(alloc, text)?;
    Ok(Item::Attribute(AttributeDefinition {
        pattern: Box::into_inner(pattern),
        subject: if p.1.len() == 2 { 1 } else { 0 },
        sym,
        definiens,
    }))
}

fn means(
    alloc: Global,
    kind: Kind,
    s: &str,
    p: PatternRow,
    t: TypeRow,
    text: &str,
) -> Result<MeansDefinition, SampleFault> {
    let sym = sym_of(s)?;
    let pattern = Box::new(alloc, pattern(alloc, kind, p)?)?;
    let ty = ty(alloc, t)?;
    let definiens = definiens(alloc, text)?;
    Ok(MeansDefinition {
        pattern: Box::into_inner(pattern),
        sym,
        ty,
        definiens,
    })
}

fn mode(
    alloc: Global,
    s: &str,
    p: PatternRow,
    t: TypeRow,
    text: &str,
) -> Result<Item, SampleFault> {
    Ok(Item::ModeMeans(means(alloc, Kind::Mode, s, p, t, text)?))
}

fn functor(
    alloc: Global,
    s: &str,
    p: PatternRow,
    t: TypeRow,
    text: &str,
) -> Result<Item, SampleFault> {
    Ok(Item::FunctorMeans(means(alloc, Kind::Functor, s, p, t, text)?))
}

fn functor_again(
    alloc: Global,
    read: &str,
    p: PatternRow,
    old: TypeRow,
    new: TypeRow,
) -> Result<Item, SampleFault> {
    let pattern = Box::new(alloc, pattern(alloc, Kind::Functor, p)?)?;
    let term = Box::new(alloc, term(alloc, read)?)?;
    let old = Box::new(alloc, ty(alloc, old)?)?;
    let new = ty(alloc, new)?;
    Ok(Item::RedefinedFunctor(FunctorRedefinition {
        pattern: Box::into_inner(pattern),
        term: Box::into_inner(term),
        old: Box::into_inner(old),
        ty: Some(new),
        meaning: None,
    }))
}

fn existential(alloc: Global, loci: &[TypeRow], xs: &str, t: TypeRow) -> Result<Item, SampleFault> {
    let loci = types(alloc, loci)?;
    let adjectives = adjectives(alloc, xs)?;
    let ty = ty(alloc, t)?;
    Ok(Item::Existential(ExistentialRegistration {
        loci,
        adjectives,
        ty,
    }))
}

fn field(alloc: Global, f: FieldRow) -> Result<Field, SampleFault> {
    let selector = sym_of(f.0)?;
    let ty = ty(alloc, f.1)?;
    Ok(Field { selector, ty })
}

fn fields(alloc: Global, fs: &[FieldRow]) -> Result<Fields, SampleFault> {
    let mut out = Fields::new(alloc);
    for f in fs {
        let f = field(alloc, *f)?;
        out.push(f)?;
    }
    Ok(out)
}

fn structure(
    alloc: Global,
    s: SymbolsRow,
    ancestors: &[TypeRow],
    fs: &[FieldRow],
    ns: &[NotationRow],
) -> Result<Item, SampleFault> {
    let sym = sym_of(s.0)?;
    let strict = sym_of(s.1)?;
    let aggregate = sym_of(s.2)?;
    let ancestors = types(alloc, ancestors)?;
    let fields = fields(alloc, fs)?;
    let notations = notations(alloc, ns)?;
    Ok(Item::Structure(Structure {
        loci: SoftTypes::new(alloc),
        sym,
        strict,
        aggregate,
        ancestors,
        fields,
        notations,
    }))
}

/// The item of the row.
pub fn item(alloc: Global, row: ItemRow) -> Result<Item, SampleFault> {
    match row {
        ItemRow::Predicate(s, p, text) => predicate(alloc, s, p, text),
        ItemRow::Attribute(s, p, text) => attribute(alloc, s, p, text),
        ItemRow::Mode(s, p, t, text) => mode(alloc, s, p, t, text),
        ItemRow::Functor(s, p, t, text) => functor(alloc, s, p, t, text),
        ItemRow::FunctorAgain(read, p, old, new) => functor_again(alloc, read, p, old, new),
        ItemRow::Notation(n) => Ok(Item::Notation(notation(alloc, n)?)),
        ItemRow::Primitive(n) => Ok(Item::Primitive(notation(alloc, n)?)),
        ItemRow::Existential(loci, xs, t) => existential(alloc, loci, xs, t),
        ItemRow::Structure(s, ancestors, fs, ns) => structure(alloc, s, ancestors, fs, ns),
    }
}
