//! Contexts, whose parts are read from their texts.
use crate::types::{ConstantRow, TypeRow, constants, ty, types};
use mz_base::text::Text;
use mz_context::constants::Constant;
use mz_context::context::{Context, SymbolCounts};
use mz_context::letters::NamedLetter;
use mz_context::reserved::ReservedVariable;
use mz_core::scheme::SchemeLetter;
use mz_samples::fault::SampleFault;
use mz_samples::symbols::symbol;
use std::alloc::Global;

const NO_SYMBOLS: SymbolCounts = SymbolCounts {
    modes: 0,
    structures: 0,
    attributes: 0,
    functors: 0,
    selectors: 0,
    aggregates: 0,
    predicates: 0,
    functor_letters: 0,
    predicate_letters: 0,
};

/// The context at the start of the article with the number.
pub fn start(alloc: Global, article: u64) -> Context {
    Context::new(alloc, article, NO_SYMBOLS)
}

/// The context at the start of the article with the number, where the constants are in force.
pub fn in_force(alloc: Global, article: u64, ks: &[ConstantRow]) -> Result<Context, SampleFault> {
    let constants = constants(alloc, ks)?;
    let mut ctx = start(alloc, article);
    ctx.constants = constants;
    Ok(ctx)
}

/// A constant or a reserved variable: its name and its type.
pub type VariableRow = (&'static str, TypeRow);

/// Puts constants with their names and types into force.
pub fn put_constants(
    alloc: Global,
    ctx: &mut Context,
    vs: &[VariableRow],
) -> Result<(), SampleFault> {
    for v in vs {
        let name = Text::from_slice(alloc, v.0.as_bytes())?;
        let ty = ty(alloc, v.1)?;
        let equal = None;
        ctx.add(Constant { name, ty, equal })?;
    }
    Ok(())
}

/// Reserves variables for types.
pub fn put_reserved(
    alloc: Global,
    ctx: &mut Context,
    vs: &[VariableRow],
) -> Result<(), SampleFault> {
    for v in vs {
        let name = Text::from_slice(alloc, v.0.as_bytes())?;
        let ty = ty(alloc, v.1)?;
        ctx.reserved.push(ReservedVariable { name, ty })?;
    }
    Ok(())
}

/// A letter of a scheme: its name, its symbol, the types of its places, and the type of a functor.
pub type LetterRow = (
    &'static str,
    &'static str,
    &'static [TypeRow],
    Option<TypeRow>,
);

fn letter(alloc: Global, l: LetterRow) -> Result<SchemeLetter, SampleFault> {
    let sym = symbol(l.1).ok_or(SampleFault::Text)?;
    let places = types(alloc, l.2)?;
    match l.3 {
        Some(t) => {
            let ty = ty(alloc, t)?;
            Ok(SchemeLetter::OfFunctor(sym, places, ty))
        }
        None => Ok(SchemeLetter::OfPredicate(sym, places)),
    }
}

/// Puts letters into force.
pub fn put_letters(alloc: Global, ctx: &mut Context, ls: &[LetterRow]) -> Result<(), SampleFault> {
    for l in ls {
        let name = Text::from_slice(alloc, l.0.as_bytes())?;
        let letter = letter(alloc, *l)?;
        ctx.letters.push(NamedLetter { name, letter })?;
    }
    Ok(())
}
