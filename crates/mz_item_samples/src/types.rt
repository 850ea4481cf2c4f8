//! Types, constants and clauses, read from their texts.
use mz_base::text::Text;
use mz_context::constants::{Constant, Constants};
use mz_core::adjective::Adjective;
use mz_core::adjectives::Adjectives;
use mz_core::radix::Radix;
use mz_core::soft_type::SoftType;
use mz_core::soft_types::SoftTypes;
use mz_ground::clause::Clause;
use mz_ground::clauses::Clauses;
use mz_ground::trigger::Trigger;
use mz_logic::literal::Literal;
use mz_logic::term::Term;
use mz_samples::fault::SampleFault;
use mz_samples::forms::term;
use mz_samples::parts::{literal, literals};
use std::alloc::Global;

/// A type: its radix and its adjectives, as atoms without their last argument.
pub type TypeRow = (&'static str, &'static str);

/// The type `object`.
pub const OBJECT: TypeRow = ("HIDDEN.M1", "");

/// The type `set`.
pub const SET: TypeRow = ("HIDDEN.M2", "");

/// A constant: its type, and its equal term, or nothing.
pub type ConstantRow = (TypeRow, &'static str);

/// A clause: its variables, trigger, premises and conclusion.
pub type ClauseRow = (u32, &'static str, &'static str, &'static str);

fn radix(alloc: Global, text: &str) -> Result<Radix, SampleFault> {
    match literal(alloc, text)? {
        Literal::Atom { sym, args, .. } => Ok(Radix { sym, args }),
        Literal::Eq { .. } => Err(SampleFault::Text),
    }
}

fn adjective(l: Literal) -> Result<Adjective, SampleFault> {
    match l {
        Literal::Atom {
            positive,
            sym,
            args,
        } => Ok(Adjective {
            positive,
            sym,
            args,
        }),
        Literal::Eq { .. } => Err(SampleFault::Text),
    }
}

/// The adjectives of a text, as literals without their last argument.
pub fn adjectives(alloc: Global, text: &str) -> Result<Adjectives, SampleFault> {
    let mut out = Adjectives::new(alloc);
    for l in literals(alloc, text)?.items {
        let adjective = adjective(l)?;
        out.push(adjective)?;
    }
    Ok(out)
}

/// The type of the texts.
pub fn ty(alloc: Global, t: TypeRow) -> Result<SoftType, SampleFault> {
    let adjectives = adjectives(alloc, t.1)?;
    let radix = radix(alloc, t.0)?;
    Ok(SoftType { adjectives, radix })
}

/// The types, each under those before it.
pub fn types(alloc: Global, ts: &[TypeRow]) -> Result<SoftTypes, SampleFault> {
    let mut out = SoftTypes::new(alloc);
    for t in ts {
        out.push(ty(alloc, *t)?)?;
    }
    Ok(out)
}

fn equal_term(alloc: Global, text: &str) -> Result<Option<Term>, SampleFault> {
    if text.is_empty() {
        return Ok(None);
    }
    let t = term(alloc, text)?;
    Ok(Some(t))
}

fn constant(alloc: Global, k: ConstantRow) -> Result<Constant, SampleFault> {
    let equal = equal_term(alloc, k.1)?;
    let ty = ty(alloc, k.0)?;
    Ok(Constant {
        name: Text::new(alloc),
        ty,
        equal,
    })
}

/// The constants with the numbers from 1 on.
pub fn constants(alloc: Global, ks: &[ConstantRow]) -> Result<Constants, SampleFault> {
    let mut out = Constants::new(alloc);
    for k in ks {
        let k = constant(alloc, *k)?;
        out.push(k)?;
    }
    Ok(out)
}

/// The trigger of a text: a term, or the atom of a literal.
pub fn trigger(alloc: Global, text: &str) -> Result<Trigger, SampleFault> {
    match term(alloc, text) {
        Ok(t) => Ok(Trigger::Term(t)),
        Err(_) => match literal(alloc, text)? {
            Literal::Atom { sym, args, .. } => Ok(Trigger::Atom(sym, args)),
            Literal::Eq { .. } => Err(SampleFault::Text),
        },
    }
}

fn clause(alloc: Global, c: ClauseRow) -> Result<Clause, SampleFault> {
    let head = trigger(alloc, c.1)?;
    let premises = literals(alloc, c.2)?;
    let conclusion = literal(alloc, c.3)?;
    Clause::new(c.0, head, premises, conclusion).ok_or(SampleFault::Text)
}

/// The clauses of the texts.
pub fn clauses(alloc: Global, cs: &[ClauseRow]) -> Result<Clauses, SampleFault> {
    let mut out = Clauses::new(alloc);
    for c in cs {
        let c = clause(alloc, *c)?;
        out.push(c)?;
    }
    Ok(out)
}
