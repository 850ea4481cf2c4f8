//! Loci, and what a symbol makes of them.
ghost use Rattle.std.specs.Prelude.{◌≡◌, [], IfOk};
ghost use Rattle.mz_items.specs.Loci.{inward, variables, term_on, predicate_on, subject_last, attribute_on, mode_on};

use mz_core::adjectives::Adjectives;
use mz_core::radix::Radix;
use mz_core::soft_type::SoftType;
use mz_core::soft_types::SoftTypes;
use mz_logic::literal::Literal;
use mz_logic::sym::Sym;
use mz_logic::term::{Term, Terms};
use std::alloc::{AllocError, Global};

/// A number of loci or fields, where a `u32` has it; else it is as no memory.
pub fn count_of(len: usize) -> Result<u32, AllocError>
    ensures { IfOk result (λ n. n ≡ len) }
{
    if len > 4294967295 {
        return Err(AllocError);
    }
    Ok(len as u32)
}

/// The innermost `count` variables under `depth` more binders, the innermost first.
pub fn inward(alloc: Global, depth: u32, count: usize) -> Result<Terms, AllocError>
    ensures { IfOk result (λ ts. ts ≡ inward depth count) }
{
    let mut out = Terms::new(alloc);
    let mut index = depth;
    for k in 0..count {
        out.push(Term::bound(index))?;
        index = index.checked_add(1).ok_or(AllocError)?;
    }
    Ok(out)
}

/// The innermost `count` variables under `depth` more binders, the outermost first.
pub fn variables(alloc: Global, depth: u32, count: usize) -> Result<Terms, AllocError>
    ensures { IfOk result (λ ts. ts ≡ variables depth count) }
{
    let mut ts = inward(alloc, depth, count)?;
    ts.items.reverse();
    Ok(ts)
}

/// A symbol's term on the loci.
pub fn term_on(alloc: Global, loci: &SoftTypes, s: Sym) -> Result<Term, AllocError>
    ensures { IfOk result (λ t. t ≡ term_on loci.now s) }
{
    let args = variables(alloc, 0, loci.items.len())?;
    Ok(Term::apply(s, args))
}

/// A predicate's atom on the loci.
pub fn predicate_on(alloc: Global, loci: &SoftTypes, s: Sym) -> Result<Literal, AllocError>
    ensures { IfOk result (λ l. l ≡ predicate_on loci.now s) }
{
    let args = variables(alloc, 0, loci.items.len())?;
    Ok(Literal::Atom {
        positive: true,
        sym: s,
        args,
    })
}

fn subject_last(ts: Terms, subject: u32) -> Result<Terms, AllocError>
    ensures { IfOk result (λ us. us ≡ subject_last subject ts) }
{
    let mut out = ts;
    let place = subject as usize;
    if place < out.items.len() {
        let t = out.items.remove(place);
        out.items.push(t)?;
    }
    Ok(out)
}

/// An attribute's atom on the loci without the subject, and then the subject.
pub fn attribute_on(
    alloc: Global,
    loci: &SoftTypes,
    subject: u32,
    s: Sym,
) -> Result<Literal, AllocError>
    ensures { IfOk result (λ l. l ≡ attribute_on loci.now subject s) }
{
    let args = variables(alloc, 0, loci.items.len())?;
    let args = subject_last(args, subject)?;
    Ok(Literal::Atom {
        positive: true,
        sym: s,
        args,
    })
}

/// A mode on the loci, as a type.
pub fn mode_on(alloc: Global, loci: &SoftTypes, s: Sym) -> Result<SoftType, AllocError>
    ensures { IfOk result (λ t. t ≡ mode_on loci.now s) }
{
    let args = variables(alloc, 0, loci.items.len())?;
    Ok(SoftType {
        adjectives: Adjectives::new(alloc),
        radix: Radix { sym: s, args },
    })
}
