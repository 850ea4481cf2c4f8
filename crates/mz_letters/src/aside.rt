//! What a scheme puts aside while it is read and justified, and how it is put back.
ghost use Rattle.std.specs.Prelude.{◌≡◌, IfOk, OnOk, length};
ghost use Rattle.mz_letters.specs.Aside.{without_letters, aside_of, put_back};

use crate::private::{functors_copy, predicates_copy};
use mz_context::context::{Context, SymbolCounts};
use mz_context::letters::NamedLetters;
use mz_context::private::{PrivateFunctors, PrivatePredicates};
use std::alloc::{AllocError, Global};
use std::mem;

/// What is aside while a scheme is read and justified: how many symbols there were, how many labelled statements, the private functors and
/// predicates, and the letters in force.
#[derive(Drop)]
pub struct Aside {
    pub counts: SymbolCounts,
    pub labelled: usize,
    pub functors: PrivateFunctors,
    pub predicates: PrivatePredicates,
    pub letters: NamedLetters,
}

/// Puts aside what a scheme changes, and takes the letters in force out of it.
pub fn begin(alloc: Global, ctx: &mut Context) -> Result<Box<Aside>, AllocError>
    ensures aside { IfOk result (λ a. a.value ≡ aside_of ctx.old) }
    ensures context { OnOk result (ctx.new ≡ without_letters ctx.old) }
{
    let functors = functors_copy(alloc, &ctx.functors)?;
    let predicates = predicates_copy(alloc, &ctx.predicates)?;
    let letters = mem::replace(&mut ctx.letters, NamedLetters::new(alloc));
    let aside = Box::new(
        alloc,
        Aside {
            counts: ctx.counts,
            labelled: ctx.labelled.items.len(),
            functors,
            predicates,
            letters,
        },
    )?;
    Ok(aside)
}

/// Puts back what was aside. Gives the letters that were in force.
pub fn end(ctx: &mut Context, aside: Aside) -> NamedLetters
    ensures letters { result ≡ ctx.old.letters }
    ensures context { ctx.new ≡ put_back ctx.old aside }
{
    let Aside {
        counts,
        labelled,
        functors,
        predicates,
        letters,
    } = aside;
    ctx.counts = counts;
    ctx.labelled.items.truncate(labelled);
    ctx.functors = functors;
    ctx.predicates = predicates;
    mem::replace(&mut ctx.letters, letters)
}
