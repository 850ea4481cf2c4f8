//! Letters that are declared.
ghost use Rattle.std.specs.Prelude.{◌≡◌, ◌+◌, IfOk, OnOk, map};
ghost use Rattle.mz_cited.specs.Cited.{members, tree_of};
ghost use Rattle.mz_core.specs.declared.scheme.SchemeLetter.TheVariants.{OfFunctor, OfPredicate};
ghost use Rattle.mz_letters.specs.Letters.{next_functor_letter, next_predicate_letter, with_functor_letter, with_predicate_letter, with_functor_letters, with_predicate_letters};

use crate::private::{functors_but, predicates_but};
use mz_base::text::Text;
use mz_context::context::Context;
use mz_context::letters::NamedLetter;
use mz_core::scheme::SchemeLetter;
use mz_core::soft_type::SoftType;
use mz_core::soft_types::SoftTypes;
use mz_logic::kind::Kind;
use mz_logic::sym::Sym;
use mz_tree::chain::Next;
use mz_tree::lists::Separated;
use mz_tree::word::Comma;
use mz_tree_heading::patterns::IdentifierTree;
use std::alloc::{AllocError, Global};

fn one_more(count: u32) -> Result<u32, AllocError>
    ensures { IfOk result (λ n. n ≡ count + 1) }
{
    count.checked_add(1).ok_or(AllocError)
}

/// The symbol of the next functor letter.
pub fn next_functor_letter(ctx: &Context) -> Result<Sym, AllocError>
    ensures { IfOk result (λ s. s ≡ next_functor_letter ctx.now) }
{
    let number = one_more(ctx.counts.functor_letters)?;
    Ok(Sym {
        article: ctx.article,
        kind: Kind::LetterFunctor,
        number,
    })
}

fn next_predicate_letter(ctx: &Context) -> Result<Sym, AllocError>
    ensures { IfOk result (λ s. s ≡ next_predicate_letter ctx.now) }
{
    let number = one_more(ctx.counts.predicate_letters)?;
    Ok(Sym {
        article: ctx.article,
        kind: Kind::LetterPredicate,
        number,
    })
}

fn functor_letter(
    alloc: Global,
    s: Sym,
    name: &Text,
    places: &SoftTypes,
    ty: &SoftType,
) -> Result<NamedLetter, AllocError>
    ensures { IfOk result (λ l. l ≡ record { name = name.now; letter = OfFunctor s places.now ty.now }) }
{
    let name = name.copy(alloc)?;
    let places = places.copy(alloc)?;
    let ty = ty.copy(alloc)?;
    Ok(NamedLetter {
        name,
        letter: SchemeLetter::OfFunctor(s, places, ty),
    })
}

fn predicate_letter(
    alloc: Global,
    s: Sym,
    name: &Text,
    places: &SoftTypes,
) -> Result<NamedLetter, AllocError>
    ensures { IfOk result (λ l. l ≡ record { name = name.now; letter = OfPredicate s places.now }) }
{
    let name = name.copy(alloc)?;
    let places = places.copy(alloc)?;
    Ok(NamedLetter {
        name,
        letter: SchemeLetter::OfPredicate(s, places),
    })
}

/// Puts a functor letter into force.
fn declare_functor(
    alloc: Global,
    ctx: &mut Context,
    name: &Text,
    places: &SoftTypes,
    ty: &SoftType,
) -> Result<(), AllocError>
    ensures { OnOk result (ctx.new ≡ with_functor_letter ctx.old name.now places.now ty.now) }
{
    let sym = next_functor_letter(ctx)?;
    ctx.functors = functors_but(alloc, &ctx.functors, name.as_slice())?;
    ctx.counts.functor_letters = sym.number;
    ctx.letters
        .push(functor_letter(alloc, sym, name, places, ty)?)
}

/// Puts a predicate letter into force.
fn declare_predicate(
    alloc: Global,
    ctx: &mut Context,
    name: &Text,
    places: &SoftTypes,
) -> Result<(), AllocError>
    ensures { OnOk result (ctx.new ≡ with_predicate_letter ctx.old name.now places.now) }
{
    let sym = next_predicate_letter(ctx)?;
    ctx.predicates = predicates_but(alloc, &ctx.predicates, name.as_slice())?;
    ctx.counts.predicate_letters = sym.number;
    ctx.letters
        .push(predicate_letter(alloc, sym, name, places)?)
}

fn declare_more_functors(
    alloc: Global,
    ctx: &mut Context,
    places: &SoftTypes,
    ty: &SoftType,
    words: &[Next<Comma, IdentifierTree>],
) -> Result<(), AllocError>
    ensures { OnOk result (ctx.new ≡ with_functor_letters ctx.old places.now ty.now (map tree_of words.now)) }
{
    match words {
        [] => Ok(()),
        [next, others @ ..] => {
            declare_functor(alloc, ctx, &next.tree.name.spelling, places, ty)?;
            declare_more_functors(alloc, ctx, places, ty, others)
        }
    }
}

fn declare_more_predicates(
    alloc: Global,
    ctx: &mut Context,
    places: &SoftTypes,
    words: &[Next<Comma, IdentifierTree>],
) -> Result<(), AllocError>
    ensures { OnOk result (ctx.new ≡ with_predicate_letters ctx.old places.now (map tree_of words.now)) }
{
    match words {
        [] => Ok(()),
        [next, others @ ..] => {
            declare_predicate(alloc, ctx, &next.tree.name.spelling, places)?;
            declare_more_predicates(alloc, ctx, places, others)
        }
    }
}

/// Puts a functor letter for each identifier into force, all with the same types.
pub fn declare_functors(
    alloc: Global,
    ctx: &mut Context,
    places: &SoftTypes,
    ty: &SoftType,
    words: &Separated<IdentifierTree>,
) -> Result<(), AllocError>
    ensures { OnOk result (ctx.new ≡ with_functor_letters ctx.old places.now ty.now (members words.now)) }
{
    declare_functor(alloc, ctx, &words.first.name.spelling, places, ty)?;
    declare_more_functors(alloc, ctx, places, ty, words.more.items.as_slice())
}

/// Puts a predicate letter for each identifier into force, all with the same types.
pub fn declare_predicates(
    alloc: Global,
    ctx: &mut Context,
    places: &SoftTypes,
    words: &Separated<IdentifierTree>,
) -> Result<(), AllocError>
    ensures { OnOk result (ctx.new ≡ with_predicate_letters ctx.old places.now (members words.now)) }
{
    declare_predicate(alloc, ctx, &words.first.name.spelling, places)?;
    declare_more_predicates(alloc, ctx, places, words.more.items.as_slice())
}
