//! How large a letter's type may be.
ghost use Rattle.std.specs.Prelude.{◌≡◌, ◌&&◌, IfOk};
ghost use Rattle.mz_core.specs.TypeStatements.{is_of_type};
ghost use Rattle.mz_items.specs.Loci.{over, term_on};
ghost use Rattle.mz_letters.specs.Letters.{next_functor_letter, are_few, letter_keeps};

use crate::declared::next_functor_letter;
use mz_context::context::Context;
use mz_core::soft_type::SoftType;
use mz_core::soft_types::SoftTypes;
use mz_core::statement::Statement;
use mz_core::type_statements::is_of_type;
use mz_items::loci::term_on;
use mz_items::quantified::over;
use mz_logic::sym::Sym;
use mz_sizes::keeps::statement_keeps;
use std::alloc::{AllocError, Global};

/// What a functor letter's type says of its term, for all places.
fn letter_type(
    alloc: Global,
    s: Sym,
    places: &SoftTypes,
    ty: &SoftType,
) -> Result<Statement, AllocError>
    ensures { IfOk result (λ f. f ≡ over places.now (is_of_type ty.now (term_on places.now s))) }
{
    let t = Box::new(alloc, term_on(alloc, places, s)?)?;
    let f = is_of_type(alloc, ty, &t)?;
    over(alloc, places, f)
}

fn has_few(places: &SoftTypes, ty: &SoftType) -> bool
    ensures { result ≡ (are_few places.now && are_few ty.now.adjectives) }
{
    places.items.len() <= 512 && ty.adjectives.items.len() <= 512
}

/// Whether what the scheme owes by a functor letter's type keeps the limits on nodes and depth.
pub fn letter_keeps(
    alloc: Global,
    ctx: &Context,
    places: &SoftTypes,
    ty: &SoftType,
) -> Result<bool, AllocError>
    ensures { IfOk result (λ b. b ≡ letter_keeps (next_functor_letter ctx.now) places.now ty.now) }
{
    if !has_few(places, ty) {
        return Ok(false);
    }
    let sym = next_functor_letter(ctx)?;
    let s = letter_type(alloc, sym, places, ty)?;
    Ok(statement_keeps(&s))
}
