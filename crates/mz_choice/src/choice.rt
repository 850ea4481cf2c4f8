//! The choice among notations.
ghost use Rattle.std.specs.Prelude.{◌≡◌, ◌↔◌, ◌<◌, ◌++◌, IfOk, IsTrue, Some, length, map, slice_get};
ghost use Rattle.std.specs.Arc.{arc_value};
ghost use Rattle.std.specs.List.{list_any};
ghost use Rattle.mz_logic.specs.Constants.{occurs};
ghost use Rattle.mz_logic.specs.declared.kind.Kind.TheVariants as kind;
ghost use Rattle.mz_core.specs.declared.notation.Meaning.TheVariants.{OfLiteral};
ghost use Rattle.mz_choice.specs.declared.choice.Wanted.TheVariants.{Anything, AdjectiveOf, AdjectiveOfFresh};
ghost use Rattle.mz_choice.specs.Choice.{FirstMember, Typed, Takes, TakesAll, meaning_at, Reads, EndsWith, EndsWithFresh, Suits, is_of_symbol, is_candidate, Passes, FirstPasses, candidates, Chosen};

use mz_base::numbers::Numbers;
use mz_base::text::Text;
use mz_context::constants::Constants;
use mz_context::context::Context;
use mz_core::hidden::is_of_any_object;
use mz_core::notation::{Meaning, Notation};
use mz_core::radix::Radix;
use mz_core::soft_type::SoftType;
use mz_core::type_substitution::{substitute_literal, substitute_type};
use mz_environment::environment::Environment;
use mz_fits::fixed::Fixed;
use mz_fits::matches::{accepted, all_match, place};
use mz_ground::clause::Clause;
use mz_logic::beyond::Beyond;
use mz_logic::kind::Kind;
use mz_logic::literal::Literal;
use mz_logic::substitution::substitute;
use mz_logic::term::{Term, Terms};
use mz_types::chain::chain_by;
use mz_types::row_types::reversed;
use std::alloc::{AllocError, Global};
use std::sync::Arc;

/// A symbol of the kind, of brackets the left one with the right one as `closing`, with its arguments on the left and on
/// the right.
#[derive(Drop)]
pub struct Applied {
    pub symbol: Text,
    pub closing: Text,
    pub kind: Kind,
    pub left: Terms,
    pub right: Terms,
}

/// Anything; an adjective of the subject, or of the fresh constant with the number.
#[derive(Drop)]
pub enum Wanted {
    Anything,
    AdjectiveOf(Term),
    AdjectiveOfFresh(u32),
}

/// What is fixed behind the first member of a chain that has the formal radix's symbol and whose arguments match.
#[tactic(auto, using(crate::proofs::ChoiceLemmas::member_rules))]
fn first_member(
    alloc: Global,
    clauses: &[Clause],
    constants: &Constants,
    scope: usize,
    formal: &Radix,
    fixed: &Fixed,
    members: &[Radix],
) -> Result<Option<Fixed>, AllocError>
    ensures { IfOk result (λ o. FirstMember clauses.now constants.now scope formal.now fixed.now members.now o) }
{
    match members.split_first() {
        None => Ok(None),
        Some((r, others)) => {
            if !r.sym.is(formal.sym) {
                let o = first_member(alloc, clauses, constants, scope, formal, fixed, others)?;
                return Ok(o);
            }
            let trial = fixed.copy(alloc)?;
            let formals = formal.args.items.as_slice();
            let args = r.args.items.as_slice();
            match all_match(alloc, clauses, constants, scope, trial, formals, args)? {
                Some(behind) => Ok(Some(behind)),
                None => {
                    let later = first_member(
                        alloc, clauses, constants, scope, formal, fixed, others,
                    )?;
                    Ok(later)
                }
            }
        }
    }
}

/// An argument beside the type of its locus.
#[tactic(auto, using(crate::proofs::ChoiceLemmas::typed_rules))]
fn typed(
    alloc: Global,
    clauses: &[Clause],
    env: &Environment,
    ctx: &Context,
    place: usize,
    ty: &SoftType,
    fixed: Fixed,
    t: &Term,
) -> Result<Option<Fixed>, AllocError>
    ensures { IfOk result (λ o. Typed clauses.now env.now ctx.now place ty.now fixed t.now o) }
{
    if is_of_any_object(ty.radix.sym) {
        return Ok(Some(fixed));
    }
    let rs = chain_by(alloc, clauses, env, ctx, t)?;
    let members = rs.items.as_slice();
    let o = first_member(
        alloc,
        clauses,
        &ctx.constants,
        place,
        &ty.radix,
        &fixed,
        members,
    )?;
    Ok(o)
}

/// A visible argument for the locus at a place.
#[tactic(auto, using(crate::proofs::ChoiceLemmas::takes_rules))]
fn takes(
    alloc: Global,
    clauses: &[Clause],
    env: &Environment,
    ctx: &Context,
    loci: &[SoftType],
    fixed: Fixed,
    at: usize,
    t: &Term,
) -> Result<Option<Fixed>, AllocError>
    ensures { IfOk result (λ o. Takes clauses.now env.now ctx.now loci.now fixed at t.now o) }
{
    if at >= loci.len() {
        return Ok(None);
    }
    match place(alloc, clauses, &ctx.constants, fixed, at, t)? {
        None => Ok(None),
        Some(between) => {
            let o = typed(alloc, clauses, env, ctx, at, &loci[at], between, t)?;
            Ok(o)
        }
    }
}

/// Visible arguments for the loci at these places, in order.
#[tactic(auto, using(crate::proofs::ChoiceLemmas::all_rules))]
fn takes_all(
    alloc: Global,
    clauses: &[Clause],
    env: &Environment,
    ctx: &Context,
    loci: &[SoftType],
    fixed: Fixed,
    places: &[u64],
    args: &[Term],
) -> Result<Option<Fixed>, AllocError>
    ensures { IfOk result (λ o. TakesAll clauses.now env.now ctx.now loci.now fixed places.now args.now o) }
{
    let mut behind = fixed;
    let mut ps = places;
    let mut ts = args;
    while let Some((p, more)) = ps.split_first() {
        match ts.split_first() {
            None => return Ok(None),
            Some((t, others)) => {
                match takes(alloc, clauses, env, ctx, loci, behind, *p as usize, t)? {
                    None => return Ok(None),
                    Some(between) => {
                        behind = between;
                        ps = more;
                        ts = others;
                    }
                }
            }
        }
    }
    if ts.len() == 0 {
        Ok(Some(behind))
    } else {
        Ok(None)
    }
}

/// What a pattern reads to, with values for its loci in their order.
fn meaning_at(alloc: Global, values: Terms, m: &Meaning) -> Result<Meaning, AllocError>
    ensures { IfOk result (λ n. n ≡ meaning_at values m.now) }
{
    let inside = reversed(values);
    match m {
        Meaning::OfTerm(t) => {
            let t = substitute(alloc, t, 0, &inside, Beyond::Lowered)?;
            Ok(Meaning::OfTerm(t))
        }
        Meaning::OfLiteral(l) => {
            let l = substitute_literal(alloc, l, 0, &inside, Beyond::Lowered)?;
            Ok(Meaning::OfLiteral(l))
        }
        Meaning::OfType(ty) => {
            let ty = substitute_type(alloc, ty, 0, &inside, Beyond::Lowered)?;
            Ok(Meaning::OfType(ty))
        }
    }
}

fn visible(alloc: Global, left: &Numbers, right: &Numbers) -> Result<Numbers, AllocError>
    ensures { IfOk result (λ ns. ns ≡ left.now ++ right.now) }
{
    let mut out = Numbers::from_slice(alloc, left.as_slice())?;
    out.items.extend_from_slice(right.as_slice())?;
    Ok(out)
}

/// What the arguments read to by a notation; none where it doesn't pass.
#[tactic(auto, using(crate::proofs::ChoiceLemmas::reads_rules))]
fn reads(
    alloc: Global,
    clauses: &[Clause],
    env: &Environment,
    ctx: &Context,
    x: &Notation,
    args: &[Term],
) -> Result<Option<Meaning>, AllocError>
    ensures { IfOk result (λ o. Reads clauses.now env.now ctx.now x.now args.now o) }
{
    let places = visible(alloc, &x.pattern.left, &x.pattern.right)?;
    let loci = x.pattern.loci.items.as_slice();
    let count = loci.len();
    let none = Fixed::none(alloc, count)?;
    match takes_all(
        alloc,
        clauses,
        env,
        ctx,
        loci,
        none,
        places.as_slice(),
        args,
    )? {
        None => Ok(None),
        Some(fixed) => {
            match accepted(alloc, clauses, &ctx.constants, &x.pattern.loci, &fixed)? {
                None => Ok(None),
                Some(values) => {
                    let m = meaning_at(alloc, values, &x.meaning)?;
                    Ok(Some(m))
                }
            }
        }
    }
}

fn is_attribute(k: Kind) -> bool
    ensures { IsTrue result ↔ (k ≡ kind.Attribute) }
{
    match k {
        Kind::Attribute => true,
        _ => false,
    }
}

#[tactic(auto, using(crate::proofs::SuitsLemmas::ends_rules))]
fn ends_with(ts: &[Term], t: &Term) -> bool
    ensures { IsTrue result ↔ EndsWith ts.now t.now }
{
    match ts.split_last() {
        None => false,
        Some((last, _)) => {
            let same = last.equals(t);
            same
        }
    }
}

fn some_has(ts: &[Term], n: u32) -> bool
    ensures { result ≡ list_any (occurs n) ts.now }
{
    for t in ts {
        if t.has_constant(n) {
            return true;
        }
    }
    false
}

#[tactic(auto, using(crate::proofs::SuitsLemmas::fresh_ends_rules))]
fn ends_with_fresh(ts: &[Term], n: u32) -> bool
    ensures { IsTrue result ↔ EndsWithFresh ts.now n }
{
    match ts.split_last() {
        None => false,
        Some((last, before)) => {
            if !last.is_const(n) {
                return false;
            }
            if some_has(before, n) {
                return false;
            }
            true
        }
    }
}

#[tactic(auto, using(crate::proofs::SuitsLemmas::subject_rules))]
fn suits_subject(t: &Term, l: &Literal) -> bool
    ensures { IsTrue result ↔ Suits (AdjectiveOf t.now) (OfLiteral l.now) }
{
    match l {
        Literal::Atom {
            positive: _,
            sym,
            args,
        } => {
            if !is_attribute(sym.kind) {
                return false;
            }
            let ends = ends_with(args.items.as_slice(), t);
            ends
        }
        Literal::Eq { .. } => false,
    }
}

#[tactic(auto, using(crate::proofs::SuitsLemmas::fresh_rules))]
fn suits_fresh(n: u32, l: &Literal) -> bool
    ensures { IsTrue result ↔ Suits (AdjectiveOfFresh n) (OfLiteral l.now) }
{
    match l {
        Literal::Atom {
            positive: _,
            sym,
            args,
        } => {
            if !is_attribute(sym.kind) {
                return false;
            }
            let ends = ends_with_fresh(args.items.as_slice(), n);
            ends
        }
        Literal::Eq { .. } => false,
    }
}

/// Whether the literal is what the application is wanted for.
#[tactic(auto, using(crate::proofs::SuitsLemmas::literal_rules))]
fn literal_suits(w: &Wanted, l: &Literal) -> bool
    ensures { IsTrue result ↔ Suits w.now (OfLiteral l.now) }
{
    match w {
        Wanted::Anything => true,
        Wanted::AdjectiveOf(t) => {
            let fit = suits_subject(t, l);
            fit
        }
        Wanted::AdjectiveOfFresh(n) => {
            let fit = suits_fresh(*n, l);
            fit
        }
    }
}

#[tactic(auto, using(crate::proofs::SuitsLemmas::any_rules))]
fn is_anything(w: &Wanted) -> bool
    ensures { IsTrue result ↔ (w.now ≡ Anything) }
{
    match w {
        Wanted::Anything => true,
        Wanted::AdjectiveOf(_) => false,
        Wanted::AdjectiveOfFresh(_) => false,
    }
}

/// Whether what is read is what the application is wanted for.
#[tactic(auto, using(crate::proofs::SuitsLemmas::suits_rules))]
fn suits(w: &Wanted, m: &Meaning) -> bool
    ensures { IsTrue result ↔ Suits w.now m.now }
{
    match m {
        Meaning::OfLiteral(l) => {
            let fit = literal_suits(w, l);
            fit
        }
        Meaning::OfTerm(_) => {
            let any = is_anything(w);
            any
        }
        Meaning::OfType(_) => {
            let plain = is_anything(w);
            plain
        }
    }
}

/// Whether the notation is one of the applied symbol.
pub fn is_of_symbol(a: &Applied, x: &Notation) -> bool
    ensures { result ≡ is_of_symbol a.now x.now }
{
    x.pattern.symbol.as_slice() == a.symbol.as_slice()
        && x.pattern.closing.as_slice() == a.closing.as_slice()
        && x.pattern.kind.code() == a.kind.code()
}

/// Whether it has the same numbers of arguments on the left and on the right as well.
pub fn is_candidate(a: &Applied, x: &Notation) -> bool
    ensures { result ≡ is_candidate a.now x.now }
{
    is_of_symbol(a, x)
        && x.pattern.left.len() == a.left.items.len()
        && x.pattern.right.len() == a.right.items.len()
}

/// What the arguments read to by a notation, where that suits.
#[tactic(auto, using(crate::proofs::ChoiceLemmas::passes_rules))]
fn passes(
    alloc: Global,
    clauses: &[Clause],
    env: &Environment,
    ctx: &Context,
    w: &Wanted,
    x: &Notation,
    args: &[Term],
) -> Result<Option<Meaning>, AllocError>
    ensures { IfOk result (λ o. Passes clauses.now env.now ctx.now w.now x.now args.now o) }
{
    match reads(alloc, clauses, env, ctx, x, args)? {
        None => Ok(None),
        Some(m) => { if suits(w, &m) { Ok(Some(m)) } else { Ok(None) } }
    }
}

fn notation_at(xs: &[Arc<Notation>], place: usize) -> &Notation
    requires { place < length xs.now }
    ensures { slice_get (map arc_value xs.now) place ≡ Some result.now }
{
    &xs[place]
}

/// What the arguments read to by the latest of the notations that is a candidate and passes.
#[tactic(auto, using(crate::proofs::FirstLemmas::first_rules))]
fn first_passes(
    alloc: Global,
    clauses: &[Clause],
    env: &Environment,
    ctx: &Context,
    w: &Wanted,
    a: &Applied,
    args: &[Term],
    xs: &[Arc<Notation>],
) -> Result<Option<Meaning>, AllocError>
    ensures { IfOk result (λ o. FirstPasses clauses.now env.now ctx.now w.now args.now (candidates a.now (map arc_value xs.now)) o) }
{
    let mut count = xs.len();
    while count > 0 {
        count -= 1;
        let x = notation_at(xs, count);
        if is_candidate(a, x) {
            match passes(alloc, clauses, env, ctx, w, x, args)? {
                Some(m) => return Ok(Some(m)),
                None => {}
            }
        }
    }
    Ok(None)
}

fn both(alloc: Global, left: &Terms, right: &Terms) -> Result<Terms, AllocError>
    ensures { IfOk result (λ ts. ts ≡ left.now ++ right.now) }
{
    let mut out = left.copy(alloc)?;
    let mut rest = right.copy(alloc)?;
    out.items.append(&mut rest.items)?;
    Ok(out)
}

/// What the applied symbol reads to: by the latest candidate among the notations that passes.
#[tactic(auto, using(crate::proofs::FirstLemmas::chosen_rules))]
pub fn chosen_by(
    alloc: Global,
    clauses: &[Clause],
    env: &Environment,
    ctx: &Context,
    w: &Wanted,
    a: &Applied,
) -> Result<Option<Meaning>, AllocError>
    ensures { IfOk result (λ o. Chosen clauses.now env.now ctx.now w.now a.now o) }
{
    let args = both(alloc, &a.left, &a.right)?;
    let xs = env.notations.of(&a.symbol);
    let us = args.items.as_slice();
    let o = first_passes(alloc, clauses, env, ctx, w, a, us, xs)?;
    Ok(o)
}
