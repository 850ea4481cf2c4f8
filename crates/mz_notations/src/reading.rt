//! What patterns read to.
ghost use Rattle.std.specs.Prelude.{◌≡◌, ◌∷◌, [], map, IfOk};
ghost use Rattle.mz_applied.specs.Reading.{Means};
ghost use Rattle.mz_choice.specs.declared.choice.Wanted.TheVariants.{Anything};
ghost use Rattle.mz_items.specs.Closed.{is_term, is_literal, is_type, meaning_fits};
ghost use Rattle.mz_notations.specs.Reading.{new_loci, old_loci, locus_at, applied_on, applied_to, meaning_keeps, kept_meaning, as_pattern, SymbolReads, PatternReads};
ghost use Rattle.mz_patterns.specs.Patterns.{identifier, identifiers_in, identifiers_beside, loci_named, both_sides};

use crate::patterns::{closing_of, first_of, kind_of, symbol_of, symbol_place};
use mz_applied::meant::meant;
use mz_base::place::Place;
use mz_base::text::Text;
use mz_choice::choice::{Applied, Wanted};
use mz_choice::resolve::resolve;
use mz_context::constants::Constant;
use mz_context::context::Context;
use mz_core::notation::Meaning;
use mz_core::type_statements::literal_statement;
use mz_environment::environment::Environment;
use mz_logic::kind::Kind;
use mz_logic::term::{Term, Terms};
use mz_names::refusal::Refusal;
use mz_patterns::functors::{both_sides, functor_loci, functor_named, mode_loci, mode_named};
use mz_patterns::patterns::{
    beside_named, side_named, visible_attribute, visible_loci, word_named,
};
use mz_patterns::visible::Visible;
use mz_sizes::keeps::{statement_keeps, term_keeps, type_keeps};
use mz_tree_heading::patterns::{AttributePatternTree, PatternTree, PredicatePatternTree};
use std::alloc::{AllocError, Global};

/// The loci that a new pattern names; none where they aren't those that it wants.
pub fn new_loci(
    alloc: Global,
    ks: &[Option<Constant>],
    least: u32,
    t: &PatternTree,
) -> Result<Option<Visible>, AllocError>
    ensures { IfOk result (λ o. o ≡ new_loci least ks.now t.now) }
{
    match t {
        PatternTree::Functor(t) => functor_loci(alloc, ks, least, t),
        PatternTree::Predicate(t) => visible_loci(alloc, ks, least, &t.left, &t.right),
        PatternTree::Attribute(t) => visible_attribute(alloc, ks, least, &t.loci, &t.subject),
        PatternTree::Mode(t) => mode_loci(alloc, ks, least, t),
    }
}

fn predicate_named(
    alloc: Global,
    ks: &[Option<Constant>],
    t: &PredicatePatternTree,
) -> Result<Option<Visible>, AllocError>
    ensures { IfOk result (λ o. o ≡ both_sides (loci_named ks.now (identifiers_in t.now.left)) (loci_named ks.now (identifiers_in t.now.right))) }
{
    let left = side_named(alloc, ks, &t.left)?;
    let right = side_named(alloc, ks, &t.right)?;
    Ok(both_sides(left, right))
}

fn attribute_named(
    alloc: Global,
    ks: &[Option<Constant>],
    t: &AttributePatternTree,
) -> Result<Option<Visible>, AllocError>
    ensures { IfOk result (λ o. o ≡ both_sides (loci_named ks.now (identifiers_beside t.now.loci)) (loci_named ks.now (identifier t.now.subject ∷ []))) }
{
    let left = beside_named(alloc, ks, &t.loci)?;
    let right = word_named(alloc, ks, &t.subject)?;
    Ok(both_sides(left, right))
}

/// The loci that an old pattern names, each as often as it likes; none where an identifier names no locus.
pub fn old_loci(
    alloc: Global,
    ks: &[Option<Constant>],
    t: &PatternTree,
) -> Result<Option<Visible>, AllocError>
    ensures { IfOk result (λ o. o ≡ old_loci ks.now t.now) }
{
    match t {
        PatternTree::Functor(t) => functor_named(alloc, ks, t),
        PatternTree::Predicate(t) => predicate_named(alloc, ks, t),
        PatternTree::Attribute(t) => attribute_named(alloc, ks, t),
        PatternTree::Mode(t) => mode_named(alloc, ks, t),
    }
}

/// A locus as a constant. A number above 4,294,967,295 is as no memory.
fn locus_at(least: u32, place: u64) -> Result<Term, AllocError>
    ensures { IfOk result (λ t. t ≡ locus_at least place) }
{
    let place = u32::try_from(place).map_err(|_| AllocError)?;
    let number = least.checked_add(place).ok_or(AllocError)?;
    Ok(Term::constant(number))
}

fn loci_at(alloc: Global, least: u32, places: &[u64]) -> Result<Terms, AllocError>
    ensures { IfOk result (λ ts. ts ≡ map (locus_at least) places.now) }
{
    let mut out = Vec::new(alloc);
    for place in places {
        out.push(locus_at(least, *place)?)?;
    }
    Ok(Terms { items: out })
}

/// A symbol on the loci.
pub fn applied_on(
    alloc: Global,
    least: u32,
    k: Kind,
    symbol: Text,
    closing: Text,
    v: &Visible,
) -> Result<Applied, AllocError>
    ensures { IfOk result (λ a. a ≡ applied_on least k symbol closing v.now) }
{
    let left = loci_at(alloc, least, v.left.as_slice())?;
    let right = loci_at(alloc, least, v.right.as_slice())?;
    Ok(Applied {
        symbol,
        closing,
        kind: k,
        left,
        right,
    })
}

/// The pattern's symbol on the loci.
fn applied_to(
    alloc: Global,
    least: u32,
    t: &PatternTree,
    v: &Visible,
) -> Result<Applied, AllocError>
    ensures { IfOk result (λ a. a ≡ applied_to least t.now v.now) }
{
    let symbol = symbol_of(alloc, t)?;
    let closing = closing_of(alloc, t)?;
    applied_on(alloc, least, kind_of(t), symbol, closing, v)
}

fn is_term(m: &Meaning) -> bool
    ensures { result ≡ is_term m.now }
{
    matches!(m, Meaning::OfTerm(_))
}

fn is_literal(m: &Meaning) -> bool
    ensures { result ≡ is_literal m.now }
{
    matches!(m, Meaning::OfLiteral(_))
}

fn is_type(m: &Meaning) -> bool
    ensures { result ≡ is_type m.now }
{
    matches!(m, Meaning::OfType(_))
}

fn meaning_fits(k: Kind, m: &Meaning) -> bool
    ensures { result ≡ meaning_fits k m.now }
{
    match k {
        Kind::Mode => is_type(m),
        Kind::Structure => is_type(m),
        Kind::Attribute => is_literal(m),
        Kind::Functor => is_term(m),
        Kind::Selector => is_term(m),
        Kind::Aggregate => is_term(m),
        Kind::Predicate => is_literal(m),
        Kind::LetterFunctor => false,
        Kind::LetterPredicate => false,
    }
}

fn meaning_keeps(alloc: Global, m: &Meaning) -> Result<bool, AllocError>
    ensures { IfOk result (λ b. b ≡ meaning_keeps m.now) }
{
    match m {
        Meaning::OfTerm(t) => Ok(term_keeps(t)),
        Meaning::OfLiteral(l) => {
            let s = literal_statement(alloc, l)?;
            Ok(statement_keeps(&s))
        }
        Meaning::OfType(ty) => Ok(type_keeps(ty)),
    }
}

/// What is meant, as what a pattern of the kind reads to.
#[tactic(auto, using(crate::proofs::ReadingLemmas::form_rules))]
fn as_pattern(
    alloc: Global,
    k: Kind,
    place: Place,
    first: Place,
    m: Meaning,
) -> Result<Result<Meaning, Refusal>, AllocError>
    ensures { IfOk result (λ o. o ≡ as_pattern k place first m) }
{
    if !meaning_fits(k, &m) {
        return Ok(Err(Refusal::UnfitArgument(place)));
    }
    if !meaning_keeps(alloc, &m)? {
        return Ok(Err(Refusal::TooLarge(first)));
    }
    Ok(Ok(m))
}

/// What an application means, or the refusal at the symbol's place.
#[tactic(auto, using(crate::proofs::ReadingLemmas::means_rules))]
fn meaning(
    alloc: Global,
    env: &Environment,
    ctx: &Context,
    place: Place,
    a: &Applied,
) -> Result<Result<Meaning, Refusal>, AllocError>
    ensures { IfOk result (λ o. Means env.now ctx.now Anything place a.now o) }
{
    let w = Wanted::Anything;
    let o = resolve(alloc, env, ctx, &w, a)?;
    let m = meant(place, o);
    Ok(m)
}

/// What a symbol reads to on loci, as a pattern of the kind whose symbol and first token stand at the places, with the latest notation that
/// passes.
///
/// Refusals: at the symbol, `UnknownSymbol`, `NoNotation` and `UnfitArgument`; `TooLarge` at the first token.
#[tactic(auto, using(crate::proofs::ReadingLemmas::reads_rules))]
pub fn read_symbol(
    alloc: Global,
    env: &Environment,
    ctx: &Context,
    k: Kind,
    place: Place,
    first: Place,
    a: &Applied,
) -> Result<Result<Meaning, Refusal>, AllocError>
    ensures { IfOk result (λ o. SymbolReads env.now ctx.now k place first a.now o) }
{
    match meaning(alloc, env, ctx, place, a)? {
        Err(r) => Ok(Err(r)),
        Ok(m) => {
            let o = as_pattern(alloc, k, place, first, m)?;
            Ok(o)
        }
    }
}

/// What the pattern reads to on the loci, which are the constants from `least` on, as `read_symbol`.
#[tactic(auto, using(crate::proofs::ReadingLemmas::pattern_rules))]
pub fn read_pattern(
    alloc: Global,
    env: &Environment,
    ctx: &Context,
    least: u32,
    t: &PatternTree,
    v: &Visible,
) -> Result<Result<Meaning, Refusal>, AllocError>
    ensures { IfOk result (λ o. PatternReads env.now ctx.now least t.now v.now o) }
{
    let a = applied_to(alloc, least, t, v)?;
    let place = symbol_place(t);
    let first = first_of(t);
    let o = read_symbol(alloc, env, ctx, kind_of(t), place, first, &a)?;
    Ok(o)
}
