//! The visible loci of the patterns of functors and modes, and their patterns.
ghost use Rattle.std.specs.Prelude.{◌≡◌, [], IfOk};
ghost use Rattle.mz_cited.specs.Cited.{members};
ghost use Rattle.mz_patterns.specs.Patterns.{identifiers_beside, loci_named, both_sides, visible_loci};
ghost use Rattle.mz_patterns.specs.Functors.{functor_left, functor_right, functor_symbol, functor_closing, identifiers_behind, mode_right, closed_pattern};

use crate::patterns::{beside_named, if_wanted, put_members};
use crate::visible::Visible;
use mz_base::numbers::Numbers;
use mz_base::text::Text;
use mz_context::constants::Constant;
use mz_core::pattern::Pattern;
use mz_core::soft_types::SoftTypes;
use mz_logic::kind::Kind;
use mz_tree::lists::Separated;
use mz_tree_heading::patterns::{
    FunctorPatternTree, IdentifierTree, ModeLociTree, ModePatternTree, SymbolPatternTree,
};
use std::alloc::{AllocError, Global};

/// The places of the loci that the identifiers name, in their order; none where one of them names no locus.
#[tactic(auto, using(crate::proofs::PlaceLemmas::side_rules))]
fn members_named(
    alloc: Global,
    ks: &[Option<Constant>],
    ws: &Separated<IdentifierTree>,
) -> Result<Option<Numbers>, AllocError>
    ensures { IfOk result (λ o. o ≡ loci_named ks.now (members ws.now)) }
{
    let mut out = Numbers::new(alloc);
    if put_members(ks, ws, &mut out)? {
        Ok(Some(out))
    } else {
        Ok(None)
    }
}

/// The places of the loci before and behind a symbol, each side as of `side_named`.
type Sides = (Option<Numbers>, Option<Numbers>);

/// Of identifiers that stand behind a symbol, before which none stands.
fn sides_behind(
    alloc: Global,
    ks: &[Option<Constant>],
    ws: &Separated<IdentifierTree>,
) -> Result<Sides, AllocError>
    ensures { IfOk result (λ p. (p.0 ≡ loci_named ks.now []) × (p.1 ≡ loci_named ks.now (members ws.now))) }
{
    let right = members_named(alloc, ks, ws)?;
    Ok((Some(Numbers::new(alloc)), right))
}

fn sides_of_symbol(
    alloc: Global,
    ks: &[Option<Constant>],
    t: &SymbolPatternTree,
) -> Result<Sides, AllocError>
    ensures { IfOk result (λ p. (p.0 ≡ loci_named ks.now (identifiers_beside t.now.left)) × (p.1 ≡ loci_named ks.now (identifiers_beside t.now.right))) }
{
    let left = beside_named(alloc, ks, &t.left)?;
    let right = beside_named(alloc, ks, &t.right)?;
    Ok((left, right))
}

fn sides_of_functor(
    alloc: Global,
    ks: &[Option<Constant>],
    t: &FunctorPatternTree,
) -> Result<Sides, AllocError>
    ensures { IfOk result (λ p. (p.0 ≡ loci_named ks.now (functor_left t.now)) × (p.1 ≡ loci_named ks.now (functor_right t.now))) }
{
    match t {
        FunctorPatternTree::Symbol(t) => sides_of_symbol(alloc, ks, t),
        FunctorPatternTree::Brackets { identifiers, .. } => sides_behind(alloc, ks, identifiers),
        FunctorPatternTree::Braces { identifiers, .. } => sides_behind(alloc, ks, identifiers),
        FunctorPatternTree::Squares { identifiers, .. } => sides_behind(alloc, ks, identifiers),
    }
}

fn sides_of_mode(
    alloc: Global,
    ks: &[Option<Constant>],
    t: &Option<ModeLociTree>,
) -> Result<Sides, AllocError>
    ensures { IfOk result (λ p. (p.0 ≡ loci_named ks.now []) × (p.1 ≡ loci_named ks.now (identifiers_behind t.now))) }
{
    match t {
        Some(t) => sides_behind(alloc, ks, &t.identifiers),
        None => Ok((Some(Numbers::new(alloc)), Some(Numbers::new(alloc)))),
    }
}

/// The visible loci of a functor's pattern; none where they are bad, as in `visible_loci`.
pub fn functor_loci(
    alloc: Global,
    ks: &[Option<Constant>],
    least: u32,
    t: &FunctorPatternTree,
) -> Result<Option<Visible>, AllocError>
    ensures { IfOk result (λ o. o ≡ visible_loci least ks.now (functor_left t.now) (functor_right t.now)) }
{
    let (left, right) = sides_of_functor(alloc, ks, t)?;
    if_wanted(alloc, ks, least, left, right)
}

/// The visible loci of a mode's pattern; none where they are bad, as in `visible_loci`.
pub fn mode_loci(
    alloc: Global,
    ks: &[Option<Constant>],
    least: u32,
    t: &ModePatternTree,
) -> Result<Option<Visible>, AllocError>
    ensures { IfOk result (λ o. o ≡ visible_loci least ks.now [] (mode_right t.now)) }
{
    let (left, right) = sides_of_mode(alloc, ks, &t.loci)?;
    if_wanted(alloc, ks, least, left, right)
}

/// Both sides, where there are both.
pub fn both_sides(left: Option<Numbers>, right: Option<Numbers>) -> Option<Visible>
    ensures { result ≡ both_sides left right }
{
    let Some(left) = left else {
        return None;
    };
    let Some(right) = right else {
        return None;
    };
    Some(Visible { left, right })
}

/// The loci that a functor's pattern names; none where an identifier names no locus.
pub fn functor_named(
    alloc: Global,
    ks: &[Option<Constant>],
    t: &FunctorPatternTree,
) -> Result<Option<Visible>, AllocError>
    ensures { IfOk result (λ o. o ≡ both_sides (loci_named ks.now (functor_left t.now)) (loci_named ks.now (functor_right t.now))) }
{
    let (left, right) = sides_of_functor(alloc, ks, t)?;
    Ok(both_sides(left, right))
}

/// The loci that a mode's pattern names; none where an identifier names no locus.
pub fn mode_named(
    alloc: Global,
    ks: &[Option<Constant>],
    t: &ModePatternTree,
) -> Result<Option<Visible>, AllocError>
    ensures { IfOk result (λ o. o ≡ both_sides (loci_named ks.now []) (loci_named ks.now (mode_right t.now))) }
{
    let (left, right) = sides_of_mode(alloc, ks, &t.loci)?;
    Ok(both_sides(left, right))
}

/// The symbol of a functor's pattern, of brackets the left one.
pub fn functor_symbol(alloc: Global, t: &FunctorPatternTree) -> Result<Text, AllocError>
    ensures { IfOk result (λ w. w ≡ functor_symbol t.now) }
{
    match t {
        FunctorPatternTree::Symbol(t) => t.symbol.spelling.copy(alloc),
        FunctorPatternTree::Brackets { left, .. } => left.spelling.copy(alloc),
        FunctorPatternTree::Braces { .. } => Text::from_slice(alloc, b"{"),
        FunctorPatternTree::Squares { .. } => Text::from_slice(alloc, b"["),
    }
}

/// The right bracket of a functor's pattern, which is empty where it has none.
pub fn functor_closing(alloc: Global, t: &FunctorPatternTree) -> Result<Text, AllocError>
    ensures { IfOk result (λ w. w ≡ functor_closing t.now) }
{
    match t {
        FunctorPatternTree::Symbol(_) => Ok(Text::new(alloc)),
        FunctorPatternTree::Brackets { right, .. } => right.spelling.copy(alloc),
        FunctorPatternTree::Braces { .. } => Text::from_slice(alloc, b"}"),
        FunctorPatternTree::Squares { .. } => Text::from_slice(alloc, b"]"),
    }
}

/// A pattern with a closing bracket, which is empty where it has none.
pub fn closed_pattern(
    kind: Kind,
    symbol: Text,
    closing: Text,
    loci: SoftTypes,
    v: Visible,
) -> Pattern
    ensures { result ≡ closed_pattern kind symbol closing loci v }
{
    let Visible { left, right } = v;
    Pattern {
        symbol,
        closing,
        kind,
        loci,
        left,
        right,
    }
}
