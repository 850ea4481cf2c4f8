//! The visible loci of patterns, and patterns.
ghost use Rattle.std.specs.Prelude.{◌≡◌, ◌++◌, ◌∷◌, [], IfOk, map};
ghost use Rattle.mz_cited.specs.Cited.{tree_of, members};
ghost use Rattle.mz_loci.specs.Loci.{locus_named};
ghost use Rattle.mz_patterns.specs.Patterns.{identifier, identifiers_of, identifiers_in, identifiers_beside, loci_named, both_sides, are_wanted, if_wanted, visible_loci, pattern, ArePut, alone};

use crate::visible::Visible;
use mz_base::numbers::Numbers;
use mz_base::text::Text;
use mz_context::constants::Constant;
use mz_core::pattern::Pattern;
use mz_core::soft_types::SoftTypes;
use mz_loci::fixed::{are_distinct, are_fixed, locus_named};
use mz_logic::kind::Kind;
use mz_tree::chain::Next;
use mz_tree::lists::Separated;
use mz_tree::word::{Comma, Word};
use mz_tree_heading::patterns::{IdentifierTree, LociTree};
use std::alloc::{AllocError, Global};

/// Puts the place of the locus with the name behind the others. Whether there is one.
#[tactic(auto, using(crate::proofs::PlaceLemmas::one_rules))]
fn put_place(ks: &[Option<Constant>], w: &Word, out: &mut Numbers) -> Result<bool, AllocError>
    ensures { IfOk result (λ b. ArePut (alone (locus_named ks.now w.now.spelling)) b out.old out.new) }
{
    match locus_named(ks, w.spelling.as_slice()) {
        Some(place) => {
            out.push(place as u64)?;
            Ok(true)
        }
        None => Ok(false),
    }
}

/// So with further identifiers.
#[tactic(auto, using(crate::proofs::PlaceLemmas::further_rules))]
fn put_further(
    ks: &[Option<Constant>],
    ws: &[Next<Comma, IdentifierTree>],
    out: &mut Numbers,
) -> Result<bool, AllocError>
    ensures { IfOk result (λ b. ArePut (loci_named ks.now (map tree_of ws.now)) b out.old out.new) }
{
    let mut rest = ws;
    while let Some((w, others)) = rest.split_first() {
        if !put_place(ks, &w.tree.name, out)? {
            return Ok(false);
        }
        rest = others;
    }
    Ok(true)
}

/// So with identifiers and commas between them.
#[tactic(auto, using(crate::proofs::PlaceLemmas::member_rules))]
pub fn put_members(
    ks: &[Option<Constant>],
    ws: &Separated<IdentifierTree>,
    out: &mut Numbers,
) -> Result<bool, AllocError>
    ensures { IfOk result (λ b. ArePut (loci_named ks.now (members ws.now)) b out.old out.new) }
{
    if !put_place(ks, &ws.first.name, out)? {
        return Ok(false);
    }
    put_further(ks, ws.more.items.as_slice(), out)
}

#[tactic(auto, using(crate::proofs::PlaceLemmas::put_nothing))]
fn put_side(
    ks: &[Option<Constant>],
    ws: &Option<Separated<IdentifierTree>>,
    out: &mut Numbers,
) -> Result<bool, AllocError>
    ensures { IfOk result (λ b. ArePut (loci_named ks.now (identifiers_in ws.now)) b out.old out.new) }
{
    match ws {
        None => Ok(true),
        Some(ws) => put_members(ks, ws, out),
    }
}

/// The places of the loci that the identifiers name, in their order; none where one of them names no locus.
#[tactic(auto, using(crate::proofs::PlaceLemmas::side_rules))]
pub fn side_named(
    alloc: Global,
    ks: &[Option<Constant>],
    ws: &Option<Separated<IdentifierTree>>,
) -> Result<Option<Numbers>, AllocError>
    ensures { IfOk result (λ o. o ≡ loci_named ks.now (identifiers_in ws.now)) }
{
    let mut out = Numbers::new(alloc);
    if put_side(ks, ws, &mut out)? {
        Ok(Some(out))
    } else {
        Ok(None)
    }
}

fn put_loci(ks: &[Option<Constant>], t: &LociTree, out: &mut Numbers) -> Result<bool, AllocError>
    ensures { IfOk result (λ b. ArePut (loci_named ks.now (identifiers_of t.now)) b out.old out.new) }
{
    match t {
        LociTree::One(w) => put_place(ks, w, out),
        LociTree::Several { identifiers, .. } => put_members(ks, identifiers, out),
    }
}

#[tactic(auto, using(crate::proofs::PlaceLemmas::put_nothing))]
fn put_beside(
    ks: &[Option<Constant>],
    t: &Option<LociTree>,
    out: &mut Numbers,
) -> Result<bool, AllocError>
    ensures { IfOk result (λ b. ArePut (loci_named ks.now (identifiers_beside t.now)) b out.old out.new) }
{
    match t {
        None => Ok(true),
        Some(t) => put_loci(ks, t, out),
    }
}

/// The places of the loci beside a symbol, in their order; none where an identifier names no locus.
#[tactic(auto, using(crate::proofs::PlaceLemmas::side_rules))]
pub fn beside_named(
    alloc: Global,
    ks: &[Option<Constant>],
    t: &Option<LociTree>,
) -> Result<Option<Numbers>, AllocError>
    ensures { IfOk result (λ o. o ≡ loci_named ks.now (identifiers_beside t.now)) }
{
    let mut out = Numbers::new(alloc);
    if put_beside(ks, t, &mut out)? {
        Ok(Some(out))
    } else {
        Ok(None)
    }
}

/// The place of the locus with the name, alone; none where there is no such locus.
#[tactic(auto, using(crate::proofs::PlaceLemmas::side_rules))]
pub fn word_named(
    alloc: Global,
    ks: &[Option<Constant>],
    w: &Word,
) -> Result<Option<Numbers>, AllocError>
    ensures { IfOk result (λ o. o ≡ loci_named ks.now (identifier w.now ∷ [])) }
{
    let mut out = Numbers::new(alloc);
    if put_place(ks, w, &mut out)? {
        Ok(Some(out))
    } else {
        Ok(None)
    }
}

/// Whether no place stands twice and the loci at these places fix the others.
fn are_wanted(
    alloc: Global,
    ks: &[Option<Constant>],
    least: u32,
    left: &Numbers,
    right: &Numbers,
) -> Result<bool, AllocError>
    ensures { IfOk result (λ b. b ≡ are_wanted least ks.now (left.now ++ right.now)) }
{
    let mut all = Numbers::from_slice(alloc, left.as_slice())?;
    all.items.extend_from_slice(right.as_slice())?;
    Ok(are_distinct(all.as_slice()) && are_fixed(ks, least, all.as_slice())?)
}

/// These visible loci, where they are both and are those that a form wants.
pub fn if_wanted(
    alloc: Global,
    ks: &[Option<Constant>],
    least: u32,
    left: Option<Numbers>,
    right: Option<Numbers>,
) -> Result<Option<Visible>, AllocError>
    ensures { IfOk result (λ o. o ≡ if_wanted least ks.now (both_sides left right)) }
{
    let Some(left) = left else {
        return Ok(None);
    };
    let Some(right) = right else {
        return Ok(None);
    };
    if are_wanted(alloc, ks, least, &left, &right)? {
        Ok(Some(Visible { left, right }))
    } else {
        Ok(None)
    }
}

/// The visible loci of a predicate's pattern, which has these identifiers before and behind its symbol, where the loci of the block are
/// the constants from `least` on; none where an identifier is no locus, one stands twice, or a hidden locus isn't fixed by the visible ones.
pub fn visible_loci(
    alloc: Global,
    ks: &[Option<Constant>],
    least: u32,
    left: &Option<Separated<IdentifierTree>>,
    right: &Option<Separated<IdentifierTree>>,
) -> Result<Option<Visible>, AllocError>
    ensures { IfOk result (λ o. o ≡ visible_loci least ks.now (identifiers_in left.now) (identifiers_in right.now)) }
{
    let left = side_named(alloc, ks, left)?;
    let right = side_named(alloc, ks, right)?;
    if_wanted(alloc, ks, least, left, right)
}

/// The visible loci of an attribute's pattern, which has its subject behind its symbol; none where they are bad, as in `visible_loci`.
pub fn visible_attribute(
    alloc: Global,
    ks: &[Option<Constant>],
    least: u32,
    loci: &Option<LociTree>,
    subject: &Word,
) -> Result<Option<Visible>, AllocError>
    ensures { IfOk result (λ o. o ≡ visible_loci least ks.now (identifiers_beside loci.now) (identifier subject.now ∷ [])) }
{
    let left = beside_named(alloc, ks, loci)?;
    let right = word_named(alloc, ks, subject)?;
    if_wanted(alloc, ks, least, left, right)
}

/// A pattern without a closing bracket.
pub fn pattern(
    alloc: Global,
    kind: Kind,
    symbol: &Text,
    loci: SoftTypes,
    v: Visible,
) -> Result<Pattern, AllocError>
    ensures { IfOk result (λ p. p ≡ pattern kind symbol.now loci v) }
{
    let symbol = symbol.copy(alloc)?;
    let Visible { left, right } = v;
    Ok(Pattern {
        symbol,
        closing: Text::new(alloc),
        kind,
        loci,
        left,
        right,
    })
}
