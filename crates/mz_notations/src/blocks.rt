//! Blocks of notations.
ghost use Rattle.std.specs.Prelude.{◌≡◌, true, [], length, IfOk, OnOk};
ghost use Rattle.mz_applied.specs.Meant.{literal_of};
ghost use Rattle.mz_context.specs.Context.{next};
ghost use Rattle.mz_justified.specs.declared.proof_fault.ProofRefusal.TheVariants.{Resolve};
ghost use Rattle.mz_loci.specs.Loci.{loci_from, behind_loci};
ghost use Rattle.mz_notations.specs.Notes.{has_opposite, may_stand, are_alike, opposite_of, signed_by, notation_of, noted, TakesNotation, NotesPart, NotesBlock};
ghost use Rattle.mz_notations.specs.Reading.{new_loci, old_loci};
ghost use Rattle.mz_standing.specs.Standing.{with_context};
ghost use Rattle.mz_taken.specs.Answers.{OnTaken, Leads};
ghost use Rattle.mz_taken.specs.OneByOne.{OneByOne};
ghost use Rattle.mz_taken.specs.declared.item_fault.ItemFault.TheVariants.{Refused};
ghost use Rattle.mz_taken.specs.declared.item_fault.ItemRefusal.TheVariants.{Proof};

use crate::over::meaning_over_loci;
use crate::patterns::{closing_of, kind_of, symbol_of, symbol_place};
use crate::reading::{new_loci, old_loci, read_pattern};
use mz_base::place::Place;
use mz_base::text::Text;
use mz_context::context::Context;
use mz_core::item::Item;
use mz_core::notation::{Meaning, Notation};
use mz_items::loci::count_of;
use mz_justified::proof_fault::ProofRefusal;
use mz_let::loci::take_let;
use mz_loci::loci::{end_loci, loci_from, locus_types};
use mz_logic::kind::Kind;
use mz_logic::literal::Literal;
use mz_names::refusal::Refusal;
use mz_patterns::functors::closed_pattern;
use mz_patterns::visible::Visible;
use mz_standing::changes::put_item;
use mz_standing::labels::end_heading;
use mz_standing::standing::Standing;
use mz_taken::item_fault::{ItemFault, ItemRefusal};
use mz_tree_heading::patterns::PatternTree;
use mz_tree_part::notation::{NotationPartTree, NotationTree};
use mz_tree_part::words::NotationWord;
use std::alloc::{AllocError, Global};

fn has_opposite(k: Kind) -> bool
    ensures { result ≡ has_opposite k }
{
    match k {
        Kind::Mode => false,
        Kind::Structure => false,
        Kind::Attribute => true,
        Kind::Functor => false,
        Kind::Selector => false,
        Kind::Aggregate => false,
        Kind::Predicate => true,
        Kind::LetterFunctor => false,
        Kind::LetterPredicate => false,
    }
}

fn may_stand(w: NotationWord, k: Kind) -> bool
    ensures { result ≡ may_stand w k }
{
    match w {
        NotationWord::Synonym => true,
        NotationWord::Antonym => has_opposite(k),
    }
}

fn are_alike(w: NotationWord, p: &PatternTree, q: &PatternTree) -> bool
    ensures { result ≡ are_alike w p.now q.now }
{
    kind_of(p).code() == kind_of(q).code() && may_stand(w, kind_of(q))
}

/// The literal with the other sign.
fn other_sign(l: Literal) -> Literal
    ensures { result ≡ literal_of true l }
{
    match l {
        Literal::Atom {
            positive,
            sym,
            args,
        } => Literal::Atom {
            positive: !positive,
            sym,
            args,
        },
        Literal::Eq {
            positive,
            left,
            right,
        } => Literal::Eq {
            positive: !positive,
            left,
            right,
        },
    }
}

fn opposite_of(m: Meaning) -> Meaning
    ensures { result ≡ opposite_of m }
{
    match m {
        Meaning::OfTerm(t) => Meaning::OfTerm(t),
        Meaning::OfLiteral(l) => Meaning::OfLiteral(other_sign(l)),
        Meaning::OfType(ty) => Meaning::OfType(ty),
    }
}

fn signed_by(w: NotationWord, m: Meaning) -> Meaning
    ensures { result ≡ signed_by w m }
{
    match w {
        NotationWord::Synonym => m,
        NotationWord::Antonym => opposite_of(m),
    }
}

/// The notation that is made of what the old pattern reads to.
fn notation_of(
    alloc: Global,
    ctx: &Context,
    least: u32,
    w: NotationWord,
    p: &PatternTree,
    v: Visible,
    m: Meaning,
) -> Result<Item, AllocError>
    ensures { IfOk result (λ x. x ≡ notation_of least ctx.now w p.now v m) }
{
    let loci = loci_from(ctx.constants.items.as_slice(), least);
    let count = count_of(loci.len())?;
    let signed = signed_by(w, m);
    let meaning = meaning_over_loci(alloc, &signed, least, count)?;
    let types = locus_types(alloc, loci, least)?;
    let symbol = symbol_of(alloc, p)?;
    let closing = closing_of(alloc, p)?;
    let pattern = closed_pattern(kind_of(p), symbol, closing, types, v);
    Ok(Item::Notation(Notation { pattern, meaning }))
}

/// Puts the notation in force.
fn put_notation(alloc: Global, s: &mut Standing, x: Item) -> Result<(), AllocError>
    ensures { OnOk result (s.new ≡ noted s.old x) }
{
    end_heading(alloc, &mut s.context, &x, Text::new(alloc))?;
    put_item(alloc, s, x)
}

/// Makes the notation of what the old pattern reads to, and puts it in force.
fn make_notation(
    alloc: Global,
    s: &mut Standing,
    least: u32,
    w: NotationWord,
    p: &PatternTree,
    v: Visible,
    m: Meaning,
) -> Result<(), AllocError>
    ensures { OnOk result (s.new ≡ noted s.old (notation_of least s.old.context w p.now v m)) }
{
    let x = notation_of(alloc, &s.context, least, w, p, v, m)?;
    put_notation(alloc, s, x)
}

/// The loci of both patterns.
fn new_there(
    alloc: Global,
    ctx: &Context,
    least: u32,
    p: &PatternTree,
) -> Result<Option<Visible>, AllocError>
    ensures { IfOk result (λ o. o ≡ new_loci least (loci_from least ctx.now.constants) p.now) }
{
    new_loci(
        alloc,
        loci_from(ctx.constants.items.as_slice(), least),
        least,
        p,
    )
}

fn old_there(
    alloc: Global,
    ctx: &Context,
    least: u32,
    q: &PatternTree,
) -> Result<Option<Visible>, AllocError>
    ensures { IfOk result (λ o. o ≡ old_loci (loci_from least ctx.now.constants) q.now) }
{
    old_loci(alloc, loci_from(ctx.constants.items.as_slice(), least), q)
}

fn unread(r: Refusal) -> ItemFault
    ensures { result ≡ Refused (Proof (Resolve r)) }
{
    ItemFault::Refused(ItemRefusal::Proof(ProofRefusal::Resolve(r)))
}

/// Takes a further pattern for what the old one reads to, in a block whose loci are the constants from `least` on, where the word stands at
/// the place.
///
/// # Errors
/// `BadLoci` at the word where the loci of the new pattern aren't those that it wants, or an identifier of the old one is no locus;
/// `UnknownSymbol` at the old pattern's symbol where the kinds differ or have no opposite; the refusal of the old pattern; or there was no
/// memory.
fn take_notation(
    alloc: Global,
    s: &mut Standing,
    least: u32,
    place: Place,
    w: NotationWord,
    p: &PatternTree,
    q: &PatternTree,
) -> Result<(), ItemFault>
    ensures { OnTaken result (Leads (TakesNotation least s.old place w p.now q.now) s.new) }
{
    match new_there(alloc, &s.context, least, p)? {
        None => Err(ItemFault::Refused(ItemRefusal::BadLoci(place))),
        Some(v) => match old_there(alloc, &s.context, least, q)? {
            None => Err(ItemFault::Refused(ItemRefusal::BadLoci(place))),
            Some(u) => {
                if !are_alike(w, p, q) {
                    return Err(unread(Refusal::UnknownSymbol(symbol_place(q))));
                }
                match read_pattern(alloc, &s.environment, &s.context, least, q, &u)? {
                    Err(r) => Err(unread(r)),
                    Ok(m) => {
                        make_notation(alloc, s, least, w, p, v, m)?;
                        Ok(())
                    }
                }
            }
        },
    }
}

fn take_part(
    alloc: Global,
    s: &mut Standing,
    least: u32,
    part: &NotationPartTree,
) -> Result<(), ItemFault>
    ensures { OnTaken result (Leads (NotesPart least s.old part.now) s.new) }
{
    match part {
        NotationPartTree::Let(t) => take_let(alloc, s, least, t),
        NotationPartTree::Notation {
            place,
            word,
            first,
            second,
            ..
        } => take_notation(alloc, s, least, *place, *word, first, second),
    }
}

fn take_parts(
    alloc: Global,
    s: &mut Standing,
    least: u32,
    parts: &[NotationPartTree],
) -> Result<(), ItemFault>
    ensures { OnTaken result (Leads (OneByOne (NotesPart least) s.old parts.now) s.new) }
{
    let mut rest = parts;
    while let Some((part, others)) = rest.split_first() {
        match take_part(alloc, s, least, part) {
            Ok(()) => rest = others,
            Err(fault) => return Err(fault),
        }
    }
    Ok(())
}

/// The number of the next constant.
fn next(ctx: &Context) -> Result<u32, AllocError>
    ensures { IfOk result (λ n. n ≡ next ctx.now) }
{
    u32::try_from(ctx.next()).map_err(|_| AllocError)
}

fn end(s: &mut Standing, least: u32)
    ensures { s.new ≡ with_context s.old (behind_loci s.old.context least) }
{
    end_loci(&mut s.context, least);
}

/// Takes a block of notations, which makes no obligation.
///
/// # Errors
/// The first refusal in the order of the text, with its place; or there was no memory.
pub fn take_notations(alloc: Global, s: &mut Standing, t: &NotationTree) -> Result<(), ItemFault>
    ensures { OnTaken result (Leads (NotesBlock s.old t.now) s.new) }
{
    let least = next(&s.context)?;
    match take_parts(alloc, s, least, t.parts.items.as_slice()) {
        Ok(()) => {
            end(s, least);
            Ok(())
        }
        Err(fault) => Err(fault),
    }
}
