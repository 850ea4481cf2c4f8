//! What identifiers, and the words that stand for something at a place, are read to.
ghost use Rattle.std.specs.Prelude.{◌≡◌, IfOk, reverse, find};
ghost use Rattle.std.specs.Option.{option_copied};
ghost use Rattle.mz_names.specs.Names.{has_name, number_of, variable, reserved_as, reserved_type, is_only_reserved, argument, private_functor, private_predicate, functor_letter, predicate_letter, labelled_as, is_reserved_as, is_functor_as, is_predicate_as, is_functor_letter_as, is_predicate_letter_as, has_label, is_of_functor, letter_sym, letter_places};

use crate::scope::type_from;
use mz_context::constants::Constant;
use mz_context::context::Context;
use mz_context::labelled::LabelledStatement;
use mz_context::letters::NamedLetter;
use mz_context::private::{PrivateFunctor, PrivatePredicate};
use mz_context::reserved::ReservedVariable;
use mz_core::scheme::SchemeLetter;
use mz_core::soft_type::SoftType;
use mz_core::soft_types::SoftTypes;
use mz_logic::sym::Sym;
use mz_logic::term::Term;
use std::alloc::AllocError;

fn has_name(k: &Option<Constant>, name: &[u8]) -> bool
    ensures { result ≡ has_name name.now k.now }
{
    match k {
        Some(k) => k.name.as_slice() == name,
        None => false,
    }
}

/// The number of the latest constant in force with the name.
#[tactic(auto, using(crate::proofs::NameLemmas::number_rules))]
pub fn number_of(ks: &[Option<Constant>], name: &[u8]) -> Option<usize>
    ensures { result ≡ number_of name.now ks.now }
{
    let mut n = ks.len();
    while n > 0 {
        if has_name(&ks[n - 1], name) {
            return Some(n);
        }
        n -= 1;
    }
    None
}

/// What an identifier that stands as a variable is read to: the latest constant with the name, where that has at least
/// the number. More than 4,294,967,295 constants are as no memory.
pub fn variable(least: u32, ctx: &Context, name: &[u8]) -> Result<Option<Term>, AllocError>
    ensures { IfOk result (λ t. t ≡ variable least ctx.now name.now) }
{
    match number_of(ctx.constants.items.as_slice(), name) {
        Some(n) => {
            if n > 4294967295 {
                return Err(AllocError);
            }
            let n = n as u32;
            if least <= n {
                Ok(Some(Term::constant(n)))
            } else {
                Ok(None)
            }
        }
        None => Ok(None),
    }
}

fn is_reserved_as(v: &ReservedVariable, name: &[u8]) -> bool
    ensures { result ≡ is_reserved_as name.now v.now }
{
    v.name.as_slice() == name
}

fn reserved_as<'a>(vs: &'a [ReservedVariable], name: &[u8]) -> Option<&'a ReservedVariable>
    ensures { option_copied result ≡ reserved_as name.now vs.now }
{
    vs.iter().rev().find(|v| is_reserved_as(v, name))
}

/// The type with which a variable of the name was reserved, the latest first, where its constants have at least the
/// number.
pub fn reserved_type<'a>(least: u32, ctx: &'a Context, name: &[u8]) -> Option<&'a SoftType>
    ensures { option_copied result ≡ reserved_type least ctx.now name.now }
{
    match reserved_as(ctx.reserved.items.as_slice(), name) {
        Some(v) => {
            if type_from(&v.ty, least) {
                Some(&v.ty)
            } else {
                None
            }
        }
        None => None,
    }
}

/// Whether the identifier stands for no constant and is reserved.
pub fn is_only_reserved(least: u32, ctx: &Context, name: &[u8]) -> bool
    ensures { result ≡ is_only_reserved least ctx.now name.now }
{
    number_of(ctx.constants.items.as_slice(), name).is_none()
        && reserved_type(least, ctx, name).is_some()
}

/// What `$1` and so on stand for, where it is known.
#[tactic(auto, using(crate::proofs::NameLemmas::argument_rules))]
pub fn argument(ctx: &Context, k: u8) -> Option<&Term>
    ensures { option_copied result ≡ argument ctx.now k }
{
    if k == 0 {
        return None;
    }
    ctx.arguments.items.get(k as usize - 1)
}

fn is_functor_as(f: &PrivateFunctor, name: &[u8]) -> bool
    ensures { result ≡ is_functor_as name.now f.now }
{
    f.name.as_slice() == name
}

fn functor_as<'a>(fs: &'a [PrivateFunctor], name: &[u8]) -> Option<&'a PrivateFunctor>
    ensures { option_copied result ≡ find (is_functor_as name.now) (reverse fs.now) }
{
    fs.iter().rev().find(|f| is_functor_as(f, name))
}

/// The latest private functor with the name.
pub fn private_functor<'a>(ctx: &'a Context, name: &[u8]) -> Option<&'a PrivateFunctor>
    ensures { option_copied result ≡ private_functor ctx.now name.now }
{
    functor_as(ctx.functors.items.as_slice(), name)
}

fn is_predicate_as(p: &PrivatePredicate, name: &[u8]) -> bool
    ensures { result ≡ is_predicate_as name.now p.now }
{
    p.name.as_slice() == name
}

fn predicate_as<'a>(ps: &'a [PrivatePredicate], name: &[u8]) -> Option<&'a PrivatePredicate>
    ensures { option_copied result ≡ find (is_predicate_as name.now) (reverse ps.now) }
{
    ps.iter().rev().find(|p| is_predicate_as(p, name))
}

/// The latest private predicate with the name.
pub fn private_predicate<'a>(ctx: &'a Context, name: &[u8]) -> Option<&'a PrivatePredicate>
    ensures { option_copied result ≡ private_predicate ctx.now name.now }
{
    predicate_as(ctx.predicates.items.as_slice(), name)
}

fn is_of_functor(l: &SchemeLetter) -> bool
    ensures { result ≡ is_of_functor l.now }
{
    match l {
        SchemeLetter::OfFunctor(_, _, _) => true,
        SchemeLetter::OfPredicate(_, _) => false,
    }
}

fn is_functor_letter_as(l: &NamedLetter, name: &[u8]) -> bool
    ensures { result ≡ is_functor_letter_as name.now l.now }
{
    is_of_functor(&l.letter) && l.name.as_slice() == name
}

fn is_predicate_letter_as(l: &NamedLetter, name: &[u8]) -> bool
    ensures { result ≡ is_predicate_letter_as name.now l.now }
{
    !is_of_functor(&l.letter) && l.name.as_slice() == name
}

fn functor_letter_as<'a>(ls: &'a [NamedLetter], name: &[u8]) -> Option<&'a NamedLetter>
    ensures { option_copied result ≡ find (is_functor_letter_as name.now) (reverse ls.now) }
{
    ls.iter().rev().find(|l| is_functor_letter_as(l, name))
}

/// The latest functor letter in force with the name.
pub fn functor_letter<'a>(ctx: &'a Context, name: &[u8]) -> Option<&'a NamedLetter>
    ensures { option_copied result ≡ functor_letter ctx.now name.now }
{
    functor_letter_as(ctx.letters.items.as_slice(), name)
}

fn predicate_letter_as<'a>(ls: &'a [NamedLetter], name: &[u8]) -> Option<&'a NamedLetter>
    ensures { option_copied result ≡ find (is_predicate_letter_as name.now) (reverse ls.now) }
{
    ls.iter().rev().find(|l| is_predicate_letter_as(l, name))
}

/// The latest predicate letter in force with the name.
pub fn predicate_letter<'a>(ctx: &'a Context, name: &[u8]) -> Option<&'a NamedLetter>
    ensures { option_copied result ≡ predicate_letter ctx.now name.now }
{
    predicate_letter_as(ctx.letters.items.as_slice(), name)
}

/// The symbol of a letter.
pub fn letter_sym(l: &SchemeLetter) -> Sym
    ensures { result ≡ letter_sym l.now }
{
    match l {
        SchemeLetter::OfFunctor(s, _, _) => *s,
        SchemeLetter::OfPredicate(s, _) => *s,
    }
}

/// The types of a letter's places.
pub fn letter_places(l: &SchemeLetter) -> &SoftTypes
    ensures { result.now ≡ letter_places l.now }
{
    match l {
        SchemeLetter::OfFunctor(_, places, _) => places,
        SchemeLetter::OfPredicate(_, places) => places,
    }
}

fn has_label(s: &LabelledStatement, label: &[u8]) -> bool
    ensures { result ≡ has_label label.now s.now }
{
    s.label.as_slice() == label
}

fn statement_as<'a>(ss: &'a [LabelledStatement], label: &[u8]) -> Option<&'a LabelledStatement>
    ensures { option_copied result ≡ find (has_label label.now) (reverse ss.now) }
{
    ss.iter().rev().find(|s| has_label(s, label))
}

/// The latest statement with the label.
pub fn labelled_as<'a>(ctx: &'a Context, label: &[u8]) -> Option<&'a LabelledStatement>
    ensures { option_copied result ≡ labelled_as ctx.now label.now }
{
    statement_as(ctx.labelled.items.as_slice(), label)
}
