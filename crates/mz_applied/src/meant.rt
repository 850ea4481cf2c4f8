//! What an application means, as a term, a type, an adjective or a statement.
ghost use Rattle.std.specs.Prelude.{◌≡◌, IfOk};
ghost use Rattle.mz_applied.specs.Meant.{meant, as_term, as_type, as_statement, sign_of, literal_of, keeps_alone, attributed, as_attributed, but_last, adjective_of, as_adjective};

use crate::within::{within_adjective, within_statement, within_term};
use mz_base::place::Place;
use mz_choice::resolve::Resolution;
use mz_core::adjective::Adjective;
use mz_core::notation::Meaning;
use mz_core::soft_type::SoftType;
use mz_core::statement::Statement;
use mz_core::type_statements::literal_statement;
use mz_logic::literal::Literal;
use mz_logic::term::{Term, Terms};
use mz_names::refusal::Refusal;
use mz_sizes::keeps::adjective_keeps;
use std::alloc::{AllocError, Global};

/// What it reads to, or the refusal at the symbol's place.
pub fn meant(place: Place, o: Resolution) -> Result<Meaning, Refusal>
    ensures { result ≡ meant place o }
{
    match o {
        Resolution::ReadsTo(m) => Ok(m),
        Resolution::UnknownSymbol => Err(Refusal::UnknownSymbol(place)),
        Resolution::NoNotation => Err(Refusal::NoNotation(place)),
        Resolution::UnfitArgument => Err(Refusal::UnfitArgument(place)),
    }
}

/// As a term; what is none fits nowhere.
pub fn as_term(place: Place, first: Place, m: Meaning) -> Result<Term, Refusal>
    ensures { result ≡ as_term place first m }
{
    match m {
        Meaning::OfTerm(t) => within_term(first, t),
        Meaning::OfLiteral(_) => Err(Refusal::UnfitArgument(place)),
        Meaning::OfType(_) => Err(Refusal::UnfitArgument(place)),
    }
}

/// As a type, whose size counts with the adjectives that are written before it.
pub fn as_type(place: Place, m: Meaning) -> Result<SoftType, Refusal>
    ensures { result ≡ as_type place m }
{
    match m {
        Meaning::OfTerm(_) => Err(Refusal::UnfitArgument(place)),
        Meaning::OfLiteral(_) => Err(Refusal::UnfitArgument(place)),
        Meaning::OfType(ty) => Ok(ty),
    }
}

/// As a statement.
pub fn as_statement(
    alloc: Global,
    place: Place,
    first: Place,
    m: &Meaning,
) -> Result<Result<Statement, Refusal>, AllocError>
    ensures { IfOk result (λ o. o ≡ as_statement place first m.now) }
{
    match m {
        Meaning::OfTerm(_) => Ok(Err(Refusal::UnfitArgument(place))),
        Meaning::OfLiteral(l) => {
            let s = literal_statement(alloc, l)?;
            Ok(within_statement(first, s))
        }
        Meaning::OfType(_) => Ok(Err(Refusal::UnfitArgument(place))),
    }
}

fn sign_of(non: bool, positive: bool) -> bool
    ensures { result ≡ sign_of non positive }
{
    if non { !positive } else { positive }
}

fn literal_of(alloc: Global, non: bool, l: &Literal) -> Result<Literal, AllocError>
    ensures { IfOk result (λ k. k ≡ literal_of non l.now) }
{
    match l {
        Literal::Atom {
            positive,
            sym,
            args,
        } => {
            let args = args.copy(alloc)?;
            Ok(Literal::Atom {
                positive: sign_of(non, *positive),
                sym: *sym,
                args,
            })
        }
        Literal::Eq {
            positive,
            left,
            right,
        } => {
            let left = left.copy(alloc)?;
            let right = right.copy(alloc)?;
            Ok(Literal::Eq {
                positive: sign_of(non, *positive),
                left,
                right,
            })
        }
    }
}

/// Whether the adjective alone, without its subject, keeps the limits.
fn keeps_alone(alloc: Global, l: &Literal) -> Result<bool, AllocError>
    ensures { IfOk result (λ b. b ≡ keeps_alone l.now) }
{
    match l {
        Literal::Atom {
            positive,
            sym,
            args,
        } => {
            let args = but_last(args.copy(alloc)?);
            let a = Adjective {
                positive: *positive,
                sym: *sym,
                args,
            };
            Ok(adjective_keeps(&a))
        }
        Literal::Eq { .. } => Ok(true),
    }
}

fn attributed(
    alloc: Global,
    non: bool,
    first: Place,
    l: &Literal,
) -> Result<Result<Statement, Refusal>, AllocError>
    ensures { IfOk result (λ o. o ≡ attributed non first l.now) }
{
    if !keeps_alone(alloc, l)? {
        return Ok(Err(Refusal::TooLarge(first)));
    }
    let k = literal_of(alloc, non, l)?;
    let s = literal_statement(alloc, &k)?;
    Ok(Ok(s))
}

/// As what an attribute says of its subject, denied behind `non`. The adjective alone is tested here, at the place of its first
/// token; what it says is not.
pub fn as_attributed(
    alloc: Global,
    non: bool,
    place: Place,
    first: Place,
    m: &Meaning,
) -> Result<Result<Statement, Refusal>, AllocError>
    ensures { IfOk result (λ o. o ≡ as_attributed non place first m.now) }
{
    match m {
        Meaning::OfTerm(_) => Ok(Err(Refusal::UnfitArgument(place))),
        Meaning::OfLiteral(l) => {
            let o = attributed(alloc, non, first, l)?;
            Ok(o)
        }
        Meaning::OfType(_) => Ok(Err(Refusal::UnfitArgument(place))),
    }
}

fn but_last(ts: Terms) -> Terms
    ensures { result ≡ but_last ts }
{
    let mut out = ts;
    let count = out.items.len();
    if count > 0 {
        out.items.truncate(count - 1);
    }
    out
}

fn adjective_of(non: bool, place: Place, first: Place, l: Literal) -> Result<Adjective, Refusal>
    ensures { result ≡ adjective_of non place first l }
{
    match l {
        Literal::Atom {
            positive,
            sym,
            args,
        } => {
            let args = but_last(args);
            within_adjective(
                first,
                Adjective {
                    positive: sign_of(non, positive),
                    sym,
                    args,
                },
            )
        }
        Literal::Eq { .. } => Err(Refusal::UnfitArgument(place)),
    }
}

/// As an adjective: the attribute's atom without its last argument, which is the subject.
pub fn as_adjective(non: bool, place: Place, first: Place, m: Meaning) -> Result<Adjective, Refusal>
    ensures { result ≡ as_adjective non place first m }
{
    match m {
        Meaning::OfTerm(_) => Err(Refusal::UnfitArgument(place)),
        Meaning::OfLiteral(l) => adjective_of(non, place, first, l),
        Meaning::OfType(_) => Err(Refusal::UnfitArgument(place)),
    }
}
