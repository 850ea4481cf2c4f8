//! What letters make of terms, types and formulas.
ghost use Rattle.std.specs.Prelude.{◌≡◌, ◌↔◌, IsTrue, IfOk, map};
ghost use Rattle.mz_logic.specs.Instance.{term_instance, instance};
ghost use Rattle.mz_logic.specs.Same.{IsSame};
ghost use Rattle.mz_following.specs.TypeInstance.{adjective_instance, radix_instance, type_instance, is_letterless_adjective, is_letterless};
ghost use Rattle.std.specs.List.{list_all};

use mz_core::adjective::Adjective;
use mz_core::adjectives::Adjectives;
use mz_core::radix::Radix;
use mz_core::soft_type::SoftType;
use mz_logic::beyond::Beyond;
use mz_logic::formula::Formula;
use mz_logic::instances::instance;
use mz_logic::letters::Letters;
use mz_logic::sameness::same;
use mz_logic::substitution::substitute;
use mz_logic::term::{Term, TermNode, Terms};
use std::alloc::{AllocError, Global};

/// The instance of a term by letters.
#[cycle(instances)]
#[tactic(auto, using(mz_logic::proofs::InstanceLemmas::inst_rules))]
pub fn term_instance(alloc: Global, t: &Term, letters: &Letters) -> Result<Term, AllocError>
    ensures { IfOk result (λ u. u ≡ term_instance letters.now t.now) }
{
    match &t.node {
        TermNode::Bound(index) => Ok(Term::bound(*index)),
        TermNode::Const(number) => Ok(Term::constant(*number)),
        TermNode::App(s, ts) => {
            let ts = terms_instance(alloc, ts, letters)?;
            match letters.term(*s) {
                None => Ok(Term::apply(*s, ts)),
                Some(body) => substitute(alloc, body, 0, &ts, Beyond::Zero),
            }
        }
    }
}

#[cycle(instances)]
fn terms_instance(alloc: Global, ts: &Terms, letters: &Letters) -> Result<Terms, AllocError>
    ensures { IfOk result (λ us. us ≡ map (term_instance letters.now) ts.now) }
{
    let mut out = Vec::new(alloc);
    for t in &ts.items {
        out.push(term_instance(alloc, t, letters)?)?;
    }
    Ok(Terms { items: out })
}

fn adjective_instance(
    alloc: Global,
    a: &Adjective,
    letters: &Letters,
) -> Result<Adjective, AllocError>
    ensures { IfOk result (λ b. b ≡ adjective_instance letters.now a.now) }
{
    let args = terms_instance(alloc, &a.args, letters)?;
    Ok(Adjective {
        positive: a.positive,
        sym: a.sym,
        args,
    })
}

fn adjectives_instance(
    alloc: Global,
    xs: &Adjectives,
    letters: &Letters,
) -> Result<Adjectives, AllocError>
    ensures { IfOk result (λ ys. ys ≡ map (adjective_instance letters.now) xs.now) }
{
    let mut out = Vec::new(alloc);
    for a in &xs.items {
        out.push(adjective_instance(alloc, a, letters)?)?;
    }
    Ok(Adjectives { items: out })
}

fn radix_instance(alloc: Global, r: &Radix, letters: &Letters) -> Result<Radix, AllocError>
    ensures { IfOk result (λ q. q ≡ radix_instance letters.now r.now) }
{
    let args = terms_instance(alloc, &r.args, letters)?;
    Ok(Radix { sym: r.sym, args })
}

/// The instance of a type by letters.
pub fn type_instance(
    alloc: Global,
    ty: &SoftType,
    letters: &Letters,
) -> Result<SoftType, AllocError>
    ensures { IfOk result (λ t. t ≡ type_instance letters.now ty.now) }
{
    let adjectives = adjectives_instance(alloc, &ty.adjectives, letters)?;
    let radix = radix_instance(alloc, &ty.radix, letters)?;
    Ok(SoftType { adjectives, radix })
}

/// Whether the instance of the first formula by letters is the same as the second one, up to association of `&` and double negation.
pub fn is_same_instance(
    alloc: Global,
    letters: &Letters,
    f: &Formula,
    g: &Formula,
) -> Result<bool, AllocError>
    ensures { IfOk result (λ b. IsTrue b ↔ IsSame (instance letters.now f.now) g.now) }
{
    let h = instance(alloc, f, letters)?;
    Ok(same(&h, g))
}

fn is_letterless_adjective(a: &Adjective) -> bool
    ensures { result ≡ is_letterless_adjective a.now }
{
    !a.sym.is_predicate_letter()
}

fn are_letterless_adjectives(xs: &Adjectives) -> bool
    ensures { result ≡ list_all is_letterless_adjective xs.now }
{
    for a in &xs.items {
        if !is_letterless_adjective(a) {
            return false;
        }
    }
    true
}

/// Whether no symbol of the type is a predicate letter.
pub fn is_letterless(ty: &SoftType) -> bool
    ensures { result ≡ is_letterless ty.now }
{
    !ty.radix.sym.is_predicate_letter() && are_letterless_adjectives(&ty.adjectives)
}

/// Whether no symbol of the types is a predicate letter.
pub fn are_letterless(tys: &[SoftType]) -> bool
    ensures { result ≡ list_all is_letterless tys.now }
{
    for ty in tys {
        if !is_letterless(ty) {
            return false;
        }
    }
    true
}
