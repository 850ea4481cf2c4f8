//! What is known of constants, and of those that occur in that.
ghost use Rattle.std.specs.Prelude.{◌≡◌, ◌≤◌, ◌<◌, ◌++◌, ◌∷◌, [], true, false, length, flat_map, nat_eq, IfOk, OnOk};
ghost use Rattle.std.specs.List.{list_any};
ghost use Rattle.mz_context.specs.Context.{numbered, numbers};
ghost use Rattle.mz_context.specs.Gather.{occurs_in_adjective, occurs_in_type, occurs_if_any, has_constant, occurs_in_known, occurs_in_constant, equation_if_any, known, below, is_new, rounds, reached, known_of_all, constants_of, gathered};

use crate::constants::Constants;
use mz_core::adjective::Adjective;
use mz_core::adjectives::Adjectives;
use mz_core::guard::guard_literals;
use mz_core::soft_type::SoftType;
use mz_logic::literal::Literal;
use mz_logic::literals::Literals;
use mz_logic::term::Term;
use std::alloc::{AllocError, Global};

fn occurs_in_adjective(a: &Adjective, c: u32) -> bool
    ensures { result ≡ occurs_in_adjective c a.now }
{
    a.args.have_constant(c)
}

fn occurs_in_adjectives(xs: &Adjectives, c: u32) -> bool
    ensures { result ≡ list_any (occurs_in_adjective c) xs.now }
{
    for a in &xs.items {
        if occurs_in_adjective(a, c) {
            return true;
        }
    }
    false
}

/// Whether the constant occurs in the type.
pub fn occurs_in_type(ty: &SoftType, c: u32) -> bool
    ensures { result ≡ occurs_in_type c ty.now }
{
    ty.radix.args.have_constant(c) || occurs_in_adjectives(&ty.adjectives, c)
}

fn occurs_if_any(t: &Option<Term>, c: u32) -> bool
    ensures { result ≡ occurs_if_any c t.now }
{
    match t {
        Some(t) => t.has_constant(c),
        None => false,
    }
}

/// Whether the constant occurs in the literal.
pub fn has_constant(l: &Literal, c: u32) -> bool
    ensures { result ≡ has_constant l.now c }
{
    match l {
        Literal::Atom { args, .. } => args.have_constant(c),
        Literal::Eq { left, right, .. } => left.has_constant(c) || right.has_constant(c),
    }
}

fn occurs_in_constant(constants: &Constants, c: u32, d: u32) -> bool
    ensures { result ≡ occurs_in_constant constants.now c d }
{
    match constants.get(d) {
        Some(k) => occurs_in_type(&k.ty, c) || occurs_if_any(&k.equal, c),
        None => false,
    }
}

fn occurs_in_some(constants: &Constants, c: u32, ds: &[u32]) -> bool
    ensures { result ≡ list_any (occurs_in_constant constants.now c) ds.now }
{
    for d in ds {
        if occurs_in_constant(constants, c, *d) {
            return true;
        }
    }
    false
}

fn has(met: &[u32], c: u32) -> bool
    ensures { result ≡ list_any (nat_eq c) met.now }
{
    for n in met {
        if c == *n {
            return true;
        }
    }
    false
}

fn is_new(constants: &Constants, met: &[u32], last: &[u32], c: u32) -> bool
    ensures { result ≡ is_new constants.now met.now last.now c }
{
    !has(met, c) && occurs_in_some(constants, c, last)
}

/// How many numbers there are up to the last constant's. More than 4,294,967,295 are as no memory.
fn numbers(constants: &Constants) -> Result<u32, AllocError>
    ensures { IfOk result (λ n. n ≡ numbers constants.now) }
{
    let count = constants.items.len();
    if count >= 4294967295 {
        return Err(AllocError);
    }
    Ok(count as u32 + 1)
}

fn new_ones(
    alloc: Global,
    constants: &Constants,
    met: &[u32],
    last: &[u32],
    count: u32,
) -> Result<Vec<u32>, AllocError>
    ensures { IfOk result (λ cs. cs.items ≡ below (is_new constants.now met.now last.now) count) }
{
    let mut out = Vec::new(alloc);
    for c in 0..count {
        if is_new(constants, met, last, c) {
            out.push(c)?;
        }
    }
    Ok(out)
}

/// Whether no further round has a new constant.
#[tactic(auto, using(crate::proofs::RoundLemmas::done_rules))]
fn is_done(constants: &Constants, left: u32, met: &Vec<u32>, last: &Vec<u32>) -> bool
    ensures done { result ≡ true → rounds left constants.now met.now.items last.now.items ≡ last.now.items }
    ensures more { result ≡ false → 0 < left }
{
    if left == 0 {
        return true;
    }
    if last.len() == 0 {
        return true;
    }
    false
}

/// One round: the last constants are met, and the new ones are given.
fn round(
    alloc: Global,
    constants: &Constants,
    met: &mut Vec<u32>,
    last: Vec<u32>,
    count: u32,
) -> Result<Vec<u32>, AllocError>
    ensures met { OnOk result (met.new.items ≡ met.old.items ++ last.items) }
    ensures new_ones { IfOk result (λ cs. cs.items ≡ below (is_new constants.now (met.old.items ++ last.items) last.items) count) }
{
    met.extend_from_slice(last.as_slice())?;
    let cs = new_ones(alloc, constants, met.as_slice(), last.as_slice(), count)?;
    Ok(cs)
}

/// These constants, and those that occur in what is known of them, round by round until none is new.
#[tactic(auto, using(crate::proofs::RoundLemmas::round_rules))]
pub fn reached(alloc: Global, constants: &Constants, first: &[u32]) -> Result<Vec<u32>, AllocError>
    ensures { IfOk result (λ cs. cs.items ≡ reached constants.now first.now) }
{
    let count = numbers(constants)?;
    let mut met: Vec<u32> = Vec::new(alloc);
    let mut last = Vec::from_slice(alloc, first)?;
    let mut left = count;
    'more: while !is_done(constants, left, &met, &last) {
        last = round(alloc, constants, &mut met, last, count)?;
        left -= 1;
    }
    met.extend_from_slice(last.as_slice())?;
    Ok(met)
}

fn occurring(alloc: Global, l: &Literal, count: u32) -> Result<Vec<u32>, AllocError>
    ensures { IfOk result (λ cs. cs.items ≡ below (has_constant l.now) count) }
{
    let mut out = Vec::new(alloc);
    for c in 0..count {
        if has_constant(l, c) {
            out.push(c)?;
        }
    }
    Ok(out)
}

/// The constants that occur in the literal.
#[tactic(auto, using(crate::proofs::RoundLemmas::told_constants))]
pub fn constants_of(
    alloc: Global,
    constants: &Constants,
    l: &Literal,
) -> Result<Vec<u32>, AllocError>
    ensures { IfOk result (λ cs. cs.items ≡ constants_of constants.now l.now) }
{
    let count = numbers(constants)?;
    let ns = occurring(alloc, l, count)?;
    Ok(ns)
}

fn push_all(out: &mut Literals, ls: Literals) -> Result<(), AllocError>
    ensures { OnOk result (out.new ≡ out.old ++ ls) }
{
    for literal in ls.items {
        out.push(literal)?;
    }
    Ok(())
}

fn equation_if_any(alloc: Global, n: u32, t: &Option<Term>) -> Result<Literals, AllocError>
    ensures { IfOk result (λ ls. ls ≡ equation_if_any n t.now) }
{
    let mut out = Literals::new(alloc);
    match t {
        Some(t) => {
            let right = t.copy(alloc)?;
            out.push(Literal::Eq {
                positive: true,
                left: Term::constant(n),
                right,
            })?;
            Ok(out)
        }
        None => Ok(out),
    }
}

/// What is known of the constant: its guard, and its defining equation where it has one.
pub fn known(alloc: Global, constants: &Constants, n: u32) -> Result<Literals, AllocError>
    ensures { IfOk result (λ ls. ls ≡ known constants.now n) }
{
    match constants.get(n) {
        Some(k) => {
            let mut out = guard_literals(alloc, &k.ty, &Term::constant(n))?;
            let equation = equation_if_any(alloc, n, &k.equal)?;
            push_all(&mut out, equation)?;
            Ok(out)
        }
        None => Ok(Literals::new(alloc)),
    }
}

/// What is known of constants, one after another.
pub fn known_of_all(
    alloc: Global,
    constants: &Constants,
    ns: &[u32],
) -> Result<Literals, AllocError>
    ensures { IfOk result (λ ls. ls ≡ known_of_all constants.now ns.now) }
{
    let mut out = Literals::new(alloc);
    for n in ns {
        let ls = known(alloc, constants, *n)?;
        push_all(&mut out, ls)?;
    }
    Ok(out)
}

/// What is known of the constants that occur in the literal, and of those that occur in that, repeated until no constant
/// is new: the guards and the defining equations.
pub fn gathered(alloc: Global, constants: &Constants, l: &Literal) -> Result<Literals, AllocError>
    ensures { IfOk result (λ ls. ls ≡ gathered constants.now l.now) }
{
    let first = constants_of(alloc, constants, l)?;
    let ns = reached(alloc, constants, first.as_slice())?;
    let ls = known_of_all(alloc, constants, ns.as_slice())?;
    Ok(ls)
}
