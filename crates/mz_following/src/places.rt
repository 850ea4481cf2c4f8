//! Parts of a statement over the arguments of a letter's application there.
ghost use Rattle.std.specs.Prelude.{◌≡◌, ◌≤◌, ◌+◌, length, map, IfOk};
ghost use Rattle.mz_logic.specs.Term.{Bound};
ghost use Rattle.mz_logic.specs.Indices.{formula_below};
ghost use Rattle.mz_logic.specs.Substitution.{substitute, substitute_formula};
ghost use Rattle.mz_following.specs.Places.{is_variable, are_distinct_variables, place_among, place_of, term_beside, formula_beside};
ghost use Rattle.std.specs.List.{list_any};

use mz_logic::formula::{Formula, FormulaNode};
use mz_logic::term::{Term, TermNode, Terms};
use std::alloc::{AllocError, Global};

fn is_variable(t: &Term, index: u32) -> bool
    ensures { result ≡ is_variable index t.now }
{
    match &t.node {
        TermNode::Bound(other) => *other == index,
        _ => false,
    }
}

fn is_any_variable(ts: &[Term], index: u32) -> bool
    ensures { result ≡ list_any (is_variable index) ts.now }
{
    for t in ts {
        if is_variable(t, index) {
            return true;
        }
    }
    false
}

/// Whether the terms are distinct variables.
pub fn are_distinct_variables(ts: &[Term]) -> bool
    ensures { result ≡ are_distinct_variables ts.now }
{
    let mut rest = ts;
    while let Some((t, others)) = rest.split_first() {
        match &t.node {
            TermNode::Bound(index) => {
                if is_any_variable(others, *index) {
                    return false;
                }
            }
            _ => return false,
        }
        rest = others;
    }
    true
}

/// How many arguments stand before the variable; their number where it is none of them.
fn place_among(args: &[Term], index: u32) -> usize
    ensures place { result ≡ place_among args.now index }
    ensures within { result ≤ length args.now }
{
    match args.split_first() {
        None => 0,
        Some((t, others)) => {
            if is_variable(t, index) {
                0
            } else {
                place_among(others, index) + 1
            }
        }
    }
}

/// The variable of a place, below `depth` binders. A number above 4,294,967,295 is as no memory.
fn variable(place: usize, depth: u32) -> Result<Term, AllocError>
    ensures { IfOk result (λ t. t ≡ Bound (place + depth)) }
{
    let place = u32::try_from(place).map_err(|_| AllocError)?;
    let index = place.checked_add(depth).ok_or(AllocError)?;
    Ok(Term::bound(index))
}

#[cycle(places)]
#[tactic(auto, using(mz_logic::proofs::SubstitutionLaws::substitute_rules, mz_logic::proofs::ShiftLaws::index_rules))]
fn term_below(alloc: Global, t: &Term, depth: u32, args: &Terms) -> Result<Term, AllocError>
    ensures { IfOk result (λ u. u ≡ substitute depth (place_of args.now) t.now) }
{
    match &t.node {
        TermNode::Bound(index) => {
            if *index < depth {
                return Ok(Term::bound(*index));
            }
            let place = place_among(args.items.as_slice(), *index - depth);
            variable(place, depth)
        }
        TermNode::Const(number) => Ok(Term::constant(*number)),
        TermNode::App(s, ts) => {
            let ts = terms_below(alloc, ts, depth, args)?;
            Ok(Term::apply(*s, ts))
        }
    }
}

#[cycle(places)]
fn terms_below(alloc: Global, ts: &Terms, depth: u32, args: &Terms) -> Result<Terms, AllocError>
    ensures { IfOk result (λ us. us ≡ map (substitute depth (place_of args.now)) ts.now) }
{
    let mut out = Vec::new(alloc);
    for t in &ts.items {
        out.push(term_below(alloc, t, depth, args)?)?;
    }
    Ok(Terms { items: out })
}

fn formula_below_binders(
    alloc: Global,
    f: &Formula,
    depth: u32,
    args: &Terms,
) -> Result<Formula, AllocError>
    ensures { IfOk result (λ g. g ≡ substitute_formula depth (place_of args.now) f.now) }
{
    match &f.node {
        FormulaNode::Truth => Ok(Formula::truth()),
        FormulaNode::Eq(t, u) => {
            let t = term_below(alloc, t, depth, args)?;
            let u = term_below(alloc, u, depth, args)?;
            Ok(Formula::equation(t, u))
        }
        FormulaNode::Atom(s, ts) => {
            let ts = terms_below(alloc, ts, depth, args)?;
            Ok(Formula::atom(*s, ts))
        }
        FormulaNode::Not(f) => {
            let f = formula_below_binders(alloc, f, depth, args)?;
            Formula::not(alloc, f)
        }
        FormulaNode::And(f, g) => {
            let f = formula_below_binders(alloc, f, depth, args)?;
            let g = formula_below_binders(alloc, g, depth, args)?;
            Formula::and(alloc, f, g)
        }
        FormulaNode::All(f) => {
            let inner = depth.checked_add(1).ok_or(AllocError)?;
            let f = formula_below_binders(alloc, f, inner, args)?;
            Formula::all(alloc, f)
        }
    }
}

/// Whether each free index of the formula is below `bound`. A depth above 4,294,967,295 is as no memory.
fn is_formula_below(f: &Formula, bound: u32) -> Result<bool, AllocError>
    ensures { IfOk result (λ b. b ≡ formula_below bound f.now) }
{
    match &f.node {
        FormulaNode::Truth => Ok(true),
        FormulaNode::Eq(t, u) => Ok(t.is_below(bound) && u.is_below(bound)),
        FormulaNode::Atom(_, ts) => Ok(ts.are_below(bound)),
        FormulaNode::Not(f) => is_formula_below(f, bound),
        FormulaNode::And(f, g) => {
            let left = is_formula_below(f, bound)?;
            let right = is_formula_below(g, bound)?;
            Ok(left && right)
        }
        FormulaNode::All(f) => {
            let inner = bound.checked_add(1).ok_or(AllocError)?;
            is_formula_below(f, inner)
        }
    }
}

fn count(args: &Terms) -> Result<u32, AllocError>
    ensures { IfOk result (λ n. n ≡ length args.now) }
{
    let count = args.items.len();
    if count > 4294967295 {
        return Err(AllocError);
    }
    Ok(count as u32)
}

/// The part over the arguments, where a letter with these may stand for it.
pub fn term_beside(alloc: Global, args: &Terms, part: &Term) -> Result<Option<Term>, AllocError>
    ensures { IfOk result (λ o. o ≡ term_beside args.now part.now) }
{
    if !are_distinct_variables(args.items.as_slice()) {
        return Ok(None);
    }
    let count = count(args)?;
    let body = term_below(alloc, part, 0, args)?;
    if body.is_below(count) {
        Ok(Some(body))
    } else {
        Ok(None)
    }
}

/// The part over the arguments, where a letter with these may stand for it.
pub fn formula_beside(
    alloc: Global,
    args: &Terms,
    part: &Formula,
) -> Result<Option<Formula>, AllocError>
    ensures { IfOk result (λ o. o ≡ formula_beside args.now part.now) }
{
    if !are_distinct_variables(args.items.as_slice()) {
        return Ok(None);
    }
    let count = count(args)?;
    let body = formula_below_binders(alloc, part, 0, args)?;
    if is_formula_below(&body, count)? {
        Ok(Some(body))
    } else {
        Ok(None)
    }
}
