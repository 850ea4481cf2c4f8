//! Formulas that are equal up to double negation and the classes of terms.
ghost use Rattle.std.specs.Prelude.{◌≡◌, ◌+◌, ◌<◌, ◌^◌, ℕ, [], IfOk, flat_map, if◌then◌else◌};
ghost use Rattle.mz_logic.specs.FormulaStorage.{binders_of, formula_size};
ghost use Rattle.mz_logic.specs.Term.{terms_of};
ghost use Rattle.mz_logic.specs.Indices.{args_below};
ghost use Rattle.mz_match.specs.Matches.{is_index, keep_index, match_index, congruent_term, congruent_args, congruent_formula, same_sign, when};

use crate::assignment::Assignment;
use crate::assignments::Assignments;
use crate::match_terms::match_class;
use crate::table::Table;
use mz_logic::formula::{Formula, FormulaNode};
use mz_logic::term::{Term, TermNode, Terms};
use std::alloc::{AllocError, Global};

fn is_index(depth: usize, i: usize, j: usize, n: usize) -> bool
    ensures { result ≡ is_index depth i j n }
{
    (i < depth && i == j) || (i >= depth && i - depth >= n && i - n == j)
}

fn keep_index(
    alloc: Global,
    depth: usize,
    i: usize,
    j: usize,
    e: &Assignment,
) -> Result<Assignments, AllocError>
    ensures { IfOk result (λ out. out ≡ keep_index depth i j e.now) }
{
    let mut out = Assignments::new(alloc);
    if is_index(depth, i, j, e.slots.len()) {
        out.push(e.copy(alloc)?)?;
        Ok(out)
    } else {
        Ok(out)
    }
}

fn keep_indices(
    alloc: Global,
    depth: usize,
    i: usize,
    j: usize,
    es: &Assignments,
) -> Result<Assignments, AllocError>
    ensures { IfOk result (λ out. out ≡ flat_map (keep_index depth i j) es.now) }
{
    let mut out = Assignments::new(alloc);
    for e in &es.items {
        out.append(keep_index(alloc, depth, i, j, e)?)?;
    }
    Ok(out)
}

fn match_index(
    alloc: Global,
    depth: usize,
    t: &Term,
    j: usize,
    es: &Assignments,
) -> Result<Assignments, AllocError>
    ensures { IfOk result (λ out. out ≡ match_index depth t.now j es.now) }
{
    match &t.node {
        TermNode::Bound(i) => keep_indices(alloc, depth, *i as usize, j, es),
        TermNode::Const(_) => Ok(Assignments::new(alloc)),
        TermNode::App(_, _) => Ok(Assignments::new(alloc)),
    }
}

#[tactic(auto, using(crate::proofs::ArgsLemmas::below_rules))]
fn are_closed(us: &Terms) -> bool
    ensures { result ≡ args_below 0 (terms_of us.now) }
{
    us.are_below(0)
}

/// The assignments that extend one of `es` and at which the terms, both under `depth` further
/// binders, are congruent.
#[cycle(congruent)]
pub fn congruent_term(
    alloc: Global,
    table: &Table,
    depth: usize,
    t: &Term,
    u: &Term,
    es: &Assignments,
) -> Result<Assignments, AllocError>
    ensures { IfOk result (λ out. out ≡ congruent_term table.now depth t.now u.now es.now) }
{
    match (&t.node, &u.node) {
        (_, TermNode::Bound(j)) => match_index(alloc, depth, t, *j as usize, es),
        (_, TermNode::Const(_)) => match_class(alloc, table, depth, t, u, es),
        (TermNode::App(r, ts), TermNode::App(s, us)) => {
            if are_closed(us) {
                match_class(alloc, table, depth, t, u, es)
            } else if r.is(*s) {
                congruent_args(alloc, table, depth, ts, us, es)
            } else {
                Ok(Assignments::new(alloc))
            }
        }
        (TermNode::Bound(_), TermNode::App(_, us)) => {
            if are_closed(us) {
                match_class(alloc, table, depth, t, u, es)
            } else {
                Ok(Assignments::new(alloc))
            }
        }
        (TermNode::Const(_), TermNode::App(_, us)) => {
            if are_closed(us) {
                match_class(alloc, table, depth, t, u, es)
            } else {
                Ok(Assignments::new(alloc))
            }
        }
    }
}

#[cycle(congruent)]
fn congruent_args(
    alloc: Global,
    table: &Table,
    depth: usize,
    ts: &Terms,
    us: &Terms,
    es: &Assignments,
) -> Result<Assignments, AllocError>
    ensures { IfOk result (λ out. out ≡ congruent_args table.now depth (terms_of ts.now) (terms_of us.now) es.now) }
{
    let mut now = es.copy(alloc)?;
    for i in 0..ts.items.len() {
        if i >= us.items.len() {
            return Ok(Assignments::new(alloc));
        }
        let next = congruent_term(alloc, table, depth, &ts.items[i], &us.items[i], &now)?;
        now = next;
    }
    if us.items.len() > ts.items.len() {
        Ok(Assignments::new(alloc))
    } else {
        Ok(now)
    }
}

fn is_same_sign(p: bool, q: bool) -> bool
    ensures { result ≡ same_sign p q }
{
    if p { q } else { !q }
}

/// The assignments, or none where they aren't kept.
fn copied_when(alloc: Global, keep: bool, es: &Assignments) -> Result<Assignments, AllocError>
    ensures { IfOk result (λ out. out ≡ when keep es.now) }
{
    if keep {
        es.copy(alloc)
    } else {
        Ok(Assignments::new(alloc))
    }
}

/// The assignments that extend one of `es` and at which the sides of two equations are congruent, or none where the
/// signs differ.
fn congruent_equations(
    alloc: Global,
    table: &Table,
    depth: usize,
    same: bool,
    t: &Term,
    u: &Term,
    v: &Term,
    w: &Term,
    es: &Assignments,
) -> Result<Assignments, AllocError>
    ensures { IfOk result (λ out. out ≡ when same (congruent_term table.now depth u.now w.now (congruent_term table.now depth t.now v.now es.now))) }
{
    if same {
        let left = congruent_term(alloc, table, depth, t, v, es)?;
        congruent_term(alloc, table, depth, u, w, &left)
    } else {
        Ok(Assignments::new(alloc))
    }
}

/// The assignments that extend one of `es` and at which the arguments of two atoms are congruent, or none where the
/// signs or the symbols differ.
fn congruent_atoms(
    alloc: Global,
    table: &Table,
    depth: usize,
    same: bool,
    ts: &Terms,
    us: &Terms,
    es: &Assignments,
) -> Result<Assignments, AllocError>
    ensures { IfOk result (λ out. out ≡ when same (congruent_args table.now depth (terms_of ts.now) (terms_of us.now) es.now)) }
{
    if same {
        congruent_args(alloc, table, depth, ts, us, es)
    } else {
        Ok(Assignments::new(alloc))
    }
}

fn next_depth(depth: usize) -> Result<usize, AllocError>
    ensures { IfOk result (λ n. n ≡ depth + 1) }
{
    depth.checked_add(1).ok_or(AllocError)
}

/// The assignments that extend one of `es` and at which the formulas, both under `depth` further
/// binders, are congruent up to double negation; the first is negated where `p` is false, and the second
/// where `q` is.
pub fn congruent_formula(
    alloc: Global,
    table: &Table,
    depth: usize,
    p: bool,
    f: &Formula,
    q: bool,
    g: &Formula,
    es: &Assignments,
) -> Result<Assignments, AllocError>
    ensures { IfOk result (λ out. out ≡ congruent_formula table.now depth p f.now q g.now es.now) }
{
    let same = is_same_sign(p, q);
    match (&f.node, &g.node) {
        (FormulaNode::Not(f), _) => congruent_formula(alloc, table, depth, !p, f, q, g, es),
        (_, FormulaNode::Not(g)) => congruent_formula(alloc, table, depth, p, f, !q, g, es),
        (FormulaNode::Truth, FormulaNode::Truth) => copied_when(alloc, same, es),
        (FormulaNode::Eq(t, u), FormulaNode::Eq(v, w)) => {
            congruent_equations(alloc, table, depth, same, t, u, v, w, es)
        }
        (FormulaNode::Atom(r, ts), FormulaNode::Atom(s, us)) => {
            congruent_atoms(alloc, table, depth, same && r.is(*s), ts, us, es)
        }
        (FormulaNode::And(f, h), FormulaNode::And(g, k)) => {
            if !same {
                return Ok(Assignments::new(alloc));
            }
            let left = congruent_formula(alloc, table, depth, true, f, true, g, es)?;
            congruent_formula(alloc, table, depth, true, h, true, k, &left)
        }
        (FormulaNode::All(f), FormulaNode::All(g)) => {
            if !same {
                return Ok(Assignments::new(alloc));
            }
            congruent_formula(alloc, table, next_depth(depth)?, true, f, true, g, es)
        }
        _ => Ok(Assignments::new(alloc)),
    }
}
