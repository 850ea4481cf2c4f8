//! Matching of literals, of truth and of negated universals.
ghost use Rattle.std.specs.Prelude.{◌≡◌, [], true, IfOk, flat_map};
ghost use Rattle.mz_match.specs.Literals.{match_literal};
ghost use Rattle.mz_match.specs.Matches.{congruent_formula};
ghost use Rattle.mz_logic.specs.Formula.{Eq, Atom};

use crate::assignments::Assignments;
use crate::congruent::congruent_formula;
use crate::match_terms::{match_equal, match_pairs, match_rows};
use crate::row::Head;
use crate::table::Table;
use mz_logic::formula::{Formula, FormulaNode};
use mz_logic::formulas::Formulas;
use mz_logic::sym::Sym;
use mz_logic::term::{Term, Terms};
use std::alloc::{AllocError, Global};

fn match_listed(
    alloc: Global,
    table: &Table,
    universals: &Formulas,
    f: &Formula,
    es: &Assignments,
) -> Result<Assignments, AllocError>
    ensures { IfOk result (λ out. out ≡ flat_map (λ u. congruent_formula table.now 0 true f.now true u es.now) universals.now) }
{
    let mut out = Assignments::new(alloc);
    for u in &universals.items {
        out.append(congruent_formula(alloc, table, 0, true, f, true, u, es)?)?;
    }
    Ok(out)
}

fn match_equation(
    alloc: Global,
    table: &Table,
    values: &[usize],
    positive: bool,
    t: &Term,
    u: &Term,
    es: &Assignments,
) -> Result<Assignments, AllocError>
    ensures { IfOk result (λ out. out ≡ match_literal table.now values.now [] positive (Eq t.now u.now) es.now) }
{
    if positive {
        let mut out = match_pairs(alloc, table, t, u, es)?;
        out.append(match_pairs(alloc, table, u, t, es)?)?;
        Ok(out)
    } else {
        match_equal(alloc, table, values, t, u, es)
    }
}

fn match_atom(
    alloc: Global,
    table: &Table,
    values: &[usize],
    positive: bool,
    s: Sym,
    ts: &Terms,
    es: &Assignments,
) -> Result<Assignments, AllocError>
    ensures { IfOk result (λ out. out ≡ match_literal table.now values.now [] positive (Atom s ts.now) es.now) }
{
    if positive {
        match_rows(alloc, table, Head::Fails(s), ts, es)
    } else {
        match_rows(alloc, table, Head::Holds(s), ts, es)
    }
}

/// The assignments that extend one of `es` and at which the literal, truth or the negated universal
/// is refuted, or the negation of it where `positive` is false.
pub fn match_literal(
    alloc: Global,
    table: &Table,
    values: &[usize],
    universals: &Formulas,
    positive: bool,
    f: &Formula,
    es: &Assignments,
) -> Result<Assignments, AllocError>
    ensures { IfOk result (λ out. out ≡ match_literal table.now values.now universals.now positive f.now es.now) }
{
    match &f.node {
        FormulaNode::Truth => {
            if positive {
                Ok(Assignments::new(alloc))
            } else {
                es.copy(alloc)
            }
        }
        FormulaNode::Eq(t, u) => match_equation(alloc, table, values, positive, t, u, es),
        FormulaNode::Atom(s, ts) => match_atom(alloc, table, values, positive, *s, ts, es),
        FormulaNode::Not(_) => Ok(Assignments::new(alloc)),
        FormulaNode::And(_, _) => Ok(Assignments::new(alloc)),
        FormulaNode::All(_) => {
            if positive {
                Ok(Assignments::new(alloc))
            } else {
                match_listed(alloc, table, universals, f, es)
            }
        }
    }
}
