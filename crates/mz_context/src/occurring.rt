//! The constants that occur in terms, formulas and literals, and in what is known of constants.
ghost use Rattle.std.specs.Prelude.{◌≡◌, ◌++◌, ℕ, flat_map, OnOk};
ghost use Rattle.mz_context.specs.Occurring.{is_among, one_below, term_constants, formula_constants, literal_constants, adjective_constants, type_constants, equal_constants, known_constants, constants_known, Rises};

use crate::constants::{Constant, Constants};
use mz_core::adjective::Adjective;
use mz_core::adjectives::Adjectives;
use mz_core::soft_type::SoftType;
use mz_logic::formula::{Formula, FormulaNode};
use mz_logic::literal::Literal;
use mz_logic::term::{Term, TermNode, Terms};
use std::alloc::AllocError;

fn push_below(n: u32, count: u32, out: &mut Vec<u32>) -> Result<(), AllocError>
    ensures { OnOk result (out.new.items ≡ out.old.items ++ one_below count n) }
{
    if n < count {
        out.push(n)?;
    }
    Ok(())
}

/// Appends the constants below the count that occur in the term, each as often as it occurs.
#[cycle(occurring)]
#[tactic(auto, using(crate::proofs::OccurringLemmas::argument_rules))]
pub fn push_term(t: &Term, count: u32, out: &mut Vec<u32>) -> Result<(), AllocError>
    ensures { OnOk result (out.new.items ≡ out.old.items ++ term_constants count t.now) }
{
    match &t.node {
        TermNode::Bound(_) => Ok(()),
        TermNode::Const(n) => push_below(*n, count, out),
        TermNode::App(_, ts) => push_terms(ts, count, out),
    }
}

/// Appends those of the terms, one after another.
#[cycle(occurring)]
pub fn push_terms(ts: &Terms, count: u32, out: &mut Vec<u32>) -> Result<(), AllocError>
    ensures { OnOk result (out.new.items ≡ out.old.items ++ flat_map (term_constants count) ts.now) }
{
    for t in &ts.items {
        push_term(t, count, out)?;
    }
    Ok(())
}

/// Appends those of the formula.
pub fn push_formula(f: &Formula, count: u32, out: &mut Vec<u32>) -> Result<(), AllocError>
    ensures { OnOk result (out.new.items ≡ out.old.items ++ formula_constants count f.now) }
{
    match &f.node {
        FormulaNode::Truth => Ok(()),
        FormulaNode::Eq(t, u) => {
            push_term(t, count, out)?;
            push_term(u, count, out)
        }
        FormulaNode::Atom(_, ts) => push_terms(ts, count, out),
        FormulaNode::Not(f) => push_formula(f, count, out),
        FormulaNode::And(f, g) => {
            push_formula(f, count, out)?;
            push_formula(g, count, out)
        }
        FormulaNode::All(f) => push_formula(f, count, out),
    }
}

/// Appends those of the literal.
pub fn push_literal(l: &Literal, count: u32, out: &mut Vec<u32>) -> Result<(), AllocError>
    ensures { OnOk result (out.new.items ≡ out.old.items ++ literal_constants count l.now) }
{
    match l {
        Literal::Atom { args, .. } => push_terms(args, count, out),
        Literal::Eq { left, right, .. } => {
            push_term(left, count, out)?;
            push_term(right, count, out)
        }
    }
}

fn push_adjective(a: &Adjective, count: u32, out: &mut Vec<u32>) -> Result<(), AllocError>
    ensures { OnOk result (out.new.items ≡ out.old.items ++ adjective_constants count a.now) }
{
    push_terms(&a.args, count, out)
}

fn push_adjectives(xs: &Adjectives, count: u32, out: &mut Vec<u32>) -> Result<(), AllocError>
    ensures { OnOk result (out.new.items ≡ out.old.items ++ flat_map (adjective_constants count) xs.now) }
{
    for a in &xs.items {
        push_adjective(a, count, out)?;
    }
    Ok(())
}

fn push_type(ty: &SoftType, count: u32, out: &mut Vec<u32>) -> Result<(), AllocError>
    ensures { OnOk result (out.new.items ≡ out.old.items ++ type_constants count ty.now) }
{
    push_terms(&ty.radix.args, count, out)?;
    push_adjectives(&ty.adjectives, count, out)
}

fn push_equal(t: &Option<Term>, count: u32, out: &mut Vec<u32>) -> Result<(), AllocError>
    ensures { OnOk result (out.new.items ≡ out.old.items ++ equal_constants count t.now) }
{
    match t {
        Some(t) => push_term(t, count, out),
        None => Ok(()),
    }
}

fn push_constant(k: &Constant, count: u32, out: &mut Vec<u32>) -> Result<(), AllocError>
    ensures { OnOk result (out.new.items ≡ out.old.items ++ (type_constants count k.now.ty ++ equal_constants count k.now.equal)) }
{
    push_type(&k.ty, count, out)?;
    push_equal(&k.equal, count, out)
}

/// Appends those in what is known of the constant with the number.
pub fn push_known(
    constants: &Constants,
    d: u32,
    count: u32,
    out: &mut Vec<u32>,
) -> Result<(), AllocError>
    ensures { OnOk result (out.new.items ≡ out.old.items ++ constants_known count constants.now d) }
{
    match constants.get(d) {
        Some(k) => push_constant(k, count, out),
        None => Ok(()),
    }
}

/// The numbers of the list, each once, in ascending order.
pub fn in_order(ns: Vec<u32>) -> Vec<u32>
    ensures rises { Rises 0 result.items }
    ensures same { (c : ℕ) → is_among result.items c ≡ is_among ns.items c }
{
    let mut ns = ns;
    ns.sort_unstable();
    ns.dedup();
    ns
}
