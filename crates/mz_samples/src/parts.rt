//! Literals, disjuncts, sequents and letters, read from their texts.
use crate::fault::SampleFault;
use crate::forms::{formula, formulas};
use crate::pieces::read;
use crate::reader::Reader;
use crate::symbols::symbol;
use mz_logic::disjunct::Disjunct;
use mz_logic::formula::{Formula, FormulaNode};
use mz_logic::formulas::Formulas;
use mz_logic::letters::{Body, Letter, Letters};
use mz_logic::literal::Literal;
use mz_logic::literals::Literals;
use mz_logic::sequent::Sequent;
use std::alloc::Global;

/// An atom or an equation as a literal; none of another formula.
fn signed(positive: bool, f: Formula) -> Option<Literal> {
    match f.into_node() {
        FormulaNode::Atom(sym, args) => Some(Literal::Atom {
            positive,
            sym,
            args,
        }),
        FormulaNode::Eq(left, right) => Some(Literal::Eq {
            positive,
            left,
            right,
        }),
        _ => None,
    }
}

/// The formula as a literal; none of one that isn't the formula of a literal.
fn as_literal(f: Formula) -> Option<Literal> {
    let binders = f.binders;
    match f.into_node() {
        FormulaNode::Not(g) => signed(false, Box::into_inner(g)),
        node => signed(true, Formula { node, binders }),
    }
}

/// Whether the formula is one of a literal.
fn is_literal(f: &Formula) -> bool {
    match &f.node {
        FormulaNode::Eq(_, _) | FormulaNode::Atom(_, _) => true,
        FormulaNode::Not(g) => matches!(&g.node, FormulaNode::Eq(_, _) | FormulaNode::Atom(_, _)),
        _ => false,
    }
}

/// The literal of a text: the text of its formula.
pub fn literal(alloc: Global, text: &str) -> Result<Literal, SampleFault> {
    as_literal(formula(alloc, text)?).ok_or(SampleFault::Text)
}

/// The literals of a text, with blanks between them, and commas or none.
pub fn literals(alloc: Global, text: &str) -> Result<Literals, SampleFault> {
    let d = disjunct(alloc, text)?;
    if d.universals.len() == 0 {
        Ok(d.literals)
    } else {
        Err(SampleFault::Text)
    }
}

/// The disjunct of a text: its formulas, of which the literals are one part and the others the other.
pub fn disjunct(alloc: Global, text: &str) -> Result<Disjunct, SampleFault> {
    let mut d = Disjunct {
        literals: Literals::new(alloc),
        universals: Formulas::new(alloc),
    };
    for f in formulas(alloc, text)?.into_items() {
        if is_literal(&f) {
            d.literals.push(as_literal(f).ok_or(SampleFault::Text)?)?;
        } else {
            d.universals.push(f)?;
        }
    }
    Ok(d)
}

/// The sequent of a text: `P1, P2 |- F`, without premises `|- F`.
pub fn sequent(alloc: Global, text: &str) -> Result<Sequent, SampleFault> {
    let (before, behind) = text.split_once("|-").ok_or(SampleFault::Text)?;
    let premises = formulas(alloc, before)?;
    let conclusion = formula(alloc, behind)?;
    Ok(Sequent {
        premises,
        conclusion,
    })
}

/// A letter of a text with its body, a term or a formula: `NAME.LN BODY`.
fn letter(alloc: Global, text: &str) -> Result<Letter, SampleFault> {
    let (word, rest) = text.split_once(' ').ok_or(SampleFault::Text)?;
    let letter = symbol(word).ok_or(SampleFault::Text)?;
    let mut reader = Reader::new(alloc);
    read(&mut reader, alloc, rest)?;
    let body = match (reader.terms.items.pop(), reader.formulas.items.pop()) {
        (Some(t), None) => Body::OfTerm(t),
        (None, Some(f)) => Body::OfFormula(f),
        _ => return Err(SampleFault::Text),
    };
    Ok(Letter { letter, body })
}

/// The letters of a text with their bodies, a line for each.
pub fn letters(alloc: Global, text: &str) -> Result<Letters, SampleFault> {
    let mut letters = Letters::new(alloc);
    for line in text.lines() {
        letters.push(letter(alloc, line)?)?;
    }
    Ok(letters)
}
