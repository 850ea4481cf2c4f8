//! Texts of symbols, terms and formulas.
ghost use Rattle.std.specs.Prelude.{◌≡◌, ◌++◌, ◌∷◌, OnOk, IfOk};
ghost use Rattle.std.specs.Fmt.{decimal};
ghost use Rattle.std.specs.List.{flat_map};
ghost use Rattle.mz_logic.specs.Term.{terms_of};
ghost use Rattle.mz_logic.specs.Formula.{Eq};
ghost use Rattle.mz_logic.specs.Text.{bytes_of, kind_letter, sym_text, applied_text, argument_text, args_text, term_text, formula_text};

use crate::formula::{Formula, FormulaNode};
use crate::kind::Kind;
use crate::sym::Sym;
use crate::term::{Term, TermNode, Terms};
use std::alloc::{AllocError, Global};

/// The text of a term: `bI`, `cI`, or the symbol's text with those of its arguments.
pub fn term_text(alloc: Global, t: &Term) -> Result<Vec<u8>, AllocError>
    ensures { IfOk result (λ v. v.items ≡ term_text t.now) }
{
    let mut out = Vec::new(alloc);
    push_term(alloc, &mut out, t)?;
    Ok(out)
}

/// The text of a formula: `true`, `(= T U)`, `(SYM A1 A2)`, `(not F)`, `(and F G)` or `(all F)`.
pub fn formula_text(alloc: Global, f: &Formula) -> Result<Vec<u8>, AllocError>
    ensures { IfOk result (λ v. v.items ≡ formula_text f.now) }
{
    let mut out = Vec::new(alloc);
    push_formula(alloc, &mut out, f)?;
    Ok(out)
}

/// Adds the text of a formula.
#[tactic(auto, using(crate::proofs::TextLemmas::formula_rules))]
pub fn push_formula(alloc: Global, out: &mut Vec<u8>, f: &Formula) -> Result<(), AllocError>
    ensures { OnOk result (out.new.items ≡ out.old.items ++ formula_text f.now) }
{
    match &f.node {
        FormulaNode::Truth => out.extend_from_slice(b"true"),
        FormulaNode::Eq(t, u) => push_equation(alloc, out, t, u),
        FormulaNode::Atom(s, ts) => push_applied(alloc, out, *s, ts),
        FormulaNode::Not(g) => {
            out.extend_from_slice(b"(not ")?;
            push_formula(alloc, out, g)?;
            out.extend_from_slice(b")")
        }
        FormulaNode::And(g, h) => {
            out.extend_from_slice(b"(and ")?;
            push_formula(alloc, out, g)?;
            out.extend_from_slice(b" ")?;
            push_formula(alloc, out, h)?;
            out.extend_from_slice(b")")
        }
        FormulaNode::All(g) => {
            out.extend_from_slice(b"(all ")?;
            push_formula(alloc, out, g)?;
            out.extend_from_slice(b")")
        }
    }
}

#[tactic(auto, using(crate::proofs::TextLemmas::equation_rules))]
fn push_equation(alloc: Global, out: &mut Vec<u8>, t: &Term, u: &Term) -> Result<(), AllocError>
    ensures { OnOk result (out.new.items ≡ out.old.items ++ formula_text (Eq t.now u.now)) }
{
    out.extend_from_slice(b"(= ")?;
    push_term(alloc, out, t)?;
    out.extend_from_slice(b" ")?;
    push_term(alloc, out, u)?;
    out.extend_from_slice(b")")
}

/// Adds the text of a term.
#[cycle(texts)]
pub fn push_term(alloc: Global, out: &mut Vec<u8>, t: &Term) -> Result<(), AllocError>
    ensures { OnOk result (out.new.items ≡ out.old.items ++ term_text t.now) }
{
    match &t.node {
        TermNode::Bound(index) => push_numbered(alloc, out, b'b', *index),
        TermNode::Const(number) => push_numbered(alloc, out, b'c', *number),
        TermNode::App(s, ts) => push_applied(alloc, out, *s, ts),
    }
}

#[cycle(texts)]
#[tactic(auto, using(crate::proofs::TextLemmas::applied_rules))]
fn push_applied(alloc: Global, out: &mut Vec<u8>, s: Sym, ts: &Terms) -> Result<(), AllocError>
    ensures { OnOk result (out.new.items ≡ out.old.items ++ applied_text (sym_text s) (args_text (terms_of ts.now))) }
{
    if ts.items.len() == 0 {
        return push_sym(alloc, out, s);
    }
    out.extend_from_slice(b"(")?;
    push_sym(alloc, out, s)?;
    push_arguments(alloc, out, ts)?;
    out.extend_from_slice(b")")
}

#[cycle(texts)]
fn push_arguments(alloc: Global, out: &mut Vec<u8>, ts: &Terms) -> Result<(), AllocError>
    ensures { OnOk result (out.new.items ≡ out.old.items ++ flat_map argument_text ts.now) }
{
    for t in &ts.items {
        push_argument(alloc, out, t)?;
    }
    Ok(())
}

#[cycle(texts)]
#[tactic(auto, using(crate::proofs::TextLemmas::argument_rules))]
fn push_argument(alloc: Global, out: &mut Vec<u8>, t: &Term) -> Result<(), AllocError>
    ensures { OnOk result (out.new.items ≡ out.old.items ++ argument_text t.now) }
{
    out.push(b' ')?;
    push_term(alloc, out, t)
}

/// Adds a letter and then a number.
#[tactic(auto, using(crate::proofs::TextLemmas::number_rules))]
fn push_numbered(
    alloc: Global,
    out: &mut Vec<u8>,
    letter: u8,
    number: u32,
) -> Result<(), AllocError>
    ensures { OnOk result (out.new.items ≡ out.old.items ++ letter ∷ decimal number) }
{
    let digits = format!(in alloc; "{number}")?;
    out.push(letter)?;
    out.extend_from_slice(digits.as_bytes())
}

/// Adds `NAME.LN`: the article's name, the letter of the symbol's kind, and its number.
#[tactic(auto, using(crate::proofs::TextLemmas::sym_rules))]
pub fn push_sym(alloc: Global, out: &mut Vec<u8>, s: Sym) -> Result<(), AllocError>
    ensures { OnOk result (out.new.items ≡ out.old.items ++ sym_text s) }
{
    push_bytes(out, 8, s.article)?;
    out.push(b'.')?;
    push_numbered(alloc, out, s.kind.letter(), s.number)
}

/// Adds the last `count` bytes of a number, most significant first, without the zeros.
#[tactic(auto, using(crate::proofs::TextLemmas::byte_rules))]
fn push_bytes(out: &mut Vec<u8>, count: u8, number: u64) -> Result<(), AllocError>
    ensures { OnOk result (out.new.items ≡ out.old.items ++ bytes_of count number) }
{
    if count == 0 {
        return Ok(());
    }
    push_bytes(out, count - 1, number / 256)?;
    let byte = (number % 256) as u8;
    if byte == 0 {
        return Ok(());
    }
    out.push(byte)?;
    Ok(())
}

impl Kind {
    /// The letter of the kind: M, G, V, O, U, A, R, F or P.
    pub fn letter(self) -> u8
        ensures { result ≡ kind_letter self }
    {
        match self {
            Kind::Mode => b'M',
            Kind::Structure => b'G',
            Kind::Attribute => b'V',
            Kind::Functor => b'O',
            Kind::Selector => b'U',
            Kind::Aggregate => b'A',
            Kind::Predicate => b'R',
            Kind::LetterFunctor => b'F',
            Kind::LetterPredicate => b'P',
        }
    }
}
