//! The parse of an expression from a place on.
ghost use Rattle.std.specs.Prelude.{◌≤◌, length};
ghost use Rattle.mz_forms.specs.Parse.{OneTree};
ghost use Rattle.mz_pexpr.specs.Expression.{grammar_of, IsRead, Parses};
ghost use Rattle.mz_pexpr.specs.declared.forms.Form as rust;
ghost use Rattle.mz_pexpr.specs.declared.forms.Form.TheVariants as forms;

use crate::forms::{Expression, Form};
use crate::marked_tokens::marked_tokens;
use mz_base::place::Place;
use mz_base::token::{MarkedToken, Tokens};
use mz_pformula::parse::formula;
use mz_pterm::parse::{ParseFault, term, terms};
use mz_ptype::parse::{adjectives, declarations, whole_type};
use mz_tree::expressions::{
    AdjectivesTree, DeclarationsTree, FormulaTree, TermTree, TermsTree, TypeTree,
};
use std::alloc::Global;

/// The longest expression of this form from the token with this number on, and the number of the token behind it. Each
/// comma has the mark that it has in the whole list (`docs/LANGUAGE.md`).
///
/// # Errors
/// `Unexpected` at the first token with which the tokens from `at` on begin no tree of the form, of any depth; `TooDeep` at
/// the first token that is nested more than 128 deep in each tree that the tokens up to it begin; `EndsEarly` at the text's
/// end, where all tokens begin such a tree and are none; `Memory` where there was none.
pub fn expression(
    alloc: Global,
    tokens: &Tokens,
    at: usize,
    form: Form,
) -> Result<(Expression, usize), ParseFault>
    requires { at ≤ length tokens.now.items }
    ensures { Parses form tokens.now at result }
{
    match marked_tokens(alloc, tokens) {
        Ok(all) => read(alloc, all.as_slice(), tokens.end, at, form),
        Err(_) => Err(ParseFault::Memory),
    }
}

/// The same over tokens that have their marks. `end` is the place just after the text's last byte.
pub fn read(
    alloc: Global,
    tokens: &[MarkedToken],
    end: Place,
    at: usize,
    form: Form,
) -> Result<(Expression, usize), ParseFault>
    requires { at ≤ length tokens.now }
    ensures { IsRead form tokens.now end at result }
{
    match form {
        Form::Formula => read_formula(alloc, tokens, end, at),
        Form::Term => read_term(alloc, tokens, end, at),
        Form::Terms => read_terms(alloc, tokens, end, at),
        Form::TypeForm => read_type(alloc, tokens, end, at),
        Form::Adjectives => read_adjectives(alloc, tokens, end, at),
        Form::Declarations => read_declarations(alloc, tokens, end, at),
    }
}

fn read_formula(
    alloc: Global,
    tokens: &[MarkedToken],
    end: Place,
    at: usize,
) -> Result<(Expression, usize), ParseFault>
    requires { at ≤ length tokens.now }
    ensures { IsRead forms.Formula tokens.now end at result }
{
    let (node, behind) = formula(alloc, tokens, end, at, false)?;
    Ok((Expression::Formula(FormulaTree::from_node(node)), behind))
}

fn read_term(
    alloc: Global,
    tokens: &[MarkedToken],
    end: Place,
    at: usize,
) -> Result<(Expression, usize), ParseFault>
    requires { at ≤ length tokens.now }
    ensures { IsRead forms.Term tokens.now end at result }
{
    let (node, behind) = term(alloc, tokens, end, at, false)?;
    Ok((Expression::Term(TermTree::from_node(node)), behind))
}

fn read_terms(
    alloc: Global,
    tokens: &[MarkedToken],
    end: Place,
    at: usize,
) -> Result<(Expression, usize), ParseFault>
    requires { at ≤ length tokens.now }
    ensures { IsRead forms.Terms tokens.now end at result }
{
    let (node, behind) = terms(alloc, tokens, end, at, false)?;
    Ok((Expression::Terms(TermsTree::from_node(node)), behind))
}

fn read_type(
    alloc: Global,
    tokens: &[MarkedToken],
    end: Place,
    at: usize,
) -> Result<(Expression, usize), ParseFault>
    requires { at ≤ length tokens.now }
    ensures { IsRead forms.TypeForm tokens.now end at result }
{
    let (node, behind) = whole_type(alloc, tokens, end, at, false)?;
    Ok((Expression::TypeForm(TypeTree::from_node(node)), behind))
}

fn read_adjectives(
    alloc: Global,
    tokens: &[MarkedToken],
    end: Place,
    at: usize,
) -> Result<(Expression, usize), ParseFault>
    requires { at ≤ length tokens.now }
    ensures { IsRead forms.Adjectives tokens.now end at result }
{
    let ((first, more), behind) = adjectives(alloc, tokens, end, at, false)?;
    let tree = AdjectivesTree::from_nodes(first, more);
    Ok((Expression::Adjectives(tree), behind))
}

fn read_declarations(
    alloc: Global,
    tokens: &[MarkedToken],
    end: Place,
    at: usize,
) -> Result<(Expression, usize), ParseFault>
    requires { at ≤ length tokens.now }
    ensures { IsRead forms.Declarations tokens.now end at result }
{
    let (node, behind) = declarations(alloc, tokens, end, at, false)?;
    let tree = DeclarationsTree::from_node(node);
    Ok((Expression::Declarations(tree), behind))
}

/// Two trees of one form that spell the same tokens are equal, however deep they nest.
pub fn one_tree()
    ensures { (form : rust.Form) → OneTree (grammar_of form) }
{}
