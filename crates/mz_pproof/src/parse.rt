//! The parse of a proof from a place on.
ghost use Rattle.std.specs.Prelude.{◌≤◌, length};
ghost use Rattle.mz_forms.specs.Parse.{OneTree};
ghost use Rattle.mz_pproof.specs.Proof.{grammar_of, IsRead, Parses};
ghost use Rattle.mz_pproof.specs.declared.forms.ProofForm as rust;
ghost use Rattle.mz_pproof.specs.declared.forms.ProofForm.TheVariants as forms;

use crate::forms::{ProofForm, ProofTree};
use crate::reasonings::{justification, reasoning, statement};
use mz_base::place::Place;
use mz_base::token::{MarkedToken, Tokens};
use mz_pexpr::marked_tokens::marked_tokens;
use mz_pproposition::parse::proposition;
use mz_pterm::parse::{MAX_NESTING, ParseFault, fault};
use mz_pterm::reader::Reader;
use std::alloc::Global;

/// The longest proof of this form from the token with this number on, and the number of the token behind it. Each comma has
/// the mark that it has in the whole list (`docs/LANGUAGE.md`).
///
/// # Errors
/// `Unexpected` at the first token with which the tokens from `at` on begin no tree of the form, of any depth; `TooDeep` at
/// the first token that is nested more than 128 deep in each tree that the tokens up to it begin; `EndsEarly` at the text's
/// end, where all tokens begin such a tree and are none; `Memory` where there was none.
pub fn proof(
    alloc: Global,
    tokens: &Tokens,
    at: usize,
    form: ProofForm,
) -> Result<(ProofTree, usize), ParseFault>
    requires { at ≤ length tokens.now.items }
    ensures { Parses form tokens.now at result }
{
    match marked_tokens(alloc, tokens) {
        Ok(all) => read(alloc, all.as_slice(), tokens.end, at, form),
        Err(_) => Err(ParseFault::Memory),
    }
}

/// The same over tokens that have their marks. `end` is the place just after the text's last byte.
pub fn read(
    alloc: Global,
    tokens: &[MarkedToken],
    end: Place,
    at: usize,
    form: ProofForm,
) -> Result<(ProofTree, usize), ParseFault>
    requires { at ≤ length tokens.now }
    ensures { IsRead form tokens.now end at result }
{
    match form {
        ProofForm::Proposition => read_proposition(alloc, tokens, end, at),
        ProofForm::Justification => read_justification(alloc, tokens, end, at),
        ProofForm::Statement => read_statement(alloc, tokens, end, at),
        ProofForm::Reasoning => read_reasoning(alloc, tokens, end, at),
    }
}

fn read_proposition(
    alloc: Global,
    tokens: &[MarkedToken],
    end: Place,
    at: usize,
) -> Result<(ProofTree, usize), ParseFault>
    requires { at ≤ length tokens.now }
    ensures { IsRead forms.Proposition tokens.now end at result }
{
    let (tree, behind) = proposition(alloc, tokens, end, at)?;
    Ok((ProofTree::Proposition(tree), behind))
}

fn read_justification(
    alloc: Global,
    tokens: &[MarkedToken],
    end: Place,
    at: usize,
) -> Result<(ProofTree, usize), ParseFault>
    requires { at ≤ length tokens.now }
    ensures { IsRead forms.Justification tokens.now end at result }
{
    let mut reader = Reader {
        rest: &tokens[at..],
        alloc,
    };
    match justification(&mut reader, MAX_NESTING) {
        Ok(tree) => Ok((
            ProofTree::Justification(tree),
            tokens.len() - reader.rest.len(),
        )),
        Err(refusal) => Err(fault(reader.rest, end, refusal)),
    }
}

fn read_statement(
    alloc: Global,
    tokens: &[MarkedToken],
    end: Place,
    at: usize,
) -> Result<(ProofTree, usize), ParseFault>
    requires { at ≤ length tokens.now }
    ensures { IsRead forms.Statement tokens.now end at result }
{
    let mut reader = Reader {
        rest: &tokens[at..],
        alloc,
    };
    match statement(&mut reader, MAX_NESTING) {
        Ok(tree) => Ok((ProofTree::Statement(tree), tokens.len() - reader.rest.len())),
        Err(reason) => Err(fault(reader.rest, end, reason)),
    }
}

fn read_reasoning(
    alloc: Global,
    tokens: &[MarkedToken],
    end: Place,
    at: usize,
) -> Result<(ProofTree, usize), ParseFault>
    requires { at ≤ length tokens.now }
    ensures { IsRead forms.Reasoning tokens.now end at result }
{
    let mut reader = Reader {
        rest: &tokens[at..],
        alloc,
    };
    match reasoning(&mut reader, MAX_NESTING) {
        Ok(tree) => Ok((ProofTree::Reasoning(tree), tokens.len() - reader.rest.len())),
        Err(refusal) => Err(fault(reader.rest, end, refusal)),
    }
}

/// Two trees of one form that spell the same tokens are equal, however deep they nest.
pub fn one_tree()
    ensures { (form : rust.ProofForm) → OneTree (grammar_of form) }
{}
