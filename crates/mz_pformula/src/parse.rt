//! The parse of formulas from a place on.
ghost use Rattle.std.specs.Prelude.{◌≤◌, Bool, length};
ghost use Rattle.mz_forms.specs.Parse.{OneTree};
ghost use Rattle.mz_tree.specs.Grammar as grammar;
ghost use Rattle.mz_pterm.specs.Parses.{Parses};
ghost use Rattle.mz_pformula.specs.Forms.{formula_in};

use crate::formulas;
use mz_base::place::Place;
use mz_base::token::MarkedToken;
use mz_pterm::parse::{MAX_NESTING, ParseFault, fault};
use mz_pterm::reader::Reader;
use mz_tree::nodes::FormulaNode;
use std::alloc::Global;

/// The longest formula from the token with this number on, and the number of the token behind it. `end` is the place just
/// after the text's last byte; `field` says whether a field's type is read, in which a selector may stand without `of`.
pub fn formula(
    alloc: Global,
    tokens: &[MarkedToken],
    end: Place,
    at: usize,
    field: bool,
) -> Result<(Box<FormulaNode>, usize), ParseFault>
    requires { at ≤ length tokens.now }
    ensures { Parses (grammar.formula field) formula_in tokens.now end at result }
{
    let mut reader = Reader {
        rest: &tokens[at..],
        alloc,
    };
    match formulas::formula(&mut reader, field, MAX_NESTING) {
        Ok(tree) => Ok((tree, tokens.len() - reader.rest.len())),
        Err(refusal) => Err(fault(reader.rest, end, refusal)),
    }
}

/// Two formulas that spell the same tokens are equal, however deep they nest.
pub fn one_tree()
    ensures { (field : Bool) → OneTree (grammar.formula field) }
{}
