//! The parse of a justification without a proof from a place on.
ghost use Rattle.std.specs.Prelude.{◌≤◌, length};
ghost use Rattle.mz_forms.specs.Parse.{OneTree};
ghost use Rattle.mz_pterm.specs.Parses.{Parses};
ghost use Rattle.mz_pjustification.specs.Forms.{same_simple};
ghost use Rattle.mz_pjustification.specs.Grammar as grammar;

use crate::simple;
use mz_base::place::Place;
use mz_base::token::MarkedToken;
use mz_pterm::parse::{MAX_NESTING, ParseFault, fault};
use mz_pterm::reader::Reader;
use mz_tree_proof::references::SimpleTree;
use std::alloc::Global;

/// The longest justification without a proof from the token with this number on, and the number of the token behind it.
/// `end` is the place just after the text's last byte.
pub fn simple(
    alloc: Global,
    tokens: &[MarkedToken],
    end: Place,
    at: usize,
) -> Result<(SimpleTree, usize), ParseFault>
    requires { at ≤ length tokens.now }
    ensures { Parses grammar.simple same_simple tokens.now end at result }
{
    let mut reader = Reader {
        rest: &tokens[at..],
        alloc,
    };
    match simple::simple(&mut reader, MAX_NESTING) {
        Ok(tree) => Ok((tree, tokens.len() - reader.rest.len())),
        Err(refusal) => Err(fault(reader.rest, end, refusal)),
    }
}

/// Two justifications without a proof that spell the same tokens are equal.
pub fn one_tree()
    ensures { OneTree grammar.simple }
{}
