//! The parse of a proposition from a place on.
ghost use Rattle.std.specs.Prelude.{◌≤◌, length};
ghost use Rattle.mz_forms.specs.Parse.{OneTree};
ghost use Rattle.mz_pterm.specs.Parses.{Parses};
ghost use Rattle.mz_tree_proof.specs.Grammar as grammar;
ghost use Rattle.mz_pproposition.specs.Forms.{same_proposition};

use crate::propositions;
use mz_base::place::Place;
use mz_base::token::MarkedToken;
use mz_pterm::parse::{MAX_NESTING, ParseFault, fault};
use mz_pterm::reader::Reader;
use mz_tree_proof::propositions::PropositionTree;
use std::alloc::Global;

/// The longest proposition from the token with this number on, and the number of the token behind it. `end` is the place
/// just after the text's last byte.
pub fn proposition(
    alloc: Global,
    tokens: &[MarkedToken],
    end: Place,
    at: usize,
) -> Result<(PropositionTree, usize), ParseFault>
    requires { at ≤ length tokens.now }
    ensures { Parses grammar.proposition same_proposition tokens.now end at result }
{
    let mut reader = Reader {
        rest: &tokens[at..],
        alloc,
    };
    match propositions::proposition(&mut reader, MAX_NESTING) {
        Ok(tree) => Ok((tree, tokens.len() - reader.rest.len())),
        Err(refusal) => Err(fault(reader.rest, end, refusal)),
    }
}

/// Two propositions that spell the same tokens are equal, however deep they nest.
pub fn one_tree()
    ensures { OneTree grammar.proposition }
{}
