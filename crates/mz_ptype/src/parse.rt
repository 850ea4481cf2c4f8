//! The parses of types, adjectives and declarations from a place on.
ghost use Rattle.std.specs.Prelude.{◌≤◌, Bool, length};
ghost use Rattle.mz_forms.specs.Parse.{OneTree};
ghost use Rattle.mz_tree.specs.Views.{declarations_of};
ghost use Rattle.mz_tree.specs.Grammar as grammar;
ghost use Rattle.mz_pterm.specs.Parses.{Parses};
ghost use Rattle.mz_ptype.specs.Forms.{adjectives_pair, type_in};

use crate::{adjectives, declarations, types};
use mz_base::place::Place;
use mz_base::token::MarkedToken;
use mz_pterm::parse::{MAX_NESTING, ParseFault, fault};
use mz_pterm::reader::Reader;
use mz_tree::nodes::{AdjectiveNode, DeclarationsNode, TypeNode};
use std::alloc::Global;

/// The longest type from the token with this number on, and the number of the token behind it. `end` is the place just
/// after the text's last byte; `field` says whether it is a field's type, in which a selector may stand without `of`.
pub fn whole_type(
    alloc: Global,
    tokens: &[MarkedToken],
    end: Place,
    at: usize,
    field: bool,
) -> Result<(Box<TypeNode>, usize), ParseFault>
    requires { at ≤ length tokens.now }
    ensures { Parses (grammar.type_form field) type_in tokens.now end at result }
{
    let mut reader = Reader {
        rest: &tokens[at..],
        alloc,
    };
    match types::whole_type(&mut reader, field, MAX_NESTING) {
        Ok(tree) => Ok((tree, tokens.len() - reader.rest.len())),
        Err(refusal) => Err(fault(reader.rest, end, refusal)),
    }
}

/// The longest adjectives from the token with this number on, at least one, and the number of the token behind them.
pub fn adjectives(
    alloc: Global,
    tokens: &[MarkedToken],
    end: Place,
    at: usize,
    field: bool,
) -> Result<((AdjectiveNode, Vec<AdjectiveNode>), usize), ParseFault>
    requires { at ≤ length tokens.now }
    ensures { Parses (grammar.adjectives field) adjectives_pair tokens.now end at result }
{
    let mut reader = Reader {
        rest: &tokens[at..],
        alloc,
    };
    match adjectives::adjectives(&mut reader, field, MAX_NESTING) {
        Ok(tree) => Ok((tree, tokens.len() - reader.rest.len())),
        Err(refusal) => Err(fault(reader.rest, end, refusal)),
    }
}

/// The longest declarations from the token with this number on, and the number of the token behind them.
pub fn declarations(
    alloc: Global,
    tokens: &[MarkedToken],
    end: Place,
    at: usize,
    field: bool,
) -> Result<(DeclarationsNode, usize), ParseFault>
    requires { at ≤ length tokens.now }
    ensures { Parses (grammar.declarations field) declarations_of tokens.now end at result }
{
    let mut reader = Reader {
        rest: &tokens[at..],
        alloc,
    };
    match declarations::declarations(&mut reader, field, MAX_NESTING) {
        Ok(tree) => Ok((tree, tokens.len() - reader.rest.len())),
        Err(refusal) => Err(fault(reader.rest, end, refusal)),
    }
}

/// Two types, two lists of adjectives and two lists of declarations that spell the same tokens are equal, however deep
/// they nest.
pub fn one_tree()
    ensures types { (field : Bool) → OneTree (grammar.type_form field) }
    ensures adjectives { (field : Bool) → OneTree (grammar.adjectives field) }
    ensures declarations { (field : Bool) → OneTree (grammar.declarations field) }
{}
