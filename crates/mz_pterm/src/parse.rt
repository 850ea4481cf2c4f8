//! The parses of a term and of terms from a place on.
ghost use Rattle.std.specs.Prelude.{◌≡◌, ◌≤◌, Bool, length};
ghost use Rattle.mz_forms.specs.Parse.{OneTree};
ghost use Rattle.mz_tree.specs.Views.{term_of, terms_of};
ghost use Rattle.mz_tree.specs.Grammar.{term, terms};
ghost use Rattle.mz_pterm.specs.Parses.{Parses, fault_of};

use crate::reader::Reader;
use mz_base::place::Place;
use mz_base::token::MarkedToken;
use mz_forms::refusal::Refusal;
use mz_tree::nodes::{TermNode, TermsNode};
use std::alloc::Global;
use thiserror::Error;

/// How deep constructs may nest.
pub const MAX_NESTING: usize = 128;

/// Why tokens are no tree.
#[derive(Debug, Drop, Error)]
pub enum ParseFault {
    /// There was no memory.
    #[error("out of memory")]
    Memory,
    /// At the first token with which the tokens so far begin no tree.
    #[error("an unexpected token")]
    Unexpected { place: Place },
    /// At the first token that is nested more than 128 deep.
    #[error("constructs nest too deep")]
    TooDeep { place: Place },
    /// Just after the last byte: all tokens begin a tree and are none.
    #[error("the text ends early")]
    EndsEarly { place: Place },
}

/// What a refusal is where these tokens are left. `end` is the place just after the text's last byte.
pub fn fault(rest: &[MarkedToken], end: Place, refusal: Refusal) -> ParseFault
    ensures { result ≡ fault_of rest.now end refusal }
{
    match refusal {
        Refusal::Memory => ParseFault::Memory,
        Refusal::TooDeep => match rest.split_first() {
            Some((next, _)) => ParseFault::TooDeep {
                place: next.token.place,
            },
            None => ParseFault::EndsEarly { place: end },
        },
        Refusal::Refused => match rest.split_first() {
            Some((next, _)) => ParseFault::Unexpected {
                place: next.token.place,
            },
            None => ParseFault::EndsEarly { place: end },
        },
    }
}

/// The longest term from the token with this number on, and the number of the token behind it. `end` is the place just
/// after the text's last byte; `field` says whether a field's type is read, in which a selector may stand without `of`.
pub fn term(
    alloc: Global,
    tokens: &[MarkedToken],
    end: Place,
    at: usize,
    field: bool,
) -> Result<(TermNode, usize), ParseFault>
    requires { at ≤ length tokens.now }
    ensures { Parses (term field) term_of tokens.now end at result }
{
    let mut reader = Reader {
        rest: &tokens[at..],
        alloc,
    };
    match reader.term(field, MAX_NESTING) {
        Ok(term) => Ok((term, tokens.len() - reader.rest.len())),
        Err(refusal) => Err(fault(reader.rest, end, refusal)),
    }
}

/// The longest terms from the token with this number on, and the number of the token behind them. `end` is the place
/// just after the text's last byte; `field` says whether a field's type is read, in which a selector may stand without
/// `of`.
pub fn terms(
    alloc: Global,
    tokens: &[MarkedToken],
    end: Place,
    at: usize,
    field: bool,
) -> Result<(TermsNode, usize), ParseFault>
    requires { at ≤ length tokens.now }
    ensures { Parses (terms field) terms_of tokens.now end at result }
{
    let mut reader = Reader {
        rest: &tokens[at..],
        alloc,
    };
    match reader.terms(field, MAX_NESTING) {
        Ok(terms) => Ok((terms, tokens.len() - reader.rest.len())),
        Err(refusal) => Err(fault(reader.rest, end, refusal)),
    }
}

/// Two terms and two lists of terms that spell the same tokens are equal, however deep they nest.
pub fn one_tree()
    ensures term { (field : Bool) → OneTree (term field) }
    ensures terms { (field : Bool) → OneTree (terms field) }
{}
