//! The environment part of an article.
ghost use Rattle.std.specs.Prelude.{◌≡◌, ◌++◌, ◌∷◌, [], IfOk, IfErr, OnOk};
ghost use Rattle.mz_lex.specs.BuiltIn.{built_in_lexemes};
ghost use Rattle.mz_lex.specs.Cut.{Stop, OneCut};
ghost use Rattle.mz_lex.specs.State.{next_of, is_at_directive, is_later, fault_at, AreRefused};
ghost use Rattle.mz_lex.specs.Head.{SpellsHead, IsHeadOf, IsHeadRefused};

use crate::built_in::built_in_lexemes;
use crate::cut::cut;
use crate::head_fault::HeadFault;
use crate::head_token::{HeadToken, head_token_of};
use crate::piece::Part;
use crate::symbol_table::SymbolTable;
use mz_base::head::{Directive, DirectiveKind, Head, PlacedName, PlacedNames};
use mz_base::name::Name;
use mz_base::place::Place;
use mz_base::token::Token;
use std::alloc::{AllocError, Global};
use std::mem;

/// What may come next in an environment part.
#[derive(Clone, Copy, Debug, PartialEq, Eq)]
pub enum State {
    /// `environ`
    AtEnviron,
    /// A directive's word, or `begin`.
    AtDirective,
    /// A name.
    AtName,
    /// `,` or `;`
    AtSeparator,
    /// Nothing: `begin` was read.
    AtEnd,
}

/// What may come behind the token, where that may come.
fn next_of(state: State, head_token: HeadToken) -> Option<State>
    ensures { result ≡ next_of state head_token }
{
    match state {
        State::AtEnviron => match head_token {
            HeadToken::Environ => Some(State::AtDirective),
            _ => None,
        },
        State::AtDirective => match head_token {
            HeadToken::Directive(_) => Some(State::AtName),
            HeadToken::Begin => Some(State::AtEnd),
            _ => None,
        },
        State::AtName => match head_token {
            HeadToken::Name => Some(State::AtSeparator),
            _ => None,
        },
        State::AtSeparator => match head_token {
            HeadToken::Comma => Some(State::AtName),
            HeadToken::Semicolon => Some(State::AtDirective),
            _ => None,
        },
        State::AtEnd => None,
    }
}

fn is_at_directive(state: State) -> bool
    ensures { result ≡ is_at_directive state }
{
    matches!(state, State::AtDirective)
}

fn is_later(head_token: HeadToken) -> bool
    ensures { result ≡ is_later head_token }
{
    matches!(head_token, HeadToken::Later)
}

fn fault_at(state: State, head_token: HeadToken, place: Place) -> HeadFault
    ensures { result ≡ fault_at state head_token place }
{
    if is_at_directive(state) && is_later(head_token) {
        HeadFault::Profile2 { place }
    } else {
        HeadFault::Unexpected { place }
    }
}

/// Adds a directive behind the others.
fn add_directive(
    items: &mut Vec<Directive>,
    kind: DirectiveKind,
    place: Place,
    names: Vec<PlacedName>,
) -> Result<(), AllocError>
    ensures { OnOk result (items.new.items ≡ items.old.items ++ record { kind = kind; place = place; names = names.items } ∷ []) }
{
    let names = PlacedNames { items: names };
    items.push(Directive { kind, place, names })?;
    Ok(())
}

/// The environment part that the tokens spell, the text ending just before `end`.
fn read_head(alloc: Global, tokens: &[Token], end: Place) -> Result<Head, HeadFault>
    ensures head { IfOk result (λ head. SpellsHead head tokens.now) }
    ensures refused { IfErr result (AreRefused tokens.now end) }
{
    let mut items = Vec::new(alloc);
    let mut state = State::AtEnviron;
    let mut kind = DirectiveKind::Vocabularies;
    let mut place = end;
    let mut names = Vec::new(alloc);
    for token in tokens {
        let head_token = head_token_of(token);
        let Some(next) = next_of(state, head_token) else {
            return Err(fault_at(state, head_token, token.place));
        };
        state = next;
        match head_token {
            HeadToken::Environ => {}
            HeadToken::Begin => {}
            HeadToken::Directive(word) => {
                kind = word;
                place = token.place;
                names = Vec::new(alloc);
            }
            HeadToken::Later => {}
            HeadToken::Name => match Name::read(token.spelling.as_slice()) {
                Ok(name) => names.push(PlacedName {
                    name,
                    place: token.place,
                })?,
                Err(_) => return Err(HeadFault::Unexpected { place: token.place }),
            },
            HeadToken::Comma => {}
            HeadToken::Semicolon => {
                let all = mem::replace(&mut names, Vec::new(alloc));
                add_directive(&mut items, kind, place, all)?;
            }
            HeadToken::Other => {}
        }
    }
    match state {
        State::AtEnd => Ok(Head { items }),
        _ => Err(HeadFault::EndsEarly { place: end }),
    }
}

/// The environment part of an article: what stands up to and including the first `begin`, cut with the built-in
/// symbols alone (`docs/LANGUAGE.md`). What stands behind it isn't read.
///
/// # Errors
/// The first fault of the cut, as `tokens` has it, up to and including the first `begin`. Where there is none,
/// `Unexpected` at the first token with which the tokens begin no environment part, `EndsEarly` just after the text's
/// last byte where the text ends before its `begin`, and `Profile2` at a directive's word that isn't allowed yet.
/// `Memory` where there wasn't enough memory.
pub fn head(alloc: Global, bytes: &[u8]) -> Result<Head, HeadFault>
    ensures head { IfOk result (IsHeadOf bytes.now) }
    ensures refused { IfErr result (IsHeadRefused bytes.now) }
    ensures one { OneCut built_in_lexemes Stop bytes.now }
{
    let table = SymbolTable::new(alloc, built_in_lexemes(alloc)?)?;
    let tokens = cut(alloc, &table, &table, bytes, Part::HeadAlone)?;
    read_head(alloc, tokens.items.as_slice(), tokens.end)
}
