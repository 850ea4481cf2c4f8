//! The tokens of an article.
ghost use Rattle.std.specs.Prelude.{◌≡◌, IfOk, map};
ghost use Rattle.mz_tree_item.specs.Spell.{spell_article};
ghost use Rattle.mz_tree_item.specs.Ends.{token_of, end_behind, end_of};

use crate::tree::Spell;
use mz_base::place::Place;
use mz_base::token::{MarkedToken, Token, Tokens};
use mz_tree_item::article::ArticleTree;
use std::alloc::{AllocError, Global};

/// The place just behind the token, in its line.
fn end_behind(token: &Token) -> Place
    ensures { result ≡ end_behind token.now }
{
    let column = token.place.column;
    Place {
        line: token.place.line,
        column: column.saturating_add(token.spelling.len() as u64),
    }
}

fn without_marks(alloc: Global, marked: &[MarkedToken]) -> Result<Vec<Token>, AllocError>
    ensures { IfOk result (λ tokens. tokens.items ≡ map token_of marked.now) }
{
    let mut tokens = Vec::new(alloc);
    for m in marked {
        let spelling = m.token.spelling.copy(alloc)?;
        tokens.push(Token {
            kind: m.token.kind,
            place: m.token.place,
            spelling,
            priority: m.token.priority,
        })?;
    }
    Ok(tokens)
}

fn end_of(tokens: &[Token]) -> Place
    ensures { result ≡ end_of tokens.now }
{
    match tokens.last() {
        Some(token) => end_behind(token),
        None => Place::start(),
    }
}

/// The tokens of an article by the alternatives of the grammar alone, also of a tree that breaks a rule beside
/// them. Their end is just behind the last token, so it may be another than that of the text.
pub fn spell(alloc: Global, tree: &ArticleTree) -> Result<Tokens, AllocError>
    ensures tokens { IfOk result (λ ts. ts.items ≡ map token_of (spell_article tree.now)) }
    ensures end { IfOk result (λ ts. ts.end ≡ end_of ts.items) }
{
    let mut marked = Vec::new(alloc);
    tree.spell(alloc, &mut marked)?;
    let items = without_marks(alloc, &marked)?;
    let end = end_of(&items);
    Ok(Tokens { items, end })
}
