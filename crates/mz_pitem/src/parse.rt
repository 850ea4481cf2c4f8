//! The parse of a whole article.
ghost use Rattle.std.specs.Prelude.{◌≡◌};
ghost use Rattle.mz_parse_laws.specs.Article.{IsArticle, ParsesArticle};
ghost use Rattle.mz_pitem.specs.Ended.{ended_of};

use crate::articles;
use mz_base::place::Place;
use mz_base::token::{MarkedToken, Tokens};
use mz_pexpr::marked_tokens::marked_tokens;
use mz_pterm::parse::{MAX_NESTING, ParseFault, fault};
use mz_pterm::reader::Reader;
use mz_tree_item::article::ArticleTree;
use std::alloc::Global;

/// The article that all tokens spell. Each comma has the mark that it has in the whole list (`docs/LANGUAGE.md`).
///
/// # Errors
/// `Unexpected` at the first token with which the tokens so far begin no article, of any depth; `TooDeep` at the first token
/// that is nested more than 128 deep in each article that the tokens up to it begin; `EndsEarly` at the text's end, where all
/// tokens begin an article and are none; `Memory` where there was none.
pub fn article(alloc: Global, tokens: &Tokens) -> Result<ArticleTree, ParseFault>
    ensures { ParsesArticle tokens.now result }
{
    match marked_tokens(alloc, tokens) {
        Ok(all) => whole(alloc, all.as_slice(), tokens.end),
        Err(_) => Err(ParseFault::Memory),
    }
}

/// The same over tokens that have their marks. `end` is the place just after the text's last byte.
fn whole(alloc: Global, tokens: &[MarkedToken], end: Place) -> Result<ArticleTree, ParseFault>
    ensures { IsArticle tokens.now end result }
{
    let mut reader = Reader {
        rest: tokens,
        alloc,
    };
    match articles::article(&mut reader, MAX_NESTING) {
        Ok(tree) => ended(reader.rest, tree),
        Err(refusal) => Err(fault(reader.rest, end, refusal)),
    }
}

/// The article where no token is left, and else a refusal at the first one that is left.
fn ended(rest: &[MarkedToken], tree: ArticleTree) -> Result<ArticleTree, ParseFault>
    ensures { result ≡ ended_of rest.now tree }
{
    match rest.split_first() {
        Some((next, _)) => Err(ParseFault::Unexpected {
            place: next.token.place,
        }),
        None => Ok(tree),
    }
}
