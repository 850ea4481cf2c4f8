//! The tokens of a text, each with its mark.
ghost use Rattle.std.specs.Prelude.{◌≡◌, IfOk, length, map};
ghost use Rattle.mz_marks.specs.Marks.{AreMarked};

use mz_base::token::{Mark, MarkedToken, Token, Tokens};
use mz_marks::marks::Marks;
use std::alloc::{AllocError, Global};

/// The tokens with the marks that their commas have in the whole list. Fails only for want of memory.
pub fn marked_tokens(alloc: Global, tokens: &Tokens) -> Result<Vec<MarkedToken>, AllocError>
    ensures { IfOk result (λ all. AreMarked tokens.now.items all.items) }
{
    let marks = Marks::of(alloc, tokens)?;
    with_marks(alloc, tokens.items.as_slice(), marks.items.as_slice())
}

/// Each token with the mark of its number.
fn with_marks(
    alloc: Global,
    tokens: &[Token],
    marks: &[Mark],
) -> Result<Vec<MarkedToken>, AllocError>
    requires { length tokens.now ≡ length marks.now }
    ensures tokens { IfOk result (λ all. map (λ m. m.token) all.items ≡ tokens.now) }
    ensures marks { IfOk result (λ all. map (λ m. m.mark) all.items ≡ marks.now) }
{
    let mut all = Vec::new(alloc);
    for (token, mark) in tokens.iter().zip(marks.iter()) {
        let token = copy_token(alloc, token)?;
        all.push(MarkedToken { token, mark: *mark })?;
    }
    Ok(all)
}

fn copy_token(alloc: Global, token: &Token) -> Result<Token, AllocError>
    ensures { IfOk result (λ copy. copy ≡ token.now) }
{
    let spelling = token.spelling.copy(alloc)?;
    Ok(Token {
        kind: token.kind,
        place: token.place,
        spelling,
        priority: token.priority,
    })
}
