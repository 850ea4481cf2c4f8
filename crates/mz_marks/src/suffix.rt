//! What is known of the tokens from one place on, read from the last one to the first.
ghost use Rattle.std.specs.Prelude.{◌≡◌, IfOk, [], Option};
ghost use Rattle.mz_marks.specs.Suffix.{begins_with, segment_with, tail_with, reserve_tail_with, arrows_with, matched_with, is_arrow};
ghost use Rattle.mz_marks.specs.IsSuffix.{IsSuffix, Meets};

use crate::token_class::TokenClass;
use std::alloc::{AllocError, Global};

/// What is known of the tokens from one place on.
#[derive(Drop)]
pub struct Suffix {
    /// The first token.
    pub first: Option<TokenClass>,
    /// A term may begin there.
    pub begins: bool,
    /// A new segment begins there.
    pub segment: bool,
    /// The identifiers of a new segment end there, or go on.
    pub tail: bool,
    /// A new segment of a `reserve` begins there.
    pub reserve_segment: bool,
    /// The identifiers of a new segment of a `reserve` end there, or go on.
    pub reserve_tail: bool,
    /// Of each `)` without its `(`, the nearest one last: whether `->` stands behind it.
    pub arrows: Vec<bool>,
}

fn is_arrow(first: Option<TokenClass>) -> bool
    ensures { result ≡ is_arrow first }
{
    match first {
        Some(TokenClass::Arrow) => true,
        Some(_) => false,
        None => false,
    }
}

fn begins_with(class: TokenClass, first: Option<TokenClass>) -> bool
    ensures { result ≡ begins_with class first }
{
    match class {
        TokenClass::Identifier | TokenClass::Open | TokenClass::Bracket | TokenClass::Term => true,
        TokenClass::Structure => match first {
            None => true,
            Some(TokenClass::Aggregate) => true,
            Some(_) => false,
        },
        _ => false,
    }
}

fn segment_with(class: TokenClass, tail: bool) -> bool
    ensures { result ≡ segment_with class tail }
{
    match class {
        TokenClass::Identifier => tail,
        _ => false,
    }
}

fn tail_with(class: TokenClass, segment: bool, matched: bool) -> bool
    ensures { result ≡ tail_with class segment matched }
{
    match class {
        TokenClass::Comma => segment,
        TokenClass::Being | TokenClass::Bracket => true,
        TokenClass::Open => matched,
        _ => false,
    }
}

fn reserve_tail_with(class: TokenClass, reserve_segment: bool) -> bool
    ensures { result ≡ reserve_tail_with class reserve_segment }
{
    match class {
        TokenClass::Comma => reserve_segment,
        TokenClass::For => true,
        _ => false,
    }
}

/// Takes the token to the parentheses, and says of a `(` whether `->` stands behind its `)`.
fn match_parentheses(
    arrows: &mut Vec<bool>,
    class: TokenClass,
    first: Option<TokenClass>,
) -> Result<bool, AllocError>
    ensures arrows { IfOk result (λ _. arrows.new.items ≡ arrows_with class first arrows.old.items) }
    ensures matched { IfOk result (λ m. m ≡ matched_with class arrows.old.items) }
{
    match class {
        TokenClass::Close => {
            arrows.push(is_arrow(first))?;
            Ok(false)
        }
        TokenClass::Open => match arrows.pop() {
            Some(arrow) => Ok(arrow),
            None => Ok(false),
        },
        _ => Ok(false),
    }
}

impl Suffix {
    /// At the end of the text.
    pub fn end(alloc: Global) -> Suffix
        ensures { IsSuffix [] result }
    {
        Suffix {
            first: None,
            begins: true,
            segment: false,
            tail: false,
            reserve_segment: false,
            reserve_tail: false,
            arrows: Vec::new(alloc),
        }
    }

    /// Takes the token before.
    pub fn meet(&mut self, class: TokenClass) -> Result<(), AllocError>
        ensures { IfOk result (λ _. Meets class self.old self.new) }
    {
        let matched = match_parentheses(&mut self.arrows, class, self.first)?;
        let segment = segment_with(class, self.tail);
        let reserve_segment = segment_with(class, self.reserve_tail);
        self.tail = tail_with(class, self.segment, matched);
        self.reserve_tail = reserve_tail_with(class, self.reserve_segment);
        self.segment = segment;
        self.reserve_segment = reserve_segment;
        self.begins = begins_with(class, self.first);
        self.first = Some(class);
        Ok(())
    }
}
