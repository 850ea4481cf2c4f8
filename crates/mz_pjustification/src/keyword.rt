//! What tokens are to a parser of proofs, besides what they are to one of expressions.
ghost use Rattle.std.specs.Prelude.{◌≡◌, ◌↔◌, IsTrue};
ghost use Rattle.std.specs.Str.{bytes_eq};
ghost use Rattle.mz_pjustification.specs.Keyword.{keyword_of, later_keyword, number_of, plain_keyword, reserved_keyword, special_keyword};

use mz_base::token::{Mark, MarkedToken, Token, TokenKind};

/// What a token with its mark is to a parser of proofs, where it is no token of an expression.
#[derive(Clone, Copy, Debug, PartialEq, Eq)]
pub enum Keyword {
    And,
    As,
    Assume,
    By,
    Cases,
    Consider,
    Def,
    Deffunc,
    Defpred,
    End,
    From,
    Given,
    Hence,
    Hereby,
    Let,
    Means,
    Now,
    Per,
    Proof,
    Reconsider,
    Sch,
    Such,
    Suppose,
    Take,
    That,
    Then,
    Thus,
    /// `:`
    Colon,
    /// `;`
    Semicolon,
    /// `.=`
    Link,
    Numeral,
    /// Any other token.
    Other,
}

fn spells(spelling: &[u8], word: &[u8]) -> bool
    ensures { result ≡ bytes_eq spelling.now word.now }
{
    spelling == word
}

/// A word behind those of `reserved_keyword`, in the order of the alphabet.
#[tactic(auto, unfolding(crate::specs::Keyword::later_keyword))]
fn later_keyword(spelling: &[u8]) -> Keyword
    ensures { result ≡ later_keyword spelling.now }
{
    if spells(spelling, b"let") {
        Keyword::Let
    } else if spells(spelling, b"means") {
        Keyword::Means
    } else if spells(spelling, b"now") {
        Keyword::Now
    } else if spells(spelling, b"per") {
        Keyword::Per
    } else if spells(spelling, b"proof") {
        Keyword::Proof
    } else if spells(spelling, b"reconsider") {
        Keyword::Reconsider
    } else if spells(spelling, b"sch") {
        Keyword::Sch
    } else if spells(spelling, b"such") {
        Keyword::Such
    } else if spells(spelling, b"suppose") {
        Keyword::Suppose
    } else if spells(spelling, b"take") {
        Keyword::Take
    } else if spells(spelling, b"that") {
        Keyword::That
    } else if spells(spelling, b"then") {
        Keyword::Then
    } else if spells(spelling, b"thus") {
        Keyword::Thus
    } else {
        Keyword::Other
    }
}

#[tactic(auto, unfolding(crate::specs::Keyword::reserved_keyword))]
fn reserved_keyword(spelling: &[u8]) -> Keyword
    ensures { result ≡ reserved_keyword spelling.now }
{
    if spells(spelling, b"and") {
        Keyword::And
    } else if spells(spelling, b"as") {
        Keyword::As
    } else if spells(spelling, b"assume") {
        Keyword::Assume
    } else if spells(spelling, b"by") {
        Keyword::By
    } else if spells(spelling, b"cases") {
        Keyword::Cases
    } else if spells(spelling, b"consider") {
        Keyword::Consider
    } else if spells(spelling, b"def") {
        Keyword::Def
    } else if spells(spelling, b"deffunc") {
        Keyword::Deffunc
    } else if spells(spelling, b"defpred") {
        Keyword::Defpred
    } else if spells(spelling, b"end") {
        Keyword::End
    } else if spells(spelling, b"from") {
        Keyword::From
    } else if spells(spelling, b"given") {
        Keyword::Given
    } else if spells(spelling, b"hence") {
        Keyword::Hence
    } else if spells(spelling, b"hereby") {
        Keyword::Hereby
    } else {
        later_keyword(spelling)
    }
}

#[tactic(auto, unfolding(crate::specs::Keyword::special_keyword))]
fn special_keyword(spelling: &[u8]) -> Keyword
    ensures { result ≡ special_keyword spelling.now }
{
    if spells(spelling, b":") {
        Keyword::Colon
    } else if spells(spelling, b";") {
        Keyword::Semicolon
    } else if spells(spelling, b".=") {
        Keyword::Link
    } else {
        Keyword::Other
    }
}

/// A token without a priority that is no comma.
#[tactic(auto, unfolding(crate::specs::Keyword::plain_keyword))]
fn plain_keyword(token: &Token) -> Keyword
    ensures { result ≡ plain_keyword token.now.kind token.now.spelling }
{
    match token.kind {
        TokenKind::Reserved => reserved_keyword(token.spelling.as_slice()),
        TokenKind::Special => special_keyword(token.spelling.as_slice()),
        TokenKind::Numeral => Keyword::Numeral,
        TokenKind::Symbol(_) | TokenKind::Identifier => Keyword::Other,
    }
}

impl Keyword {
    /// What the token is.
    #[tactic(auto, unfolding(crate::specs::Keyword::keyword_of))]
    pub fn of(marked: &MarkedToken) -> Keyword
        ensures { result ≡ keyword_of marked.now }
    {
        if marked.token.priority != 0 {
            return Keyword::Other;
        }
        match marked.mark {
            Mark::NotComma => plain_keyword(&marked.token),
            Mark::List | Mark::Dividing => Keyword::Other,
        }
    }

    fn number(self) -> u8
        ensures { result ≡ number_of self }
    {
        match self {
            Keyword::And => 0,
            Keyword::As => 1,
            Keyword::Assume => 2,
            Keyword::By => 3,
            Keyword::Cases => 4,
            Keyword::Consider => 5,
            Keyword::Def => 6,
            Keyword::Deffunc => 7,
            Keyword::Defpred => 8,
            Keyword::End => 9,
            Keyword::From => 10,
            Keyword::Given => 11,
            Keyword::Hence => 12,
            Keyword::Hereby => 13,
            Keyword::Let => 14,
            Keyword::Means => 15,
            Keyword::Now => 16,
            Keyword::Per => 17,
            Keyword::Proof => 18,
            Keyword::Reconsider => 19,
            Keyword::Sch => 20,
            Keyword::Such => 21,
            Keyword::Suppose => 22,
            Keyword::Take => 23,
            Keyword::That => 24,
            Keyword::Then => 25,
            Keyword::Thus => 26,
            Keyword::Colon => 27,
            Keyword::Semicolon => 28,
            Keyword::Link => 29,
            Keyword::Numeral => 30,
            Keyword::Other => 31,
        }
    }

    /// Whether they are equal.
    pub fn is(self, other: Keyword) -> bool
        ensures { IsTrue result ↔ (self ≡ other) }
    {
        if self.number() != other.number() {
            return false;
        }
        true
    }
}
