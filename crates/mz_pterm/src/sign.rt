//! What tokens are to a parser of expressions.
ghost use Rattle.std.specs.Prelude.{◌≡◌, ◌↔◌, IsTrue};
ghost use Rattle.std.specs.Str.{bytes_eq};
ghost use Rattle.mz_pterm.specs.Sign.{argument_of, argument_sign, kind_of, special_sign, formula_sign, reserved_sign, symbol_sign, plain_sign, comma_sign, ranked_sign, sign_of};
ghost use Rattle.mz_pterm.specs.Classes.{begins_operand};

use mz_base::symbol_kind::SymbolKind;
use mz_base::token::{Mark, MarkedToken, Token, TokenKind};

/// What a token with its mark is to a parser, without its place and its spelling.
#[derive(Clone, Copy, Debug, PartialEq, Eq)]
pub enum Sign {
    Identifier,
    Functor,
    Predicate,
    Attribute,
    /// A symbol of a mode, or `set`.
    Mode,
    Structure,
    Selector,
    LeftBracket,
    RightBracket,
    It,
    The,
    Of,
    Over,
    Non,
    Be,
    Being,
    For,
    Ex,
    Holds,
    St,
    Not,
    Contradiction,
    Thesis,
    Is,
    Or,
    Implies,
    Iff,
    /// `&`
    And,
    /// `$1` to `$10`
    Argument(u8),
    /// `(`
    Open,
    /// `)`
    Close,
    /// `(#`
    OpenAggregate,
    /// `#)`
    CloseAggregate,
    /// `{`
    OpenBrace,
    /// `}`
    CloseBrace,
    /// `[`
    OpenSquare,
    /// `]`
    CloseSquare,
    ListComma,
    DividingComma,
    /// A token that no expression has.
    Other,
}

fn spells(spelling: &[u8], word: &[u8]) -> bool
    ensures { result ≡ bytes_eq spelling.now word.now }
{
    spelling == word
}

/// A word of formulas.
#[tactic(auto, unfolding(crate::specs::Sign::formula_sign))]
fn formula_sign(spelling: &[u8]) -> Sign
    ensures { result ≡ formula_sign spelling.now }
{
    if spells(spelling, b"for") {
        Sign::For
    } else if spells(spelling, b"ex") {
        Sign::Ex
    } else if spells(spelling, b"holds") {
        Sign::Holds
    } else if spells(spelling, b"st") {
        Sign::St
    } else if spells(spelling, b"not") {
        Sign::Not
    } else if spells(spelling, b"contradiction") {
        Sign::Contradiction
    } else if spells(spelling, b"thesis") {
        Sign::Thesis
    } else if spells(spelling, b"is") {
        Sign::Is
    } else if spells(spelling, b"or") {
        Sign::Or
    } else if spells(spelling, b"implies") {
        Sign::Implies
    } else if spells(spelling, b"iff") {
        Sign::Iff
    } else {
        Sign::Other
    }
}

#[tactic(auto, unfolding(crate::specs::Sign::reserved_sign))]
fn reserved_sign(spelling: &[u8]) -> Sign
    ensures { result ≡ reserved_sign spelling.now }
{
    if spells(spelling, b"it") {
        Sign::It
    } else if spells(spelling, b"the") {
        Sign::The
    } else if spells(spelling, b"of") {
        Sign::Of
    } else if spells(spelling, b"over") {
        Sign::Over
    } else if spells(spelling, b"non") {
        Sign::Non
    } else if spells(spelling, b"be") {
        Sign::Be
    } else if spells(spelling, b"being") {
        Sign::Being
    } else if spells(spelling, b"set") {
        Sign::Mode
    } else {
        formula_sign(spelling)
    }
}

#[tactic(auto, unfolding(crate::specs::Sign::argument_sign))]
fn argument_sign(spelling: &[u8]) -> Sign
    ensures { result ≡ argument_sign spelling.now }
{
    if spells(spelling, b"$1") {
        Sign::Argument(1)
    } else if spells(spelling, b"$2") {
        Sign::Argument(2)
    } else if spells(spelling, b"$3") {
        Sign::Argument(3)
    } else if spells(spelling, b"$4") {
        Sign::Argument(4)
    } else if spells(spelling, b"$5") {
        Sign::Argument(5)
    } else if spells(spelling, b"$6") {
        Sign::Argument(6)
    } else if spells(spelling, b"$7") {
        Sign::Argument(7)
    } else if spells(spelling, b"$8") {
        Sign::Argument(8)
    } else if spells(spelling, b"$9") {
        Sign::Argument(9)
    } else if spells(spelling, b"$10") {
        Sign::Argument(10)
    } else {
        Sign::Other
    }
}

#[tactic(auto, unfolding(crate::specs::Sign::special_sign))]
fn special_sign(spelling: &[u8]) -> Sign
    ensures { result ≡ special_sign spelling.now }
{
    if spells(spelling, b"(") {
        Sign::Open
    } else if spells(spelling, b")") {
        Sign::Close
    } else if spells(spelling, b"(#") {
        Sign::OpenAggregate
    } else if spells(spelling, b"#)") {
        Sign::CloseAggregate
    } else if spells(spelling, b"{") {
        Sign::OpenBrace
    } else if spells(spelling, b"}") {
        Sign::CloseBrace
    } else if spells(spelling, b"[") {
        Sign::OpenSquare
    } else if spells(spelling, b"]") {
        Sign::CloseSquare
    } else if spells(spelling, b"&") {
        Sign::And
    } else {
        argument_sign(spelling)
    }
}

#[tactic(auto, unfolding(crate::specs::Sign::symbol_sign))]
fn symbol_sign(kind: SymbolKind, spelling: &[u8]) -> Sign
    ensures { result ≡ symbol_sign kind spelling.now }
{
    match kind {
        SymbolKind::Structure => Sign::Structure,
        SymbolKind::LeftBracket => Sign::LeftBracket,
        SymbolKind::RightBracket => Sign::RightBracket,
        SymbolKind::Mode => {
            if spells(spelling, b"set") {
                Sign::Other
            } else {
                Sign::Mode
            }
        }
        SymbolKind::Functor => Sign::Functor,
        SymbolKind::Predicate => Sign::Predicate,
        SymbolKind::Selector => Sign::Selector,
        SymbolKind::Attribute => Sign::Attribute,
    }
}

/// A token without a priority that is no comma.
#[tactic(auto, unfolding(crate::specs::Sign::plain_sign))]
fn plain_sign(token: &Token) -> Sign
    ensures { result ≡ plain_sign token.now.kind token.now.spelling }
{
    match token.kind {
        TokenKind::Reserved => reserved_sign(token.spelling.as_slice()),
        TokenKind::Special => special_sign(token.spelling.as_slice()),
        TokenKind::Symbol(kind) => symbol_sign(kind, token.spelling.as_slice()),
        TokenKind::Identifier => Sign::Identifier,
        TokenKind::Numeral => Sign::Other,
    }
}

/// A comma with this mark.
#[tactic(auto, unfolding(crate::specs::Sign::comma_sign))]
fn comma_sign(token: &Token, sign: Sign) -> Sign
    ensures { result ≡ comma_sign sign token.now.kind token.now.spelling }
{
    match token.kind {
        TokenKind::Special => {
            if spells(token.spelling.as_slice(), b",") {
                sign
            } else {
                Sign::Other
            }
        }
        _ => Sign::Other,
    }
}

/// A token with a priority, which only a functor symbol has.
fn ranked_sign(mark: Mark, kind: TokenKind) -> Sign
    ensures { result ≡ ranked_sign mark kind }
{
    match mark {
        Mark::NotComma => match kind {
            TokenKind::Symbol(SymbolKind::Functor) => Sign::Functor,
            _ => Sign::Other,
        },
        Mark::List | Mark::Dividing => Sign::Other,
    }
}

impl Sign {
    /// What the token is.
    #[tactic(auto, unfolding(crate::specs::Sign::sign_of))]
    pub fn of(marked: &MarkedToken) -> Sign
        ensures { result ≡ sign_of marked.now }
    {
        if marked.token.priority != 0 {
            return ranked_sign(marked.mark, marked.token.kind);
        }
        match marked.mark {
            Mark::NotComma => plain_sign(&marked.token),
            Mark::List => comma_sign(&marked.token, Sign::ListComma),
            Mark::Dividing => comma_sign(&marked.token, Sign::DividingComma),
        }
    }

    fn kind(self) -> u8
        ensures { result ≡ kind_of self }
    {
        match self {
            Sign::Identifier => 0,
            Sign::Functor => 1,
            Sign::Predicate => 2,
            Sign::Attribute => 3,
            Sign::Mode => 4,
            Sign::Structure => 5,
            Sign::Selector => 6,
            Sign::LeftBracket => 7,
            Sign::RightBracket => 8,
            Sign::It => 9,
            Sign::The => 10,
            Sign::Of => 11,
            Sign::Over => 12,
            Sign::Non => 13,
            Sign::Be => 14,
            Sign::Being => 15,
            Sign::Open => 16,
            Sign::Close => 17,
            Sign::OpenAggregate => 18,
            Sign::CloseAggregate => 19,
            Sign::OpenBrace => 20,
            Sign::CloseBrace => 21,
            Sign::OpenSquare => 22,
            Sign::CloseSquare => 23,
            Sign::ListComma => 24,
            Sign::DividingComma => 25,
            Sign::Other => 26,
            Sign::Argument(_) => 27,
            Sign::For => 28,
            Sign::Ex => 29,
            Sign::Holds => 30,
            Sign::St => 31,
            Sign::Not => 32,
            Sign::Contradiction => 33,
            Sign::Thesis => 34,
            Sign::Is => 35,
            Sign::Or => 36,
            Sign::Implies => 37,
            Sign::Iff => 38,
            Sign::And => 39,
        }
    }

    fn argument(self) -> u8
        ensures { result ≡ argument_of self }
    {
        match self {
            Sign::Argument(number) => number,
            _ => 0,
        }
    }

    /// Whether they are equal.
    pub fn is(self, other: Sign) -> bool
        ensures { IsTrue result ↔ (self ≡ other) }
    {
        if self.kind() != other.kind() {
            return false;
        }
        self.argument() == other.argument()
    }

    /// Whether an operand begins with it.
    pub fn begins_operand(self) -> bool
        ensures { result ≡ begins_operand self }
    {
        matches!(
            self,
            Sign::Identifier
                | Sign::Structure
                | Sign::LeftBracket
                | Sign::It
                | Sign::The
                | Sign::Argument(_)
                | Sign::Open
                | Sign::OpenBrace
                | Sign::OpenSquare
        )
    }
}
