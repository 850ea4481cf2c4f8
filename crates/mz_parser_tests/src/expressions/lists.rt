//! Lists of tokens that are made by hand, some of which no text has.
use crate::expressions::texts::parsed;
use mz_base::place::Place;
use mz_base::symbol_kind::SymbolKind;
use mz_base::text::Text;
use mz_base::token::{Token, TokenKind, Tokens};
use mz_parser_samples::answer::Answer;
use mz_pexpr::forms::Form;
use std::alloc::Global;
use std::process::Abort;

/// The kind of a token, its spelling, and its priority.
type Word = (TokenKind, &'static [u8], u8);

/// Adds a token in the column of its number, from 1.
fn add(rt: &impl Abort, alloc: Global, out: &mut Tokens, word: Word) {
    let (kind, spelling, priority) = word;
    let spelling = Text::from_slice(alloc, spelling).expect(rt, "memory");
    let place = out.end;
    out.end.column = place.column.saturating_add(1);
    out.items
        .push(Token {
            kind,
            place,
            spelling,
            priority,
        })
        .expect(rt, "memory");
}

fn tokens_of(rt: &impl Abort, alloc: Global, words: &[Word]) -> Tokens {
    let mut out = Tokens {
        items: Vec::new(alloc),
        end: Place::start(),
    };
    for word in words {
        add(rt, alloc, &mut out, *word);
    }
    out
}

const IDENTIFIER: Word = (TokenKind::Identifier, b"x", 0);

const OPEN: Word = (TokenKind::Special, b"(", 0);

/// No tree has one of these.
const STRANGE: [Word; 11] = [
    (TokenKind::Special, b";", 5),
    (TokenKind::Special, b",", 5),
    (TokenKind::Special, b"&", 5),
    (TokenKind::Symbol(SymbolKind::Mode), b"set", 0),
    (TokenKind::Symbol(SymbolKind::Predicate), b"=", 1),
    (TokenKind::Numeral, b"1", 0),
    (TokenKind::Special, b"$11", 0),
    (TokenKind::Special, b"", 0),
    (TokenKind::Identifier, b"x", 1),
    (TokenKind::Reserved, b"It", 0),
    (TokenKind::Reserved, b"proof", 0),
];

const FORMS: [Form; 6] = [
    Form::Formula,
    Form::Term,
    Form::Terms,
    Form::TypeForm,
    Form::Adjectives,
    Form::Declarations,
];

#[test]
fn strange_tokens(rt: HostRuntime) {
    let alloc = rt.alloc();
    for word in STRANGE {
        for form in FORMS {
            let tokens = tokens_of(&rt, alloc, &[word]);
            assert!(rt; parsed(&rt, alloc, form, &tokens, 0) == Answer::Unexpected(1));
            let tokens = tokens_of(&rt, alloc, &[OPEN, IDENTIFIER, word]);
            let column = if form == Form::Declarations { 1 } else { 3 };
            assert!(rt; parsed(&rt, alloc, form, &tokens, 0) == Answer::Unexpected(column));
        }
    }
}

/// Words and what is answered to them as terms.
const ROWS: [([Word; 3], Answer); 4] = [
    // any priority
    (
        [
            IDENTIFIER,
            (TokenKind::Symbol(SymbolKind::Functor), b"+", 255),
            (TokenKind::Symbol(SymbolKind::Functor), b"+", 0),
        ],
        Answer::Until(3),
    ),
    // any spelling
    (
        [
            (TokenKind::Identifier, b"of", 0),
            (TokenKind::Symbol(SymbolKind::Functor), b"(", 64),
            (TokenKind::Identifier, b"", 0),
        ],
        Answer::Until(3),
    ),
    // other kinds
    (
        [
            IDENTIFIER,
            (TokenKind::Symbol(SymbolKind::Attribute), b"+", 0),
            IDENTIFIER,
        ],
        Answer::Until(1),
    ),
    (
        [OPEN, IDENTIFIER, (TokenKind::Identifier, b")", 0)],
        Answer::Unexpected(3),
    ),
];

#[test]
fn kinds_decide(rt: HostRuntime) {
    let alloc = rt.alloc();
    for (words, answer) in ROWS {
        let tokens = tokens_of(&rt, alloc, words.as_slice());
        assert!(rt; parsed(&rt, alloc, Form::Terms, &tokens, 0) == answer);
    }
}
