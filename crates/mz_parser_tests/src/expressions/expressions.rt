//! Expressions from some token of a text on, whose commas have the marks of the whole text.
use crate::expressions::texts::{answer_of, article_tokens, parsed, tokens_behind_begin};
use mz_parser_samples::answer::Answer;
use mz_pexpr::forms::Form;
use mz_pexpr::marked_tokens::marked_tokens;
use mz_pexpr::parse::read;
use std::alloc::Global;
use std::process::Abort;

/// A text behind `begin`, the number of a token in it, and what is answered there.
const ROWS: [(Form, &[u8], usize, Answer); 21] = [
    (Form::Formula, b"x less y & thesis", 0, Answer::Until(5)),
    (Form::Formula, b"x , y less z", 2, Answer::Until(3)),
    (Form::Formula, b"x", 0, Answer::EndsEarly(32)),
    (Form::Term, b"x , y", 0, Answer::Until(1)),
    (Form::Term, b"x , y", 1, Answer::Unexpected(33)),
    (Form::Terms, b"x , y", 0, Answer::Until(3)),
    (Form::Terms, b"the car", 0, Answer::EndsEarly(38)),
    (Form::TypeForm, b"odd mod of x , y", 0, Answer::Until(6)),
    (
        Form::TypeForm,
        b"mod of the car )",
        0,
        Answer::Unexpected(46),
    ),
    (Form::Adjectives, b"odd non odd mod", 0, Answer::Until(3)),
    (Form::Adjectives, b"odd non", 0, Answer::EndsEarly(38)),
    (Form::Declarations, b"x , y being mod", 0, Answer::Until(5)),
    (Form::Declarations, b"x being", 0, Answer::EndsEarly(38)),
    // behind the last token the end of the text comes, with its blanks and comments
    (Form::Terms, b"x", 1, Answer::EndsEarly(32)),
    (Form::Terms, b"x  :: y", 1, Answer::EndsEarly(38)),
    (Form::Formula, b"x  :: y", 0, Answer::EndsEarly(38)),
    (
        Form::Declarations,
        b"x :: y\n  ",
        1,
        Answer::EndsEarlyBelow(2, 3),
    ),
    // commas have the marks of the whole list
    (
        Form::TypeForm,
        b"reserve y for mod of a , b for set",
        3,
        Answer::Until(3),
    ),
    (
        Form::TypeForm,
        b"y for mod of a , b for set",
        2,
        Answer::Until(5),
    ),
    (
        Form::TypeForm,
        b"reserve y for set ; for mod of a , b for set",
        6,
        Answer::Until(5),
    ),
    (
        Form::Formula,
        b"reserve y for set , x less a , b for set",
        5,
        Answer::Until(3),
    ),
];

#[test]
fn forms(rt: HostRuntime) {
    let alloc = rt.alloc();
    for (form, text, number, answer) in &ROWS {
        let tokens = tokens_behind_begin(&rt, alloc, &[(*text, 1)]);
        let found = parsed(&rt, alloc, *form, &tokens, number.saturating_add(5));
        assert!(rt; found == *answer);
    }
}

/// A whole article, the number of a token in it, and what is answered there to a formula.
const ARTICLES: [(&[u8], usize, Answer); 4] = [
    (
        b"environ begin theorem for a,b,c being object st a in b,c for d being object holds a = a;",
        3,
        Answer::Until(22),
    ),
    (
        b"environ begin theorem { x, P[y] } = x;",
        3,
        Answer::Unexpected(26),
    ),
    (b"environ begin theorem { x,", 3, Answer::EndsEarly(27)),
    (b"environ begin theorem a,b = c,d;", 3, Answer::Until(7)),
];

#[test]
fn articles(rt: HostRuntime) {
    let alloc = rt.alloc();
    for (article, number, answer) in &ARTICLES {
        let tokens = article_tokens(&rt, alloc, article);
        let found = parsed(&rt, alloc, Form::Formula, &tokens, *number);
        assert!(rt; found == *answer);
    }
}

/// 129 parentheses behind `theorem`: the last one is too deep.
#[test]
fn parentheses_behind_theorem(rt: HostRuntime) {
    let alloc = rt.alloc();
    let mut article = Vec::from_slice(alloc, b"environ begin theorem ".as_slice()).expect(
        &rt, "memory",
    );
    for _ in 0..129 {
        article.push(b'(').expect(&rt, "memory");
    }
    let tokens = article_tokens(&rt, alloc, article.as_slice());
    let found = parsed(&rt, alloc, Form::Formula, &tokens, 3);
    assert!(rt; found == Answer::TooDeep(151));
}

/// What is answered to a text whose tokens have their marks.
fn read_marked(rt: &impl Abort, alloc: Global, form: Form, text: &'static [u8]) -> Answer {
    let tokens = tokens_behind_begin(rt, alloc, &[(text, 1)]);
    let all = marked_tokens(alloc, &tokens).expect(rt, "memory");
    if all.len() < 5 {
        return Answer::TooFew;
    }
    let found = read(alloc, &all, tokens.end, 5, form);
    answer_of(rt, alloc, form, &all, 5, found)
}

/// A text behind `begin` for each form.
const MARKED: [(Form, &[u8], Answer); 6] = [
    (Form::Formula, b"x , y less z )", Answer::Until(5)),
    (Form::Term, b"x , y )", Answer::Until(1)),
    (Form::Terms, b"x , y )", Answer::Until(3)),
    (Form::TypeForm, b"mod of x , y )", Answer::Until(5)),
    (Form::Adjectives, b"( x , y ) odd )", Answer::Until(6)),
    (Form::Declarations, b"x , y be mod )", Answer::Until(5)),
];

#[test]
fn marked_forms(rt: HostRuntime) {
    for (form, text, answer) in &MARKED {
        let found = read_marked(&rt, rt.alloc(), *form, text);
        assert!(rt; found == *answer);
    }
}
