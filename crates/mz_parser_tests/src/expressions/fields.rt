//! Expressions in the type of a field, where a selector may stand without `of`.
use crate::expressions::texts::{answer_of, tokens_behind_begin};
use mz_base::place::Place;
use mz_base::token::MarkedToken;
use mz_parser_samples::answer::Answer;
use mz_pexpr::forms::{Expression, Form};
use mz_pexpr::marked_tokens::marked_tokens;
use mz_pformula::parse::formula;
use mz_pterm::parse::{ParseFault, term, terms};
use mz_ptype::parse::{adjectives, declarations, whole_type};
use mz_tree::expressions::{
    AdjectivesTree, DeclarationsTree, FormulaTree, TermTree, TermsTree, TypeTree,
};
use std::alloc::Global;
use std::process::Abort;

/// The parse of this form.
fn parse_in_field(
    alloc: Global,
    form: Form,
    tokens: &[MarkedToken],
    end: Place,
) -> Result<(Expression, usize), ParseFault> {
    if tokens.len() < 5 {
        return Err(ParseFault::EndsEarly { place: end });
    }
    match form {
        Form::Formula => {
            let (node, until) = formula(alloc, tokens, end, 5, true)?;
            Ok((Expression::Formula(FormulaTree::from_node(node)), until))
        }
        Form::Term => {
            let (node, until) = term(alloc, tokens, end, 5, true)?;
            Ok((Expression::Term(TermTree::from_node(node)), until))
        }
        Form::Terms => {
            let (node, until) = terms(alloc, tokens, end, 5, true)?;
            Ok((Expression::Terms(TermsTree::from_node(node)), until))
        }
        Form::TypeForm => {
            let (node, until) = whole_type(alloc, tokens, end, 5, true)?;
            Ok((Expression::TypeForm(TypeTree::from_node(node)), until))
        }
        Form::Adjectives => {
            let ((first, more), until) = adjectives(alloc, tokens, end, 5, true)?;
            let tree = AdjectivesTree::from_nodes(first, more);
            Ok((Expression::Adjectives(tree), until))
        }
        Form::Declarations => {
            let (node, until) = declarations(alloc, tokens, end, 5, true)?;
            let tree = DeclarationsTree::from_node(node);
            Ok((Expression::Declarations(tree), until))
        }
    }
}

fn answered_in_field(rt: &impl Abort, alloc: Global, form: Form, text: &'static [u8]) -> Answer {
    let tokens = tokens_behind_begin(rt, alloc, &[(text, 1)]);
    let all = marked_tokens(alloc, &tokens).expect(rt, "memory");
    let found = parse_in_field(alloc, form, &all, tokens.end);
    answer_of(rt, alloc, form, &all, 5, found)
}

const ROWS: [(Form, &[u8], Answer); 13] = [
    (Form::Terms, b"the car", Answer::Until(2)),
    (Form::Terms, b"the car + x , the car", Answer::Until(7)),
    (Form::Terms, b"the car of", Answer::EndsEarly(41)),
    (Form::Terms, b"the car of the car", Answer::Until(5)),
    (Form::Terms, b"f ( the car )", Answer::Until(5)),
    (Form::Term, b"the car , x", Answer::Until(2)),
    (Form::TypeForm, b"mod of the car", Answer::Until(4)),
    (Form::Adjectives, b"( the car ) odd", Answer::Until(5)),
    (
        Form::Declarations,
        b"x being mod of the car",
        Answer::Until(6),
    ),
    (Form::Formula, b"the car = x", Answer::Until(4)),
    (Form::Formula, b"( the car ) = x", Answer::Until(6)),
    (
        Form::Formula,
        b"not for x being mod of the car holds x = the car",
        Answer::Until(13),
    ),
    (Form::Formula, b"the car x", Answer::Unexpected(39)),
];

#[test]
fn in_fields(rt: HostRuntime) {
    for (form, text, answer) in &ROWS {
        let found = answered_in_field(&rt, rt.alloc(), *form, text);
        assert!(rt; found == *answer);
    }
}
