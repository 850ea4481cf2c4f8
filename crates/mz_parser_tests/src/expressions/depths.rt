//! How deep constructs nest.
use crate::expressions::texts::{Piece, answered};
use mz_parser_samples::answer::Answer;
use mz_pexpr::forms::Form;
use std::alloc::Global;
use std::process::Abort;

fn check(rt: &impl Abort, alloc: Global, rows: &[(Form, &'static [Piece], Answer)]) {
    for (number, (form, text, answer)) in rows.iter().enumerate() {
        let found = answered(rt, alloc, *form, text);
        assert!(rt; (number, found) == (number, *answer));
    }
}

/// Each bracket of a term 128 times, and 129 times.
const BRACKETS: [(Form, &'static [Piece], Answer); 14] = [
    (
        Form::Terms,
        &[(b"( ", 128), (b"x", 1), (b" )", 128)],
        Answer::Until(257),
    ),
    (
        Form::Terms,
        &[(b"( ", 129), (b"x", 1), (b" )", 129)],
        Answer::TooDeep(287),
    ),
    (
        Form::Terms,
        &[(b"[ ", 128), (b"x", 1), (b" ]", 128)],
        Answer::Until(257),
    ),
    (
        Form::Terms,
        &[(b"[ ", 129), (b"x", 1), (b" ]", 129)],
        Answer::TooDeep(287),
    ),
    (
        Form::Terms,
        &[(b"{ ", 128), (b"x", 1), (b" }", 128)],
        Answer::Until(257),
    ),
    (
        Form::Terms,
        &[(b"{ ", 129), (b"x", 1), (b" }", 129)],
        Answer::TooDeep(287),
    ),
    (
        Form::Terms,
        &[(b"lb ", 128), (b"x", 1), (b" rb", 128)],
        Answer::Until(257),
    ),
    (
        Form::Terms,
        &[(b"lb ", 129), (b"x", 1), (b" rb", 129)],
        Answer::TooDeep(415),
    ),
    (
        Form::Terms,
        &[(b"str (# ", 128), (b"x", 1), (b" #)", 128)],
        Answer::Until(385),
    ),
    (
        Form::Terms,
        &[(b"str (# ", 129), (b"x", 1), (b" #)", 129)],
        Answer::TooDeep(931),
    ),
    (
        Form::Terms,
        &[(b"f ( ", 128), (b"x", 1), (b" )", 128)],
        Answer::Until(385),
    ),
    (
        Form::Terms,
        &[(b"f ( ", 129), (b"x", 1), (b" )", 129)],
        Answer::TooDeep(545),
    ),
    (
        Form::Terms,
        &[(b"f ( ", 128), (b" )", 128)],
        Answer::Until(384),
    ),
    (
        Form::Terms,
        &[(b"f ( ", 129), (b" )", 129)],
        Answer::TooDeep(545),
    ),
];

#[test]
fn brackets(rt: HostRuntime) {
    check(&rt, rt.alloc(), BRACKETS.as_slice());
}

/// Brackets within adjectives, types, declarations and quantifiers.
const WITHIN: [(Form, &'static [Piece], Answer); 10] = [
    (
        Form::Adjectives,
        &[(b"( ", 128), (b"x", 1), (b" )", 128), (b" odd", 1)],
        Answer::Until(258),
    ),
    (
        Form::Adjectives,
        &[(b"( ", 129), (b"x", 1), (b" )", 129), (b" odd", 1)],
        Answer::TooDeep(287),
    ),
    (
        Form::TypeForm,
        &[(b"( ", 128), (b"x", 1), (b" )", 128), (b" odd mod", 1)],
        Answer::Until(259),
    ),
    (
        Form::TypeForm,
        &[(b"( ", 129), (b"x", 1), (b" )", 129), (b" odd mod", 1)],
        Answer::TooDeep(287),
    ),
    (
        Form::Formula,
        &[
            (b"x is ", 1),
            (b"( ", 128),
            (b"x", 1),
            (b" )", 128),
            (b" odd", 1),
        ],
        Answer::Until(260),
    ),
    (
        Form::Formula,
        &[
            (b"x is ", 1),
            (b"( ", 129),
            (b"x", 1),
            (b" )", 129),
            (b" odd", 1),
        ],
        Answer::TooDeep(292),
    ),
    (
        Form::Declarations,
        &[
            (b"x being mod of ", 1),
            (b"[ ", 128),
            (b"y", 1),
            (b" ]", 128),
        ],
        Answer::Until(261),
    ),
    (
        Form::Declarations,
        &[
            (b"x being mod of ", 1),
            (b"[ ", 129),
            (b"y", 1),
            (b" ]", 129),
        ],
        Answer::TooDeep(302),
    ),
    (
        Form::Formula,
        &[
            (b"for x being mod of ", 1),
            (b"( ", 127),
            (b"y", 1),
            (b" )", 127),
            (b" holds thesis", 1),
        ],
        Answer::Until(262),
    ),
    (
        Form::Formula,
        &[
            (b"for x being mod of ", 1),
            (b"( ", 128),
            (b"y", 1),
            (b" )", 128),
            (b" holds thesis", 1),
        ],
        Answer::TooDeep(304),
    ),
];

#[test]
fn brackets_within(rt: HostRuntime) {
    check(&rt, rt.alloc(), WITHIN.as_slice());
}

/// A bracket that closes gives back its depth, and the earlier place decides.
const INSIDE: [(Form, &'static [Piece], Answer); 12] = [
    (
        Form::Terms,
        &[(b"( ", 127), (b"( x ) + ( x )", 1), (b" )", 127)],
        Answer::Until(261),
    ),
    (
        Form::Terms,
        &[(b"( ", 128), (b"( x ) + ( x )", 1), (b" )", 128)],
        Answer::TooDeep(287),
    ),
    (
        Form::Terms,
        &[(b"( ", 127), (b"[ x ] + { x } + f ( x )", 1), (b" )", 127)],
        Answer::Until(266),
    ),
    (
        Form::Terms,
        &[
            (b"( ", 127),
            (b"lb x rb + str (# x #) + f ( )", 1),
            (b" )", 127),
        ],
        Answer::Until(266),
    ),
    (
        Form::Formula,
        &[(b"( ", 127), (b"P [ x ] & thesis", 1), (b" )", 127)],
        Answer::Until(260),
    ),
    (
        Form::Formula,
        &[(b"( ", 127), (b"{ x } = [ y ] & thesis", 1), (b" )", 127)],
        Answer::Until(263),
    ),
    (
        Form::Formula,
        &[(b"( ", 127), (b"x is ( y ) odd & thesis", 1), (b" )", 127)],
        Answer::Until(262),
    ),
    (
        Form::Formula,
        &[
            (b"( ", 126),
            (b"( for x holds thesis ) & not thesis", 1),
            (b" )", 126),
        ],
        Answer::Until(261),
    ),
    (
        Form::Terms,
        &[(b"( ", 129), (b")", 1)],
        Answer::TooDeep(287),
    ),
    (
        Form::Terms,
        &[(b"( ", 128), (b")", 1)],
        Answer::Unexpected(287),
    ),
    (
        Form::Terms,
        &[(b"( ", 2), (b"x x ( ( (", 1)],
        Answer::Unexpected(37),
    ),
    (
        Form::Terms,
        &[(b"( ) ", 1), (b"( ", 129)],
        Answer::Unexpected(33),
    ),
];

#[test]
fn depth_is_given_back(rt: HostRuntime) {
    check(&rt, rt.alloc(), INSIDE.as_slice());
}

/// Negations, quantifiers and brackets of formulas.
const FORMULAS: [(Form, &'static [Piece], Answer); 18] = [
    (
        Form::Formula,
        &[(b"not ", 128), (b"thesis", 1)],
        Answer::Until(129),
    ),
    (
        Form::Formula,
        &[(b"not ", 129), (b"thesis", 1)],
        Answer::TooDeep(543),
    ),
    (
        Form::Formula,
        &[(b"not ", 129), (b")", 1)],
        Answer::TooDeep(543),
    ),
    (
        Form::Formula,
        &[(b"not ", 128), (b"thesis & thesis", 1)],
        Answer::Until(131),
    ),
    (
        Form::Formula,
        &[(b"for x ", 127), (b"for x holds thesis", 1)],
        Answer::Until(258),
    ),
    (
        Form::Formula,
        &[(b"for x ", 128), (b"for x holds thesis", 1)],
        Answer::TooDeep(799),
    ),
    (
        Form::Formula,
        &[(b"for x st ", 128), (b"thesis", 1), (b" holds thesis", 128)],
        Answer::Until(641),
    ),
    (
        Form::Formula,
        &[(b"for x st ", 129), (b"thesis", 1), (b" holds thesis", 129)],
        Answer::TooDeep(1183),
    ),
    (
        Form::Formula,
        &[(b"ex x st ", 128), (b"thesis", 1)],
        Answer::Until(385),
    ),
    (
        Form::Formula,
        &[(b"ex x st ", 129), (b"thesis", 1)],
        Answer::TooDeep(1055),
    ),
    (
        Form::Formula,
        &[(b"( ", 128), (b"thesis", 1), (b" )", 128)],
        Answer::Until(257),
    ),
    (
        Form::Formula,
        &[(b"( ", 129), (b"thesis", 1), (b" )", 129)],
        Answer::TooDeep(287),
    ),
    (
        Form::Formula,
        &[(b"( ", 127), (b"P [ x ]", 1), (b" )", 127)],
        Answer::Until(258),
    ),
    (
        Form::Formula,
        &[(b"( ", 128), (b"P [ x ]", 1), (b" )", 128)],
        Answer::TooDeep(289),
    ),
    (
        Form::Formula,
        &[(b"( not ", 64), (b"thesis", 1), (b" )", 64)],
        Answer::Until(193),
    ),
    (
        Form::Formula,
        &[(b"( not ", 65), (b"thesis", 1), (b" )", 65)],
        Answer::TooDeep(415),
    ),
    (
        Form::Formula,
        &[(b"( ", 128), (b"thesis & thesis", 1), (b" )", 128)],
        Answer::TooDeep(296),
    ),
    (
        Form::Formula,
        &[(b"( ", 128), (b"not thesis", 1), (b" )", 128)],
        Answer::TooDeep(287),
    ),
];

#[test]
fn formulas(rt: HostRuntime) {
    check(&rt, rt.alloc(), FORMULAS.as_slice());
}

/// Operand k of a chain is k - 1 levels deeper, and where a chain ends its levels are given back.
const CHAINS: [(Form, &'static [Piece], Answer); 15] = [
    (
        Form::Formula,
        &[(b"thesis & ", 128), (b"thesis", 1)],
        Answer::Until(257),
    ),
    (
        Form::Formula,
        &[(b"thesis & ", 129), (b"thesis", 1)],
        Answer::TooDeep(1192),
    ),
    (
        Form::Formula,
        &[(b"thesis & ", 129), (b")", 1)],
        Answer::Unexpected(1192),
    ),
    (
        Form::Formula,
        &[(b"thesis or ", 128), (b"thesis", 1)],
        Answer::Until(257),
    ),
    (
        Form::Formula,
        &[(b"thesis or ", 129), (b"thesis", 1)],
        Answer::TooDeep(1321),
    ),
    (
        Form::Formula,
        &[(b"thesis or ", 129), (b"holds", 1)],
        Answer::Unexpected(1321),
    ),
    (
        Form::Formula,
        &[(b"thesis or ", 128), (b"thesis & thesis", 1)],
        Answer::TooDeep(1320),
    ),
    (
        Form::Formula,
        &[
            (b"thesis & thesis or ", 1),
            (b"thesis or ", 127),
            (b"thesis", 1),
        ],
        Answer::Until(259),
    ),
    (
        Form::Formula,
        &[(b"thesis or ", 127), (b"thesis & thesis or thesis", 1)],
        Answer::Until(259),
    ),
    (
        Form::Formula,
        &[(b"thesis or ", 127), (b"thesis & thesis & thesis", 1)],
        Answer::TooDeep(1319),
    ),
    (
        Form::Formula,
        &[(b"for x holds ", 1), (b"thesis & ", 127), (b"thesis", 1)],
        Answer::Until(258),
    ),
    (
        Form::Formula,
        &[(b"for x holds ", 1), (b"thesis & ", 128), (b"thesis", 1)],
        Answer::TooDeep(1195),
    ),
    (
        Form::Formula,
        &[(b"( ", 127), (b"( thesis ) & thesis", 1), (b" )", 127)],
        Answer::Until(259),
    ),
    (
        Form::Formula,
        &[
            (b"( ", 126),
            (b"( thesis & thesis ) & thesis", 1),
            (b" )", 126),
        ],
        Answer::Until(259),
    ),
    (
        Form::Formula,
        &[(b"( ", 127), (b"not thesis & thesis", 1), (b" )", 127)],
        Answer::Until(258),
    ),
];

#[test]
fn chains(rt: HostRuntime) {
    check(&rt, rt.alloc(), CHAINS.as_slice());
}
