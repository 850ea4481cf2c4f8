//! Types, adjectives and declarations.
use crate::expressions::texts::check;
use mz_parser_samples::answer::Answer;
use mz_pexpr::forms::Form;

/// Types.
const TYPES: [(&[u8], Answer); 26] = [
    (b"mod", Answer::Until(1)),
    (b"set", Answer::Until(1)),
    (b"str", Answer::Until(1)),
    (b"odd mod", Answer::Until(2)),
    (b"non odd mod", Answer::Until(3)),
    (b"x odd mod", Answer::Until(3)),
    (b"( x , y ) odd mod", Answer::Until(7)),
    (b"non ( x ) odd odd str", Answer::Until(7)),
    (b"mod of x , y", Answer::Until(5)),
    (b"mod of x y", Answer::Until(3)),
    (b"str over x + y", Answer::Until(5)),
    (b"mod over x", Answer::Until(1)),
    (b"str of x", Answer::Until(1)),
    (b"mod of", Answer::EndsEarly(37)),
    (b"mod of )", Answer::Unexpected(38)),
    (b"odd", Answer::EndsEarly(34)),
    (b"x", Answer::EndsEarly(32)),
    (b"x mod", Answer::Unexpected(33)),
    (b"non mod", Answer::Unexpected(35)),
    (b"mod of the car", Answer::EndsEarly(45)),
    (b"mod of x , P [ y ]", Answer::Until(3)),
    (b"object", Answer::Until(1)),
    (b"strict str", Answer::Until(2)),
    (b"non strict x strict set of x", Answer::Until(7)),
    (b"object of it , { $2 }", Answer::Until(7)),
    (b"strict", Answer::EndsEarly(37)),
];

/// Adjectives.
const ADJECTIVES: [(&[u8], Answer); 10] = [
    (b"odd", Answer::Until(1)),
    (b"odd odd", Answer::Until(2)),
    (b"odd x", Answer::EndsEarly(36)),
    (b"odd x )", Answer::Unexpected(37)),
    (b"non odd x odd mod", Answer::Until(4)),
    (b"( x ) odd", Answer::Until(4)),
    (b"mod", Answer::Unexpected(31)),
    (b"odd non", Answer::EndsEarly(38)),
    (b"odd non mod", Answer::Unexpected(39)),
    (b"( x odd", Answer::Unexpected(35)),
];

/// Declarations.
const DECLARATIONS: [(&[u8], Answer); 20] = [
    (b"x", Answer::Until(1)),
    (b"x , y", Answer::Until(3)),
    (b"x be mod", Answer::Until(3)),
    (b"x being odd mod", Answer::Until(4)),
    (b"x , y being mod , z being set", Answer::Until(9)),
    (b"x being mod of a , b", Answer::Until(7)),
    (b"x being mod of a , y being mod", Answer::Until(9)),
    (b"x being str over a , y being mod", Answer::Until(9)),
    (b"x being str over a , b , y", Answer::Until(9)),
    (b"x being mod , y", Answer::Until(5)),
    (b"x being mod of a , y be", Answer::EndsEarly(54)),
    (b"x being", Answer::EndsEarly(38)),
    (b"x being y", Answer::EndsEarly(40)),
    (b"x , )", Answer::Unexpected(35)),
    (b"x being mod , )", Answer::Unexpected(45)),
    (b"x being mod of a , P [ y ]", Answer::Until(7)),
    (b"x being mod of a , f ( y ) -> mod", Answer::Until(7)),
    (b"x being mod of a , f ( y )", Answer::Until(10)),
    (b"x being object , y being strict str", Answer::Until(8)),
    (b"mod", Answer::Unexpected(31)),
];

#[test]
fn types(rt: HostRuntime) {
    check(&rt, rt.alloc(), Form::TypeForm, TYPES.as_slice());
}

#[test]
fn adjectives(rt: HostRuntime) {
    check(&rt, rt.alloc(), Form::Adjectives, ADJECTIVES.as_slice());
}

#[test]
fn declarations(rt: HostRuntime) {
    check(&rt, rt.alloc(), Form::Declarations, DECLARATIONS.as_slice());
}
