//! Terms.
use crate::expressions::texts::check;
use mz_parser_samples::answer::Answer;
use mz_pexpr::forms::Form;

/// Each alternative once, and each place where one token doesn't decide twice.
const ROWS: [(&[u8], Answer); 47] = [
    (b"x", Answer::Until(1)),
    (b"x + y", Answer::Until(3)),
    (b"+", Answer::Until(1)),
    (b"+ + x", Answer::Until(3)),
    (b"x y", Answer::Until(1)),
    (b"it", Answer::Until(1)),
    (b"$1 + $10", Answer::Until(3)),
    (b"f ( )", Answer::Until(3)),
    (b"f ( x , y )", Answer::Until(6)),
    (b"f ( x , )", Answer::Unexpected(37)),
    (b"f ( x", Answer::EndsEarly(36)),
    (b"( x )", Answer::Until(3)),
    (b"( x , y )", Answer::EndsEarly(40)),
    (b"( x , y ) + z", Answer::Until(7)),
    (b"+ ( x , y )", Answer::Until(6)),
    (b"( x , y ) z", Answer::Unexpected(41)),
    (b"( x , y ) ( z )", Answer::Unexpected(41)),
    (b"( x y )", Answer::Unexpected(35)),
    (b"{ }", Answer::Unexpected(33)),
    (b"{ x , y }", Answer::Until(5)),
    (b"[ x , y ]", Answer::Until(5)),
    (b"[ x )", Answer::Unexpected(35)),
    (b"lb x rb", Answer::Until(3)),
    (b"lb x rc", Answer::Until(3)),
    (b"lb x )", Answer::Unexpected(36)),
    (b"str (# x #)", Answer::Until(4)),
    (b"str x", Answer::Unexpected(35)),
    (b"str", Answer::EndsEarly(34)),
    (b"the car of x", Answer::Until(4)),
    (b"the car of the car of x + y", Answer::Until(9)),
    (b"the car of ( x )", Answer::Until(6)),
    (b"the car of ( x , y )", Answer::Unexpected(46)),
    (b"x , y", Answer::Until(3)),
    (b"{ x , P [ y ] }", Answer::Unexpected(35)),
    (b"{ x ,", Answer::EndsEarly(36)),
    (b"", Answer::EndsEarly(31)),
    (b"( x\n y )", Answer::UnexpectedBelow(2, 2)),
    (b"( x\n ,", Answer::EndsEarlyBelow(2, 3)),
    (b"mod", Answer::Unexpected(31)),
    // commas that divide, and commas that don't
    (b"{ a , b , P [ c ] }", Answer::Unexpected(35)),
    (b"{ a , f ( c ) -> mod }", Answer::Unexpected(35)),
    (b"a , f ( c ) -> mod", Answer::Until(1)),
    (b"a , f ( ( c ) -> mod", Answer::Unexpected(45)),
    (b"a , f ( c )", Answer::Until(6)),
    (b"a , b being mod", Answer::Until(1)),
    (b"a , str", Answer::EndsEarly(38)),
    (b"a , str over", Answer::Until(1)),
];

#[test]
fn several_terms(rt: HostRuntime) {
    check(&rt, rt.alloc(), Form::Terms, ROWS.as_slice());
}

/// One term ends before the first comma outside brackets.
const ONE: [(&[u8], Answer); 5] = [
    (b"x , y", Answer::Until(1)),
    (b"x + y , z", Answer::Until(3)),
    (b"( x , y ) + z , x", Answer::Until(7)),
    (b"( x , y ) , z", Answer::Unexpected(41)),
    (b", x", Answer::Unexpected(31)),
];

#[test]
fn one_term(rt: HostRuntime) {
    check(&rt, rt.alloc(), Form::Term, ONE.as_slice());
}
