//! Chains and quantifiers.
use crate::expressions::texts::check;
use mz_parser_samples::answer::Answer;
use mz_pexpr::forms::Form;

/// Texts with operators and quantifiers, and the answers.
const CHAINS: [(&[u8], Answer); 47] = [
    (b"x less y & x less z", Answer::Until(7)),
    (b"( x less y ) & ( x ) less y", Answer::Until(11)),
    (b"( ( thesis ) & thesis ) or thesis", Answer::Until(9)),
    (b"thesis or thesis & thesis", Answer::Until(5)),
    (
        b"thesis & thesis or thesis implies thesis",
        Answer::Until(7),
    ),
    (b"thesis implies thesis implies thesis", Answer::Until(3)),
    (b"thesis implies thesis iff thesis", Answer::Until(3)),
    (b"thesis iff thesis", Answer::Until(3)),
    (b"thesis iff thesis iff thesis", Answer::Until(3)),
    (b"thesis or", Answer::EndsEarly(40)),
    (b"thesis implies", Answer::EndsEarly(45)),
    (b"thesis & )", Answer::Unexpected(40)),
    (b"thesis & & thesis", Answer::Unexpected(40)),
    (b"thesis & x", Answer::EndsEarly(41)),
    (b"for x holds thesis", Answer::Until(4)),
    (
        b"for x being mod holds thesis & thesis implies thesis",
        Answer::Until(10),
    ),
    (b"for x , y st thesis holds thesis", Answer::Until(8)),
    (b"for x for y holds thesis", Answer::Until(6)),
    (b"for x st thesis for y holds thesis", Answer::Until(8)),
    (b"for x st thesis ex y st thesis", Answer::Until(8)),
    (b"for x", Answer::EndsEarly(36)),
    (b"for x thesis", Answer::Unexpected(37)),
    (b"for holds", Answer::Unexpected(35)),
    (b"for x st thesis", Answer::EndsEarly(46)),
    (b"for x st thesis )", Answer::Unexpected(47)),
    (b"ex x st thesis or thesis", Answer::Until(6)),
    (b"ex x being mod st x less y", Answer::Until(8)),
    (b"ex x st", Answer::EndsEarly(38)),
    (b"ex x holds thesis", Answer::Unexpected(36)),
    (
        b"ex x st thesis & thesis or thesis implies thesis",
        Answer::Until(10),
    ),
    (b"thesis & for x holds thesis & thesis", Answer::Until(8)),
    (b"( for x holds thesis ) & thesis", Answer::Until(8)),
    (b"( for x holds thesis & thesis )", Answer::Until(8)),
    (
        b"for x holds thesis implies thesis implies thesis",
        Answer::Until(8),
    ),
    (
        b"for x holds thesis implies thesis iff thesis",
        Answer::Until(8),
    ),
    (
        b"for x holds thesis implies for y holds thesis iff thesis",
        Answer::Until(11),
    ),
    (
        b"for x holds thesis implies thesis iff thesis iff thesis",
        Answer::Until(8),
    ),
    (b"not for x holds thesis & thesis", Answer::Until(7)),
    (b"not ex x st thesis or thesis", Answer::Until(7)),
    (b"for x ex y st thesis", Answer::Until(6)),
    (
        b"for x st for y st thesis holds thesis holds thesis",
        Answer::Until(11),
    ),
    (
        b"for x st for y st thesis holds thesis",
        Answer::EndsEarly(68),
    ),
    (
        b"for x holds for y holds thesis implies thesis iff thesis implies thesis iff thesis",
        Answer::Until(13),
    ),
    (
        b"for x holds thesis & thesis or thesis implies thesis & thesis or thesis",
        Answer::Until(14),
    ),
    (
        b"for x st thesis implies thesis holds thesis",
        Answer::Until(8),
    ),
    (
        b"for x st thesis implies thesis implies thesis",
        Answer::Unexpected(62),
    ),
    (
        b"thesis & ( thesis implies thesis ) or not thesis & thesis",
        Answer::Until(12),
    ),
];

#[test]
fn chains(rt: HostRuntime) {
    check(&rt, rt.alloc(), Form::Formula, CHAINS.as_slice());
}
