//! Patterns of notations.
use mz_parser_samples::answer::Answer;
use mz_parser_samples::marked::{marked_behind_begin, reader_behind_begin};
use mz_parser_samples::spelled::told;
use mz_ppattern::patterns::pattern;
use std::alloc::Global;
use std::process::Abort;

/// What is answered to this text, where so many constructs may still be opened.
fn answered(rt: &impl Abort, alloc: Global, text: &[u8], room: usize) -> Answer {
    let all = marked_behind_begin(alloc, text).expect(rt, "tokens");
    let mut reader = reader_behind_begin(alloc, &all);
    let read = pattern(&mut reader, room);
    told(alloc, &all, reader.rest, read).expect(rt, "memory")
}

/// Texts behind `begin`, how many constructs may be opened, and the answer.
const ROWS: [(&[u8], usize, Answer); 39] = [
    (b"+ (x);", 1, Answer::Until(4)),
    (b"less x;", 0, Answer::Until(2)),
    (b"x is (x) odd;", 1, Answer::Until(6)),
    (b"mod of x;", 0, Answer::Until(3)),
    (b"x + y;", 0, Answer::Until(3)),
    (b"+;", 0, Answer::Until(1)),
    (b"x +;", 0, Answer::Until(2)),
    (b"+ y;", 0, Answer::Until(2)),
    (b"(x, y) + (z);", 1, Answer::Until(9)),
    (b"(x, y) + z;", 0, Answer::TooDeep(31)),
    (b"lb x, y rb;", 1, Answer::Until(5)),
    (b"{x, y};", 1, Answer::Until(5)),
    (b"[x];", 1, Answer::Until(3)),
    (b"[x];", 0, Answer::TooDeep(31)),
    (b"x, y less z;", 0, Answer::Until(5)),
    (b"less;", 0, Answer::Until(1)),
    (b"less x, y;", 0, Answer::Until(4)),
    (b"x less;", 0, Answer::Until(2)),
    (b"x = y;", 0, Answer::Until(3)),
    (b"x is odd;", 0, Answer::Until(3)),
    (b"x is y odd;", 0, Answer::Until(4)),
    (b"x is (y, z) odd;", 1, Answer::Until(8)),
    (b"mod;", 0, Answer::Until(1)),
    (b"mod of x, y;", 0, Answer::Until(5)),
    (b"set;", 0, Answer::Until(1)),
    (b"x;", 0, Answer::Unexpected(32)),
    (b"x, y +;", 0, Answer::Unexpected(36)),
    (b";", 0, Answer::Unexpected(31)),
    (b"x", 0, Answer::EndsEarly(32)),
    (b"x, y", 0, Answer::EndsEarly(35)),
    (b"x is", 0, Answer::EndsEarly(35)),
    (b"x is y;", 0, Answer::Unexpected(37)),
    (b"(x;", 1, Answer::Unexpected(33)),
    (b"x + y +;", 0, Answer::Until(3)),
    (b"mod of ;", 0, Answer::Unexpected(38)),
    (b"x is less;", 0, Answer::Unexpected(36)),
    (b"lb x };", 1, Answer::Unexpected(36)),
    (b"str;", 0, Answer::Unexpected(31)),
    (b"{};", 1, Answer::Unexpected(32)),
];

#[test]
fn patterns(rt: HostRuntime) {
    for (number, (text, room, answer)) in ROWS.iter().enumerate() {
        let given = answered(&rt, rt.alloc(), text, *room);
        assert!(rt; given == *answer, "row {number} gives {given:?}");
    }
}
