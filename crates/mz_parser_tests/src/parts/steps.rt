//! Statements that introduce names, steps that need no justification, splits, and steps of an iterative equality.
use mz_parser_samples::answer::Answer;
use mz_parser_samples::marked::{Marked, marked_behind_begin, reader_behind_begin};
use mz_parser_samples::spelled::told;
use mz_pstep::equalities::equality_step;
use mz_pstep::introductions::{consider, deffunc, defpred, reconsider, set_statement};
use mz_pstep::skeletons::{assume, given, let_step, split, take};
use std::alloc::{AllocError, Global};
use std::process::Abort;

/// What is read.
#[derive(Clone, Copy, Debug, PartialEq, Eq)]
enum Part {
    Assume,
    Consider,
    Deffunc,
    Defpred,
    Equality,
    Given,
    Let,
    Reconsider,
    Set,
    Split,
    Take,
}

/// What is answered by the parser of a statement that introduces names, or of `set`.
fn introduced(alloc: Global, part: Part, all: &Marked, room: usize) -> Result<Answer, AllocError> {
    let mut reader = reader_behind_begin(alloc, all);
    match part {
        Part::Consider => {
            let read = consider(&mut reader, None, room);
            told(alloc, all, reader.rest, read)
        }
        Part::Deffunc => {
            let read = deffunc(&mut reader, room);
            told(alloc, all, reader.rest, read)
        }
        Part::Defpred => {
            let read = defpred(&mut reader, room);
            told(alloc, all, reader.rest, read)
        }
        Part::Reconsider => {
            let read = reconsider(&mut reader, None, room);
            told(alloc, all, reader.rest, read)
        }
        _ => {
            let read = set_statement(&mut reader, room);
            told(alloc, all, reader.rest, read)
        }
    }
}

/// What is answered by the parser of a step, or of `take`.
fn stepped(alloc: Global, part: Part, all: &Marked, room: usize) -> Result<Answer, AllocError> {
    let mut reader = reader_behind_begin(alloc, all);
    match part {
        Part::Assume => {
            let read = assume(&mut reader, room);
            told(alloc, all, reader.rest, read)
        }
        Part::Equality => {
            let read = equality_step(&mut reader, room);
            told(alloc, all, reader.rest, read)
        }
        Part::Given => {
            let read = given(&mut reader, room);
            told(alloc, all, reader.rest, read)
        }
        Part::Let => {
            let read = let_step(&mut reader, room);
            told(alloc, all, reader.rest, read)
        }
        Part::Split => {
            let read = split(&mut reader, None, room);
            told(alloc, all, reader.rest, read)
        }
        _ => {
            let read = take(&mut reader, room);
            told(alloc, all, reader.rest, read)
        }
    }
}

/// What is answered to this text, where so many constructs may still be opened.
fn answered(rt: &impl Abort, alloc: Global, part: Part, text: &[u8], room: usize) -> Answer {
    let all = marked_behind_begin(alloc, text).expect(rt, "tokens");
    let answer = match part {
        Part::Consider | Part::Deffunc | Part::Defpred | Part::Reconsider | Part::Set => {
            introduced(alloc, part, &all, room)
        }
        _ => stepped(alloc, part, &all, room),
    };
    answer.expect(rt, "memory")
}

const ROWS: [(Part, &[u8], usize, Answer); 34] = [
    (
        Part::Consider,
        b"consider x being set such that x = x by A;",
        1,
        Answer::Until(12),
    ),
    (
        Part::Consider,
        b"consider x such that A: x = x and x = y;",
        0,
        Answer::Until(14),
    ),
    (Part::Consider, b"consider x;", 0, Answer::Unexpected(41)),
    (
        Part::Consider,
        b"consider x such x = x;",
        0,
        Answer::Unexpected(47),
    ),
    (
        Part::Reconsider,
        b"reconsider x = y, z as set by A;",
        0,
        Answer::Until(11),
    ),
    (
        Part::Reconsider,
        b"reconsider x as mod of y, z;",
        0,
        Answer::Until(9),
    ),
    (
        Part::Reconsider,
        b"reconsider x = y = z as set;",
        0,
        Answer::Unexpected(48),
    ),
    (Part::Set, b"set x = y, z = x;", 0, Answer::Until(9)),
    (Part::Set, b"set x;", 0, Answer::Unexpected(36)),
    (Part::Set, b"mod x = y;", 0, Answer::Unexpected(31)),
    (
        Part::Deffunc,
        b"deffunc F(set, set) = x;",
        1,
        Answer::Until(10),
    ),
    (Part::Deffunc, b"deffunc F() = x;", 1, Answer::Until(7)),
    (Part::Deffunc, b"deffunc F() = x;", 0, Answer::TooDeep(40)),
    (Part::Deffunc, b"deffunc F(;", 1, Answer::Unexpected(41)),
    (
        Part::Deffunc,
        b"deffunc F(mod of x, set) = x;",
        1,
        Answer::Until(12),
    ),
    (
        Part::Defpred,
        b"defpred P[set] means x = x;",
        1,
        Answer::Until(10),
    ),
    (
        Part::Defpred,
        b"defpred P(set) means x = x;",
        1,
        Answer::Unexpected(40),
    ),
    (Part::Let, b"let x be set;", 0, Answer::Until(5)),
    (
        Part::Let,
        b"let x be set such that x = x;",
        0,
        Answer::Until(10),
    ),
    (
        Part::Let,
        b"let x be set such that;",
        0,
        Answer::Unexpected(53),
    ),
    (Part::Assume, b"assume x = x;", 0, Answer::Until(5)),
    (
        Part::Assume,
        b"assume that A: x = x and B: x = y;",
        0,
        Answer::Until(14),
    ),
    (
        Part::Assume,
        b"assume x = x and x = y;",
        0,
        Answer::Unexpected(44),
    ),
    (
        Part::Given,
        b"given x being set such that x = x;",
        0,
        Answer::Until(10),
    ),
    (Part::Given, b"given x;", 0, Answer::Unexpected(38)),
    (Part::Take, b"take x;", 0, Answer::Until(3)),
    (Part::Take, b"take x = y, z;", 0, Answer::Until(7)),
    (Part::Take, b"take x = y = z;", 0, Answer::Unexpected(42)),
    (Part::Take, b"take x", 0, Answer::EndsEarly(37)),
    (Part::Split, b"per cases;", 0, Answer::Until(3)),
    (Part::Split, b"per cases by A;", 0, Answer::Until(5)),
    (Part::Split, b"per cases proof", 0, Answer::Unexpected(41)),
    (Part::Equality, b".= x + y by A .= z", 0, Answer::Until(6)),
    (Part::Equality, b".= x = y", 0, Answer::Until(2)),
];

#[test]
fn parts_of_reasonings(rt: HostRuntime) {
    let alloc = rt.alloc();
    for (part, text, room, answer) in &ROWS {
        assert!(rt; answered(&rt, alloc, *part, text, *room) == *answer);
    }
}
