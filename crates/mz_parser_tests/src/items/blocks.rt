//! Blocks of registrations, theorems, schemes, and conditions and properties.
use mz_parser_samples::answer::Answer;
use mz_parser_samples::marked::{marked_behind_begin, reader_behind_begin};
use mz_parser_samples::spelled::told;
use mz_pblock::conditions::owed;
use mz_pblock::registrations::registration;
use mz_pblock::schemes::{scheme, theorem};
use std::alloc::Global;
use std::process::Abort;

/// What is read.
#[derive(Clone, Copy, Debug, PartialEq, Eq)]
enum Part {
    Registration,
    Theorem,
    Scheme,
    /// Conditions and properties.
    Owed,
    /// The same where a property is due.
    Due,
}

/// What is answered to this text, where so many constructs may still be opened.
fn answered(rt: &impl Abort, alloc: Global, part: Part, text: &[u8], room: usize) -> Answer {
    let all = marked_behind_begin(alloc, text).expect(rt, "tokens");
    let mut reader = reader_behind_begin(alloc, &all);
    let answer = match part {
        Part::Registration => {
            let read = registration(&mut reader, room);
            told(alloc, &all, reader.rest, read)
        }
        Part::Theorem => {
            let read = theorem(&mut reader, room);
            told(alloc, &all, reader.rest, read)
        }
        Part::Scheme => {
            let read = scheme(&mut reader, room);
            told(alloc, &all, reader.rest, read)
        }
        Part::Owed => {
            let read = owed(&mut reader, false, room);
            told(alloc, &all, reader.rest, read)
        }
        Part::Due => {
            let read = owed(&mut reader, true, room);
            told(alloc, &all, reader.rest, read)
        }
    };
    answer.expect(rt, "memory")
}

/// What is read, texts behind `begin`, how many constructs may be opened, and the answer. The text begins in column 31.
const ROWS: [(Part, &[u8], usize, Answer); 38] = [
    (Part::Theorem, b"theorem thesis;", 0, Answer::Until(3)),
    (
        Part::Theorem,
        b"theorem A: thesis by A;",
        0,
        Answer::Until(7),
    ),
    (
        Part::Scheme,
        b"scheme A {x[], x() -> set}: thesis;",
        2,
        Answer::Until(16),
    ),
    (
        Part::Scheme,
        b"scheme A {x[set], x(set) -> set}: thesis provided thesis by A;",
        2,
        Answer::Until(22),
    ),
    (
        Part::Owed,
        b"existence; uniqueness; reflexivity; end",
        0,
        Answer::Until(6),
    ),
    (Part::Owed, b"end", 0, Answer::Until(0)),
    (Part::Owed, b"coherence by A:1;", 0, Answer::Until(6)),
    (
        Part::Owed,
        b"coherence proof end; symmetry proof thus thesis; end;",
        1,
        Answer::Until(11),
    ),
    (Part::Owed, b"coherence proof end;", 0, Answer::TooDeep(41)),
    (Part::Owed, b"coherence", 0, Answer::EndsEarly(40)),
    (Part::Owed, b"coherence x;", 0, Answer::Unexpected(41)),
    (Part::Owed, b"sethood;", 0, Answer::Until(0)),
    (Part::Owed, b"reducibility;", 0, Answer::Until(0)),
    (
        Part::Due,
        b"coherence; commutativity; end",
        0,
        Answer::Until(4),
    ),
    (
        Part::Due,
        b"commutativity; coherence; end",
        0,
        Answer::Until(4),
    ),
    (Part::Due, b"coherence; end", 0, Answer::Unexpected(42)),
    (Part::Due, b"end", 0, Answer::Unexpected(31)),
    (Part::Due, b"coherence;", 0, Answer::EndsEarly(41)),
    (
        Part::Registration,
        b"registration end;",
        0,
        Answer::Until(3),
    ),
    (
        Part::Registration,
        b"registration let x be mod; cluster odd mod; existence; end;",
        0,
        Answer::Until(14),
    ),
    (
        Part::Registration,
        b"registration cluster odd mod; existence; reflexivity; end;",
        0,
        Answer::Unexpected(72),
    ),
    (
        Part::Registration,
        b"registration cluster odd mod; cluster odd -> odd for mod; end;",
        0,
        Answer::Until(14),
    ),
    (
        Part::Registration,
        b"registration existence; end;",
        0,
        Answer::Unexpected(44),
    ),
    (
        Part::Registration,
        b"registration",
        0,
        Answer::EndsEarly(43),
    ),
    (
        Part::Registration,
        b"registration end",
        0,
        Answer::EndsEarly(47),
    ),
    (
        Part::Registration,
        b"registration cluster (x) -> odd; end;",
        0,
        Answer::TooDeep(52),
    ),
    (Part::Theorem, b"theorem x = y;", 0, Answer::Until(5)),
    (
        Part::Theorem,
        b"theorem A: x = y by B:2;",
        0,
        Answer::Until(11),
    ),
    (Part::Theorem, b"theorem not x = y;", 0, Answer::TooDeep(39)),
    (Part::Theorem, b"theorem x y;", 0, Answer::Unexpected(41)),
    (
        Part::Scheme,
        b"scheme S { P[], F(mod) -> mod } : P[] provided x = y and A: P[] ;",
        2,
        Answer::Until(29),
    ),
    (
        Part::Scheme,
        b"scheme S { P[] } : P[];",
        2,
        Answer::Until(12),
    ),
    (
        Part::Scheme,
        b"scheme S { P[] } : P[];",
        1,
        Answer::TooDeep(43),
    ),
    (
        Part::Scheme,
        b"scheme S { x } : P[];",
        2,
        Answer::Unexpected(44),
    ),
    (
        Part::Scheme,
        b"scheme S { } : P[];",
        2,
        Answer::Unexpected(42),
    ),
    (
        Part::Scheme,
        b"scheme + { P[] } : P[];",
        2,
        Answer::Unexpected(38),
    ),
    (
        Part::Scheme,
        b"scheme S { P[] } : P[] provided ;",
        2,
        Answer::Unexpected(63),
    ),
    (
        Part::Scheme,
        b"scheme S { P[] } : P[] from",
        2,
        Answer::EndsEarly(58),
    ),
];

#[test]
fn blocks(rt: HostRuntime) {
    let alloc = rt.alloc();
    for (number, (part, text, room, answer)) in ROWS.iter().enumerate() {
        let given = answered(&rt, alloc, *part, text, *room);
        assert!(rt; given == *answer, "row {number} gives {given:?}");
    }
}
