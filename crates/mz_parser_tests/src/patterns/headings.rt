//! Headings of definitions.
use mz_parser_samples::answer::Answer;
use mz_parser_samples::marked::{marked_behind_begin, reader_behind_begin};
use mz_parser_samples::spelled::told;
use mz_pheading::headings::heading;
use std::alloc::Global;
use std::process::Abort;

/// What is answered to this text, where so many constructs may still be opened.
fn answered(rt: &impl Abort, alloc: Global, text: &[u8], room: usize) -> Answer {
    let all = marked_behind_begin(alloc, text).expect(rt, "tokens");
    let mut reader = reader_behind_begin(alloc, &all);
    let read = heading(&mut reader, room);
    told(alloc, &all, reader.rest, read).expect(rt, "memory")
}

/// Texts behind `begin`, how many constructs may be opened, and the answer.
const ROWS: [(&[u8], usize, Answer); 39] = [
    (b"func + equals x if thesis;", 0, Answer::Until(7)),
    (
        b"func x + (x) -> set equals :A: x if thesis otherwise x;",
        1,
        Answer::Until(18),
    ),
    (b"redefine func +;", 0, Answer::Until(4)),
    (
        b"redefine func x + (x) -> set means :A: thesis;",
        1,
        Answer::Until(15),
    ),
    (b"mode mod means thesis;", 0, Answer::Until(5)),
    (b"redefine mode mod of x -> set;", 0, Answer::Until(8)),
    (
        b"struct (set) str over x (# car -> set #);",
        1,
        Answer::Until(13),
    ),
    (b"func x + y -> set means x = y;", 0, Answer::Until(11)),
    (b"func x + y equals x;", 0, Answer::Until(7)),
    (b"func lb x rb means :lab: it = x;", 1, Answer::Until(12)),
    (b"pred x less y means x = y;", 0, Answer::Until(9)),
    (b"attr x is odd means x = x;", 0, Answer::Until(9)),
    (b"mode mod of x -> set means it = x;", 0, Answer::Until(11)),
    (b"mode mod of x is odd set;", 0, Answer::Until(8)),
    (b"struct str (# car -> set #);", 1, Answer::Until(8)),
    (b"redefine func x + y;", 0, Answer::Until(6)),
    (b"redefine func x + y -> set;", 0, Answer::Until(8)),
    (b"redefine pred x less y;", 0, Answer::Until(6)),
    (b"redefine attr x is odd;", 0, Answer::Unexpected(53)),
    (b"redefine attr x is odd means x = x;", 0, Answer::Until(10)),
    (b"redefine mode mod;", 0, Answer::Unexpected(48)),
    (b"redefine mode mod -> set;", 0, Answer::Until(6)),
    (b"redefine mode mod means it = it;", 0, Answer::Until(8)),
    (
        b"func x + y equals x if x = y, y if y = x otherwise x;",
        0,
        Answer::Unexpected(63),
    ),
    (
        b"func x + y equals x if contradiction, y if x = y otherwise x;",
        0,
        Answer::Until(17),
    ),
    (
        b"pred x less y means x = y if x = x, not x = y if y = y;",
        1,
        Answer::Until(22),
    ),
    (
        b"pred x less y means x = y if x = x, not x = y if y = y;",
        0,
        Answer::TooDeep(67),
    ),
    (b"pred x less y equals x;", 0, Answer::Unexpected(45)),
    (b"func x + y", 0, Answer::EndsEarly(41)),
    (b"func x + y;", 0, Answer::Unexpected(41)),
    (b"theorem", 0, Answer::Unexpected(31)),
    (b"func (x) + y means x = y;", 0, Answer::TooDeep(36)),
    (b"pred x less y means (x = y);", 0, Answer::TooDeep(51)),
    (
        b"redefine struct str (# car -> set #);",
        1,
        Answer::Unexpected(40),
    ),
    (b"attr x is odd means : a x = x;", 0, Answer::Unexpected(55)),
    (
        b"func x + y equals x otherwise y;",
        0,
        Answer::Unexpected(51),
    ),
    (b"mode mod;", 0, Answer::Unexpected(39)),
    (b"mode mod is set", 0, Answer::EndsEarly(46)),
    (b"mode mod is set means it = it;", 0, Answer::Unexpected(47)),
];

#[test]
fn headings(rt: HostRuntime) {
    for (number, (text, room, answer)) in ROWS.iter().enumerate() {
        let given = answered(&rt, rt.alloc(), text, *room);
        assert!(rt; given == *answer, "row {number} gives {given:?}");
    }
}
