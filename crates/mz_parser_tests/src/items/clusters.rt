//! Clusters of registrations.
use mz_parser_samples::answer::Answer;
use mz_parser_samples::marked::{marked_behind_begin, reader_behind_begin};
use mz_parser_samples::spelled::told;
use mz_pcluster::clusters::cluster;
use std::alloc::Global;
use std::process::Abort;

/// What is answered to this text, where so many constructs may still be opened.
fn answered(rt: &impl Abort, alloc: Global, text: &[u8], room: usize) -> Answer {
    let all = marked_behind_begin(alloc, text).expect(rt, "tokens");
    let mut reader = reader_behind_begin(alloc, &all);
    let read = cluster(&mut reader, room);
    told(alloc, &all, reader.rest, read).expect(rt, "memory")
}

/// Texts behind `begin`, how many constructs may be opened, and the answer. The token behind `cluster` stands in column
/// 39.
const ROWS: [(&[u8], usize, Answer); 42] = [
    (b"cluster odd set;", 0, Answer::Until(4)),
    (b"cluster odd for set;", 0, Answer::Until(5)),
    (b"cluster -> odd for set;", 0, Answer::Until(6)),
    (b"cluster odd -> odd for set;", 0, Answer::Until(7)),
    (b"cluster x -> odd for set;", 0, Answer::Until(7)),
    (b"cluster odd mod;", 0, Answer::Until(4)),
    (b"cluster odd for mod;", 0, Answer::Until(5)),
    (b"cluster odd for odd mod;", 0, Answer::Until(6)),
    (b"cluster non odd odd str over x, y;", 0, Answer::Until(10)),
    (b"cluster x odd mod of y;", 0, Answer::Until(7)),
    (b"cluster (x, y) odd mod;", 1, Answer::Until(9)),
    (b"cluster (x) odd odd set;", 1, Answer::Until(8)),
    (b"cluster odd -> odd for mod;", 0, Answer::Until(7)),
    (b"cluster -> odd for odd mod;", 0, Answer::Until(7)),
    (
        b"cluster x odd non odd -> x odd for str;",
        0,
        Answer::Until(11),
    ),
    (b"cluster (x) odd -> odd for mod;", 1, Answer::Until(10)),
    (b"cluster x -> odd;", 0, Answer::Until(5)),
    (b"cluster x + y -> odd for mod;", 0, Answer::Until(9)),
    (b"cluster (x) -> odd;", 1, Answer::Until(7)),
    (b"cluster (x, y) + z -> odd;", 1, Answer::Until(11)),
    (b"cluster + -> odd;", 0, Answer::Until(5)),
    (b"cluster str (# x #) -> odd;", 1, Answer::Until(8)),
    (b"cluster the car of x -> non odd;", 0, Answer::Until(9)),
    (b"cluster x(y) -> odd;", 1, Answer::Until(8)),
    (b"cluster mod;", 0, Answer::Unexpected(39)),
    (b"cluster ;", 0, Answer::Unexpected(39)),
    (b"cluster odd;", 0, Answer::Unexpected(42)),
    (b"cluster odd -> odd mod;", 0, Answer::Unexpected(50)),
    (b"cluster -> odd;", 0, Answer::Unexpected(45)),
    (b"cluster x -> odd mod;", 0, Answer::Unexpected(48)),
    (b"cluster x mod;", 0, Answer::Unexpected(41)),
    (b"cluster (x, y) -> odd;", 1, Answer::Unexpected(46)),
    (b"cluster (x) mod;", 1, Answer::Unexpected(43)),
    (b"cluster (x) odd mod;", 0, Answer::TooDeep(39)),
    (b"cluster ((x)) -> odd;", 1, Answer::TooDeep(40)),
    (b"cluster x odd (y) odd mod;", 0, Answer::TooDeep(45)),
    (b"cluster odd odd", 0, Answer::EndsEarly(46)),
    (b"cluster x", 0, Answer::EndsEarly(40)),
    (b"cluster", 0, Answer::EndsEarly(38)),
    (b"cluster (x", 1, Answer::EndsEarly(41)),
    (b"cluster -> odd for mod", 0, Answer::EndsEarly(53)),
    (b"odd", 0, Answer::Unexpected(31)),
];

#[test]
fn clusters(rt: HostRuntime) {
    for (number, (text, room, answer)) in ROWS.iter().enumerate() {
        let given = answered(&rt, rt.alloc(), text, *room);
        assert!(rt; given == *answer, "row {number} gives {given:?}");
    }
}
