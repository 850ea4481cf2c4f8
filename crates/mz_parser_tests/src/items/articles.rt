//! Whole articles.
use mz_parser_samples::answer::{Answer, refused, taken};
use mz_parser_samples::spelled::spelled;
use mz_parser_samples::texts::tokens_behind_begin;
use mz_pexpr::marked_tokens::marked_tokens;
use mz_pitem::parse::article;
use std::alloc::Global;
use std::process::Abort;

/// What is answered to an article with this text behind its `begin`.
fn answered(rt: &impl Abort, alloc: Global, text: &[u8]) -> Answer {
    let tokens = tokens_behind_begin(alloc, text).expect(rt, "tokens");
    let all = marked_tokens(alloc, &tokens).expect(rt, "memory");
    match article(alloc, &tokens) {
        Ok(tree) => {
            let spelled = spelled(alloc, &tree).expect(rt, "memory");
            taken(spelled.as_slice(), all.as_slice(), 0, all.len())
        }
        Err(fault) => refused(&fault),
    }
}

/// Texts behind `begin`, and the answer. Five tokens stand before.
const ROWS: [(&[u8], Answer); 27] = [
    (b"", Answer::Until(5)),
    (b"begin", Answer::Until(6)),
    (b"reserve x for set;", Answer::Until(10)),
    (b"theorem thesis;", Answer::Until(8)),
    (b"definition end;", Answer::Until(8)),
    (b"notation end;", Answer::Until(8)),
    (b"registration end;", Answer::Until(8)),
    (b"thesis; begin thesis;", Answer::Until(10)),
    (b"now thus thesis; end;", Answer::Until(11)),
    (b"set x = y;", Answer::Until(10)),
    (
        b"definition let x; pred x less x means thesis; end;",
        Answer::Until(18),
    ),
    (
        b"definition redefine pred x less x; symmetry; end;",
        Answer::Until(16),
    ),
    (
        b"definition redefine pred x less x; coherence; end;",
        Answer::Unexpected(77),
    ),
    (
        b"definition redefine pred x less x; end;",
        Answer::Unexpected(66),
    ),
    (
        b"definition redefine pred x less x means thesis; end;",
        Answer::Until(16),
    ),
    (b"scheme S{F() -> set}: thesis;", Answer::Until(17)),
    (
        b"registration cluster odd mod; existence; end;",
        Answer::Until(14),
    ),
    (b"environ", Answer::Unexpected(31)),
    (b"let x;", Answer::Unexpected(31)),
    (b"thesis; end;", Answer::Unexpected(39)),
    (b"theorem reserve", Answer::Unexpected(39)),
    (b"definition begin", Answer::Unexpected(42)),
    (b"theorem", Answer::EndsEarly(38)),
    (b"definition", Answer::EndsEarly(41)),
    (b"thesis", Answer::EndsEarly(37)),
    (b"reserve x for set", Answer::EndsEarly(48)),
    (b"thesis; now", Answer::EndsEarly(42)),
];

#[test]
fn articles(rt: HostRuntime) {
    let alloc = rt.alloc();
    for (number, (text, answer)) in ROWS.iter().enumerate() {
        let given = answered(&rt, alloc, text);
        assert!(rt; given == *answer, "row {number} gives {given:?}");
    }
}
