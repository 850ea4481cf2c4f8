//! What the parsers of proofs answer to a text.
use mz_parser_samples::answer::Answer;
use mz_parser_samples::marked::{BEFORE, marked_behind_begin};
use mz_parser_samples::spelled::parsed;
use mz_pjustification::parse::simple;
use mz_pproposition::parse::proposition;
use std::alloc::Global;
use std::process::Abort;

/// What is read.
#[derive(Clone, Copy, Debug, PartialEq, Eq)]
pub enum Part {
    Simple,
    Proposition,
}

/// What the parser answers to this text.
pub fn answered(rt: &impl Abort, alloc: Global, part: Part, text: &[u8]) -> Answer {
    let all = marked_behind_begin(alloc, text).expect(rt, "tokens");
    if all.items.len() < BEFORE {
        return Answer::TooFew;
    }
    let answer = match part {
        Part::Simple => {
            let read = simple(alloc, all.items.as_slice(), all.end, BEFORE);
            parsed(alloc, &all, read)
        }
        Part::Proposition => {
            let read = proposition(alloc, all.items.as_slice(), all.end, BEFORE);
            parsed(alloc, &all, read)
        }
    };
    answer.expect(rt, "memory")
}
