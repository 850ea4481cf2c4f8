//! How deep proofs nest, with the expressions in them.
use crate::reasonings::texts::answered;
use mz_parser_samples::answer::Answer;
use mz_pproof::forms::ProofForm;
use std::alloc::Global;
use std::process::Abort;

/// The bytes with these words so many times behind them.
fn with(rt: &impl Abort, mut bytes: Vec<u8>, words: &[u8], times: usize) -> Vec<u8> {
    for _ in 0..times {
        bytes.extend_from_slice(words).expect(rt, "memory");
    }
    bytes
}

/// The first words so many times, the second ones once, and the third ones as often as the first.
fn nested(rt: &impl Abort, alloc: Global, words: (&[u8], &[u8], &[u8]), times: usize) -> Vec<u8> {
    let opened = with(rt, Vec::new(alloc), words.0, times);
    let filled = with(rt, opened, words.1, 1);
    with(rt, filled, words.2, times)
}

fn statement(rt: &impl Abort, alloc: Global, words: (&[u8], &[u8], &[u8]), times: usize) -> Answer {
    let text = nested(rt, alloc, words, times);
    answered(rt, alloc, ProofForm::Statement, text.as_slice())
}

fn reasoning(rt: &impl Abort, alloc: Global, words: (&[u8], &[u8], &[u8]), times: usize) -> Answer {
    let text = nested(rt, alloc, words, times);
    answered(rt, alloc, ProofForm::Reasoning, text.as_slice())
}

#[test]
fn proofs_in_proofs(rt: HostRuntime) {
    let alloc = rt.alloc();
    let words = (
        b"thesis proof ".as_slice(),
        b"".as_slice(),
        b"end ; ".as_slice(),
    );
    assert!(rt; statement(&rt, alloc, words, 128) == Answer::Until(512));
    assert!(rt; statement(&rt, alloc, words, 129) == Answer::TooDeep(1702));
}

#[test]
fn cases_in_cases(rt: HostRuntime) {
    let alloc = rt.alloc();
    let words = (
        b"per cases; suppose thesis; ".as_slice(),
        b"".as_slice(),
        b"end ; ".as_slice(),
    );
    assert!(rt; reasoning(&rt, alloc, words, 128) == Answer::Until(1024));
    assert!(rt; reasoning(&rt, alloc, words, 129) == Answer::TooDeep(3498));
}

#[test]
fn premises_in_reasonings(rt: HostRuntime) {
    let alloc = rt.alloc();
    let words = (
        b"now ".as_slice(),
        b"thesis from S(A); ".as_slice(),
        b"end ; ".as_slice(),
    );
    assert!(rt; statement(&rt, alloc, words, 127) == Answer::Until(388));
    assert!(rt; statement(&rt, alloc, words, 128) == Answer::TooDeep(556));
}

/// A formula in so many parentheses in each of a hundred reasonings.
fn formula_inside(rt: &impl Abort, alloc: Global, times: usize) -> Answer {
    let formula = nested(
        rt,
        alloc,
        (b"(".as_slice(), b"x = x".as_slice(), b")".as_slice()),
        times,
    );
    let whole = with(rt, formula, b"; ", 1);
    statement(
        rt,
        alloc,
        (b"now ".as_slice(), whole.as_slice(), b"end ; ".as_slice()),
        100,
    )
}

#[test]
fn formulas_in_reasonings(rt: HostRuntime) {
    let alloc = rt.alloc();
    assert!(rt; formula_inside(&rt, alloc, 28) == Answer::Until(360));
    assert!(rt; formula_inside(&rt, alloc, 29) == Answer::TooDeep(459));
}

/// A formula in so many parentheses behind a proof.
fn formula_behind(rt: &impl Abort, alloc: Global, times: usize) -> Answer {
    let proof = with(rt, Vec::new(alloc), b"thesis proof x = x; end; ", 1);
    let opened = with(rt, proof, b"(", times);
    let filled = with(rt, opened, b"x = x", 1);
    let closed = with(rt, filled, b")", times);
    let text = with(rt, closed, b";", 1);
    answered(rt, alloc, ProofForm::Reasoning, text.as_slice())
}

#[test]
fn formulas_behind_proofs(rt: HostRuntime) {
    let alloc = rt.alloc();
    assert!(rt; formula_behind(&rt, alloc, 128) == Answer::Until(268));
    assert!(rt; formula_behind(&rt, alloc, 129) == Answer::TooDeep(184));
}
