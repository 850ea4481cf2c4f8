//! Derivations, read from their texts.
use mz_deriv::derivation::{Derivation, Derivations};
use mz_logic::rule::Rule;
use mz_samples::forms::term;
use mz_samples::parts::{letters, sequent};
use mz_samples::symbols::number;
use std::alloc::Global;
use std::mem;
use std::process::Abort;

/// The rule of a text: its name and, behind it, its constant, its term, its axiom's number or its letter with the
/// body.
fn rule(rt: &impl Abort, alloc: Global, text: &str) -> Rule {
    match text {
        "hypothesis" => return Rule::Hypothesis,
        "weaken" => return Rule::Weaken,
        "truth" => return Rule::Truth,
        "and in" => return Rule::AndIn,
        "and left" => return Rule::AndLeft,
        "and right" => return Rule::AndRight,
        "not in" => return Rule::NotIn,
        "not out" => return Rule::NotOut,
        "classical" => return Rule::Classical,
        "reflexive" => return Rule::Reflexive,
        "replace" => return Rule::Replace,
        "cut" => return Rule::Cut,
        _ => {}
    }
    if let Some(digits) = text.strip_prefix("all in ") {
        return Rule::AllIn(number(digits.as_bytes()).expect(rt, digits));
    }
    if let Some(digits) = text.strip_prefix("axiom ") {
        return Rule::Axiom(number(digits.as_bytes()).expect(rt, digits));
    }
    if let Some(word) = text.strip_prefix("all out ") {
        return Rule::AllOut(term(alloc, word).expect(rt, text));
    }
    let body = text.strip_prefix("instance ").expect(rt, text);
    Rule::Instance(letters(alloc, body).expect(rt, text))
}

/// The derivation of a text: a line for each node, with its rule and its sequent. All nodes before it that no other
/// one has yet are its parents where its rule has parents.
pub fn derivation(rt: &impl Abort, alloc: Global, text: &str) -> Derivation {
    let mut nodes = Derivations::new(alloc);
    for line in text.lines() {
        let (name, rest) = line.trim().split_once(": ").expect(rt, line);
        let rule = rule(rt, alloc, name);
        let parents = match rule {
            Rule::Hypothesis | Rule::Truth | Rule::Reflexive | Rule::Axiom(_) => {
                Derivations::new(alloc)
            }
            _ => mem::replace(&mut nodes, Derivations::new(alloc)),
        };
        let sequent = sequent(alloc, rest).expect(rt, line);
        nodes
            .push(Derivation::new(rule, sequent, parents))
            .expect(rt, "memory");
    }
    nodes.items.pop().expect(rt, "a node")
}
