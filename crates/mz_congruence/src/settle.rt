//! Congruence closure with rules, by passes over all nodes and all rules.
ghost use Rattle.std.specs.Prelude.{◌≡◌, ◌<◌, length, IfOk, OnOk};
ghost use Rattle.std.specs.List.{list_all};
ghost use Rattle.mz_congruence.specs.Classes.{root, Descends};
ghost use Rattle.mz_congruence.specs.Signature.{signature};
ghost use Rattle.mz_congruence.specs.Closing.{same, IsWithin, State, Entries, Entered, CongruentMerged, RuleApplied, RulesApplied, Saturated, Exact};

use crate::classes::{flatten, root_of, union};
use crate::graph::{Graph, Node, Pair};
use crate::signature::push_head;
use crate::signatures::Signatures;
use std::alloc::{AllocError, Global};

/// The head of a node and the roots of its arguments.
fn signature_of(alloc: Global, c: &[usize], node: &Node) -> Result<Vec<usize>, AllocError>
    requires { Descends c.now }
    ensures { IfOk result (λ s. s.items ≡ signature (root c.now) node.now) }
{
    let mut out = Vec::new(alloc);
    push_head(&mut out, node.head)?;
    for arg in node.args.as_slice() {
        out.push(root_of(c, *arg))?;
    }
    Ok(out)
}

fn enter(
    alloc: Global,
    graph: &Graph,
    c: &mut [usize],
    table: &mut Signatures,
    i: usize,
) -> Result<bool, AllocError>
    requires number { i < length graph.now.nodes }
    requires within { IsWithin graph.now }
    requires state { State graph.now c.old }
    requires entries { Entries graph.now table.old }
    ensures { IfOk result (λ m. Entered graph.now m c.old c.new table.old table.new i) }
{
    let signature = signature_of(alloc, &*c, graph.nodes.get(i))?;
    match table.find(signature.as_slice()) {
        Some(j) => Ok(union(c, i, j)),
        None => {
            table.insert(signature, i)?;
            Ok(false)
        }
    }
}

/// Makes nodes with one signature equal. Whether some were not yet.
fn merge_congruent(alloc: Global, graph: &Graph, c: &mut [usize]) -> Result<bool, AllocError>
    requires within { IsWithin graph.now }
    requires state { State graph.now c.old }
    ensures { IfOk result (λ m. CongruentMerged graph.now m c.old c.new) }
{
    let mut table = Signatures::new(alloc);
    let mut merged = false;
    for i in 0..graph.nodes.len() {
        if enter(alloc, graph, c, &mut table, i)? {
            merged = true;
        }
    }
    Ok(merged)
}

fn is_same(c: &[usize], p: Pair) -> bool
    requires { Descends c.now }
    ensures { result ≡ same (root c.now) p }
{
    root_of(c, p.left) == root_of(c, p.right)
}

fn all_same(c: &[usize], ps: &[Pair]) -> bool
    requires { Descends c.now }
    ensures { result ≡ list_all (same (root c.now)) ps.now }
{
    for p in ps {
        if !is_same(c, *p) {
            return false;
        }
    }
    true
}

/// Makes the nodes of a rule's conclusion equal where those of its premises are. Whether they were
/// not yet.
fn apply_rule(graph: &Graph, c: &mut [usize], k: usize) -> bool
    requires number { k < length graph.now.rules }
    requires within { IsWithin graph.now }
    requires state { State graph.now c.old }
    ensures { RuleApplied graph.now result c.old c.new k }
{
    let rule = graph.rules.get(k);
    if all_same(&*c, rule.premises.as_slice()) {
        union(c, rule.conclusion.left, rule.conclusion.right)
    } else {
        false
    }
}

/// Tries each rule once. Whether some made nodes equal.
fn apply_rules(graph: &Graph, c: &mut [usize]) -> bool
    requires within { IsWithin graph.now }
    requires state { State graph.now c.old }
    ensures { RulesApplied graph.now result c.old c.new }
{
    let mut merged = false;
    for k in 0..graph.rules.len() {
        if apply_rule(graph, c, k) {
            merged = true;
        }
    }
    merged
}

/// Tries the rules until none makes nodes equal.
fn saturate(graph: &Graph, c: &mut [usize])
    requires within { IsWithin graph.now }
    requires state { State graph.now c.old }
    ensures { Saturated graph.now c.old c.new }
{
    let mut more = true;
    'passes: while more {
        let applied = apply_rules(graph, c);
        more = applied;
    }
}

/// Makes nodes equal until the classes are exactly those of equal nodes, from classes that hold equal nodes only.
pub fn settle(alloc: Global, graph: &Graph, c: &mut [usize]) -> Result<(), AllocError>
    requires within { IsWithin graph.now }
    requires state { State graph.now c.old }
    ensures { OnOk result (Exact graph.now c.new) }
{
    let mut more = true;
    'rounds: while more {
        flatten(c);
        saturate(graph, c);
        let congruent = merge_congruent(alloc, graph, c)?;
        more = congruent;
    }
    flatten(c);
    Ok(())
}
