//! Congruence closure by a work list.
ghost use Rattle.std.specs.Prelude.{◌≡◌, ◌<◌, length, IfOk, OnOk};
ghost use Rattle.mz_congruence.specs.Congruence.{Equal};
ghost use Rattle.mz_congruence.specs.Closing.{IsWithin};
ghost use Rattle.mz_classes.specs.Labels.{Labelled, Relabelled};

use crate::labels::{all_same, are_congruent, label_of, relabel};
use crate::work::{Step, Work};
use mz_congruence::classes::numbers;
use mz_congruence::graph::Graph;
use std::alloc::{AllocError, Global};

/// Labels of the nodes of a graph: those with one label are equal. As far as the work list leads, those that are equal
/// have one label.
pub fn propagated_labels(alloc: Global, graph: &Graph) -> Result<Vec<usize>, AllocError>
    requires { IsWithin graph.now }
    ensures { IfOk result (λ c. Labelled graph.now c.items) }
{
    let mut labels = numbers(alloc, graph.nodes.len())?;
    propagate(alloc, graph, labels.as_mut_slice())?;
    Ok(labels)
}

fn propagate(alloc: Global, graph: &Graph, labels: &mut [usize]) -> Result<(), AllocError>
    requires within { IsWithin graph.now }
    requires labelled { Labelled graph.now labels.old }
    ensures { OnOk result (Labelled graph.now labels.new) }
{
    let mut work = Work::new(alloc, graph, &*labels)?;
    'steps: for _ in 0..u64::MAX {
        match work.next() {
            Some(step) => perform(alloc, graph, labels, &mut work, step)?,
            None => return Ok(()),
        }
    }
    Ok(())
}

// Makes a step, if it may be made.
fn perform(
    alloc: Global,
    graph: &Graph,
    labels: &mut [usize],
    work: &mut Work,
    step: Step,
) -> Result<(), AllocError>
    requires within { IsWithin graph.now }
    requires labelled { Labelled graph.now labels.old }
    ensures { OnOk result (Labelled graph.now labels.new) }
{
    match step {
        Step::Congruent(i, j) => make_congruent(alloc, graph, labels, work, i, j),
        Step::Rule(k) => apply_rule(alloc, graph, labels, work, k),
    }
}

fn make_congruent(
    alloc: Global,
    graph: &Graph,
    labels: &mut [usize],
    work: &mut Work,
    i: usize,
    j: usize,
) -> Result<(), AllocError>
    requires within { IsWithin graph.now }
    requires labelled { Labelled graph.now labels.old }
    ensures { OnOk result (Labelled graph.now labels.new) }
{
    let count = graph.nodes.len();
    if i < count && j < count && are_congruent(graph, &*labels, i, j) {
        merge(alloc, graph, labels, work, i, j)
    } else {
        Ok(())
    }
}

fn apply_rule(
    alloc: Global,
    graph: &Graph,
    labels: &mut [usize],
    work: &mut Work,
    k: usize,
) -> Result<(), AllocError>
    requires within { IsWithin graph.now }
    requires labelled { Labelled graph.now labels.old }
    ensures { OnOk result (Labelled graph.now labels.new) }
{
    if k >= graph.rules.len() {
        return Ok(());
    }
    let rule = graph.rules.get(k);
    if all_same(&*labels, rule.premises.as_slice()) {
        merge(
            alloc,
            graph,
            labels,
            work,
            rule.conclusion.left,
            rule.conclusion.right,
        )
    } else {
        Ok(())
    }
}

// Makes the classes of two equal nodes one: the smaller takes the label of the other.
#[tactic(auto, using(crate::proofs::LabelLemmas::merge_rules))]
fn merge(
    alloc: Global,
    graph: &Graph,
    labels: &mut [usize],
    work: &mut Work,
    p: usize,
    q: usize,
) -> Result<(), AllocError>
    requires labelled { Labelled graph.now labels.old }
    requires left { p < length graph.now.nodes }
    requires right { q < length graph.now.nodes }
    requires equal { Equal graph.now p q }
    ensures { OnOk result (Labelled graph.now labels.new) }
{
    let a = label_of(&*labels, p);
    let b = label_of(&*labels, q);
    if a == b {
        Ok(())
    } else if work.is_smaller(a, b) {
        move_label(alloc, graph, labels, work, a, b)
    } else {
        move_label(alloc, graph, labels, work, b, a)
    }
}

// Gives the members of the class `from` the label `to`.
fn move_label(
    alloc: Global,
    graph: &Graph,
    labels: &mut [usize],
    work: &mut Work,
    from: usize,
    to: usize,
) -> Result<(), AllocError>
    ensures { Relabelled from to labels.old labels.new }
{
    let members = work.take_members(alloc, from);
    relabel(labels, members.as_slice(), from, to);
    work.move_class(alloc, graph, &*labels, members.as_slice(), from, to)
}
