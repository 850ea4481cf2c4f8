//! Classes of nodes by labels: nodes with one label are in one class.
ghost use Rattle.std.specs.Prelude.{◌≡◌, ◌<◌, length, map, slice_index, IsTrue};
ghost use Rattle.std.specs.List.{list_all};
ghost use Rattle.mz_congruence.specs.Congruence.{Equal};
ghost use Rattle.mz_congruence.specs.Closing.{same, IsWithin};
ghost use Rattle.mz_classes.specs.Labels.{Labelled, Relabelled};

use mz_congruence::graph::{Graph, Node, Pair};

/// The label of a number.
pub fn label_of(labels: &[usize], i: usize) -> usize
    ensures { result ≡ slice_index labels.now i }
{
    if i < labels.len() { labels[i] } else { 0 }
}

#[tactic(auto, using(crate::proofs::LabelLemmas::relabel_rules))]
fn relabel_one(labels: &mut [usize], i: usize, from: usize, to: usize)
    ensures { Relabelled from to labels.old labels.new }
{
    if i < labels.len() && labels[i] == from {
        labels[i] = to;
    }
}

/// Gives those of the numbers that have the label `from` the label `to`.
#[tactic(auto, using(crate::proofs::LabelLemmas::relabel_rules))]
pub fn relabel(labels: &mut [usize], numbers: &[usize], from: usize, to: usize)
    ensures { Relabelled from to labels.old labels.new }
{
    for i in numbers {
        relabel_one(labels, *i, from, to);
    }
}

/// Whether the sides of a pair have one label.
pub fn is_same(labels: &[usize], p: Pair) -> bool
    ensures { result ≡ same (slice_index labels.now) p }
{
    label_of(labels, p.left) == label_of(labels, p.right)
}

/// Whether the sides of each pair do.
pub fn all_same(labels: &[usize], ps: &[Pair]) -> bool
    ensures { result ≡ list_all (same (slice_index labels.now)) ps.now }
{
    for p in ps {
        if !is_same(labels, *p) {
            return false;
        }
    }
    true
}

// Whether the numbers of two lists have the same labels, one by one.
fn have_same_labels(labels: &[usize], xs: &[usize], ys: &[usize]) -> bool
    ensures { IsTrue result → map (slice_index labels.now) xs.now ≡ map (slice_index labels.now) ys.now }
{
    if xs.len() != ys.len() {
        return false;
    }
    for i in 0..xs.len() {
        if label_of(labels, xs[i]) != label_of(labels, ys[i]) {
            return false;
        }
    }
    true
}

fn have_one_head(a: &Node, b: &Node) -> bool
    ensures { IsTrue result → a.now.head ≡ b.now.head }
{
    a.head == b.head
}

/// Whether two nodes have one head and arguments with the same labels: then they are equal.
pub fn are_congruent(graph: &Graph, labels: &[usize], i: usize, j: usize) -> bool
    requires within { IsWithin graph.now }
    requires labelled { Labelled graph.now labels.now }
    requires left { i < length graph.now.nodes }
    requires right { j < length graph.now.nodes }
    ensures { IsTrue result → Equal graph.now i j }
{
    let a = graph.nodes.get(i);
    let b = graph.nodes.get(j);
    have_one_head(a, b) && have_same_labels(labels, a.args.as_slice(), b.args.as_slice())
}
