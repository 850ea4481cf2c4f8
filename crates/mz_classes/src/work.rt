//! The tables by which the closing finds what to do: members, uses and watched premises of each class, the premises
//! that each rule still lacks, the signatures that were met, and a list of steps to try. A step that is tried is tested
//! first, and what no step finds is found by the passes that follow: so nothing rests on these tables but time.
use crate::labels::{is_same, label_of};
use crate::lists::Lists;
use mz_congruence::graph::{Graph, Node, Pair};
use mz_congruence::signature::push_head;
use mz_congruence::signatures::Signatures;
use std::alloc::{AllocError, Global};

/// A step to try: two nodes that may be congruent, or a rule whose premises may hold, by their numbers.
#[derive(Clone, Copy, Debug, PartialEq, Eq)]
pub enum Step {
    Congruent(usize, usize),
    Rule(usize),
}

/// A premise: its rule, the nodes that it makes equal, and whether they were seen to be equal.
#[derive(Clone, Copy, Debug, PartialEq, Eq)]
struct Premise {
    rule: usize,
    pair: Pair,
    met: bool,
}

/// Members, uses and watched premises by the label of their class, and the steps that are left.
#[derive(Drop)]
pub struct Work {
    members: Lists,
    uses: Lists,
    watched: Lists,
    premises: Vec<Premise>,
    lacking: Vec<usize>,
    signatures: Signatures,
    pending: Vec<Step>,
}

impl Work {
    /// The tables of a graph whose nodes have these labels, each its own.
    pub fn new(alloc: Global, graph: &Graph, labels: &[usize]) -> Result<Work, AllocError> {
        let count = graph.nodes.len();
        let mut work = Work {
            members: Lists::new(alloc, count)?,
            uses: Lists::new(alloc, count)?,
            watched: Lists::new(alloc, count)?,
            premises: Vec::new(alloc),
            lacking: Vec::new(alloc),
            signatures: Signatures::new(alloc),
            pending: Vec::new(alloc),
        };
        for i in 0..count {
            work.add_node(alloc, labels, i, graph.nodes.get(i))?;
        }
        for k in 0..graph.rules.len() {
            work.add_rule(k, graph.rules.get(k).premises.as_slice())?;
        }
        Ok(work)
    }

    fn add_node(
        &mut self,
        alloc: Global,
        labels: &[usize],
        i: usize,
        node: &Node,
    ) -> Result<(), AllocError> {
        self.members.push(i, i)?;
        for arg in node.args.as_slice() {
            self.uses.push(*arg, i)?;
        }
        self.enter(alloc, labels, i, node)
    }

    fn add_rule(&mut self, k: usize, premises: &[Pair]) -> Result<(), AllocError> {
        let mut lacking = 0;
        for pair in premises {
            if pair.left != pair.right {
                self.watch(k, *pair)?;
                lacking = more(lacking);
            }
        }
        self.lacking.push(lacking)?;
        if lacking == 0 {
            self.pending.push(Step::Rule(k))?;
        }
        Ok(())
    }

    fn watch(&mut self, rule: usize, pair: Pair) -> Result<(), AllocError> {
        let number = self.premises.len();
        self.premises.push(Premise {
            rule,
            pair,
            met: false,
        })?;
        self.watched.push(pair.left, number)?;
        self.watched.push(pair.right, number)
    }

    /// A step that is left.
    pub fn next(&mut self) -> Option<Step> {
        self.pending.pop()
    }

    /// Whether the class with the label `a` has no more members than the one with the label `b`.
    pub fn is_smaller(&self, a: usize, b: usize) -> bool {
        self.members.len_at(a) <= self.members.len_at(b)
    }

    /// Empties the list of the members of a class, and answers what it had.
    pub fn take_members(&mut self, alloc: Global, label: usize) -> Vec<usize> {
        self.members.take(alloc, label)
    }

    /// Moves what the tables have for `from` to `to`, where the members had the label `from` and have the label `to` now.
    pub fn move_class(
        &mut self,
        alloc: Global,
        graph: &Graph,
        labels: &[usize],
        members: &[usize],
        from: usize,
        to: usize,
    ) -> Result<(), AllocError> {
        for member in members {
            self.members.push(to, *member)?;
        }
        self.move_uses(alloc, graph, labels, from, to)?;
        self.move_watched(alloc, labels, from, to)
    }

    fn move_uses(
        &mut self,
        alloc: Global,
        graph: &Graph,
        labels: &[usize],
        from: usize,
        to: usize,
    ) -> Result<(), AllocError> {
        let uses = self.uses.take(alloc, from);
        for i in &uses {
            if *i < graph.nodes.len() {
                self.enter(alloc, labels, *i, graph.nodes.get(*i))?;
            }
            self.uses.push(to, *i)?;
        }
        Ok(())
    }

    // Enters the signature that a node has now; a node that has it already may be congruent to it.
    fn enter(
        &mut self,
        alloc: Global,
        labels: &[usize],
        i: usize,
        node: &Node,
    ) -> Result<(), AllocError> {
        let signature = signature_of(alloc, labels, node)?;
        match self.signatures.find(signature.as_slice()) {
            Some(j) => {
                if label_of(labels, i) != label_of(labels, j) {
                    self.pending.push(Step::Congruent(i, j))?;
                }
                Ok(())
            }
            None => self.signatures.insert(signature, i),
        }
    }

    fn move_watched(
        &mut self,
        alloc: Global,
        labels: &[usize],
        from: usize,
        to: usize,
    ) -> Result<(), AllocError> {
        let watched = self.watched.take(alloc, from);
        for number in &watched {
            if !self.is_met(*number) {
                if self.now_holds(labels, *number) {
                    self.meet(*number)?;
                } else {
                    self.watched.push(to, *number)?;
                }
            }
        }
        Ok(())
    }

    fn is_met(&self, number: usize) -> bool {
        match self.premises.get(number) {
            Some(premise) => premise.met,
            None => true,
        }
    }

    fn now_holds(&self, labels: &[usize], number: usize) -> bool {
        match self.premises.get(number) {
            Some(premise) => is_same(labels, premise.pair),
            None => false,
        }
    }

    // Counts a premise as met; a rule that lacks no premise now may be applied.
    fn meet(&mut self, number: usize) -> Result<(), AllocError> {
        if let Some(premise) = self.premises.get_mut(number) {
            premise.met = true;
            let rule = premise.rule;
            self.lack_less(rule)?;
        }
        Ok(())
    }

    fn lack_less(&mut self, rule: usize) -> Result<(), AllocError> {
        if let Some(lacking) = self.lacking.get_mut(rule) {
            *lacking = lacking.saturating_sub(1);
            if *lacking == 0 {
                self.pending.push(Step::Rule(rule))?;
            }
        }
        Ok(())
    }
}

fn more(count: usize) -> usize {
    count.saturating_add(1)
}

/// The head of a node and the labels of its arguments.
fn signature_of(alloc: Global, labels: &[usize], node: &Node) -> Result<Vec<usize>, AllocError> {
    let mut out = Vec::new(alloc);
    push_head(&mut out, node.head)?;
    for arg in node.args.as_slice() {
        out.push(label_of(labels, *arg))?;
    }
    Ok(out)
}
