//! Copies of reasonings.
ghost use Rattle.std.specs.Prelude.{◌≡◌, IfOk};

use crate::tree::Copied;
use mz_tree_proof::reasoning::{
    CompactNode, CompactTree, JustNode, JustTree, StatementNode, StatementTree, StepNode, StepTree,
    Steps, SupposeNode, SupposeTree, SupposeTrees,
};
use std::alloc::{AllocError, Global};

/// An equal tree.
#[cycle(copy)]
fn copy_just(alloc: Global, just: &JustTree) -> Result<JustTree, AllocError>
    ensures { IfOk result (λ t. t ≡ just.now) }
{
    match &just.node {
        JustNode::Simple(a) => {
            let a = a.copy(alloc)?;
            let node = JustNode::Simple(a);
            Ok(JustTree { node })
        }
        JustNode::Proof(a, b, c) => {
            let b = copy_steps(alloc, b)?;
            let node = JustNode::Proof(*a, b, *c);
            Ok(JustTree { node })
        }
    }
}

#[cycle(copy)]
fn boxed_just(alloc: Global, just: &JustTree) -> Result<Box<JustTree>, AllocError>
    ensures { IfOk result (λ b. b.value ≡ just.now) }
{
    let copy = copy_just(alloc, just)?;
    let boxed = Box::new(alloc, copy)?;
    Ok(boxed)
}

/// An equal tree.
#[cycle(copy)]
fn copy_compact(alloc: Global, compact: &CompactTree) -> Result<CompactTree, AllocError>
    ensures { IfOk result (λ t. t ≡ compact.now) }
{
    match &compact.node {
        CompactNode::Stated(a, b, c, d) => {
            let b = boxed_just(alloc, b)?;
            let c = c.copy(alloc)?;
            let a = a.copy(alloc)?;
            let node = CompactNode::Stated(a, b, c, *d);
            Ok(CompactTree { node })
        }
    }
}

#[cycle(copy)]
fn boxed_compact(alloc: Global, compact: &CompactTree) -> Result<Box<CompactTree>, AllocError>
    ensures { IfOk result (λ b. b.value ≡ compact.now) }
{
    let copy = copy_compact(alloc, compact)?;
    let boxed = Box::new(alloc, copy)?;
    Ok(boxed)
}

/// An equal tree.
#[cycle(copy)]
fn copy_statement(alloc: Global, statement: &StatementTree) -> Result<StatementTree, AllocError>
    ensures { IfOk result (λ t. t ≡ statement.now) }
{
    match &statement.node {
        StatementNode::Compact(a, b) => {
            let b = boxed_compact(alloc, b)?;
            let node = StatementNode::Compact(*a, b);
            Ok(StatementTree { node })
        }
        StatementNode::Now(a, b, c, d, e) => {
            let a = a.copy(alloc)?;
            let c = copy_steps(alloc, c)?;
            let node = StatementNode::Now(a, *b, c, *d, *e);
            Ok(StatementTree { node })
        }
        StatementNode::Introduction(a) => {
            let a = a.copy(alloc)?;
            let node = StatementNode::Introduction(a);
            Ok(StatementTree { node })
        }
    }
}

#[cycle(copy)]
fn boxed_statement(
    alloc: Global,
    statement: &StatementTree,
) -> Result<Box<StatementTree>, AllocError>
    ensures { IfOk result (λ b. b.value ≡ statement.now) }
{
    let copy = copy_statement(alloc, statement)?;
    let boxed = Box::new(alloc, copy)?;
    Ok(boxed)
}

/// An equal tree.
#[cycle(copy)]
fn copy_step(alloc: Global, step: &StepTree) -> Result<StepTree, AllocError>
    ensures { IfOk result (λ t. t ≡ step.now) }
{
    match &step.node {
        StepNode::Statement(a) => {
            let a = boxed_statement(alloc, a)?;
            let node = StepNode::Statement(a);
            Ok(StepTree { node })
        }
        StepNode::Thus(a, b) => {
            let b = boxed_compact(alloc, b)?;
            let node = StepNode::Thus(*a, b);
            Ok(StepTree { node })
        }
        StepNode::Hence(a, b) => {
            let b = boxed_compact(alloc, b)?;
            let node = StepNode::Hence(*a, b);
            Ok(StepTree { node })
        }
        StepNode::Hereby(a, b, c, d) => {
            let b = copy_steps(alloc, b)?;
            let node = StepNode::Hereby(*a, b, *c, *d);
            Ok(StepTree { node })
        }
        StepNode::Skeleton(a) => {
            let a = a.copy(alloc)?;
            let node = StepNode::Skeleton(a);
            Ok(StepTree { node })
        }
        StepNode::Cases(a, b, c) => {
            let b = boxed_suppose(alloc, b)?;
            let c = copy_supposes(alloc, c)?;
            let a = a.copy(alloc)?;
            let node = StepNode::Cases(a, b, c);
            Ok(StepTree { node })
        }
    }
}

/// An equal tree.
#[cycle(copy)]
fn copy_suppose(alloc: Global, suppose: &SupposeTree) -> Result<SupposeTree, AllocError>
    ensures { IfOk result (λ t. t ≡ suppose.now) }
{
    match &suppose.node {
        SupposeNode::Case(a, b, c, d, e, f) => {
            let d = copy_steps(alloc, d)?;
            let b = b.copy(alloc)?;
            let node = SupposeNode::Case(*a, b, *c, d, *e, *f);
            Ok(SupposeTree { node })
        }
    }
}

#[cycle(copy)]
fn boxed_suppose(alloc: Global, suppose: &SupposeTree) -> Result<Box<SupposeTree>, AllocError>
    ensures { IfOk result (λ b. b.value ≡ suppose.now) }
{
    let copy = copy_suppose(alloc, suppose)?;
    let boxed = Box::new(alloc, copy)?;
    Ok(boxed)
}

/// An equal list.
#[cycle(copy)]
fn copy_steps(alloc: Global, steps: &Steps) -> Result<Steps, AllocError>
    ensures { IfOk result (λ ts. ts ≡ steps.now) }
{
    let mut out = Vec::new(alloc);
    for t in &steps.items {
        out.push(copy_step(alloc, t)?)?;
    }
    Ok(Steps { items: out })
}

/// An equal list.
#[cycle(copy)]
fn copy_supposes(alloc: Global, supposes: &SupposeTrees) -> Result<SupposeTrees, AllocError>
    ensures { IfOk result (λ ts. ts ≡ supposes.now) }
{
    let mut out = Vec::new(alloc);
    for t in &supposes.items {
        out.push(copy_suppose(alloc, t)?)?;
    }
    Ok(SupposeTrees { items: out })
}

impl Copied for JustTree {
    fn copy(&self, alloc: Global) -> Result<JustTree, AllocError> {
        copy_just(alloc, self)
    }
}

impl Copied for CompactTree {
    fn copy(&self, alloc: Global) -> Result<CompactTree, AllocError> {
        copy_compact(alloc, self)
    }
}

impl Copied for StatementTree {
    fn copy(&self, alloc: Global) -> Result<StatementTree, AllocError> {
        copy_statement(alloc, self)
    }
}

impl Copied for StepTree {
    fn copy(&self, alloc: Global) -> Result<StepTree, AllocError> {
        copy_step(alloc, self)
    }
}

impl Copied for SupposeTree {
    fn copy(&self, alloc: Global) -> Result<SupposeTree, AllocError> {
        copy_suppose(alloc, self)
    }
}

impl Copied for Steps {
    fn copy(&self, alloc: Global) -> Result<Steps, AllocError> {
        copy_steps(alloc, self)
    }
}

impl Copied for SupposeTrees {
    fn copy(&self, alloc: Global) -> Result<SupposeTrees, AllocError> {
        copy_supposes(alloc, self)
    }
}
