//! Trees of reasonings: justifications, statements and steps.
use crate::equality_step::EqualityStepTree;
use crate::introduction::IntroductionTree;
use crate::propositions::{HypothesesTree, PropositionTree};
use crate::references::{LabelTree, SimpleTree};
use crate::skeleton::{SkeletonTree, SplitTree};
use mz_base::place::Place;
use mz_tree::lists::Trees;
use std::marker::Model;

/// A justification.
#[cycle(reasoning)]
pub struct JustTree {
    pub node: JustNode,
}

impl Drop for JustTree {
    #[cycle(drop)]
    fn drop(self) {
        let JustTree { node: _node } = self;
    }
}

/// A justification: a simple one, or a proof.
#[cycle(reasoning)]
pub enum JustNode {
    Simple(SimpleTree),
    Proof(Place, Steps, Place),
}

impl Drop for JustNode {
    #[cycle(drop)]
    fn drop(self) {
        match self {
            JustNode::Simple(_a) => (),
            JustNode::Proof(_a, _b, _c) => (),
        }
    }
}

impl Model for JustTree {
    ghost use Rattle.mz_tree_proof.specs.Reasoning.{JustData, just_size};
    ghost use Rattle.mz_tree_proof.specs.Codes.{just_code};

    ghost Value = { JustData };

    ghost coded = { just_code };

    ghost use Rattle.mz_tree_proof.specs.Views.{just_view};

    ghost view = { λ a. just_view a.node };

    ghost size = { just_size };

    ghost use Rattle.mz_tree_proof.specs.Falls.{just_falls};

    ghost size_decreases = { λ a h. just_falls a.node };
}

/// A proposition with its justification, and the further sides of an iterative equality.
#[cycle(reasoning)]
pub struct CompactTree {
    pub node: CompactNode,
}

impl Drop for CompactTree {
    #[cycle(drop)]
    fn drop(self) {
        let CompactTree { node: _node } = self;
    }
}

/// What a compact statement is made of.
#[cycle(reasoning)]
pub enum CompactNode {
    Stated(PropositionTree, Box<JustTree>, Trees<EqualityStepTree>, Place),
}

impl Drop for CompactNode {
    #[cycle(drop)]
    fn drop(self) {
        match self {
            CompactNode::Stated(_a, _b, _c, _d) => (),
        }
    }
}

impl Model for CompactTree {
    ghost use Rattle.mz_tree_proof.specs.Reasoning.{CompactData, compact_size};
    ghost use Rattle.mz_tree_proof.specs.Codes.{compact_code};

    ghost Value = { CompactData };

    ghost coded = { compact_code };

    ghost use Rattle.mz_tree_proof.specs.Views.{compact_view};

    ghost view = { λ a. compact_view a.node };

    ghost size = { compact_size };

    ghost use Rattle.mz_tree_proof.specs.Falls.{compact_falls};

    ghost size_decreases = { λ a h. compact_falls a.node };
}

/// A statement.
#[cycle(reasoning)]
pub struct StatementTree {
    pub node: StatementNode,
}

impl Drop for StatementTree {
    #[cycle(drop)]
    fn drop(self) {
        let StatementTree { node: _node } = self;
    }
}

/// A statement: a compact one, `now`, or one that names something.
#[cycle(reasoning)]
pub enum StatementNode {
    Compact(Option<Place>, Box<CompactTree>),
    Now(Option<LabelTree>, Place, Steps, Place, Place),
    Introduction(IntroductionTree),
}

impl Drop for StatementNode {
    #[cycle(drop)]
    fn drop(self) {
        match self {
            StatementNode::Compact(_a, _b) => (),
            StatementNode::Now(_a, _b, _c, _d, _e) => (),
            StatementNode::Introduction(_a) => (),
        }
    }
}

impl Model for StatementTree {
    ghost use Rattle.mz_tree_proof.specs.Reasoning.{StatementData, statement_size};
    ghost use Rattle.mz_tree_proof.specs.Codes.{statement_code};

    ghost Value = { StatementData };

    ghost coded = { statement_code };

    ghost use Rattle.mz_tree_proof.specs.Views.{statement_view};

    ghost view = { λ a. statement_view a.node };

    ghost size = { statement_size };

    ghost use Rattle.mz_tree_proof.specs.Falls.{statement_falls};

    ghost size_decreases = { λ a h. statement_falls a.node };
}

/// A step of a reasoning.
#[cycle(reasoning)]
pub struct StepTree {
    pub node: StepNode,
}

impl Drop for StepTree {
    #[cycle(drop)]
    fn drop(self) {
        let StepTree { node: _node } = self;
    }
}

/// A step: a statement, a conclusion, a step of the skeleton, or a split into cases, which only the last step may be.
#[cycle(reasoning)]
pub enum StepNode {
    Statement(Box<StatementTree>),
    Thus(Place, Box<CompactTree>),
    Hence(Place, Box<CompactTree>),
    Hereby(Place, Steps, Place, Place),
    Skeleton(SkeletonTree),
    Cases(SplitTree, Box<SupposeTree>, SupposeTrees),
}

impl Drop for StepNode {
    #[cycle(drop)]
    fn drop(self) {
        match self {
            StepNode::Statement(_a) => (),
            StepNode::Thus(_a, _b) => (),
            StepNode::Hence(_a, _b) => (),
            StepNode::Hereby(_a, _b, _c, _d) => (),
            StepNode::Skeleton(_a) => (),
            StepNode::Cases(_a, _b, _c) => (),
        }
    }
}

impl Model for StepTree {
    ghost use Rattle.mz_tree_proof.specs.Reasoning.{StepData, step_size};
    ghost use Rattle.mz_tree_proof.specs.Codes.{step_code};

    ghost Value = { StepData };

    ghost coded = { step_code };

    ghost use Rattle.mz_tree_proof.specs.Views.{step_view};

    ghost view = { λ a. step_view a.node };

    ghost size = { step_size };

    ghost use Rattle.mz_tree_proof.specs.Falls.{step_falls};

    ghost size_decreases = { λ a h. step_falls a.node };
}

/// A case: what it supposes, and its reasoning.
#[cycle(reasoning)]
pub struct SupposeTree {
    pub node: SupposeNode,
}

impl Drop for SupposeTree {
    #[cycle(drop)]
    fn drop(self) {
        let SupposeTree { node: _node } = self;
    }
}

/// What a case is made of.
#[cycle(reasoning)]
pub enum SupposeNode {
    Case(Place, HypothesesTree, Place, Steps, Place, Place),
}

impl Drop for SupposeNode {
    #[cycle(drop)]
    fn drop(self) {
        match self {
            SupposeNode::Case(_a, _b, _c, _d, _e, _f) => (),
        }
    }
}

impl Model for SupposeTree {
    ghost use Rattle.mz_tree_proof.specs.Reasoning.{SupposeData, suppose_size};
    ghost use Rattle.mz_tree_proof.specs.Codes.{suppose_code};

    ghost Value = { SupposeData };

    ghost coded = { suppose_code };

    ghost use Rattle.mz_tree_proof.specs.Views.{suppose_view};

    ghost view = { λ a. suppose_view a.node };

    ghost size = { suppose_size };

    ghost use Rattle.mz_tree_proof.specs.Falls.{suppose_falls};

    ghost size_decreases = { λ a h. suppose_falls a.node };
}

/// Steps, in order: a whole reasoning.
#[cycle(reasoning)]
pub struct Steps {
    pub items: Vec<StepTree>,
}

impl Drop for Steps {
    #[cycle(drop)]
    fn drop(self) {
        let Steps { items: _items } = self;
    }
}

impl Model for Steps {
    ghost use Rattle.std.specs.Prelude.{List};
    ghost use Rattle.std.proofs.Common.{arith};
    ghost use Rattle.std.specs.Coded.{coded_list};
    ghost use Rattle.mz_tree_proof.specs.Reasoning.{StepData, step_sizes, most_le-step_sizes};
    ghost use Rattle.mz_tree_proof.specs.Codes.{step_code};

    ghost Value = { List StepData };

    ghost coded = { coded_list step_code };

    ghost view = { λ a. a.items.items };

    ghost size = { step_sizes };

    ghost size_decreases = { λ a h. omega (arith, most_le-step_sizes a.items.items) };
}

/// Cases, in order.
#[cycle(reasoning)]
pub struct SupposeTrees {
    pub items: Vec<SupposeTree>,
}

impl Drop for SupposeTrees {
    #[cycle(drop)]
    fn drop(self) {
        let SupposeTrees { items: _items } = self;
    }
}

impl Model for SupposeTrees {
    ghost use Rattle.std.specs.Prelude.{List};
    ghost use Rattle.std.proofs.Common.{arith};
    ghost use Rattle.std.specs.Coded.{coded_list};
    ghost use Rattle.mz_tree_proof.specs.Reasoning.{SupposeData, suppose_sizes, most_le-suppose_sizes};
    ghost use Rattle.mz_tree_proof.specs.Codes.{suppose_code};

    ghost Value = { List SupposeData };

    ghost coded = { coded_list suppose_code };

    ghost view = { λ a. a.items.items };

    ghost size = { suppose_sizes };

    ghost size_decreases = { λ a h. omega (arith, most_le-suppose_sizes a.items.items) };
}
