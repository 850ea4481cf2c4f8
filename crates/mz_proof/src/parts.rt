//! What trees of one form are made of.
ghost use Rattle.std.specs.Prelude.{◌≡◌};
ghost use Rattle.mz_tree_proof.specs.Reasoning.{StatedCompact, CaseSuppose, steps_of};

use mz_base::place::Place;
use mz_tree::lists::Trees;
use mz_tree_proof::equality_step::EqualityStepTree;
use mz_tree_proof::propositions::{HypothesesTree, PropositionTree};
use mz_tree_proof::reasoning::{
    CompactNode, CompactTree, JustTree, Steps, SupposeNode, SupposeTree,
};

/// What a compact statement is made of: the proposition, its justification, the further sides, and the place of the semicolon.
pub fn stated_parts(
    tree: &CompactTree,
) -> (&PropositionTree, &JustTree, &Trees<EqualityStepTree>, Place)
    ensures { tree.now ≡ StatedCompact result.0.now result.1.now result.2.now result.3 }
{
    match &tree.node {
        CompactNode::Stated(p, just, sides, semicolon) => (p, just, sides, *semicolon),
    }
}

/// What a case is made of: the places of `suppose`, of the semicolon behind what it supposes, of its `end` and of the semicolon
/// behind it; what it supposes, and its steps.
pub fn case_parts(tree: &SupposeTree) -> (Place, &HypothesesTree, Place, &Steps, Place, Place)
    ensures { tree.now ≡ CaseSuppose result.0 result.1.now result.2 (steps_of result.3.now) result.4 result.5 }
{
    match &tree.node {
        SupposeNode::Case(first, hypotheses, behind, steps, end, semicolon) => {
            (*first, hypotheses, *behind, steps, *end, *semicolon)
        }
    }
}
