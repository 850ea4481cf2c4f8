//! The places of the first tokens of propositions, statements and steps.
ghost use Rattle.std.specs.Prelude.{◌≡◌, Some};
ghost use Rattle.mz_tree.specs.Places.{first_place};
ghost use Rattle.mz_tree_proof.specs.Spell.{spell_proposition, spell_introduction, spell_skeleton, spell_split};
ghost use Rattle.mz_tree_proof.specs.SpellReasoning.{spell_compact, spell_statement, spell_step};

use crate::introduction::IntroductionTree;
use crate::propositions::PropositionTree;
use crate::reasoning::{
    CompactNode, CompactTree, StatementNode, StatementTree, StepNode, StepTree,
};
use crate::skeleton::{SkeletonTree, SplitTree};
use mz_base::place::Place;
use mz_tree::places::place_or;

impl PropositionTree {
    /// The place of its first token.
    #[tactic(auto, using(crate::proofs::PlaceLemmas::place_rules))]
    pub fn first_place(&self) -> Place
        ensures { first_place (spell_proposition self.now) ≡ Some result }
    {
        match &self.label {
            Some(label) => label.name.place,
            None => self.formula.first_place(),
        }
    }
}

impl IntroductionTree {
    /// The place of its first token.
    #[tactic(auto, using(crate::proofs::PlaceLemmas::place_rules))]
    pub fn first_place(&self) -> Place
        ensures { first_place (spell_introduction self.now) ≡ Some result }
    {
        match self {
            IntroductionTree::Consider(a) => place_or(a.then, a.consider),
            IntroductionTree::Reconsider(a) => place_or(a.then, a.reconsider),
            IntroductionTree::Set(a) => a.set,
            IntroductionTree::Deffunc(a) => a.deffunc,
            IntroductionTree::Defpred(a) => a.defpred,
        }
    }
}

impl SkeletonTree {
    /// The place of its first token.
    #[tactic(auto, using(crate::proofs::PlaceLemmas::place_rules))]
    pub fn first_place(&self) -> Place
        ensures { first_place (spell_skeleton self.now) ≡ Some result }
    {
        match self {
            SkeletonTree::Let(a) => a.let_,
            SkeletonTree::Assume(a) => a.assume,
            SkeletonTree::Given(a) => a.given,
            SkeletonTree::Take(a) => a.take,
        }
    }
}

impl SplitTree {
    /// The place of its first token.
    #[tactic(auto, using(crate::proofs::PlaceLemmas::place_rules))]
    pub fn first_place(&self) -> Place
        ensures { first_place (spell_split self.now) ≡ Some result }
    {
        place_or(self.then, self.per)
    }
}

impl CompactTree {
    /// The place of its first token.
    #[tactic(auto, using(crate::proofs::PlaceLemmas::place_rules))]
    pub fn first_place(&self) -> Place
        ensures { first_place (spell_compact self.now) ≡ Some result }
    {
        match &self.node {
            CompactNode::Stated(a, _, _, _) => a.first_place(),
        }
    }
}

impl StatementTree {
    /// The place of its first token.
    #[tactic(auto, using(crate::proofs::PlaceLemmas::place_rules))]
    pub fn first_place(&self) -> Place
        ensures { first_place (spell_statement self.now) ≡ Some result }
    {
        match &self.node {
            StatementNode::Compact(a, b) => match a {
                Some(place) => *place,
                None => b.first_place(),
            },
            StatementNode::Now(a, b, _, _, _) => match a {
                Some(label) => label.name.place,
                None => *b,
            },
            StatementNode::Introduction(a) => a.first_place(),
        }
    }
}

impl StepTree {
    /// The place of its first token.
    #[tactic(auto, using(crate::proofs::PlaceLemmas::place_rules))]
    pub fn first_place(&self) -> Place
        ensures { first_place (spell_step self.now) ≡ Some result }
    {
        match &self.node {
            StepNode::Statement(a) => a.first_place(),
            StepNode::Thus(a, _) => *a,
            StepNode::Hence(a, _) => *a,
            StepNode::Hereby(a, _, _, _) => *a,
            StepNode::Skeleton(a) => a.first_place(),
            StepNode::Cases(a, _, _) => a.first_place(),
        }
    }
}
