//! Statements that introduce names: `consider`, `reconsider`, `set`, `deffunc` and `defpred`.
ghost use Rattle.std.specs.Prelude.{◌≡◌, ◌++◌, IfOk, ◌∷◌, [], codes};
ghost use Rattle.mz_tree_proof.specs.Spell.{spell_named_term, spell_retyped, spell_consider, spell_reconsider, spell_set, spell_deffunc, spell_defpred, spell_introduction};
ghost use Rattle.mz_tree.specs.Lists.{spell_separated};
ghost use Rattle.mz_tree.specs.Spell.{spell_type};
ghost use Rattle.mz_tree.specs.Spelled.{identifier, special, maybe, reserved};

use crate::tree::Spell;
use mz_base::place::Place;
use mz_base::token::MarkedToken;
use mz_expression_spelling::emit::{
    emit_equals_sign, emit_identifier, emit_reserved, emit_reserved_if, emit_special,
};
use mz_tree::expressions::TypeTree;
use mz_tree::lists::Separated;
use mz_tree::word::Word;
use mz_tree_proof::introduction::{
    ConsiderTree, DeffuncTree, DefpredTree, IntroductionTree, NamedTermTree, ReconsiderTree,
    RetypedTree, SetTree,
};
use std::alloc::{AllocError, Global};

impl Spell for NamedTermTree {
    ghost spelled = { spell_named_term };

    fn spell(&self, alloc: Global, out: &mut Vec<MarkedToken>) -> Result<(), AllocError> {
        emit_identifier(alloc, out, &self.name)?;
        emit_equals_sign(alloc, out, self.equals)?;
        self.term.spell(alloc, out)
    }
}

impl Spell for RetypedTree {
    ghost spelled = { spell_retyped };

    fn spell(&self, alloc: Global, out: &mut Vec<MarkedToken>) -> Result<(), AllocError> {
        match self {
            RetypedTree::Itself(name) => emit_identifier(alloc, out, name),
            RetypedTree::Named(named) => named.spell(alloc, out),
        }
    }
}

impl Spell for ConsiderTree {
    ghost spelled = { spell_consider };

    fn spell(&self, alloc: Global, out: &mut Vec<MarkedToken>) -> Result<(), AllocError> {
        emit_reserved_if(alloc, out, self.then, b"then")?;
        emit_reserved(alloc, out, self.consider, b"consider")?;
        self.declarations.spell(alloc, out)?;
        self.such.spell(alloc, out)?;
        self.simple.spell(alloc, out)?;
        emit_special(alloc, out, self.semicolon, b";")
    }
}

impl Spell for ReconsiderTree {
    ghost spelled = { spell_reconsider };

    fn spell(&self, alloc: Global, out: &mut Vec<MarkedToken>) -> Result<(), AllocError> {
        emit_reserved_if(alloc, out, self.then, b"then")?;
        emit_reserved(alloc, out, self.reconsider, b"reconsider")?;
        self.retyped.spell(alloc, out)?;
        emit_reserved(alloc, out, self.as_, b"as")?;
        self.ty.spell(alloc, out)?;
        self.simple.spell(alloc, out)?;
        emit_special(alloc, out, self.semicolon, b";")
    }
}

impl Spell for SetTree {
    ghost spelled = { spell_set };

    fn spell(&self, alloc: Global, out: &mut Vec<MarkedToken>) -> Result<(), AllocError> {
        emit_reserved(alloc, out, self.set, b"set")?;
        self.named.spell(alloc, out)?;
        emit_special(alloc, out, self.semicolon, b";")
    }
}

/// Adds a name, and types between brackets behind it.
#[tactic(auto, using(std::proofs::Common::append_assoc))]
fn emit_pattern(
    alloc: Global,
    out: &mut Vec<MarkedToken>,
    name: &Word,
    left: Place,
    left_sign: &[u8],
    types: &Option<Separated<TypeTree>>,
    right: Place,
    right_sign: &[u8],
) -> Result<(), AllocError>
    ensures { IfOk result (λ _. out.new.items ≡ out.old.items ++ identifier name.now ∷ special left left_sign.now ∷ maybe (spell_separated spell_type) types.now ++ special right right_sign.now ∷ []) }
{
    emit_identifier(alloc, out, name)?;
    emit_special(alloc, out, left, left_sign)?;
    types.spell(alloc, out)?;
    emit_special(alloc, out, right, right_sign)
}

/// Adds its tokens up to the `)`.
#[tactic(auto, using(std::proofs::Common::append_assoc))]
fn emit_deffunc(
    alloc: Global,
    out: &mut Vec<MarkedToken>,
    tree: &DeffuncTree,
) -> Result<(), AllocError>
    ensures { IfOk result (λ _. out.new.items ≡ out.old.items ++ reserved tree.now.deffunc (codes "deffunc") ∷ identifier tree.now.name ∷ special tree.now.left (codes "(") ∷ maybe (spell_separated spell_type) tree.now.types ++ special tree.now.right (codes ")") ∷ []) }
{
    emit_reserved(alloc, out, tree.deffunc, b"deffunc")?;
    emit_pattern(
        alloc,
        out,
        &tree.name,
        tree.left,
        b"(",
        &tree.types,
        tree.right,
        b")",
    )
}

impl Spell for DeffuncTree {
    ghost spelled = { spell_deffunc };

    fn spell(&self, alloc: Global, out: &mut Vec<MarkedToken>) -> Result<(), AllocError> {
        emit_deffunc(alloc, out, self)?;
        emit_equals_sign(alloc, out, self.equals)?;
        self.term.spell(alloc, out)?;
        emit_special(alloc, out, self.semicolon, b";")
    }
}

/// Adds its tokens up to the `]`.
#[tactic(auto, using(std::proofs::Common::append_assoc))]
fn emit_defpred(
    alloc: Global,
    out: &mut Vec<MarkedToken>,
    tree: &DefpredTree,
) -> Result<(), AllocError>
    ensures { IfOk result (λ _. out.new.items ≡ out.old.items ++ reserved tree.now.defpred (codes "defpred") ∷ identifier tree.now.name ∷ special tree.now.left (codes "[") ∷ maybe (spell_separated spell_type) tree.now.types ++ special tree.now.right (codes "]") ∷ []) }
{
    emit_reserved(alloc, out, tree.defpred, b"defpred")?;
    emit_pattern(
        alloc,
        out,
        &tree.name,
        tree.left,
        b"[",
        &tree.types,
        tree.right,
        b"]",
    )
}

impl Spell for DefpredTree {
    ghost spelled = { spell_defpred };

    fn spell(&self, alloc: Global, out: &mut Vec<MarkedToken>) -> Result<(), AllocError> {
        emit_defpred(alloc, out, self)?;
        emit_reserved(alloc, out, self.means, b"means")?;
        self.formula.spell(alloc, out)?;
        emit_special(alloc, out, self.semicolon, b";")
    }
}

impl Spell for IntroductionTree {
    ghost spelled = { spell_introduction };

    fn spell(&self, alloc: Global, out: &mut Vec<MarkedToken>) -> Result<(), AllocError> {
        match self {
            IntroductionTree::Consider(tree) => tree.spell(alloc, out),
            IntroductionTree::Reconsider(tree) => tree.spell(alloc, out),
            IntroductionTree::Set(tree) => tree.spell(alloc, out),
            IntroductionTree::Deffunc(tree) => tree.spell(alloc, out),
            IntroductionTree::Defpred(tree) => tree.spell(alloc, out),
        }
    }
}
