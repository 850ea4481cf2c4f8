//! Closed terms, atoms and equations put into a ground part.
ghost use Rattle.std.specs.Prelude.{List, map, OnOk};
ghost use Rattle.mz_logic.specs.Formula.{Eq, Atom};
ghost use Rattle.mz_logic.specs.Literal.{literal_formula};
ghost use Rattle.mz_logic.specs.Term.{Term};
ghost use Rattle.mz_logic.specs.Substitution.{substitute, value_at};
ghost use Rattle.mz_ground.specs.Instance.{literal_at};
ghost use Rattle.mz_ground.specs.Growth.{IsNumbered, ReadsIn, Grows, IsExpressionOf, IsExpressionOfLiterals, IsExpressionOfFormulas};

use crate::ground_atom::GroundAtom;
use crate::ground_equation::GroundEquation;
use crate::ground_part::Ground;
use mz_logic::formula::{Formula, FormulaNode};
use mz_logic::formulas::Formulas;
use mz_logic::literal::Literal;
use mz_logic::literals::Literals;
use mz_logic::sym::Sym;
use mz_logic::term::{Term, Terms};
use std::alloc::{AllocError, Global};

const MOST_ATOMS: usize = 16384;

impl Ground {
    /// Puts what has no index in the formulas into the ground part.
    #[tactic(auto, using(crate::proofs::ExpressionLemmas::formulas_rules))]
    pub(crate) fn add_formulas(&mut self, alloc: Global, fs: &Formulas) -> Result<(), AllocError>
        ensures { OnOk result (IsNumbered self.old → Grows self.old (IsExpressionOfFormulas fs.now) self.new) }
    {
        for f in &fs.items {
            self.add_formula(alloc, f)?;
        }
        Ok(())
    }

    /// Puts what has no index in the formula into the ground part.
    #[tactic(auto, using(crate::proofs::ExpressionLemmas::formula_rules))]
    pub(crate) fn add_formula(&mut self, alloc: Global, f: &Formula) -> Result<(), AllocError>
        ensures { OnOk result (IsNumbered self.old → Grows self.old (IsExpressionOf f.now) self.new) }
    {
        match &f.node {
            FormulaNode::Truth => Ok(()),
            FormulaNode::Eq(t, u) => {
                self.add_equation(alloc, &[], t, u)?;
                Ok(())
            }
            FormulaNode::Atom(s, ts) => {
                self.add_atom(alloc, &[], *s, ts)?;
                Ok(())
            }
            FormulaNode::Not(g) => {
                self.add_formula(alloc, g)?;
                Ok(())
            }
            FormulaNode::And(g, h) => {
                self.add_formula(alloc, g)?;
                self.add_formula(alloc, h)?;
                Ok(())
            }
            FormulaNode::All(g) => {
                self.add_formula(alloc, g)?;
                Ok(())
            }
        }
    }

    /// Puts what has no index in the literals into the ground part, where the terms at the places `args` stand
    /// for the indices from 0 on.
    #[tactic(auto, using(crate::proofs::ExpressionLemmas::literals_rules))]
    pub(crate) fn add_literals(
        &mut self,
        alloc: Global,
        args: &[usize],
        ls: &Literals,
    ) -> Result<(), AllocError>
        ensures { OnOk result ((ts : List Term) → ReadsIn self.old args.now ts → Grows self.old (IsExpressionOfLiterals (map (literal_at ts) ls.now)) self.new) }
    {
        for item in &ls.items {
            self.add_literal(alloc, args, item)?;
        }
        Ok(())
    }

    /// Puts what has no index in the literal into the ground part, where the terms at the places `args` stand for
    /// the indices from 0 on.
    #[tactic(auto, using(crate::proofs::ExpressionLemmas::literal_rules))]
    pub(crate) fn add_literal(
        &mut self,
        alloc: Global,
        args: &[usize],
        l: &Literal,
    ) -> Result<(), AllocError>
        ensures { OnOk result ((ts : List Term) → ReadsIn self.old args.now ts → Grows self.old (IsExpressionOf (literal_formula (literal_at ts l.now))) self.new) }
    {
        match l {
            Literal::Atom {
                positive: _,
                sym,
                args: us,
            } => {
                self.add_atom(alloc, args, *sym, us)?;
                Ok(())
            }
            Literal::Eq {
                positive: _,
                left,
                right,
            } => {
                self.add_equation(alloc, args, left, right)?;
                Ok(())
            }
        }
    }

    // More atoms than the limit are refused, so that none is stored past it.
    #[tactic(auto, using(crate::proofs::ExpressionLemmas::atom_rules))]
    fn add_atom(
        &mut self,
        alloc: Global,
        args: &[usize],
        sym: Sym,
        us: &Terms,
    ) -> Result<(), AllocError>
        ensures { OnOk result ((ts : List Term) → ReadsIn self.old args.now ts → Grows self.old (IsExpressionOf (Atom sym (map (substitute 0 (value_at ts)) us.now))) self.new) }
    {
        match self.terms.add_all(alloc, args, us)? {
            Some(places) => {
                if self.atoms.len() > MOST_ATOMS {
                    return Ok(());
                }
                self.atoms.place(GroundAtom { sym, args: places })?;
                Ok(())
            }
            None => Ok(()),
        }
    }

    #[tactic(auto, using(crate::proofs::ExpressionLemmas::equation_rules))]
    fn add_equation(
        &mut self,
        alloc: Global,
        args: &[usize],
        t: &Term,
        u: &Term,
    ) -> Result<(), AllocError>
        ensures { OnOk result ((ts : List Term) → ReadsIn self.old args.now ts → Grows self.old (IsExpressionOf (Eq (substitute 0 (value_at ts) t.now) (substitute 0 (value_at ts) u.now))) self.new) }
    {
        let left = self.terms.add(alloc, args, t)?;
        let right = self.terms.add(alloc, args, u)?;
        match (left, right) {
            (Some(left), Some(right)) => {
                self.equations.place(GroundEquation { left, right })?;
                Ok(())
            }
            _ => Ok(()),
        }
    }
}
