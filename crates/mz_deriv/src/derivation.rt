//! Derivations.
ghost use Rattle.std.specs.Prelude.{◌≡◌, ◌<◌, List, [], ◌∷◌, ◌++◌, length, slice_get, Some, IfOk, OnOk, OnErr};
ghost use Rattle.mz_logic.specs.Derivation.{Derivation, Node};
ghost use Rattle.mz_logic.specs.DerivationStorage.{derivations_of};

use mz_logic::rule::Rule;
use mz_logic::sequent::Sequent;
use std::alloc::{AllocError, Global};
use std::marker::Model;

/// A derivation: the rule and the sequent of its last node, and the derivations of the sequents from
/// which it follows. Dropping and copying one recur by its depth.
#[cycle(derivation)]
#[derive(Drop)]
pub struct Derivation {
    pub rule: Rule,
    pub conclusion: Sequent,
    pub parents: Derivations,
}

/// A list of derivations.
#[cycle(derivation)]
#[derive(Drop)]
pub struct Derivations {
    pub items: Vec<Derivation>,
}

impl Model for Derivation {
    ghost use Rattle.mz_logic.specs.Derivation.{Derivation, Node};
    ghost use Rattle.mz_logic.specs.DerivationStorage.{derivations_of, derivation_code, size_of};
    ghost use Rattle.std.proofs.Common.{arith};

    ghost Value = { Derivation };

    ghost coded = { derivation_code };

    ghost view = { λ a. Node a.rule a.conclusion (derivations_of a.parents) };

    ghost size = { size_of };

    ghost size_decreases = { λ a h. omega arith };
}

impl Model for Derivations {
    ghost use Rattle.std.specs.Prelude.{List};
    ghost use Rattle.std.proofs.Common.{arith};
    ghost use Rattle.std.specs.Coded.{coded_list};
    ghost use Rattle.mz_logic.specs.Derivation.{Derivation};
    ghost use Rattle.mz_logic.specs.DerivationStorage.{derivation_code, sizes_of, most_le-sizes_of};

    ghost Value = { List Derivation };

    ghost coded = { coded_list derivation_code };

    ghost view = { λ a. a.items.items };

    ghost size = { sizes_of };

    ghost size_decreases = { λ a h. omega (arith, most_le-sizes_of a.items.items) };
}

impl Derivation {
    /// A derivation that ends in `conclusion` by `rule` from its parents, right or not.
    pub fn new(rule: Rule, conclusion: Sequent, parents: Derivations) -> Derivation
        ensures { result ≡ Node rule conclusion (derivations_of parents) }
    {
        Derivation {
            rule,
            conclusion,
            parents,
        }
    }

    /// An equal derivation.
    #[cycle(copy)]
    pub fn copy(&self, alloc: Global) -> Result<Derivation, AllocError>
        ensures { IfOk result (λ d. d ≡ self.now) }
    {
        let rule = self.rule.copy(alloc)?;
        let conclusion = self.conclusion.copy(alloc)?;
        let parents = self.parents.copy(alloc)?;
        Ok(Derivation::new(rule, conclusion, parents))
    }
}

impl Derivations {
    /// No derivations.
    pub fn new(alloc: Global) -> Derivations
        ensures { result ≡ [] }
    {
        Derivations {
            items: Vec::new(alloc),
        }
    }

    /// How many there are.
    pub fn len(&self) -> usize
        ensures { result ≡ length self.now }
    {
        self.items.len()
    }

    /// The derivation at an index from 0.
    pub fn get(&self, index: usize) -> &Derivation
        requires { index < length self.now }
        ensures { slice_get self.now index ≡ Some result.now }
    {
        &self.items[index]
    }

    /// Puts a derivation at the end.
    pub fn push(&mut self, d: Derivation) -> Result<(), AllocError>
        ensures ok { OnOk result (self.new ≡ self.old ++ d ∷ []) }
        ensures err { OnErr result (self.new ≡ self.old) }
    {
        self.items.push(d)?;
        Ok(())
    }

    /// An equal list.
    #[cycle(copy)]
    pub fn copy(&self, alloc: Global) -> Result<Derivations, AllocError>
        ensures { IfOk result (λ ds. ds ≡ self.now) }
    {
        let mut out = Vec::new(alloc);
        for d in &self.items {
            out.push(d.copy(alloc)?)?;
        }
        Ok(Derivations { items: out })
    }
}
