//! Ground parts.
ghost use Rattle.std.specs.Prelude.{◌≡◌, IfOk};

use crate::ground_atoms::GroundAtoms;
use crate::ground_equations::GroundEquations;
use crate::ground_terms::GroundTerms;
use crate::layer_ends::LayerEnds;
use std::alloc::{AllocError, Global};

/// The ground part of a disjunct under clauses: its terms, atoms and equations, each once, in the order of the
/// layers. An argument of a term stands before it. `ends` has the numbers of terms, atoms and equations after
/// each layer.
pub struct Ground {
    pub terms: GroundTerms,
    pub atoms: GroundAtoms,
    pub equations: GroundEquations,
    pub ends: LayerEnds,
}

impl Drop for Ground {
    fn drop(self) {
        let Ground {
            terms: _terms,
            atoms: _atoms,
            equations: _equations,
            ends: _ends,
        } = self;
    }
}

impl Ground {
    /// An equal ground part.
    pub fn copy(&self, alloc: Global) -> Result<Ground, AllocError>
        ensures { IfOk result (λ g. g ≡ self.now) }
    {
        let terms = self.terms.copy(alloc)?;
        let atoms = self.atoms.copy(alloc)?;
        let equations = self.equations.copy(alloc)?;
        let ends = self.ends.copy(alloc)?;
        Ok(Ground {
            terms,
            atoms,
            equations,
            ends,
        })
    }
}
