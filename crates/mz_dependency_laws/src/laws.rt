//! What an article may rest on whose environment part was let in, as contracts of functions that do nothing.
ghost use Rattle.mz_dependency_laws.specs.Formulas.{FormulasLaw};
ghost use Rattle.mz_dependency_laws.specs.Dependencies.{KnownLaw, UsedByLaw, RestsLaw};

/// From what exports say, with the sequents that have premises among it, all derives that their items grant and owe.
pub fn formulas_law()
    ensures { FormulasLaw }
{}

/// Each article on which it depends has an export. Each export that its environment part uses is HIDDEN's or that of an article on
/// which it depends; and a sequent that derives from what such exports say and from the grants of the items before it, an item may owe.
pub fn dependency_law()
    ensures known { KnownLaw }
    ensures used { UsedByLaw }
    ensures rests { RestsLaw }
{}
