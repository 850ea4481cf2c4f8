//! Laws of steps in their blocks, each the contract of a function that does nothing.
ghost use Rattle.mz_skeleton_laws.specs.Laws.{OnePerformedLaw, OneSkeletonLaw};

/// What a step as it was read leads to is determined.
pub fn one_performed_law()
    ensures { OnePerformedLaw }
{}

/// What `let`, `assume`, `given` and `take` lead to is determined.
pub fn one_skeleton_law()
    ensures { OneSkeletonLaw }
{}
