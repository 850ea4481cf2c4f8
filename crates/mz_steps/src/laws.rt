//! Laws of steps, each the contract of a function that does nothing.
ghost use Rattle.mz_steps.specs.Laws.{OneEffectLaw};

/// A step does one thing at most in a block.
#[tactic(auto, using(crate::proofs::OneEffect::one_effect_law))]
pub fn one_effect_law()
    ensures { OneEffectLaw }
{}
