//! The law of commas behind formulas, the contract of a function that does nothing.
ghost use Rattle.mz_comma_laws.specs.CommaLaw.{BehindTermsAlone, BehindTermsAlways};
ghost use Rattle.std.specs.Prelude.{Bool};

/// A list comma goes on a formula exactly where a list of terms stands last in it.
pub fn comma_law()
    ensures alone { (field : Bool) → BehindTermsAlone field }
    ensures always { (field : Bool) → BehindTermsAlways field }
{}
