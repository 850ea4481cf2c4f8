//! Problems, read from their texts.
use mz_nf::problem::Problem;
use mz_samples::fault::SampleFault;
use mz_samples::parts::sequent;
use std::alloc::Global;

/// The problem of a text: its premises and its conclusion, as those of a sequent.
pub fn problem(alloc: Global, text: &str) -> Result<Problem, SampleFault> {
    let s = sequent(alloc, text)?;
    Ok(Problem {
        premises: s.premises,
        conclusion: s.conclusion,
    })
}
