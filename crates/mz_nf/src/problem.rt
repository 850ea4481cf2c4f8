//! Problems.
use mz_logic::formula::Formula;
use mz_logic::formulas::Formulas;

/// A conclusion to be drawn from premises. No formula of it is to have a free bound index; the type doesn't test it.
#[derive(Drop)]
pub struct Problem {
    pub premises: Formulas,
    pub conclusion: Formula,
}
