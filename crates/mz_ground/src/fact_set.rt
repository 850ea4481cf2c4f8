//! What holds the facts of a disjunct.
ghost use Rattle.std.specs.Prelude.{◌≡◌, ◌<◌, true, length};
ghost use Rattle.mz_logic.specs.declared.literal.Literal.TheVariants.{Eq};
ghost use Rattle.mz_ground.specs.FactSet.{FactView, DecidesFact, DecidesContradiction};

use crate::ground_part::Ground;
use mz_logic::literal::Literal;
use mz_logic::term::Term;

/// The facts of a disjunct under clauses. Where `HasFacts` of a disjunct and clauses holds of its view, each call
/// answers exactly by the facts of these.
pub trait FactSet {
    /// What is known of the ground part's terms, atoms and equations.
    ghost view: { Self → FactView };

    /// The ground part whose facts these are.
    fn ground(&self) -> &Ground
        ensures { result.now ≡ (view self.now).part };

    /// A number for the ground term at a place, the same for two terms exactly where they are equal.
    fn class_at(&self, place: usize) -> usize
        requires { place < length (view self.now).part.terms }
        ensures { result ≡ (view self.now).class place };

    /// Whether the ground atom at a place is a fact, or where `positive` is false whether its negation is.
    fn is_signed(&self, place: usize, positive: bool) -> bool
        requires { place < length (view self.now).part.atoms }
        ensures { result ≡ (view self.now).signed positive place };

    /// Whether it is a fact that the ground equation at a place fails.
    fn is_disequal(&self, place: usize) -> bool
        requires { place < length (view self.now).part.equations }
        ensures { result ≡ (view self.now).disequal place };

    /// Whether the literal is a fact.
    fn holds(&self, l: &Literal) -> bool
        ensures { DecidesFact (view self.now) l.now result };

    /// Whether it is a fact that the terms are equal.
    fn same(&self, t: &Term, u: &Term) -> bool
        ensures { DecidesFact (view self.now) (Eq true t.now u.now) result };

    /// Whether an atom or an equation is a fact with both signs.
    fn contradictory(&self) -> bool
        ensures { DecidesContradiction (view self.now) result };
}
