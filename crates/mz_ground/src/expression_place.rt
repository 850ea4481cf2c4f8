//! Places of ground terms and atoms.
ghost use Rattle.std.specs.Prelude.{◌≡◌};
ghost use Rattle.mz_ground.specs.Instances.{place_like};

use crate::trigger::Trigger;

/// The place of a ground term or of a ground atom, from 0.
#[derive(Clone, Copy, Debug, PartialEq, Eq)]
pub enum ExpressionPlace {
    Term(usize),
    Atom(usize),
}

/// The place of a term or of an atom, as the trigger is one.
pub fn place_like(r: &Trigger, place: usize) -> ExpressionPlace
    ensures { result ≡ place_like r.now place }
{
    match r {
        Trigger::Term(_) => ExpressionPlace::Term(place),
        Trigger::Atom(_, _) => ExpressionPlace::Atom(place),
    }
}
