//! The parts of the entry of a ground term.
ghost use Rattle.std.specs.Prelude.{◌≡◌, slice_get};
ghost use Rattle.mz_numbering.specs.Entry.{symbol_in, args_in, constant_in};

use mz_ground::ground_term::GroundTerm;
use mz_ground::ground_terms::GroundTerms;
use mz_logic::sym::Sym;

/// The symbol of the term at a place, if it is no constant.
pub fn symbol_at(terms: &GroundTerms, place: usize) -> Option<Sym>
    ensures { result ≡ symbol_in (slice_get terms.now place) }
{
    match terms.items.get(place) {
        Some(entry) => match entry {
            GroundTerm::App { sym, args: _ } => Some(*sym),
            GroundTerm::Const(_) => None,
        },
        None => None,
    }
}

/// The number of the constant at a place, and 0 where there is none.
pub fn constant_at(terms: &GroundTerms, place: usize) -> u32
    ensures { result ≡ constant_in (slice_get terms.now place) }
{
    match terms.items.get(place) {
        Some(entry) => match entry {
            GroundTerm::App { sym: _, args: _ } => 0,
            GroundTerm::Const(number) => *number,
        },
        None => 0,
    }
}

/// The places of the arguments of the term at a place.
pub fn args_at(terms: &GroundTerms, place: usize) -> &[usize]
    ensures { result.now ≡ args_in (slice_get terms.now place) }
{
    match terms.items.get(place) {
        Some(entry) => match entry {
            GroundTerm::App { sym: _, args } => args.as_slice(),
            GroundTerm::Const(_) => &[],
        },
        None => &[],
    }
}
