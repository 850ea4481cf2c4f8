//! The numbering of a ground part.
ghost use Rattle.std.specs.Prelude.{◌≡◌, length, map, IfOk};
ghost use Rattle.mz_ground.specs.Growth.{IsNumbered};
ghost use Rattle.mz_numbering.specs.Numbering.{terms_end, atoms_end, term_layer, atom_layer, term_place_cmp, atom_place_cmp, numbers_from, AreOrdered, IsNumbering};

use crate::compare::{compare_atoms_at, compare_terms_at};
use mz_ground::ground_part::Ground;
use std::alloc::{AllocError, Global};
use std::cmp::Ordering;

/// The places of the ground terms, and those of the ground atoms, in the order of their numbers.
#[derive(Drop)]
pub struct Numbering {
    pub terms: Vec<usize>,
    pub atoms: Vec<usize>,
}

/// The numbering of a ground part.
pub fn numbering_of(alloc: Global, g: &Ground) -> Result<Numbering, AllocError>
    requires { IsNumbered g.now }
    ensures { IfOk result (λ n. IsNumbering g.now n) }
{
    let terms = ordered_terms(alloc, g)?;
    let atoms = ordered_atoms(alloc, g)?;
    Ok(Numbering { terms, atoms })
}

fn ordered_terms(alloc: Global, g: &Ground) -> Result<Vec<usize>, AllocError>
    requires { IsNumbered g.now }
    ensures { IfOk result (λ v. AreOrdered (term_place_cmp g.now) (length g.now.terms) v.items) }
{
    let mut places = numbers_below(alloc, g.terms.len())?;
    places.sort_by(|p, q| compare_term_places(g, *p, *q))?;
    Ok(places)
}

fn ordered_atoms(alloc: Global, g: &Ground) -> Result<Vec<usize>, AllocError>
    requires { IsNumbered g.now }
    ensures { IfOk result (λ v. AreOrdered (atom_place_cmp g.now) (length g.now.atoms) v.items) }
{
    let mut places = numbers_below(alloc, g.atoms.len())?;
    places.sort_by(|p, q| compare_atom_places(g, *p, *q))?;
    Ok(places)
}

#[tactic(auto, using(crate::proofs::NumberingLemmas::numbers_rules))]
fn numbers_below(alloc: Global, count: usize) -> Result<Vec<usize>, AllocError>
    ensures { IfOk result (λ v. v.items ≡ numbers_from 0 count) }
{
    let mut out = Vec::new(alloc);
    for k in 0..count {
        out.push(k)?;
    }
    Ok(out)
}

#[tactic(auto, unfolding(crate::specs::Numbering::term_place_cmp))]
fn compare_term_places(g: &Ground, p: usize, q: usize) -> Ordering
    requires { IsNumbered g.now }
    ensures { result ≡ term_place_cmp g.now p q }
{
    let by_term = compare_terms_at(&g.terms, p, q);
    term_layer(g, p).cmp(&term_layer(g, q)).then(by_term)
}

#[tactic(auto, unfolding(crate::specs::Numbering::atom_place_cmp))]
fn compare_atom_places(g: &Ground, p: usize, q: usize) -> Ordering
    requires { IsNumbered g.now }
    ensures { result ≡ atom_place_cmp g.now p q }
{
    let by_atom = compare_atoms_at(g, p, q);
    atom_layer(g, p).cmp(&atom_layer(g, q)).then(by_atom)
}

// How many layers end before the place.
#[tactic(auto, using(crate::proofs::NumberingLemmas::layer_rules))]
fn term_layer(g: &Ground, place: usize) -> usize
    ensures { result ≡ term_layer g.now place }
{
    for n in 0..g.ends.len() {
        if place < g.ends.get(n).terms {
            return n;
        }
    }
    g.ends.len()
}

#[tactic(auto, using(crate::proofs::NumberingLemmas::layer_rules))]
fn atom_layer(g: &Ground, place: usize) -> usize
    ensures { result ≡ atom_layer g.now place }
{
    for n in 0..g.ends.len() {
        if place < g.ends.get(n).atoms {
            return n;
        }
    }
    g.ends.len()
}
