//! Places of terms, atoms and equations in a ground part.
ghost use Rattle.std.specs.Prelude.{◌≡◌, ◌<◌, ℕ, true, false, length, slice_get, None, Some, MatchOption, IfSome, IsTrue};
ghost use Rattle.mz_ground.specs.declared.ground_atom.GroundAtom.{GroundAtom};
ghost use Rattle.mz_congruence.specs.Lookup.{FindsTerm, FindsHash, FindsAtom, FindsEquation, IsHashedTerm, IsHashedAtom};
ghost use Rattle.mz_congruence.specs.InstanceAt.{is_instance_at, are_instances_at, is_atom_instance};

use mz_ground::ground_atom::GroundAtom;
use mz_ground::ground_equation::GroundEquation;
use mz_ground::ground_part::Ground;
use mz_ground::ground_term::GroundTerm;
use mz_ground::ground_terms::GroundTerms;
use mz_ground::hash_places::{hash_with, hash_with_symbol};
use mz_logic::sym::Sym;
use mz_logic::term::{Term, TermNode, Terms};

/// The entry at a place.
#[tactic(auto, using(std::proofs::lemmas::Option::slice_get_past))]
pub fn entry_at<'a>(terms: &'a GroundTerms, place: usize) -> Option<&'a GroundTerm>
    ensures { MatchOption result (slice_get terms.now place ≡ None) (λ e. slice_get terms.now place ≡ Some e.now) }
{
    if place < terms.len() {
        Some(terms.get(place))
    } else {
        None
    }
}

/// Whether `t` stands at the place, where the terms at the places `args` stand for its indices from 0 on.
#[cycle(instance)]
#[tactic(auto, using(crate::proofs::InstanceAtLemmas::instance_at_rules))]
pub fn is_instance_at(terms: &GroundTerms, args: &[usize], t: &Term, place: usize) -> bool
    ensures { result ≡ is_instance_at terms.now args.now t.now place }
{
    match &t.node {
        TermNode::Bound(n) => match args.get(*n as usize) {
            Some(arg) => *arg == place,
            None => false,
        },
        TermNode::Const(m) => match terms.items.get(place) {
            Some(GroundTerm::Const(n)) => *m == *n,
            _ => false,
        },
        TermNode::App(r, us) => match entry_at(terms, place) {
            Some(entry) => match entry {
                GroundTerm::App { sym, args: places } => {
                    r.is(*sym) && are_instances_at(terms, args, us, places.as_slice())
                }
                GroundTerm::Const(_) => false,
            },
            None => false,
        },
    }
}

/// Whether the terms stand at the places one by one.
#[cycle(instance)]
#[tactic(auto, using(crate::proofs::InstanceAtLemmas::each_rules))]
pub fn are_instances_at(terms: &GroundTerms, args: &[usize], us: &Terms, places: &[usize]) -> bool
    ensures { result ≡ are_instances_at terms.now args.now us.now places.now }
{
    if us.items.len() != places.len() {
        return false;
    }
    for i in 0..places.len() {
        if !is_instance_at(terms, args, &us.items[i], places[i]) {
            return false;
        }
    }
    true
}

/// The place of the term.
#[cycle(place)]
#[tactic(auto, using(crate::proofs::LookupLemmas::term_rules))]
pub fn term_place(g: &Ground, args: &[usize], t: &Term) -> Option<usize>
    ensures { FindsTerm g.now args.now t.now result }
{
    match &t.node {
        TermNode::Bound(n) => place_for(args, *n),
        TermNode::Const(m) => hashed_term(g, args, t, hash_with(0, u64::from(*m))),
        TermNode::App(s, us) => match args_hash(g, args, us, hash_with_symbol(1, *s)) {
            Some(hash) => hashed_term(g, args, t, hash),
            None => None,
        },
    }
}

// The hash with the places of the terms taken into it, if each has one.
#[cycle(place)]
#[tactic(auto, using(crate::proofs::LookupLemmas::hash_rules))]
fn args_hash(g: &Ground, args: &[usize], us: &Terms, start: u64) -> Option<u64>
    ensures { FindsHash g.now args.now us.now start result }
{
    let mut hash = start;
    for i in 0..us.items.len() {
        match term_place(g, args, &us.items[i]) {
            Some(place) => hash = hash_with(hash, place as u64),
            None => return None,
        }
    }
    Some(hash)
}

fn place_for(args: &[usize], n: u32) -> Option<usize>
    ensures { result ≡ slice_get args.now n }
{
    args.get(n as usize).copied()
}

fn is_term_at(g: &Ground, args: &[usize], t: &Term, place: usize) -> bool
    ensures { IsTrue result → (place < length g.now.terms) × (is_instance_at g.now.terms args.now t.now place ≡ true) }
{
    place < g.terms.len() && is_instance_at(&g.terms, args, t, place)
}

// A place where the term stands, by its hash: another entry with the hash may stand in its stead, and then it is
// sought from the beginning.
#[tactic(auto, using(crate::proofs::LookupLemmas::hashed_rules))]
fn hashed_term(g: &Ground, args: &[usize], t: &Term, hash: u64) -> Option<usize>
    ensures { IsHashedTerm g.now args.now t.now hash result }
{
    match g.terms.candidate(hash) {
        Some(place) => {
            if is_term_at(g, args, t, place) {
                Some(place)
            } else {
                first_term(&g.terms, args, t)
            }
        }
        None => None,
    }
}

fn first_term(terms: &GroundTerms, args: &[usize], t: &Term) -> Option<usize>
    ensures { MatchOption result ((k : ℕ) → k < length terms.now → is_instance_at terms.now args.now t.now k ≡ false) (λ k. (k < length terms.now) × (is_instance_at terms.now args.now t.now k ≡ true)) }
{
    for i in 0..terms.len() {
        if is_instance_at(terms, args, t, i) {
            return Some(i);
        }
    }
    None
}

/// Whether the entry is the atom.
pub fn is_atom(terms: &GroundTerms, args: &[usize], sym: Sym, us: &Terms, a: &GroundAtom) -> bool
    ensures { result ≡ is_atom_instance terms.now args.now sym us.now a.now }
{
    a.sym.is(sym) && are_instances_at(terms, args, us, a.args.as_slice())
}

fn is_atom_at(g: &Ground, args: &[usize], sym: Sym, us: &Terms, place: usize) -> bool
    ensures { IsTrue result → (a : GroundAtom) × (slice_get g.now.atoms place ≡ Some a) × (is_atom_instance g.now.terms args.now sym us.now a ≡ true) }
{
    place < g.atoms.len() && is_atom(&g.terms, args, sym, us, g.atoms.get(place))
}

// A place of the atom, by its hash, as for terms.
#[tactic(auto, using(crate::proofs::LookupLemmas::hashed_rules))]
fn hashed_atom(g: &Ground, args: &[usize], sym: Sym, us: &Terms, hash: u64) -> Option<usize>
    ensures { IsHashedAtom g.now args.now sym us.now hash result }
{
    match g.atoms.candidate(hash) {
        Some(place) => {
            if is_atom_at(g, args, sym, us, place) {
                Some(place)
            } else {
                first_atom(g, args, sym, us)
            }
        }
        None => None,
    }
}

/// The place of the atom.
#[tactic(auto, using(crate::proofs::LookupLemmas::atom_rules))]
pub fn atom_place(g: &Ground, args: &[usize], sym: Sym, us: &Terms) -> Option<usize>
    ensures found { FindsAtom g.now args.now sym us.now result }
    ensures within { IfSome result (λ k. k < length g.now.atoms) }
{
    match args_hash(g, args, us, hash_with_symbol(0, sym)) {
        Some(hash) => hashed_atom(g, args, sym, us, hash),
        None => None,
    }
}

fn first_atom(g: &Ground, args: &[usize], sym: Sym, us: &Terms) -> Option<usize>
    ensures { MatchOption result ((k : ℕ) (a : GroundAtom) → slice_get g.now.atoms k ≡ Some a → is_atom_instance g.now.terms args.now sym us.now a ≡ false) (λ k. (a : GroundAtom) × (slice_get g.now.atoms k ≡ Some a) × (is_atom_instance g.now.terms args.now sym us.now a ≡ true)) }
{
    for k in 0..g.atoms.len() {
        if is_atom(&g.terms, args, sym, us, g.atoms.get(k)) {
            return Some(k);
        }
    }
    None
}

/// The place of the equation.
#[tactic(auto, using(crate::proofs::LookupLemmas::equation_rules))]
pub fn equation_place(g: &Ground, args: &[usize], t: &Term, u: &Term) -> Option<usize>
    ensures found { FindsEquation g.now args.now t.now u.now result }
    ensures within { IfSome result (λ k. k < length g.now.equations) }
{
    match term_place(g, args, t) {
        Some(left) => match term_place(g, args, u) {
            Some(right) => {
                let sides = GroundEquation { left, right };
                g.equations.find(&sides)
            }
            None => None,
        },
        None => None,
    }
}
