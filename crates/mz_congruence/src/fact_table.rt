//! The facts of a disjunct.
ghost use Rattle.std.specs.Prelude.{◌≡◌, ◌<◌, ◌≤◌, ◌+◌, ℕ, true, length, slice_get, slice_index, nat_eq, Some, IfOk};
ghost use Rattle.mz_logic.specs.declared.literal.Literal.TheVariants.{Atom, Eq};
ghost use Rattle.mz_congruence.specs.FactTable.{flag_at, table_view};
ghost use Rattle.mz_congruence.specs.OfClasses.{IsOfClasses, AtomClash, EquationClash, DecidesDisequal};
ghost use Rattle.mz_congruence.specs.Layout.{IsLayout};
ghost use Rattle.mz_congruence.specs.Closing.{Exact};
ghost use Rattle.mz_congruence.specs.GroundGraph.{HasFactsOf};

use crate::classes::parent;
use crate::ground_graph::GroundGraph;
use crate::lookup::{atom_place, equation_place, term_place};
use crate::numbering::Layout;
use mz_ground::fact_set::FactSet;
use mz_ground::ground_part::Ground;
use mz_logic::literal::Literal;
use mz_logic::term::Term;
use std::alloc::{AllocError, Global};

/// The facts of a disjunct under clauses. `classes` has for each ground term the place of the first ground
/// term that is equal to it; `positive` and `negative` say of each ground atom whether it and whether its
/// negation is a fact, `disequal` says of each ground equation whether its negation is.
#[derive(Drop)]
pub struct FactTable {
    pub ground: Ground,
    pub classes: Vec<usize>,
    pub positive: Vec<bool>,
    pub negative: Vec<bool>,
    pub disequal: Vec<bool>,
}

fn flag_at(flags: &[bool], k: usize) -> bool
    ensures { result ≡ flag_at flags.now k }
{
    match flags.get(k) {
        Some(flag) => *flag,
        None => false,
    }
}

impl FactSet for FactTable {
    ghost view = { table_view };

    fn ground(&self) -> &Ground {
        &self.ground
    }

    fn class_at(&self, place: usize) -> usize {
        parent(self.classes.as_slice(), place)
    }

    fn is_signed(&self, place: usize, positive: bool) -> bool {
        if positive {
            flag_at(self.positive.as_slice(), place)
        } else {
            flag_at(self.negative.as_slice(), place)
        }
    }

    fn is_disequal(&self, place: usize) -> bool {
        flag_at(self.disequal.as_slice(), place)
    }

    #[tactic(auto, using(crate::proofs::DecideLemmas::holds_rules))]
    fn holds(&self, l: &Literal) -> bool {
        match l {
            Literal::Atom {
                positive,
                sym,
                args,
            } => {
                let none: [usize; 0] = [];
                match atom_place(&self.ground, &none, *sym, args) {
                    Some(k) => self.is_signed(k, *positive),
                    None => false,
                }
            }
            Literal::Eq {
                positive,
                left,
                right,
            } => {
                if *positive {
                    self.same(left, right)
                } else {
                    self.are_disequal(left, right) || self.are_disequal(right, left)
                }
            }
        }
    }

    #[tactic(auto, using(crate::proofs::DecideLemmas::same_rules))]
    fn same(&self, t: &Term, u: &Term) -> bool {
        let none: [usize; 0] = [];
        match term_place(&self.ground, &none, t) {
            Some(i) => match term_place(&self.ground, &none, u) {
                Some(j) => parent(self.classes.as_slice(), i) == parent(self.classes.as_slice(), j),
                None => false,
            },
            None => false,
        }
    }

    #[tactic(auto, using(crate::proofs::DecideLemmas::clash_rules))]
    fn contradictory(&self) -> bool {
        self.atom_clashes() || self.equation_clashes()
    }
}

impl FactTable {
    /// Whether the equation is a ground equation that fails.
    #[tactic(auto, using(crate::proofs::DecideLemmas::disequal_rules))]
    fn are_disequal(&self, t: &Term, u: &Term) -> bool
        ensures { DecidesDisequal self.now t.now u.now result }
    {
        let none: [usize; 0] = [];
        match equation_place(&self.ground, &none, t, u) {
            Some(k) => flag_at(self.disequal.as_slice(), k),
            None => false,
        }
    }

    fn atom_clashes(&self) -> bool
        ensures { AtomClash self.now result }
    {
        for k in 0..self.ground.atoms.len() {
            if flag_at(self.positive.as_slice(), k) && flag_at(self.negative.as_slice(), k) {
                return true;
            }
        }
        false
    }

    fn equation_clashes(&self) -> bool
        ensures { EquationClash self.now result }
    {
        for k in 0..self.ground.equations.len() {
            let e = self.ground.equations.get(k);
            if flag_at(self.disequal.as_slice(), k)
                && parent(self.classes.as_slice(), e.left)
                    == parent(self.classes.as_slice(), e.right)
            {
                return true;
            }
        }
        false
    }
}

fn flags_of(
    alloc: Global,
    c: &[usize],
    start: usize,
    count: usize,
    yes: usize,
) -> Result<Vec<bool>, AllocError>
    requires { start + count ≤ yes }
    ensures { IfOk result (λ bs. (length bs.items ≡ count) × ((k : ℕ) → k < count → slice_get bs.items k ≡ Some (nat_eq (slice_index c.now (start + k)) (slice_index c.now yes)))) }
{
    let mut out = Vec::new(alloc);
    for k in 0..count {
        out.push(parent(c, start + k) == parent(c, yes))?;
    }
    Ok(out)
}

fn first_classes(alloc: Global, c: &[usize], count: usize) -> Result<Vec<usize>, AllocError>
    ensures { IfOk result (λ xs. (length xs.items ≡ count) × ((k : ℕ) → k < count → slice_index xs.items k ≡ slice_index c.now k)) }
{
    let mut out = Vec::new(alloc);
    for k in 0..count {
        out.push(parent(c, k))?;
    }
    Ok(out)
}

fn table_of(alloc: Global, g: &Ground, layout: Layout, c: &[usize]) -> Result<FactTable, AllocError>
    requires { IsLayout g.now layout }
    ensures { IfOk result (λ f. IsOfClasses g.now c.now f) }
{
    let classes = first_classes(alloc, c, g.terms.len())?;
    let positive = flags_of(alloc, c, layout.positive, g.atoms.len(), layout.yes)?;
    let negative = flags_of(alloc, c, layout.negative, g.atoms.len(), layout.yes)?;
    let disequal = flags_of(alloc, c, layout.disequal, g.equations.len(), layout.yes)?;
    let ground = g.copy(alloc)?;
    Ok(FactTable {
        ground,
        classes,
        positive,
        negative,
        disequal,
    })
}

/// The facts that the classes of the nodes of a ground part give.
#[tactic(auto, using(crate::proofs::DecideLemmas::facts_rules))]
pub fn facts_of(
    alloc: Global,
    g: &Ground,
    graph: &GroundGraph,
    c: &[usize],
) -> Result<FactTable, AllocError>
    requires layout { IsLayout g.now graph.now.layout }
    requires exact { Exact graph.now.graph c.now }
    ensures kept { IfOk result (λ f. f.ground ≡ g.now) }
    ensures facts { IfOk result (λ f. HasFactsOf g.now graph.now f) }
    // the number of a class is the place of a term that is not later
    ensures bounded { IfOk result (λ f. (k : ℕ) → slice_index f.classes.items k ≤ k) }
{
    table_of(alloc, g, graph.layout, c)
}
