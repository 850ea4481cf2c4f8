//! What numbered classes answer.
ghost use Rattle.std.specs.Prelude.{◌≡◌, ◌<◌, length, slice_index};
ghost use Rattle.mz_classes.specs.Classes.{DecidesClass, DecidesMembers, DecidesSigned};
ghost use Rattle.mz_classes.specs.ClassView.{class_view};
ghost use Rattle.mz_classes.specs.Indexed.{AreSignedLists};

use crate::classes::Classes;
use crate::labels::label_of;
use crate::numbers::Numbers;
use crate::sym_lists::SymLists;
use mz_ground::fact_set::FactSet;
use mz_ground::ground_part::Ground;
use mz_logic::literal::Literal;
use mz_logic::sym::Sym;
use mz_logic::term::Term;

impl FactSet for Classes {
    ghost view = { class_view };

    fn ground(&self) -> &Ground {
        self.table.ground()
    }

    fn class_at(&self, place: usize) -> usize {
        self.table.class_at(place)
    }

    fn is_signed(&self, place: usize, positive: bool) -> bool {
        self.table.is_signed(place, positive)
    }

    fn is_disequal(&self, place: usize) -> bool {
        self.table.is_disequal(place)
    }

    fn holds(&self, l: &Literal) -> bool {
        self.table.holds(l)
    }

    fn same(&self, t: &Term, u: &Term) -> bool {
        self.table.same(t, u)
    }

    fn contradictory(&self) -> bool {
        self.table.contradictory()
    }
}

impl Classes {
    /// The least number of a term that is equal to the term with this number.
    #[tactic(auto, using(crate::proofs::ClassLemmas::class_rules))]
    pub fn class_of(&self, term: u32) -> u32
        requires { term < length (class_view self.now).part.terms }
        ensures { DecidesClass (class_view self.now) self.now.numbering.terms.items term result }
    {
        match self.members.get(self.table.class_at(self.term_place(term))) {
            Some(numbers) => match numbers.first() {
                Some(number) => number,
                None => term,
            },
            None => term,
        }
    }

    /// The numbers of the terms whose class this number is, ascending; none where it is no class.
    pub fn members(&self, class: u32) -> &Numbers
        ensures { DecidesMembers (class_view self.now) self.now.numbering.terms.items class result.now }
    {
        if class as usize >= self.table.ground.terms.len() || self.class_of(class) != class {
            return &self.none;
        }
        match self
            .members
            .get(self.table.class_at(self.term_place(class)))
        {
            Some(numbers) => numbers,
            None => &self.none,
        }
    }

    /// The numbers of the ground atoms with the symbol that are facts with the sign, ascending.
    pub fn signed(&self, sym: Sym, positive: bool) -> &Numbers
        ensures { DecidesSigned (class_view self.now) self.now.numbering.atoms.items sym positive result.now }
    {
        match self.lists_of(positive).get(sym) {
            Some(numbers) => numbers,
            None => &self.none,
        }
    }

    /// The place of the term with this number in the list of ground terms.
    pub fn term_place(&self, number: u32) -> usize
        requires { number < length (class_view self.now).part.terms }
        ensures place { result ≡ slice_index self.now.numbering.terms.items number }
        ensures within { result < length (class_view self.now).part.terms }
    {
        label_of(self.numbering.terms.as_slice(), number as usize)
    }

    fn lists_of(&self, positive: bool) -> &SymLists
        ensures { AreSignedLists (class_view self.now) self.now.numbering.atoms.items positive result.now }
    {
        if positive {
            &self.positive
        } else {
            &self.negative
        }
    }
}
