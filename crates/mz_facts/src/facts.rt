//! Facts of a disjunct.
ghost use Rattle.mz_facts.specs.Facts.{facts_view};

use mz_congruence::fact_table::FactTable;
use mz_ground::fact_set::FactSet;
use mz_ground::ground_part::Ground;
use mz_logic::literal::Literal;
use mz_logic::term::Term;

/// The facts of a disjunct under clauses.
#[derive(Drop)]
pub struct Facts {
    pub table: FactTable,
}

impl FactSet for Facts {
    ghost view = { facts_view };

    fn ground(&self) -> &Ground {
        self.table.ground()
    }

    fn class_at(&self, place: usize) -> usize {
        self.table.class_at(place)
    }

    fn is_signed(&self, place: usize, positive: bool) -> bool {
        self.table.is_signed(place, positive)
    }

    fn is_disequal(&self, place: usize) -> bool {
        self.table.is_disequal(place)
    }

    fn holds(&self, l: &Literal) -> bool {
        self.table.holds(l)
    }

    fn same(&self, t: &Term, u: &Term) -> bool {
        self.table.same(t, u)
    }

    fn contradictory(&self) -> bool {
        self.table.contradictory()
    }
}
