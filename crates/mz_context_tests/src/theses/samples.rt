//! Statements, unfoldings and what is in force, read from their texts.
use mz_context::constants::Constants;
use mz_core::statement::Statement;
use mz_environment::unfoldings::{Unfolding, Unfoldings};
use mz_ground::clauses::Clauses;
use mz_item_samples::statements::statement;
use mz_item_samples::types::{
    ClauseRow, ConstantRow, SET, TypeRow, clauses, constants, trigger, types,
};
use std::alloc::Global;
use std::process::Abort;

/// A statement: its formula, and the types of its quantifiers from the left.
pub type S = (&'static str, &'static [TypeRow]);

/// An unfolding: the types of its loci, its head, an atom or a term, and its definiens.
pub type U = (&'static [TypeRow], &'static str, S);

/// A type that says more than `set`.
pub const PART: TypeRow = ("A.M1", "");

/// What is in force.
#[derive(Drop)]
pub struct Given {
    pub clauses: Clauses,
    pub constants: Constants,
    pub unfoldings: Unfoldings,
}

/// The statement of the texts.
pub fn statement_of(rt: &impl Abort, alloc: Global, s: S) -> Statement {
    statement(alloc, s.0, s.1, SET).expect(rt, "a statement")
}

fn unfolding(rt: &impl Abort, alloc: Global, u: U) -> Unfolding {
    Unfolding {
        loci: types(alloc, u.0).expect(rt, "types"),
        head: trigger(alloc, u.1).expect(rt, "a head"),
        definiens: statement_of(rt, alloc, u.2),
    }
}

fn unfoldings(rt: &impl Abort, alloc: Global, us: &[U]) -> Unfoldings {
    let mut out = Unfoldings::new(alloc);
    for u in us {
        out.push(unfolding(rt, alloc, *u)).expect(rt, "memory");
    }
    out
}

/// These clauses, constants from 1 on and unfoldings.
pub fn in_force(
    rt: &impl Abort,
    alloc: Global,
    cs: &[ClauseRow],
    ks: &[ConstantRow],
    us: &[U],
) -> Given {
    Given {
        clauses: clauses(alloc, cs).expect(rt, "clauses"),
        constants: constants(alloc, ks).expect(rt, "constants"),
        unfoldings: unfoldings(rt, alloc, us),
    }
}
