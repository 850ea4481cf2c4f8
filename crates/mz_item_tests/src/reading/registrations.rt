//! Properties and registrations, read from the fields of a line.
use crate::reading::parts::{
    adjectives, field, literal, soft_type, soft_types, some_type, sym, term,
};
use mz_core::item::Item;
use mz_core::property::{Operation, Property, PropertyForm, Relation, UnaryOperation};
use mz_core::registration::{
    ConditionalRegistration, EquationRegistration, ExistentialRegistration, FunctorialRegistration,
};
use std::alloc::Global;
use std::process::Abort;

/// A literal between the loci with the indices 1 and 0.
fn relation(rt: &impl Abort, alloc: Global, text: &str) -> Relation {
    Relation {
        literal: literal(rt, alloc, text),
        left: 1,
        right: 0,
    }
}

/// A term of the loci with the indices 1 and 0.
fn operation(rt: &impl Abort, alloc: Global, text: &str) -> Operation {
    Operation {
        term: term(rt, alloc, text),
        left: 1,
        right: 0,
    }
}

/// A term of the locus with the index 0.
fn unary(rt: &impl Abort, alloc: Global, text: &str) -> UnaryOperation {
    UnaryOperation {
        term: term(rt, alloc, text),
        place: 0,
    }
}

fn form(rt: &impl Abort, alloc: Global, word: &str, text: &str) -> PropertyForm {
    match word {
        "reflexivity" => PropertyForm::Reflexivity(relation(rt, alloc, text)),
        "irreflexivity" => PropertyForm::Irreflexivity(relation(rt, alloc, text)),
        "symmetry" => PropertyForm::Symmetry(relation(rt, alloc, text)),
        "asymmetry" => PropertyForm::Asymmetry(relation(rt, alloc, text)),
        "connectedness" => PropertyForm::Connectedness(relation(rt, alloc, text)),
        "commutativity" => PropertyForm::Commutativity(operation(rt, alloc, text)),
        "idempotence" => PropertyForm::Idempotence(operation(rt, alloc, text)),
        "involutiveness" => PropertyForm::Involutiveness(unary(rt, alloc, text)),
        "projectivity" => PropertyForm::Projectivity(unary(rt, alloc, text)),
        _ => PropertyForm::Sethood(sym(rt, text)),
    }
}

/// `LOCI ; LITERAL`, or a term or a mode in place of the literal, with the property's word.
pub fn property(rt: &impl Abort, alloc: Global, word: &str, line: &mut &'static str) -> Item {
    let loci = soft_types(rt, alloc, field(line));
    let form = form(rt, alloc, word, field(line));
    Item::Property(Property { loci, form })
}

/// `LOCI ; ADJECTIVES ; TYPE`.
fn existential(rt: &impl Abort, alloc: Global, line: &mut &'static str) -> ExistentialRegistration {
    let loci = soft_types(rt, alloc, field(line));
    let adjectives = adjectives(rt, alloc, field(line));
    ExistentialRegistration {
        loci,
        adjectives,
        ty: soft_type(rt, alloc, field(line)),
    }
}

/// `LOCI ; ADJECTIVES ; ADJECTIVES ; TYPE`.
fn conditional(rt: &impl Abort, alloc: Global, line: &mut &'static str) -> ConditionalRegistration {
    let loci = soft_types(rt, alloc, field(line));
    let from = adjectives(rt, alloc, field(line));
    let to = adjectives(rt, alloc, field(line));
    ConditionalRegistration {
        loci,
        from,
        to,
        ty: soft_type(rt, alloc, field(line)),
    }
}

/// `LOCI ; TERM ; ADJECTIVES ; TYPE`, where the last may be empty.
fn functorial(rt: &impl Abort, alloc: Global, line: &mut &'static str) -> FunctorialRegistration {
    let loci = soft_types(rt, alloc, field(line));
    let term = term(rt, alloc, field(line));
    let adjectives = adjectives(rt, alloc, field(line));
    FunctorialRegistration {
        loci,
        term,
        adjectives,
        ty: some_type(rt, alloc, field(line)),
    }
}

/// `LOCI ; TERM ; TERM`.
fn equation(rt: &impl Abort, alloc: Global, line: &mut &'static str) -> EquationRegistration {
    let loci = soft_types(rt, alloc, field(line));
    let left = term(rt, alloc, field(line));
    EquationRegistration {
        loci,
        left,
        right: term(rt, alloc, field(line)),
    }
}

/// A registration.
pub fn registration(rt: &impl Abort, alloc: Global, word: &str, line: &mut &'static str) -> Item {
    match word {
        "existential" => Item::Existential(existential(rt, alloc, line)),
        "conditional" => Item::Conditional(conditional(rt, alloc, line)),
        "functorial" => Item::Functorial(functorial(rt, alloc, line)),
        "reduce" => Item::Reduction(equation(rt, alloc, line)),
        "identify" => Item::Identification(equation(rt, alloc, line)),
        _ => panic!(rt; "a registration"),
    }
}
