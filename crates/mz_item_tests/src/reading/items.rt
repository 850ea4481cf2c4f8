//! Items, read from lines.
use crate::reading::definitions::{definition, redefinition};
use crate::reading::parts::{
    field, front_of, literal, pattern, soft_type, soft_types, statement, sym, term,
};
use crate::reading::registrations::{property, registration};
use mz_core::item::Item;
use mz_core::items::Items;
use mz_core::notation::{Meaning, Notation};
use mz_core::notations::Notations;
use mz_core::scheme::{Scheme, SchemeLetter, SchemeLetters};
use mz_core::set_term::{Choice, SetTerm};
use mz_core::statements::Statements;
use mz_core::structure::{Field, Fields, Structure};
use mz_logic::kind::Kind;
use std::alloc::Global;
use std::process::Abort;

/// A letter of a scheme: `SYMBOL PLACES`, of a functor with `-> TYPE` behind it.
pub fn letter(rt: &impl Abort, alloc: Global, text: &'static str) -> SchemeLetter {
    let mut rest = text;
    let sym = sym(rt, front_of(&mut rest, ' '));
    match rest.split_once("->") {
        Some((places, ty)) => {
            let places = soft_types(rt, alloc, places.trim());
            SchemeLetter::OfFunctor(sym, places, soft_type(rt, alloc, ty.trim()))
        }
        None => SchemeLetter::OfPredicate(sym, soft_types(rt, alloc, rest)),
    }
}

/// Letters with `|` between.
fn letters(rt: &impl Abort, alloc: Global, text: &'static str) -> SchemeLetters {
    let mut out = SchemeLetters::new(alloc);
    for one in text.split('|') {
        let one = one.trim();
        if !one.is_empty() {
            out.push(letter(rt, alloc, one)).expect(rt, "memory");
        }
    }
    out
}

/// Statements with `|` between.
fn statements(rt: &impl Abort, alloc: Global, text: &'static str) -> Statements {
    let mut out = Statements::new(alloc);
    for one in text.split('|') {
        let one = one.trim();
        if !one.is_empty() {
            out.push(statement(rt, alloc, one)).expect(rt, "memory");
        }
    }
    out
}

/// `LETTERS ; PREMISES ; CONCLUSION`.
fn scheme(rt: &impl Abort, alloc: Global, line: &mut &'static str) -> Scheme {
    let letters = letters(rt, alloc, field(line));
    let premises = statements(rt, alloc, field(line));
    Scheme {
        letters,
        premises,
        conclusion: statement(rt, alloc, field(line)),
    }
}

/// What a pattern of the word's kind reads to: a type, a term or a literal.
fn meaning(rt: &impl Abort, alloc: Global, kind: Kind, text: &'static str) -> Meaning {
    match kind {
        Kind::Mode => Meaning::OfType(soft_type(rt, alloc, text)),
        Kind::Functor => Meaning::OfTerm(term(rt, alloc, text)),
        _ => Meaning::OfLiteral(literal(rt, alloc, text)),
    }
}

/// The kind with the word.
pub fn kind(word: &str) -> Kind {
    match word {
        "mode" => Kind::Mode,
        "func" => Kind::Functor,
        "attr" => Kind::Attribute,
        _ => Kind::Predicate,
    }
}

/// `KIND ; PATTERN ; LOCI ; MEANING`.
fn notation(rt: &impl Abort, alloc: Global, line: &mut &'static str) -> Notation {
    let kind = kind(field(line));
    Notation {
        pattern: pattern(rt, alloc, kind, line),
        meaning: meaning(rt, alloc, kind, field(line)),
    }
}

/// `SELECTOR TYPE` with `|` between.
fn fields(rt: &impl Abort, alloc: Global, text: &'static str) -> Fields {
    let mut out = Fields::new(alloc);
    for one in text.split('|') {
        let (selector, ty) = one.trim().split_once(' ').expect(rt, "a field");
        let selector = sym(rt, selector);
        let ty = soft_type(rt, alloc, ty);
        out.push(Field { selector, ty }).expect(rt, "memory");
    }
    out
}

/// Modes on a set, each by the type to which it reads, with `|` between.
fn modes_on_a_set(rt: &impl Abort, alloc: Global, text: &'static str) -> Notations {
    let mut out = Notations::new(alloc);
    for one in text.split('|') {
        let one = one.trim();
        if !one.is_empty() {
            let mut line = "; set";
            let notation = Notation {
                pattern: pattern(rt, alloc, Kind::Mode, &mut line),
                meaning: meaning(rt, alloc, Kind::Mode, one),
            };
            out.push(notation).expect(rt, "memory");
        }
    }
    out
}

/// `SYMBOL ; ATTRIBUTE ; AGGREGATE ; LOCI ; ANCESTORS ; FIELDS ; MODES ON A SET`.
fn structure(rt: &impl Abort, alloc: Global, line: &mut &'static str) -> Structure {
    let symbol = sym(rt, field(line));
    let strict = sym(rt, field(line));
    let aggregate = sym(rt, field(line));
    let loci = soft_types(rt, alloc, field(line));
    let ancestors = soft_types(rt, alloc, field(line));
    let fields = fields(rt, alloc, field(line));
    Structure {
        loci,
        sym: symbol,
        strict,
        aggregate,
        ancestors,
        fields,
        notations: modes_on_a_set(rt, alloc, field(line)),
    }
}

/// `SYMBOL ; LOCI ; TYPE ; TERM ; FORMULA`.
fn set_term(rt: &impl Abort, alloc: Global, line: &mut &'static str) -> SetTerm {
    let sym = sym(rt, field(line));
    let loci = soft_types(rt, alloc, field(line));
    let ty = soft_type(rt, alloc, field(line));
    let term = term(rt, alloc, field(line));
    SetTerm {
        loci,
        sym,
        ty,
        term,
        formula: statement(rt, alloc, field(line)),
    }
}

/// `SYMBOL ; LOCI ; TYPE`.
fn choice(rt: &impl Abort, alloc: Global, line: &mut &'static str) -> Choice {
    let sym = sym(rt, field(line));
    let loci = soft_types(rt, alloc, field(line));
    Choice {
        loci,
        sym,
        ty: soft_type(rt, alloc, field(line)),
    }
}

/// What is neither definition nor redefinition, property nor registration.
fn other(rt: &impl Abort, alloc: Global, word: &str, line: &mut &'static str) -> Item {
    match word {
        "theorem" => Item::Theorem(statement(rt, alloc, field(line))),
        "axiom" => Item::Axiom(statement(rt, alloc, field(line))),
        "scheme" => Item::Scheme(scheme(rt, alloc, line)),
        "axiom_scheme" => Item::AxiomScheme(scheme(rt, alloc, line)),
        "abbreviation" => Item::Abbreviation(notation(rt, alloc, line)),
        "notation" => Item::Notation(notation(rt, alloc, line)),
        "primitive" => Item::Primitive(notation(rt, alloc, line)),
        "struct" => Item::Structure(structure(rt, alloc, line)),
        "set_term" => Item::SetTerm(set_term(rt, alloc, line)),
        "choice" => Item::Choice(choice(rt, alloc, line)),
        _ => panic!(rt; "an item"),
    }
}

/// The item of a line: `define`, `redefine`, `property` or `register` with a word of its kind, or a word alone, and its fields.
pub fn item(rt: &impl Abort, alloc: Global, text: &'static str) -> Item {
    let mut line = text;
    match front_of(&mut line, ' ') {
        "define" => {
            let word = front_of(&mut line, ' ');
            definition(rt, alloc, word, &mut line)
        }
        "redefine" => {
            let word = front_of(&mut line, ' ');
            redefinition(rt, alloc, word, &mut line)
        }
        "property" => {
            let word = front_of(&mut line, ' ');
            property(rt, alloc, word, &mut line)
        }
        "register" => {
            let word = front_of(&mut line, ' ');
            registration(rt, alloc, word, &mut line)
        }
        word => other(rt, alloc, word, &mut line),
    }
}

/// The items of the lines.
pub fn items(rt: &impl Abort, alloc: Global, text: &'static str) -> Items {
    let mut out = Items::new(alloc);
    for line in text.lines() {
        out.push(item(rt, alloc, line)).expect(rt, "memory");
    }
    out
}
