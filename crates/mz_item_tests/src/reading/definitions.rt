//! Definitions and redefinitions, read from the fields of a line.
use crate::reading::parts::{field, literal, pattern, soft_type, some_type, statement, sym, term};
use mz_core::definition::{AtomDefinition, AttributeDefinition, EqualsDefinition, MeansDefinition};
use mz_core::formula_definiens::{FormulaCase, FormulaCases, FormulaDefiniens};
use mz_core::item::Item;
use mz_core::redefinition::{
    AtomRedefinition, FunctorMeaning, FunctorRedefinition, ModeRedefinition,
};
use mz_core::term_definiens::{TermCase, TermCases, TermDefiniens};
use mz_logic::kind::Kind;
use mz_samples::symbols::number;
use std::alloc::Global;
use std::process::Abort;

/// `F if C` with `|` between.
fn formula_cases(rt: &impl Abort, alloc: Global, text: &'static str) -> FormulaCases {
    let mut out = FormulaCases::new(alloc);
    for one in text.split('|') {
        let (definiens, condition) = one.split_once(" if ").expect(rt, "a case");
        let case = FormulaCase {
            condition: statement(rt, alloc, condition.trim()),
            definiens: statement(rt, alloc, definiens.trim()),
        };
        out.push(case).expect(rt, "memory");
    }
    out
}

/// A formula; or cases with `|` between, `F if C`, and `otherwise F` behind them or nothing.
fn formula_definiens(rt: &impl Abort, alloc: Global, text: &'static str) -> FormulaDefiniens {
    if let Some((cases, last)) = text.split_once(" otherwise ") {
        let cases = formula_cases(rt, alloc, cases);
        FormulaDefiniens::CasesOtherwise(cases, statement(rt, alloc, last))
    } else if text.contains(" if ") {
        FormulaDefiniens::Cases(formula_cases(rt, alloc, text))
    } else {
        FormulaDefiniens::Plain(statement(rt, alloc, text))
    }
}

/// The same of terms.
fn term_cases(rt: &impl Abort, alloc: Global, text: &'static str) -> TermCases {
    let mut out = TermCases::new(alloc);
    for one in text.split('|') {
        let (definiens, condition) = one.split_once(" if ").expect(rt, "a case");
        let case = TermCase {
            condition: statement(rt, alloc, condition.trim()),
            definiens: term(rt, alloc, definiens),
        };
        out.push(case).expect(rt, "memory");
    }
    out
}

fn term_definiens(rt: &impl Abort, alloc: Global, text: &'static str) -> TermDefiniens {
    if let Some((cases, last)) = text.split_once(" otherwise ") {
        let cases = term_cases(rt, alloc, cases);
        TermDefiniens::CasesOtherwise(cases, term(rt, alloc, last))
    } else if text.contains(" if ") {
        TermDefiniens::Cases(term_cases(rt, alloc, text))
    } else {
        TermDefiniens::Plain(term(rt, alloc, text))
    }
}

/// `SYMBOL ; PATTERN ; LOCI ; TYPE ; FORMULAS`.
fn means(rt: &impl Abort, alloc: Global, kind: Kind, line: &mut &'static str) -> MeansDefinition {
    let sym = sym(rt, field(line));
    let pattern = pattern(rt, alloc, kind, line);
    let ty = soft_type(rt, alloc, field(line));
    MeansDefinition {
        pattern,
        sym,
        ty,
        definiens: formula_definiens(rt, alloc, field(line)),
    }
}

/// `SYMBOL ; PATTERN ; LOCI ; TYPE ; TERMS`.
fn equals(rt: &impl Abort, alloc: Global, line: &mut &'static str) -> EqualsDefinition {
    let sym = sym(rt, field(line));
    let pattern = pattern(rt, alloc, Kind::Functor, line);
    let ty = soft_type(rt, alloc, field(line));
    EqualsDefinition {
        pattern,
        sym,
        ty,
        definiens: term_definiens(rt, alloc, field(line)),
    }
}

/// `SYMBOL ; PATTERN ; LOCI ; FORMULAS`.
fn predicate(rt: &impl Abort, alloc: Global, line: &mut &'static str) -> AtomDefinition {
    let sym = sym(rt, field(line));
    AtomDefinition {
        pattern: pattern(rt, alloc, Kind::Predicate, line),
        sym,
        definiens: formula_definiens(rt, alloc, field(line)),
    }
}

/// `SYMBOL ; PATTERN ; LOCI ; SUBJECT ; FORMULAS`, where the subject is the number of a locus.
fn attribute(rt: &impl Abort, alloc: Global, line: &mut &'static str) -> AttributeDefinition {
    let sym = sym(rt, field(line));
    let pattern = pattern(rt, alloc, Kind::Attribute, line);
    AttributeDefinition {
        pattern,
        subject: number(field(line).as_bytes()).expect(rt, "a number"),
        sym,
        definiens: formula_definiens(rt, alloc, field(line)),
    }
}

/// A definition.
pub fn definition(rt: &impl Abort, alloc: Global, word: &str, line: &mut &'static str) -> Item {
    match word {
        "func_means" => Item::FunctorMeans(means(rt, alloc, Kind::Functor, line)),
        "func_equals" => Item::FunctorEquals(equals(rt, alloc, line)),
        "mode" => Item::ModeMeans(means(rt, alloc, Kind::Mode, line)),
        "pred" => Item::Predicate(predicate(rt, alloc, line)),
        "attr" => Item::Attribute(attribute(rt, alloc, line)),
        _ => panic!(rt; "a definition"),
    }
}

/// The formulas of the text, if there are any.
fn meaning(rt: &impl Abort, alloc: Global, text: &'static str) -> Option<FormulaDefiniens> {
    if text.is_empty() {
        None
    } else {
        Some(formula_definiens(rt, alloc, text))
    }
}

/// `PATTERN ; LOCI ; TERM ; OLD TYPE ; NEW TYPE ; FORMULAS`, where the last two may be empty.
fn functor_again(rt: &impl Abort, alloc: Global, line: &mut &'static str) -> FunctorRedefinition {
    let pattern = pattern(rt, alloc, Kind::Functor, line);
    let term = term(rt, alloc, field(line));
    let old = soft_type(rt, alloc, field(line));
    let ty = some_type(rt, alloc, field(line));
    let meaning = match meaning(rt, alloc, field(line)) {
        Some(d) => Some(FunctorMeaning::Means(d)),
        None => None,
    };
    FunctorRedefinition {
        pattern,
        term,
        old,
        ty,
        meaning,
    }
}

/// `PATTERN ; LOCI ; TYPE ; OLD TYPE ; NEW TYPE ; FORMULAS`, where the last two may be empty.
fn mode_again(rt: &impl Abort, alloc: Global, line: &mut &'static str) -> ModeRedefinition {
    let pattern = pattern(rt, alloc, Kind::Mode, line);
    let mode = soft_type(rt, alloc, field(line));
    let old = soft_type(rt, alloc, field(line));
    let ty = some_type(rt, alloc, field(line));
    ModeRedefinition {
        pattern,
        mode,
        old,
        ty,
        meaning: meaning(rt, alloc, field(line)),
    }
}

/// `PATTERN ; LOCI ; LITERAL ; FORMULAS`, where the last may be empty.
fn atom_again(
    rt: &impl Abort,
    alloc: Global,
    kind: Kind,
    line: &mut &'static str,
) -> AtomRedefinition {
    let pattern = pattern(rt, alloc, kind, line);
    let literal = literal(rt, alloc, field(line));
    AtomRedefinition {
        pattern,
        literal,
        meaning: meaning(rt, alloc, field(line)),
    }
}

/// A redefinition.
pub fn redefinition(rt: &impl Abort, alloc: Global, word: &str, line: &mut &'static str) -> Item {
    match word {
        "func" => Item::RedefinedFunctor(functor_again(rt, alloc, line)),
        "mode" => Item::RedefinedMode(mode_again(rt, alloc, line)),
        "pred" => Item::RedefinedPredicate(atom_again(rt, alloc, Kind::Predicate, line)),
        "attr" => Item::RedefinedAttribute(atom_again(rt, alloc, Kind::Attribute, line)),
        _ => panic!(rt; "a redefinition"),
    }
}
