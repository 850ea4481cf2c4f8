//! One loop over each table.
use crate::rows::{FIXED, KEPT, VERDICTS};
use mz_base::text::Text;
use mz_context::constants::{Constant, Constants};
use mz_core::adjectives::Adjectives;
use mz_core::hidden::object_type;
use mz_core::radix::Radix;
use mz_core::scheme::{Scheme, SchemeLetter, SchemeLetters};
use mz_core::soft_type::SoftType;
use mz_core::soft_types::SoftTypes;
use mz_core::statement::Statement;
use mz_core::statements::Statements;
use mz_following::following::follow;
use mz_from::kept::from_keeps;
use mz_from::verdict::fit_scheme;
use mz_ground::clause::Clause;
use mz_logic::formula::{Formula, FormulaNode};
use mz_logic::formulas::Formulas;
use mz_logic::letters::{Body, Letter, Letters};
use mz_logic::term::Terms;
use mz_obligations::obligation::SchemeVerdict;
use mz_samples::fault::SampleFault;
use mz_samples::forms::formula;
use mz_samples::parts::{letters, sequent};
use mz_samples::symbols::symbol;
use std::alloc::{AllocError, Global};
use std::process::Abort;

/// The statement without types that is erased to the formula.
fn statement(alloc: Global, f: &Formula) -> Result<Statement, AllocError> {
    match &f.node {
        FormulaNode::Truth => Ok(Statement::truth()),
        FormulaNode::Eq(t, u) => Ok(Statement::equation(t.copy(alloc)?, u.copy(alloc)?)),
        FormulaNode::Atom(s, ts) => Ok(Statement::atom(*s, ts.copy(alloc)?)),
        FormulaNode::Not(f) => {
            let s = statement(alloc, f)?;
            Statement::not(alloc, s)
        }
        FormulaNode::And(f, g) => {
            let s = statement(alloc, f)?;
            let t = statement(alloc, g)?;
            Statement::and(alloc, s, t)
        }
        FormulaNode::All(f) => {
            let s = statement(alloc, f)?;
            Statement::each(alloc, object_type(alloc), s)
        }
    }
}

fn statements(alloc: Global, fs: &Formulas) -> Result<Statements, AllocError> {
    let mut out = Statements::new(alloc);
    for f in &fs.items {
        out.push(statement(alloc, f)?)?;
    }
    Ok(out)
}

/// The type of a word: `object`, or a mode without arguments.
fn soft_type(alloc: Global, word: &str) -> Result<SoftType, SampleFault> {
    if word == "object" {
        return Ok(object_type(alloc));
    }
    let sym = symbol(word).ok_or(SampleFault::Text)?;
    Ok(SoftType {
        adjectives: Adjectives::new(alloc),
        radix: Radix {
            sym,
            args: Terms::new(alloc),
        },
    })
}

/// A functor letter: its symbol, its type and the types of its places.
fn scheme_letter(alloc: Global, word: &str) -> Result<SchemeLetter, SampleFault> {
    let (name, rest) = word.split_once(':').ok_or(SampleFault::Text)?;
    let letter = symbol(name).ok_or(SampleFault::Text)?;
    let mut parts = rest.split(':');
    let ty = soft_type(alloc, parts.next().ok_or(SampleFault::Text)?)?;
    let mut places = SoftTypes::new(alloc);
    for place in parts {
        places.push(soft_type(alloc, place)?)?;
    }
    Ok(SchemeLetter::OfFunctor(letter, places, ty))
}

fn scheme(alloc: Global, of_functors: &str, text: &str) -> Result<Scheme, SampleFault> {
    let mut letters = SchemeLetters::new(alloc);
    for word in of_functors.split_whitespace() {
        letters.push(scheme_letter(alloc, word)?)?;
    }
    let q = sequent(alloc, text)?;
    let premises = statements(alloc, &q.premises)?;
    let conclusion = statement(alloc, &q.conclusion)?;
    Ok(Scheme {
        letters,
        premises,
        conclusion,
    })
}

/// The constants c1 of the mode `A.M1`, and c2 to c4 of no type.
fn constants(alloc: Global) -> Result<Constants, SampleFault> {
    let mut out = Constants::new(alloc);
    for word in ["A.M1", "object", "object", "object"] {
        out.push(Constant {
            name: Text::new(alloc),
            ty: soft_type(alloc, word)?,
            equal: None,
        })?;
    }
    Ok(out)
}

fn verdict_of(
    alloc: Global,
    of_functors: &str,
    of_scheme: &str,
    step: &str,
) -> Result<SchemeVerdict, SampleFault> {
    let scheme = scheme(alloc, of_functors, of_scheme)?;
    let constants = constants(alloc)?;
    let q = sequent(alloc, step)?;
    let cited = statements(alloc, &q.premises)?;
    let s = statement(alloc, &q.conclusion)?;
    let none: [Clause; 0] = [];
    Ok(fit_scheme(alloc, &none, &constants, &scheme, &cited, &s)?)
}

fn is_kept(
    alloc: Global,
    of_functors: &str,
    of_scheme: &str,
    step: &str,
) -> Result<bool, SampleFault> {
    let scheme = scheme(alloc, of_functors, of_scheme)?;
    let q = sequent(alloc, step)?;
    let cited = statements(alloc, &q.premises)?;
    let s = statement(alloc, &q.conclusion)?;
    Ok(from_keeps(alloc, &scheme, &cited, &s)?)
}

fn number(word: &str) -> Option<u64> {
    let (digit, rest) = word.as_bytes().split_first()?;
    if rest.is_empty() && digit.is_ascii_digit() {
        Some((*digit - b'0') as u64)
    } else {
        None
    }
}

fn verdict(text: &str) -> Option<SchemeVerdict> {
    match text {
        "fits" => Some(SchemeVerdict::Fits),
        "no fit" => Some(SchemeVerdict::NoFit),
        _ => match text.split_once(' ')? {
            ("count", n) => Some(SchemeVerdict::PremiseCount(number(n)?)),
            ("premise", n) => Some(SchemeVerdict::PremiseNoFit(number(n)?)),
            _ => None,
        },
    }
}

fn is_row(line: &str) -> bool {
    !line.is_empty() && !line.starts_with(';')
}

fn is_same(x: &Letter, y: &Letter) -> bool {
    x.letter.is(y.letter)
        && match (&x.body, &y.body) {
            (Body::OfTerm(t), Body::OfTerm(u)) => t.equals(u),
            (Body::OfFormula(f), Body::OfFormula(g)) => f.equals(g),
            _ => false,
        }
}

fn are_same(xs: &Letters, ys: &Letters) -> bool {
    if xs.items.len() != ys.items.len() {
        return false;
    }
    for i in 0..xs.items.len() {
        if !is_same(&xs.items[i], &ys.items[i]) {
            return false;
        }
    }
    true
}

fn fixes(alloc: Global, of_scheme: &str, beside: &str, wanted: &str) -> Result<bool, SampleFault> {
    let f = formula(alloc, of_scheme)?;
    let g = formula(alloc, beside)?;
    let mut found = Letters::new(alloc);
    follow(alloc, &mut found, &f, &g)?;
    let mut all = Letters::new(alloc);
    for entry in wanted.split(';') {
        if !entry.trim().is_empty() {
            let mut one = letters(alloc, entry.trim())?;
            let l = one.items.pop();
            all.push(l.ok_or(SampleFault::Text)?)?;
        }
    }
    Ok(are_same(&found, &all))
}

#[test]
fn letters_are_fixed(rt: HostRuntime) {
    let alloc = rt.alloc();
    for line in FIXED.lines() {
        if is_row(line) {
            let (of_scheme, rest) = line.split_once('#').expect(&rt, "a row");
            let (beside, wanted) = rest.split_once('#').expect(&rt, "a row");
            let same = fixes(alloc, of_scheme, beside, wanted).expect(&rt, "formulas");
            assert!(rt; same, "{line}");
        }
    }
}

#[test]
fn schemes_are_judged(rt: HostRuntime) {
    let alloc = rt.alloc();
    for line in VERDICTS.lines() {
        if is_row(line) {
            let (of_functors, rest) = line.split_once('#').expect(&rt, "a row");
            let (of_scheme, rest) = rest.split_once('#').expect(&rt, "a row");
            let (step, wanted) = rest.split_once('#').expect(&rt, "a row");
            let wanted = verdict(wanted.trim()).expect(&rt, "a verdict");
            let found = verdict_of(alloc, of_functors, of_scheme, step).expect(&rt, "sequents");
            assert!(rt; found == wanted, "{line}");
        }
    }
}

#[test]
fn instances_keep_the_limits(rt: HostRuntime) {
    let alloc = rt.alloc();
    for line in KEPT.lines() {
        if is_row(line) {
            let (of_functors, rest) = line.split_once('#').expect(&rt, "a row");
            let (of_scheme, rest) = rest.split_once('#').expect(&rt, "a row");
            let (step, wanted) = rest.split_once('#').expect(&rt, "a row");
            let kept = is_kept(alloc, of_functors, of_scheme, step).expect(&rt, "a scheme");
            assert!(rt; kept == (wanted.trim() == "kept"), "{line}");
        }
    }
}
