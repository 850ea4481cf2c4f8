//! Statements, variables and parts of a `now`, read from their texts.
use mz_base::text::Text;
use mz_core::soft_type::SoftType;
use mz_core::statement::Statement;
use mz_item_samples::statements::statement;
use mz_item_samples::types::{SET, TypeRow, ty};
use mz_logic::term::Term;
use mz_names::variable::{Variable, Variables};
use mz_now::now_part::{NowPart, NowParts};
use mz_samples::forms::term;
use std::alloc::Global;
use std::process::Abort;

/// A part of a `now`: its letter, its constant, its type, and its statement or term. The letters: `q` a quantifier, `a`
/// an antecedent, `c` a conjunct, `d` a definition, `h` a hidden constant.
pub type P = (char, u32, TypeRow, &'static str);

fn type_of(rt: &impl Abort, alloc: Global, t: TypeRow) -> SoftType {
    ty(alloc, t).expect(rt, "a type")
}

/// The term of the text.
pub fn term_of(rt: &impl Abort, alloc: Global, text: &str) -> Term {
    term(alloc, text).expect(rt, "a term")
}

/// The statement of the text, in which each quantifier has the type `set`.
pub fn statement_of(rt: &impl Abort, alloc: Global, text: &str) -> Statement {
    statement(alloc, text, &[], SET).expect(rt, "a statement")
}

/// The part that is written so.
pub fn part(rt: &impl Abort, alloc: Global, p: P) -> NowPart {
    match p.0 {
        'q' => NowPart::Quantifier {
            constant: p.1,
            ty: type_of(rt, alloc, p.2),
        },
        'a' => NowPart::Antecedent(statement_of(rt, alloc, p.3)),
        'c' => NowPart::Conjunct(statement_of(rt, alloc, p.3)),
        'd' => NowPart::Defined {
            constant: p.1,
            term: term_of(rt, alloc, p.3),
        },
        _ => NowPart::Hidden { constant: p.1 },
    }
}

/// The parts, in their order.
pub fn parts(rt: &impl Abort, alloc: Global, ps: &[P]) -> NowParts {
    let mut out = NowParts::new(alloc);
    for p in ps {
        out.push(part(rt, alloc, *p)).expect(rt, "memory");
    }
    out
}

/// So many conjuncts of one node.
pub fn conjuncts(rt: &impl Abort, alloc: Global, count: usize) -> NowParts {
    let mut out = NowParts::new(alloc);
    for _ in 0..count {
        out.push(NowPart::Conjunct(Statement::truth()))
            .expect(rt, "memory");
    }
    out
}

/// A variable of the type, without a name.
pub fn variable(rt: &impl Abort, alloc: Global, t: TypeRow) -> Variable {
    Variable {
        name: Text::new(alloc),
        ty: type_of(rt, alloc, t),
    }
}

/// One variable of the type.
pub fn variables(rt: &impl Abort, alloc: Global, t: TypeRow) -> Variables {
    let mut out = Variables::new(alloc);
    out.push(variable(rt, alloc, t)).expect(rt, "memory");
    out
}
