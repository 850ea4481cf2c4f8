//! Statements of so many nodes, and those of what they are joined to.
use mz_base::place::Place;
use mz_base::text::Text;
use mz_core::hidden::set_type;
use mz_core::statement::Statement;
use mz_joined::bound::{for_all_within, there_are_within};
use mz_joined::joined::{conjoined, denied, disjoined, equated, implied, thesis_at, under};
use mz_names::refusal::Refusal;
use mz_names::variable::{Variable, Variables};
use mz_sizes::nodes::after_statement;
use std::alloc::Global;
use std::mem::forget;
use std::process::Abort;

#[derive(Clone, Copy, Debug, PartialEq, Eq)]
enum Join {
    And,
    Or,
    Implies,
    Iff,
    SuchThat,
    Not,
    Thesis,
    ForAll,
    ThereAre,
}

const PLACE: Place = Place { line: 1, column: 7 };

/// `s & s`; with `not` in front of the first where one node more is wanted.
fn twice(rt: &impl Abort, alloc: Global, s: Statement, more: bool) -> Statement {
    let copy = s.copy(alloc).expect(rt, "memory");
    let first = if more {
        Statement::not(alloc, copy).expect(rt, "memory")
    } else {
        copy
    };
    Statement::and(alloc, first, s).expect(rt, "memory")
}

/// A statement of so many nodes: of the half of them, taken twice.
fn of_nodes(rt: &impl Abort, alloc: Global, nodes: u32) -> Statement {
    let mut s = Statement::truth();
    for k in 0..17u32 {
        let half = nodes.saturating_add(1) >> (16 - k);
        if half == 3 {
            s = Statement::not(alloc, s).expect(rt, "memory");
        } else if half > 3 {
            s = twice(rt, alloc, s, half % 2 == 1);
        }
    }
    s
}

fn one_set(rt: &impl Abort, alloc: Global) -> Variables {
    let v = Variable {
        name: Text::new(alloc),
        ty: set_type(alloc),
    };
    let mut out = Variables::new(alloc);
    out.push(v).expect(rt, "memory");
    out
}

fn quantified(
    rt: &impl Abort,
    alloc: Global,
    join: Join,
    s: Statement,
) -> Result<Statement, Refusal> {
    let vs = one_set(rt, alloc);
    let o = match join {
        Join::ForAll => for_all_within(alloc, PLACE, 1, vs.items.as_slice(), s),
        _ => there_are_within(alloc, PLACE, 1, vs.items.as_slice(), s),
    };
    forget(vs);
    o.expect(rt, "memory")
}

fn alone(rt: &impl Abort, alloc: Global, join: Join, s: Statement) -> Result<Statement, Refusal> {
    match join {
        Join::Not => denied(alloc, PLACE, Ok(s)).expect(rt, "memory"),
        Join::Thesis => thesis_at(alloc, PLACE, &Some(s)).expect(rt, "memory"),
        _ => quantified(rt, alloc, join, s),
    }
}

fn joined(
    rt: &impl Abort,
    alloc: Global,
    join: Join,
    s: Statement,
    t: Statement,
) -> Result<Statement, Refusal> {
    let o = match join {
        Join::And => conjoined(alloc, PLACE, s, Ok(t)),
        Join::Or => disjoined(alloc, PLACE, s, Ok(t)),
        Join::Implies => implied(alloc, PLACE, s, Ok(t)),
        Join::Iff => equated(alloc, PLACE, s, Ok(t)),
        _ => under(alloc, s, Ok(t)),
    };
    o.expect(rt, "memory")
}

/// How many nodes there are; none where it is too large at the place.
fn nodes_of(rt: &impl Abort, o: Result<Statement, Refusal>) -> Option<u32> {
    match o {
        Ok(s) => {
            let rest = after_statement(&s, 1000000).expect(rt, "a small statement");
            forget(s);
            Some(1000000u32.saturating_sub(rest))
        }
        Err(Refusal::TooLarge(PLACE)) => None,
        Err(_) => rt.abort(),
    }
}

/// How it is joined, the nodes of the statements, and those of what they are joined to.
type Row = (Join, u32, u32, Option<u32>);

const TWO: [Row; 9] = [
    (Join::And, 32768, 32767, Some(65536)),
    (Join::And, 32768, 32768, None),
    (Join::Or, 32766, 32766, Some(65536)),
    (Join::Or, 32767, 32766, None),
    (Join::Implies, 32767, 32766, Some(65536)),
    (Join::Implies, 32767, 32767, None),
    (Join::Iff, 16382, 16382, Some(65535)),
    (Join::Iff, 16383, 16382, None),
    // tested with its quantifier
    (Join::SuchThat, 32767, 32767, Some(65537)),
];

#[test]
fn two_statements(rt: HostRuntime) {
    for (join, first, second, wanted) in &TWO {
        let s = of_nodes(&rt, rt.alloc(), *first);
        let t = of_nodes(&rt, rt.alloc(), *second);
        let found = nodes_of(&rt, joined(&rt, rt.alloc(), *join, s, t));
        assert!(rt; found == *wanted, "{first} and {second}");
    }
}

const ONE: [(Join, u32, Option<u32>); 8] = [
    (Join::Not, 65535, Some(65536)),
    (Join::Not, 65536, None),
    (Join::Thesis, 65536, Some(65536)),
    (Join::Thesis, 65537, None),
    (Join::ForAll, 65534, Some(65536)),
    (Join::ForAll, 65535, None),
    (Join::ThereAre, 65532, Some(65536)),
    (Join::ThereAre, 65533, None),
];

#[test]
fn one_statement(rt: HostRuntime) {
    for (join, nodes, wanted) in &ONE {
        let s = of_nodes(&rt, rt.alloc(), *nodes);
        let found = nodes_of(&rt, alone(&rt, rt.alloc(), *join, s));
        assert!(rt; found == *wanted, "{nodes}");
    }
}

/// A double negation isn't kept, and what was refused stays so.
#[test]
fn negations_and_refusals(rt: HostRuntime) {
    let s = Statement::not(rt.alloc(), of_nodes(&rt, rt.alloc(), 65536)).expect(&rt, "memory");
    assert!(rt; nodes_of(&rt, alone(&rt, rt.alloc(), Join::Not, s)) == Some(65536));
    let refused = Err(Refusal::TooLarge(PLACE));
    let o = conjoined(rt.alloc(), PLACE, Statement::truth(), refused).expect(&rt, "memory");
    assert!(rt; nodes_of(&rt, o).is_none());
    let o = thesis_at(rt.alloc(), PLACE, &None).expect(&rt, "memory");
    assert!(rt; matches!(o, Err(Refusal::UnknownVariable(PLACE))));
}
