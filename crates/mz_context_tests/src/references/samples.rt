//! References, and what they may cite. Each statement says that a constant is equal to itself, and is named by that.
use mz_base::name::Name;
use mz_base::place::Place;
use mz_base::text::Text;
use mz_context::context::Context;
use mz_context::labelled::LabelledStatement;
use mz_core::statement::Statement;
use mz_core::statements::Statements;
use mz_environment::cited::CitedStatement;
use mz_environment::environment::Environment;
use mz_item_samples::contexts::start;
use mz_logic::term::Term;
use mz_tree::chain::Next;
use mz_tree::lists::{Separated, Trees};
use mz_tree::word::{Comma, Word};
use mz_tree_proof::references::{NumberTree, ReferenceTree};
use std::alloc::Global;
use std::process::Abort;

/// A reference: its column, its label or article, and its numbers: a digit for a theorem, and for a definitional theorem
/// the letter that comes as far in the alphabet.
pub type R = (u64, &'static str, &'static str);

fn named(number: u32) -> Statement {
    Statement::equation(Term::constant(number), Term::constant(number))
}

fn text(rt: &impl Abort, alloc: Global, bytes: &[u8]) -> Text {
    Text::from_slice(alloc, bytes).expect(rt, "memory")
}

/// The statements that are named so.
pub fn statements(rt: &impl Abort, alloc: Global, numbers: &[u32]) -> Statements {
    let mut out = Statements::new(alloc);
    for number in numbers {
        out.push(named(*number)).expect(rt, "memory");
    }
    out
}

fn number_of(article: &str) -> u64 {
    match Name::read(article.as_bytes()) {
        Ok(name) => name.number,
        Err(_) => 0,
    }
}

/// What may be cited by number: the article, whether it is a definitional theorem, its number and its statement.
const CITABLE: [(&str, bool, u64, u32); 6] = [
    ("TARSKI", false, 1, 10),
    ("TARSKI", true, 1, 12),
    ("TARSKI", false, 2, 11),
    ("XBOOLE_0", true, 1, 21),
    ("XBOOLE_0", true, 2, 22),
    ("XBOOLE_0", false, 1, 20),
];

/// An environment in which all of these may be cited.
pub fn environment(rt: &impl Abort, alloc: Global) -> Environment {
    let mut env = Environment::new(alloc);
    for (article, is_definition, number, name) in &CITABLE {
        let s = CitedStatement {
            article: number_of(article),
            is_definition: *is_definition,
            number: *number,
            statement: named(*name),
        };
        env.theorems.push(s).expect(rt, "memory");
    }
    env
}

/// Labels and what they stand for, the latest last.
const LABELS: [(&str, u32); 3] = [("A1", 1), ("A2", 2), ("A1", 3)];

/// A context with these labels.
pub fn context(rt: &impl Abort, alloc: Global) -> Context {
    let mut ctx = start(alloc, 0);
    for (label, name) in &LABELS {
        let label = text(rt, alloc, label.as_bytes());
        let statement = named(*name);
        ctx.labelled
            .push(LabelledStatement { label, statement })
            .expect(rt, "memory");
    }
    ctx
}

fn word(rt: &impl Abort, alloc: Global, column: u64, spelling: &[u8]) -> Word {
    let spelling = text(rt, alloc, spelling);
    let place = Place { line: 1, column };
    Word { place, spelling }
}

fn comma() -> Comma {
    Comma {
        place: Place::start(),
        dividing: false,
    }
}

fn number(rt: &impl Abort, alloc: Global, byte: u8) -> NumberTree {
    if byte >= 65 {
        let number = word(rt, alloc, 1, &[byte - 16]);
        let def = Place::start();
        NumberTree::Definition { def, number }
    } else {
        let number = word(rt, alloc, 1, &[byte]);
        NumberTree::Theorem(number)
    }
}

fn numbers(rt: &impl Abort, alloc: Global, first: u8, others: &[u8]) -> Separated<NumberTree> {
    let first = number(rt, alloc, first);
    let mut items = Vec::new(alloc);
    for byte in others {
        let tree = number(rt, alloc, *byte);
        let next = Next {
            sign: comma(),
            tree,
        };
        items.push(next).expect(rt, "memory");
    }
    Separated {
        first,
        more: Trees { items },
    }
}

fn reference(rt: &impl Abort, alloc: Global, r: R) -> ReferenceTree {
    let head = word(rt, alloc, r.0, r.1.as_bytes());
    match r.2.as_bytes() {
        [] => ReferenceTree::Label(head),
        [first, others @ ..] => {
            let numbers = numbers(rt, alloc, *first, others);
            let colon = Place::start();
            ReferenceTree::Numbered {
                article: head,
                colon,
                numbers,
            }
        }
    }
}

/// The references, in their order.
pub fn references(
    rt: &impl Abort,
    alloc: Global,
    first: R,
    others: &[R],
) -> Separated<ReferenceTree> {
    let first = reference(rt, alloc, first);
    let mut items = Vec::new(alloc);
    for r in others {
        let tree = reference(rt, alloc, *r);
        let next = Next {
            sign: comma(),
            tree,
        };
        items.push(next).expect(rt, "memory");
    }
    Separated {
        first,
        more: Trees { items },
    }
}
