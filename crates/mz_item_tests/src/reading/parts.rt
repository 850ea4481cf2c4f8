//! Fields of a line, and the parts of items that stand in them. What is none stops the test.
use mz_base::numbers::Numbers;
use mz_base::text::Text;
use mz_core::adjectives::Adjectives;
use mz_core::hidden::{object_type, set_type};
use mz_core::pattern::Pattern;
use mz_core::soft_type::SoftType;
use mz_core::soft_types::SoftTypes;
use mz_core::statement::Statement;
use mz_item_samples::types::{OBJECT, TypeRow};
use mz_item_samples::{statements, types};
use mz_logic::kind::Kind;
use mz_logic::literal::Literal;
use mz_logic::sym::Sym;
use mz_logic::term::Term;
use mz_samples::symbols::{number, symbol};
use mz_samples::{forms, parts};
use std::alloc::Global;
use std::process::Abort;

/// What stands in front of the first mark, without blanks around it; the line goes on behind the mark.
pub fn front_of(line: &mut &'static str, mark: char) -> &'static str {
    let all: &'static str = *line;
    match all.split_once(mark) {
        Some((front, behind)) => {
            *line = behind;
            front.trim()
        }
        None => {
            *line = "";
            all.trim()
        }
    }
}

/// The first field of the line.
pub fn field(line: &mut &'static str) -> &'static str {
    front_of(line, ';')
}

/// The symbol of the text.
pub fn sym(rt: &impl Abort, text: &str) -> Sym {
    symbol(text).expect(rt, "a symbol")
}

/// The term of the text.
pub fn term(rt: &impl Abort, alloc: Global, text: &str) -> Term {
    forms::term(alloc, text).expect(rt, "a term")
}

/// The literal of the text.
pub fn literal(rt: &impl Abort, alloc: Global, text: &str) -> Literal {
    parts::literal(alloc, text).expect(rt, "a literal")
}

/// The adjectives of the text, each as a literal without its last argument.
pub fn adjectives(rt: &impl Abort, alloc: Global, text: &str) -> Adjectives {
    types::adjectives(alloc, text).expect(rt, "adjectives")
}

/// The radix and the adjectives of `RADIX` or `RADIX with ADJECTIVES`.
fn type_row(text: &'static str) -> TypeRow {
    match text.split_once(" with ") {
        Some(row) => row,
        None => (text, ""),
    }
}

/// The type `object`, `set`, or one of a radix with its adjectives.
pub fn soft_type(rt: &impl Abort, alloc: Global, text: &'static str) -> SoftType {
    match text {
        "object" => object_type(alloc),
        "set" => set_type(alloc),
        _ => types::ty(alloc, type_row(text)).expect(rt, "a type"),
    }
}

/// The type of the text, if there is one.
pub fn some_type(rt: &impl Abort, alloc: Global, text: &'static str) -> Option<SoftType> {
    if text.is_empty() {
        None
    } else {
        Some(soft_type(rt, alloc, text))
    }
}

/// Types with commas between, each under those before it.
pub fn soft_types(rt: &impl Abort, alloc: Global, text: &'static str) -> SoftTypes {
    let mut out = SoftTypes::new(alloc);
    for one in text.split(',') {
        let one = one.trim();
        if !one.is_empty() {
            out.push(soft_type(rt, alloc, one)).expect(rt, "memory");
        }
    }
    out
}

/// The statement of a formula, whose quantifiers are of objects or, in `FORMULA over TYPE`, of the type.
pub fn statement(rt: &impl Abort, alloc: Global, text: &'static str) -> Statement {
    let s = match text.split_once(" over ") {
        Some((f, t)) => statements::statement(alloc, f, &[], type_row(t)),
        None => statements::statement(alloc, text, &[], OBJECT),
    };
    s.expect(rt, "a statement")
}

/// Puts the place on the side of the symbol where it stands.
fn put_place(rt: &impl Abort, p: &mut Pattern, place: u32) {
    let place = u64::from(place);
    let put = if p.symbol.is_empty() {
        p.left.push(place)
    } else {
        p.right.push(place)
    };
    put.expect(rt, "memory");
}

/// The pattern of a field and the field of its loci: its symbol, if it has one, with the places of the visible loci before and
/// behind it.
pub fn pattern(rt: &impl Abort, alloc: Global, kind: Kind, line: &mut &'static str) -> Pattern {
    let words = field(line);
    let loci = soft_types(rt, alloc, field(line));
    let mut p = Pattern {
        symbol: Text::new(alloc),
        closing: Text::new(alloc),
        kind,
        loci,
        left: Numbers::new(alloc),
        right: Numbers::new(alloc),
    };
    for word in words.split_whitespace() {
        match number(word.as_bytes()) {
            Some(place) => put_place(rt, &mut p, place),
            None => {
                let word = word.as_bytes();
                p.symbol.extend_from_slice(word).expect(rt, "memory");
            }
        }
    }
    p
}

/// The row without the comment that may stand in its first line, behind `#`.
pub fn without_comment(row: &'static str) -> &'static str {
    let mut rest = row;
    if row.starts_with("# ") {
        front_of(&mut rest, '\n');
    }
    rest
}
