//! Environments of made exports, by lists of their entries, and the faults of environment parts, worked out by hand.
mod lists;
mod samples;

use crate::answers::put;
use crate::environments::lists::lists_of;
use crate::environments::samples::{CIRCLE, EXPORTS, NESTED, OF_T, exports, name};
use crate::reading::items::items;
use crate::reading::parts::{front_of, sym};
use mz_axioms::exports::Exports;
use mz_base::head::{DirectiveKind, Head};
use mz_base::text::Text;
use mz_env::accommodate::accommodate;
use mz_env::env_fault::EnvFault;
use mz_environment::environment::Environment;
use mz_environment::numbering::Numbering;
use mz_lex::head::head;
use mz_logic::sym::Sym;
use std::alloc::Global;
use std::mem::forget;
use std::process::Abort;

/// The environment part, whose directives are all of the kind where one is given.
fn head_of(rt: &impl Abort, alloc: Global, text: &str, kind: Option<DirectiveKind>) -> Head {
    let mut head = head(alloc, text.as_bytes()).expect(rt, "an environment part");
    if let Some(kind) = kind {
        for d in &mut head.items {
            d.kind = kind;
        }
    }
    head
}

/// What the text lets in.
fn let_in(
    rt: &impl Abort,
    alloc: Global,
    exports: &Exports,
    text: &str,
    kind: Option<DirectiveKind>,
) -> Environment {
    let head = head_of(rt, alloc, text, kind);
    let env = accommodate(alloc, &head, exports);
    forget(head);
    env.expect(rt, "an environment")
}

/// The row's environment part lets in its lists.
fn check_lists(
    rt: &impl Abort,
    alloc: Global,
    exports: &Exports,
    row: &'static str,
    kind: Option<DirectiveKind>,
) {
    let mut wanted = row;
    let text = front_of(&mut wanted, '\n');
    let env = let_in(rt, alloc, exports, text, kind);
    let found = lists_of(rt, alloc, &env);
    forget(env);
    let same = found.as_slice() == wanted.as_bytes();
    forget(found);
    assert!(rt; same, "{text}");
}

/// The rows of the text, over the exports.
fn check_rows(
    rt: &impl Abort,
    alloc: Global,
    exported: &'static str,
    rows: &'static str,
    kind: Option<DirectiveKind>,
) {
    let exports = exports(rt, alloc, exported);
    for row in rows.split("\n\n") {
        check_lists(rt, alloc, &exports, row, kind);
    }
    forget(exports);
}

/// Environment parts, and the lists of what they let in.
const LISTS: &str = "environ constructors A; begin
functors A.O1 A.O2; modes A.M1; typing A.O1 A.O2; 

environ constructors B; begin
functors A.O1 A.O2; modes A.M1; typing A.O1 A.O2; 

environ constructors B, A, B; begin
functors A.O1 A.O2; modes A.M1; typing A.O1 A.O2; 

environ notations B, A, B; constructors B; begin
functors A.O1 A.O2; modes A.M1; notations v m f g v; typing A.O1 A.O2; 

environ registrations A; begin

environ registrations A; constructors A; begin
functors A.O1 A.O2; modes A.M1; typing A.M1 A.O1 A.O2; registrations A.V1; 

environ constructors B; registrations A; begin
functors A.O1 A.O2; modes A.M1; typing A.O1 A.O2 A.M1; registrations A.V1 B.V1; 

environ definitions B, A; begin
equalities A.O2; steps B.V1 A.M1 A.O1; expansions B.V1 A.M1 A.O1; 

environ theorems B, A; schemes A; begin
 B:def 1 B:1 A:def 1 A:def 2 A:1 A:def 3 A:sch 1";

const OF_EXPANSIONS: &str = "environ definitions B, A; begin
expansions B.V1 A.M1 A.O1; ";

const OF_EQUALITIES: &str = "environ definitions B, A; begin
equalities A.O2; ";

/// A circle of dependencies ends.
const OF_CIRCLE: &str = "environ constructors A, P; begin
functors A.O1 A.O2; modes A.M1; typing A.O1 A.O2; ";

/// Dependencies of dependencies.
const OF_NESTED: &str = "environ constructors A, D; begin
modes C.M1 B.M1 A.M1 D.M1; 

environ constructors D, A; begin
modes C.M1 B.M1 D.M1 A.M1; ";

#[test]
fn what_is_let_in(rt: HostRuntime) {
    check_rows(&rt, rt.alloc(), EXPORTS, LISTS, None);
    let kind = Some(DirectiveKind::Expansions);
    check_rows(&rt, rt.alloc(), EXPORTS, OF_EXPANSIONS, kind);
    let kind = Some(DirectiveKind::Equalities);
    check_rows(&rt, rt.alloc(), EXPORTS, OF_EQUALITIES, kind);
    check_rows(&rt, rt.alloc(), CIRCLE, OF_CIRCLE, None);
    check_rows(&rt, rt.alloc(), NESTED, OF_NESTED, None);
}

/// Puts an article's own items behind what is there.
fn with_own(rt: &impl Abort, alloc: Global, env: Environment) -> Environment {
    let mut env = env;
    let mut at = Numbering::of_article(name(rt, "T").number());
    let items = items(rt, alloc, OF_T);
    for item in &items.items {
        env.add(alloc, &mut at, item).expect(rt, "memory");
    }
    forget(items);
    env
}

#[test]
fn own_items_behind_what_is_let_in(rt: HostRuntime) {
    let exports = exports(&rt, rt.alloc(), EXPORTS);
    let text = "environ constructors A; begin";
    let env = let_in(&rt, rt.alloc(), &exports, text, None);
    forget(exports);
    let env = with_own(&rt, rt.alloc(), env);
    let found = lists_of(&rt, rt.alloc(), &env);
    forget(env);
    let wanted =
        b"functors A.O1 A.O2; modes A.M1 T.M1; notations m; typing A.O1 A.O2; steps T.M1; expansions T.M1;  T:def 1 T:1";
    assert!(rt; found.as_slice() == wanted.as_slice());
}

/// The place of the fault and what it is; or that there is none.
fn put_fault(
    rt: &impl Abort,
    alloc: Global,
    out: &mut Vec<u8>,
    answer: Result<Environment, EnvFault>,
) {
    let (place, word) = match answer {
        Ok(env) => {
            forget(env);
            put(rt, out, b"\nno fault");
            return;
        }
        Err(EnvFault::MissingConstructor { place, item: 1 }) => (place, "constructor of item 1"),
        Err(EnvFault::UnknownRequirement { place }) => (place, "requirement"),
        Err(EnvFault::NotExported { place }) => (place, "export"),
        Err(_) => panic!(rt; "another fault"),
    };
    let (line, column) = (place.line, place.column);
    let text = format!(in alloc; "\n{line}:{column} {word}").expect(rt, "memory");
    put(rt, out, text.as_bytes());
}

/// Environment parts with the place of their fault and what is missing.
const FAULTS: &str = "environ vocabularies V8; notations P; begin
1:36 constructor of item 1

environ vocabularies V8; notations P; constructors P; begin
no fault

environ requirements ARITHM; begin
1:22 requirement

environ requirements HIDDEN; begin
no fault

environ theorems A, NOWHERE; notations P; begin
1:21 export";

/// The row's environment part has its fault.
fn check_fault(rt: &impl Abort, alloc: Global, exports: &Exports, row: &'static str) {
    let mut rest = row;
    let text = front_of(&mut rest, '\n');
    let head = head_of(rt, alloc, text, None);
    let answer = accommodate(alloc, &head, exports);
    forget(head);
    let mut found = Vec::new(alloc);
    put(rt, &mut found, text.as_bytes());
    put_fault(rt, alloc, &mut found, answer);
    let same = found.as_slice() == row.as_bytes();
    forget(found);
    assert!(rt; same, "{text}");
}

#[test]
fn the_first_fault_in_the_text(rt: HostRuntime) {
    let exports = exports(&rt, rt.alloc(), EXPORTS);
    for row in FAULTS.split("\n\n") {
        check_fault(&rt, rt.alloc(), &exports, row);
    }
    forget(exports);
}

/// What all directives let in of A and B.
fn whole(rt: &impl Abort, alloc: Global) -> Environment {
    let text =
        "environ notations A, B; constructors B; registrations A; definitions A, B; theorems A, B; schemes A; begin";
    let exports = exports(rt, alloc, EXPORTS);
    let env = let_in(rt, alloc, &exports, text, None);
    forget(exports);
    env
}

/// How many rows of functors and of modes, unfoldings, structures and registrations the symbol has.
fn counts(env: &Environment, s: Sym) -> [usize; 5] {
    [
        env.functors.of(s).len(),
        env.modes.of(s).len(),
        env.steps.of(s).len(),
        env.structures.of(s).len(),
        env.registrations.of(s).len(),
    ]
}

const COUNTS: [(&str, [usize; 5]); 3] = [
    ("A.O1", [1, 0, 1, 0, 0]),
    ("A.M1", [0, 1, 1, 0, 2]),
    ("P.O1", [0, 0, 0, 0, 0]),
];

/// How many notations are spelled so.
fn spelled(rt: &impl Abort, alloc: Global, env: &Environment, symbol: &str) -> usize {
    let symbol = Text::from_slice(alloc, symbol.as_bytes()).expect(rt, "memory");
    env.notations.of(&symbol).len()
}

#[test]
fn what_a_symbol_a_spelling_and_an_article_have(rt: HostRuntime) {
    let env = whole(&rt, rt.alloc());
    for (symbol, wanted) in COUNTS {
        assert!(rt; counts(&env, sym(&rt, symbol)) == wanted);
    }
    assert!(rt; spelled(&rt, rt.alloc(), &env, "f") == 1);
    assert!(rt; spelled(&rt, rt.alloc(), &env, "##") == 0);
    let of_a = sym(&rt, "A.O1").article;
    assert!(rt; env.theorems.of(of_a).len() == 4);
    assert!(rt; env.schemes.of(of_a).len() == 1);
    forget(env);
}

#[test]
fn a_copy_has_the_same_lists(rt: HostRuntime) {
    let env = whole(&rt, rt.alloc());
    let copy = env.copy(rt.alloc()).expect(&rt, "a copy");
    let lists = lists_of(&rt, rt.alloc(), &copy);
    assert!(rt; lists == lists_of(&rt, rt.alloc(), &env));
    let functor = sym(&rt, "A.O2");
    assert!(rt; counts(&copy, functor) == counts(&env, functor));
    forget(env);
    forget(copy);
}
