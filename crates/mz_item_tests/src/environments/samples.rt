//! Exports, read from texts.
use crate::reading::items::items;
use crate::reading::parts::front_of;
use mz_axioms::built_in::built_in;
use mz_axioms::exports::Exports;
use mz_base::name::Name;
use mz_base::names::Names;
use mz_core::notations::Notations;
use mz_core::outcome::Export;
use std::alloc::Global;
use std::process::Abort;
use std::sync::Arc;

/// Articles with a blank line between, each with its name, the names of those on which it depends, and its items. A has a
/// mode, two functors, a theorem, three registrations, one of which names an attribute of B, and a scheme; B depends on A
/// and has an attribute and a theorem; P has a predicate.
pub const EXPORTS: &str = "A
define mode A.M1 ; m ; ; set ; true
define func_means A.O1 ; f 0 ; set ; A.M1 ; true
theorem true
define func_equals A.O2 ; g 0 ; set ; A.M1 ; b0
register existential ; A.V1 ; A.M1
register existential ; B.V1 ; A.M1
register conditional ; ; A.V1 ; A.M1
scheme ; ; true

B A
define attr B.V1 ; v 0 ; set ; 0 ; true
theorem true

P NOWHERE
define pred P.R1 ; ## 0 1 ; set, set ; true";

/// The same where A and B depend on each other.
pub const CIRCLE: &str = "A B
define mode A.M1 ; m ; ; set ; true
define func_means A.O1 ; f 0 ; set ; A.M1 ; true
theorem true
define func_equals A.O2 ; g 0 ; set ; A.M1 ; b0
register existential ; A.V1 ; A.M1
register existential ; B.V1 ; A.M1
register conditional ; ; A.V1 ; A.M1
scheme ; ; true

B A
define attr B.V1 ; v 0 ; set ; 0 ; true
theorem true

P NOWHERE
define pred P.R1 ; ## 0 1 ; set, set ; true";

/// Articles with a mode each: C depends on none, B on C, A on B, and D on B and C.
pub const NESTED: &str = "A B
define mode A.M1 ; m ; ; set ; true

B C
define mode B.M1 ; m ; ; set ; true

C
define mode C.M1 ; m ; ; set ; true

D B C
define mode D.M1 ; m ; ; set ; true";

/// Items of the article T.
pub const OF_T: &str = "define mode T.M1 ; m ; ; set ; true
theorem true";

/// The name of an article.
pub fn name(rt: &impl Abort, word: &str) -> Name {
    Name::read(word.as_bytes()).expect(rt, "a name")
}

/// The export of an article.
fn export(rt: &impl Abort, alloc: Global, text: &'static str) -> Export {
    let mut lines = text;
    let mut words = front_of(&mut lines, '\n');
    let own = name(rt, front_of(&mut words, ' '));
    let mut dependencies = Names::new(alloc);
    for word in words.split_whitespace() {
        dependencies.push(name(rt, word)).expect(rt, "memory");
    }
    Export {
        name: own,
        dependencies,
        items: items(rt, alloc, lines),
        notations: Notations::new(alloc),
    }
}

/// The built-in exports, and those of the articles.
pub fn exports(rt: &impl Abort, alloc: Global, text: &'static str) -> Exports {
    let mut out = built_in(alloc).expect(rt, "memory");
    for one in text.split("\n\n") {
        let export = Arc::new(alloc, export(rt, alloc, one)).expect(rt, "memory");
        out.push(export).expect(rt, "memory");
    }
    out
}
