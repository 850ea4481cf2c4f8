//! Reports, and the listing of an export with an item of each kind, worked out by hand.
mod reports;

use crate::reading::items::items;
use mz_axioms::exports::Exports;
use mz_base::name::Name;
use mz_base::names::Names;
use mz_core::notations::Notations;
use mz_core::outcome::Export;
use mz_corpus::ordering::Ordering;
use mz_listing::listing::listing;
use std::alloc::Global;
use std::mem::forget;
use std::process::Abort;
use std::sync::Arc;

fn name(rt: &impl Abort, word: &str) -> Name {
    Name::read(word.as_bytes()).expect(rt, "a name")
}

fn names(rt: &impl Abort, alloc: Global, words: &[&str]) -> Names {
    let mut names = Names::new(alloc);
    for word in words {
        names.push(name(rt, word)).expect(rt, "memory");
    }
    names
}

/// An item of each kind.
const ITEMS: &str = "theorem A.R1
scheme A.F1 -> A.M3 ; A.R1 | A.R2 ; A.R3
define func_means A.O1 ; ; ; set ; (A.R1 b0)
define func_equals A.O2 ; ; ; A.M3 ; A.O1
define pred A.R4 ; ; ; A.R2
define attr A.V1 ; ; set ; 0 ; (A.R1 b0)
define mode A.M3 ; ; ; set ; (A.R1 b0)
abbreviation mode ; ; ; A.M3
notation pred ; ; ; A.R4
redefine func ; ; A.O1 ; set ; A.M3 ; (A.R2 b0)
redefine mode ; ; A.M3 ; set ; HIDDEN.M2 with A.V1 ;
redefine pred ; ; A.R4 ; A.R2
redefine attr ; set ; (A.V1 b0) ; (A.R2 b0)
property symmetry set, set ; (A.R5 b1 b0)
register existential ; A.V1 ; set
register conditional ; A.V1 ; A.V2 ; set
register functorial ; A.O1 ; A.V1 ;
register reduce ; A.O1 ; A.O2
register identify ; A.O1 ; A.O2
struct A.G1 ; A.V1 ; A.A1 ; ; ; A.U1 set ;
set_term A.O3 ; set ; A.M3 ; b0 ; (A.R5 b0 b1)
choice A.O4 ; ; A.M3";

/// The listing of the article A with these items.
const LISTED: &str = "A 1 theorem |- A.R1
A 2 scheme (A.M3 A.F1), A.R1, A.R2 |- A.R3
A 3 func |- (not (all (not (A.R1 b0))))
A 3 func |- (all (all (not (and (and (A.R1 b1) (A.R1 b0)) (not (= b1 b0))))))
A 3 grant true
A 3 grant (all (and (not (and (= b0 A.O1) (not (A.R1 b0)))) (not (and (A.R1 b0) (not (= b0 A.O1))))))
A 4 func |- (A.M3 A.O1)
A 4 grant (A.M3 A.O2)
A 4 grant (= A.O2 A.O1)
A 5 grant (and (not (and A.R4 (not A.R2))) (not (and A.R2 (not A.R4))))
A 6 grant (all (and (not (and (A.V1 b0) (not (A.R1 b0)))) (not (and (A.R1 b0) (not (A.V1 b0))))))
A 7 mode |- (not (all (not (A.R1 b0))))
A 7 grant (all (not (and (A.M3 b0) (not true))))
A 7 grant (all (and (not (and (A.M3 b0) (not (A.R1 b0)))) (not (and (A.R1 b0) (not (A.M3 b0))))))
A 10 redefine |- (A.M3 A.O1)
A 10 redefine |- (all (not (and (A.M3 b0) (not (and (not (and (= b0 A.O1) (not (A.R2 b0)))) (not (and (A.R2 b0) (not (= b0 A.O1)))))))))
A 11 redefine |- (all (not (and (A.M3 b0) (not (A.V1 b0)))))
A 12 redefine |- (and (not (and A.R4 (not A.R2))) (not (and A.R2 (not A.R4))))
A 13 redefine |- (all (and (not (and (A.V1 b0) (not (A.R2 b0)))) (not (and (A.R2 b0) (not (A.V1 b0))))))
A 14 property |- (all (all (all (all (not (and (A.R5 b1 b0) (not (A.R5 b0 b1))))))))
A 15 registration |- (not (all (not (A.V1 b0))))
A 16 registration |- (all (not (and (A.V1 b0) (not (A.V2 b0)))))
A 17 registration |- (A.V1 A.O1)
A 18 registration |- (= A.O1 A.O2)
A 19 registration |- (= A.O1 A.O2)
A 20 grant (all (not (and (A.G1 b0) (not true))))
A 20 grant (all (not (and (A.G1 b0) (not true))))
A 20 grant (all (not (and true (not (and (and (A.G1 (A.A1 b0)) (A.V1 (A.A1 b0))) (= (A.U1 (A.A1 b0)) b0))))))
A 20 grant (all (not (and (and (A.G1 b0) (A.V1 b0)) (not (= b0 (A.A1 (A.U1 b0)))))))
A 21 func |- (all (not (all (not (all (and (not (and (HIDDEN.R1 b0 b1) (all (not (and (A.M3 b0) (and (= b1 b0) (A.R5 b0 b3))))))) (not (and (not (all (not (and (A.M3 b0) (and (= b1 b0) (A.R5 b0 b3)))))) (not (HIDDEN.R1 b0 b1))))))))))
A 21 grant (all (all (and (not (and (HIDDEN.R1 b0 (A.O3 b1)) (all (not (and (A.M3 b0) (and (= b1 b0) (A.R5 b0 b2))))))) (not (and (not (all (not (and (A.M3 b0) (and (= b1 b0) (A.R5 b0 b2)))))) (not (HIDDEN.R1 b0 (A.O3 b1))))))))
A 22 func |- (not (all (not (and (A.M3 b0) true))))
A 22 grant (A.M3 A.O4)
";

/// The export of the article A alone.
fn exports(rt: &impl Abort, alloc: Global) -> Exports {
    let export = Export {
        name: name(rt, "A"),
        dependencies: Names::new(alloc),
        items: items(rt, alloc, ITEMS),
        notations: Notations::new(alloc),
    };
    let mut exports = Exports::new(alloc).expect(rt, "memory");
    let export = Arc::new(alloc, export).expect(rt, "memory");
    exports.push(export).expect(rt, "memory");
    exports
}

#[test]
fn lists_an_item_of_each_kind(rt: HostRuntime) {
    let exports = exports(&rt, rt.alloc());
    let order = names(&rt, rt.alloc(), &["B", "A"]);
    let rest = names(&rt, rt.alloc(), &["C"]);
    let text = listing(rt.alloc(), &Ordering { order, rest }, &exports).expect(&rt, "memory");
    forget(exports);
    assert!(rt; text.as_slice() == LISTED.as_bytes());
}
