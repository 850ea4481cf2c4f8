//! Articles with properties.
use crate::articles::checking::{Row, check_rows, exports, vocabulary};
use std::mem::forget;

const PREDICATES: [Row; 35] = [
    // a predicate with its property: two items
    (
        "environ vocabularies V; begin definition let x,y be object; pred x ## y means x = y; reflexivity; end;",
        "accepted 2",
    ),
    // symmetry, by the definiens
    (
        "environ vocabularies V; begin definition let x,y be object; pred x ## y means x = y; symmetry; end;",
        "accepted 2",
    ),
    // irreflexivity
    (
        "environ vocabularies V; begin definition let x,y be object; pred x ## y means not x = y; irreflexivity; end;",
        "accepted 2",
    ),
    // asymmetry
    (
        "environ vocabularies V; begin definition let x,y be object; pred x ## y means contradiction; asymmetry; end;",
        "accepted 2",
    ),
    // connectedness
    (
        "environ vocabularies V; begin definition let x,y be object; pred x ## y means x = x; connectedness; end;",
        "accepted 2",
    ),
    // several, each an item
    (
        "environ vocabularies V; begin definition let x,y be object; pred x ## y means x = y; reflexivity; symmetry; end;",
        "accepted 3",
    ),
    // one twice
    (
        "environ vocabularies V; begin definition let x,y be object; pred x ## y means x = y; reflexivity; reflexivity; end;",
        "accepted 3",
    ),
    // one that doesn't hold
    (
        "environ vocabularies V; begin definition let x,y be object; pred x ## y means x = y; irreflexivity; end;",
        "1:99 61 1",
    ),
    // nor does asymmetry
    (
        "environ vocabularies V; begin definition let x,y be object; pred x ## y means x = y; asymmetry; end;",
        "1:95 61 1",
    ),
    // nor connectedness
    (
        "environ vocabularies V; begin definition let x,y be object; pred x ## y means x = y; connectedness; end;",
        "1:99 61 1",
    ),
    // by a proof with the notation
    (
        "environ vocabularies V; begin definition let x,y be object; pred x ## y means x = y; symmetry proof let a,b be object; assume a ## b; then a = b; hence b ## a; end; end;",
        "accepted 2",
    ),
    // by its thesis
    (
        "environ vocabularies V; begin definition let x,y be object; pred x ## y means x = y; reflexivity proof let a be object; a = a; hence thesis; end; end;",
        "accepted 2",
    ),
    // a proof that leaves its thesis
    (
        "environ vocabularies V; begin definition let x,y be object; pred x ## y means x = y; reflexivity proof let a be object; end; end;",
        "1:121 42",
    ),
    // by the label of the definiens
    (
        "environ vocabularies V; begin definition let x,y be object; pred x ## y means :D: x = y; reflexivity by D; end;",
        "accepted 2",
    ),
    // a property sees those before it
    (
        "environ vocabularies V; begin definition let x,y be object; pred x ## y means x = x; asymmetry; irreflexivity; end;",
        "1:95 61 1",
    ),
    // and not those behind it, nor itself
    (
        "environ vocabularies V; begin definition let x,y be object; pred x ## y means x = x; irreflexivity; asymmetry; end;",
        "1:99 61 1; 1:110 61 1",
    ),
    // a property of functors
    (
        "environ vocabularies V; begin definition let x,y be object; pred x ## y means x = y; commutativity; end;",
        "1:86 52 7",
    ),
    // another one
    (
        "environ vocabularies V; begin definition let x,y be object; pred x ## y means x = y; projectivity; end;",
        "1:86 52 7",
    ),
    // a condition behind a property
    (
        "environ vocabularies V; begin definition let x,y be object; pred x ## y means x = y; reflexivity; coherence; end;",
        "1:99 52 3",
    ),
    // nothing is left for all at once
    (
        "environ vocabularies V; begin definition let x,y be object; pred x ## y means x = y; reflexivity; correctness; end;",
        "1:99 52 6",
    ),
    // the first one is told
    (
        "environ vocabularies V; begin definition let x,y be object; pred x ## y means x = y; consistency; reflexivity; end;",
        "1:86 52 5",
    ),
    // one visible locus
    (
        "environ vocabularies V; begin definition let x be object; pred ## x means x = x; reflexivity; end;",
        "1:82 52 7",
    ),
    // both behind the symbol
    (
        "environ vocabularies V; begin definition let x,y be object; pred ## x,y means x = y; reflexivity; end;",
        "accepted 2",
    ),
    // three visible loci
    (
        "environ vocabularies V; begin definition let x,y,z be object; pred x ## y,z means x = y; symmetry; end;",
        "1:90 52 7",
    ),
    // loci of two types
    (
        "environ vocabularies V; begin definition let x be object; let y be set; pred x ## y means x = y; symmetry; end;",
        "1:98 52 7",
    ),
    // of one type, by two openings
    (
        "environ vocabularies V; begin definition let x be object; let y be object; pred x ## y means x = y; symmetry; end;",
        "accepted 2",
    ),
    // no loci
    (
        "environ vocabularies V; begin definition pred ## means not contradiction; reflexivity; end;",
        "1:75 52 7",
    ),
    // a hidden locus
    (
        "environ vocabularies V; begin definition let x be object; mode Elm of x -> object means it = x; existence; end; definition let x be object; let y,z be Elm of x; pred y ## z means y = z; reflexivity; end;",
        "accepted 3",
    ),
    // a property of an attribute
    (
        "environ vocabularies V; begin definition let x be object; attr x is Vv means x = x; reflexivity; end;",
        "1:85 52 7",
    ),
    // of one with a further locus
    (
        "environ vocabularies V; begin definition let x,y be object; attr x is (y) Vv means x = y; symmetry; end;",
        "1:91 52 7",
    ),
    // of a definition by cases, which makes no unfolding
    (
        "environ vocabularies V; begin definition let x,y be object; pred x ## y means x = y if (x = x) otherwise y = x; reflexivity; end;",
        "1:124 61 1",
    ),
    // behind its condition
    (
        "environ vocabularies V; begin definition let x,y be object; pred x ## y means x = y if (x = x), y = x if (y = y); consistency; symmetry; end;",
        "1:136 61 1",
    ),
    // which is missing
    (
        "environ vocabularies V; begin definition let x,y be object; pred x ## y means x = y if (x = x), y = x if (y = y); symmetry; end;",
        "1:125 51 5",
    ),
    // behind it the block goes on
    (
        "environ vocabularies V; begin definition let x,y be object; pred x ## y means x = y; reflexivity; pred x %% y means x ## y; reflexivity; end; theorem for x being object holds x %% x;",
        "accepted 5",
    ),
    // it isn't known as a step
    (
        "environ vocabularies V; begin definition let x,y be object; pred x ## y means x = y; reflexivity; end; theorem for x being object holds x ## x by A:def 2;",
        "1:147 43",
    ),
];

const FUNCTORS: [Row; 26] = [
    // idempotence, by the equation
    (
        "environ vocabularies V; begin definition let x,y be object; func x ++ y -> object equals x; coherence; idempotence; end;",
        "accepted 2",
    ),
    // commutativity doesn't hold
    (
        "environ vocabularies V; begin definition let x,y be object; func x ++ y -> object equals x; coherence; commutativity; end;",
        "1:117 61 1",
    ),
    // where nothing has the loci's type it does
    (
        "environ vocabularies V; begin definition mode Elm -> object means contradiction; existence; end; definition let x,y be Elm; func x ++ y -> object equals x; coherence; commutativity; end;",
        "1:91 61 1",
    ),
    // involutiveness
    (
        "environ vocabularies V; begin definition let x be object; func Ff x -> object equals x; coherence; involutiveness; end;",
        "accepted 2",
    ),
    // projectivity
    (
        "environ vocabularies V; begin definition let x be object; func Ff x -> object equals x; coherence; projectivity; end;",
        "accepted 2",
    ),
    // both
    (
        "environ vocabularies V; begin definition let x be object; func Ff x -> object equals x; coherence; projectivity; involutiveness; end;",
        "accepted 3",
    ),
    // the equation isn't known of a functor by a formula
    (
        "environ vocabularies V; begin definition let x be object; func Ff x -> object means it = x; existence; uniqueness; involutiveness; end;",
        "1:130 61 1",
    ),
    // but by its label
    (
        "environ vocabularies V; begin definition let x be object; func Ff x -> object means :D: it = x; existence; uniqueness; projectivity proof let a be object; Ff Ff a = Ff a by D; hence thesis; end; end;",
        "accepted 2",
    ),
    // a property of predicates
    (
        "environ vocabularies V; begin definition let x,y be object; func x ++ y -> object equals x; coherence; reflexivity; end;",
        "1:104 52 7",
    ),
    // of functors of one locus
    (
        "environ vocabularies V; begin definition let x,y be object; func x ++ y -> object equals x; coherence; involutiveness; end;",
        "1:104 52 7",
    ),
    // of functors of two
    (
        "environ vocabularies V; begin definition let x be object; func Ff x -> object equals x; coherence; commutativity; end;",
        "1:100 52 7",
    ),
    // loci of two types
    (
        "environ vocabularies V; begin definition let x be object; let y be set; func x ++ y -> object equals x; coherence; commutativity; end;",
        "1:116 52 7",
    ),
    // a condition that is owed, behind a property
    (
        "environ vocabularies V; begin definition let x,y be object; func x ++ y -> object equals x; idempotence; coherence; end;",
        "1:106 10",
    ),
    // one that isn't owed
    (
        "environ vocabularies V; begin definition let x,y be object; func x ++ y -> object equals x; idempotence; existence; end;",
        "1:106 52 1",
    ),
    // one that is written already
    (
        "environ vocabularies V; begin definition let x,y be object; func x ++ y -> object equals x; coherence; idempotence; coherence; end;",
        "1:117 52 3",
    ),
    // one that is missing, at the token behind the property
    (
        "environ vocabularies V; begin definition let x,y be object; func x ++ y -> object equals x; idempotence; end;",
        "1:106 51 3",
    ),
    // the property is looked at first
    (
        "environ vocabularies V; begin definition let x,y be object; func x ++ y -> object equals x; symmetry; end;",
        "1:93 52 7",
    ),
    // a property of a mode
    (
        "environ vocabularies V; begin definition let x be object; mode Elm of x -> object means it = x; existence; reflexivity; end;",
        "1:108 52 7",
    ),
    // that of modes stands in no grammar yet
    (
        "environ vocabularies V; begin definition let x be object; mode Elm of x -> object means it = x; existence; sethood; end;",
        "1:108 14",
    ),
    // of an abbreviation
    (
        "environ vocabularies V; begin definition let x be object; mode Elm of x is set; idempotence; end;",
        "1:81 52 7",
    ),
    // brackets
    (
        "environ vocabularies V; begin definition let x,y be object; func <. x,y .> -> object equals x; coherence; idempotence; end;",
        "accepted 2",
    ),
    // braces of one
    (
        "environ vocabularies V; begin definition let x be object; func { x } -> object equals x; coherence; projectivity; end; theorem for x being object holds { { x } } = { x };",
        "accepted 3",
    ),
    // commutativity, by a proof that uses the label; the clause is known behind it
    (
        "environ vocabularies V; theorems TARSKI_0; begin definition let x,y be object; func x ++ y -> set means :D: for a being object holds a in it iff a = x or a = y; existence by TARSKI_0:3; uniqueness proof let P,Q be set; assume that A: for a being object holds a in P iff a = x or a = y and B: for a being object holds a in Q iff a = x or a = y; now let a be object; a in P iff a = x or a = y by A; hence a in P iff a in Q by B; end; hence P = Q by TARSKI_0:2; end; commutativity proof let a,b be object; now let c be object; c in a ++ b iff c = a or c = b by D; hence c in a ++ b iff c in b ++ a by D; end; hence thesis by TARSKI_0:2; end; end; theorem for x,y being object holds x ++ y = y ++ x;",
        "accepted 3",
    ),
    // what the inner term is of is an antecedent
    (
        "environ vocabularies V; begin definition let a,b be object; mode Elm of a,b -> object means it = a; existence; end; definition let a,b be object; let x be Elm of a,b; func Ff x -> object equals b; coherence; involutiveness; end;",
        "accepted 3",
    ),
    // and so of the other word
    (
        "environ vocabularies V; begin definition let a,b be object; mode Elm of a,b -> object means it = a; existence; end; definition let a,b be object; let x be Elm of a,b; func Ff x -> object equals b; coherence; projectivity; end;",
        "accepted 3",
    ),
    // behind a condition that is open
    (
        "environ vocabularies V; begin definition let x be object; func Ff x -> object means not it = it; existence; uniqueness; involutiveness; end;",
        "1:107 61 1; 1:135 61 1",
    ),
];

#[test]
fn properties_of_predicates(rt: HostRuntime) {
    let all = vocabulary(
        &rt,
        rt.alloc(),
        b"V",
        b"R##\nR%%\nMElm\nVVv\nOFf\nO++\nK<.\nL.>",
    );
    let exports = exports(&rt, rt.alloc());
    check_rows(&rt, rt.alloc(), &exports, &all, &PREDICATES);
    forget(exports);
    forget(all);
}

#[test]
fn properties_of_functors(rt: HostRuntime) {
    let all = vocabulary(
        &rt,
        rt.alloc(),
        b"V",
        b"R##\nR%%\nMElm\nVVv\nOFf\nO++\nK<.\nL.>",
    );
    let exports = exports(&rt, rt.alloc());
    check_rows(&rt, rt.alloc(), &exports, &all, &FUNCTORS);
    forget(exports);
    forget(all);
}
