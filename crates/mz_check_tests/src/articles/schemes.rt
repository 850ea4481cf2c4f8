//! Articles with schemes.
use crate::articles::checking::{Row, check, check_all, exports, no_vocabularies};
use std::alloc::Global;
use std::mem::forget;
use std::process::Abort;
use std::thread::Threads;

const STATED: [Row; 13] = [
    // `thesis` is unknown in the conclusion
    ("environ begin scheme S { P[object] } : thesis;", "1:40 33"),
    // a scheme without premises
    (
        "environ begin scheme S { P[object] } : for x being object holds P[x] implies P[x];",
        "accepted 1",
    ),
    // the same by a proof
    (
        "environ begin scheme S { P[object] } : for x being object holds P[x] implies P[x] proof let x be object; assume P[x]; hence thesis; end;",
        "accepted 1",
    ),
    // its obligation is open
    (
        "environ begin scheme S { P[object] } : for x being object holds P[x];",
        "1:69 61 1",
    ),
    // the thesis is left
    (
        "environ begin scheme S { P[object] } : for x being object holds P[x] proof let x be object; end;",
        "1:93 42",
    ),
    // a letter of no argument
    (
        "environ begin scheme S { A() -> set } : A() = A();",
        "accepted 1",
    ),
    // several letters with one type, and letters of both kinds
    (
        "environ begin scheme S { F,G(object) -> set, P[object,object], Q[] } : for x being object holds (P[F(x),G(x)] & Q[]) implies Q[];",
        "accepted 1",
    ),
    // premises by their labels
    (
        "environ begin scheme S { P[object], Q[object] } : for x being object holds Q[x] provided A1: for x being object st P[x] holds Q[x] and A2: for x being object holds P[x] proof let x be object; P[x] by A2; hence thesis by A1; end;",
        "accepted 1",
    ),
    // a premise without a label isn't among what is known
    (
        "environ begin scheme S { P[object] } : for x being object holds P[x] provided for x being object holds P[x];",
        "1:108 61 1",
    ),
    // nor is one with a label that isn't cited
    (
        "environ begin scheme S { P[object] } : for x being object holds P[x] provided A: for x being object holds P[x];",
        "1:111 61 1",
    ),
    // a premise's own label isn't known in it, but in the justification
    (
        "environ begin scheme S { P[object] } : for x being object holds P[x] provided A: for x being object holds P[x] by A;",
        "accepted 1",
    ),
    // its label is unknown behind the scheme
    (
        "environ begin scheme S { P[object] } : for x being object holds P[x] provided A: for x being object holds P[x] by A; theorem for x being object holds x = x by A;",
        "1:160 43",
    ),
    // the label of a statement that it hid is known again
    (
        "environ begin A: for x being object holds x = x; scheme S { P[object] } : for x being object holds P[x] provided A: for x being object holds P[x] by A; theorem for x being object holds x = x by A;",
        "accepted 2",
    ),
];

const LETTERS: [Row; 14] = [
    // reserved variables of the conclusion are constants in its proof
    (
        "environ begin reserve x for object; scheme S { P[object] } : P[x] implies P[x] proof assume P[x]; hence thesis; end;",
        "accepted 1",
    ),
    // those of a premise are bound in it
    (
        "environ begin reserve x for object; scheme S { P[object] } : P[x] provided A: P[x] proof thus thesis by A; end;",
        "accepted 1",
    ),
    // a letter with another number of arguments
    (
        "environ begin scheme S { P[object] } : for x being object holds P[x,x];",
        "1:65 32",
    ),
    // an identifier that is no letter
    (
        "environ begin scheme S { P[object] } : for x being object holds Q[x];",
        "1:65 33",
    ),
    // a functor letter isn't a predicate letter
    (
        "environ begin scheme S { P(object) -> set } : for x being object holds P[x];",
        "1:72 33",
    ),
    // nor a predicate letter a functor letter
    (
        "environ begin scheme S { P[object] } : for x being object holds P(x) = x;",
        "1:65 33",
    ),
    // of two letters with one name the later one is meant
    (
        "environ begin scheme S { P[object], P[object,object] } : for x being object holds P[x];",
        "1:83 32",
    ),
    // which has two places
    (
        "environ begin scheme S { P[object], P[object,object] } : for x being object holds P[x,x] implies P[x,x];",
        "accepted 1",
    ),
    // a letter isn't known behind its scheme
    (
        "environ begin scheme S { P[object] } : for x being object holds P[x] implies P[x]; theorem for x being object holds P[x];",
        "1:117 33",
    ),
    // a letter of a name that a variable has
    (
        "environ begin scheme S { x(object) -> set } : for x being object holds x(x) = x(x);",
        "accepted 1",
    ),
    // a constant of the article's own level may not be used in the conclusion
    (
        "environ begin consider a being object such that a = a; scheme S { P[object] } : P[a] implies P[a];",
        "1:83 33",
    ),
    // nor in a premise
    (
        "environ begin consider a being object such that a = a; scheme S { P[object] } : for x being object holds P[x] implies P[x] provided P[a];",
        "1:135 33",
    ),
    // but in its proof
    (
        "environ begin consider a being object such that A: a = a; scheme S { P[object] } : for x being object holds P[x] implies P[x] proof let x be object; assume B: P[x]; a = a by A; thus thesis by B; end;",
        "accepted 1",
    ),
    // statements of the article's own level may be cited
    (
        "environ begin consider a being object such that A: a = a; scheme S { P[object] } : for x being object holds P[x] implies P[x] proof a = a by A; hence thesis; end;",
        "accepted 1",
    ),
];

const NAMED: [Row; 14] = [
    // the conclusion is read before the premises
    (
        "environ begin scheme S { P[object] } : Q[] provided R[];",
        "1:40 33",
    ),
    // and the letters' types before it
    (
        "environ begin scheme S { P[object, strict object] } : Q[];",
        "1:36 31",
    ),
    // a scheme can't be cited in its own justification
    (
        "environ begin scheme S { P[object] } : for x being object holds P[x] implies P[x] from S;",
        "1:88 43",
    ),
    // nor in its proof
    (
        "environ begin scheme S { P[object] } : for x being object holds P[x] implies P[x] proof thus thesis from S; end;",
        "1:106 43",
    ),
    // behind it it can be cited
    (
        "environ begin scheme S { P[object] } : for x being object holds P[x] implies P[x]; theorem for x being object holds x = x implies x = x from S;",
        "accepted 2",
    ),
    // by its number, too
    (
        "environ begin scheme S { P[object] } : for x being object holds P[x] implies P[x]; theorem for x being object holds x = x implies x = x from A:sch 1;",
        "accepted 2",
    ),
    // there is no second one
    (
        "environ begin scheme S { P[object] } : for x being object holds P[x] implies P[x]; theorem for x being object holds x = x implies x = x from A:sch 2;",
        "1:142 43",
    ),
    // no scheme has the label
    (
        "environ begin scheme S { P[object] } : for x being object holds P[x] implies P[x]; theorem for x being object holds x = x implies x = x from T;",
        "1:142 43",
    ),
    // labels of statements are another name space
    (
        "environ begin S: for x being object holds x = x; scheme S { P[object] } : for x being object holds P[x] implies P[x]; theorem for x being object holds x = x by S; theorem for x being object holds x = x implies x = x from S;",
        "accepted 3",
    ),
    // a scheme is no statement
    (
        "environ begin scheme S { P[object] } : for x being object holds P[x] implies P[x]; theorem for x being object holds x = x by S;",
        "1:126 43",
    ),
    // the latest scheme of a name counts
    (
        "environ begin scheme S { P[object] } : for x being object holds P[x] implies P[x]; scheme S { P[object] } : for x being object holds P[x] provided A: for x being object holds P[x] by A; theorem for x being object holds x = x implies x = x from S;",
        "1:240 67 1",
    ),
    // and the number tells the first
    (
        "environ begin scheme S { P[object] } : for x being object holds P[x] implies P[x]; scheme S { P[object] } : for x being object holds P[x] provided A: for x being object holds P[x] by A; theorem for x being object holds x = x implies x = x from A:sch 1;",
        "accepted 3",
    ),
    // a scheme in a scheme's proof
    (
        "environ begin scheme S { P[object] } : for x being object holds P[x] implies P[x]; scheme T { Q[object,object] } : for x being object holds Q[x,x] implies Q[x,x] from S;",
        "accepted 2",
    ),
    // with its premise by a premise
    (
        "environ begin scheme S { P[object] } : for x being object holds P[x] provided A: for x being object holds P[x] by A; scheme T { Q[object,object] } : for x being object holds Q[x,x] provided B: for y being object holds Q[y,y] from S(B);",
        "accepted 2",
    ),
];

const USED: [Row; 11] = [
    // a statement that is no instance
    (
        "environ begin scheme S { P[object] } : for x being object holds P[x] implies P[x]; theorem for x being object holds x = x & x = x from S;",
        "1:131 66",
    ),
    // a functor letter that nothing fixes
    (
        "environ begin scheme S { A() -> set } : for x being object holds x = x; theorem for x being object holds x = x from S;",
        "1:112 66",
    ),
    // a predicate letter that nothing fixes
    (
        "environ begin scheme S { P[object] } : for x being object holds x = x; theorem for x being object holds x = x from S;",
        "accepted 2",
    ),
    // two letters, the second one fixed by the conclusion, the first by a premise
    (
        "environ begin\nscheme Sc { P[object], Q[object] } : for x being object holds Q[x]\nprovided A1: for x being object st P[x] holds Q[x] and A2: for x being object holds P[x]\nproof let x be object; P[x] by A2; hence thesis by A1; end;\nA: for x being object holds x in x or not x in x;\nB: for x being object st x in x or not x in x holds x = x;\ntheorem for x being object holds x = x from Sc(B,A);",
        "accepted 2",
    ),
    // premises in another order
    (
        "environ begin\nscheme Sc { P[object], Q[object] } : for x being object holds Q[x]\nprovided A1: for x being object st P[x] holds Q[x] and A2: for x being object holds P[x]\nproof let x be object; P[x] by A2; hence thesis by A1; end;\nA: for x being object holds x in x or not x in x;\nB: for x being object st x in x or not x in x holds x = x;\ntheorem for x being object holds x = x from Sc(A,B);",
        "7:40 68 1",
    ),
    // one premise
    (
        "environ begin\nscheme Sc { P[object], Q[object] } : for x being object holds Q[x]\nprovided A1: for x being object st P[x] holds Q[x] and A2: for x being object holds P[x]\nproof let x be object; P[x] by A2; hence thesis by A1; end;\nA: for x being object holds x in x or not x in x;\nB: for x being object st x in x or not x in x holds x = x;\ntheorem for x being object holds x = x from Sc(B);",
        "7:40 67 2",
    ),
    // separation, by the scheme of TARSKI_0
    (
        "environ schemes TARSKI_0; begin\nscheme Separation { A() -> set, P[object] } : ex X being set st for x being object holds x in X iff x in A() & P[x]\nproof\nA1: for x,y,z being object st (x = y & P[x]) & (x = z & P[x]) holds y = z;\nconsider X being set such that A2: for x being object holds x in X iff ex y being object st y in A() & (y = x & P[y]) from TARSKI_0:sch 1(A1);\ntake X; let x be object;\nthus x in X implies x in A() & P[x]\nproof assume x in X; then consider y being object such that A3: y in A() & (y = x & P[y]) by A2; thus thesis by A3; end;\nassume x in A() & P[x]; then x in A() & (x = x & P[x]); hence x in X by A2;\nend;\n",
        "accepted 1",
    ),
    // no set has all objects
    (
        "environ schemes TARSKI_0; begin\nscheme Separation { A() -> set, P[object] } : ex X being set st for x being object holds x in X iff x in A() & P[x]\nproof\nA1: for x,y,z being object st (x = y & P[x]) & (x = z & P[x]) holds y = z;\nconsider X being set such that A2: for x being object holds x in X iff ex y being object st y in A() & (y = x & P[y]) from TARSKI_0:sch 1(A1);\ntake X; let x be object;\nthus x in X implies x in A() & P[x]\nproof assume x in X; then consider y being object such that A3: y in A() & (y = x & P[y]) by A2; thus thesis by A3; end;\nassume x in A() & P[x]; then x in A() & (x = x & P[x]); hence x in X by A2;\nend;\ntheorem for A being set ex x being object st not x in A\nproof let A be set;\nconsider X being set such that A1: for x being object holds x in X iff x in A & not x in x from Separation;\nA2: not X in X proof assume A3: X in X; then not X in X by A1; hence contradiction by A3; end;\ntake X; assume X in A; hence contradiction by A1,A2; end;",
        "accepted 2",
    ),
    // without the directive that scheme is unknown
    (
        "environ begin theorem for A being set ex X being set st for x being object holds x in X iff ex y being object st y in A & y = x from TARSKI_0:sch 1;",
        "1:134 43",
    ),
    // its premise is wanted
    (
        "environ schemes TARSKI_0; begin\ntheorem for A being set ex X being set st for x being object holds x in X iff ex y being object st y in A & y = x from TARSKI_0:sch 1;",
        "2:115 67 1",
    ),
    // open obligations of schemes are told with the others
    (
        "environ begin theorem for x,y being object holds x = y; scheme S { P[object] } : for x being object holds P[x]; theorem for x being object holds x in x from S; scheme T { P[object] } : for x being object holds P[x] implies P[x];",
        "1:55 61 1; 1:111 61 1",
    ),
];

const BESIDE: [Row; 9] = [
    // an item's refusal ends the article
    (
        "environ begin scheme S { P[object] } : for x being object holds P[x]; theorem for x being object holds P[x];",
        "1:104 33",
    ),
    // a statement just before a scheme is none behind it
    (
        "environ begin for x being object holds x = x; scheme S { P[object] } : for x being object holds P[x] implies P[x]; then for x being object holds x = x;",
        "1:116 41",
    ),
    // nor in its proof
    (
        "environ begin for x being object holds x = x; scheme S { P[object] } : for x being object holds P[x] implies P[x] proof then for x being object holds x = x; thus thesis; end;",
        "1:121 41",
    ),
    // a private functor of a letter's name isn't in force in the scheme
    (
        "environ begin deffunc F(object) = $1; scheme S { F(object,object) -> set } : for x being object holds F(x,x) = F(x,x);",
        "accepted 1",
    ),
    // it is again behind it
    (
        "environ begin deffunc F(object) = $1; scheme S { F(object,object) -> set } : for x being object holds x = x; theorem for x being object holds F(x) = x;",
        "accepted 2",
    ),
    // nor is a private predicate
    (
        "environ begin defpred P[object] means $1 = $1; scheme S { P[object] } : for x being object holds P[x];",
        "1:102 61 1",
    ),
    // another one is
    (
        "environ begin defpred P[object] means $1 = $1; scheme S { Q[object] } : for x being object holds P[x];",
        "accepted 1",
    ),
    // a private functor that is declared in the proof goes before a letter
    (
        "environ begin scheme S { F(object) -> set } : for x being object holds x = x proof deffunc F(object,object) = $1; let x be object; F(x,x) = x; thus thesis; end;",
        "accepted 1",
    ),
    // a private functor with a constant of the article's own level
    (
        "environ begin consider a being object such that a = a; deffunc F(object) = a; scheme S { P[object] } : for x being object holds P[F(x)] implies P[F(x)];",
        "1:131 33",
    ),
];

const LARGE: [Row; 11] = [
    // the part beside `not P[]` has 32,765 nodes, the statement 65,533, and the instance, which has a double negation, 65,535
    (
        "environ begin scheme S { P[] } : not P[] implies not P[]; theorem for c being object holds c = c proof let c be object;\n((c <> c iff (c = c iff (c = c iff (c = c iff (c = c iff (c = c iff (c = c iff (c = c iff (c = c iff (c = c iff (c = c iff (c = c)))))))))))) & c <> c & c <> c) implies ((c <> c iff (c = c iff (c = c iff (c = c iff (c = c iff (c = c iff (c = c iff (c = c iff (c = c iff (c = c iff (c = c iff (c = c)))))))))))) & c <> c & c <> c) from S;\nthus thesis; end;",
        "accepted 2",
    ),
    // one node more: the statement has 65,535, and the instance 65,537
    (
        "environ begin scheme S { P[] } : not P[] implies not P[]; theorem for c being object holds c = c proof let c be object;\n((c <> c iff (c = c iff (c = c iff (c = c iff (c = c iff (c = c iff (c = c iff (c = c iff (c = c iff (c = c iff (c = c iff (c = c)))))))))))) & (c = c or c = c)) implies ((c <> c iff (c = c iff (c = c iff (c = c iff (c = c iff (c = c iff (c = c iff (c = c iff (c = c iff (c = c iff (c = c iff (c = c)))))))))))) & (c = c or c = c)) from S;\nthus thesis; end;",
        "2:1 36",
    ),
    // it stands at the step's first token, before what is told at the justification
    (
        "environ begin scheme S { P[] } : not P[] implies not P[]; theorem for c being object holds c = c proof let c be object;\nA: ((c <> c iff (c = c iff (c = c iff (c = c iff (c = c iff (c = c iff (c = c iff (c = c iff (c = c iff (c = c iff (c = c iff (c = c)))))))))))) & (c = c or c = c)) implies ((c <> c iff (c = c iff (c = c iff (c = c iff (c = c iff (c = c iff (c = c iff (c = c iff (c = c iff (c = c iff (c = c iff (c = c)))))))))))) & (c = c or c = c)) from S;\nthus thesis; end;",
        "2:1 36",
    ),
    // where another number is cited, no instance is made
    (
        "environ begin scheme S { P[] } : not P[] implies not P[]; theorem for c being object holds c = c proof let c be object;\nB: c = c;\n((c <> c iff (c = c iff (c = c iff (c = c iff (c = c iff (c = c iff (c = c iff (c = c iff (c = c iff (c = c iff (c = c iff (c = c)))))))))))) & (c = c or c = c)) implies ((c <> c iff (c = c iff (c = c iff (c = c iff (c = c iff (c = c iff (c = c iff (c = c iff (c = c iff (c = c iff (c = c iff (c = c)))))))))))) & (c = c or c = c))\nfrom S(B);\nthus thesis; end;",
        "4:1 67 0",
    ),
    // the same of a split into cases
    (
        "environ begin scheme S { P[] } : not P[] or P[]; theorem for c being object holds c = c proof let c be object;\nper cases from S;\nsuppose ((c <> c iff (c = c iff (c = c iff (c = c iff (c = c iff (c = c iff (c = c iff (c = c iff (c = c iff (c = c iff (c = c iff (c = c)))))))))))) & c <> c & c <> c);\nthus thesis; end;\nsuppose not ((c <> c iff (c = c iff (c = c iff (c = c iff (c = c iff (c = c iff (c = c iff (c = c iff (c = c iff (c = c iff (c = c iff (c = c)))))))))))) & c <> c & c <> c);\nthus thesis; end;\nend;",
        "accepted 2",
    ),
    // there it stands before what is wrong in a case
    (
        "environ begin scheme S { P[] } : not P[] or P[]; theorem for c being object holds c = c proof let c be object;\nper cases from S;\nsuppose ((c <> c iff (c = c iff (c = c iff (c = c iff (c = c iff (c = c iff (c = c iff (c = c iff (c = c iff (c = c iff (c = c iff (c = c)))))))))))) & (c = c or c = c));\nthus thesis; end;\nsuppose not ((c <> c iff (c = c iff (c = c iff (c = c iff (c = c iff (c = c iff (c = c iff (c = c iff (c = c iff (c = c iff (c = c iff (c = c)))))))))))) & (c = c or c = c));\nthus z = z; end;\nend;",
        "2:1 36",
    ),
    // but where a case's supposition can't be read, that is told
    (
        "environ begin scheme S { P[] } : not P[] or P[]; theorem for c being object holds c = c proof let c be object;\nper cases from S;\nsuppose ((c <> c iff (c = c iff (c = c iff (c = c iff (c = c iff (c = c iff (c = c iff (c = c iff (c = c iff (c = c iff (c = c iff (c = c)))))))))))) & (c = c or c = c));\nthus thesis; end;\nsuppose not ((c <> c iff (c = c iff (c = c iff (c = c iff (c = c iff (c = c iff (c = c iff (c = c iff (c = c iff (c = c iff (c = c iff (c = c)))))))))))) & (c = c or c = c)) & z = z;\nthus thesis; end;\nend;",
        "5:177 33",
    ),
    // of a premise, at a theorem: each `P[]` has more than 32,755 nodes, and the second premise three of them
    (
        "environ begin scheme S { P[] } : for x being object holds x = x provided P[] and P[] & P[] & P[];\nB: for c being object holds c = c iff (c = c iff (c = c iff (c = c iff (c = c iff (c = c iff (c = c iff (c = c iff (c = c iff (c = c iff (c = c iff c = c))))))))));\nC: for c being object holds c = c;\ntheorem for x being object holds x = x from S(B,C);",
        "4:1 36",
    ),
    // at a property
    (
        "environ begin scheme S { P[] } : for x being object holds x = x provided P[] and P[] & P[] & P[];\nB: for c being object holds c = c iff (c = c iff (c = c iff (c = c iff (c = c iff (c = c iff (c = c iff (c = c iff (c = c iff (c = c iff (c = c iff c = c))))))))));\nC: for c being object holds c = c;\ndefinition let x,y be object; pred x in y means x = y;\nsymmetry from S(B,C); end;",
        "5:1 36",
    ),
    // at a condition
    (
        "environ begin scheme S { P[] } : for x being object holds x = x provided P[] and P[] & P[] & P[];\nB: for c being object holds c = c iff (c = c iff (c = c iff (c = c iff (c = c iff (c = c iff (c = c iff (c = c iff (c = c iff (c = c iff (c = c iff c = c))))))))));\nC: for c being object holds c = c;\ndefinition let x,y be object; pred x in y means x = y if (x = x), y = x if (y = y);\nconsistency from S(B,C); end;",
        "5:1 36",
    ),
    // at a further side of an equality, before the references of the first one
    (
        "environ begin scheme S { A() -> object, P[] } : A() = A() provided P[] and P[] & P[] & P[]; theorem for c being object holds c = c proof let c be object;\nB: c = c iff (c = c iff (c = c iff (c = c iff (c = c iff (c = c iff (c = c iff (c = c iff (c = c iff (c = c iff (c = c iff c = c))))))))));\nC: c = c;\nc = c by Nowhere\n.= c from S(B,C);\nthus thesis; end;",
        "4:1 36",
    ),
];

#[test]
fn schemes_as_they_are_stated(rt: HostRuntime) {
    check_all(&rt, rt.alloc(), &STATED);
}

#[test]
fn letters_and_what_is_in_force(rt: HostRuntime) {
    check_all(&rt, rt.alloc(), &LETTERS);
}

#[test]
fn schemes_by_their_names(rt: HostRuntime) {
    check_all(&rt, rt.alloc(), &NAMED);
}

#[test]
fn uses_of_schemes(rt: HostRuntime) {
    check_all(&rt, rt.alloc(), &USED);
}

#[test]
fn schemes_beside_other_items(rt: HostRuntime) {
    check_all(&rt, rt.alloc(), &BESIDE);
}

#[test]
fn instances_that_are_too_large(rt: HostRuntime) {
    check_all(&rt, rt.alloc(), &LARGE);
}

/// A scheme with a functor letter of so many places, at 1:26.
fn many_places(rt: &impl Abort, alloc: Global, count: usize) -> Vec<u8> {
    let mut out = Vec::new(alloc);
    out.extend_from_slice(b"environ begin scheme S { F(object")
        .expect(rt, "memory");
    for _ in 1..count {
        out.extend_from_slice(b",object").expect(rt, "memory");
    }
    out.extend_from_slice(b") -> set } : for x being object holds x = x;")
        .expect(rt, "memory");
    out
}

fn check_places(rt: &(impl Abort + Threads + Sync), alloc: Global, count: usize, wanted: &str) {
    let exports = exports(rt, alloc);
    let none = no_vocabularies(alloc);
    let text = many_places(rt, alloc, count);
    check(rt, alloc, &exports, &none, text.as_slice(), wanted);
    forget(exports);
    forget(none);
}

/// What is owed by the type of a letter of 512 places has the depth 513.
#[test]
fn places_of_a_letter(rt: HostRuntime) {
    check_places(&rt, rt.alloc(), 511, "accepted 1");
    check_places(&rt, rt.alloc(), 512, "1:26 36");
}
