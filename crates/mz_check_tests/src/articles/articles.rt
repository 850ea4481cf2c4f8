//! Articles of theorems and statements.
use crate::articles::checking::{Row, check_all};

const ARTICLES: [Row; 45] = [
    // private functors and predicates are no items
    ("environ begin deffunc F(object) = $1;", "accepted 0"),
    (
        "environ begin defpred P[object] means $1 = $1;",
        "accepted 0",
    ),
    // a theorem may use them, where their bodies have no constant of the article's own level
    (
        "environ begin deffunc F(object) = $1; defpred P[object] means F($1) = $1; theorem for x being object holds P[x];",
        "accepted 1",
    ),
    (
        "environ begin consider c being object such that c = c; deffunc F(object) = c; theorem for x being object holds x = F(x);",
        "1:116 33",
    ),
    // behind the number of its arguments
    (
        "environ begin consider c being object such that c = c; deffunc F(object) = c; theorem for x being object holds x = F(x,x);",
        "1:116 32",
    ),
    // the scheme of TARSKI_0: what equals an element of A is one
    (
        "environ schemes TARSKI_0; begin\ntheorem for A being set ex X being set st for x being object holds x in X iff ex y being object st y in A & y = x\nproof let A be set;\nB: for x,y,z being object st x = y & x = z holds y = z;\nthus thesis from TARSKI_0:sch 1(B);\nend;",
        "accepted 1",
    ),
    // a theorem of equal sides
    (
        "environ begin theorem for x being object holds x = x;",
        "accepted 1",
    ),
    // different sides: the one disjunct is open
    (
        "environ begin theorem for x,y being object holds x = y;",
        "1:55 61 1",
    ),
    // the second of two disjuncts is open
    (
        "environ begin theorem for x,y being object holds x = x & x = y;",
        "1:63 61 2",
    ),
    // one constant stands for both variables of the axiom
    (
        "environ theorems TARSKI_0; begin theorem for x being object ex z being set st for a being object holds a in z iff a = x or a = x by TARSKI_0:3;",
        "accepted 1",
    ),
    // nothing behind `begin`
    ("environ begin", "accepted 0"),
    // a further `begin`
    (
        "environ begin begin theorem for x being object holds x = x; begin",
        "accepted 1",
    ),
    // a comment without a last line end
    ("environ begin :: the end", "accepted 0"),
    // no text
    ("", "1:1 16"),
    // a text that ends within a proof
    (
        "environ begin theorem for x being object holds x = x proof let x",
        "1:65 16",
    ),
    // a `now` is a statement, and no item
    (
        "environ begin now let x be object; thus x = x; end; then for x being object holds x = x; theorem for x being object holds x = x;",
        "accepted 1",
    ),
    // constants of the article's own level, one behind the other
    (
        "environ begin consider x being object such that x = x; consider y being object such that y = x; theorem for z being object holds z = z;",
        "accepted 1",
    ),
    // no theorem has the number 0
    (
        "environ begin theorem for x being object holds x = x; for y being object holds y = y by A:0;",
        "1:89 43",
    ),
    // two conjuncts one after the other
    (
        "environ begin\ntheorem for x,y being object st x in y holds y = y & x in y\nproof let x,y be object; assume A: x in y;\nthus y = y;\nthus thesis by A;\nend;",
        "accepted 1",
    ),
    // without the last step
    (
        "environ begin\ntheorem for x,y being object st x in y holds y = y & x in y\nproof let x,y be object; assume A: x in y;\nthus y = y;\nend;",
        "5:1 42",
    ),
    // 1,024 disjuncts
    (
        "environ begin\ntheorem for x,y being object st x in y or y in x holds x = x\nproof let x,y be object; assume A: x in y or y in x;\nthus thesis by A,A,A,A,A,A,A,A,A,A;\nend;",
        "accepted 1",
    ),
    // 2,048 disjuncts
    (
        "environ begin\ntheorem for x,y being object st x in y or y in x holds x = x\nproof let x,y be object; assume A: x in y or y in x;\nthus thesis by A,A,A,A,A,A,A,A,A,A,A;\nend;",
        "4:13 62 2048",
    ),
    // all open justifications are listed
    (
        "environ begin\ntheorem for x,y being object holds x = y;\ntheorem for x,y being object holds x in y;",
        "2:41 61 1; 3:42 61 1",
    ),
    // within proofs too, in the order of the text
    (
        "environ begin\ntheorem for x,y being object st x in y holds y in x\nproof let x,y be object; assume A: x in y;\nx = y;\nhence y in x by A;\nend;\ntheorem for x,y being object holds x in y;",
        "4:6 61 1; 7:42 61 1",
    ),
    // what isn't justified may be used all the same: the last step follows from the open one
    (
        "environ begin\ntheorem for x,y being object st x in y holds y = x\nproof let x,y be object; assume x in y;\nA: x = y;\nthus y = x by A;\nend;",
        "4:9 61 1",
    ),
    // a fault of reading or of steps is told alone
    (
        "environ begin\ntheorem for x,y being object holds x = y;\ntheorem for x being object holds x = x by B;",
        "3:43 43",
    ),
    // reserved variables
    (
        "environ begin\nreserve X,Y for set;\ntheorem X = Y implies Y = X\nproof assume X = Y; hence Y = X; end;",
        "accepted 1",
    ),
    // a reserved variable is no constant behind its theorem
    (
        "environ begin\nreserve X for set;\ntheorem X = X proof thus X = X; end;\nset x = X;",
        "4:9 33",
    ),
    // nothing reserved
    ("environ begin theorem x = x;", "1:23 33"),
    // a theorem's label behind it, and its number
    (
        "environ begin\ntheorem B: for x,y being object st x = y holds y = x;\ntheorem for x,y being object st x = y holds y = x by B;\ntheorem for x,y being object st x = y holds y = x by A:2;",
        "accepted 3",
    ),
    // its own number isn't known in it
    (
        "environ begin\ntheorem for x being object holds x = x by A:1;",
        "2:43 43",
    ),
    // a statement is no theorem and has no number
    (
        "environ begin\nB: for x being object holds x = x;\ntheorem for x being object holds x = x by B;\ntheorem for x being object holds x = x by A:2;",
        "4:43 43",
    ),
    // an item ends the statement just before
    (
        "environ begin\nfor x being object holds x = x;\ntheorem for x being object holds x = x;\nthen for x being object holds x = x;",
        "4:1 41",
    ),
    // `reserve` too
    (
        "environ begin\nfor x being object holds x = x;\nreserve X for set;\nthen for x being object holds x = x;",
        "4:1 41",
    ),
    // a statement doesn't
    (
        "environ begin\nfor x being object holds x = x;\nthen for x being object holds x = x;",
        "accepted 0",
    ),
    // a constant of the article's own level isn't known in a theorem
    (
        "environ begin\nconsider c being object such that c = c;\ntheorem c = c;",
        "3:9 33",
    ),
    // but in its proof and in statements
    (
        "environ begin\nconsider c being object such that B: c = c;\nc = c;\ntheorem for x being object holds x = x\nproof let x be object; c = c by B; thus x = x; end;",
        "accepted 1",
    ),
    // there is something: the constant 0 is in every disjunct
    (
        "environ begin\ntheorem ex x being object st x = x;",
        "accepted 1",
    ),
    // `thesis` outside a proof
    ("environ begin\ntheorem thesis;", "2:9 33"),
    // equal things have equal members
    (
        "environ begin\ntheorem for x,X,Y being set st X = Y & x in X holds x in Y;",
        "accepted 1",
    ),
    // the axiom of extensionality wants its premise as it stands
    (
        "environ theorems TARSKI_0; begin\ntheorem for X,Y being set st (for x being object holds x in X iff x in Y) holds X = Y by TARSKI_0:2;",
        "accepted 1",
    ),
    // its premise in two parts isn't that
    (
        "environ theorems TARSKI_0; begin\ntheorem for X,Y being set st (for x being object st x in X holds x in Y) & (for x being object st x in Y holds x in X) holds X = Y by TARSKI_0:2;",
        "2:132 61 1",
    ),
    // a step between makes it
    (
        "environ theorems TARSKI_0; begin\ntheorem for X,Y being set st (for x being object st x in X holds x in Y) & (for x being object st x in Y holds x in X) holds X = Y\nproof let X,Y be set; assume B: (for x being object st x in X holds x in Y) & (for x being object st x in Y holds x in X);\nfor x being object holds x in X iff x in Y by B;\nhence thesis by TARSKI_0:2; end;",
        "accepted 1",
    ),
    // universals aren't chained
    (
        "environ begin\ntheorem for X,Y,Z being set st (for x being object st x in X holds x in Y) & (for x being object st x in Y holds x in Z) holds for x being object st x in X holds x in Z;",
        "2:169 61 1",
    ),
    // cases that aren't all: a third one is open
    (
        "environ begin\ntheorem for x,y,z,u being object st x = y or x = z or x = u holds y = x or z = x or u = x\nproof let x,y,z,u be object; assume x = y or x = z or x = u;\nthen per cases; suppose x = y; hence thesis; end; suppose x = z; hence thesis; end;\nend;",
        "4:15 61 3",
    ),
];

#[test]
fn articles_and_their_outcomes(rt: HostRuntime) {
    check_all(&rt, rt.alloc(), &ARTICLES);
}
