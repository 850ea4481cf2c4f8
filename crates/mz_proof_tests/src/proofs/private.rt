//! Private functors and predicates.
use crate::proofs::outcomes::{Row, check_all};

const PRIVATE: [Row; 29] = [
    // the term at the argument
    ("deffunc F(object) = $1; F(c) = c;", "33 |- (= c1 c1)"),
    // a constant of the body
    ("deffunc F(object) = d; F(c) = d;", "32 |- (= c2 c2)"),
    // no place
    ("deffunc F() = c; F() = c;", "25 |- (= c1 c1)"),
    // places in their order
    (
        "defpred P[object,set] means $1 in $2; P[c,d];",
        "45 |- (HIDDEN.R1 c1 c2)",
    ),
    // below a quantifier of the body
    (
        "defpred P[object] means for z being object holds z in $1; P[d];",
        "63 |- (HIDDEN.R1 c4 c2)",
    ),
    // at a bound variable
    (
        "defpred P[object] means for z being object holds z in $1; for w being object holds P[w];",
        "88 |- (HIDDEN.R1 c5 c4)",
    ),
    // one within the other
    (
        "deffunc F(object) = $1; defpred P[object] means F($1) = c; P[d];",
        "64 |- (= c2 c1)",
    ),
    // the latest of a name
    (
        "deffunc F(object) = c; deffunc F(object) = d; F(c) = d;",
        "55 |- (= c2 c2)",
    ),
    // in a `now`
    (
        "now deffunc F(object) = $1; thus F(c) = c; end;",
        "42 |- (= c1 c1)",
    ),
    // an argument of the type of its place
    (
        "deffunc F(Elm of d) = $1; F(e) = e;",
        "35 (A.M1 c2 c3), (HIDDEN.R1 c3 c2) |- (= c3 c3)",
    ),
    // what is known of a place in the body
    (
        "defpred P[Elm of d] means d has $1; P[e];",
        "41 (A.M1 c2 c3), (HIDDEN.R1 c3 c2) |- (A.R14 c2 c3)",
    ),
    // and what isn't
    ("defpred P[object] means d has $1;", "27 35"),
    // an argument of another type
    ("deffunc F(Elm of d) = $1; F(c) = c;", "27 35"),
    // another number of arguments comes before
    ("deffunc F(Elm of d) = $1; F(c,c) = c;", "27 32"),
    // in the types no place is known
    ("deffunc F(object, Elm of $1) = $1;", "26 33"),
    // nor is one that isn't there
    ("deffunc F(object) = $2;", "21 33"),
    // nor any behind it
    ("deffunc F(object) = $1; $1 = $1;", "25 33"),
    // a variable that is only reserved
    ("defpred P[object] means x = $1;", "25 33"),
    // it isn't known in its own body
    ("deffunc F(object) = F($1);", "21 33"),
    // the types are read first
    ("deffunc F(Elm of v) = v;", "18 33"),
    // there is no statement just before behind it
    ("p; deffunc F(object) = $1; then q;", "28 41"),
    ("p; defpred P[object] means p; then q;", "31 41"),
    // it is out of force behind its block
    (
        "p proof deffunc F(object) = $1; thus p; end; F(c) = c;",
        "46 33",
    ),
    // `thesis` in a proof, and where there is none
    (
        "p proof defpred P[object] means thesis; thus P[c]; end;",
        "50 |- A.R1",
    ),
    ("defpred P[object] means thesis;", "25 33"),
    // a constant that a `now` may not state
    (
        "now consider a being object such that a = c; deffunc F(object) = a; thus F(c) = c; end;",
        "69 41",
    ),
    // the steps before it come first
    ("p by B; deffunc F(object) = c;", "6 43"),
    // twenty definitions, each twice as large as the one before: the sixteenth has 131,071 nodes
    (
        "defpred Da[object] means $1 = $1; defpred Db[object] means Da[$1] & Da[$1]; defpred Dc[object] means Db[$1] & Db[$1]; defpred Dd[object] means Dc[$1] & Dc[$1]; defpred De[object] means Dd[$1] & Dd[$1]; defpred Df[object] means De[$1] & De[$1]; defpred Dg[object] means Df[$1] & Df[$1]; defpred Dh[object] means Dg[$1] & Dg[$1]; defpred Di[object] means Dh[$1] & Dh[$1]; defpred Dj[object] means Di[$1] & Di[$1]; defpred Dk[object] means Dj[$1] & Dj[$1]; defpred Dl[object] means Dk[$1] & Dk[$1]; defpred Dm[object] means Dl[$1] & Dl[$1]; defpred Dn[object] means Dm[$1] & Dm[$1]; defpred Do[object] means Dn[$1] & Dn[$1]; defpred Dp[object] means Do[$1] & Do[$1]; defpred Dq[object] means Dp[$1] & Dp[$1]; defpred Dr[object] means Dq[$1] & Dq[$1]; defpred Ds[object] means Dr[$1] & Dr[$1]; defpred Dt[object] means Ds[$1] & Ds[$1];",
        "648 36",
    ),
    // a predicate of 16,384 places for its argument, at a term of 129 nodes
    (
        "defpred Da[object] means $1 = $1; defpred Db[object] means Da[$1] & Da[$1]; defpred Dc[object] means Db[$1] & Db[$1]; defpred Dd[object] means Dc[$1] & Dc[$1]; defpred De[object] means Dd[$1] & Dd[$1]; defpred Df[object] means De[$1] & De[$1]; defpred Dg[object] means Df[$1] & Df[$1]; defpred Dh[object] means Dg[$1] & Dg[$1]; defpred Di[object] means Dh[$1] & Dh[$1]; defpred Dj[object] means Di[$1] & Di[$1]; defpred Dk[object] means Dj[$1] & Dj[$1]; defpred Dl[object] means Dk[$1] & Dk[$1]; defpred Dm[object] means Dl[$1] & Dl[$1]; defpred Dn[object] means Dm[$1] & Dm[$1]; deffunc Fa(object) = sin $1; deffunc Fb(object) = Fa(Fa($1)); deffunc Fc(object) = Fb(Fb($1)); deffunc Fd(object) = Fc(Fc($1)); deffunc Fe(object) = Fd(Fd($1)); deffunc Ff(object) = Fe(Fe($1)); deffunc Fg(object) = Ff(Ff($1)); deffunc Fh(object) = Fg(Fg($1)); Dn[Fh(c)];",
        "841 36",
    ),
];

#[test]
fn private_functors_and_predicates(rt: HostRuntime) {
    check_all(&rt, rt.alloc(), &PRIVATE);
}
