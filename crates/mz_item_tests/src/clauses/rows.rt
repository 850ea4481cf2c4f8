//! Items with their clauses, worked out by hand.

/// Rows with a blank line between: an item or a letter, under a comment or none, and behind it a line for each clause, with
/// its sort before it.
pub const CLAUSES: &str = "# func O1(X,x) -> non V1 M2 of x means ..
define func_means A.O1 ; ; set, (A.M1 b0) ; (A.M2 b0) with (not A.V1) ; true
typing 2 (A.O1 b1 b0) : (A.M1 b1 b0) => (A.M2 b0 (A.O1 b1 b0))
typing 2 (A.O1 b1 b0) : (A.M1 b1 b0) => (not (A.V1 (A.O1 b1 b0)))

# func O1(X,x) -> set equals x
define func_equals A.O1 ; ; set, (A.M1 b0) ; set ; b0
equality 2 (A.O1 b1 b0) : (A.M1 b1 b0) => (= (A.O1 b1 b0) b0)

# no equality with cases
define func_equals A.O1 ; ; set, (A.M1 b0) ; set ; b0 if true otherwise b1

# mode M3 of X,x -> M2 of X means ..
define mode A.M3 ; ; set, (A.M1 b0) ; (A.M2 b1) ; true
typing 3 (A.M3 b2 b1 b0) : (A.M1 b2 b1) (A.M3 b2 b1 b0) => (A.M2 b2 b0)

# redefine func .. -> M2 of X, of a pattern on X and x that reads to the term
redefine func ; set, (A.M1 b0) ; (A.O2 b0 (A.O3 b1)) ; set ; (A.M2 b1) ;
typing 2 (A.O2 b0 (A.O3 b1)) : (A.M1 b1 b0) => (A.M2 b1 (A.O2 b0 (A.O3 b1)))

redefine func ; set, (A.M1 b0) ; (A.O2 b0) ; set ; (A.M2 b1) ;

# redefine mode .. -> M2 of X, of a pattern on X and x that reads to V1 M4 of x,X
redefine mode ; set, (A.M1 b0) ; (A.M4 b0 b1) with A.V1 ; set ; (A.M2 b1) ;
typing 3 (A.M4 b1 b2 b0) : (A.M1 b2 b1) (A.M4 b1 b2 b0) (A.V1 b0) => (A.M2 b2 b0)

redefine mode ; set, (A.M1 b0) ; (A.M4 b1) ; set ; (A.M2 b1) ;

redefine mode ; set, (A.M1 b0) ; set ; set ; (A.M2 b1) ;

choice A.O1 ; set ; (A.M1 b0)
typing 1 (A.O1 b0) : => (A.M1 b0 (A.O1 b0))

letter A.F1 set, (A.M1 b0), (A.M1 b1) -> (A.M2 b1)
typing 3 (A.F1 b2 b1 b0) : (A.M1 b2 b1) (A.M1 b2 b0) => (A.M2 b1 (A.F1 b2 b1 b0))

letter A.P1 set

# cluster O1(X,x) -> V1 non V2 for M2 of X
register functorial set, (A.M1 b0) ; (A.O1 b1 b0) ; A.V1 (not A.V2) ; (A.M2 b1)
typing 2 (A.O1 b1 b0) : (A.M1 b1 b0) (A.M2 b1 (A.O1 b1 b0)) => (A.V1 (A.O1 b1 b0))
typing 2 (A.O1 b1 b0) : (A.M1 b1 b0) (A.M2 b1 (A.O1 b1 b0)) => (not (A.V2 (A.O1 b1 b0)))

register functorial set, (A.M1 b0) ; (A.O2 b0) ; A.V1 (not A.V2) ;

register functorial set ; b0 ; A.V1 (not A.V2) ;
typing 1 b0 : => (A.V1 b0)
typing 1 b0 : => (not (A.V2 b0))

# cluster V1 -> non V2 for M1 of X
register conditional set ; A.V1 ; (not A.V2) ; (A.M1 b0)
typing 2 (A.M1 b1 b0) : (A.M1 b1 b0) (A.V1 b0) => (not (A.V2 b0))

# the trigger of an adjective
register conditional set ; (not (A.V1 b0)) ; A.V2 ; A.M5
typing 2 (A.V1 b1 b0) : (A.M5 b0) (not (A.V1 b1 b0)) => (A.V2 b0)

register conditional set ; ; (A.V2 b0) ; set
typing 2 (A.V2 b1 b0) : => (A.V2 b1 b0)

# no trigger
register conditional set ; A.V1 ; A.V2 ; A.M5

register reduce set ; (A.O1 b0) ; b0
further 1 (A.O1 b0) : => (= (A.O1 b0) b0)

register identify set ; (A.O1 b0) ; b0
further 1 (A.O1 b0) : => (= (A.O1 b0) b0)

property reflexivity set, (A.M1 b0), (A.M1 b1) ; (A.R1 b2 b1 b0)
further 3 (A.R1 b2 b1 b0) : (A.M1 b2 b1) (A.M1 b2 b0) (= b1 b0) => (A.R1 b2 b1 b0)

property irreflexivity set, (A.M1 b0), (A.M1 b1) ; (A.R1 b2 b1 b0)
further 3 (A.R1 b2 b1 b0) : (A.M1 b2 b1) (A.M1 b2 b0) (= b1 b0) => (not (A.R1 b2 b1 b0))

# an antonym, an equation, and a predicate without one of the loci
property reflexivity set, (A.M1 b0), (A.M1 b1) ; (not (A.R1 b2 b0 b1))
further 3 (A.R1 b2 b0 b1) : (A.M1 b2 b1) (A.M1 b2 b0) (= b1 b0) => (not (A.R1 b2 b0 b1))

property symmetry set, (A.M1 b0), (A.M1 b1) ; (= b1 b0)

property symmetry set, (A.M1 b0), (A.M1 b1) ; (A.R1 b1 b0)

property symmetry set, (A.M1 b0), (A.M1 b1) ; (A.R1 b2 b1 b0)
further 3 (A.R1 b2 b1 b0) : (A.M1 b2 b1) (A.M1 b2 b0) (A.R1 b2 b1 b0) => (A.R1 b2 b0 b1)
further 3 (A.R1 b2 b1 b0) : (A.M1 b2 b1) (A.M1 b2 b0) (not (A.R1 b2 b1 b0)) => (not (A.R1 b2 b0 b1))

# loci of two types
property symmetry set, (A.M1 b0), (A.M2 b1) ; (A.R1 b2 b1 b0)
further 3 (A.R1 b2 b1 b0) : (A.M1 b2 b1) (A.M2 b2 b0) (A.R1 b2 b1 b0) => (A.R1 b2 b0 b1)

property asymmetry set, (A.M1 b0), (A.M1 b1) ; (A.R1 b2 b1 b0)
further 3 (A.R1 b2 b1 b0) : (A.M1 b2 b1) (A.M1 b2 b0) (A.R1 b2 b1 b0) => (not (A.R1 b2 b0 b1))

property connectedness set, (A.M1 b0), (A.M1 b1) ; (A.R1 b2 b1 b0)
further 3 (A.R1 b2 b1 b0) : (A.M1 b2 b1) (A.M1 b2 b0) (not (A.R1 b2 b1 b0)) => (A.R1 b2 b0 b1)

property commutativity set, (A.M1 b0), (A.M1 b1) ; (A.O1 b2 b1 b0)
further 3 (A.O1 b2 b1 b0) : (A.M1 b2 b1) (A.M1 b2 b0) => (= (A.O1 b2 b1 b0) (A.O1 b2 b0 b1))

property idempotence set, (A.M1 b0), (A.M1 b1) ; (A.O1 b2 b1 b0)
further 3 (A.O1 b2 b1 b0) : (A.M1 b2 b1) (A.M1 b2 b0) (= b1 b0) => (= (A.O1 b2 b1 b0) b1)

property involutiveness set, (A.M1 b0) ; (A.O2 b1 b0)
further 2 (A.O2 b1 b0) : (A.M1 b1 b0) (A.M1 b1 (A.O2 b1 b0)) => (= (A.O2 b1 (A.O2 b1 b0)) b0)

property projectivity set, (A.M1 b0) ; (A.O2 b1 b0)
further 2 (A.O2 b1 b0) : (A.M1 b1 b0) (A.M1 b1 (A.O2 b1 b0)) => (= (A.O2 b1 (A.O2 b1 b0)) (A.O2 b1 b0))

property sethood set, (A.M1 b0) ; A.M3

# let X be set; struct (G2) G1 over X (# U1 -> M1, U2 -> M2 of the U1 #)
struct A.G1 ; A.V1 ; A.A1 ; set ; A.G2 ; A.U1 A.M1 | A.U2 (A.M2 b1)
typing 2 (A.G1 b1 b0) : (A.G1 b1 b0) => (A.G2 b0)
typing 2 (A.G1 b1 b0) : (A.G1 b1 b0) => (A.M1 (A.U1 b0))
typing 2 (A.G1 b1 b0) : (A.G1 b1 b0) => (A.M2 (A.U1 b0) (A.U2 b0))
typing 3 (A.A1 b2 b1 b0) : (A.M1 b1) (A.M2 b1 b0) => (A.G1 b2 (A.A1 b2 b1 b0))
typing 3 (A.A1 b2 b1 b0) : (A.M1 b1) (A.M2 b1 b0) => (A.V1 b2 (A.A1 b2 b1 b0))
typing 3 (A.A1 b2 b1 b0) : (A.M1 b1) (A.M2 b1 b0) => (= (A.U1 (A.A1 b2 b1 b0)) b1)
typing 3 (A.A1 b2 b1 b0) : (A.M1 b1) (A.M2 b1 b0) => (= (A.U2 (A.A1 b2 b1 b0)) b0)
further 2 (A.V1 b1 b0) : (A.G1 b1 b0) (A.V1 b1 b0) => (= b0 (A.A1 b1 (A.U1 b0) (A.U2 b0)))";

/// Items of each kind that gives clauses, and a theorem.
pub const EXPORTED: &str =
    "define func_means A.O1 ; ; set, (A.M1 b0) ; (A.M2 b0) with (not A.V1) ; true
theorem true
define func_equals A.O1 ; ; set, (A.M1 b0) ; set ; b0
define mode A.M3 ; ; set, (A.M1 b0) ; (A.M2 b1) ; true
redefine func ; set, (A.M1 b0) ; (A.O2 b0 b1) ; set ; (A.M2 b1) ;
redefine mode ; set, (A.M1 b0) ; (A.M4 b0 b1) with A.V1 ; set ; (A.M2 b1) ;
property symmetry set, (A.M1 b0), (A.M1 b1) ; (A.R1 b2 b1 b0)
register functorial set, (A.M1 b0) ; (A.O1 b1 b0) ; A.V1 (not A.V2) ; (A.M2 b1)
register conditional set ; A.V1 ; (not A.V2) ; (A.M1 b0)
register reduce set ; (A.O1 b0) ; b0
struct A.G1 ; A.V1 ; A.A1 ; set ; A.G2 ; A.U1 A.M1 | A.U2 (A.M2 b1)";

/// The clauses of the export with these items, each behind a line's end.
pub const CLAUSES_OF_EXPORT: &str = "
2 (A.O1 b1 b0) : (A.M1 b1 b0) => (A.M2 b0 (A.O1 b1 b0))
2 (A.O1 b1 b0) : (A.M1 b1 b0) => (not (A.V1 (A.O1 b1 b0)))
2 (A.O1 b1 b0) : (A.M1 b1 b0) => (= (A.O1 b1 b0) b0)
3 (A.M3 b2 b1 b0) : (A.M1 b2 b1) (A.M3 b2 b1 b0) => (A.M2 b2 b0)
2 (A.O2 b0 b1) : (A.M1 b1 b0) => (A.M2 b1 (A.O2 b0 b1))
3 (A.M4 b1 b2 b0) : (A.M1 b2 b1) (A.M4 b1 b2 b0) (A.V1 b0) => (A.M2 b2 b0)
3 (A.R1 b2 b1 b0) : (A.M1 b2 b1) (A.M1 b2 b0) (A.R1 b2 b1 b0) => (A.R1 b2 b0 b1)
3 (A.R1 b2 b1 b0) : (A.M1 b2 b1) (A.M1 b2 b0) (not (A.R1 b2 b1 b0)) => (not (A.R1 b2 b0 b1))
2 (A.O1 b1 b0) : (A.M1 b1 b0) (A.M2 b1 (A.O1 b1 b0)) => (A.V1 (A.O1 b1 b0))
2 (A.O1 b1 b0) : (A.M1 b1 b0) (A.M2 b1 (A.O1 b1 b0)) => (not (A.V2 (A.O1 b1 b0)))
2 (A.M1 b1 b0) : (A.M1 b1 b0) (A.V1 b0) => (not (A.V2 b0))
1 (A.O1 b0) : => (= (A.O1 b0) b0)
2 (A.G1 b1 b0) : (A.G1 b1 b0) => (A.G2 b0)
2 (A.G1 b1 b0) : (A.G1 b1 b0) => (A.M1 (A.U1 b0))
2 (A.G1 b1 b0) : (A.G1 b1 b0) => (A.M2 (A.U1 b0) (A.U2 b0))
3 (A.A1 b2 b1 b0) : (A.M1 b1) (A.M2 b1 b0) => (A.G1 b2 (A.A1 b2 b1 b0))
3 (A.A1 b2 b1 b0) : (A.M1 b1) (A.M2 b1 b0) => (A.V1 b2 (A.A1 b2 b1 b0))
3 (A.A1 b2 b1 b0) : (A.M1 b1) (A.M2 b1 b0) => (= (A.U1 (A.A1 b2 b1 b0)) b1)
3 (A.A1 b2 b1 b0) : (A.M1 b1) (A.M2 b1 b0) => (= (A.U2 (A.A1 b2 b1 b0)) b0)
2 (A.V1 b1 b0) : (A.G1 b1 b0) (A.V1 b1 b0) => (= b0 (A.A1 b1 (A.U1 b0) (A.U2 b0)))";
