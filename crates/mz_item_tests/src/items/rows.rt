//! Items with what is asked of them, worked out by hand.

/// Rows with a blank line between: an item under a comment or none, and behind it a line for each answer. `owes` has a
/// sequent, `grants` a formula; the word of a condition or `property` has what this states under the loci; `defines` has the
/// definitional theorem; `reads` has what a notation reads to, a type by what it says of `b9`.
pub const ITEMS: &str = "property reflexivity set, set ; (A.R1 b1 b0)
owes |- (all (all (all (A.R1 b0 b0))))
property (all (A.R1 b0 b0))

property irreflexivity set, set ; (A.R1 b1 b0)
owes |- (all (all (all (not (A.R1 b0 b0)))))
property (all (not (A.R1 b0 b0)))

property asymmetry set, set ; (A.R1 b1 b0)
owes |- (all (all (all (all (not (and (A.R1 b1 b0) (A.R1 b0 b1)))))))
property (all (all (not (and (A.R1 b1 b0) (A.R1 b0 b1)))))

property connectedness set, set ; (A.R1 b1 b0)
owes |- (all (all (all (all (not (and (not (A.R1 b1 b0)) (not (A.R1 b0 b1))))))))
property (all (all (not (and (not (A.R1 b1 b0)) (not (A.R1 b0 b1))))))

property idempotence set, set ; (A.O1 b1 b0)
owes |- (all (all (all (= (A.O1 b0 b0) b0))))
property (all (= (A.O1 b0 b0) b0))

property commutativity set, set ; (A.O1 b1 b0)
owes |- (all (all (all (all (= (A.O1 b1 b0) (A.O1 b0 b1))))))
property (all (all (= (A.O1 b1 b0) (A.O1 b0 b1))))

# let X be set; let x,y be M1 of X
property symmetry set, (A.M1 b0), (A.M1 b1) ; (A.R1 b1 b0)
owes |- (all (all (not (and (A.M1 b1 b0) (not (all (not (and (A.M1 b2 b0) (not (all (not (and (A.M1 b3 b0) (not (all (not (and (A.M1 b4 b0) (and (A.R1 b1 b0) (not (A.R1 b0 b1)))))))))))))))))))
property (all (not (and (A.M1 b3 b0) (not (all (not (and (A.M1 b4 b0) (and (A.R1 b1 b0) (not (A.R1 b0 b1))))))))))

# let x be M1
property involutiveness A.M1 ; (A.O1 b0)
owes |- (all (not (and (A.M1 b0) (not (all (not (and (A.M1 b0) (and (A.M1 (A.O1 b0)) (not (= (A.O1 (A.O1 b0)) b0))))))))))
property (all (not (and (A.M1 b0) (and (A.M1 (A.O1 b0)) (not (= (A.O1 (A.O1 b0)) b0))))))

property projectivity A.M1 ; (A.O1 b0)
owes |- (all (not (and (A.M1 b0) (not (all (not (and (A.M1 b0) (and (A.M1 (A.O1 b0)) (not (= (A.O1 (A.O1 b0)) (A.O1 b0)))))))))))
property (all (not (and (A.M1 b0) (and (A.M1 (A.O1 b0)) (not (= (A.O1 (A.O1 b0)) (A.O1 b0)))))))

# let X be set; let x be M1 of X, and the functor O1(X,x) whose visible locus is x
property involutiveness set, (A.M1 b0) ; (A.O1 b1 b0)
owes |- (all (all (not (and (A.M1 b1 b0) (not (all (not (and (A.M1 b2 b0) (and (A.M1 b2 (A.O1 b2 b0)) (not (= (A.O1 b2 (A.O1 b2 b0)) b0)))))))))))
property (all (not (and (A.M1 b2 b0) (and (A.M1 b2 (A.O1 b2 b0)) (not (= (A.O1 b2 (A.O1 b2 b0)) b0))))))

# let X be set, and the mode M1 of X
property sethood set ; A.M1
owes |- (all (not (all (not (all (not (and (A.M1 b2 b0) (not (HIDDEN.R1 b0 b1)))))))))
property (not (all (not (all (not (and (A.M1 b2 b0) (not (HIDDEN.R1 b0 b1))))))))

# cluster non V1 M1
register existential ; (not A.V1) ; A.M1
owes |- (not (all (not (and (A.M1 b0) (not (A.V1 b0))))))
existence (not (all (not (and (A.M1 b0) (not (A.V1 b0))))))

# let X be set; cluster V1(X) non V2 M1 of X
register existential set ; (A.V1 b0) (not A.V2) ; (A.M1 b0)
owes |- (all (not (all (not (and (A.M1 b1 b0) (and (A.V1 b1 b0) (not (A.V2 b0))))))))
existence (not (all (not (and (A.M1 b1 b0) (and (A.V1 b1 b0) (not (A.V2 b0)))))))

# cluster V1 -> non V2 for M1
register conditional ; A.V1 ; (not A.V2) ; A.M1
owes |- (all (not (and (A.M1 b0) (and (A.V1 b0) (A.V2 b0)))))
coherence (all (not (and (A.M1 b0) (and (A.V1 b0) (A.V2 b0)))))

# without an antecedent: let X be set; cluster -> V1(X) non V2 for set
register conditional set ; ; (A.V1 b0) (not A.V2) ; set
owes |- (all (all (and (A.V1 b1 b0) (not (A.V2 b0)))))
coherence (all (and (A.V1 b1 b0) (not (A.V2 b0))))

# let X be set; cluster O1(X) -> V1 for M1
register functorial set ; (A.O1 b0) ; A.V1 ; A.M1
owes |- (all (not (and (A.M1 (A.O1 b0)) (not (A.V1 (A.O1 b0))))))
coherence (not (and (A.M1 (A.O1 b0)) (not (A.V1 (A.O1 b0)))))

# the same with non V1 for set: a type that says nothing is an antecedent all the same
register functorial set ; (A.O1 b0) ; (not A.V1) ; set
owes |- (all (not (and true (A.V1 (A.O1 b0)))))
coherence (not (and true (A.V1 (A.O1 b0))))

# let X be set; reduce O1(X) to X
register reduce set ; (A.O1 b0) ; b0
owes |- (all (= (A.O1 b0) b0))
reducibility (= (A.O1 b0) b0)

# let X be set; identify O1(X) with O2(X)
register identify set ; (A.O1 b0) ; (A.O2 b0)
owes |- (all (= (A.O1 b0) (A.O2 b0)))
compatibility (= (A.O1 b0) (A.O2 b0))

# for x being non V1 M1 holds not not R1[x]
theorem (all (not (not (A.R1 b0)))) over A.M1 with (not A.V1)
owes |- (all (not (and (and (A.M1 b0) (not (A.V1 b0))) (not (A.R1 b0)))))

axiom (all (not (not (A.R1 b0)))) over A.M1 with (not A.V1)
grants (all (not (and (and (A.M1 b0) (not (A.V1 b0))) (not (A.R1 b0)))))

# { F1(set) -> M1, P1[set] } : for x being M1 holds P1[F1(x)] provided for x being M1 holds P1[x]
scheme A.F1 set -> A.M1 | A.P1 set ; (all (A.P1 b0)) over A.M1 ; (all (A.P1 (A.F1 b0))) over A.M1
owes (all (A.M1 (A.F1 b0))) (all (not (and (A.M1 b0) (not (A.P1 b0))))) |- (all (not (and (A.M1 b0) (not (A.P1 (A.F1 b0))))))

axiom_scheme A.F1 set -> A.M1 | A.P1 set ; (all (A.P1 b0)) over A.M1 ; (all (A.P1 (A.F1 b0))) over A.M1
grants (not (and (all (not (and (A.M1 b0) (not (A.P1 b0))))) (not (all (not (and (A.M1 b0) (not (A.P1 (A.F1 b0)))))))))

# let X be set; struct (G2) G1 over X (# U1 -> M1, U2 -> M2 of the U1 #)
struct A.G1 ; A.V1 ; A.A1 ; set ; A.G2 ; A.U1 A.M1 | A.U2 (A.M2 b1)
grants (all (all (not (and (A.G1 b1 b0) (not (A.G2 b0))))))
grants (all (all (not (and (A.G1 b1 b0) (not (and (A.M1 (A.U1 b0)) (A.M2 (A.U1 b0) (A.U2 b0))))))))
grants (all (all (all (not (and (and (A.M1 b1) (A.M2 b1 b0)) (not (and (and (and (A.G1 b2 (A.A1 b2 b1 b0)) (A.V1 b2 (A.A1 b2 b1 b0))) (= (A.U1 (A.A1 b2 b1 b0)) b1)) (= (A.U2 (A.A1 b2 b1 b0)) b0))))))))
grants (all (all (not (and (and (A.G1 b1 b0) (A.V1 b1 b0)) (not (= b0 (A.A1 b1 (A.U1 b0) (A.U2 b0))))))))

# let X be set; struct G1 over X (# U1 -> M1 of X,the object, U2 -> M2 of the U1,the U2 #)
struct A.G1 ; A.V1 ; A.A1 ; set ; ; A.U1 (A.M1 b3 b2) | A.U2 (A.M2 b1 b0)
grants (all (all (not (and (A.G1 b1 b0) (not true)))))
grants (all (all (not (and (A.G1 b1 b0) (not (and (A.M1 b1 b0 (A.U1 b0)) (A.M2 (A.U1 b0) (A.U2 b0) (A.U2 b0))))))))
grants (all (all (all (not (and (and (A.M1 b2 (A.A1 b2 b1 b0) b1) (A.M2 b1 b0 b0)) (not (and (and (and (A.G1 b2 (A.A1 b2 b1 b0)) (A.V1 b2 (A.A1 b2 b1 b0))) (= (A.U1 (A.A1 b2 b1 b0)) b1)) (= (A.U2 (A.A1 b2 b1 b0)) b0))))))))
grants (all (all (not (and (and (A.G1 b1 b0) (A.V1 b1 b0)) (not (= b0 (A.A1 b1 (A.U1 b0) (A.U2 b0))))))))

# the first one, with the modes M1 and M2 of one locus as notations
struct A.G1 ; A.V1 ; A.A1 ; set ; A.G2 ; A.U1 A.M1 | A.U2 (A.M2 b1) ; (A.M1 b0) | (A.M2 b0)
grants (all (all (not (and (A.G1 b1 b0) (not (A.G2 b0))))))
grants (all (all (not (and (A.G1 b1 b0) (not (and (A.M1 (A.U1 b0)) (A.M2 (A.U1 b0) (A.U2 b0))))))))
grants (all (all (all (not (and (and (A.M1 b1) (A.M2 b1 b0)) (not (and (and (and (A.G1 b2 (A.A1 b2 b1 b0)) (A.V1 b2 (A.A1 b2 b1 b0))) (= (A.U1 (A.A1 b2 b1 b0)) b1)) (= (A.U2 (A.A1 b2 b1 b0)) b0))))))))
grants (all (all (not (and (and (A.G1 b1 b0) (A.V1 b1 b0)) (not (= b0 (A.A1 b1 (A.U1 b0) (A.U2 b0))))))))
reads (A.M1 b0 b9)
reads (A.M2 b0 b9)

# let X be set; { O1(x) where x is M1 of X : R1[x] }, the symbol being O2
set_term A.O2 ; set ; (A.M1 b0) ; (A.O1 b0) ; (A.R1 b0)
owes |- (all (not (all (not (all (and (not (and (HIDDEN.R1 b0 b1) (all (not (and (A.M1 b3 b0) (and (= b1 (A.O1 b0)) (A.R1 b0))))))) (not (and (not (all (not (and (A.M1 b3 b0) (and (= b1 (A.O1 b0)) (A.R1 b0)))))) (not (HIDDEN.R1 b0 b1))))))))))
grants (all (all (and (not (and (HIDDEN.R1 b0 (A.O2 b1)) (all (not (and (A.M1 b2 b0) (and (= b1 (A.O1 b0)) (A.R1 b0))))))) (not (and (not (all (not (and (A.M1 b2 b0) (and (= b1 (A.O1 b0)) (A.R1 b0)))))) (not (HIDDEN.R1 b0 (A.O2 b1))))))))
existence (not (all (not (all (and (not (and (HIDDEN.R1 b0 b1) (all (not (and (A.M1 b3 b0) (and (= b1 (A.O1 b0)) (A.R1 b0))))))) (not (and (not (all (not (and (A.M1 b3 b0) (and (= b1 (A.O1 b0)) (A.R1 b0)))))) (not (HIDDEN.R1 b0 b1)))))))))

# the same with O1(x,X) and R1[x,X]
set_term A.O2 ; set ; (A.M1 b0) ; (A.O1 b0 b1) ; (A.R1 b0 b1)
owes |- (all (not (all (not (all (and (not (and (HIDDEN.R1 b0 b1) (all (not (and (A.M1 b3 b0) (and (= b1 (A.O1 b0 b3)) (A.R1 b0 b3))))))) (not (and (not (all (not (and (A.M1 b3 b0) (and (= b1 (A.O1 b0 b3)) (A.R1 b0 b3)))))) (not (HIDDEN.R1 b0 b1))))))))))
grants (all (all (and (not (and (HIDDEN.R1 b0 (A.O2 b1)) (all (not (and (A.M1 b2 b0) (and (= b1 (A.O1 b0 b2)) (A.R1 b0 b2))))))) (not (and (not (all (not (and (A.M1 b2 b0) (and (= b1 (A.O1 b0 b2)) (A.R1 b0 b2)))))) (not (HIDDEN.R1 b0 (A.O2 b1))))))))
existence (not (all (not (all (and (not (and (HIDDEN.R1 b0 b1) (all (not (and (A.M1 b3 b0) (and (= b1 (A.O1 b0 b3)) (A.R1 b0 b3))))))) (not (and (not (all (not (and (A.M1 b3 b0) (and (= b1 (A.O1 b0 b3)) (A.R1 b0 b3)))))) (not (HIDDEN.R1 b0 b1)))))))))

# let X be set; the M1 of X, the symbol being O1
choice A.O1 ; set ; (A.M1 b0)
owes |- (all (not (all (not (and (A.M1 b1 b0) true)))))
grants (all (A.M1 b0 (A.O1 b0)))
existence (not (all (not (and (A.M1 b1 b0) true))))

# let X be set; func O1(X) -> M1 of X means R1[it,X]
define func_means A.O1 ; ; set ; (A.M1 b0) ; (A.R1 b0 b1)
owes |- (all (not (all (not (and (A.M1 b1 b0) (A.R1 b0 b1))))))
owes |- (all (all (not (and (A.M1 b1 b0) (not (all (not (and (A.M1 b2 b0) (and (and (A.R1 b1 b2) (A.R1 b0 b2)) (not (= b1 b0)))))))))))
grants (all (A.M1 b0 (A.O1 b0)))
grants (all (all (not (and (A.M1 b1 b0) (not (and (not (and (= b0 (A.O1 b1)) (not (A.R1 b0 b1)))) (not (and (A.R1 b0 b1) (not (= b0 (A.O1 b1)))))))))))
existence (not (all (not (and (A.M1 b1 b0) (A.R1 b0 b1)))))
uniqueness (all (not (and (A.M1 b1 b0) (not (all (not (and (A.M1 b2 b0) (and (and (A.R1 b1 b2) (A.R1 b0 b2)) (not (= b1 b0))))))))))
defines (all (all (not (and (A.M1 b1 b0) (not (and (not (and (= b0 (A.O1 b1)) (not (A.R1 b0 b1)))) (not (and (A.R1 b0 b1) (not (= b0 (A.O1 b1)))))))))))
reads (A.O1 b0)

# let X be set; func O1(X) means R1[it,X] if R3[X] otherwise R2[X,it]
define func_means A.O1 ; ; set ; set ; (A.R1 b0 b1) if (A.R3 b0) otherwise (A.R2 b1 b0)
owes |- (all (and (not (and (A.R3 b0) (all (not (A.R1 b0 b1))))) (not (and (not (A.R3 b0)) (all (not (A.R2 b1 b0)))))))
owes |- (all (and (not (and (A.R3 b0) (not (all (all (not (and (and (A.R1 b1 b2) (A.R1 b0 b2)) (not (= b1 b0))))))))) (not (and (not (A.R3 b0)) (not (all (all (not (and (and (A.R2 b2 b1) (A.R2 b2 b0)) (not (= b1 b0)))))))))))
grants (all true)
grants (all (and (not (and (A.R3 b0) (not (all (and (not (and (= b0 (A.O1 b1)) (not (A.R1 b0 b1)))) (not (and (A.R1 b0 b1) (not (= b0 (A.O1 b1)))))))))) (not (and (not (A.R3 b0)) (not (all (and (not (and (= b0 (A.O1 b1)) (not (A.R2 b1 b0)))) (not (and (A.R2 b1 b0) (not (= b0 (A.O1 b1))))))))))))
existence (and (not (and (A.R3 b0) (all (not (A.R1 b0 b1))))) (not (and (not (A.R3 b0)) (all (not (A.R2 b1 b0))))))
uniqueness (and (not (and (A.R3 b0) (not (all (all (not (and (and (A.R1 b1 b2) (A.R1 b0 b2)) (not (= b1 b0))))))))) (not (and (not (A.R3 b0)) (not (all (all (not (and (and (A.R2 b2 b1) (A.R2 b2 b0)) (not (= b1 b0))))))))))
defines (all (and (not (and (A.R3 b0) (not (all (and (not (and (= b0 (A.O1 b1)) (not (A.R1 b0 b1)))) (not (and (A.R1 b0 b1) (not (= b0 (A.O1 b1)))))))))) (not (and (not (A.R3 b0)) (not (all (and (not (and (= b0 (A.O1 b1)) (not (A.R2 b1 b0)))) (not (and (A.R2 b1 b0) (not (= b0 (A.O1 b1))))))))))))
reads (A.O1 b0)

# let X be set; mode M2 of X -> M1 of X means R1[it,X] if R3[X], R2[it,X] if R4[X]
define mode A.M2 ; ; set ; (A.M1 b0) ; (A.R1 b0 b1) if (A.R3 b0) | (A.R2 b0 b1) if (A.R4 b0)
owes |- (all (and (not (and (A.R3 b0) (all (not (and (A.M1 b1 b0) (A.R1 b0 b1)))))) (not (and (A.R4 b0) (all (not (and (A.M1 b1 b0) (A.R2 b0 b1))))))))
owes |- (all (not (and (and (A.R3 b0) (A.R4 b0)) (not (all (not (and (A.M1 b1 b0) (not (and (not (and (A.R1 b0 b1) (not (A.R2 b0 b1)))) (not (and (A.R2 b0 b1) (not (A.R1 b0 b1)))))))))))))
grants (all (all (not (and (A.M2 b1 b0) (not (A.M1 b1 b0))))))
grants (all (and (not (and (A.R3 b0) (not (all (not (and (A.M1 b1 b0) (not (and (not (and (A.M2 b1 b0) (not (A.R1 b0 b1)))) (not (and (A.R1 b0 b1) (not (A.M2 b1 b0)))))))))))) (not (and (A.R4 b0) (not (all (not (and (A.M1 b1 b0) (not (and (not (and (A.M2 b1 b0) (not (A.R2 b0 b1)))) (not (and (A.R2 b0 b1) (not (A.M2 b1 b0))))))))))))))
existence (and (not (and (A.R3 b0) (all (not (and (A.M1 b1 b0) (A.R1 b0 b1)))))) (not (and (A.R4 b0) (all (not (and (A.M1 b1 b0) (A.R2 b0 b1)))))))
consistency (not (and (and (A.R3 b0) (A.R4 b0)) (not (all (not (and (A.M1 b1 b0) (not (and (not (and (A.R1 b0 b1) (not (A.R2 b0 b1)))) (not (and (A.R2 b0 b1) (not (A.R1 b0 b1))))))))))))
defines (all (and (not (and (A.R3 b0) (not (all (not (and (A.M1 b1 b0) (not (and (not (and (A.M2 b1 b0) (not (A.R1 b0 b1)))) (not (and (A.R1 b0 b1) (not (A.M2 b1 b0)))))))))))) (not (and (A.R4 b0) (not (all (not (and (A.M1 b1 b0) (not (and (not (and (A.M2 b1 b0) (not (A.R2 b0 b1)))) (not (and (A.R2 b0 b1) (not (A.M2 b1 b0))))))))))))))
reads (A.M2 b0 b9)

# let X be set; func O1(X) -> M1 equals O2(X) if R1[X], O3(X) if R2[X] otherwise X
define func_equals A.O1 ; ; set ; A.M1 ; (A.O2 b0) if (A.R1 b0) | (A.O3 b0) if (A.R2 b0) otherwise b0
owes |- (all (and (and (not (and (A.R1 b0) (not (A.M1 (A.O2 b0))))) (not (and (A.R2 b0) (not (A.M1 (A.O3 b0)))))) (not (and (and (not (A.R1 b0)) (not (A.R2 b0))) (not (A.M1 b0))))))
owes |- (all (not (and (and (A.R1 b0) (A.R2 b0)) (not (= (A.O2 b0) (A.O3 b0))))))
grants (all (A.M1 (A.O1 b0)))
grants (all (and (and (not (and (A.R1 b0) (not (= (A.O1 b0) (A.O2 b0))))) (not (and (A.R2 b0) (not (= (A.O1 b0) (A.O3 b0)))))) (not (and (and (not (A.R1 b0)) (not (A.R2 b0))) (not (= (A.O1 b0) b0))))))
coherence (and (and (not (and (A.R1 b0) (not (A.M1 (A.O2 b0))))) (not (and (A.R2 b0) (not (A.M1 (A.O3 b0)))))) (not (and (and (not (A.R1 b0)) (not (A.R2 b0))) (not (A.M1 b0)))))
consistency (not (and (and (A.R1 b0) (A.R2 b0)) (not (= (A.O2 b0) (A.O3 b0)))))
defines (all (and (and (not (and (A.R1 b0) (not (= (A.O1 b0) (A.O2 b0))))) (not (and (A.R2 b0) (not (= (A.O1 b0) (A.O3 b0)))))) (not (and (and (not (A.R1 b0)) (not (A.R2 b0))) (not (= (A.O1 b0) b0))))))
reads (A.O1 b0)

# let X be set; func O9(X) equals O1(X) if R1[X], O2(X) if R2[X], O3(X) if R3[X]
define func_equals A.O9 ; ; set ; set ; (A.O1 b0) if (A.R1 b0) | (A.O2 b0) if (A.R2 b0) | (A.O3 b0) if (A.R3 b0)
owes |- (all (and (and (not (and (A.R1 b0) (not true))) (not (and (A.R2 b0) (not true)))) (not (and (A.R3 b0) (not true)))))
owes |- (all (and (and (not (and (and (A.R1 b0) (A.R2 b0)) (not (= (A.O1 b0) (A.O2 b0))))) (not (and (and (A.R1 b0) (A.R3 b0)) (not (= (A.O1 b0) (A.O3 b0)))))) (not (and (and (A.R2 b0) (A.R3 b0)) (not (= (A.O2 b0) (A.O3 b0)))))))
grants (all true)
grants (all (and (and (not (and (A.R1 b0) (not (= (A.O9 b0) (A.O1 b0))))) (not (and (A.R2 b0) (not (= (A.O9 b0) (A.O2 b0)))))) (not (and (A.R3 b0) (not (= (A.O9 b0) (A.O3 b0)))))))
coherence (and (and (not (and (A.R1 b0) (not true))) (not (and (A.R2 b0) (not true)))) (not (and (A.R3 b0) (not true))))
consistency (and (and (not (and (and (A.R1 b0) (A.R2 b0)) (not (= (A.O1 b0) (A.O2 b0))))) (not (and (and (A.R1 b0) (A.R3 b0)) (not (= (A.O1 b0) (A.O3 b0)))))) (not (and (and (A.R2 b0) (A.R3 b0)) (not (= (A.O2 b0) (A.O3 b0))))))
defines (all (and (and (not (and (A.R1 b0) (not (= (A.O9 b0) (A.O1 b0))))) (not (and (A.R2 b0) (not (= (A.O9 b0) (A.O2 b0)))))) (not (and (A.R3 b0) (not (= (A.O9 b0) (A.O3 b0)))))))
reads (A.O9 b0)

# let X,Y be set; pred R5[X,Y] means R1[Y,X] if R3[Y], R2[Y,X] if R4[Y]
define pred A.R5 ; ; set, set ; (A.R1 b0 b1) if (A.R3 b0) | (A.R2 b0 b1) if (A.R4 b0)
owes |- (all (all (not (and (and (A.R3 b0) (A.R4 b0)) (not (and (not (and (A.R1 b0 b1) (not (A.R2 b0 b1)))) (not (and (A.R2 b0 b1) (not (A.R1 b0 b1))))))))))
grants (all (all (and (not (and (A.R3 b0) (not (and (not (and (A.R5 b1 b0) (not (A.R1 b0 b1)))) (not (and (A.R1 b0 b1) (not (A.R5 b1 b0)))))))) (not (and (A.R4 b0) (not (and (not (and (A.R5 b1 b0) (not (A.R2 b0 b1)))) (not (and (A.R2 b0 b1) (not (A.R5 b1 b0)))))))))))
consistency (not (and (and (A.R3 b0) (A.R4 b0)) (not (and (not (and (A.R1 b0 b1) (not (A.R2 b0 b1)))) (not (and (A.R2 b0 b1) (not (A.R1 b0 b1))))))))
defines (all (all (and (not (and (A.R3 b0) (not (and (not (and (A.R5 b1 b0) (not (A.R1 b0 b1)))) (not (and (A.R1 b0 b1) (not (A.R5 b1 b0)))))))) (not (and (A.R4 b0) (not (and (not (and (A.R5 b1 b0) (not (A.R2 b0 b1)))) (not (and (A.R2 b0 b1) (not (A.R5 b1 b0)))))))))))
reads (A.R5 b1 b0)

# let x,Y be set; attr x is V1 means R2[x,Y]: the subject is the first locus
define attr A.V1 ; ; set, set ; 0 ; (A.R2 b1 b0)
grants (all (all (and (not (and (A.V1 b0 b1) (not (A.R2 b1 b0)))) (not (and (A.R2 b1 b0) (not (A.V1 b0 b1)))))))
defines (all (all (and (not (and (A.V1 b0 b1) (not (A.R2 b1 b0)))) (not (and (A.R2 b1 b0) (not (A.V1 b0 b1)))))))
reads (A.V1 b0 b1)

# let X,y,Z be set; attr y is V1 means R2[X,y,Z]: it is the one in the middle
define attr A.V1 ; ; set, set, set ; 1 ; (A.R2 b2 b1 b0)
grants (all (all (all (and (not (and (A.V1 b2 b0 b1) (not (A.R2 b2 b1 b0)))) (not (and (A.R2 b2 b1 b0) (not (A.V1 b2 b0 b1))))))))
defines (all (all (all (and (not (and (A.V1 b2 b0 b1) (not (A.R2 b2 b1 b0)))) (not (and (A.R2 b2 b1 b0) (not (A.V1 b2 b0 b1))))))))
reads (A.V1 b2 b0 b1)

abbreviation mode ; ; set ; (A.M1 b0)
reads (A.M1 b0 b9)

notation mode ; ; set ; (A.M2 b0)
reads (A.M2 b0 b9)

primitive mode ; ; set ; (A.M3 b0)
reads (A.M3 b0 b9)

# let X be set; redefine func O1(X) -> M1 means R1[it,X]
redefine func ; set ; (A.O1 b0) ; set ; A.M1 ; (A.R1 b0 b1)
owes |- (all (A.M1 (A.O1 b0)))
owes |- (all (all (not (and (A.M1 b0) (not (and (not (and (= b0 (A.O1 b1)) (not (A.R1 b0 b1)))) (not (and (A.R1 b0 b1) (not (= b0 (A.O1 b1)))))))))))
coherence (A.M1 (A.O1 b0))
compatibility (all (not (and (A.M1 b0) (not (and (not (and (= b0 (A.O1 b1)) (not (A.R1 b0 b1)))) (not (and (A.R1 b0 b1) (not (= b0 (A.O1 b1))))))))))
defines (all (all (not (and (A.M1 b0) (not (and (not (and (= b0 (A.O1 b1)) (not (A.R1 b0 b1)))) (not (and (A.R1 b0 b1) (not (= b0 (A.O1 b1)))))))))))
reads (A.O1 b0)

# let X be set; redefine mode M2 of X means R1[it,X], the old type being M1 of X
redefine mode ; set ; (A.M2 b0) ; (A.M1 b0) ; ; (A.R1 b0 b1)
owes |- (all (all (not (and (A.M1 b1 b0) (not (and (not (and (A.M2 b1 b0) (not (A.R1 b0 b1)))) (not (and (A.R1 b0 b1) (not (A.M2 b1 b0))))))))))
compatibility (all (not (and (A.M1 b1 b0) (not (and (not (and (A.M2 b1 b0) (not (A.R1 b0 b1)))) (not (and (A.R1 b0 b1) (not (A.M2 b1 b0)))))))))
defines (all (all (not (and (A.M1 b1 b0) (not (and (not (and (A.M2 b1 b0) (not (A.R1 b0 b1)))) (not (and (A.R1 b0 b1) (not (A.M2 b1 b0))))))))))
reads (A.M2 b0 b9)

# let X be set; redefine mode M2 of X -> M3, the old type being M1 of X
redefine mode ; set ; (A.M2 b0) ; (A.M1 b0) ; A.M3 ;
owes |- (all (all (not (and (A.M2 b1 b0) (not (A.M3 b0))))))
coherence (all (not (and (A.M2 b1 b0) (not (A.M3 b0)))))
reads (A.M2 b0 b9)

# let X be set; redefine mode M2 of X -> M3 of X means R1[it,X], the old type being set
redefine mode ; set ; (A.M2 b0) ; set ; (A.M3 b0) ; (A.R1 b0 b1)
owes |- (all (all (not (and (A.M2 b1 b0) (not (A.M3 b1 b0))))))
owes |- (all (all (not (and (A.M3 b1 b0) (not (and (not (and (A.M2 b1 b0) (not (A.R1 b0 b1)))) (not (and (A.R1 b0 b1) (not (A.M2 b1 b0))))))))))
coherence (all (not (and (A.M2 b1 b0) (not (A.M3 b1 b0)))))
compatibility (all (not (and (A.M3 b1 b0) (not (and (not (and (A.M2 b1 b0) (not (A.R1 b0 b1)))) (not (and (A.R1 b0 b1) (not (A.M2 b1 b0)))))))))
defines (all (all (not (and (A.M3 b1 b0) (not (and (not (and (A.M2 b1 b0) (not (A.R1 b0 b1)))) (not (and (A.R1 b0 b1) (not (A.M2 b1 b0))))))))))
reads (A.M2 b0 b9)

# let X be set; redefine pred S X means R2[X], where S X reads to not R1[X]
redefine pred ; set ; (not (A.R1 b0)) ; (A.R2 b0)
owes |- (all (and (not (and (not (A.R1 b0)) (not (A.R2 b0)))) (not (and (A.R2 b0) (A.R1 b0)))))
compatibility (and (not (and (not (A.R1 b0)) (not (A.R2 b0)))) (not (and (A.R2 b0) (A.R1 b0))))
defines (all (and (not (and (not (A.R1 b0)) (not (A.R2 b0)))) (not (and (A.R2 b0) (A.R1 b0)))))
reads (not (A.R1 b0))

# let X be set; redefine attr X is S means R2[X], where this reads to V1(X)
redefine attr ; set ; (A.V1 b0) ; (A.R2 b0)
owes |- (all (and (not (and (A.V1 b0) (not (A.R2 b0)))) (not (and (A.R2 b0) (not (A.V1 b0))))))
compatibility (and (not (and (A.V1 b0) (not (A.R2 b0)))) (not (and (A.R2 b0) (not (A.V1 b0)))))
defines (all (and (not (and (A.V1 b0) (not (A.R2 b0)))) (not (and (A.R2 b0) (not (A.V1 b0))))))
reads (A.V1 b0)";
