//! The rows, a line for each, with its parts between signs `#`. An empty line and one that begins with `;` say nothing.

/// A formula of a scheme, another formula beside it, and the letters that following fixes, with `;` between them.
pub const FIXED: &str = "\
A.P1 # (A.R1 c1) # A.P1 (A.R1 c1)
A.P1 # (not (A.R1 c1)) # A.P1 (not (A.R1 c1))
(not A.P1) # (A.R1 c1) # A.P1 (not (A.R1 c1))
(not A.P1) # (not (A.R1 c1)) # A.P1 (A.R1 c1)
(not A.P1) # (all (A.R1 b0)) # A.P1 (not (all (A.R1 b0)))
(not (not A.P1)) # (A.R1 c1) # A.P1 (A.R1 c1)
(all (A.P1 b0)) # (all (= b0 b0)) # A.P1 (= b0 b0)
(all (A.P1 b0)) # (all (all (A.R2 b0 b1))) # A.P1 (all (A.R2 b0 b1))
(all (all (A.P1 b1 b0))) # (all (all (A.R2 b0 b1))) # A.P1 (A.R2 b1 b0)
(all (all (A.P1 b1))) # (all (all (A.R1 b1))) # A.P1 (A.R1 b0)
(all (all (A.P1 b1))) # (all (all (all (A.R2 b0 b2)))) # A.P1 (all (A.R2 b0 b1))
(and A.P1 A.P1) # (and (A.R1 c1) (A.R1 c2)) # A.P1 (A.R1 c1)
(and A.P2 A.P1) # (and (A.R1 c1) (A.R1 c2)) # A.P2 (A.R1 c1) ; A.P1 (A.R1 c2)
(all (A.R1 (A.F1 b0))) # (all (A.R1 (A.O1 b0))) # A.F1 (A.O1 b0)
(all (A.R1 (A.O1 (A.F1 b0)))) # (all (A.R1 (A.O1 b0))) # A.F1 b0
(= A.F1 A.F2) # (= c1 c2) # A.F1 c1 ; A.F2 c2
(all (all (A.R1 (A.F1 b0 b1)))) # (all (all (A.R1 (A.O2 b1 b0)))) # A.F1 (A.O2 b1 b0)
; nothing is fixed beside another shape, by arguments that aren't distinct variables, or beside another variable that is bound
(all (A.P1 b0)) # (A.R1 c1) #
(and A.P1 A.P2) # (A.R1 c1) #
(and A.P1 A.P2) # (not (and (A.R1 c1) (A.R1 c2))) #
(A.R1 A.F1) # (A.R2 c1 c2) #
(A.R1 (A.O1 A.F1)) # (A.R1 (A.O3 c1)) #
(= A.F1 A.F2) # (A.R1 c1) #
(all (A.P1 b0 b0)) # (all (A.R1 b0)) #
(A.P1 A.O1) # (A.R1 A.O1) #
(all (all (A.P1 b0))) # (all (all (A.R1 b1))) #
(A.P1 A.F1) # (A.R1 c1) #
; a letter is fixed at a later application, where an earlier one doesn't fix it
(and (A.P1 A.O1) (all (A.P1 b0))) # (and (A.R1 A.O1) (all (A.R1 b0))) # A.P1 (A.R1 b0)
(all (and (all (A.P1 b0)) (A.P1 b0))) # (all (and (all (A.R2 b0 b1)) (A.R1 b0))) # A.P1 (A.R1 b0)";

/// A scheme's functor letters, each with its type and the types of its places, `:` before each; its sequent; what is cited, and the
/// statement; the verdict. The constant c1 is of the mode `A.M1`, the constants c2 to c4 are objects.
pub const VERDICTS: &str = "\
# |- A.P1 # |- (A.R1 c1) # fits
# |- A.P1 # |- (not (A.R1 c1)) # fits
# |- A.P1 # |- true # fits
# |- (not A.P1) # |- (A.R1 c1) # fits
# |- (not A.P1) # |- (not (A.R1 c1)) # fits
# |- (not A.P1) # |- true # fits
# |- true # |- true # fits
# |- true # |- (not true) # no fit
# |- (all (= b0 b0)) # |- (all (= b0 b0)) # fits
# |- (all (= b0 b0)) # |- (all (= b0 c1)) # no fit
# |- (all (A.P1 b0)) # |- (all (= b0 b0)) # fits
# |- (all (A.P1 b0)) # |- (all (A.R1 c1)) # fits
# |- (all (A.P1 b0)) # |- (A.R1 c1) # no fit
# |- (all (A.P1 b0)) # |- (not (all (A.R1 b0))) # no fit
; variables below binders
# |- (all (all (A.P1 b1 b0))) # |- (all (all (A.R2 b0 b1))) # fits
# |- (all (all (A.P1 b0))) # |- (all (all (A.R1 b0))) # fits
# |- (all (all (A.P1 b0))) # |- (all (all (A.R1 b1))) # no fit
# |- (all (all (A.P1 b1))) # |- (all (all (A.R1 b1))) # fits
# |- (all (A.P1 b0 b0)) # |- (all (A.R2 b0 b0)) # no fit
# |- (A.P1 A.O1) # |- (A.R1 A.O1) # no fit
# |- (all (A.P1 b0)) # |- (all (all (A.R2 b0 b1))) # fits
# |- (and (all (A.P1 b0)) (all (all (A.P1 b1)))) # |- (and (all (all (A.R2 b0 b1))) (all (all (all (A.R2 b0 b2))))) # fits
# |- (and (all (A.P1 b0)) (all (all (A.P1 b1)))) # |- (and (all (all (A.R2 b0 b1))) (all (all (all (A.R2 b0 b1))))) # no fit
# |- (and (all (A.P1 b0)) (all (all (all (A.P1 b2))))) # |- (and (all (all (A.R2 b0 b1))) (all (all (all (all (A.R2 b0 b3)))))) # fits
# |- (and (all (A.P1 b0)) (all (all (all (A.P1 b2))))) # |- (and (all (all (A.R2 b0 b1))) (all (all (all (all (A.R2 b0 b2)))))) # no fit
# |- (all (and (all (A.P1 b0)) (A.P1 b0))) # |- (all (and (all (A.R2 b0 b1)) (A.R1 b0))) # no fit
; twice alike and twice unlike
# |- (and A.P1 A.P1) # |- (and (A.R1 c1) (A.R1 c1)) # fits
# |- (and A.P1 A.P1) # |- (and (A.R1 c1) (A.R1 c2)) # no fit
# |- (and (all (A.P1 b0)) (A.P1 A.O1)) # |- (and (all (A.R1 b0)) (A.R1 A.O1)) # fits
# |- (and (all (A.P1 b0)) (A.P1 A.O1)) # |- (and (all (A.R1 b0)) (A.R1 A.O2)) # no fit
# |- (and (A.P1 A.O1) (all (A.P1 b0))) # |- (and (A.R1 A.O1) (all (A.R1 b0))) # fits
; implications, disjunctions, conjunctions
# |- (implies A.P1 A.P2) # |- (implies (A.R1 c1) (A.R1 c2)) # fits
# |- (implies A.P1 A.P2) # |- (implies (A.R1 c1) (not (A.R1 c2))) # fits
# |- (implies A.P1 A.P1) # |- (implies (A.R1 c1) (A.R1 c2)) # no fit
# |- (or A.P1 A.P2) # |- (or (A.R1 c1) (A.R1 c2)) # fits
# |- (or A.P1 (not A.P1)) # |- (or (A.R1 c1) (not (A.R1 c1))) # fits
# |- (and A.P1 A.P2) # |- (and (and (A.R1 c1) (A.R1 c2)) (A.R1 c3)) # fits
# |- (and (and A.P1 A.P2) A.P3) # |- (and (and (A.R1 c1) (A.R1 c2)) (A.R1 c3)) # fits
# |- (and A.P1 (and A.P2 A.P3)) # |- (and (and (A.R1 c1) (A.R1 c2)) (A.R1 c3)) # no fit
# A.P1, A.P2, A.P3 |- (and A.P1 (and A.P2 A.P3)) # (A.R1 c1), (A.R1 c2), (A.R1 c3) |- (and (and (A.R1 c1) (A.R1 c2)) (A.R1 c3)) # no fit
# (all (A.P1 b0)) |- (and (all (A.P1 b0)) (and (all (A.P1 b0)) (A.R1 A.O1))) # (all (A.R1 b0)) |- (and (and (all (A.R1 b0)) (all (A.R1 b0))) (A.R1 A.O1)) # fits
# |- (and (all (A.P1 b0)) (and (all (A.P1 b0)) (A.R1 A.O1))) # |- (and (and (all (A.R1 b0)) (all (A.R1 b0))) (A.R1 A.O1)) # no fit
; a letter that a premise fixes, since beside its first application another variable is bound
# (all (A.P1 b0)) |- (all (all (and (A.P1 b1) (and (A.R1 b0) (A.R3 b1))))) # (all (A.R2 b0 b0)) |- (all (all (and (and (A.R2 b1 b1) (A.R1 b0)) (A.R3 b1)))) # fits
; premises: their number, each in its order, letters that one of them alone fixes
# A.P1 |- A.P1 # |- (A.R1 c1) # count 1
# |- A.P1 # (A.R1 c1) |- (A.R1 c1) # count 0
# A.P1, A.P2 |- A.P1 # (A.R1 c1) |- (A.R2 c1 c2) # count 2
# A.P1 |- A.P1 # (A.R1 c1), (A.R1 c1) |- (A.R1 c1) # count 1
# A.P1 |- (all (A.P2 b0)) # |- (A.R1 c1) # count 1
# A.P1 |- A.P1 # (A.R1 c1) |- (A.R1 c1) # fits
# A.P1 |- A.P1 # (A.R1 c2) |- (A.R1 c1) # premise 1
# A.P1 |- (not A.P1) # (not (A.R1 c1)) |- (A.R1 c1) # fits
# A.P1 |- A.P2 # (A.R1 c2) |- (A.R1 c1) # fits
# A.P1, A.P2 |- A.P3 # (A.R1 c1), (A.R1 c2) |- (A.R1 c3) # fits
# A.P1, (all (A.P2 b0)) |- A.P1 # (A.R1 c1), (all (A.R1 b0)) |- (A.R1 c1) # fits
# A.P1, (all (A.P2 b0)) |- A.P1 # (A.R1 c1), (A.R1 c1) |- (A.R1 c1) # premise 2
# A.P1, A.P1 |- A.P1 # (A.R1 c1), (A.R1 c2) |- (A.R1 c1) # premise 2
# A.P1, A.P1 |- A.P1 # (A.R1 c2), (A.R1 c3) |- (A.R1 c1) # premise 1
# A.P1, A.P1, A.P1 |- A.P2 # (A.R1 c1), (A.R1 c1), (A.R1 c2) |- (A.R1 c1) # premise 3
# A.P1, (not A.P1) |- A.P2 # (not (A.R1 c1)), (A.R1 c1) |- (A.R1 c2) # fits
# (all (A.P1 b0)), (A.P1 A.O1) |- A.P2 # (A.R1 A.O1), (all (A.R1 b0)) |- (A.R1 c1) # premise 1
# (all (all (A.P1 b0))), (all (A.P1 b0)) |- A.P2 # (all (all (A.R2 b0 b1))), (all (A.R1 b0)) |- (A.R1 c1) # premise 1
# A.P1 |- (and A.P2 A.P2) # (A.R1 c1) |- (and (A.R1 c1) (A.R1 c2)) # no fit
# A.P1, A.P1 |- (and A.P2 A.P2) # (A.R1 c1), (A.R1 c2) |- (and (A.R1 c1) (A.R1 c2)) # no fit
; functor letters
A.F1:object # |- (A.R1 A.F1) # |- (A.R1 c1) # fits
A.F1:object # |- (A.R1 A.F1) # |- (A.R1 (A.O1 c1)) # fits
A.F1:object # |- (A.R1 A.F1) # |- (A.R2 c1 c1) # no fit
A.F1:object # |- (A.R2 A.F1 A.F1) # |- (A.R2 c1 c1) # fits
A.F1:object # |- (A.R2 A.F1 A.F1) # |- (A.R2 c1 c2) # no fit
A.F1:object # |- A.P1 # |- (A.R1 c1) # no fit
A.F1:object # |- (A.P1 A.F1) # |- (A.R1 c1) # no fit
A.F1:object # |- (and (all (A.P1 b0)) (A.P1 A.F1)) # |- (and (all (A.R1 b0)) (A.R1 c1)) # no fit
A.F1:object # (A.R1 A.F1) |- (and (all (A.P1 b0)) (A.P1 A.F1)) # (A.R1 c1) |- (and (all (A.R2 b0 c2)) (A.R2 c1 c2)) # fits
A.F1:object # (A.R1 A.F1) |- (and (all (A.P1 b0)) (A.P1 A.F1)) # (A.R1 c3) |- (and (all (A.R2 b0 c2)) (A.R2 c1 c2)) # no fit
A.F1:object # (A.R1 A.F1) |- (and (all (A.P1 b0)) (A.P1 A.F1)) # (A.R1 (A.O1 c1)) |- (and (all (all (A.R2 b0 b1))) (all (A.R2 b0 (A.O1 c1)))) # fits
A.F1:object # A.P1, A.P1 |- A.P1 # (A.R1 c1), (A.R1 c2) |- (A.R1 c1) # premise 2
A.F1:object # A.P1, A.P1 |- A.P1 # (A.R1 c1), (A.R1 c1) |- (A.R1 c1) # no fit
A.F1:object:object # |- (all (A.R1 (A.F1 b0))) # |- (all (A.R1 (A.O1 b0))) # fits
A.F1:object:object # |- (all (= (A.F1 b0) b0)) # |- (all (= b0 b0)) # fits
A.F1:object:object # |- (all (= (A.F1 b0) b0)) # |- (all (= c1 b0)) # fits
A.F1:object:object # |- (all (= (A.F1 b0) b0)) # |- (all (= b0 c1)) # no fit
A.F1:object:object # |- (all (A.R1 (A.F1 (A.F1 b0)))) # |- (all (A.R1 (A.O1 (A.O1 b0)))) # no fit
A.F1:object:object # (all (A.R1 (A.F1 b0))) |- (all (A.R1 (A.F1 (A.F1 b0)))) # (all (A.R1 (A.O1 b0))) |- (all (A.R1 (A.O1 (A.O1 b0)))) # fits
A.F1:object:object:object # |- (all (all (A.R1 (A.F1 b0 b1)))) # |- (all (all (A.R1 (A.O2 b0 b1)))) # fits
A.F1:object:object:object # |- (and (all (all (A.R1 (A.F1 b0 b1)))) (all (all (A.R1 (A.F1 b1 b0))))) # |- (and (all (all (A.R1 (A.O2 b0 b1)))) (all (all (A.R1 (A.O2 b1 b0))))) # fits
A.F1:object:object:object # |- (and (all (all (A.R1 (A.F1 b0 b1)))) (all (all (A.R1 (A.F1 b1 b0))))) # |- (and (all (all (A.R1 (A.O2 b0 b1)))) (all (all (A.R1 (A.O2 b0 b1))))) # no fit
A.F1:object A.F2:object # |- (A.R2 A.F1 A.F2) # |- (A.R2 c1 c2) # fits
A.F1:object A.F2:object # |- (A.R2 A.F1 A.F1) # |- (A.R2 c1 c1) # no fit
; types of letters and of their places
A.F1:A.M1 # |- (A.R1 A.F1) # |- (A.R1 c1) # fits
A.F1:A.M1 # |- (A.R1 A.F1) # |- (A.R1 c2) # no fit
A.F1:A.M1 # (A.R2 A.F1 A.F1) |- (A.R1 A.F1) # (A.R2 c1 c1) |- (A.R1 c2) # no fit
A.F1:A.M1 # (A.R2 A.F1 A.F1) |- (A.R1 A.F1) # (A.R2 c2 c2) |- (A.R1 c1) # premise 1
A.F1:A.M1 # (A.R1 A.F1), A.P1, A.P1 |- A.P1 # (A.R1 c1), (A.R1 c3), (A.R1 c3) |- (A.R1 c3) # fits
A.F1:A.M1 # (A.R1 A.F1), A.P1, A.P1 |- A.P1 # (A.R1 c2), (A.R1 c3), (A.R1 c3) |- (A.R1 c3) # no fit
A.F1:A.M1 # (A.R1 A.F1), A.P1, A.P1 |- A.P1 # (A.R1 c2), (A.R1 c4), (A.R1 c3) |- (A.R1 c3) # premise 2
A.F1:A.M1:object # |- (all (A.R1 (A.F1 b0))) # |- (all (A.R1 c1)) # fits
A.F1:A.M1:object # |- (all (A.R1 (A.F1 b0))) # |- (all (A.R1 b0)) # no fit
A.F1:A.M1:A.M1 # |- (all (A.R1 (A.F1 b0))) # |- (all (A.R1 b0)) # fits
A.F1:A.M1:A.M1 # |- (all (A.R1 (A.F1 b0))) # |- (all (A.R1 (A.O1 b0))) # no fit
A.F1:A.M1:object:A.M1 # |- (all (all (A.R1 (A.F1 b1 b0)))) # |- (all (all (A.R1 b0))) # fits
A.F1:A.M1:object:A.M1 # |- (all (all (A.R1 (A.F1 b1 b0)))) # |- (all (all (A.R1 b1))) # no fit
; induction, and separation
# (A.P1 A.O1), (all (implies (A.P1 b0) (A.P1 (A.O2 b0)))) |- (all (A.P1 b0)) # (A.R2 A.O1 c1), (all (implies (A.R2 b0 c1) (A.R2 (A.O2 b0) c1))) |- (all (A.R2 b0 c1)) # fits
# (A.P1 A.O1), (all (implies (A.P1 b0) (A.P1 (A.O2 b0)))) |- (all (A.P1 b0)) # (A.R2 A.O3 c1), (all (implies (A.R2 b0 c1) (A.R2 (A.O2 b0) c1))) |- (all (A.R2 b0 c1)) # premise 1
# (A.P1 A.O1), (all (implies (A.P1 b0) (A.P1 (A.O2 b0)))) |- (all (A.P1 b0)) # (A.R2 A.O1 c1), (all (implies (A.R2 b0 c1) (A.R2 (A.O3 b0) c1))) |- (all (A.R2 b0 c1)) # premise 2
# (A.P1 A.O1), (all (implies (A.P1 b0) (A.P1 (A.O2 b0)))) |- (all (A.P1 b0)) # (all (implies (A.R2 b0 c1) (A.R2 (A.O2 b0) c1))), (A.R2 A.O1 c1) |- (all (A.R2 b0 c1)) # premise 1
A.F1:object # |- (not (all (not (all (and (implies (A.R2 b0 b1) (and (A.R2 b0 A.F1) (A.P1 b0))) (implies (and (A.R2 b0 A.F1) (A.P1 b0)) (A.R2 b0 b1))))))) # |- (not (all (not (all (and (implies (A.R2 b0 b1) (and (A.R2 b0 c1) (A.R1 b0))) (implies (and (A.R2 b0 c1) (A.R1 b0)) (A.R2 b0 b1))))))) # fits
A.F1:object # |- (not (all (not (all (and (implies (A.R2 b0 b1) (and (A.R2 b0 A.F1) (A.P1 b0))) (implies (and (A.R2 b0 A.F1) (A.P1 b0)) (A.R2 b0 b1))))))) # |- (not (all (not (all (and (implies (A.R2 b0 b1) (and (A.R2 b0 c1) (A.R2 b1 b0))) (implies (and (A.R2 b0 c1) (A.R2 b1 b0)) (A.R2 b0 b1))))))) # no fit";

/// A scheme's functor letters, its sequent, what is cited and the statement; whether the instances keep the limits.
pub const KEPT: &str = "\
; a letter that doubles its argument: an application of depth k is 2 to the k+1, less one, and 7 stand around it
A.F1:object:object # |- (and (all (A.R1 (A.F1 b0))) (A.R1 (A.F1 (A.F1 (A.F1 (A.F1 (A.F1 (A.F1 (A.F1 (A.F1 (A.F1 (A.F1 (A.F1 (A.F1 (A.F1 (A.F1 c1)))))))))))))))) # |- (and (all (A.R1 (A.O2 b0 b0))) (A.R1 c1)) # kept
A.F1:object:object # |- (and (all (A.R1 (A.F1 b0))) (A.R1 (A.F1 (A.F1 (A.F1 (A.F1 (A.F1 (A.F1 (A.F1 (A.F1 (A.F1 (A.F1 (A.F1 (A.F1 (A.F1 (A.F1 (A.F1 c1))))))))))))))))) # |- (and (all (A.R1 (A.O2 b0 b0))) (A.R1 c1)) # too large
; 65,536 nodes, and one more
# |- (and (all (A.R1 (A.F1 b0))) (and (A.R1 (A.F1 (A.F1 (A.F1 (A.F1 (A.F1 (A.F1 (A.F1 (A.F1 (A.F1 (A.F1 (A.F1 (A.F1 (A.F1 (A.F1 c1))))))))))))))) (and (A.R1 (A.F1 (A.F1 (A.F1 (A.F1 (A.F1 (A.F1 (A.F1 (A.F1 (A.F1 (A.F1 (A.F1 (A.F1 (A.F1 c1)))))))))))))) (and (A.R1 (A.F1 (A.F1 (A.F1 (A.F1 (A.F1 (A.F1 (A.F1 (A.F1 (A.F1 (A.F1 (A.F1 (A.F1 c1))))))))))))) (and (A.R1 (A.F1 (A.F1 (A.F1 (A.F1 (A.F1 (A.F1 (A.F1 (A.F1 (A.F1 (A.F1 (A.F1 c1)))))))))))) (and (A.R1 (A.F1 (A.F1 (A.F1 (A.F1 (A.F1 (A.F1 (A.F1 (A.F1 (A.F1 (A.F1 c1))))))))))) (and (A.R1 (A.F1 (A.F1 (A.F1 (A.F1 (A.F1 (A.F1 (A.F1 (A.F1 (A.F1 c1)))))))))) (and (A.R1 (A.F1 (A.F1 (A.F1 (A.F1 (A.F1 (A.F1 (A.F1 (A.F1 c1))))))))) (and (A.R1 (A.F1 (A.F1 (A.F1 (A.F1 (A.F1 (A.F1 (A.F1 c1)))))))) (and (A.R1 (A.F1 (A.F1 (A.F1 (A.F1 (A.F1 (A.F1 c1))))))) (and (A.R1 (A.F1 (A.F1 (A.F1 (A.F1 (A.F1 c1)))))) (and (A.R1 (A.F1 (A.F1 (A.F1 (A.F1 c1))))) (and (A.R1 (A.F1 c1)) (and (A.R1 (A.F1 c1)) (and (A.R1 c1) (A.R1 c1)))))))))))))))) # |- (and (all (A.R1 (A.O2 b0 b0))) (A.R1 c1)) # kept
# |- (and (all (A.R1 (A.F1 b0))) (and (A.R1 (A.F1 (A.F1 (A.F1 (A.F1 (A.F1 (A.F1 (A.F1 (A.F1 (A.F1 (A.F1 (A.F1 (A.F1 (A.F1 (A.F1 c1))))))))))))))) (and (A.R1 (A.F1 (A.F1 (A.F1 (A.F1 (A.F1 (A.F1 (A.F1 (A.F1 (A.F1 (A.F1 (A.F1 (A.F1 (A.F1 c1)))))))))))))) (and (A.R1 (A.F1 (A.F1 (A.F1 (A.F1 (A.F1 (A.F1 (A.F1 (A.F1 (A.F1 (A.F1 (A.F1 (A.F1 c1))))))))))))) (and (A.R1 (A.F1 (A.F1 (A.F1 (A.F1 (A.F1 (A.F1 (A.F1 (A.F1 (A.F1 (A.F1 (A.F1 c1)))))))))))) (and (A.R1 (A.F1 (A.F1 (A.F1 (A.F1 (A.F1 (A.F1 (A.F1 (A.F1 (A.F1 (A.F1 c1))))))))))) (and (A.R1 (A.F1 (A.F1 (A.F1 (A.F1 (A.F1 (A.F1 (A.F1 (A.F1 (A.F1 c1)))))))))) (and (A.R1 (A.F1 (A.F1 (A.F1 (A.F1 (A.F1 (A.F1 (A.F1 (A.F1 c1))))))))) (and (A.R1 (A.F1 (A.F1 (A.F1 (A.F1 (A.F1 (A.F1 (A.F1 c1)))))))) (and (A.R1 (A.F1 (A.F1 (A.F1 (A.F1 (A.F1 (A.F1 c1))))))) (and (A.R1 (A.F1 (A.F1 (A.F1 (A.F1 (A.F1 c1)))))) (and (A.R1 (A.F1 (A.F1 (A.F1 (A.F1 c1))))) (and (A.R1 (A.F1 c1)) (and (A.R1 (A.F1 c1)) (and (A.R1 c1) (not (A.R1 c1))))))))))))))))) # |- (and (all (A.R1 (A.O2 b0 b0))) (A.R1 c1)) # too large
; the depth 512, and one more: 29 and 15 times 32 applications, a leaf, the atom and the conjunction
# |- (and (all (A.R1 (A.F2 b0))) (A.R1 (A.O1 (A.O1 (A.O1 (A.O1 (A.O1 (A.O1 (A.O1 (A.O1 (A.O1 (A.O1 (A.O1 (A.O1 (A.O1 (A.O1 (A.O1 (A.O1 (A.O1 (A.O1 (A.O1 (A.O1 (A.O1 (A.O1 (A.O1 (A.O1 (A.O1 (A.O1 (A.O1 (A.O1 (A.O1 (A.F2 (A.F2 (A.F2 (A.F2 (A.F2 (A.F2 (A.F2 (A.F2 (A.F2 (A.F2 (A.F2 (A.F2 (A.F2 (A.F2 (A.F2 c1)))))))))))))))))))))))))))))))))))))))))))))) # |- (and (all (A.R1 (A.O1 (A.O1 (A.O1 (A.O1 (A.O1 (A.O1 (A.O1 (A.O1 (A.O1 (A.O1 (A.O1 (A.O1 (A.O1 (A.O1 (A.O1 (A.O1 (A.O1 (A.O1 (A.O1 (A.O1 (A.O1 (A.O1 (A.O1 (A.O1 (A.O1 (A.O1 (A.O1 (A.O1 (A.O1 (A.O1 (A.O1 (A.O1 b0)))))))))))))))))))))))))))))))))) (A.R1 c1)) # kept
# |- (and (all (A.R1 (A.F2 b0))) (A.R1 (A.O1 (A.O1 (A.O1 (A.O1 (A.O1 (A.O1 (A.O1 (A.O1 (A.O1 (A.O1 (A.O1 (A.O1 (A.O1 (A.O1 (A.O1 (A.O1 (A.O1 (A.O1 (A.O1 (A.O1 (A.O1 (A.O1 (A.O1 (A.O1 (A.O1 (A.O1 (A.O1 (A.O1 (A.O1 (A.O1 (A.F2 (A.F2 (A.F2 (A.F2 (A.F2 (A.F2 (A.F2 (A.F2 (A.F2 (A.F2 (A.F2 (A.F2 (A.F2 (A.F2 (A.F2 c1))))))))))))))))))))))))))))))))))))))))))))))) # |- (and (all (A.R1 (A.O1 (A.O1 (A.O1 (A.O1 (A.O1 (A.O1 (A.O1 (A.O1 (A.O1 (A.O1 (A.O1 (A.O1 (A.O1 (A.O1 (A.O1 (A.O1 (A.O1 (A.O1 (A.O1 (A.O1 (A.O1 (A.O1 (A.O1 (A.O1 (A.O1 (A.O1 (A.O1 (A.O1 (A.O1 (A.O1 (A.O1 (A.O1 b0)))))))))))))))))))))))))))))))))) (A.R1 c1)) # too large
; a letter that nothing fixes stays, and an argument that has no place in the body is gone
# |- (A.R1 (A.F1 (A.F1 (A.F1 (A.F1 (A.F1 (A.F1 (A.F1 (A.F1 (A.F1 (A.F1 (A.F1 (A.F1 (A.F1 (A.F1 (A.F1 (A.F1 c1))))))))))))))))) # |- (A.R1 c1) # kept
# |- (and (all (A.R1 (A.F1 b0))) (and (all (A.R1 (A.F3 b0))) (A.R1 (A.F3 (A.F1 (A.F1 (A.F1 (A.F1 (A.F1 (A.F1 (A.F1 (A.F1 (A.F1 (A.F1 (A.F1 (A.F1 (A.F1 (A.F1 (A.F1 c1))))))))))))))))))) # |- (and (all (A.R1 (A.O2 b0 b0))) (and (all (A.R1 c1)) (A.R1 c1))) # kept
; a predicate letter that repeats its argument
# |- (and (all (A.R1 (A.F1 b0))) (and (all (A.P1 b0)) (A.P1 (A.F1 (A.F1 (A.F1 (A.F1 (A.F1 (A.F1 (A.F1 (A.F1 (A.F1 (A.F1 (A.F1 (A.F1 (A.F1 c1)))))))))))))))) # |- (and (all (A.R1 (A.O2 b0 b0))) (and (all (and (A.R1 b0) (A.R1 b0))) (A.R1 c1))) # kept
# |- (and (all (A.R1 (A.F1 b0))) (and (all (A.P1 b0)) (A.P1 (A.F1 (A.F1 (A.F1 (A.F1 (A.F1 (A.F1 (A.F1 (A.F1 (A.F1 (A.F1 (A.F1 (A.F1 (A.F1 (A.F1 c1))))))))))))))))) # |- (and (all (A.R1 (A.O2 b0 b0))) (and (all (and (A.R1 b0) (A.R1 b0))) (A.R1 c1))) # too large
; premises of 65,536 nodes, and of one more, whose letters are fixed by the conclusion or by themselves; a conclusion whose letter a premise fixes
# (A.R1 (A.F1 (A.F1 (A.F1 (A.F1 (A.F1 (A.F1 (A.F1 (A.F1 (A.F1 (A.F1 (A.F1 (A.F1 (A.F1 (A.F1 (A.F1 c1)))))))))))))))) |- (all (A.R1 (A.F1 b0))) # (A.R1 c1) |- (all (A.R1 (A.O2 b0 b0))) # kept
# (not (A.R1 (A.F1 (A.F1 (A.F1 (A.F1 (A.F1 (A.F1 (A.F1 (A.F1 (A.F1 (A.F1 (A.F1 (A.F1 (A.F1 (A.F1 (A.F1 c1))))))))))))))))) |- (all (A.R1 (A.F1 b0))) # (A.R1 c1) |- (all (A.R1 (A.O2 b0 b0))) # too large
# A.P1, (not (A.R1 (A.F1 (A.F1 (A.F1 (A.F1 (A.F1 (A.F1 (A.F1 (A.F1 (A.F1 (A.F1 (A.F1 (A.F1 (A.F1 (A.F1 (A.F1 c1))))))))))))))))) |- (all (A.R1 (A.F1 b0))) # (A.R1 c1), (A.R1 c1) |- (all (A.R1 (A.O2 b0 b0))) # too large
# (all (A.R1 (A.F1 b0))), (not (A.R1 (A.F1 (A.F1 (A.F1 (A.F1 (A.F1 (A.F1 (A.F1 (A.F1 (A.F1 (A.F1 (A.F1 (A.F1 (A.F1 (A.F1 (A.F1 c1))))))))))))))))) |- A.P1 # (all (A.R1 (A.O2 b0 b0))), (A.R1 c1) |- (A.R1 c1) # too large
# (all (A.R1 (A.F1 b0))) |- (not (A.R1 (A.F1 (A.F1 (A.F1 (A.F1 (A.F1 (A.F1 (A.F1 (A.F1 (A.F1 (A.F1 (A.F1 (A.F1 (A.F1 (A.F1 (A.F1 c1))))))))))))))))) # (all (A.R1 (A.O2 b0 b0))) |- (A.R1 c1) # too large
; where another number is cited, no instance is made
# (A.R1 (A.F1 (A.F1 (A.F1 (A.F1 (A.F1 (A.F1 (A.F1 (A.F1 (A.F1 (A.F1 (A.F1 (A.F1 (A.F1 (A.F1 (A.F1 (A.F1 c1))))))))))))))))) |- (all (A.R1 (A.F1 b0))) # |- (all (A.R1 (A.O2 b0 b0))) # kept
# (A.R1 (A.F1 (A.F1 (A.F1 (A.F1 (A.F1 (A.F1 (A.F1 (A.F1 (A.F1 (A.F1 (A.F1 (A.F1 (A.F1 (A.F1 (A.F1 (A.F1 c1))))))))))))))))) |- (all (A.R1 (A.F1 b0))) # (A.R1 c1), (A.R1 c1) |- (all (A.R1 (A.O2 b0 b0))) # kept";
