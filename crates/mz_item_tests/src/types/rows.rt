//! Small worlds with questions and their answers, worked out by hand.

/// Worlds with a blank line between, each under a comment or none. A line takes a constant, a letter or an item into the world,
/// or has a question and, behind `=>`, its answer.
pub const WORLDS: &str =
    "# what is one is two, what is three is four, each value of the functor is one; then what is two is three
register functorial set ; (A.O1 b0) ; A.V1 ;
register conditional ; A.V1 ; A.V2 ; set
register conditional ; A.V3 ; A.V4 ; set
constant set
fits (A.O1 c1) ; HIDDEN.M2 with A.V4 => no
register conditional ; A.V2 ; A.V3 ; set
fits (A.O1 c1) ; HIDDEN.M2 with A.V4 => yes

# a constant begins with its declared radix
constant set
constant object
chain c9 => HIDDEN.M2 HIDDEN.M1
chain c2 => HIDDEN.M1 HIDDEN.M2 HIDDEN.M1
chain c1 => HIDDEN.M2 HIDDEN.M2 HIDDEN.M1

# the latest redefinition first where its guards fit; a radix that stands there already is left out
define mode A.M1 ; M 0 ; set ; set ; true
define mode A.M2 ; N ; ; (A.M1 A.O1) ; true
define func_means A.O1 ; N ; ; set ; true
redefine mode N ; ; A.M2 ; object ; (A.M1 (A.O2 A.O1)) ;
define func_means A.O2 ; f 0 ; set ; A.M2 ; true
redefine func f 0 ; (A.M1 A.O1) ; (A.O2 b0) ; object ; (A.M1 b0) ;
redefine func f 0 ; A.M2 ; (A.O2 b0) ; object ; A.M2 with A.V1 ;
constant set
constant A.M2
chain (A.O2 c1) => A.M2 (A.M1 (A.O2 A.O1)) HIDDEN.M2 (A.M1 A.O1) HIDDEN.M2 HIDDEN.M1
chain c2 => A.M2 (A.M1 (A.O2 A.O1)) HIDDEN.M2 (A.M1 A.O1) HIDDEN.M2 HIDDEN.M1
chain (A.O2 c2) => A.M2 (A.M1 (A.O2 A.O1)) HIDDEN.M2 (A.M1 A.O1) (A.M1 c2) HIDDEN.M2 HIDDEN.M1

# ancestors, of which one is inherited twice; fields; aggregates whose arguments fit or don't
define mode A.M1 ; M 0 ; set ; set ; true
struct A.G1 ; A.V2 ; A.A1 ; ; ; A.U1 set ;
struct A.G2 ; A.V3 ; A.A2 ; ; A.G1 ; A.U1 set | A.U2 (A.M1 b1) ;
struct A.G3 ; A.V4 ; A.A3 ; ; A.G1, A.G2 ; A.U1 set | A.U2 (A.M1 b1) ;
constant set
constant A.G3
constant (A.M1 c1)
chain c2 => A.G3 A.G1 A.G2 HIDDEN.M2 HIDDEN.M1
chain (A.U1 c2) => HIDDEN.M2 HIDDEN.M2 HIDDEN.M1
chain (A.U2 c2) => (A.M1 (A.U1 c2)) HIDDEN.M2 HIDDEN.M2 HIDDEN.M1
chain (A.U2 c1) => HIDDEN.M2 HIDDEN.M1
chain (A.A1 c1) => A.G1 HIDDEN.M2 HIDDEN.M1
chain (A.A2 c1 c3) => A.G2 A.G1 HIDDEN.M2 HIDDEN.M1
chain (A.A2 c1 c1) => HIDDEN.M2 HIDDEN.M1

# letters with their types, where the guards of the arguments fit, an aggregate's and a letter's among them
define mode A.M1 ; M 0 ; set ; set ; true
struct A.G1 ; A.V2 ; A.A1 ; ; ; A.U1 set ;
struct A.G2 ; A.V3 ; A.A2 ; ; A.G1 ; A.U1 set | A.U2 (A.M1 b1) ;
struct A.G3 ; A.V4 ; A.A3 ; ; A.G1, A.G2 ; A.U1 set | A.U2 (A.M1 b1) ;
constant set
constant A.G2
letter A.F1 set -> (A.M1 b0)
letter A.F2 A.G1 -> A.G2
chain (A.F1 c1) => (A.M1 c1) HIDDEN.M2 HIDDEN.M2 HIDDEN.M1
chain (A.F2 c1) => HIDDEN.M2 HIDDEN.M1
chain (A.F2 c2) => A.G2 A.G1 HIDDEN.M2 HIDDEN.M1
chain (A.F2 (A.A1 c1)) => A.G2 A.G1 HIDDEN.M2 HIDDEN.M1
chain (A.F2 (A.F2 c2)) => A.G2 A.G1 HIDDEN.M2 HIDDEN.M1
chain (A.F3 c1) => HIDDEN.M2 HIDDEN.M1

# the elements of a structure, and a functor on two of them with a hidden locus, which is fixed by a match
struct A.G1 ; A.V1 ; A.A1 ; ; ; A.U1 set ;
define mode A.M1 ; Elm 0 ; A.G1 ; object ; true
define func_means A.O1 ; 1 ** 2 ; A.G1, (A.M1 b0), (A.M1 b1) ; object ; true
constant A.G1
constant A.G1
constant (A.M1 c1)
constant (A.M1 c1)
constant (A.M1 c2)
read func ** ; c3 ; c4 => (A.O1 c1 c3 c4)
read func ** ; c5 ; c5 => (A.O1 c2 c5 c5)
read func ** ; c3 ; c5 => unfit
read func ** ; c3 ; c1 => unfit
read func ** ; c3 ; => none
read func ** ; ; c3 c4 => none
read func ++ ; c3 ; c4 => unknown
read mode Elm ; ; c2 => (A.M1 c2)
read mode Elm ; ; c3 => unfit

# the same where the two structures are equal by the facts: what was fixed first stands
struct A.G1 ; A.V1 ; A.A1 ; ; ; A.U1 set ;
define mode A.M1 ; Elm 0 ; A.G1 ; object ; true
define func_means A.O1 ; 1 ** 2 ; A.G1, (A.M1 b0), (A.M1 b1) ; object ; true
constant A.G1
constant A.G1 = c1
constant (A.M1 c1)
constant (A.M1 c2)
read func ** ; c3 ; c4 => (A.O1 c1 c3 c4)
read func ** ; c4 ; c3 => (A.O1 c2 c4 c3)

# the latest notation in the order of letting in; the one before it where the latest doesn't pass
define pred P.R1 ; 0 ## 1 ; object, object ; true
define pred Q.R1 ; 0 ## 1 ; object, object ; true
constant object
constant A.M1
read pred ## ; c1 ; c1 => (Q.R1 c1 c1)

define pred Q.R1 ; 0 ## 1 ; object, object ; true
define pred P.R1 ; 0 ## 1 ; object, object ; true
constant object
constant A.M1
read pred ## ; c1 ; c1 => (P.R1 c1 c1)

define pred P.R1 ; 0 ## 1 ; object, object ; true
define pred Q.R1 ; 0 ## 1 ; object, A.M1 ; true
constant object
constant A.M1
read pred ## ; c1 ; c2 => (Q.R1 c1 c2)

define pred P.R1 ; 0 ## 1 ; object, object ; true
define pred Q.R1 ; 0 ## 1 ; object, A.M1 ; true
constant object
constant A.M1
read pred ## ; c1 ; c1 => (P.R1 c1 c1)

define pred Q.R1 ; 0 ## 1 ; object, A.M1 ; true
define pred P.R1 ; 0 ## 1 ; object, object ; true
constant object
constant A.M1
read pred ## ; c1 ; c2 => (P.R1 c1 c2)

# guards of all loci have to fit; a later member of the chain is taken where the first one with the symbol doesn't match
define mode A.M1 ; M 0 ; set ; set ; true
define func_means A.O1 ; f 0 ; set ; (A.M1 b0) ; true
redefine func f 0 ; set ; (A.O1 b0) ; object ; (A.M1 (A.O1 b0)) ;
redefine func f 0 ; set ; (A.O1 b0) ; object ; (A.M1 (A.O1 (A.O1 b0))) ;
define pred A.R1 ; 0 in 1 ; set, (A.M1 b0) ; true
define pred A.R2 ; of 1 ; set, (A.M1 b0) ; true
define pred A.R3 ; big 1 ; HIDDEN.M2 with A.V1, (A.M1 b0) ; true
constant set
constant HIDDEN.M2 with A.V1
constant (A.M1 c1)
constant (A.M1 c2)
read pred in ; (A.O1 (A.O1 c1)) ; (A.O1 c1) => (A.R1 (A.O1 (A.O1 c1)) (A.O1 c1))
read pred in ; (A.O1 c1) ; (A.O1 c1) => (A.R1 (A.O1 c1) (A.O1 c1))
read pred in ; c1 ; (A.O1 c1) => (A.R1 c1 (A.O1 c1))
read pred in ; c2 ; (A.O1 c1) => unfit
read pred of ; ; (A.O1 c1) => (A.R2 (A.O1 (A.O1 c1)) (A.O1 c1))
read pred big ; ; c3 => unfit
read pred big ; ; c4 => (A.R3 c2 c4)
read attr big ; ; c4 => unknown

# as an adjective an application reads to an attribute's literal of the subject, which a fresh constant is in no other argument
define attr A.V1 ; V 0 ; set ; 0 ; true
define attr A.V2 ; 0 in 1 ; set, set ; 1 ; true
define attr A.V3 ; dense 0 ; HIDDEN.M2 with A.V1 ; 0 ; true
constant set
constant HIDDEN.M2 with A.V1
constant set
read_fresh 3 attr V ; ; c3 => (A.V1 c3)
read_fresh 3 attr in ; c1 ; c3 => (A.V2 c1 c3)
read_fresh 3 attr in ; c3 ; c3 => unfit
read_of 3 attr in ; c3 ; c3 => (A.V2 c3 c3)
read_of 1 attr in ; c1 ; c3 => unfit
read_fresh 3 attr dense ; ; c3 => unfit
read_fresh 2 attr dense ; ; c2 => (A.V3 c2)
read attr dense ; ; c2 => (A.V3 c2)

# a pair of brackets is one symbol
define attr A.V1 ; V 0 ; set ; 0 ; true
define attr A.V2 ; 0 in 1 ; set, set ; 1 ; true
define attr A.V3 ; dense 0 ; HIDDEN.M2 with A.V1 ; 0 ; true
constant set
read_by attr V ] ; ; c1 => unknown
choose attr V ; ; c1 => (A.V1 c1)
choose attr dense ; ; c1 => nothing

# a letter's type counts while the letter is in force
define attr A.V1 ; V 0 ; set ; 0 ; true
define attr A.V2 ; 0 in 1 ; set, set ; 1 ; true
define attr A.V3 ; dense 0 ; HIDDEN.M2 with A.V1 ; 0 ; true
constant set
read attr dense ; ; (A.F1 c1) => unfit
letter A.F1 set -> HIDDEN.M2 with A.V1
read attr dense ; ; (A.F1 c1) => (A.V3 (A.F1 c1))

# non empty set, without and with a registration
define attr A.V1 ; empty 0 ; set ; 0 ; true
covered HIDDEN.M2 with (not A.V1) => no
register existential ; (not A.V1) ; set
covered HIDDEN.M2 with (not A.V1) => yes
covered set => yes
covered HIDDEN.M2 with A.V1 => no

# loci are fixed by a member of the chain of the registered type, and their guards fit; one in the adjectives alone is fixed by none
define mode A.M1 ; M 0 ; set ; set ; true
define mode A.M2 ; N 0 ; set ; (A.M1 b0) ; true
define mode A.M3 ; K ; ; set ; true
register existential HIDDEN.M2 with A.V1 ; A.V2 ; (A.M1 b0)
register existential set ; A.V3 ; (A.M2 b0)
register existential set ; (A.V4 b0) ; A.M3
register conditional ; ; A.V5 ; A.M3
constant set
constant HIDDEN.M2 with A.V1
covered (A.M1 c1) => yes
covered (A.M1 c2) with A.V2 => yes
covered (A.M1 c1) with A.V2 => no
covered (A.M1 c1) with A.V3 => yes
covered (A.M2 c1) with A.V3 => yes
covered (A.M2 c2) with A.V2 => no
covered A.M3 with (A.V4 c1) => no
covered A.M3 with A.V5 => yes
covered A.M3 with A.V5 A.V3 => no";
