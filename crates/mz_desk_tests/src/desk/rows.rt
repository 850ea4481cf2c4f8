//! What is done with desks over small corpora, and the answers, worked out by hand.

/// Rows with a blank line between. The checker accepts each text with a byte, and one that begins with `+` makes another export.
pub const DESKS: &str = "# another export of DB
desk DD:DB,DC:d DB:DA:b DC:DA:c DA::a
desk DD:DB,DC:d DB:DA:+b DC:DA:c DA::a
publish 0 3
result 0 0
publish 1 3
result 1 0
give 0 1 => export DB
give 0 0 => taken

# other exports of DB and DC
desk DD:DB,DC:d DB:DA:b DC:DA:c DA::a
desk DD:DB,DC:d DB:DA:+b DC:DA:+c DA::a
publish 0 3
result 0 0
publish 1 3
result 1 0
give 0 1 => export DB
give 0 0 => taken

# another text of DD and another export of DB
desk DD:DB,DC:d DB:DA:b DC:DA:c DA::a
desk DD:DB,DC:e DB:DA:+b DC:DA:c DA::a
publish 0 3
result 0 0
publish 1 3
result 1 0
give 0 1 => text
give 0 0 => taken

# without DC
desk DD:DB,DC:d DB:DA:b DC:DA:c DA::a
desk DD:DB:d DB:DA:b DA::a
publish 0 3
result 0 0
publish 1 2
result 1 0
give 0 1 => export DC
give 0 0 => taken

desk DD:DB:d DB:DA:b DA::a
desk DD:DB,DC:d DB:DA:b DC:DA:c DA::a
publish 0 2
result 0 0
publish 1 3
result 1 0
give 0 1 => export DC
give 0 0 => taken

desk DA::a
desk DA::b
result 0 0
result 1 0
give 0 1 => text
give 0 0 => taken

desk DA::a
desk DX::a
result 0 0
result 1 0
give 0 1 => no row
give 0 0 => taken

desk DD:DB,DC:d DB:DA:b DC:DA:c DA::a
desk DD:DB:d DB:DA:b DA::a
result 0 0
publish 1 2
result 1 0
give 0 1 => waiting
give 0 0 => taken

# the first vocabulary that differs
desk DA::a / VB=x VA=v
desk DA::a / VB=y VA=v
result 0 0
result 1 0
give 0 1 => vocabulary VB
give 0 0 => taken

desk DA::a / VB=x VA=v
desk DA::a / VB=- VA=v
result 0 0
result 1 0
give 0 1 => vocabulary VB
give 0 0 => taken

desk DA::a / VB=- VA=v
desk DA::a / VB=x VA=v
result 0 0
result 1 0
give 0 1 => vocabulary VB
give 0 0 => taken

desk DA::a / VB=x VA=v
desk DA::a / VB=y VA=w
result 0 0
result 1 0
give 0 1 => vocabulary VA
give 0 0 => taken

desk DA::a / VB=x VA=-
desk DA::a / VB=x VA=v
result 0 0
result 1 0
give 0 1 => vocabulary VA
give 0 0 => taken

# one article
desk DA::a
look 0 DA => not yet
look 0 DB => unknown
look 0 TARSKI_0 => accepted
result 0 0
claim 0 1 => claimed 0
look 0 DA => not yet
give 0 0 => taken
look 0 DA => accepted
claim 0 0 => finished
sizes 0 => 4 1

# a result of another text is given back
desk DA::a
desk DA::another
result 0 0
result 1 0
give 0 1 => text
job 1 => DA row 0 worker 0 exports 3 vocabularies 0 text another accepted
claim 0 1 => claimed 0
give 0 0 => taken

# a result of another worker, after that of one whose claim was taken away
desk DA::a
desk DA::another
result 0 0
result 1 0
reclaim 1
result 1 1
give 0 2 => claimed by 0
job 2 => DA row 0 worker 1 exports 3 vocabularies 0 text another accepted
look 0 DA => not yet
give 0 0 => taken
give 0 2 => accepted
look 0 DA => accepted

# a claim that is taken away: its result is refused, and the row is claimed again
desk DD:DB,DC:d DB:DA:b DC:DA:c DA::a
publish 0 1
result 0 0 => DB row 1 worker 0 exports 4 vocabularies 0 text b
reclaim 0
give 0 0 => waiting
result 0 1 => DB row 1 worker 1 exports 4 vocabularies 0 text b
give 0 1 => taken

# results that come in another order than their claims
desk DD:DB,DC:d DB:DA:b DC:DA:c DA::a
publish 0 1
result 0 0
result 0 2 => DC row 2 worker 2 exports 4 vocabularies 0 text c
claim 0 1 => claimed 1
give 0 1 => taken
give 0 0 => taken
result 0 1 => DD row 0 worker 1 exports 6 vocabularies 0 text d
give 0 2 => taken
verdicts 0 => aaaa

# two on a cycle, one behind it, one accepted, one rejected, one missing, and others blocked by these
desk A:B:a B:A:b C:A:c D::d E:: F:E,D:f G::- H:G,D:h I:H:i
look 0 A => cyclic
look 0 G => missing
look 0 C => blocked by A
verdicts 0 => left 3
publish 0 1
result 0 0
look 0 D => accepted
verdicts 0 => left 4
give 0 0 => taken
look 0 E => rejected
look 0 F => blocked by E
verdicts 0 => ccbarbmbb
entry 0 3 => a 0
entry 0 4 => r 1
entry 0 2 => b A
entry 0 5 => b E
entry 0 7 => b G
entry 0 8 => b H";
