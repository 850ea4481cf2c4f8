//! What items of definitions owe and grant, in the listing.
use crate::tests::shared::{Row, ample_row, check_row};
use mz_base::status::Status;
use mz_io::gate::OpenGate;

/// The symbols of the article.
const VOCABULARIES: &[(&str, &str)] = &[("v", "R##\nR%%\nOFf\nO++\nVVv\nMElm\nMMm")];

/// A definition of each kind, properties of two, an abbreviation, a notation, and a theorem.
const DEFINITIONS: &[(&str, &str)] = &[(
    "a",
    "environ vocabularies V; begin definition let x,y be object; pred x ## y means x = y; reflexivity; end; definition let x be object; func Ff x -> object means it = x; existence; uniqueness; end; definition let x,y be object; func x ++ y -> set equals y; coherence; idempotence; end; definition let x be object; attr x is Vv means x = x; end; definition let x be object; mode Elm of x -> object means it = x; existence; end; definition let x be object; mode Mm of x is Elm of x; end; notation let x,y be object; antonym x %% y for x ## y; end; theorem for x being object holds not x %% x;",
)];

/// The abbreviation and the notation, items 8 and 9, owe and grant nothing.
const LISTED: &str =
    "A accepted 1 theorems, 5 definitions, 0 registrations, 0 schemes\ntotal 1 accepted, 0 rejected, 0 blocked, 0 cyclic, 0 missing\nA 1 grant (all (all (and (not (and (A.R1 b1 b0) (not (= b1 b0)))) (not (and (= b1 b0) (not (A.R1 b1 b0)))))))\nA 2 property |- (all (all (all (A.R1 b0 b0))))\nA 3 func |- (all (not (all (not (= b0 b1)))))\nA 3 func |- (all (all (all (not (and (and (= b1 b2) (= b0 b2)) (not (= b1 b0)))))))\nA 3 grant (all true)\nA 3 grant (all (all (and (not (and (= b0 (A.O1 b1)) (not (= b0 b1)))) (not (and (= b0 b1) (not (= b0 (A.O1 b1))))))))\nA 4 func |- (all (all true))\nA 4 grant (all (all true))\nA 4 grant (all (all (= (A.O2 b1 b0) b0)))\nA 5 property |- (all (all (all (= (A.O2 b0 b0) b0))))\nA 6 grant (all (and (not (and (A.V1 b0) (not (= b0 b0)))) (not (and (= b0 b0) (not (A.V1 b0))))))\nA 7 mode |- (all (not (all (not (= b0 b1)))))\nA 7 grant (all (all (not (and (A.M1 b1 b0) (not true)))))\nA 7 grant (all (all (and (not (and (A.M1 b1 b0) (not (= b0 b1)))) (not (and (= b0 b1) (not (A.M1 b1 b0)))))))\nA 10 theorem |- (all (A.R1 b0 b0))\n";

#[test]
fn definitions_have_their_lines(rt: HostRuntime) {
    let row = Row {
        vocabularies: VOCABULARIES,
        ..ample_row(&["--list", "A"], DEFINITIONS, LISTED, Status::Accepted)
    };
    let _calls = check_row(&rt, rt.alloc(), &row, &OpenGate);
}
