//! Long texts, which nest nothing: they are read, spelled, copied and let go by loops.
use crate::expressions::texts::answered;
use mz_parser_samples::answer::Answer;
use mz_pexpr::forms::Form;

#[test]
fn functors(rt: HostRuntime) {
    let found = answered(
        &rt,
        rt.alloc(),
        Form::Formula,
        &[(b"+ ", 190_000), (b"x = x", 1)],
    );
    assert!(rt; found == Answer::Until(190_003));
}

#[test]
fn selectors(rt: HostRuntime) {
    let found = answered(
        &rt,
        rt.alloc(),
        Form::Formula,
        &[(b"the car of ", 60_000), (b"x = x", 1)],
    );
    assert!(rt; found == Answer::Until(180_003));
}

#[test]
fn lists(rt: HostRuntime) {
    let found = answered(
        &rt,
        rt.alloc(),
        Form::Formula,
        &[(b"x , ", 90_000), (b"x = x", 1)],
    );
    assert!(rt; found == Answer::Until(180_003));
}
