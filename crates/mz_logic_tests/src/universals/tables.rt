//! The table of rows by their heads.
use mz_match::row::{Head, Row};
use mz_match::table::Table;
use mz_match::value::Value;
use mz_samples::symbols::symbol;

#[test]
fn heads_are_compared(rt: HostRuntime) {
    let p = symbol("A.R1").expect(&rt, "a symbol");
    let q = symbol("A.R2").expect(&rt, "a symbol");
    let heads = [
        Head::Constant(1),
        Head::Constant(2),
        Head::Functor(p),
        Head::Holds(p),
        Head::Fails(p),
        Head::Fails(q),
        Head::Disequal,
    ];
    for i in 0..heads.len() {
        for j in 0..heads.len() {
            assert!(&rt; heads[i].is(heads[j]) == (i == j), "{i} {j}");
        }
    }
}

/// Rows stand under their own head, in the order in which they came; an equal one is counted alone.
#[test]
fn rows_by_their_heads(rt: HostRuntime) {
    let alloc = rt.alloc();
    let holds = Head::Holds(symbol("A.R1").expect(&rt, "a symbol"));
    let mut table = Table::new(alloc);
    for (head, value) in [
        (Head::Constant(1), 5),
        (holds, 6),
        (Head::Constant(1), 7),
        (holds, 6),
    ] {
        let args = Vec::new(alloc);
        table
            .add(alloc, head, Row { args, value })
            .expect(&rt, "memory");
    }
    for (head, wanted, count) in [
        (Head::Constant(1), [5, 7].as_slice(), 2),
        (Head::Constant(2), &[], 0),
        (holds, &[6], 2),
        (Head::Disequal, &[], 0),
    ] {
        let rows = table.rows(head);
        assert!(&rt; rows.len() == wanted.len());
        assert!(&rt; table.count(head) == count);
        for i in 0..wanted.len() {
            assert!(&rt; rows[i].value == wanted[i]);
        }
    }
}

/// The class of arguments is known where all rows that have them have one; it isn't where two rows differ.
#[test]
fn values_of_arguments(rt: HostRuntime) {
    let alloc = rt.alloc();
    let functor = Head::Functor(symbol("A.O1").expect(&rt, "a symbol"));
    let mut table = Table::new(alloc);
    for (arg, value) in [(1, 5), (2, 5), (1, 5), (3, 5), (3, 6)] {
        let args = vec![in alloc; arg].expect(&rt, "memory");
        table
            .add(alloc, functor, Row { args, value })
            .expect(&rt, "memory");
    }
    assert!(&rt; matches!(table.value(functor, &[1]), Value::Class(5)));
    assert!(&rt; matches!(table.value(functor, &[2]), Value::Class(5)));
    assert!(&rt; matches!(table.value(functor, &[3]), Value::Unknown));
    assert!(&rt; matches!(table.value(functor, &[4]), Value::Nothing));
    assert!(&rt; matches!(table.value(functor, &[1, 1]), Value::Nothing));
    assert!(&rt; matches!(table.value(Head::Disequal, &[1, 2]), Value::Nothing));
}
