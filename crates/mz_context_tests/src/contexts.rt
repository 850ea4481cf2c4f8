//! Small contexts, worked out by hand.
use mz_base::text::Text;
use mz_context::constants::Constant;
use mz_context::context::Context;
use mz_context::gather::{constants_of, reached};
use mz_core::hidden::object_type;
use mz_core::statement::Statement;
use mz_item_samples::contexts::start;
use mz_logic::literal::Literal;
use mz_logic::term::Term;
use std::alloc::Global;
use std::mem::forget;
use std::process::Abort;

/// A constant of the type `object`, equal to the constant with the number, if it isn't 0.
fn constant(alloc: Global, equal: u32) -> Constant {
    Constant {
        name: Text::new(alloc),
        ty: object_type(alloc),
        equal: if equal == 0 {
            None
        } else {
            Some(Term::constant(equal))
        },
    }
}

/// Puts such a constant into force; its number.
fn add(rt: &impl Abort, alloc: Global, ctx: &mut Context, equal: u32) -> u32 {
    ctx.add(constant(alloc, equal)).expect(rt, "memory")
}

/// Takes the constant out of force, where the list has its place.
fn release(ctx: &mut Context, number: u32) -> bool {
    if number == 0 || number as usize > ctx.constants.items.len() {
        return false;
    }
    ctx.release(number);
    true
}

#[test]
fn a_number_is_free_again_once_no_later_one_is_in_force(rt: HostRuntime) {
    let alloc = rt.alloc();
    let mut ctx = start(alloc, 1);
    assert!(rt; ctx.next() == 1);
    for number in 1..4 {
        assert!(rt; add(&rt, alloc, &mut ctx, 0) == number);
    }
    assert!(rt; release(&mut ctx, 2));
    assert!(rt; ctx.constants.get(2).is_none());
    assert!(rt; ctx.constants.get(3).is_some());
    assert!(rt; ctx.constants.get(0).is_none());
    assert!(rt; ctx.constants.get(4).is_none());
    assert!(rt; ctx.next() == 4);
    assert!(rt; release(&mut ctx, 3));
    assert!(rt; ctx.next() == 2);
    assert!(rt; add(&rt, alloc, &mut ctx, 0) == 2);
    forget(ctx);
}

/// Truth as the statement just before, under the label.
fn state(rt: &impl Abort, alloc: Global, ctx: &mut Context, label: &[u8]) {
    let label = Text::from_slice(alloc, label).expect(rt, "memory");
    ctx.state(alloc, label, Statement::truth())
        .expect(rt, "memory");
}

/// A constant and a labelled statement.
fn begun(rt: &impl Abort, alloc: Global) -> Context {
    let mut ctx = start(alloc, 1);
    add(rt, alloc, &mut ctx, 0);
    state(rt, alloc, &mut ctx, b"A");
    ctx
}

/// A further constant, a statement without a label and one with.
fn go_on(rt: &impl Abort, alloc: Global, ctx: &mut Context) {
    add(rt, alloc, ctx, 0);
    state(rt, alloc, ctx, b"");
    state(rt, alloc, ctx, b"B");
}

#[test]
fn a_context_is_cut_back_to_a_mark(rt: HostRuntime) {
    let alloc = rt.alloc();
    let mut ctx = begun(&rt, alloc);
    let mark = ctx.mark();
    go_on(&rt, alloc, &mut ctx);
    assert!(rt; ctx.labelled.items.len() == 2);
    ctx.restore(mark);
    assert!(rt; ctx.next() == 2);
    assert!(rt; ctx.labelled.items.len() == 1);
    assert!(rt; ctx.previous.is_some());
    forget(ctx);
}

#[test]
fn constants_are_reached_in_rounds(rt: HostRuntime) {
    let alloc = rt.alloc();
    let mut ctx = start(alloc, 1);
    for equal in [0, 4, 1, 3, 2] {
        add(&rt, alloc, &mut ctx, equal);
    }
    let l = Literal::Eq {
        positive: true,
        left: Term::constant(5),
        right: Term::constant(3),
    };
    let first = constants_of(alloc, &ctx.constants, &l).expect(&rt, "memory");
    assert!(rt; first.as_slice() == [3, 5].as_slice());
    let all = reached(alloc, &ctx.constants, first.as_slice()).expect(&rt, "memory");
    assert!(rt; all.as_slice() == [3, 5, 1, 2, 4].as_slice());
    forget(l);
    forget(first);
    forget(all);
    forget(ctx);
}
