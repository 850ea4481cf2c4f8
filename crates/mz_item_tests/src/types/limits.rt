//! Limits of chains.
use crate::reading::items::item;
use crate::reading::parts::{sym, term};
use crate::types::worlds::{World, put_constant, put_item};
use mz_base::text::Text;
use mz_context::constants::Constant;
use mz_core::adjectives::Adjectives;
use mz_core::item::Item;
use mz_core::radix::Radix;
use mz_core::soft_type::SoftType;
use mz_logic::term::{Term, Terms};
use mz_types::types::chain;
use std::alloc::Global;
use std::mem::forget;
use std::process::Abort;

/// The mode M1 redefined with the radix of the mode that has the number.
fn again(rt: &impl Abort, alloc: Global, number: u32) -> Item {
    let mut item = item(rt, alloc, "redefine mode N ; ; A.M1 ; object ; A.M2 ;");
    if let Item::RedefinedMode(d) = &mut item {
        if let Some(ty) = &mut d.ty {
            ty.radix.sym.number = number;
        }
    }
    item
}

/// A mode that is redefined so often, each time with a radix that isn't there yet.
fn often_redefined(rt: &impl Abort, alloc: Global, count: u32) -> World {
    let mut world = World::new(alloc);
    let mode = item(rt, alloc, "define mode A.M1 ; N ; ; set ; true");
    put_item(rt, alloc, &mut world, mode);
    for k in 0..count {
        let again = again(rt, alloc, k.saturating_add(2));
        put_item(rt, alloc, &mut world, again);
    }
    world
}

/// The chain of the constant 1 is so long.
fn check_length(rt: &impl Abort, alloc: Global, world: World, wanted: usize) {
    let t = term(rt, alloc, "c1");
    let rs = chain(alloc, &world.env, &world.ctx, &t).expect(rt, "memory");
    let found = rs.items.len();
    forget(world);
    forget(t);
    forget(rs);
    assert!(rt; found == wanted, "{wanted}");
}

/// With the mode itself and the radix of its definition the redefinitions are two more, and the end is two more.
#[test]
fn no_more_than_256_radices(rt: HostRuntime) {
    for (count, wanted) in [(253, 257), (254, 258), (255, 258)] {
        let mut world = often_redefined(&rt, rt.alloc(), count);
        put_constant(&rt, rt.alloc(), &mut world, "A.M1");
        check_length(&rt, rt.alloc(), world, wanted);
    }
}

fn pair(rt: &impl Abort, alloc: Global, t: Term) -> Term {
    let u = t.copy(alloc).expect(rt, "memory");
    let mut args = Terms::new(alloc);
    args.push(t).expect(rt, "memory");
    args.push(u).expect(rt, "memory");
    Term::apply(sym(rt, "A.O3"), args)
}

/// A term of 65,535 nodes, and the constant 1 where one more is wanted.
fn large_arguments(rt: &impl Abort, alloc: Global, one_more: bool) -> Terms {
    let mut t = Term::constant(1);
    for _ in 0..15 {
        t = pair(rt, alloc, t);
    }
    let mut args = Terms::new(alloc);
    args.push(t).expect(rt, "memory");
    if one_more {
        args.push(Term::constant(1)).expect(rt, "memory");
    }
    args
}

/// A constant of the mode with these arguments.
fn of_mode(rt: &impl Abort, alloc: Global, args: Terms) -> Constant {
    let sym = sym(rt, "A.M9");
    Constant {
        name: Text::new(alloc),
        ty: SoftType {
            adjectives: Adjectives::new(alloc),
            radix: Radix { sym, args },
        },
        equal: None,
    }
}

/// With the radix itself there are 65,536 nodes, which are taken; one more leaves it out.
#[test]
fn a_radix_that_is_too_large_is_left_out(rt: HostRuntime) {
    for (one_more, wanted) in [(false, 3), (true, 2)] {
        let args = large_arguments(&rt, rt.alloc(), one_more);
        let mut world = World::new(rt.alloc());
        let k = of_mode(&rt, rt.alloc(), args);
        world.ctx.constants.push(k).expect(&rt, "memory");
        check_length(&rt, rt.alloc(), world, wanted);
    }
}
