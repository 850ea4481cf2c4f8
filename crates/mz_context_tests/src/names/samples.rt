//! Small contexts.
use mz_base::text::Text;
use mz_context::context::Context;
use mz_context::private::PrivateFunctor;
use mz_core::soft_types::SoftTypes;
use mz_item_samples::contexts::{VariableRow, put_constants, put_reserved, start};
use mz_item_samples::types::{SET, TypeRow, ty};
use mz_logic::term::Term;
use mz_names::names::variable;
use mz_names::variable::{Variable, Variables};
use std::alloc::Global;
use std::process::Abort;

/// A context at the start of an article, with these constants in force and these variables reserved.
pub fn context(
    rt: &impl Abort,
    alloc: Global,
    constants: &[VariableRow],
    reserved: &[VariableRow],
) -> Context {
    let mut ctx = start(alloc, 1);
    put_constants(alloc, &mut ctx, constants).expect(rt, "constants");
    put_reserved(alloc, &mut ctx, reserved).expect(rt, "reserved variables");
    ctx
}

/// A name.
fn text(rt: &impl Abort, alloc: Global, name: &[u8]) -> Text {
    Text::from_slice(alloc, name).expect(rt, "memory")
}

/// A private functor without places.
pub fn define(rt: &impl Abort, alloc: Global, ctx: &mut Context, name: &[u8], body: Term) {
    let f = PrivateFunctor {
        name: text(rt, alloc, name),
        places: SoftTypes::new(alloc),
        body,
    };
    ctx.functors.push(f).expect(rt, "memory");
}

/// Whether the identifier is read to the constant with the number; 0: whether it is read to nothing.
pub fn stands_for(rt: &impl Abort, least: u32, ctx: &Context, name: &[u8], number: u32) -> bool {
    match variable(least, ctx, name).expect(rt, "memory") {
        Some(t) => t.is_const(number),
        None => number == 0,
    }
}

fn put(rt: &impl Abort, alloc: Global, vs: &mut Variables, name: &[u8], t: TypeRow) {
    let v = Variable {
        name: text(rt, alloc, name),
        ty: ty(alloc, t).expect(rt, "a type"),
    };
    vs.push(v).expect(rt, "memory");
}

/// Two variables: x being set, y being `Elm of` the constant 2.
pub fn two_variables(rt: &impl Abort, alloc: Global) -> Variables {
    let mut vs = Variables::new(alloc);
    put(rt, alloc, &mut vs, b"x", SET);
    put(rt, alloc, &mut vs, b"y", ("(A.M1 c2)", ""));
    vs
}
