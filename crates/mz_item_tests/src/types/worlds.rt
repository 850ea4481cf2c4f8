//! Environments and contexts into which lines of text are taken, one behind another.
use crate::reading::items::{item, letter};
use crate::reading::parts::{front_of, soft_type, term};
use mz_base::text::Text;
use mz_context::constants::Constant;
use mz_context::context::Context;
use mz_context::letters::NamedLetter;
use mz_core::item::Item;
use mz_environment::environment::Environment;
use mz_environment::numbering::Numbering;
use mz_item_samples::contexts::start;
use std::alloc::Global;
use std::mem::forget;
use std::process::Abort;

/// An environment with the items of an article, and a context.
#[derive(Drop)]
pub struct World {
    pub env: Environment,
    pub at: Numbering,
    pub ctx: Context,
}

impl World {
    /// With nothing in it.
    pub fn new(alloc: Global) -> World {
        World {
            env: Environment::new(alloc),
            at: Numbering::of_article(1),
            ctx: start(alloc, 1),
        }
    }
}

/// Puts one item more into the environment.
pub fn put_item(rt: &impl Abort, alloc: Global, world: &mut World, item: Item) {
    world
        .env
        .add(alloc, &mut world.at, &item)
        .expect(rt, "memory");
    forget(item);
}

/// Puts a constant of the type into force, `TYPE` or `TYPE = TERM`.
pub fn put_constant(rt: &impl Abort, alloc: Global, world: &mut World, text: &'static str) {
    let (ty, equal) = match text.split_once(" = ") {
        Some((ty, t)) => (ty, Some(term(rt, alloc, t))),
        None => (text, None),
    };
    let k = Constant {
        name: Text::new(alloc),
        ty: soft_type(rt, alloc, ty),
        equal,
    };
    world.ctx.constants.push(k).expect(rt, "memory");
}

/// Puts a letter without a name into force.
fn put_letter(rt: &impl Abort, alloc: Global, world: &mut World, text: &'static str) {
    let l = NamedLetter {
        name: Text::new(alloc),
        letter: letter(rt, alloc, text),
    };
    world.ctx.letters.push(l).expect(rt, "memory");
}

/// Takes a constant, a letter or an item.
pub fn take(rt: &impl Abort, alloc: Global, world: &mut World, line: &'static str) {
    let mut rest = line;
    match front_of(&mut rest, ' ') {
        "constant" => put_constant(rt, alloc, world, rest),
        "letter" => put_letter(rt, alloc, world, rest),
        _ => {
            let item = item(rt, alloc, line);
            put_item(rt, alloc, world, item);
        }
    }
}
