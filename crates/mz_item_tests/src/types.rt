//! What fits, chains, chosen notations and covered types in small environments, worked out by hand.
mod limits;
mod rows;
mod worlds;

use crate::answers::put;
use crate::reading::items::kind;
use crate::reading::parts::{field, front_of, soft_type, term, without_comment};
use crate::types::rows::WORLDS;
use crate::types::worlds::{World, take};
use mz_base::text::Text;
use mz_choice::choice::{Applied, Wanted, chosen_by};
use mz_choice::cover::is_covered_by;
use mz_choice::resolve::{Resolution, is_covered, resolve, resolve_by};
use mz_context::context::Context;
use mz_core::notation::Meaning;
use mz_item_samples::texts::radix_text;
use mz_logic::term::{Term, Terms};
use mz_logic::texts::term_text;
use mz_samples::forms::terms;
use mz_samples::symbols::number;
use mz_samples::texts::literal_text;
use mz_types::types::{chain, fits};
use std::alloc::Global;
use std::mem::forget;
use std::process::Abort;

fn terms_of(rt: &impl Abort, alloc: Global, text: &str) -> Terms {
    terms(alloc, text).expect(rt, "terms")
}

fn text_of(rt: &impl Abort, alloc: Global, word: &str) -> Text {
    Text::from_slice(alloc, word.as_bytes()).expect(rt, "memory")
}

/// `KIND SYMBOL ; LEFT ; RIGHT`, where the symbol may have a right bracket behind it.
fn applied(rt: &impl Abort, alloc: Global, text: &'static str) -> Applied {
    let mut line = text;
    let kind = kind(front_of(&mut line, ' '));
    let mut words = field(&mut line);
    let symbol = text_of(rt, alloc, front_of(&mut words, ' '));
    Applied {
        symbol,
        closing: text_of(rt, alloc, words),
        kind,
        left: terms_of(rt, alloc, field(&mut line)),
        right: terms_of(rt, alloc, field(&mut line)),
    }
}

/// The term, the literal, or the type's radix.
fn put_meaning(rt: &impl Abort, alloc: Global, out: &mut Vec<u8>, m: Meaning) {
    let text = match &m {
        Meaning::OfTerm(t) => term_text(alloc, t),
        Meaning::OfLiteral(l) => literal_text(alloc, l),
        Meaning::OfType(ty) => radix_text(alloc, &ty.radix),
    };
    let text = text.expect(rt, "memory");
    put(rt, out, text.as_slice());
    forget(m);
}

/// What is read, or why nothing is.
fn put_resolution(rt: &impl Abort, alloc: Global, out: &mut Vec<u8>, o: Resolution) {
    match o {
        Resolution::ReadsTo(m) => put_meaning(rt, alloc, out, m),
        Resolution::UnknownSymbol => put(rt, out, b"unknown"),
        Resolution::NoNotation => put(rt, out, b"none"),
        Resolution::UnfitArgument => put(rt, out, b"unfit"),
    }
}

fn put_read(
    rt: &impl Abort,
    alloc: Global,
    out: &mut Vec<u8>,
    world: &World,
    w: Wanted,
    a: Applied,
) {
    let o = resolve(alloc, &world.env, &world.ctx, &w, &a).expect(rt, "memory");
    forget(w);
    forget(a);
    put_resolution(rt, alloc, out, o);
}

/// What is read by the clauses of the environment.
fn put_read_by(rt: &impl Abort, alloc: Global, out: &mut Vec<u8>, world: &World, a: Applied) {
    let env = &world.env;
    let clauses = env.typing.as_slice();
    let o = resolve_by(alloc, clauses, env, &world.ctx, &Wanted::Anything, &a);
    forget(a);
    put_resolution(rt, alloc, out, o.expect(rt, "memory"));
}

/// What is chosen by the clauses of the environment.
fn put_chosen(rt: &impl Abort, alloc: Global, out: &mut Vec<u8>, world: &World, a: Applied) {
    let env = &world.env;
    let clauses = env.typing.as_slice();
    let o = chosen_by(alloc, clauses, env, &world.ctx, &Wanted::Anything, &a);
    forget(a);
    match o.expect(rt, "memory") {
        Some(m) => put_meaning(rt, alloc, out, m),
        None => put(rt, out, b"nothing"),
    }
}

/// The radices of the term's chain, with blanks between.
fn put_chain(rt: &impl Abort, alloc: Global, out: &mut Vec<u8>, world: &World, t: Term) {
    let rs = chain(alloc, &world.env, &world.ctx, &t).expect(rt, "memory");
    forget(t);
    for r in &rs.items {
        if !out.is_empty() {
            put(rt, out, b" ");
        }
        let text = radix_text(alloc, r).expect(rt, "memory");
        put(rt, out, text.as_slice());
    }
    forget(rs);
}

fn put_truth(rt: &impl Abort, out: &mut Vec<u8>, truth: bool) {
    let word: &[u8] = if truth { b"yes" } else { b"no" };
    put(rt, out, word);
}

/// How many places for constants the context has.
fn constants_in(ctx: &Context) -> usize {
    ctx.constants.items.len()
}

/// Whether the type is covered, by both calls, which leave the context with its constants.
fn put_covered(
    rt: &impl Abort,
    alloc: Global,
    out: &mut Vec<u8>,
    world: &mut World,
    text: &'static str,
) {
    let ty = soft_type(rt, alloc, text);
    let count = constants_in(&world.ctx);
    let found = is_covered(alloc, &world.env, &mut world.ctx, &ty).expect(rt, "memory");
    let env = &world.env;
    let clauses = env.typing.as_slice();
    let again = is_covered_by(alloc, clauses, env, &mut world.ctx, &ty).expect(rt, "memory");
    forget(ty);
    assert!(rt;
        again == found && constants_in(&world.ctx) == count,
        "{text}"
    );
    put_truth(rt, out, found);
}

/// `TERM ; TYPE`: whether the term fits the type.
fn put_fits(rt: &impl Abort, alloc: Global, out: &mut Vec<u8>, world: &World, text: &'static str) {
    let mut line = text;
    let t = term(rt, alloc, field(&mut line));
    let ty = soft_type(rt, alloc, line.trim());
    let found = fits(alloc, &world.env, &world.ctx, &t, &ty).expect(rt, "memory");
    forget(t);
    forget(ty);
    put_truth(rt, out, found);
}

/// The number of the constant of which an adjective is read.
fn subject(rt: &impl Abort, line: &mut &'static str) -> u32 {
    number(front_of(line, ' ').as_bytes()).expect(rt, "a number")
}

/// Puts the answer to the question. `read` takes an application for anything, `read_of N` for an adjective of the constant,
/// `read_fresh N` for one of the fresh constant; `read_by` and `choose` take the clauses of the environment.
fn put_answer(
    rt: &impl Abort,
    alloc: Global,
    out: &mut Vec<u8>,
    world: &mut World,
    question: &'static str,
) {
    let mut line = question;
    match front_of(&mut line, ' ') {
        "chain" => put_chain(rt, alloc, out, world, term(rt, alloc, line)),
        "fits" => put_fits(rt, alloc, out, world, line),
        "covered" => put_covered(rt, alloc, out, world, line),
        "read_by" => put_read_by(rt, alloc, out, world, applied(rt, alloc, line)),
        "choose" => put_chosen(rt, alloc, out, world, applied(rt, alloc, line)),
        "read_of" => {
            let w = Wanted::AdjectiveOf(Term::constant(subject(rt, &mut line)));
            put_read(rt, alloc, out, world, w, applied(rt, alloc, line));
        }
        "read_fresh" => {
            let w = Wanted::AdjectiveOfFresh(subject(rt, &mut line));
            put_read(rt, alloc, out, world, w, applied(rt, alloc, line));
        }
        _ => put_read(
            rt,
            alloc,
            out,
            world,
            Wanted::Anything,
            applied(rt, alloc, line),
        ),
    }
}

/// Takes what stands in a line into the world; or, where `=>` stands in it, the question's answer is what stands behind this.
fn check_line(rt: &impl Abort, alloc: Global, world: &mut World, line: &'static str) {
    match line.split_once(" => ") {
        None => take(rt, alloc, world, line),
        Some((question, wanted)) => {
            let mut found = Vec::new(alloc);
            put_answer(rt, alloc, &mut found, world, question);
            let same = found.as_slice() == wanted.as_bytes();
            forget(found);
            assert!(rt; same, "{line}");
        }
    }
}

#[test]
fn small_worlds(rt: HostRuntime) {
    for row in WORLDS.split("\n\n") {
        let mut world = World::new(rt.alloc());
        for line in without_comment(row).lines() {
            check_line(&rt, rt.alloc(), &mut world, line);
        }
        forget(world);
    }
}
