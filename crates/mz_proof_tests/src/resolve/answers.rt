//! Texts, parsed and read by the calls for expressions that are part of no other.
use mz_base::place::Place;
use mz_base::token::MarkedToken;
use mz_context::context::Context;
use mz_core::items::Items;
use mz_core::outcome::Left;
use mz_core::soft_type::SoftType;
use mz_core::statement::Statement;
use mz_environment::environment::Environment;
use mz_formulas::sentence::Sentence;
use mz_item_samples::refusals::refusal_text;
use mz_item_samples::texts::{statement_text, type_text};
use mz_logic::term::Term;
use mz_logic::texts::term_text;
use mz_parser_samples::texts::tokens_of;
use mz_pexpr::marked_tokens::marked_tokens;
use mz_pformula::parse::formula as parse_formula;
use mz_pterm::parse::term as parse_term;
use mz_ptype::parse::whole_type;
use mz_resolve::calls::{formula, sentence, term, type_of};
use mz_resolve::resolve_fault::ResolveFault;
use mz_tree::expressions::{FormulaTree, TermTree, TypeTree};
use std::alloc::Global;
use std::mem::forget;
use std::process::Abort;

/// What a text is read as.
#[derive(Clone, Copy)]
pub enum Call {
    Term,
    Type,
    /// A type in which a selector may stand without `of`.
    FieldType,
    Formula,
    Sentence,
}

/// The symbols of an article's vocabulary.
pub type Symbols = &'static [u8];

fn text_of_term(rt: &impl Abort, alloc: Global, t: Term) -> Vec<u8> {
    let text = term_text(alloc, &t).expect(rt, "memory");
    forget(t);
    text
}

fn text_of_statement(rt: &impl Abort, alloc: Global, s: Statement) -> Vec<u8> {
    let text = statement_text(alloc, &s).expect(rt, "memory");
    forget(s);
    text
}

fn text_of_type(rt: &impl Abort, alloc: Global, ty: SoftType) -> Vec<u8> {
    let text = type_text(alloc, &ty).expect(rt, "memory");
    forget(ty);
    text
}

fn text_of_sentence(rt: &impl Abort, alloc: Global, s: Sentence) -> Vec<u8> {
    let text = statement_text(alloc, &s.closed).expect(rt, "memory");
    forget(s);
    text
}

/// What a text is read to, as a text, or why it is refused.
type Read = Result<Vec<u8>, ResolveFault>;

/// The tokens with the place behind the last one, and the least number of a constant that may be used.
#[derive(Clone, Copy)]
struct Source<'a> {
    tokens: &'a [MarkedToken],
    end: Place,
    least: u32,
}

fn read_term(
    rt: &impl Abort,
    alloc: Global,
    env: &Environment,
    ctx: &Context,
    left: &mut Left,
    from: Source,
) -> Read {
    assert!(rt; from.tokens.len() > 5);
    let parsed = parse_term(alloc, from.tokens, from.end, 5, false);
    let (node, _) = parsed.expect(rt, "a term");
    let tree = TermTree::from_node(node);
    let o = term(alloc, env, ctx, from.least, &tree, left);
    forget(tree);
    match o {
        Ok(found) => Ok(text_of_term(rt, alloc, found)),
        Err(f) => Err(f),
    }
}

/// A selector may stand without `of` in the type of a field.
fn read_type(
    rt: &impl Abort,
    alloc: Global,
    env: &Environment,
    ctx: &mut Context,
    left: &mut Left,
    from: Source,
    field: bool,
) -> Read {
    assert!(rt; from.tokens.len() > 5);
    let parsed = whole_type(alloc, from.tokens, from.end, 5, field);
    let (node, _) = parsed.expect(rt, "a type");
    let tree = TypeTree::from_node(node);
    let o = type_of(alloc, env, ctx, from.least, &tree, left);
    forget(tree);
    match o {
        Ok(found) => Ok(text_of_type(rt, alloc, found)),
        Err(f) => Err(f),
    }
}

fn read_formula(
    rt: &impl Abort,
    alloc: Global,
    env: &Environment,
    ctx: &mut Context,
    left: &mut Left,
    from: Source,
) -> Read {
    assert!(rt; from.tokens.len() > 5);
    let parsed = parse_formula(alloc, from.tokens, from.end, 5, false);
    let (node, _) = parsed.expect(rt, "a formula");
    let tree = FormulaTree::from_node(node);
    let o = formula(alloc, env, ctx, from.least, &tree, left);
    forget(tree);
    match o {
        Ok(found) => Ok(text_of_statement(rt, alloc, found)),
        Err(f) => Err(f),
    }
}

fn read_sentence(
    rt: &impl Abort,
    alloc: Global,
    env: &Environment,
    ctx: &mut Context,
    left: &mut Left,
    from: Source,
) -> Read {
    assert!(rt; from.tokens.len() > 5);
    let parsed = parse_formula(alloc, from.tokens, from.end, 5, false);
    let (node, _) = parsed.expect(rt, "a formula");
    let tree = FormulaTree::from_node(node);
    let o = sentence(alloc, env, ctx, from.least, &tree, left);
    forget(tree);
    match o {
        Ok(found) => Ok(text_of_sentence(rt, alloc, found)),
        Err(f) => Err(f),
    }
}

fn read(
    rt: &impl Abort,
    alloc: Global,
    env: &Environment,
    ctx: &mut Context,
    left: &mut Left,
    from: Source,
    call: Call,
) -> Read {
    match call {
        Call::Term => read_term(rt, alloc, env, ctx, left, from),
        Call::Type => read_type(rt, alloc, env, ctx, left, from, false),
        Call::FieldType => read_type(rt, alloc, env, ctx, left, from, true),
        Call::Formula => read_formula(rt, alloc, env, ctx, left, from),
        Call::Sentence => read_sentence(rt, alloc, env, ctx, left, from),
    }
}

/// An answer as a text, and the nodes that are left then.
pub type Answer = (Vec<u8>, u64);

/// What the text is read to where constants below `least` may not be used and so many nodes are left.
pub fn answer(
    rt: &impl Abort,
    alloc: Global,
    symbols: Symbols,
    env: &Environment,
    ctx: &mut Context,
    call: Call,
    least: u32,
    nodes: u64,
    text: &str,
) -> Answer {
    let tokens = tokens_of(alloc, symbols, text.as_bytes()).expect(rt, "tokens");
    let marked = marked_tokens(alloc, &tokens).expect(rt, "memory");
    let mut left = Left {
        nodes,
        obligations: 0,
        made: Items::new(alloc),
    };
    let from = Source {
        tokens: marked.as_slice(),
        end: tokens.end,
        least,
    };
    let o = read(rt, alloc, env, ctx, &mut left, from, call);
    forget(tokens);
    forget(marked);
    let nodes = left.nodes;
    forget(left);
    match o {
        Ok(text) => (text, nodes),
        Err(ResolveFault::Refused(r)) => (refusal_text(alloc, r).expect(rt, "memory"), nodes),
        Err(ResolveFault::Memory) => rt.abort(),
    }
}

/// Whether the answer has the text, and so many nodes are left where that is asked.
pub fn is_answer(found: Answer, wanted: &str, left: Option<u64>) -> bool {
    let (text, nodes) = found;
    let same = text.as_slice() == wanted.as_bytes();
    forget(text);
    match left {
        Some(left) => same && nodes == left,
        None => same,
    }
}

/// The least number of a constant that may be used, a text, what it is read to, and the nodes of that; a refusal has none.
pub type Row = (u32, &'static str, &'static str, u64);

/// With ample nodes the text is read so, with exactly enough too, and then none is left; with one too few it is too large at
/// its first token.
fn is_read(
    rt: &impl Abort,
    alloc: Global,
    symbols: Symbols,
    env: &Environment,
    ctx: &mut Context,
    call: Call,
    row: Row,
) -> bool {
    let (least, text, wanted, nodes) = row;
    let found = answer(rt, alloc, symbols, env, ctx, call, least, 1000, text);
    let ample = is_answer(found, wanted, Some(1000u64.saturating_sub(nodes)));
    let found = answer(rt, alloc, symbols, env, ctx, call, least, nodes, text);
    let enough = is_answer(found, wanted, Some(0));
    let fewer = nodes.saturating_sub(1);
    let found = answer(rt, alloc, symbols, env, ctx, call, least, fewer, text);
    let short = is_answer(found, "L31", None);
    ample && enough && short
}

fn is_refused(
    rt: &impl Abort,
    alloc: Global,
    symbols: Symbols,
    env: &Environment,
    ctx: &mut Context,
    call: Call,
    row: Row,
) -> bool {
    let (least, text, wanted, _) = row;
    let found = answer(rt, alloc, symbols, env, ctx, call, least, 1000, text);
    is_answer(found, wanted, None)
}

/// The text is read so, or refused so, and no constant more is in force then.
pub fn check(
    rt: &impl Abort,
    alloc: Global,
    symbols: Symbols,
    env: &Environment,
    ctx: &mut Context,
    call: Call,
    row: Row,
) {
    let count = ctx.constants.items.len();
    let same = if row.3 == 0 {
        is_refused(rt, alloc, symbols, env, ctx, call, row)
    } else {
        is_read(rt, alloc, symbols, env, ctx, call, row)
    };
    let text = row.1;
    assert!(rt; same && ctx.constants.items.len() == count, "{text}");
}
