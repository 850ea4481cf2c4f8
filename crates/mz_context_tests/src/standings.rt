//! How items change counts, labels and what is in force, worked out by hand.
use mz_base::text::Text;
use mz_context::constants::Constant;
use mz_context::context::{Context, SymbolCounts};
use mz_core::hidden::object_type;
use mz_core::item::Item;
use mz_core::scheme::{Scheme, SchemeLetter, SchemeLetters};
use mz_core::soft_types::SoftTypes;
use mz_core::statement::Statement;
use mz_core::statements::Statements;
use mz_item_samples::contexts::start;
use mz_item_samples::items::{ItemRow, MeaningRow, item};
use mz_item_samples::types::{OBJECT, SET};
use mz_logic::kind::Kind;
use mz_samples::symbols::symbol;
use mz_standing::counts::count_item;
use mz_standing::labels::{end_block, end_heading, end_scheme};
use std::alloc::Global;
use std::mem::forget;
use std::process::Abort;

/// Items of the article A, and behind each how many modes, structures, attributes, functors, selectors, aggregates and predicates it
/// has made.
const ITEMS: [(ItemRow, [u32; 7]); 9] = [
    (
        ItemRow::Functor("A.O1", ("f", &[], &[], &[]), SET, "true"),
        [0, 0, 0, 1, 0, 0, 0],
    ),
    // a redefinition makes no symbol
    (
        ItemRow::FunctorAgain("A.O1", ("f", &[], &[], &[]), OBJECT, SET),
        [0, 0, 0, 1, 0, 0, 0],
    ),
    (
        ItemRow::Predicate("A.R1", ("r", &[SET], &[0], &[]), "true"),
        [0, 0, 0, 1, 0, 0, 1],
    ),
    (
        ItemRow::Attribute("A.V1", ("v", &[SET], &[], &[0]), "true"),
        [0, 0, 1, 1, 0, 0, 1],
    ),
    (
        ItemRow::Mode("A.M1", ("m", &[], &[], &[]), SET, "true"),
        [1, 0, 1, 1, 0, 0, 1],
    ),
    // a structure makes its attribute, its aggregate and its selectors
    (
        ItemRow::Structure(
            ("A.G1", "A.V2", "A.A1"),
            &[],
            &[("A.U1", SET), ("A.U2", SET)],
            &[],
        ),
        [1, 1, 2, 1, 2, 1, 1],
    ),
    // the selectors of ancestors, one of another article among them, are no new ones
    (
        ItemRow::Structure(
            ("A.G2", "A.V3", "A.A2"),
            &[("A.G1", ""), ("B.G1", "")],
            &[("A.U1", SET), ("A.U2", SET), ("B.U7", SET), ("A.U3", SET)],
            &[],
        ),
        [1, 2, 3, 1, 3, 2, 1],
    ),
    // a notation and a registration make no symbol
    (
        ItemRow::Notation((
            Kind::Functor,
            ("g", &[], &[], &[]),
            MeaningRow::Term("A.O1"),
        )),
        [1, 2, 3, 1, 3, 2, 1],
    ),
    (
        ItemRow::Existential(&[], "A.V1", SET),
        [1, 2, 3, 1, 3, 2, 1],
    ),
];

fn are(counts: &SymbolCounts, wanted: [u32; 7]) -> bool {
    counts.modes == wanted[0]
        && counts.structures == wanted[1]
        && counts.attributes == wanted[2]
        && counts.functors == wanted[3]
        && counts.selectors == wanted[4]
        && counts.aggregates == wanted[5]
        && counts.predicates == wanted[6]
}

fn sample(rt: &impl Abort, alloc: Global, row: ItemRow) -> Item {
    item(alloc, row).expect(rt, "an item")
}

#[test]
fn items_make_symbols(rt: HostRuntime) {
    let alloc = rt.alloc();
    let mut ctx = start(alloc, 1);
    for row in &ITEMS {
        let x = sample(&rt, alloc, row.0);
        count_item(&mut ctx.counts, &x).expect(&rt, "memory");
        forget(x);
        assert!(rt; are(&ctx.counts, row.1));
    }
    forget(ctx);
}

fn text(rt: &impl Abort, alloc: Global, bytes: &[u8]) -> Text {
    Text::from_slice(alloc, bytes).expect(rt, "memory")
}

/// A locus.
fn add(rt: &impl Abort, alloc: Global, ctx: &mut Context) {
    let k = Constant {
        name: Text::new(alloc),
        ty: object_type(alloc),
        equal: None,
    };
    let _number = ctx.add(k).expect(rt, "memory");
}

/// A heading that made the item, whose definiens has the label.
fn head(rt: &impl Abort, alloc: Global, ctx: &mut Context, row: ItemRow, label: &[u8]) {
    let x = sample(rt, alloc, row);
    let label = text(rt, alloc, label);
    end_heading(alloc, ctx, &x, label).expect(rt, "memory");
    forget(x);
}

#[test]
fn labels_outlive_their_block_and_loci_do_not(rt: HostRuntime) {
    let alloc = rt.alloc();
    let mut ctx = start(alloc, 1);
    add(&rt, alloc, &mut ctx);
    let places = ctx.constants.items.len();
    add(&rt, alloc, &mut ctx);
    ctx.previous = Some(Statement::truth());
    head(&rt, alloc, &mut ctx, ITEMS[2].0, b"D");
    assert!(rt; ctx.previous.is_none());
    // no label, and nothing that can be cited
    head(&rt, alloc, &mut ctx, ITEMS[2].0, b"");
    head(&rt, alloc, &mut ctx, ITEMS[7].0, b"E");
    assert!(rt; ctx.counts.predicates == 2);
    end_block(&mut ctx, places);
    assert!(rt; ctx.next() == 2);
    assert!(rt; ctx.labelled.items.len() == 1);
    assert!(rt; ctx.labelled.items[0].label.as_slice() == b"D".as_slice());
    forget(ctx);
}

/// A scheme with a predicate letter and two functor letters.
fn scheme(rt: &impl Abort, alloc: Global) -> Item {
    let mut letters = SchemeLetters::new(alloc);
    let p = symbol("A.P1").expect(rt, "a symbol");
    let f = symbol("A.F1").expect(rt, "a symbol");
    let g = symbol("A.F2").expect(rt, "a symbol");
    letters
        .push(SchemeLetter::OfPredicate(p, SoftTypes::new(alloc)))
        .expect(rt, "memory");
    for s in [f, g] {
        let letter = SchemeLetter::OfFunctor(s, SoftTypes::new(alloc), object_type(alloc));
        letters.push(letter).expect(rt, "memory");
    }
    Item::Scheme(Scheme {
        letters,
        premises: Statements::new(alloc),
        conclusion: Statement::truth(),
    })
}

#[test]
fn a_scheme_has_a_label_and_its_letters(rt: HostRuntime) {
    let alloc = rt.alloc();
    let mut ctx = start(alloc, 1);
    let x = scheme(&rt, alloc);
    let label = text(&rt, alloc, b"S");
    end_scheme(&mut ctx, &x, label, 1).expect(&rt, "memory");
    forget(x);
    assert!(rt; ctx.counts.predicate_letters == 1);
    assert!(rt; ctx.counts.functor_letters == 2);
    assert!(rt; ctx.schemes.items.len() == 1);
    assert!(rt; ctx.schemes.items[0].number == 1);
    // a name space of its own
    assert!(rt; ctx.labelled.items.is_empty());
    forget(ctx);
}
