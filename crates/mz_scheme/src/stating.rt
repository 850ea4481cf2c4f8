//! Schemes, taken.
ghost use Rattle.std.specs.Prelude.{◌≡◌, ◌++◌, ◌∷◌, ◌+◌, [], false, IfOk, OnOk, map, flat_map};
ghost use Rattle.mz_context.specs.declared.context.Context.{Context};
ghost use Rattle.mz_core.specs.declared.outcome.Left.{Left};
ghost use Rattle.mz_steps.specs.Changes.{label_of, statement_of};
ghost use Rattle.mz_justified.specs.Answers.{OnMade};
ghost use Rattle.mz_walk.specs.Answers as walk;
ghost use Rattle.mz_walk.specs.Walk.{Justifies};
ghost use Rattle.mz_standing.specs.Standing.{extent_of, with_left, with_context};
ghost use Rattle.mz_taken.specs.Answers.{OnTaken};
ghost use Rattle.mz_scheme_items.specs.Answers.{LeadsBy};
ghost use Rattle.mz_scheme_items.specs.StatesScheme.{letter_in, scheme_item, with_premises, TakesHeading};
ghost use Rattle.mz_letters.specs.Aside.{without_letters, aside_of};
ghost use Rattle.mz_scheme.specs.Heading.{heading_in, ended};

use crate::heading::{ReadHeading, take_heading};
use mz_context::context::Context;
use mz_context::labelled::{LabelledStatement, LabelledStatements};
use mz_context::letters::NamedLetters;
use mz_core::item::Item;
use mz_core::scheme::{Scheme, SchemeLetters};
use mz_core::statements::Statements;
use mz_formulas::sentence::Sentence;
use mz_justified::proof_fault::ProofFault;
use mz_justified::walker::{Opening, Walker};
use mz_letters::aside::{Aside, begin, end};
use mz_obligations::obligation::Obligations;
use mz_scheme_items::state_schemes::StateSchemes;
use mz_standing::changes::{extent_of, put_item};
use mz_standing::labels::end_scheme;
use mz_standing::standing::Standing;
use mz_taken::item_fault::{ItemFault, of_reasoning};
use mz_tree_item::schemes::SchemeTree;
use mz_walk::prove_steps::ProveSteps;
use std::alloc::{AllocError, Global};

/// Puts aside what a scheme changes.
fn begin_scheme(alloc: Global, s: &mut Standing) -> Result<Box<Aside>, AllocError>
    ensures aside { IfOk result (λ a. a.value ≡ aside_of s.old.context) }
    ensures standing { OnOk result (s.new ≡ with_context s.old (without_letters s.old.context)) }
{
    begin(alloc, &mut s.context)
}

/// Reads the heading.
fn read_heading(
    alloc: Global,
    s: &mut Standing,
    tree: &SchemeTree,
) -> Result<ReadHeading, ItemFault>
    ensures takes { OnTaken result (LeadsBy (TakesHeading s.old.environment s.old.context s.old.left tree.now) (heading_in s.new.context s.new.left)) }
    ensures same { s.new ≡ with_left (with_context s.old s.new.context) s.new.left }
{
    take_heading(alloc, &s.environment, &mut s.context, tree, &mut s.left)
}

fn put_labels(
    alloc: Global,
    labelled: &mut LabelledStatements,
    ps: &[LabelledStatement],
) -> Result<(), AllocError>
    ensures { OnOk result (labelled.new ≡ labelled.old ++ flat_map label_of ps.now) }
{
    for p in ps {
        let label = p.label.copy(alloc)?;
        labelled.push_if_any(alloc, label, &p.statement)?;
    }
    Ok(())
}

fn label_in_context(
    alloc: Global,
    ctx: &mut Context,
    ps: &LabelledStatements,
) -> Result<(), AllocError>
    ensures { OnOk result (ctx.new ≡ with_premises ctx.old ps.now) }
{
    put_labels(alloc, &mut ctx.labelled, ps.items.as_slice())
}

/// Puts the premises under their labels.
fn label_premises(
    alloc: Global,
    s: &mut Standing,
    ps: &LabelledStatements,
) -> Result<(), AllocError>
    ensures { OnOk result (s.new ≡ with_context s.old (with_premises s.old.context ps.now)) }
{
    label_in_context(alloc, &mut s.context, ps)
}

/// The justification of the conclusion.
fn justify<P: ProveSteps>(
    alloc: Global,
    s: &mut Standing,
    os: &mut Obligations,
    tree: &SchemeTree,
    x: &Sentence,
) -> Result<(), ProofFault>
    ensures made { OnMade result (walk.Brings (Justifies s.old.environment (extent_of s.old) s.old.context tree.now.scheme false tree.now.semicolon tree.now.just x.now s.old.left) s.new.left os.old os.new) }
    ensures same { OnOk result (s.new ≡ with_left s.old s.new.left) }
{
    let above = extent_of(s);
    let walker = Walker {
        alloc,
        env: &s.environment,
        at: above,
    };
    let opening = Opening {
        first: tree.scheme,
        linked: false,
    };
    P::justify(
        walker,
        &mut s.context,
        opening,
        tree.semicolon,
        &tree.just,
        x,
        &mut s.left,
        os,
    )
}

fn letters_in(alloc: Global, letters: NamedLetters) -> Result<SchemeLetters, AllocError>
    ensures { IfOk result (λ ls. ls ≡ map letter_in letters) }
{
    let mut out = SchemeLetters::new(alloc);
    for l in letters.items {
        out.push(l.letter)?;
    }
    Ok(out)
}

fn statements_in(alloc: Global, ps: LabelledStatements) -> Result<Statements, AllocError>
    ensures { IfOk result (λ ss. ss ≡ map statement_of ps) }
{
    let mut out = Statements::new(alloc);
    for p in ps.items {
        out.push(p.statement)?;
    }
    Ok(out)
}

/// The scheme of the letters and of what was read.
fn scheme_item(
    alloc: Global,
    letters: NamedLetters,
    x: ReadHeading,
) -> Result<Box<Item>, AllocError>
    ensures { IfOk result (λ item. (c : Context) (left : Left) → c.letters ≡ letters → item.value ≡ scheme_item (heading_in c left x)) }
{
    let ReadHeading {
        conclusion,
        premises,
    } = x;
    let letters = letters_in(alloc, letters)?;
    let premises = statements_in(alloc, premises)?;
    let item = Box::new(
        alloc,
        Item::Scheme(Scheme {
            letters,
            premises,
            conclusion: conclusion.closed,
        }),
    )?;
    Ok(item)
}

/// The next number.
fn another(count: u64) -> Result<u64, AllocError>
    ensures { IfOk result (λ n. n ≡ count + 1) }
{
    count.checked_add(1).ok_or(AllocError)
}

/// Puts back what was aside, and makes the scheme an item.
fn end_with(
    alloc: Global,
    s: &mut Standing,
    aside: Aside,
    tree: &SchemeTree,
    x: ReadHeading,
) -> Result<(), AllocError>
    ensures { OnOk result (s.new ≡ ended s.old aside tree.now x) }
{
    let letters = end(&mut s.context, aside);
    let item = scheme_item(alloc, letters, x)?;
    let label = tree.name.spelling.copy(alloc)?;
    let number = another(s.numbering.schemes)?;
    end_scheme(&mut s.context, &item, label, number)?;
    put_item(alloc, s, Box::into_inner(item))
}

/// What takes schemes.
#[derive(Clone, Copy, Debug)]
pub struct Stating;

impl StateSchemes for Stating {
    fn scheme<P: ProveSteps>(
        alloc: Global,
        s: &mut Standing,
        os: &mut Obligations,
        tree: &SchemeTree,
    ) -> Result<(), ItemFault> {
        let aside = begin_scheme(alloc, s)?;
        match read_heading(alloc, s, tree) {
            Err(f) => Err(f),
            Ok(heading) => {
                label_premises(alloc, s, &heading.premises)?;
                match justify::<P>(alloc, s, os, tree, &heading.conclusion) {
                    Err(f) => Err(of_reasoning(f)),
                    Ok(()) => {
                        end_with(alloc, s, Box::into_inner(aside), tree, heading)?;
                        Ok(())
                    }
                }
            }
        }
    }
}
