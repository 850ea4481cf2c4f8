//! Justifications, statements and reasonings, in the order of the grammar.
ghost use Rattle.std.specs.Prelude.{◌≡◌, true};
ghost use Rattle.mz_forms.specs.Reading.{Reads};
ghost use Rattle.mz_tree_proof.specs.Reasoning.{steps_of};
ghost use Rattle.mz_pjustification.specs.Words.{is_key};
ghost use Rattle.mz_pproof.specs.Classes.{begins_conclusion, begins_definition, begins_skeleton, comes};
ghost use Rattle.mz_pproof.specs.Forms.{
  block_form,
  block_of,
  compact_form,
  compact_in,
  continued_form,
  equality_steps_form,
  just_form,
  reasoning_form,
  same_continued,
  same_just,
  same_statement,
  same_step,
  same_suppose,
  same_supposes,
  statement_form,
  step_form,
  suppose_form,
  supposes_form,
  ReadsCases,
  ReadsHereby,
  ReadsLabelled,
  ReadsLinked,
  ReadsNow,
  ReadsStated,
};

use crate::equations::may_continue;
use crate::look::{
    cases_come, conclusion_comes, definition_comes, key_comes, skeleton_comes, step_comes,
};
use mz_base::place::Place;
use mz_forms::refusal::Refusal;
use mz_pformula::formulas::formula;
use mz_pjustification::keyword::Keyword;
use mz_pjustification::simple::simple;
use mz_pjustification::words::{expect_key, opens_key, takes_key};
use mz_pproposition::propositions::{hypotheses, label, label_comes, proposition};
use mz_pstep::equalities::equality_step;
use mz_pstep::introductions::{consider, deffunc, defpred, reconsider, set_statement};
use mz_pstep::skeletons::{assume, given, let_step, split, take};
use mz_pterm::reader::Reader;
use mz_tree::expressions::FormulaTree;
use mz_tree::lists::Trees;
use mz_tree_proof::equality_step::EqualityStepTree;
use mz_tree_proof::introduction::IntroductionTree;
use mz_tree_proof::propositions::PropositionTree;
use mz_tree_proof::reasoning::{
    CompactNode, CompactTree, JustNode, JustTree, StatementNode, StatementTree, StepNode, StepTree,
    Steps, SupposeNode, SupposeTree, SupposeTrees,
};
use mz_tree_proof::references::LabelTree;
use mz_tree_proof::skeleton::SkeletonTree;

/// A reasoning between this word and `end`. `room` says how many constructs may still be opened within one another.
#[cycle(reasonings)]
fn block(
    reader: &mut Reader<'_>,
    word: Keyword,
    room: usize,
) -> Result<(Place, Steps, Place), Refusal>
    requires { is_key word ≡ true }
    ensures { Reads (block_form word) room block_of reader.old.rest.now result reader.new.rest.now }
{
    let place = opens_key(reader, word, room)?;
    let steps = reasoning(reader, room - 1)?;
    let end = expect_key(reader, Keyword::End)?;
    Ok((place, steps, end))
}

/// A justification: a simple one, or a proof.
#[cycle(reasonings)]
pub fn justification(reader: &mut Reader<'_>, room: usize) -> Result<JustTree, Refusal>
    ensures { Reads just_form room same_just reader.old.rest.now result reader.new.rest.now }
{
    if key_comes(reader, Keyword::Proof) {
        let (proof, steps, end) = block(reader, Keyword::Proof, room)?;
        let node = JustNode::Proof(proof, steps, end);
        return Ok(JustTree { node });
    }
    let tree = simple(reader, room)?;
    let node = JustNode::Simple(tree);
    Ok(JustTree { node })
}

/// Any number of further sides of an iterative equality.
fn equality_steps(reader: &mut Reader<'_>, room: usize) -> Result<Trees<EqualityStepTree>, Refusal>
    ensures { Reads equality_steps_form room same_continued reader.old.rest.now result reader.new.rest.now }
{
    let mut items = Vec::new(reader.alloc);
    'list: while key_comes(reader, Keyword::Link) {
        let tree = equality_step(reader, room)?;
        items.push(tree)?;
    }
    Ok(Trees { items })
}

/// Further sides of an iterative equality, where they may stand.
fn continued(
    reader: &mut Reader<'_>,
    may: bool,
    room: usize,
) -> Result<Trees<EqualityStepTree>, Refusal>
    ensures { Reads (continued_form may) room same_continued reader.old.rest.now result reader.new.rest.now }
{
    if may {
        return equality_steps(reader, room);
    }
    let items = Vec::new(reader.alloc);
    Ok(Trees { items })
}

/// What stands behind a proposition: its justification, the further sides of an iterative equality, and the semicolon.
#[cycle(reasonings)]
fn stated(
    reader: &mut Reader<'_>,
    proposition: PropositionTree,
    room: usize,
) -> Result<Box<CompactTree>, Refusal>
    ensures { ReadsStated proposition room reader.old.rest.now result reader.new.rest.now }
{
    let tree = justification(reader, room)?;
    let may = may_continue(&proposition.formula, &tree);
    let just = Box::new(reader.alloc, tree)?;
    let steps = continued(reader, may, room)?;
    let semicolon = expect_key(reader, Keyword::Semicolon)?;
    let node = CompactNode::Stated(proposition, just, steps, semicolon);
    Ok(Box::new(reader.alloc, CompactTree { node })?)
}

/// A proposition with its justification, and the further sides of an iterative equality.
#[cycle(reasonings)]
fn compact(reader: &mut Reader<'_>, room: usize) -> Result<Box<CompactTree>, Refusal>
    ensures { Reads compact_form room compact_in reader.old.rest.now result reader.new.rest.now }
{
    let tree = proposition(reader, room)?;
    stated(reader, tree, room)
}

/// `now` with a reasoning, and with the label before it.
#[cycle(reasonings)]
fn now_statement(
    reader: &mut Reader<'_>,
    label: Option<LabelTree>,
    room: usize,
) -> Result<StatementTree, Refusal>
    ensures { ReadsNow label room reader.old.rest.now result reader.new.rest.now }
{
    let (now, steps, end) = block(reader, Keyword::Now, room)?;
    let semicolon = expect_key(reader, Keyword::Semicolon)?;
    let node = StatementNode::Now(label, now, steps, end, semicolon);
    Ok(StatementTree { node })
}

/// What may stand behind a `then` or without one: a compact statement, `consider` or `reconsider`.
#[cycle(reasonings)]
fn linked(
    reader: &mut Reader<'_>,
    then: Option<Place>,
    room: usize,
) -> Result<StatementTree, Refusal>
    ensures { ReadsLinked then room reader.old.rest.now result reader.new.rest.now }
{
    if key_comes(reader, Keyword::Consider) {
        let tree = consider(reader, then, room)?;
        let node = StatementNode::Introduction(IntroductionTree::Consider(tree));
        return Ok(StatementTree { node });
    }
    if key_comes(reader, Keyword::Reconsider) {
        let tree = reconsider(reader, then, room)?;
        let node = StatementNode::Introduction(IntroductionTree::Reconsider(tree));
        return Ok(StatementTree { node });
    }
    let stated = compact(reader, room)?;
    let node = StatementNode::Compact(then, stated);
    Ok(StatementTree { node })
}

/// `deffunc`, `defpred` or `set`.
fn definition(reader: &mut Reader<'_>, room: usize) -> Result<StatementTree, Refusal>
    requires { comes begins_definition reader.old.rest.now ≡ true }
    ensures { Reads statement_form room same_statement reader.old.rest.now result reader.new.rest.now }
{
    if key_comes(reader, Keyword::Deffunc) {
        let tree = deffunc(reader, room)?;
        let node = StatementNode::Introduction(IntroductionTree::Deffunc(tree));
        return Ok(StatementTree { node });
    }
    if key_comes(reader, Keyword::Defpred) {
        let tree = defpred(reader, room)?;
        let node = StatementNode::Introduction(IntroductionTree::Defpred(tree));
        return Ok(StatementTree { node });
    }
    let tree = set_statement(reader, room)?;
    let node = StatementNode::Introduction(IntroductionTree::Set(tree));
    Ok(StatementTree { node })
}

/// What stands behind a label: `now`, or a formula and what goes with it.
#[cycle(reasonings)]
fn labelled(
    reader: &mut Reader<'_>,
    label: LabelTree,
    room: usize,
) -> Result<StatementTree, Refusal>
    ensures { ReadsLabelled label room reader.old.rest.now result reader.new.rest.now }
{
    if key_comes(reader, Keyword::Now) {
        return now_statement(reader, Some(label), room);
    }
    let node = formula(reader, false, room)?;
    let proposition = PropositionTree {
        label: Some(label),
        formula: FormulaTree::from_node(node),
    };
    let tree = stated(reader, proposition, room)?;
    let node = StatementNode::Compact(None, tree);
    Ok(StatementTree { node })
}

/// A statement.
#[cycle(reasonings)]
pub fn statement(reader: &mut Reader<'_>, room: usize) -> Result<StatementTree, Refusal>
    ensures { Reads statement_form room same_statement reader.old.rest.now result reader.new.rest.now }
{
    if let Some(then) = takes_key(reader, Keyword::Then) {
        return linked(reader, Some(then), room);
    }
    if definition_comes(reader) {
        return definition(reader, room);
    }
    if key_comes(reader, Keyword::Now) {
        return now_statement(reader, None, room);
    }
    if label_comes(reader) {
        let label = label(reader)?;
        return labelled(reader, label, room);
    }
    linked(reader, None, room)
}

/// `suppose` with its hypotheses and a reasoning.
#[cycle(reasonings)]
fn suppose(reader: &mut Reader<'_>, room: usize) -> Result<SupposeTree, Refusal>
    ensures { Reads suppose_form room same_suppose reader.old.rest.now result reader.new.rest.now }
{
    let word = opens_key(reader, Keyword::Suppose, room)?;
    let supposed = hypotheses(reader, room - 1)?;
    let behind = expect_key(reader, Keyword::Semicolon)?;
    let inside = reasoning(reader, room - 1)?;
    let end = expect_key(reader, Keyword::End)?;
    let semicolon = expect_key(reader, Keyword::Semicolon)?;
    let node = SupposeNode::Case(word, supposed, behind, inside, end, semicolon);
    Ok(SupposeTree { node })
}

/// Any number of cases.
#[cycle(reasonings)]
fn supposes(reader: &mut Reader<'_>, room: usize) -> Result<SupposeTrees, Refusal>
    ensures { Reads supposes_form room same_supposes reader.old.rest.now result reader.new.rest.now }
{
    let mut items = Vec::new(reader.alloc);
    'list: while key_comes(reader, Keyword::Suppose) {
        let tree = suppose(reader, room)?;
        items.push(tree)?;
    }
    Ok(SupposeTrees { items })
}

/// A split into cases, behind a `then` where there is one.
#[cycle(reasonings)]
fn cases(reader: &mut Reader<'_>, then: Option<Place>, room: usize) -> Result<StepTree, Refusal>
    ensures { ReadsCases then room reader.old.rest.now result reader.new.rest.now }
{
    let split = split(reader, then, room)?;
    let tree = suppose(reader, room)?;
    let first = Box::new(reader.alloc, tree)?;
    let more = supposes(reader, room)?;
    let node = StepNode::Cases(split, first, more);
    Ok(StepTree { node })
}

/// `hereby` with a reasoning.
#[cycle(reasonings)]
fn hereby(reader: &mut Reader<'_>, room: usize) -> Result<StepTree, Refusal>
    ensures { ReadsHereby room reader.old.rest.now result reader.new.rest.now }
{
    let (word, steps, end) = block(reader, Keyword::Hereby, room)?;
    let semicolon = expect_key(reader, Keyword::Semicolon)?;
    let node = StepNode::Hereby(word, steps, end, semicolon);
    Ok(StepTree { node })
}

/// `let`, `assume`, `given` or `take`.
fn skeleton(reader: &mut Reader<'_>, room: usize) -> Result<StepTree, Refusal>
    requires { comes begins_skeleton reader.old.rest.now ≡ true }
    ensures { Reads step_form room same_step reader.old.rest.now result reader.new.rest.now }
{
    if key_comes(reader, Keyword::Let) {
        let tree = let_step(reader, room)?;
        let node = StepNode::Skeleton(SkeletonTree::Let(tree));
        return Ok(StepTree { node });
    }
    if key_comes(reader, Keyword::Assume) {
        let tree = assume(reader, room)?;
        let node = StepNode::Skeleton(SkeletonTree::Assume(tree));
        return Ok(StepTree { node });
    }
    if key_comes(reader, Keyword::Given) {
        let tree = given(reader, room)?;
        let node = StepNode::Skeleton(SkeletonTree::Given(tree));
        return Ok(StepTree { node });
    }
    let tree = take(reader, room)?;
    let node = StepNode::Skeleton(SkeletonTree::Take(tree));
    Ok(StepTree { node })
}

/// `thus` or `hence` with a statement, or `hereby`.
#[cycle(reasonings)]
fn conclusion(reader: &mut Reader<'_>, room: usize) -> Result<StepTree, Refusal>
    requires { comes begins_conclusion reader.old.rest.now ≡ true }
    ensures { Reads step_form room same_step reader.old.rest.now result reader.new.rest.now }
{
    if let Some(thus) = takes_key(reader, Keyword::Thus) {
        let tree = compact(reader, room)?;
        let node = StepNode::Thus(thus, tree);
        return Ok(StepTree { node });
    }
    if let Some(hence) = takes_key(reader, Keyword::Hence) {
        let tree = compact(reader, room)?;
        let node = StepNode::Hence(hence, tree);
        return Ok(StepTree { node });
    }
    hereby(reader, room)
}

/// A step that is no split into cases.
#[cycle(reasonings)]
fn step(reader: &mut Reader<'_>, room: usize) -> Result<StepTree, Refusal>
    ensures { Reads step_form room same_step reader.old.rest.now result reader.new.rest.now }
{
    if skeleton_comes(reader) {
        return skeleton(reader, room);
    }
    if conclusion_comes(reader) {
        return conclusion(reader, room);
    }
    let tree = statement(reader, room)?;
    let tree = Box::new(reader.alloc, tree)?;
    let node = StepNode::Statement(tree);
    Ok(StepTree { node })
}

/// Steps, the last of which may be a split into cases.
#[cycle(reasonings)]
pub fn reasoning(reader: &mut Reader<'_>, room: usize) -> Result<Steps, Refusal>
    ensures { Reads reasoning_form room steps_of reader.old.rest.now result reader.new.rest.now }
{
    let mut items = Vec::new(reader.alloc);
    'steps: while step_comes(reader) {
        if cases_come(reader) {
            let then = takes_key(reader, Keyword::Then);
            let tree = cases(reader, then, room)?;
            items.push(tree)?;
            return Ok(Steps { items });
        }
        let tree = step(reader, room)?;
        items.push(tree)?;
    }
    Ok(Steps { items })
}
