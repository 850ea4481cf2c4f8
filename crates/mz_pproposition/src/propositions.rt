//! Propositions, in the order of the grammar.
ghost use Rattle.std.specs.Prelude.{◌≡◌, ℕ};
ghost use Rattle.mz_forms.specs.Reading.{Reads};
ghost use Rattle.mz_pproposition.specs.Forms.{
  hypotheses_form,
  label_form,
  label_next,
  more_propositions,
  proposition_form,
  propositions_form,
  same_hypotheses,
  same_label,
  same_more,
  same_proposition,
  same_propositions,
  same_such,
  such_form,
};

use mz_forms::refusal::Refusal;
use mz_pformula::formulas::formula;
use mz_pjustification::keyword::Keyword;
use mz_pjustification::words::{expect_key, takes_key};
use mz_pterm::reader::Reader;
use mz_pterm::sign::Sign;
use mz_tree::expressions::FormulaTree;
use mz_tree::lists::Trees;
use mz_tree_proof::propositions::{
    AndPropositionTree, HypothesesTree, PropositionTree, PropositionsTree, SuchTree,
};
use mz_tree_proof::references::LabelTree;

/// Whether an identifier comes next and a `:` behind it.
pub fn label_comes(reader: &Reader<'_>) -> bool
    ensures { result ≡ label_next reader.now.rest.now }
{
    let Some((next, rest)) = reader.rest.split_first() else {
        return false;
    };
    if !Sign::of(next).is(Sign::Identifier) {
        return false;
    }
    let Some((second, _)) = rest.split_first() else {
        return false;
    };
    Keyword::of(second).is(Keyword::Colon)
}

/// A label and its colon.
pub fn label(reader: &mut Reader<'_>) -> Result<LabelTree, Refusal>
    ensures { (room : ℕ) → Reads label_form room same_label reader.old.rest.now result reader.new.rest.now }
{
    let name = reader.expect_name(Sign::Identifier)?;
    let colon = expect_key(reader, Keyword::Colon)?;
    Ok(LabelTree { name, colon })
}

/// A formula, with a label or without. `room` says how many constructs may still be opened within one another.
pub fn proposition(reader: &mut Reader<'_>, room: usize) -> Result<PropositionTree, Refusal>
    ensures { Reads proposition_form room same_proposition reader.old.rest.now result reader.new.rest.now }
{
    if label_comes(reader) {
        let label = label(reader)?;
        let node = formula(reader, false, room)?;
        return Ok(PropositionTree {
            label: Some(label),
            formula: FormulaTree::from_node(node),
        });
    }
    let node = formula(reader, false, room)?;
    Ok(PropositionTree {
        label: None,
        formula: FormulaTree::from_node(node),
    })
}

/// Any number of propositions, each behind an `and`.
fn further(reader: &mut Reader<'_>, room: usize) -> Result<Trees<AndPropositionTree>, Refusal>
    ensures { Reads more_propositions room same_more reader.old.rest.now result reader.new.rest.now }
{
    let mut items = Vec::new(reader.alloc);
    'list: while let Some(and) = takes_key(reader, Keyword::And) {
        let proposition = proposition(reader, room)?;
        items.push(AndPropositionTree { and, proposition })?;
    }
    Ok(Trees { items })
}

/// Propositions with `and` between them.
pub fn propositions(reader: &mut Reader<'_>, room: usize) -> Result<PropositionsTree, Refusal>
    ensures { Reads propositions_form room same_propositions reader.old.rest.now result reader.new.rest.now }
{
    let first = proposition(reader, room)?;
    let more = further(reader, room)?;
    Ok(PropositionsTree { first, more })
}

/// What is assumed: a proposition, or `that` and propositions.
pub fn hypotheses(reader: &mut Reader<'_>, room: usize) -> Result<HypothesesTree, Refusal>
    ensures { Reads hypotheses_form room same_hypotheses reader.old.rest.now result reader.new.rest.now }
{
    match takes_key(reader, Keyword::That) {
        Some(that) => {
            let propositions = propositions(reader, room)?;
            Ok(HypothesesTree::That { that, propositions })
        }
        None => {
            let proposition = proposition(reader, room)?;
            Ok(HypothesesTree::One(proposition))
        }
    }
}

/// `such that` and propositions.
pub fn such(reader: &mut Reader<'_>, room: usize) -> Result<SuchTree, Refusal>
    ensures { Reads such_form room same_such reader.old.rest.now result reader.new.rest.now }
{
    let such = expect_key(reader, Keyword::Such)?;
    let that = expect_key(reader, Keyword::That)?;
    let propositions = propositions(reader, room)?;
    Ok(SuchTree {
        such,
        that,
        propositions,
    })
}
