//! Clusters whose first token is a parenthesis.
//!
//! Terms in parentheses are the arguments of the first adjective where an attribute stands behind them, and else they
//! begin a term. So they are read before this is decided.
ghost use Rattle.mz_pterm.specs.Forms.{bracketed_of};
ghost use Rattle.mz_pcluster.specs.Forms.{ReadsAttributed, ReadsBehindGroup, ReadsContinued, ReadsGroup};

use crate::parts::{RegisteredTree, assigned, attribute_comes, behind};
use mz_forms::refusal::Refusal;
use mz_pterm::reader::Reader;
use mz_pterm::sign::Sign;
use mz_pterm::terms::{Bracketed, Last};
use mz_ptype::adjectives::adjective_list;
use mz_tree::expressions::{AdjectivesTree, TermTree};
use mz_tree::nodes::{AdjectiveNode, BaseNode, OperandNode, PieceNode};

/// The adjectives of which the first has these terms, and what stands behind them.
fn attributed(
    reader: &mut Reader<'_>,
    inside: Bracketed,
    room: usize,
) -> Result<RegisteredTree, Refusal>
    ensures { ReadsAttributed room (bracketed_of inside) reader.old.rest.now result reader.new.rest.now }
{
    let attribute = reader.expect_name(Sign::Attribute)?;
    let more = adjective_list(reader, false, room)?;
    let behind = behind(reader, room)?;
    let first = AdjectiveNode::WithTerms(None, inside.open, inside.terms, inside.close, attribute);
    Ok(RegisteredTree::Adjectives(AdjectivesTree::from_nodes(first, more), behind))
}

/// The term that begins with these terms, and what stands behind it.
fn continued(
    reader: &mut Reader<'_>,
    inside: Bracketed,
    room: usize,
) -> Result<RegisteredTree, Refusal>
    ensures { ReadsContinued room (bracketed_of inside) reader.old.rest.now result reader.new.rest.now }
{
    let base = Box::new(
        reader.alloc,
        BaseNode::Group(inside.open, inside.terms, inside.close),
    )?;
    let prefixes = Vec::new(reader.alloc);
    let operand = OperandNode { prefixes, base };
    let last = Last::Start.after(&operand);
    let node = reader.rest_of_term(PieceNode::Operand(operand), last, false, room)?;
    let assigned = assigned(reader, room)?;
    Ok(RegisteredTree::Term(TermTree::from_node(node), assigned))
}

/// What stands behind terms in parentheses.
fn behind_group(
    reader: &mut Reader<'_>,
    inside: Bracketed,
    room: usize,
) -> Result<RegisteredTree, Refusal>
    ensures { ReadsBehindGroup room (bracketed_of inside) reader.old.rest.now result reader.new.rest.now }
{
    if attribute_comes(reader) {
        return attributed(reader, inside, room);
    }
    continued(reader, inside, room)
}

/// What begins with terms in parentheses.
pub fn group(reader: &mut Reader<'_>, room: usize) -> Result<RegisteredTree, Refusal>
    ensures { ReadsGroup room reader.old.rest.now result reader.new.rest.now }
{
    let inside = reader.bracketed(Sign::Open, Sign::Close, false, room)?;
    behind_group(reader, inside, room)
}
