//! Steps that need no justification, and the beginning of a split into cases.
ghost use Rattle.mz_forms.specs.Reading.{Reads};
ghost use Rattle.mz_pstep.specs.Forms.{
  assume_form,
  given_form,
  let_form,
  maybe_such_form,
  same_assume,
  same_given,
  same_let,
  same_maybe_such,
  same_take,
  take_form,
  ReadsSplit,
};

use crate::lists::takens;
use mz_base::place::Place;
use mz_forms::refusal::Refusal;
use mz_pjustification::keyword::Keyword;
use mz_pjustification::simple::simple;
use mz_pjustification::words::expect_key;
use mz_pproposition::propositions::{hypotheses, such};
use mz_pterm::reader::Reader;
use mz_ptype::declarations::declarations;
use mz_tree::expressions::DeclarationsTree;
use mz_tree_proof::propositions::SuchTree;
use mz_tree_proof::skeleton::{AssumeTree, GivenTree, LetTree, SplitTree, TakeTree};

/// Conditions, or nothing.
fn maybe_such(reader: &mut Reader<'_>, room: usize) -> Result<Option<SuchTree>, Refusal>
    ensures { Reads maybe_such_form room same_maybe_such reader.old.rest.now result reader.new.rest.now }
{
    let Some((next, _)) = reader.rest.split_first() else {
        return Ok(None);
    };
    if !Keyword::of(next).is(Keyword::Such) {
        return Ok(None);
    }
    let tree = such(reader, room)?;
    Ok(Some(tree))
}

/// `let` with declarations, with conditions or without.
pub fn let_step(reader: &mut Reader<'_>, room: usize) -> Result<LetTree, Refusal>
    ensures { Reads let_form room same_let reader.old.rest.now result reader.new.rest.now }
{
    let let_ = expect_key(reader, Keyword::Let)?;
    let node = declarations(reader, false, room)?;
    let such = maybe_such(reader, room)?;
    let semicolon = expect_key(reader, Keyword::Semicolon)?;
    let declarations = DeclarationsTree::from_node(node);
    Ok(LetTree {
        let_,
        declarations,
        such,
        semicolon,
    })
}

/// `assume` with hypotheses.
pub fn assume(reader: &mut Reader<'_>, room: usize) -> Result<AssumeTree, Refusal>
    ensures { Reads assume_form room same_assume reader.old.rest.now result reader.new.rest.now }
{
    let assume = expect_key(reader, Keyword::Assume)?;
    let hypotheses = hypotheses(reader, room)?;
    let semicolon = expect_key(reader, Keyword::Semicolon)?;
    Ok(AssumeTree {
        assume,
        hypotheses,
        semicolon,
    })
}

/// `given` with declarations and their conditions.
pub fn given(reader: &mut Reader<'_>, room: usize) -> Result<GivenTree, Refusal>
    ensures { Reads given_form room same_given reader.old.rest.now result reader.new.rest.now }
{
    let given = expect_key(reader, Keyword::Given)?;
    let node = declarations(reader, false, room)?;
    let such = such(reader, room)?;
    let semicolon = expect_key(reader, Keyword::Semicolon)?;
    let declarations = DeclarationsTree::from_node(node);
    Ok(GivenTree {
        given,
        declarations,
        such,
        semicolon,
    })
}

/// `take` with examples.
pub fn take(reader: &mut Reader<'_>, room: usize) -> Result<TakeTree, Refusal>
    ensures { Reads take_form room same_take reader.old.rest.now result reader.new.rest.now }
{
    let take = expect_key(reader, Keyword::Take)?;
    let taken = takens(reader, room)?;
    let semicolon = expect_key(reader, Keyword::Semicolon)?;
    Ok(TakeTree {
        take,
        taken,
        semicolon,
    })
}

/// `per cases` with a justification. A `then` stands before it where there is one.
pub fn split(
    reader: &mut Reader<'_>,
    then: Option<Place>,
    room: usize,
) -> Result<SplitTree, Refusal>
    ensures { ReadsSplit then room reader.old.rest.now result reader.new.rest.now }
{
    let per = expect_key(reader, Keyword::Per)?;
    let cases = expect_key(reader, Keyword::Cases)?;
    let simple = simple(reader, room)?;
    let semicolon = expect_key(reader, Keyword::Semicolon)?;
    Ok(SplitTree {
        then,
        per,
        cases,
        simple,
        semicolon,
    })
}
