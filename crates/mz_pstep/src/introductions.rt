//! Statements that introduce names, in the order of the grammar. A `then` stands before them where there is one.
ghost use Rattle.std.specs.Prelude.{◌≡◌, ◌<◌, true};
ghost use Rattle.mz_forms.specs.Reading.{Reads};
ghost use Rattle.mz_pterm.specs.Classes.{closes};
ghost use Rattle.mz_pstep.specs.Forms.{
  closing_form,
  deffunc_form,
  defpred_form,
  same_closing,
  same_deffunc,
  same_defpred,
  same_set,
  set_statement_form,
  ReadsConsider,
  ReadsReconsider,
};

use crate::equalities::{expect_equals, expect_set};
use crate::lists::{named_terms, retypeds, types};
use mz_base::place::Place;
use mz_forms::refusal::Refusal;
use mz_pformula::formulas::formula;
use mz_pjustification::keyword::Keyword;
use mz_pjustification::simple::simple;
use mz_pjustification::words::expect_key;
use mz_pproposition::propositions::such;
use mz_pterm::reader::Reader;
use mz_pterm::sign::Sign;
use mz_ptype::declarations::declarations;
use mz_ptype::types::whole_type;
use mz_tree::expressions::{DeclarationsTree, FormulaTree, TermTree, TypeTree};
use mz_tree::lists::Separated;
use mz_tree_proof::introduction::{
    ConsiderTree, DeffuncTree, DefpredTree, ReconsiderTree, SetTree,
};

/// `consider` with declarations, their conditions and a justification.
pub fn consider(
    reader: &mut Reader<'_>,
    then: Option<Place>,
    room: usize,
) -> Result<ConsiderTree, Refusal>
    ensures { ReadsConsider then room reader.old.rest.now result reader.new.rest.now }
{
    let consider = expect_key(reader, Keyword::Consider)?;
    let node = declarations(reader, false, room)?;
    let such = such(reader, room)?;
    let simple = simple(reader, room)?;
    let semicolon = expect_key(reader, Keyword::Semicolon)?;
    let declarations = DeclarationsTree::from_node(node);
    Ok(ConsiderTree {
        then,
        consider,
        declarations,
        such,
        simple,
        semicolon,
    })
}

/// `reconsider` with terms, their type and a justification.
pub fn reconsider(
    reader: &mut Reader<'_>,
    then: Option<Place>,
    room: usize,
) -> Result<ReconsiderTree, Refusal>
    ensures { ReadsReconsider then room reader.old.rest.now result reader.new.rest.now }
{
    let reconsider = expect_key(reader, Keyword::Reconsider)?;
    let retyped = retypeds(reader, room)?;
    let as_ = expect_key(reader, Keyword::As)?;
    let node = whole_type(reader, false, room)?;
    let simple = simple(reader, room)?;
    let semicolon = expect_key(reader, Keyword::Semicolon)?;
    let ty = TypeTree::from_node(node);
    Ok(ReconsiderTree {
        then,
        reconsider,
        retyped,
        as_,
        ty,
        simple,
        semicolon,
    })
}

/// `set` with names for terms.
pub fn set_statement(reader: &mut Reader<'_>, room: usize) -> Result<SetTree, Refusal>
    ensures { Reads set_statement_form room same_set reader.old.rest.now result reader.new.rest.now }
{
    let set = expect_set(reader)?;
    let named = named_terms(reader, room)?;
    let semicolon = expect_key(reader, Keyword::Semicolon)?;
    Ok(SetTree {
        set,
        named,
        semicolon,
    })
}

/// Types or nothing, and the bracket that closes. `room` counts the bracket that is open.
fn closing(
    reader: &mut Reader<'_>,
    closing: Sign,
    room: usize,
) -> Result<(Option<Separated<TypeTree>>, Place), Refusal>
    requires closing { closes closing ≡ true }
    requires room { 0 < room }
    ensures { Reads (closing_form closing) room same_closing reader.old.rest.now result reader.new.rest.now }
{
    if let Some(place) = reader.takes(closing) {
        return Ok((None, place));
    }
    let list = types(reader, room - 1)?;
    let place = reader.expect(closing)?;
    Ok((Some(list), place))
}

/// `deffunc` with the name of a private functor, the types of its arguments and a term.
pub fn deffunc(reader: &mut Reader<'_>, room: usize) -> Result<DeffuncTree, Refusal>
    ensures { Reads deffunc_form room same_deffunc reader.old.rest.now result reader.new.rest.now }
{
    let deffunc = expect_key(reader, Keyword::Deffunc)?;
    let name = reader.expect_name(Sign::Identifier)?;
    let left = reader.opens(Sign::Open, room)?;
    let (types, right) = closing(reader, Sign::Close, room)?;
    let equals = expect_equals(reader)?;
    let node = reader.term(false, room)?;
    let semicolon = expect_key(reader, Keyword::Semicolon)?;
    let term = TermTree::from_node(node);
    Ok(DeffuncTree {
        deffunc,
        name,
        left,
        types,
        right,
        equals,
        term,
        semicolon,
    })
}

/// `defpred` with the name of a private predicate, the types of its arguments and a formula.
pub fn defpred(reader: &mut Reader<'_>, room: usize) -> Result<DefpredTree, Refusal>
    ensures { Reads defpred_form room same_defpred reader.old.rest.now result reader.new.rest.now }
{
    let defpred = expect_key(reader, Keyword::Defpred)?;
    let name = reader.expect_name(Sign::Identifier)?;
    let left = reader.opens(Sign::OpenSquare, room)?;
    let (types, right) = closing(reader, Sign::CloseSquare, room)?;
    let means = expect_key(reader, Keyword::Means)?;
    let node = formula(reader, false, room)?;
    let semicolon = expect_key(reader, Keyword::Semicolon)?;
    let formula = FormulaTree::from_node(node);
    Ok(DefpredTree {
        defpred,
        name,
        left,
        types,
        right,
        means,
        formula,
        semicolon,
    })
}
