//! Theorems and schemes.
ghost use Rattle.std.specs.Prelude.{◌≡◌};
ghost use Rattle.mz_forms.specs.Reading.{Reads};
ghost use Rattle.mz_ppattern.specs.Optional.{plainly};
ghost use Rattle.mz_pblock.specs.Forms.{optional_provided, provided_form, scheme_form, scheme_head_form, scheme_of, scheme_rest_form, theorem_form};

use mz_base::place::Place;
use mz_forms::refusal::Refusal;
use mz_pformula::formulas::formula;
use mz_pjustification::keyword::Keyword;
use mz_pjustification::words::expect_key;
use mz_ppart::reserves::parameters;
use mz_ppattern::words::{expect_word, word_comes};
use mz_pproof::reasonings::justification;
use mz_pproposition::propositions::{proposition, propositions};
use mz_pterm::reader::Reader;
use mz_pterm::sign::Sign;
use mz_tree::expressions::FormulaTree;
use mz_tree::lists::Separated;
use mz_tree::word::Word;
use mz_tree_item::schemes::{ProvidedTree, SchemeTree, TheoremTree};
use mz_tree_part::parameter::ParameterTree;
use mz_tree_proof::reasoning::JustTree;

/// A scheme up to its parameters.
#[derive(Drop)]
pub struct SchemeHead {
    pub scheme: Place,
    pub name: Word,
    pub left: Place,
    pub parameters: Separated<ParameterTree>,
    pub right: Place,
}

/// What stands behind the parameters of a scheme.
#[derive(Drop)]
pub struct SchemeRest {
    pub colon: Place,
    pub formula: FormulaTree,
    pub provided: Option<ProvidedTree>,
    pub just: JustTree,
    pub semicolon: Place,
}

/// A theorem.
pub fn theorem(reader: &mut Reader<'_>, room: usize) -> Result<TheoremTree, Refusal>
    ensures { Reads theorem_form room plainly reader.old.rest.now result reader.new.rest.now }
{
    let theorem = expect_word(reader, b"theorem")?;
    let proposition = proposition(reader, room)?;
    let just = justification(reader, room)?;
    let semicolon = expect_key(reader, Keyword::Semicolon)?;
    Ok(TheoremTree {
        theorem,
        proposition,
        just,
        semicolon,
    })
}

/// The premises of a scheme.
fn provided(reader: &mut Reader<'_>, room: usize) -> Result<ProvidedTree, Refusal>
    ensures { Reads provided_form room plainly reader.old.rest.now result reader.new.rest.now }
{
    let provided = expect_word(reader, b"provided")?;
    let propositions = propositions(reader, room)?;
    Ok(ProvidedTree {
        provided,
        propositions,
    })
}

/// The premises of a scheme, or nothing.
fn maybe_provided(reader: &mut Reader<'_>, room: usize) -> Result<Option<ProvidedTree>, Refusal>
    ensures { Reads optional_provided room plainly reader.old.rest.now result reader.new.rest.now }
{
    if !word_comes(reader, b"provided") {
        return Ok(None);
    }
    let provided = provided(reader, room)?;
    Ok(Some(provided))
}

/// A scheme up to its parameters.
fn scheme_head(reader: &mut Reader<'_>, room: usize) -> Result<SchemeHead, Refusal>
    ensures { Reads scheme_head_form room plainly reader.old.rest.now result reader.new.rest.now }
{
    let scheme = expect_word(reader, b"scheme")?;
    let name = reader.expect_name(Sign::Identifier)?;
    let left = reader.opens(Sign::OpenBrace, room)?;
    let parameters = parameters(reader, room - 1)?;
    let right = reader.expect(Sign::CloseBrace)?;
    Ok(SchemeHead {
        scheme,
        name,
        left,
        parameters,
        right,
    })
}

/// What stands behind the parameters of a scheme.
fn scheme_rest(reader: &mut Reader<'_>, room: usize) -> Result<SchemeRest, Refusal>
    ensures { Reads scheme_rest_form room plainly reader.old.rest.now result reader.new.rest.now }
{
    let colon = expect_key(reader, Keyword::Colon)?;
    let node = formula(reader, false, room)?;
    let provided = maybe_provided(reader, room)?;
    let just = justification(reader, room)?;
    let semicolon = expect_key(reader, Keyword::Semicolon)?;
    Ok(SchemeRest {
        colon,
        formula: FormulaTree::from_node(node),
        provided,
        just,
        semicolon,
    })
}

/// The scheme of these parts.
fn scheme_of(head: SchemeHead, rest: SchemeRest) -> SchemeTree
    ensures { result ≡ scheme_of head rest }
{
    SchemeTree {
        scheme: head.scheme,
        name: head.name,
        left: head.left,
        parameters: head.parameters,
        right: head.right,
        colon: rest.colon,
        formula: rest.formula,
        provided: rest.provided,
        just: rest.just,
        semicolon: rest.semicolon,
    }
}

/// A scheme.
pub fn scheme(reader: &mut Reader<'_>, room: usize) -> Result<SchemeTree, Refusal>
    ensures { Reads scheme_form room plainly reader.old.rest.now result reader.new.rest.now }
{
    let head = scheme_head(reader, room)?;
    let rest = scheme_rest(reader, room)?;
    Ok(scheme_of(head, rest))
}
