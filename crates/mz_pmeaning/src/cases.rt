//! Definientia, with cases or without: formulas behind `means`, terms behind `equals`.
ghost use Rattle.mz_forms.specs.Reading.{Reads};
ghost use Rattle.mz_ppattern.specs.Optional.{plainly};
ghost use Rattle.mz_pmeaning.specs.CaseForms.{cases_form, formula_body, optional_otherwise, otherwise_form, term_body, ReadsCase, ReadsCases, ReadsCondition};

use mz_base::place::Place;
use mz_forms::refusal::Refusal;
use mz_pformula::formulas::formula;
use mz_ppattern::words::{expect_word, takes_word, word_comes};
use mz_pterm::reader::Reader;
use mz_ptype::declarations::takes_comma;
use mz_tree::chain::Next;
use mz_tree::expressions::{FormulaTree, TermTree};
use mz_tree::lists::{Separated, Trees};
use mz_tree_heading::meaning::{CaseTree, CasesTree, OtherwiseTree};

/// The condition of a case. Where a list of terms stands last in it, no comma of a list comes next.
fn condition(reader: &mut Reader<'_>, room: usize) -> Result<FormulaTree, Refusal>
    ensures { ReadsCondition room reader.old.rest.now result reader.new.rest.now }
{
    let node = formula(reader, false, room)?;
    Ok(FormulaTree::from_node(node))
}

/// A formula that is a definiens.
fn formula_body(reader: &mut Reader<'_>, room: usize) -> Result<FormulaTree, Refusal>
    ensures { Reads formula_body room plainly reader.old.rest.now result reader.new.rest.now }
{
    let node = formula(reader, false, room)?;
    Ok(FormulaTree::from_node(node))
}

/// A term that is a definiens.
fn term_body(reader: &mut Reader<'_>, room: usize) -> Result<TermTree, Refusal>
    ensures { Reads term_body room plainly reader.old.rest.now result reader.new.rest.now }
{
    let node = reader.term(false, room)?;
    Ok(TermTree::from_node(node))
}

/// A formula with its condition.
fn formula_case(reader: &mut Reader<'_>, room: usize) -> Result<CaseTree<FormulaTree>, Refusal>
    ensures { ReadsCase formula_body room reader.old.rest.now result reader.new.rest.now }
{
    let body = formula_body(reader, room)?;
    let if_ = expect_word(reader, b"if")?;
    let condition = condition(reader, room)?;
    Ok(CaseTree {
        body,
        if_,
        condition,
    })
}

/// A term with its condition.
fn term_case(reader: &mut Reader<'_>, room: usize) -> Result<CaseTree<TermTree>, Refusal>
    ensures { ReadsCase term_body room reader.old.rest.now result reader.new.rest.now }
{
    let body = term_body(reader, room)?;
    let if_ = expect_word(reader, b"if")?;
    let condition = condition(reader, room)?;
    Ok(CaseTree {
        body,
        if_,
        condition,
    })
}

/// Cases with commas between them, behind the first formula and its `if`.
fn formula_cases(
    reader: &mut Reader<'_>,
    body: FormulaTree,
    if_: Place,
    room: usize,
) -> Result<Separated<CaseTree<FormulaTree>>, Refusal>
    ensures { ReadsCases formula_body room body if_ reader.old.rest.now result reader.new.rest.now }
{
    let condition = condition(reader, room)?;
    let first = CaseTree {
        body,
        if_,
        condition,
    };
    let mut items = Vec::new(reader.alloc);
    'more: while let Some(sign) = takes_comma(reader, false) {
        let tree = formula_case(reader, room)?;
        items.push(Next { sign, tree })?;
    }
    let more = Trees { items };
    Ok(Separated { first, more })
}

/// Cases with commas between them, behind the first term and its `if`.
fn term_cases(
    reader: &mut Reader<'_>,
    body: TermTree,
    if_: Place,
    room: usize,
) -> Result<Separated<CaseTree<TermTree>>, Refusal>
    ensures { ReadsCases term_body room body if_ reader.old.rest.now result reader.new.rest.now }
{
    let condition = condition(reader, room)?;
    let first = CaseTree {
        body,
        if_,
        condition,
    };
    let mut items = Vec::new(reader.alloc);
    'more: while let Some(sign) = takes_comma(reader, false) {
        let tree = term_case(reader, room)?;
        items.push(Next { sign, tree })?;
    }
    let more = Trees { items };
    Ok(Separated { first, more })
}

/// `otherwise` and a formula.
fn formula_otherwise(
    reader: &mut Reader<'_>,
    room: usize,
) -> Result<OtherwiseTree<FormulaTree>, Refusal>
    ensures { Reads (otherwise_form formula_body) room plainly reader.old.rest.now result reader.new.rest.now }
{
    let otherwise = expect_word(reader, b"otherwise")?;
    let body = formula_body(reader, room)?;
    Ok(OtherwiseTree { otherwise, body })
}

/// `otherwise` and a term.
fn term_otherwise(reader: &mut Reader<'_>, room: usize) -> Result<OtherwiseTree<TermTree>, Refusal>
    ensures { Reads (otherwise_form term_body) room plainly reader.old.rest.now result reader.new.rest.now }
{
    let otherwise = expect_word(reader, b"otherwise")?;
    let body = term_body(reader, room)?;
    Ok(OtherwiseTree { otherwise, body })
}

/// `otherwise` and a formula, or nothing.
fn maybe_formula_otherwise(
    reader: &mut Reader<'_>,
    room: usize,
) -> Result<Option<OtherwiseTree<FormulaTree>>, Refusal>
    ensures { Reads (optional_otherwise formula_body) room plainly reader.old.rest.now result reader.new.rest.now }
{
    if !word_comes(reader, b"otherwise") {
        return Ok(None);
    }
    let otherwise = formula_otherwise(reader, room)?;
    Ok(Some(otherwise))
}

/// `otherwise` and a term, or nothing.
fn maybe_term_otherwise(
    reader: &mut Reader<'_>,
    room: usize,
) -> Result<Option<OtherwiseTree<TermTree>>, Refusal>
    ensures { Reads (optional_otherwise term_body) room plainly reader.old.rest.now result reader.new.rest.now }
{
    if !word_comes(reader, b"otherwise") {
        return Ok(None);
    }
    let otherwise = term_otherwise(reader, room)?;
    Ok(Some(otherwise))
}

/// What stands behind `means` and its label: a formula, or formulas with their conditions.
pub fn means_cases(reader: &mut Reader<'_>, room: usize) -> Result<CasesTree<FormulaTree>, Refusal>
    ensures { Reads (cases_form formula_body) room plainly reader.old.rest.now result reader.new.rest.now }
{
    let body = formula_body(reader, room)?;
    let Some(if_) = takes_word(reader, b"if") else {
        return Ok(CasesTree::Plain(body));
    };
    let cases = formula_cases(reader, body, if_, room)?;
    let otherwise = maybe_formula_otherwise(reader, room)?;
    Ok(CasesTree::Cases { cases, otherwise })
}

/// What stands behind `equals` and its label: a term, or terms with their conditions.
pub fn equals_cases(reader: &mut Reader<'_>, room: usize) -> Result<CasesTree<TermTree>, Refusal>
    ensures { Reads (cases_form term_body) room plainly reader.old.rest.now result reader.new.rest.now }
{
    let body = term_body(reader, room)?;
    let Some(if_) = takes_word(reader, b"if") else {
        return Ok(CasesTree::Plain(body));
    };
    let cases = term_cases(reader, body, if_, room)?;
    let otherwise = maybe_term_otherwise(reader, room)?;
    Ok(CasesTree::Cases { cases, otherwise })
}
