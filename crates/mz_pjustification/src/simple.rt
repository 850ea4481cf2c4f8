//! Justifications without a proof.
ghost use Rattle.mz_forms.specs.Reading.{Reads};
ghost use Rattle.mz_pjustification.specs.Forms.{maybe_premises, premises_form, same_maybe_premises, same_premises, same_simple, simple_form};

use crate::keyword::Keyword;
use crate::references::{references, scheme};
use crate::words::takes_key;
use mz_forms::refusal::Refusal;
use mz_pterm::reader::Reader;
use mz_pterm::sign::Sign;
use mz_tree_proof::references::{PremisesTree, SimpleTree};

/// References in parentheses.
fn premises(reader: &mut Reader<'_>, room: usize) -> Result<PremisesTree, Refusal>
    ensures { Reads premises_form room same_premises reader.old.rest.now result reader.new.rest.now }
{
    let left = reader.opens(Sign::Open, room)?;
    let references = references(reader)?;
    let right = reader.expect(Sign::Close)?;
    Ok(PremisesTree {
        left,
        references,
        right,
    })
}

/// References in parentheses, or nothing.
fn optional_premises(reader: &mut Reader<'_>, room: usize) -> Result<Option<PremisesTree>, Refusal>
    ensures { Reads maybe_premises room same_maybe_premises reader.old.rest.now result reader.new.rest.now }
{
    let Some((next, _)) = reader.rest.split_first() else {
        return Ok(None);
    };
    if !Sign::of(next).is(Sign::Open) {
        return Ok(None);
    }
    let tree = premises(reader, room)?;
    Ok(Some(tree))
}

/// `by` with references, `from` with a scheme and its premises, or nothing. `room` says how many constructs may still be
/// opened within one another.
pub fn simple(reader: &mut Reader<'_>, room: usize) -> Result<SimpleTree, Refusal>
    ensures { Reads simple_form room same_simple reader.old.rest.now result reader.new.rest.now }
{
    if let Some(by) = takes_key(reader, Keyword::By) {
        let references = references(reader)?;
        return Ok(SimpleTree::By { by, references });
    }
    let Some(from) = takes_key(reader, Keyword::From) else {
        return Ok(SimpleTree::Nothing);
    };
    let scheme = scheme(reader)?;
    let premises = optional_premises(reader, room)?;
    Ok(SimpleTree::From {
        from,
        scheme,
        premises,
    })
}
