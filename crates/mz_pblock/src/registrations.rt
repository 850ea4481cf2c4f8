//! Blocks of registrations.
ghost use Rattle.std.specs.Prelude.{◌≡◌};
ghost use Rattle.mz_forms.specs.Reading.{Reads};
ghost use Rattle.mz_ppattern.specs.Optional.{next_has, plainly};
ghost use Rattle.mz_pblock.specs.Classes.{begins_registration_part};
ghost use Rattle.mz_pblock.specs.Forms.{registered_form, registration_form, registration_part_form, registration_parts_form};

use crate::conditions::conditions;
use mz_forms::refusal::Refusal;
use mz_pcluster::clusters::cluster;
use mz_pjustification::keyword::Keyword;
use mz_pjustification::words::expect_key;
use mz_ppart::notations::{block_let, let_comes};
use mz_ppattern::words::{expect_word, is_word};
use mz_pterm::reader::Reader;
use mz_tree::lists::Trees;
use mz_tree_item::registration::{RegistrationPartTree, RegistrationTree};

/// A cluster with its conditions.
fn registered(reader: &mut Reader<'_>, room: usize) -> Result<RegistrationPartTree, Refusal>
    ensures { Reads registered_form room plainly reader.old.rest.now result reader.new.rest.now }
{
    let cluster = cluster(reader, room)?;
    let conditions = conditions(reader, room)?;
    Ok(RegistrationPartTree::Cluster {
        cluster,
        conditions,
    })
}

/// A part of a block of registrations: loci, or a cluster with its conditions.
fn registration_part(reader: &mut Reader<'_>, room: usize) -> Result<RegistrationPartTree, Refusal>
    ensures { Reads registration_part_form room plainly reader.old.rest.now result reader.new.rest.now }
{
    if let_comes(reader) {
        let loci = block_let(reader, room)?;
        return Ok(RegistrationPartTree::Let(loci));
    }
    registered(reader, room)
}

/// Whether a part of a block of registrations begins with the next token.
fn registration_part_comes(reader: &Reader<'_>) -> bool
    ensures { result ≡ next_has begins_registration_part reader.now.rest.now }
{
    let Some((next, _)) = reader.rest.split_first() else {
        return false;
    };
    if is_word(next, b"cluster") {
        return true;
    }
    matches!(Keyword::of(next), Keyword::Let)
}

/// Any number of parts of a block of registrations.
fn registration_parts(
    reader: &mut Reader<'_>,
    room: usize,
) -> Result<Trees<RegistrationPartTree>, Refusal>
    ensures { Reads registration_parts_form room plainly reader.old.rest.now result reader.new.rest.now }
{
    let mut items = Vec::new(reader.alloc);
    'list: while registration_part_comes(reader) {
        let next = registration_part(reader, room)?;
        items.push(next)?;
    }
    Ok(Trees { items })
}

/// A block of registrations.
pub fn registration(reader: &mut Reader<'_>, room: usize) -> Result<RegistrationTree, Refusal>
    ensures { Reads registration_form room plainly reader.old.rest.now result reader.new.rest.now }
{
    let registration = expect_word(reader, b"registration")?;
    let parts = registration_parts(reader, room)?;
    let end = expect_key(reader, Keyword::End)?;
    let semicolon = expect_key(reader, Keyword::Semicolon)?;
    Ok(RegistrationTree {
        registration,
        parts,
        end,
        semicolon,
    })
}
