//! How items change labels, counts and what is in force.
ghost use Rattle.std.specs.Prelude.{◌≡◌, ◌++◌, OnOk};
ghost use Rattle.mz_context.specs.Changes.{labelled};
ghost use Rattle.mz_items.specs.Items.{definitional_theorem};
ghost use Rattle.mz_standing.specs.Standing.{with_label, labelled_if_any, behind_heading, behind_scheme, behind_block};

use crate::counts::count_item;
use crate::standing::Standing;
use mz_base::text::Text;
use mz_context::context::Context;
use mz_context::labelled::LabelledStatements;
use mz_context::labelled_schemes::LabelledScheme;
use mz_core::item::Item;
use mz_core::statement::Statement;
use mz_items::theses::definitional_theorem;
use std::alloc::{AllocError, Global};

/// Puts a statement under a label, where there is one: it can be cited from here on.
pub fn put_label(
    alloc: Global,
    s: &mut Standing,
    label: Text,
    statement: &Statement,
) -> Result<(), AllocError>
    ensures { OnOk result (s.new ≡ with_label s.old label statement.now) }
{
    s.context.labelled.push_if_any(alloc, label, statement)
}

/// Puts what can be cited of an item under a label, where there are both.
fn put_theorem_of(
    alloc: Global,
    statements: &mut LabelledStatements,
    item: &Item,
    label: Text,
) -> Result<(), AllocError>
    ensures { OnOk result (statements.new ≡ statements.old ++ labelled_if_any label (definitional_theorem item.now)) }
{
    match definitional_theorem(alloc, item)? {
        Some(s) => statements.push_if_any(alloc, label, &s),
        None => Ok(()),
    }
}

/// Changes the context behind a heading that made an item: the item's symbols are counted, what can be cited of it has the label of its
/// definiens, where there is one, and there is no statement just before.
pub fn end_heading(
    alloc: Global,
    ctx: &mut Context,
    item: &Item,
    label: Text,
) -> Result<(), AllocError>
    ensures { OnOk result (ctx.new ≡ behind_heading ctx.old item.now label) }
{
    count_item(&mut ctx.counts, item)?;
    put_theorem_of(alloc, &mut ctx.labelled, item, label)?;
    ctx.previous = None;
    Ok(())
}

/// Changes the context behind a scheme, which is the article's scheme of the number: its letters are counted, and it can be named by the
/// label.
pub fn end_scheme(
    ctx: &mut Context,
    item: &Item,
    label: Text,
    number: u64,
) -> Result<(), AllocError>
    ensures { OnOk result (ctx.new ≡ behind_scheme ctx.old item.now label number) }
{
    count_item(&mut ctx.counts, item)?;
    ctx.schemes.push(LabelledScheme { label, number })?;
    ctx.previous = None;
    Ok(())
}

/// Changes the context behind a block at whose word the constants had so many places: its loci are out of force, and there is no statement
/// just before. Labels stay.
pub fn end_block(ctx: &mut Context, places: usize)
    ensures { ctx.new ≡ behind_block ctx.old places }
{
    ctx.constants.cut_back(places);
    ctx.previous = None;
}
