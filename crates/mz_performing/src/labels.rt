//! Statements under labels.
ghost use Rattle.std.specs.Prelude.{◌≡◌, ◌∷◌, [], IfOk};
ghost use Rattle.mz_parts.specs.Propositions.{label_in};
ghost use Rattle.mz_walk.specs.Compact.{stated_under};

use mz_base::text::Text;
use mz_context::labelled::{LabelledStatement, LabelledStatements};
use mz_core::statement::Statement;
use mz_tree_proof::references::LabelTree;
use std::alloc::{AllocError, Global};

fn label_in(alloc: Global, label: &Option<LabelTree>) -> Result<Text, AllocError>
    ensures { IfOk result (λ t. t ≡ label_in label.now) }
{
    match label {
        None => Ok(Text::new(alloc)),
        Some(l) => l.name.spelling.copy(alloc),
    }
}

/// The statement alone, under the label, where one is written.
pub fn stated_under(
    alloc: Global,
    label: &Option<LabelTree>,
    s: &Statement,
) -> Result<LabelledStatements, AllocError>
    ensures { IfOk result (λ ps. ps ≡ stated_under (label_in label.now) s.now ∷ []) }
{
    let label = label_in(alloc, label)?;
    let statement = s.copy(alloc)?;
    let mut out = LabelledStatements::new(alloc);
    out.push(LabelledStatement { label, statement })?;
    Ok(out)
}
