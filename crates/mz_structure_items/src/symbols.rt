//! The symbols of a structure.
ghost use Rattle.std.specs.Prelude.{◌≡◌, ◌+◌, IfOk};
ghost use Rattle.mz_structure_items.specs.Items.{structure_symbols};

use mz_context::context::Context;
use mz_logic::kind::Kind;
use mz_logic::sym::Sym;
use std::alloc::AllocError;

/// The symbols of a structure: its own, that of its attribute `strict`, and that of its aggregate.
#[derive(Clone, Copy, Debug)]
pub struct StructureSymbols {
    pub sym: Sym,
    pub strict: Sym,
    pub aggregate: Sym,
}

/// The next number. More than 4,294,967,295 are as no memory.
fn following(n: u32) -> Result<u32, AllocError>
    ensures { IfOk result (λ m. m ≡ n + 1) }
{
    n.checked_add(1).ok_or(AllocError)
}

/// The symbols of a structure that comes next in the article.
pub fn structure_symbols(ctx: &Context) -> Result<StructureSymbols, AllocError>
    ensures { IfOk result (λ s. s ≡ structure_symbols ctx.now) }
{
    let sym = following(ctx.counts.structures)?;
    let strict = following(ctx.counts.attributes)?;
    let aggregate = following(ctx.counts.aggregates)?;
    Ok(StructureSymbols {
        sym: Sym {
            article: ctx.article,
            kind: Kind::Structure,
            number: sym,
        },
        strict: Sym {
            article: ctx.article,
            kind: Kind::Attribute,
            number: strict,
        },
        aggregate: Sym {
            article: ctx.article,
            kind: Kind::Aggregate,
            number: aggregate,
        },
    })
}
