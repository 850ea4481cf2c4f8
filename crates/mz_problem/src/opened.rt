//! Statements at fresh constants in place of their leading quantifiers.
ghost use Rattle.std.specs.Prelude.{◌≡◌, ◌++◌, ◌∷◌, [], List, IfOk, OnOk};
ghost use Rattle.mz_logic.specs.Term.{Const};
ghost use Rattle.mz_core.specs.declared.soft_type.SoftType.{SoftType};
ghost use Rattle.mz_core.specs.TypeSubstitution.{statement_at};
ghost use Rattle.mz_context.specs.Context.{numbers};
ghost use Rattle.mz_thesis.specs.Rows.{with_fresh};
ghost use Rattle.mz_problem.specs.Opened.{is_universal, Opens, with_all_fresh, guards_from};

use mz_base::text::Text;
use mz_context::constants::{Constant, Constants};
use mz_core::guard::guard_literals;
use mz_core::soft_type::SoftType;
use mz_core::soft_types::SoftTypes;
use mz_core::statement::{Statement, StatementNode};
use mz_core::type_substitution::statement_at;
use mz_logic::literals::Literals;
use mz_logic::term::Term;
use mz_thesis::fresh::next;
use std::alloc::{AllocError, Global};

/// Puts a fresh constant of the type behind the others, under the next number, and the type behind the other types.
fn push_fresh(
    alloc: Global,
    constants: &mut Constants,
    types: &mut SoftTypes,
    ty: &SoftType,
) -> Result<(), AllocError>
    ensures constants { OnOk result (constants.new ≡ with_fresh constants.old ty.now) }
    ensures types { OnOk result (types.new ≡ types.old ++ ty.now ∷ []) }
{
    types.push(ty.copy(alloc)?)?;
    let ty = ty.copy(alloc)?;
    constants.push(Constant {
        name: Text::new(alloc),
        ty,
        equal: None,
    })?;
    Ok(())
}

/// Replaces a quantifier by a fresh constant of its type: its body at the constant.
fn open_one(
    alloc: Global,
    constants: &mut Constants,
    types: &mut SoftTypes,
    ty: &SoftType,
    body: &Statement,
) -> Result<Statement, AllocError>
    ensures constants { OnOk result (constants.new ≡ with_fresh constants.old ty.now) }
    ensures types { OnOk result (types.new ≡ types.old ++ ty.now ∷ []) }
    ensures at { IfOk result (λ s. s ≡ statement_at body.now (Const (numbers constants.old))) }
{
    let c = next(constants)?;
    push_fresh(alloc, constants, types, ty)?;
    statement_at(alloc, body, &c)
}

/// Opens a statement: its leading quantifiers are replaced, one after another, by fresh constants, which are put into
/// force behind the others; their types are put behind the other types.
#[tactic(auto, using(crate::proofs::OpenedLemmas::open_rules))]
pub fn open(
    alloc: Global,
    constants: &mut Constants,
    types: &mut SoftTypes,
    s: &Statement,
) -> Result<Statement, AllocError>
    ensures opens { IfOk result (λ t. (tys : List SoftType) × Opens constants.old s.now tys t × (types.new ≡ types.old ++ tys) × (constants.new ≡ with_all_fresh constants.old tys)) }
{
    match &s.node {
        StatementNode::For(ty, body) => {
            let at = open_one(alloc, constants, types, ty, body)?;
            open(alloc, constants, types, &at)
        }
        _ => s.copy(alloc),
    }
}

/// Whether the statement has a leading quantifier.
pub fn is_universal(s: &Statement) -> bool
    ensures { result ≡ is_universal s.now }
{
    matches!(&s.node, StatementNode::For(_, _))
}

fn append(out: &mut Literals, more: Literals) -> Result<(), AllocError>
    ensures { OnOk result (out.new ≡ out.old ++ more) }
{
    let mut rest = more;
    out.items.append(&mut rest.items)?;
    Ok(())
}

/// The guards of constants of these types, from the number on. More than 4,294,967,295 constants are as no memory.
pub fn guards_from(alloc: Global, from: u32, types: &[SoftType]) -> Result<Literals, AllocError>
    ensures { IfOk result (λ ls. ls ≡ guards_from from types.now) }
{
    let mut out = Literals::new(alloc);
    let mut n = from;
    for ty in types {
        let guard = guard_literals(alloc, ty, &Term::constant(n))?;
        append(&mut out, guard)?;
        n = n.checked_add(1).ok_or(AllocError)?;
    }
    Ok(out)
}
