//! Signatures of nodes.
ghost use Rattle.std.specs.Prelude.{◌≡◌, ◌++◌, OnOk};
ghost use Rattle.mz_congruence.specs.Signature.{head_code, sym_code, number_code, equation_code};

use crate::graph::Head;
use mz_ground::ground_equation::GroundEquation;
use mz_logic::sym::Sym;
use std::alloc::AllocError;

fn push_sym(out: &mut Vec<usize>, tag: usize, sym: Sym) -> Result<(), AllocError>
    ensures { OnOk result (out.new.items ≡ out.old.items ++ sym_code tag sym) }
{
    out.push(tag)?;
    out.push(sym.article as usize)?;
    out.push(sym.kind.code() as usize)?;
    out.push(sym.number as usize)?;
    Ok(())
}

fn push_number(out: &mut Vec<usize>, tag: usize, number: usize) -> Result<(), AllocError>
    ensures { OnOk result (out.new.items ≡ out.old.items ++ number_code tag number) }
{
    out.push(tag)?;
    out.push(number)?;
    Ok(())
}

fn push_equation(out: &mut Vec<usize>, tag: usize, e: GroundEquation) -> Result<(), AllocError>
    ensures { OnOk result (out.new.items ≡ out.old.items ++ equation_code tag e) }
{
    out.push(tag)?;
    out.push(e.left)?;
    out.push(e.right)?;
    Ok(())
}

/// Puts a head at the end of a list, as numbers that no other head has.
pub fn push_head(out: &mut Vec<usize>, head: Head) -> Result<(), AllocError>
    ensures { OnOk result (out.new.items ≡ out.old.items ++ head_code head) }
{
    match head {
        Head::Constant(number) => push_number(out, 0, number as usize),
        Head::Function(sym) => push_sym(out, 1, sym),
        Head::Positive(sym) => push_sym(out, 2, sym),
        Head::Negative(sym) => push_sym(out, 3, sym),
        Head::Disequal(e) => push_equation(out, 4, e),
        Head::Yes => push_number(out, 5, 0),
    }
}
