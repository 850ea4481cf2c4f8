//! Fields under the loci of a structure, its object, and their values.
ghost use Rattle.std.specs.Prelude.{◌≡◌, ◌+◌, length, map, IfOk};
ghost use Rattle.mz_field_items.specs.Fields.{inner_count, field_type, selector_of, selectors_of, field_of, fields_of};

use mz_base::text::Text;
use mz_core::soft_type::SoftType;
use mz_core::structure::{Field, Fields};
use mz_fields::values::type_with_values;
use mz_items::loci::count_of;
use mz_loci::loci::type_over_loci;
use mz_logic::sym::Sym;
use std::alloc::{AllocError, Global};

/// A field as read: how its selector is spelled, its selector, and its type, in which the loci and the structure's object are constants.
pub struct ReadField {
    pub name: Text,
    pub selector: Sym,
    pub ty: SoftType,
}

impl Drop for ReadField {
    fn drop(self) {
        let ReadField {
            name: _name,
            selector: _selector,
            ty: _ty,
        } = self;
    }
}

/// How many binders the type of a field stands under: those of so many loci, of the object, and of the fields' values.
fn inner_count(count: u32, selectors: &[Sym]) -> Result<u32, AllocError>
    ensures { IfOk result (λ n. n ≡ inner_count count selectors.now) }
{
    let fields = count_of(selectors.len())?;
    let object = count.checked_add(1).ok_or(AllocError)?;
    object.checked_add(fields).ok_or(AllocError)
}

/// The type of a field that was read with so many loci, the constants from `least` on, and with the object, the one behind them.
pub fn field_type(
    alloc: Global,
    ty: &SoftType,
    least: u32,
    count: u32,
    selectors: &[Sym],
) -> Result<SoftType, AllocError>
    ensures { IfOk result (λ t. t ≡ field_type least count selectors.now ty.now) }
{
    let y = least.checked_add(count).ok_or(AllocError)?;
    let first = y.checked_add(1).ok_or(AllocError)?;
    let valued = type_with_values(alloc, ty, y, first, selectors)?;
    let inner = inner_count(count, selectors)?;
    type_over_loci(alloc, &valued, least, inner)
}

/// The selectors of fields.
pub fn selectors_of(alloc: Global, fs: &[ReadField]) -> Result<Vec<Sym>, AllocError>
    ensures { IfOk result (λ ss. ss.items ≡ selectors_of fs.now) }
{
    let mut out = Vec::new(alloc);
    for f in fs {
        out.push(f.selector)?;
    }
    Ok(out)
}

fn field_of(
    alloc: Global,
    f: &ReadField,
    least: u32,
    count: u32,
    selectors: &[Sym],
) -> Result<Field, AllocError>
    ensures { IfOk result (λ x. x ≡ field_of least count selectors.now f.now) }
{
    let ty = field_type(alloc, &f.ty, least, count, selectors)?;
    Ok(Field {
        selector: f.selector,
        ty,
    })
}

/// The fields of a structure with so many loci, the constants from `least` on.
pub fn fields_of(
    alloc: Global,
    fs: &[ReadField],
    least: u32,
    count: u32,
) -> Result<Fields, AllocError>
    ensures { IfOk result (λ xs. xs ≡ fields_of least count fs.now) }
{
    let selectors = selectors_of(alloc, fs)?;
    let mut out = Fields::new(alloc);
    for f in fs {
        out.push(field_of(alloc, f, least, count, selectors.as_slice())?)?;
    }
    Ok(out)
}
