//! Structures.
ghost use Rattle.std.specs.Prelude.{◌≡◌, ◌++◌, ◌∷◌, [], OnOk, OnErr};

use crate::notations::Notations;
use crate::soft_type::SoftType;
use crate::soft_types::SoftTypes;
use mz_logic::sym::Sym;
use std::alloc::{AllocError, Global};
use std::marker::Model;

/// A field: its selector, whose only argument is the structure's object, and its type, which stands under
/// the loci, the structure's object, and then one binder for the value of each field in their order.
pub struct Field {
    pub selector: Sym,
    pub ty: SoftType,
}

impl Drop for Field {
    fn drop(self) {
        let Field {
            selector: _selector,
            ty: _ty,
        } = self;
    }
}

/// Fields of a structure, in the order of the text.
pub struct Fields {
    pub items: Vec<Field>,
}

impl Drop for Fields {
    fn drop(self) {
        let Fields { items: _items } = self;
    }
}

impl Model for Fields {
    ghost use Rattle.std.specs.Prelude.{List};
    ghost use Rattle.std.specs.Coded.{coded_list};
    ghost use Rattle.mz_core.specs.declared.structure.Field.{Field};
    ghost use Rattle.mz_core.specs.contracts.structure.Field.{the_row};

    ghost Value = { List Field };

    ghost coded = { coded_list the_row.coded };

    ghost view = { λ a. a.items.items };
}

impl Fields {
    /// No fields of a structure.
    pub fn new(alloc: Global) -> Fields
        ensures { result ≡ [] }
    {
        Fields {
            items: Vec::new(alloc),
        }
    }

    /// Puts a field at the end.
    pub fn push(&mut self, x: Field) -> Result<(), AllocError>
        ensures ok { OnOk result (self.new ≡ self.old ++ x ∷ []) }
        ensures err { OnErr result (self.new ≡ self.old) }
    {
        self.items.push(x)?;
        Ok(())
    }
}

/// A structure: its loci, its symbols, the types of its ancestors, which stand under the loci, and its
/// fields, those of its ancestors among them. Its notations stand whole, since the loci of the aggregate's
/// pattern may have another order than its arguments.
pub struct Structure {
    pub loci: SoftTypes,
    pub sym: Sym,
    pub strict: Sym,
    pub aggregate: Sym,
    pub ancestors: SoftTypes,
    pub fields: Fields,
    pub notations: Notations,
}

impl Drop for Structure {
    fn drop(self) {
        let Structure {
            loci: _loci,
            sym: _sym,
            strict: _strict,
            aggregate: _aggregate,
            ancestors: _ancestors,
            fields: _fields,
            notations: _notations,
        } = self;
    }
}
