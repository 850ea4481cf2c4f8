//! The names of an environment part, one by one.
ghost use Rattle.std.specs.Prelude.{◌≡◌, ◌++◌, ◌∷◌, [], IfOk, OnOk, OnErr};
ghost use Rattle.mz_env.specs.LetIn.{directed, directive_names, directed_names, constructor_name_of, constructor_names};

use crate::directed::Directed;
use mz_base::head::{Directive, DirectiveKind, Head, PlacedName};
use mz_base::names::Names;
use std::alloc::{AllocError, Global};
use std::marker::Model;

/// Names in directives, in the order of the text.
#[derive(Debug, Drop)]
pub struct DirectedNames {
    pub items: Vec<Directed>,
}

impl Model for DirectedNames {
    ghost use Rattle.std.specs.Prelude.{List};
    ghost use Rattle.mz_env.specs.declared.directed.Directed.{Directed};

    ghost Value = { List Directed };

    ghost view = { λ a. a.items.items };
}

impl DirectedNames {
    /// None.
    pub fn new(alloc: Global) -> DirectedNames
        ensures { result ≡ [] }
    {
        DirectedNames {
            items: Vec::new(alloc),
        }
    }

    /// Puts one at the end.
    pub fn push(&mut self, x: Directed) -> Result<(), AllocError>
        ensures ok { OnOk result (self.new ≡ self.old ++ x ∷ []) }
        ensures err { OnErr result (self.new ≡ self.old) }
    {
        self.items.push(x)?;
        Ok(())
    }
}

fn directed(kind: DirectiveKind, x: &PlacedName) -> Directed
    ensures { result ≡ directed kind x.now }
{
    Directed {
        kind,
        name: x.name,
        place: x.place,
    }
}

/// Puts the names of a directive at the end.
fn push_names(out: &mut DirectedNames, d: &Directive) -> Result<(), AllocError>
    ensures { OnOk result (out.new ≡ out.old ++ directive_names d.now) }
{
    for x in &d.names.items {
        out.push(directed(d.kind, x))?;
    }
    Ok(())
}

/// The names of the directives, in the order of the text.
pub fn directed_names(alloc: Global, head: &Head) -> Result<DirectedNames, AllocError>
    ensures { IfOk result (λ ds. ds ≡ directed_names head.now) }
{
    let mut out = DirectedNames::new(alloc);
    for d in &head.items {
        push_names(&mut out, d)?;
    }
    Ok(out)
}

/// Puts the name at the end, where its directive is `constructors`.
fn push_constructor_name(out: &mut Names, d: &Directed) -> Result<(), AllocError>
    ensures { OnOk result (out.new ≡ out.old ++ constructor_name_of d.now) }
{
    match d.kind {
        DirectiveKind::Constructors => {
            out.push(d.name)?;
            Ok(())
        }
        _ => Ok(()),
    }
}

/// The names of the directives `constructors`.
pub fn constructor_names(alloc: Global, ds: &DirectedNames) -> Result<Names, AllocError>
    ensures { IfOk result (λ ns. ns ≡ constructor_names ds.now) }
{
    let mut out = Names::new(alloc);
    for d in &ds.items {
        push_constructor_name(&mut out, d)?;
    }
    Ok(out)
}
