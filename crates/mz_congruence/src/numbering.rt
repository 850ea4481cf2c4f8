//! The nodes of a ground part.
ghost use Rattle.std.specs.Prelude.{◌≡◌, ◌++◌, map, IfOk, OnOk};
ghost use Rattle.mz_congruence.specs.Nodes.{term_node, atom_head, atom_node, disequal_node, nodes_of};
ghost use Rattle.mz_congruence.specs.Layout.{IsLayout, Numbered};

use crate::graph::{Head, Node, Nodes};
use mz_ground::ground_atom::GroundAtom;
use mz_ground::ground_atoms::GroundAtoms;
use mz_ground::ground_equation::GroundEquation;
use mz_ground::ground_equations::GroundEquations;
use mz_ground::ground_part::Ground;
use mz_ground::ground_term::GroundTerm;
use mz_ground::ground_terms::GroundTerms;
use mz_ground::places::Places;
use mz_logic::sym::Sym;
use std::alloc::{AllocError, Global};

/// The numbers of the first nodes of ground atoms with the positive sign, with the negative sign, of ground
/// equations, and of truth. The ground terms come first.
#[derive(Clone, Copy, Debug, PartialEq, Eq)]
pub struct Layout {
    pub positive: usize,
    pub negative: usize,
    pub disequal: usize,
    pub yes: usize,
}

/// Nodes, and where those of each kind begin.
#[derive(Drop)]
pub struct Numbering {
    pub nodes: Nodes,
    pub layout: Layout,
}

fn term_node(alloc: Global, t: &GroundTerm) -> Result<Node, AllocError>
    ensures { IfOk result (λ n. n ≡ term_node t.now) }
{
    match t {
        GroundTerm::Const(number) => Ok(Node {
            head: Head::Constant(*number),
            args: Places::new(alloc),
        }),
        GroundTerm::App { sym, args } => {
            let args = args.copy(alloc)?;
            Ok(Node {
                head: Head::Function(*sym),
                args,
            })
        }
    }
}

fn atom_head(positive: bool, sym: Sym) -> Head
    ensures { result ≡ atom_head positive sym }
{
    if positive {
        Head::Positive(sym)
    } else {
        Head::Negative(sym)
    }
}

fn atom_node(alloc: Global, positive: bool, a: &GroundAtom) -> Result<Node, AllocError>
    ensures { IfOk result (λ n. n ≡ atom_node positive a.now) }
{
    let args = a.args.copy(alloc)?;
    Ok(Node {
        head: atom_head(positive, a.sym),
        args,
    })
}

fn disequal_node(alloc: Global, e: &GroundEquation) -> Result<Node, AllocError>
    ensures { IfOk result (λ n. n ≡ disequal_node e.now) }
{
    let args = Places::new(alloc);
    Ok(Node {
        head: Head::Disequal(*e),
        args,
    })
}

fn push_terms(alloc: Global, terms: &GroundTerms, out: &mut Nodes) -> Result<(), AllocError>
    ensures { OnOk result (out.new ≡ out.old ++ map term_node terms.now) }
{
    for t in &terms.items {
        let node = term_node(alloc, t)?;
        out.push(node)?;
    }
    Ok(())
}

fn push_atoms(
    alloc: Global,
    positive: bool,
    atoms: &GroundAtoms,
    out: &mut Nodes,
) -> Result<(), AllocError>
    ensures { OnOk result (out.new ≡ out.old ++ map (atom_node positive) atoms.now) }
{
    for a in &atoms.items {
        let node = atom_node(alloc, positive, a)?;
        out.push(node)?;
    }
    Ok(())
}

fn push_equations(
    alloc: Global,
    equations: &GroundEquations,
    out: &mut Nodes,
) -> Result<(), AllocError>
    ensures { OnOk result (out.new ≡ out.old ++ map disequal_node equations.now) }
{
    for e in &equations.items {
        let node = disequal_node(alloc, e)?;
        out.push(node)?;
    }
    Ok(())
}

/// One node for each ground term, each ground atom with either sign and each ground equation, and one for
/// truth.
pub fn numbered(alloc: Global, g: &Ground) -> Result<Numbering, AllocError>
    ensures { IfOk result (λ n. Numbered g.now n) }
{
    let mut nodes = Nodes::new(alloc);
    push_terms(alloc, &g.terms, &mut nodes)?;
    let positive = nodes.len();
    push_atoms(alloc, true, &g.atoms, &mut nodes)?;
    let negative = nodes.len();
    push_atoms(alloc, false, &g.atoms, &mut nodes)?;
    let disequal = nodes.len();
    push_equations(alloc, &g.equations, &mut nodes)?;
    let yes = nodes.len();
    nodes.push(Node {
        head: Head::Yes,
        args: Places::new(alloc),
    })?;
    Ok(Numbering {
        nodes,
        layout: Layout {
            positive,
            negative,
            disequal,
            yes,
        },
    })
}
