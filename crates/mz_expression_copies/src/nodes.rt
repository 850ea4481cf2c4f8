//! Copies of the nodes of expressions.
ghost use Rattle.std.specs.Prelude.{◌≡◌, IfOk, map};
ghost use Rattle.mz_tree.specs.Views.{term_of, piece_of, operand_of, prefix_of, before_of, base_of, terms_of, adjective_of, type_of, declared_of, next_declared_of, formula_of, disjunction_of, conjunction_of, unit_of, quantified_of};

use mz_tree::chain::{Before, Chain, Next};
use mz_tree::nodes::{
    AdjectiveNode, BaseNode, ConjunctionNode, DeclarationsNode, DeclaredNode, DisjunctionNode,
    FormulaNode, OperandNode, PieceNode, PrefixNode, QuantifiedNode, TermNode, TermsNode, TypeNode,
    UnitNode,
};
use std::alloc::{AllocError, Global};

/// An equal tree.
#[cycle(copy)]
pub fn copy_term(alloc: Global, term: &TermNode) -> Result<TermNode, AllocError>
    ensures { IfOk result (λ t. term_of t ≡ term_of term.now) }
{
    let mut more = Vec::new(alloc);
    for piece in &term.more {
        more.push(copy_piece(alloc, piece)?)?;
    }
    let first = copy_piece(alloc, &term.first)?;
    Ok(TermNode { first, more })
}

/// An equal tree.
#[cycle(copy)]
#[tactic(auto, using(mz_tree::proofs::Views::piece_rules))]
pub fn copy_piece(alloc: Global, piece: &PieceNode) -> Result<PieceNode, AllocError>
    ensures { IfOk result (λ t. piece_of t ≡ piece_of piece.now) }
{
    match piece {
        PieceNode::Functor(a, b) => Ok(PieceNode::Functor(a.copy(alloc)?, *b)),
        PieceNode::Operand(a) => Ok(PieceNode::Operand(copy_operand(alloc, a)?)),
    }
}

/// An equal tree.
#[cycle(copy)]
pub fn copy_operand(alloc: Global, operand: &OperandNode) -> Result<OperandNode, AllocError>
    ensures { IfOk result (λ t. operand_of t ≡ operand_of operand.now) }
{
    let mut prefixes = Vec::new(alloc);
    for prefix in &operand.prefixes {
        prefixes.push(copy_prefix(alloc, prefix)?)?;
    }
    let base = boxed_base(alloc, &operand.base)?;
    Ok(OperandNode { prefixes, base })
}

#[cycle(copy)]
fn copy_befores(
    alloc: Global,
    befores: &[Before<OperandNode>],
) -> Result<Vec<Before<OperandNode>>, AllocError>
    ensures { IfOk result (λ ts. map before_of ts.items ≡ map before_of befores.now) }
{
    let mut out = Vec::new(alloc);
    for before in befores {
        let tree = copy_operand(alloc, &before.tree)?;
        out.push(Before {
            tree,
            comma: before.comma,
        })?;
    }
    Ok(out)
}

/// An equal tree.
#[cycle(copy)]
#[tactic(auto, using(mz_tree::proofs::Views::prefix_rules))]
pub fn copy_prefix(alloc: Global, prefix: &PrefixNode) -> Result<PrefixNode, AllocError>
    ensures { IfOk result (λ t. prefix_of t ≡ prefix_of prefix.now) }
{
    match prefix {
        PrefixNode::Selector(a, b, c) => Ok(PrefixNode::Selector(*a, b.copy(alloc)?, *c)),
        PrefixNode::ChoiceOf(a, b, c, d, e) => {
            let b = copy_adjectives(alloc, b)?;
            let c = c.copy(alloc)?;
            let e = copy_befores(alloc, e)?;
            Ok(PrefixNode::ChoiceOf(*a, b, c, *d, e))
        }
        PrefixNode::ChoiceOver(a, b, c, d, e) => {
            let b = copy_adjectives(alloc, b)?;
            let c = c.copy(alloc)?;
            let e = copy_befores(alloc, e)?;
            Ok(PrefixNode::ChoiceOver(*a, b, c, *d, e))
        }
    }
}

/// An equal tree.
#[cycle(copy)]
#[tactic(auto, using(mz_tree::proofs::Views::base_rules))]
pub fn copy_base(alloc: Global, base: &BaseNode) -> Result<BaseNode, AllocError>
    ensures { IfOk result (λ t. base_of t ≡ base_of base.now) }
{
    match base {
        BaseNode::Identifier(a) => Ok(BaseNode::Identifier(a.copy(alloc)?)),
        BaseNode::Subject(a) => Ok(BaseNode::Subject(*a)),
        BaseNode::Argument(a, b) => Ok(BaseNode::Argument(*a, *b)),
        BaseNode::Group(a, b, c) => Ok(BaseNode::Group(*a, copy_terms(alloc, b)?, *c)),
        BaseNode::Call(a, b, c) => Ok(BaseNode::Call(a.copy(alloc)?, *b, *c)),
        BaseNode::CallWith(a, b, c, d) => {
            Ok(BaseNode::CallWith(a.copy(alloc)?, *b, copy_terms(alloc, c)?, *d))
        }
        BaseNode::Selector(a, b) => Ok(BaseNode::Selector(*a, b.copy(alloc)?)),
        BaseNode::Aggregate(a, b, c, d) => {
            Ok(BaseNode::Aggregate(a.copy(alloc)?, *b, copy_terms(alloc, c)?, *d))
        }
        BaseNode::Brackets(a, b, c) => {
            let a = a.copy(alloc)?;
            let c = c.copy(alloc)?;
            Ok(BaseNode::Brackets(a, copy_terms(alloc, b)?, c))
        }
        BaseNode::Braces(a, b, c) => Ok(BaseNode::Braces(*a, copy_terms(alloc, b)?, *c)),
        BaseNode::Squares(a, b, c) => Ok(BaseNode::Squares(*a, copy_terms(alloc, b)?, *c)),
        BaseNode::SetOf(a, b, c, d, e, f, g, h, i) => {
            let b = copy_term(alloc, b)?;
            let d = d.copy(alloc)?;
            let f = boxed_type(alloc, f)?;
            let h = boxed_formula(alloc, h)?;
            Ok(BaseNode::SetOf(*a, b, *c, d, *e, f, *g, h, *i))
        }
        BaseNode::Choice(a, b, c) => {
            Ok(BaseNode::Choice(*a, copy_adjectives(alloc, b)?, c.copy(alloc)?))
        }
        BaseNode::ChoiceStructure(a, b, c) => {
            Ok(BaseNode::ChoiceStructure(*a, copy_adjectives(alloc, b)?, c.copy(alloc)?))
        }
    }
}

/// An equal tree in a box.
#[cycle(copy)]
pub fn boxed_base(alloc: Global, base: &BaseNode) -> Result<Box<BaseNode>, AllocError>
    ensures { IfOk result (λ t. base_of t.value ≡ base_of base.now) }
{
    let copy = copy_base(alloc, base)?;
    Ok(Box::new(alloc, copy)?)
}

/// Equal terms.
#[cycle(copy)]
pub fn copy_terms(alloc: Global, terms: &TermsNode) -> Result<TermsNode, AllocError>
    ensures { IfOk result (λ ts. terms_of ts ≡ terms_of terms.now) }
{
    let mut more = Vec::new(alloc);
    for next in &terms.more {
        let tree = copy_term(alloc, &next.tree)?;
        more.push(Next {
            sign: next.sign,
            tree,
        })?;
    }
    let first = copy_term(alloc, &terms.first)?;
    Ok(Chain { first, more })
}

/// An equal tree.
#[cycle(copy)]
#[tactic(auto, using(mz_tree::proofs::Views::adjective_rules))]
pub fn copy_adjective(alloc: Global, adjective: &AdjectiveNode) -> Result<AdjectiveNode, AllocError>
    ensures { IfOk result (λ t. adjective_of t ≡ adjective_of adjective.now) }
{
    match adjective {
        AdjectiveNode::Plain(a, b) => Ok(AdjectiveNode::Plain(*a, b.copy(alloc)?)),
        AdjectiveNode::WithIdentifier(a, b, c) => {
            let b = b.copy(alloc)?;
            Ok(AdjectiveNode::WithIdentifier(*a, b, c.copy(alloc)?))
        }
        AdjectiveNode::WithTerms(a, b, c, d, e) => {
            let c = copy_terms(alloc, c)?;
            Ok(AdjectiveNode::WithTerms(*a, *b, c, *d, e.copy(alloc)?))
        }
    }
}

/// Equal adjectives.
#[cycle(copy)]
pub fn copy_adjectives(
    alloc: Global,
    adjectives: &[AdjectiveNode],
) -> Result<Vec<AdjectiveNode>, AllocError>
    ensures { IfOk result (λ ts. map adjective_of ts.items ≡ map adjective_of adjectives.now) }
{
    let mut out = Vec::new(alloc);
    for adjective in adjectives {
        out.push(copy_adjective(alloc, adjective)?)?;
    }
    Ok(out)
}

/// An equal tree.
#[cycle(copy)]
#[tactic(auto, using(mz_tree::proofs::Views::type_rules))]
pub fn copy_type(alloc: Global, ty: &TypeNode) -> Result<TypeNode, AllocError>
    ensures { IfOk result (λ t. type_of t ≡ type_of ty.now) }
{
    match ty {
        TypeNode::Mode(a, b) => {
            let a = copy_adjectives(alloc, a)?;
            Ok(TypeNode::Mode(a, b.copy(alloc)?))
        }
        TypeNode::ModeOf(a, b, c, d) => {
            let a = copy_adjectives(alloc, a)?;
            let b = b.copy(alloc)?;
            Ok(TypeNode::ModeOf(a, b, *c, copy_terms(alloc, d)?))
        }
        TypeNode::Structure(a, b) => {
            let a = copy_adjectives(alloc, a)?;
            Ok(TypeNode::Structure(a, b.copy(alloc)?))
        }
        TypeNode::StructureOver(a, b, c, d) => {
            let a = copy_adjectives(alloc, a)?;
            let b = b.copy(alloc)?;
            Ok(TypeNode::StructureOver(a, b, *c, copy_terms(alloc, d)?))
        }
    }
}

/// An equal tree in a box.
#[cycle(copy)]
pub fn boxed_type(alloc: Global, ty: &TypeNode) -> Result<Box<TypeNode>, AllocError>
    ensures { IfOk result (λ t. type_of t.value ≡ type_of ty.now) }
{
    let copy = copy_type(alloc, ty)?;
    Ok(Box::new(alloc, copy)?)
}

/// An equal tree.
#[cycle(copy)]
#[tactic(auto, using(mz_tree::proofs::Views::declared_rules))]
pub fn copy_declared(alloc: Global, declared: &DeclaredNode) -> Result<DeclaredNode, AllocError>
    ensures { IfOk result (λ t. declared_of t ≡ declared_of declared.now) }
{
    match declared {
        DeclaredNode::Plain(a) => Ok(DeclaredNode::Plain(a.copy(alloc)?)),
        DeclaredNode::Typed(a, b, c) => {
            let a = a.copy(alloc)?;
            Ok(DeclaredNode::Typed(a, *b, boxed_type(alloc, c)?))
        }
    }
}

/// Equal declared identifiers.
#[cycle(copy)]
pub fn copy_declarations(
    alloc: Global,
    declarations: &DeclarationsNode,
) -> Result<DeclarationsNode, AllocError>
    ensures { IfOk result (λ ts. (declared_of ts.first ≡ declared_of declarations.now.first) × (map next_declared_of ts.more.items ≡ map next_declared_of declarations.now.more.items)) }
{
    let mut more = Vec::new(alloc);
    for next in &declarations.more {
        let tree = copy_declared(alloc, &next.tree)?;
        more.push(Next {
            sign: next.sign,
            tree,
        })?;
    }
    let first = copy_declared(alloc, &declarations.first)?;
    Ok(Chain { first, more })
}

/// An equal tree.
#[cycle(copy)]
#[tactic(auto, using(mz_tree::proofs::Views::formula_rules))]
pub fn copy_formula(alloc: Global, formula: &FormulaNode) -> Result<FormulaNode, AllocError>
    ensures { IfOk result (λ t. formula_of t ≡ formula_of formula.now) }
{
    match formula {
        FormulaNode::Plain(a) => Ok(FormulaNode::Plain(copy_disjunction(alloc, a)?)),
        FormulaNode::Implies(a, b, c) => {
            let a = copy_disjunction(alloc, a)?;
            Ok(FormulaNode::Implies(a, *b, copy_disjunction(alloc, c)?))
        }
        FormulaNode::Iff(a, b, c) => {
            let a = copy_disjunction(alloc, a)?;
            Ok(FormulaNode::Iff(a, *b, copy_disjunction(alloc, c)?))
        }
    }
}

/// An equal tree in a box.
#[cycle(copy)]
pub fn boxed_formula(alloc: Global, formula: &FormulaNode) -> Result<Box<FormulaNode>, AllocError>
    ensures { IfOk result (λ t. formula_of t.value ≡ formula_of formula.now) }
{
    let copy = copy_formula(alloc, formula)?;
    Ok(Box::new(alloc, copy)?)
}

/// An equal disjunction.
#[cycle(copy)]
pub fn copy_disjunction(
    alloc: Global,
    disjunction: &DisjunctionNode,
) -> Result<DisjunctionNode, AllocError>
    ensures { IfOk result (λ t. disjunction_of t ≡ disjunction_of disjunction.now) }
{
    let mut more = Vec::new(alloc);
    for next in &disjunction.more {
        let tree = copy_conjunction(alloc, &next.tree)?;
        more.push(Next {
            sign: next.sign,
            tree,
        })?;
    }
    let first = copy_conjunction(alloc, &disjunction.first)?;
    Ok(Chain { first, more })
}

/// An equal tree.
#[cycle(copy)]
pub fn copy_conjunction(
    alloc: Global,
    conjunction: &ConjunctionNode,
) -> Result<ConjunctionNode, AllocError>
    ensures { IfOk result (λ t. conjunction_of t ≡ conjunction_of conjunction.now) }
{
    let mut more = Vec::new(alloc);
    for next in &conjunction.more {
        let tree = boxed_unit(alloc, &next.tree)?;
        more.push(Next {
            sign: next.sign,
            tree,
        })?;
    }
    let first = boxed_unit(alloc, &conjunction.first)?;
    Ok(ConjunctionNode { first, more })
}

/// An equal tree.
#[cycle(copy)]
#[tactic(auto, using(mz_tree::proofs::Views::unit_rules))]
pub fn copy_unit(alloc: Global, unit: &UnitNode) -> Result<UnitNode, AllocError>
    ensures { IfOk result (λ t. unit_of t ≡ unit_of unit.now) }
{
    match unit {
        UnitNode::Not(a, b) => Ok(UnitNode::Not(*a, boxed_unit(alloc, b)?)),
        UnitNode::Contradiction(a) => Ok(UnitNode::Contradiction(*a)),
        UnitNode::Thesis(a) => Ok(UnitNode::Thesis(*a)),
        UnitNode::Quantified(a) => Ok(UnitNode::Quantified(boxed_quantified(alloc, a)?)),
        UnitNode::Group(a, b, c) => {
            let b = boxed_formula(alloc, b)?;
            Ok(UnitNode::Group(*a, b, *c))
        }
        UnitNode::Private(a, b, c) => Ok(UnitNode::Private(a.copy(alloc)?, *b, *c)),
        UnitNode::PrivateWith(a, b, c, d) => {
            let a = a.copy(alloc)?;
            Ok(UnitNode::PrivateWith(a, *b, copy_terms(alloc, c)?, *d))
        }
        UnitNode::Predicate(a) => Ok(UnitNode::Predicate(a.copy(alloc)?)),
        UnitNode::PredicateRight(a, b) => {
            let a = a.copy(alloc)?;
            Ok(UnitNode::PredicateRight(a, copy_terms(alloc, b)?))
        }
        UnitNode::PredicateLeft(a, b) => {
            let a = copy_terms(alloc, a)?;
            Ok(UnitNode::PredicateLeft(a, b.copy(alloc)?))
        }
        UnitNode::PredicateBoth(a, b, c) => {
            let a = copy_terms(alloc, a)?;
            let b = b.copy(alloc)?;
            Ok(UnitNode::PredicateBoth(a, b, copy_terms(alloc, c)?))
        }
        UnitNode::IsType(a, b, c) => Ok(UnitNode::IsType(
            copy_term(alloc, a)?,
            *b,
            boxed_type(alloc, c)?,
        )),
        UnitNode::IsAdjectives(a, b, c, d) => {
            let a = copy_term(alloc, a)?;
            let c = copy_adjective(alloc, c)?;
            Ok(UnitNode::IsAdjectives(a, *b, c, copy_adjectives(alloc, d)?))
        }
    }
}

/// An equal tree in a box.
#[cycle(copy)]
pub fn boxed_unit(alloc: Global, unit: &UnitNode) -> Result<Box<UnitNode>, AllocError>
    ensures { IfOk result (λ t. unit_of t.value ≡ unit_of unit.now) }
{
    let copy = copy_unit(alloc, unit)?;
    Ok(Box::new(alloc, copy)?)
}

/// An equal tree.
#[cycle(copy)]
#[tactic(auto, using(mz_tree::proofs::Views::quantified_rules))]
pub fn copy_quantified(
    alloc: Global,
    quantified: &QuantifiedNode,
) -> Result<QuantifiedNode, AllocError>
    ensures { IfOk result (λ t. quantified_of t ≡ quantified_of quantified.now) }
{
    match quantified {
        QuantifiedNode::For(a, b, c, d) => {
            let b = copy_declarations(alloc, b)?;
            let d = boxed_formula(alloc, d)?;
            Ok(QuantifiedNode::For(*a, b, *c, d))
        }
        QuantifiedNode::ForSuch(a, b, c, d, e, f) => {
            let b = copy_declarations(alloc, b)?;
            let d = boxed_formula(alloc, d)?;
            let f = boxed_formula(alloc, f)?;
            Ok(QuantifiedNode::ForSuch(*a, b, *c, d, *e, f))
        }
        QuantifiedNode::ForFurther(a, b, c) => {
            let b = copy_declarations(alloc, b)?;
            let c = boxed_quantified(alloc, c)?;
            Ok(QuantifiedNode::ForFurther(*a, b, c))
        }
        QuantifiedNode::ForSuchFurther(a, b, c, d, e) => {
            let b = copy_declarations(alloc, b)?;
            let d = boxed_formula(alloc, d)?;
            let e = boxed_quantified(alloc, e)?;
            Ok(QuantifiedNode::ForSuchFurther(*a, b, *c, d, e))
        }
        QuantifiedNode::Exists(a, b, c, d) => {
            let b = copy_declarations(alloc, b)?;
            let d = boxed_formula(alloc, d)?;
            Ok(QuantifiedNode::Exists(*a, b, *c, d))
        }
    }
}

/// An equal tree in a box.
#[cycle(copy)]
pub fn boxed_quantified(
    alloc: Global,
    quantified: &QuantifiedNode,
) -> Result<Box<QuantifiedNode>, AllocError>
    ensures { IfOk result (λ t. quantified_of t.value ≡ quantified_of quantified.now) }
{
    let copy = copy_quantified(alloc, quantified)?;
    Ok(Box::new(alloc, copy)?)
}
