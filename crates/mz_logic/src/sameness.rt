//! Whether two formulas are the same up to association of `&` and double negation.
ghost use Rattle.std.specs.Prelude.{◌≡◌, ◌↔◌, IsTrue};
ghost use Rattle.mz_logic.specs.Same.{IsSame, normal_form};
ghost use Rattle.mz_logic.specs.Conjuncts.{conjunction, IsPlain, RestsAgree};
ghost use Rattle.mz_logic.specs.Rest.{list_of};

use crate::formula::{Formula, FormulaNode};

/// The conjuncts that are still to be compared, innermost first.
#[derive(Clone, Copy)]
enum Rest<'a> {
    End,
    Then(&'a Formula, &'a Rest<'a>),
}

/// Whether the formulas are the same up to association of `&` and double negation, at any depth.
#[tactic(auto, using(crate::proofs::SameRelation::relation_rules))]
pub fn same(f: &Formula, g: &Formula) -> bool
    ensures same { IsTrue result ↔ IsSame f.now g.now }
    ensures one_normal_form { IsTrue result ↔ (normal_form f.now ≡ normal_form g.now) }
{
    have_one_normal_form(f, g)
}

#[tactic(auto, using(crate::proofs::SameLemmas::head_rules))]
fn have_one_normal_form(f: &Formula, g: &Formula) -> bool
    ensures { IsTrue result ↔ (normal_form f.now ≡ normal_form g.now) }
{
    same_from(f, &Rest::End, g, &Rest::End)
}

#[cycle(same_parts)]
#[tactic(auto, using(crate::proofs::SameLemmas::same_rules))]
fn same_from(f: &Formula, fs: &Rest<'_>, g: &Formula, gs: &Rest<'_>) -> bool
    ensures { IsTrue result ↔ (conjunction f.now (list_of fs.now) ≡ conjunction g.now (list_of gs.now)) }
{
    match &f.node {
        FormulaNode::And(a, b) => same_from(a, &Rest::Then(b, &*fs), &*g, &*gs),
        FormulaNode::Not(n) => match &n.node {
            FormulaNode::Not(a) => same_from(a, &*fs, &*g, &*gs),
            _ => same_right(&*f, &*fs, &*g, &*gs),
        },
        _ => same_right(&*f, &*fs, &*g, &*gs),
    }
}

#[cycle(same_parts)]
#[tactic(auto, using(crate::proofs::SameLemmas::same_rules))]
fn same_right(f: &Formula, fs: &Rest<'_>, g: &Formula, gs: &Rest<'_>) -> bool
    requires { IsPlain f.now }
    ensures { IsTrue result ↔ (conjunction f.now (list_of fs.now) ≡ conjunction g.now (list_of gs.now)) }
{
    match &g.node {
        FormulaNode::And(a, b) => same_right(&*f, &*fs, a, &Rest::Then(b, &*gs)),
        FormulaNode::Not(n) => match &n.node {
            FormulaNode::Not(a) => same_right(&*f, &*fs, a, &*gs),
            _ => same_heads(&*f, &*g) && same_rests(&*fs, &*gs),
        },
        _ => same_heads(&*f, &*g) && same_rests(&*fs, &*gs),
    }
}

#[cycle(same_parts)]
fn same_rests(fs: &Rest<'_>, gs: &Rest<'_>) -> bool
    ensures { IsTrue result ↔ RestsAgree (list_of fs.now) (list_of gs.now) }
{
    match (fs, gs) {
        (Rest::End, Rest::End) => true,
        (Rest::Then(f, fs), Rest::Then(g, gs)) => same_from(&**f, &**fs, &**g, &**gs),
        _ => false,
    }
}

#[cycle(same_parts)]
#[tactic(auto, using(crate::proofs::SameLemmas::head_rules))]
fn same_heads(f: &Formula, g: &Formula) -> bool
    requires left { IsPlain f.now }
    requires right { IsPlain g.now }
    ensures { IsTrue result ↔ (normal_form f.now ≡ normal_form g.now) }
{
    match (&f.node, &g.node) {
        (FormulaNode::Truth, FormulaNode::Truth) => true,
        (FormulaNode::Eq(t, u), FormulaNode::Eq(v, w)) => t.equals(v) && u.equals(w),
        (FormulaNode::Atom(r, ts), FormulaNode::Atom(s, us)) => r.is(*s) && ts.equals(us),
        (FormulaNode::Not(a), FormulaNode::Not(b)) => same_from(a, &Rest::End, b, &Rest::End),
        (FormulaNode::All(a), FormulaNode::All(b)) => same_from(a, &Rest::End, b, &Rest::End),
        _ => false,
    }
}
