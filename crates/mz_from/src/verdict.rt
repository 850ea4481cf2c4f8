//! What is found at a `from`.
ghost use Rattle.std.specs.Prelude.{◌≡◌, ◌↔◌, [], length, IfOk, OnOk, IsTrue};
ghost use Rattle.mz_core.specs.Erasure.{erase};
ghost use Rattle.mz_following.specs.Following.{followed};
ghost use Rattle.mz_from.specs.Verdict.{fixed_by_conclusion, followed_premises, fixed_by_all, IsInstance, Differs, IsVerdict};

use crate::letters::{fixed_fit, letters_fit};
use mz_context::constants::Constants;
use mz_core::erasure::erase;
use mz_core::scheme::Scheme;
use mz_core::statement::Statement;
use mz_core::statements::Statements;
use mz_following::following::follow;
use mz_following::instances::is_same_instance;
use mz_ground::clause::Clause;
use mz_logic::letters::Letters;
use mz_obligations::obligation::SchemeVerdict;
use std::alloc::{AllocError, Global};

pub(crate) fn follow_statement(
    alloc: Global,
    letters: &mut Letters,
    p: &Statement,
    s: &Statement,
) -> Result<(), AllocError>
    ensures { OnOk result (letters.new ≡ followed (erase p.now) (erase s.now) letters.old) }
{
    let f = erase(alloc, p)?;
    let g = erase(alloc, s)?;
    follow(alloc, letters, &f, &g)
}

pub(crate) fn follow_premises(
    alloc: Global,
    letters: &mut Letters,
    premises: &[Statement],
    cited: &[Statement],
) -> Result<(), AllocError>
    ensures { OnOk result (letters.new ≡ followed_premises premises.now cited.now letters.old) }
{
    let mut ps = premises;
    let mut ss = cited;
    while let Some((p, other_ps)) = ps.split_first() {
        let Some((s, other_ss)) = ss.split_first() else {
            return Ok(());
        };
        follow_statement(alloc, &mut *letters, p, s)?;
        ps = other_ps;
        ss = other_ss;
    }
    Ok(())
}

fn is_instance(
    alloc: Global,
    letters: &Letters,
    p: &Statement,
    s: &Statement,
) -> Result<bool, AllocError>
    ensures { IfOk result (λ b. IsTrue b ↔ IsInstance letters.now p.now s.now) }
{
    let f = erase(alloc, p)?;
    let g = erase(alloc, s)?;
    let same = is_same_instance(alloc, letters, &f, &g)?;
    Ok(same)
}

/// The number of the first premise that has what is cited for it not as an instance, from 1.
#[tactic(auto, using(crate::proofs::VerdictLemmas::differ_rules))]
fn differs(
    alloc: Global,
    letters: &Letters,
    premises: &Statements,
    cited: &Statements,
) -> Result<Option<u64>, AllocError>
    requires { length cited.now ≡ length premises.now }
    ensures { IfOk result (λ o. Differs letters.now 0 premises.now cited.now o) }
{
    let mut ps = premises.items.as_slice();
    let mut ss = cited.items.as_slice();
    let mut above = 0;
    while let Some((p, other_ps)) = ps.split_first() {
        let Some((s, other_ss)) = ss.split_first() else {
            return Ok(None);
        };
        if !is_instance(alloc, letters, p, s)? {
            return Ok(Some(above + 1));
        }
        above += 1;
        ps = other_ps;
        ss = other_ss;
    }
    Ok(None)
}

/// The verdict where as many statements are cited as the scheme has premises, and the letters are fixed: `first` by the conclusion,
/// `letters` by all.
#[tactic(auto, using(crate::proofs::VerdictLemmas::verdict_rules))]
fn judge(
    alloc: Global,
    clauses: &[Clause],
    constants: &Constants,
    scheme: &Scheme,
    cited: &Statements,
    s: &Statement,
    first: &Letters,
    letters: &Letters,
) -> Result<SchemeVerdict, AllocError>
    requires count { length cited.now ≡ length scheme.now.premises }
    requires first { first.now ≡ fixed_by_conclusion scheme.now s.now }
    requires letters { letters.now ≡ fixed_by_all scheme.now cited.now s.now }
    ensures { IfOk result (λ v. IsVerdict clauses.now constants.now scheme.now cited.now s.now v) }
{
    if !is_instance(alloc, letters, &scheme.conclusion, s)? {
        return Ok(SchemeVerdict::NoFit);
    }
    if !fixed_fit(alloc, clauses, constants, first, letters, &scheme.letters)? {
        return Ok(SchemeVerdict::NoFit);
    }
    match differs(alloc, letters, &scheme.premises, cited)? {
        Some(number) => Ok(SchemeVerdict::PremiseNoFit(number)),
        None => {
            if letters_fit(alloc, clauses, constants, letters, &scheme.letters)? {
                Ok(SchemeVerdict::Fits)
            } else {
                Ok(SchemeVerdict::NoFit)
            }
        }
    }
}

/// What is found at a `from` that proves the statement from what is cited by the scheme, where the constants are in force and the
/// clauses decide what fits. The letters are fixed by following the conclusion beside the statement and then the premises, in order,
/// beside what is cited; a letter stays as it was fixed first.
///
/// In this order: `PremiseCount` with the number of premises where another number of statements is cited; `NoFit` where the statement is
/// no instance of the conclusion, or a functor letter that this fixes doesn't fit its type; `PremiseNoFit` with the number, from 1, of the
/// first premise that has what is cited for it not as an instance; `NoFit` where a functor letter isn't fixed or doesn't fit its type.
#[tactic(auto, using(crate::proofs::VerdictLemmas::count_rules))]
pub fn fit_scheme(
    alloc: Global,
    clauses: &[Clause],
    constants: &Constants,
    scheme: &Scheme,
    cited: &Statements,
    s: &Statement,
) -> Result<SchemeVerdict, AllocError>
    ensures { IfOk result (λ v. IsVerdict clauses.now constants.now scheme.now cited.now s.now v) }
{
    let needed = scheme.premises.items.len();
    if cited.items.len() != needed {
        return Ok(SchemeVerdict::PremiseCount(needed as u64));
    }
    let mut letters = Letters::new(alloc);
    follow_statement(alloc, &mut letters, &scheme.conclusion, s)?;
    let first = letters.copy(alloc)?;
    follow_premises(
        alloc,
        &mut letters,
        scheme.premises.items.as_slice(),
        cited.items.as_slice(),
    )?;
    judge(
        alloc, clauses, constants, scheme, cited, s, &first, &letters,
    )
}
