//! How verdicts are told.
ghost use Rattle.std.specs.Prelude.{◌≡◌};
ghost use Rattle.mz_judged.specs.Judged.{limit_code, numbered, plain, told, scheme_told};

use mz_base::limit::Limit;
use mz_base::place::Place;
use mz_base::rule_code::RuleCode;
use mz_by::by::ByVerdict;
use mz_core::fault::Fault;
use mz_obligations::obligation::SchemeVerdict;

fn limit_code(limit: Limit) -> RuleCode
    ensures { result ≡ limit_code limit }
{
    match limit {
        Limit::Disjuncts => RuleCode::TooManyDisjuncts,
        Limit::Terms => RuleCode::TooManyTerms,
        Limit::Atoms => RuleCode::TooManyAtoms,
        Limit::Work => RuleCode::TooMuchWork,
    }
}

fn numbered(place: Place, code: RuleCode, number: u64) -> Fault
    ensures { result ≡ numbered place code number }
{
    Fault {
        place,
        code,
        number: Some(number),
    }
}

fn plain(place: Place, code: RuleCode) -> Fault
    ensures { result ≡ plain place code }
{
    Fault {
        place,
        code,
        number: None,
    }
}

/// How a verdict is told at a place, with the codes 61 to 65; what is closed has no fault.
pub fn told(place: Place, verdict: ByVerdict) -> Option<Fault>
    ensures { result ≡ told place verdict }
{
    match verdict {
        ByVerdict::Closed => None,
        ByVerdict::Open { disjunct } => {
            Some(numbered(place, RuleCode::Open, u64::from(disjunct)))
        }
        ByVerdict::Over { limit, number } => Some(numbered(place, limit_code(limit), number)),
    }
}

/// How the verdict on a scheme is told at a place, with the codes 66 to 68; what fits has no fault.
pub fn scheme_told(place: Place, verdict: SchemeVerdict) -> Option<Fault>
    ensures { result ≡ scheme_told place verdict }
{
    match verdict {
        SchemeVerdict::Fits => None,
        SchemeVerdict::NoFit => Some(plain(place, RuleCode::SchemeDoesNotFit)),
        SchemeVerdict::PremiseCount(n) => Some(numbered(place, RuleCode::PremiseCount, n)),
        SchemeVerdict::PremiseNoFit(n) => Some(numbered(place, RuleCode::PremiseDoesNotFit, n)),
    }
}
