//! Refusals of environment parts and tokens as faults of an article.
ghost use Rattle.std.specs.Prelude.{◌≡◌};
ghost use Rattle.mz_first.specs.Faults.{plain, head_told, lex_told};

use mz_base::place::Place;
use mz_base::rule_code::RuleCode;
use mz_core::fault::Fault;
use mz_lex::head_fault::HeadFault;
use mz_lex::lex_fault::LexFault;

/// A fault without a number.
pub fn plain(place: Place, code: RuleCode) -> Fault
    ensures { result ≡ plain place code }
{
    Fault {
        place,
        code,
        number: None,
    }
}

/// The fault of an environment part; none for want of memory.
pub fn head_told(refusal: &HeadFault) -> Option<Fault>
    ensures { result ≡ head_told refusal.now }
{
    match refusal {
        HeadFault::BadByte { place } => Some(plain(*place, RuleCode::BadByte)),
        HeadFault::Pragma { place } => Some(plain(*place, RuleCode::Pragma)),
        HeadFault::TooManyTokens { place } => Some(plain(*place, RuleCode::TooManyTokens)),
        HeadFault::Unexpected { place } => Some(plain(*place, RuleCode::UnexpectedToken)),
        HeadFault::EndsEarly { place } => Some(plain(*place, RuleCode::EndsEarly)),
        HeadFault::Profile2 { place } => Some(plain(*place, RuleCode::DirectiveOfProfile2)),
        HeadFault::Memory(_) => None,
    }
}

/// The fault of a text's tokens; none for want of memory.
pub fn lex_told(refusal: &LexFault) -> Option<Fault>
    ensures { result ≡ lex_told refusal.now }
{
    match refusal {
        LexFault::BadByte { place } => Some(plain(*place, RuleCode::BadByte)),
        LexFault::Pragma { place } => Some(plain(*place, RuleCode::Pragma)),
        LexFault::TooManyTokens { place } => Some(plain(*place, RuleCode::TooManyTokens)),
        LexFault::Memory(_) => None,
    }
}
