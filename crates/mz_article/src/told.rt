//! How refusals of the reading are told.
ghost use Rattle.std.specs.Prelude.{◌≡◌};
ghost use Rattle.mz_article.specs.Told.{reading_told, reasoning_told, numbered, item_told};

use mz_base::place::Place;
use mz_base::rule_code::RuleCode;
use mz_core::fault::Fault;
use mz_first::fault_of::plain;
use mz_justified::proof_fault::ProofRefusal;
use mz_names::refusal::Refusal;
use mz_taken::item_fault::ItemRefusal;

/// The fault of an expression: the codes 31 to 36.
fn reading_told(refusal: Refusal) -> Fault
    ensures { result ≡ reading_told refusal }
{
    match refusal {
        Refusal::UnknownSymbol(place) => plain(place, RuleCode::UnknownSymbol),
        Refusal::NoNotation(place) => plain(place, RuleCode::NoNotation),
        Refusal::UnknownVariable(place) => plain(place, RuleCode::UnknownVariable),
        Refusal::Unregistered(place) => plain(place, RuleCode::UnregisteredCluster),
        Refusal::UnfitArgument(place) => plain(place, RuleCode::UnfitArgument),
        Refusal::TooLarge(place) => plain(place, RuleCode::TooLarge),
    }
}

/// The fault of a reasoning: the codes 10, 31 to 36 and 41 to 44.
fn reasoning_told(refusal: ProofRefusal) -> Fault
    ensures { result ≡ reasoning_told refusal }
{
    match refusal {
        ProofRefusal::StepNoFit(place) => plain(place, RuleCode::StepDoesNotFit),
        ProofRefusal::ThesisLeft(place) => plain(place, RuleCode::ThesisLeft),
        ProofRefusal::UnknownLabel(place) => plain(place, RuleCode::UnknownLabel),
        ProofRefusal::Resolve(refusal) => reading_told(refusal),
        ProofRefusal::TooManyObligations(place) => plain(place, RuleCode::TooManyObligations),
        ProofRefusal::NotBuilt(place) => plain(place, RuleCode::NotBuilt),
    }
}

/// A fault with a number.
fn numbered(place: Place, code: RuleCode, number: u64) -> Fault
    ensures { result ≡ numbered place code number }
{
    Fault {
        place,
        code,
        number: Some(number),
    }
}

/// The fault of an item: the codes 10, 31 to 36, 41 to 44 and 51 to 55.
pub fn item_told(refusal: ItemRefusal) -> Fault
    ensures { result ≡ item_told refusal }
{
    match refusal {
        ItemRefusal::Proof(refusal) => reasoning_told(refusal),
        ItemRefusal::ConditionMissing { place, condition } => {
            numbered(place, RuleCode::ConditionMissing, condition)
        }
        ItemRefusal::ConditionStray { place, condition } => {
            numbered(place, RuleCode::StrayCondition, condition)
        }
        ItemRefusal::BadLoci(place) => plain(place, RuleCode::BadLoci),
        ItemRefusal::SelectorRepeated(place) => plain(place, RuleCode::SelectorRepeated),
        ItemRefusal::AncestorUnfit(place) => plain(place, RuleCode::AncestorUnfit),
    }
}
