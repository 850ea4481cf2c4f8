//! How refusals in front of the reading are told.
ghost use Rattle.std.specs.Prelude.{◌≡◌};
ghost use Rattle.mz_front.specs.Told.{numbered, voc_told, table_told, parse_told, env_told};
ghost use Rattle.mz_front.specs.Front.{answered};

use crate::front_fault::FrontFault;
use mz_base::place::Place;
use mz_base::rule_code::RuleCode;
use mz_core::fault::Fault;
use mz_env::env_fault::EnvFault;
use mz_first::fault_of::plain;
use mz_lex::table_fault::TableFault;
use mz_pterm::parse::ParseFault;
use mz_voc::voc_fault::VocFault;

/// A fault with a number.
pub fn numbered(place: Place, code: RuleCode, number: u64) -> Fault
    ensures { result ≡ numbered place code number }
{
    Fault {
        place,
        code,
        number: Some(number),
    }
}

/// The fault of a vocabulary that is named at the place; none for want of memory.
fn voc_told(place: Place, refusal: &VocFault) -> Option<Fault>
    ensures { result ≡ voc_told place refusal.now }
{
    match refusal {
        VocFault::BadEntry { line } => {
            Some(numbered(place, RuleCode::BadVocabularyEntry, *line))
        }
        VocFault::BadPriority { line } => Some(numbered(place, RuleCode::BadPriority, *line)),
        VocFault::Repeated { line } => Some(numbered(place, RuleCode::SymbolRepeated, *line)),
        VocFault::Memory(_) => None,
    }
}

/// The fault of the symbols that an environment part names; none for want of memory.
pub fn table_told(refusal: &TableFault) -> Option<Fault>
    ensures { result ≡ table_told refusal.now }
{
    match refusal {
        TableFault::Absent { place } => Some(plain(*place, RuleCode::VocabularyMissing)),
        TableFault::Bad { place, fault } => voc_told(*place, fault),
        TableFault::TwoKinds { place } => Some(plain(*place, RuleCode::SymbolOfTwoKinds)),
        TableFault::TooManySymbols { place } => Some(plain(*place, RuleCode::TooManySymbols)),
        TableFault::Memory(_) => None,
    }
}

/// The fault of the grammar; none for want of memory.
pub fn parse_told(refusal: &ParseFault) -> Option<Fault>
    ensures { result ≡ parse_told refusal.now }
{
    match refusal {
        ParseFault::Unexpected { place } => Some(plain(*place, RuleCode::UnexpectedToken)),
        ParseFault::TooDeep { place } => Some(plain(*place, RuleCode::TooDeep)),
        ParseFault::EndsEarly { place } => Some(plain(*place, RuleCode::EndsEarly)),
        ParseFault::Memory => None,
    }
}

/// The fault of what an environment part lets in; none for want of memory.
pub fn env_told(refusal: &EnvFault) -> Option<Fault>
    ensures { result ≡ env_told refusal.now }
{
    match refusal {
        EnvFault::MissingConstructor { place, item } => {
            Some(numbered(*place, RuleCode::MissingConstructor, *item))
        }
        EnvFault::UnknownRequirement { place } => {
            Some(plain(*place, RuleCode::UnknownRequirement))
        }
        EnvFault::NotExported { place } => Some(plain(*place, RuleCode::NotExported)),
        EnvFault::Memory(_) => None,
    }
}

/// How a refusal is answered: with its fault, or as want of memory.
pub fn answered(told: Option<Fault>) -> FrontFault
    ensures { result ≡ answered told }
{
    match told {
        Some(fault) => FrontFault::Refused(fault),
        None => FrontFault::Memory,
    }
}
