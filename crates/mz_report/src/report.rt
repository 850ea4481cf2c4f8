//! The report: one entry an article, and the totals.
ghost use Rattle.std.specs.Prelude.{◌≡◌, ◌++◌, ◌∷◌, [], ℕ, List, OnOk, IfOk, Some, Option, codes, map, string_bytes};
ghost use Rattle.std.specs.List.{flat_map};
ghost use Rattle.std.specs.Option.{option_copied};
ghost use Rattle.std.specs.Fmt.{decimal};
ghost use Rattle.mz_base.specs.Name.{text_of};
ghost use Rattle.mz_report.specs.Report.{number_text, head_text, fault_text, accepted_text, rejected_text, verdict_text, faults_text, settled_text, entry_text, entry_of, is_entry_of, named_text, verdict_of, names_in, last_line, report_text, totals_text, totals_line, count_of, is_accepted, is_rejected, is_blocked, is_cyclic, is_missing};

use mz_base::name::Name;
use mz_base::names::Names;
use mz_base::text::Text;
use mz_core::fault::{Fault, Faults};
use mz_core::verdict::{Counts, Entry, Verdict, Verdicts};
use mz_corpus::ordering::Ordering;
use std::alloc::{AllocError, Global};

/// The fault's place and code, behind two spaces.
fn fault_head(alloc: Global, fault: &Fault) -> Result<String, AllocError>
    ensures { IfOk result (λ s. string_bytes s ≡ head_text fault.now) }
{
    let line = fault.place.line;
    let column = fault.place.column;
    let code = fault.code.code();
    format!(in alloc; "  {line}:{column} {code} ")
}

/// The number behind a space, for the codes that have one.
fn number_text(alloc: Global, has_number: bool, number: Option<u64>) -> Result<Text, AllocError>
    ensures { IfOk result (λ s. s ≡ number_text has_number number) }
{
    match number {
        Some(n) if has_number => {
            let digits = format!(in alloc; " {n}")?;
            Text::from_slice(alloc, digits.as_bytes())
        }
        _ => Ok(Text::new(alloc)),
    }
}

/// Adds the line of a fault.
fn push_fault(alloc: Global, text: &mut Text, fault: &Fault) -> Result<(), AllocError>
    ensures { OnOk result (text.new ≡ text.old ++ fault_text fault.now) }
{
    let head = fault_head(alloc, fault)?;
    let number = number_text(alloc, fault.code.has_number(), fault.number)?;
    text.extend_from_slice(head.as_bytes())?;
    text.extend_from_slice(fault.code.text().as_bytes())?;
    text.extend_from_slice(number.as_slice())?;
    text.push(b'\n')
}

/// Adds the lines of the faults.
fn push_faults(alloc: Global, text: &mut Text, faults: &Faults) -> Result<(), AllocError>
    ensures { OnOk result (text.new ≡ text.old ++ flat_map fault_text faults.now) }
{
    for fault in &faults.items {
        push_fault(alloc, text, fault)?;
    }
    Ok(())
}

fn accepted_text(alloc: Global, counts: Counts) -> Result<String, AllocError>
    ensures { IfOk result (λ s. string_bytes s ≡ accepted_text counts) }
{
    let theorems = counts.theorems;
    let definitions = counts.definitions;
    let registrations = counts.registrations;
    let schemes = counts.schemes;
    format!(in alloc;
        " accepted {theorems} theorems, {definitions} definitions, {registrations} registrations, {schemes} schemes"
    )
}

fn rejected_text(alloc: Global, faults: &Faults) -> Result<String, AllocError>
    ensures { IfOk result (λ s. string_bytes s ≡ rejected_text faults.now) }
{
    let count = faults.items.len();
    format!(in alloc; " rejected {count} faults")
}

fn blocked_text(alloc: Global, other: Name) -> Result<Text, AllocError>
    ensures { IfOk result (λ s. s ≡ codes " blocked by " ++ text_of other.number) }
{
    let name = other.text(alloc)?;
    let mut words = Text::from_slice(alloc, b" blocked by ")?;
    words.extend_from_slice(name.as_slice())?;
    Ok(words)
}

/// Adds what stands behind the name in an article's line.
fn push_verdict(
    alloc: Global,
    text: &mut Text,
    entry: &Entry,
    verdict: Verdict,
) -> Result<(), AllocError>
    ensures { OnOk result (text.new ≡ text.old ++ verdict_text entry.now verdict) }
{
    match verdict {
        Verdict::Accepted => {
            let words = accepted_text(alloc, entry.counts)?;
            text.extend_from_slice(words.as_bytes())
        }
        Verdict::Rejected => {
            let words = rejected_text(alloc, &entry.faults)?;
            text.extend_from_slice(words.as_bytes())
        }
        Verdict::Blocked(other) => {
            let words = blocked_text(alloc, other)?;
            text.extend_from_slice(words.as_slice())
        }
        Verdict::Cyclic => text.extend_from_slice(b" cyclic"),
        Verdict::Missing => text.extend_from_slice(b" missing"),
    }
}

/// Adds the lines of a settled article.
fn push_settled(
    alloc: Global,
    text: &mut Text,
    entry: &Entry,
    verdict: Verdict,
) -> Result<(), AllocError>
    ensures { OnOk result (text.new ≡ text.old ++ settled_text entry.now (Some verdict)) }
{
    let name = entry.name.text(alloc)?;
    text.extend_from_slice(name.as_slice())?;
    push_verdict(alloc, text, entry, verdict)?;
    text.push(b'\n')?;
    match verdict {
        Verdict::Rejected => push_faults(alloc, text, &entry.faults),
        _ => Ok(()),
    }
}

/// Adds the lines of an article; none where it isn't settled.
fn push_entry(alloc: Global, text: &mut Text, entry: &Entry) -> Result<(), AllocError>
    ensures { OnOk result (text.new ≡ text.old ++ entry_text entry.now) }
{
    match entry.verdict {
        Some(verdict) => push_settled(alloc, text, entry, verdict),
        None => Ok(()),
    }
}

fn totals_text(alloc: Global, verdicts: &[Option<Verdict>]) -> Result<String, AllocError>
    ensures { IfOk result (λ s. string_bytes s ≡ totals_text verdicts.now) }
{
    let accepted = count_accepted(verdicts);
    let rejected = count_rejected(verdicts);
    let blocked = count_blocked(verdicts);
    let cyclic = count_cyclic(verdicts);
    let missing = count_missing(verdicts);
    totals_line(alloc, accepted, rejected, blocked, cyclic, missing)
}

fn totals_line(
    alloc: Global,
    accepted: usize,
    rejected: usize,
    blocked: usize,
    cyclic: usize,
    missing: usize,
) -> Result<String, AllocError>
    ensures { IfOk result (λ s. string_bytes s ≡ totals_line accepted rejected blocked cyclic missing) }
{
    format!(in alloc;
        "total {accepted} accepted, {rejected} rejected, {blocked} blocked, {cyclic} cyclic, {missing} missing\n"
    )
}

fn count_accepted(verdicts: &[Option<Verdict>]) -> usize
    ensures { result ≡ count_of is_accepted verdicts.now }
{
    verdicts.iter().filter(|v| is_accepted(**v)).count()
}

fn is_accepted(verdict: Option<Verdict>) -> bool
    ensures { result ≡ is_accepted verdict }
{
    matches!(verdict, Some(Verdict::Accepted))
}

fn count_rejected(verdicts: &[Option<Verdict>]) -> usize
    ensures { result ≡ count_of is_rejected verdicts.now }
{
    verdicts.iter().filter(|v| is_rejected(**v)).count()
}

fn is_rejected(verdict: Option<Verdict>) -> bool
    ensures { result ≡ is_rejected verdict }
{
    matches!(verdict, Some(Verdict::Rejected))
}

fn count_blocked(verdicts: &[Option<Verdict>]) -> usize
    ensures { result ≡ count_of is_blocked verdicts.now }
{
    verdicts.iter().filter(|v| is_blocked(**v)).count()
}

fn is_blocked(verdict: Option<Verdict>) -> bool
    ensures { result ≡ is_blocked verdict }
{
    matches!(verdict, Some(Verdict::Blocked(_)))
}

fn count_cyclic(verdicts: &[Option<Verdict>]) -> usize
    ensures { result ≡ count_of is_cyclic verdicts.now }
{
    verdicts.iter().filter(|v| is_cyclic(**v)).count()
}

fn is_cyclic(verdict: Option<Verdict>) -> bool
    ensures { result ≡ is_cyclic verdict }
{
    matches!(verdict, Some(Verdict::Cyclic))
}

fn count_missing(verdicts: &[Option<Verdict>]) -> usize
    ensures { result ≡ count_of is_missing verdicts.now }
{
    verdicts.iter().filter(|v| is_missing(**v)).count()
}

fn is_missing(verdict: Option<Verdict>) -> bool
    ensures { result ≡ is_missing verdict }
{
    matches!(verdict, Some(Verdict::Missing))
}

fn is_entry_of(name: &Name, entry: &Entry) -> bool
    ensures { result ≡ is_entry_of name.now entry.now }
{
    name.number() == entry.name.number()
}

/// The entry of the article of this name.
fn entry_of<'a>(verdicts: &'a Verdicts, name: &Name) -> Option<&'a Entry>
    ensures { option_copied result ≡ entry_of verdicts.now name.now }
{
    verdicts.items.iter().find(|entry| is_entry_of(name, entry))
}

/// Adds the lines of the article of this name.
fn push_named(
    alloc: Global,
    text: &mut Text,
    verdicts: &Verdicts,
    name: &Name,
) -> Result<(), AllocError>
    ensures { OnOk result (text.new ≡ text.old ++ named_text verdicts.now name.now) }
{
    match entry_of(verdicts, name) {
        Some(entry) => push_entry(alloc, text, entry),
        None => Ok(()),
    }
}

fn verdict_of(verdicts: &Verdicts, name: &Name) -> Option<Verdict>
    ensures { result ≡ verdict_of verdicts.now name.now }
{
    match entry_of(verdicts, name) {
        Some(entry) => entry.verdict,
        None => None,
    }
}

/// The verdicts on the articles of these names.
fn verdicts_of(
    alloc: Global,
    verdicts: &Verdicts,
    names: &[Name],
) -> Result<Vec<Option<Verdict>>, AllocError>
    ensures { IfOk result (λ vs. vs.items ≡ map (verdict_of verdicts.now) names.now) }
{
    let mut all = Vec::new(alloc);
    for name in names {
        all.push(verdict_of(verdicts, name))?;
    }
    Ok(all)
}

/// The names in the order, and then those of the rest.
fn names_in(alloc: Global, order: &Ordering) -> Result<Names, AllocError>
    ensures { IfOk result (λ names. names ≡ names_in order.now) }
{
    let mut names = order.order.copy(alloc)?;
    for name in &order.rest.items {
        names.push(*name)?;
    }
    Ok(names)
}

/// The lines of the articles of these names.
fn lines_of(alloc: Global, verdicts: &Verdicts, names: &[Name]) -> Result<Text, AllocError>
    ensures { IfOk result (λ text. text ≡ flat_map (named_text verdicts.now) names.now) }
{
    let mut text = Text::new(alloc);
    for name in names {
        push_named(alloc, &mut text, verdicts, name)?;
    }
    Ok(text)
}

/// The last line of the report: the totals.
pub fn last_line(alloc: Global, order: &Ordering, verdicts: &Verdicts) -> Result<Text, AllocError>
    ensures { IfOk result (λ text. text ≡ last_line order.now verdicts.now) }
{
    let names = names_in(alloc, order)?;
    let all = verdicts_of(alloc, verdicts, names.as_slice())?;
    let totals = totals_text(alloc, all.as_slice())?;
    Text::from_slice(alloc, totals.as_bytes())
}

/// The report on the articles, in the order, and then those of the rest: for each its line and those of its faults, and
/// after all of them the totals. Each name has one entry, and each entry is settled; a name without an entry and an entry
/// without a verdict have no line.
pub fn report(alloc: Global, order: &Ordering, verdicts: &Verdicts) -> Result<Text, AllocError>
    ensures { IfOk result (λ text. text ≡ report_text order.now verdicts.now) }
{
    let names = names_in(alloc, order)?;
    let mut text = lines_of(alloc, verdicts, names.as_slice())?;
    let totals = last_line(alloc, order, verdicts)?;
    text.extend_from_slice(totals.as_slice())?;
    Ok(text)
}
