//! The texts that a run writes.
ghost use Rattle.std.specs.Prelude.{◌≡◌, ◌≤◌, ◌++◌, [], if◌then◌else◌, IfOk, OnOk, OnErr};
ghost use Rattle.mz_io.specs.Count.{Rose};
ghost use Rattle.mz_io.specs.Sink.{with_bytes, TookPart};
ghost use Rattle.mz_report.specs.Report.{is_accepted, last_line, report_text};
ghost use Rattle.mz_listing.specs.Listing.{listing_text};
ghost use Rattle.mz_listing.specs.Output.{output_text};
ghost use Rattle.mz_run.specs.Checked.{are_accepted};

use mz_axioms::exports::Exports;
use mz_base::text::Text;
use mz_core::verdict::{Entry, Verdict, Verdicts};
use mz_corpus::ordering::Ordering;
use mz_io::sink::{Sink, SinkFailed, write_all};
use mz_listing::listing::listing;
use mz_report::report::{last_line, report};
use std::alloc::{AllocError, Global};

/// What is written: the report, and behind it the listing, which may be empty.
#[derive(Drop)]
pub struct OutputTexts {
    pub report: Text,
    pub listing: Text,
}

fn is_accepted(entry: &Entry) -> bool
    ensures { result ≡ is_accepted entry.now.verdict }
{
    matches!(entry.verdict, Some(Verdict::Accepted))
}

/// Whether every article is accepted.
pub fn are_accepted(verdicts: &Verdicts) -> bool
    ensures { result ≡ are_accepted verdicts.now }
{
    verdicts.items.iter().all(|entry| is_accepted(entry))
}

/// The listing, where it is wanted.
fn listing_if(
    alloc: Global,
    list: bool,
    order: &Ordering,
    library: &Exports,
) -> Result<Text, AllocError>
    ensures { IfOk result (λ text. text ≡ (if list then listing_text order.now library.now else [])) }
{
    if list {
        listing(alloc, order, library)
    } else {
        Ok(Text::new(alloc))
    }
}

/// The last line of the report alone.
fn line_output(
    alloc: Global,
    order: &Ordering,
    verdicts: &Verdicts,
) -> Result<OutputTexts, AllocError>
    ensures { IfOk result (λ o. o.report ++ o.listing ≡ last_line order.now verdicts.now) }
{
    let report = last_line(alloc, order, verdicts)?;
    let listing = Text::new(alloc);
    Ok(OutputTexts { report, listing })
}

/// The report, and the listing where it is wanted.
fn whole_output(
    alloc: Global,
    list: bool,
    order: &Ordering,
    verdicts: &Verdicts,
    library: &Exports,
) -> Result<OutputTexts, AllocError>
    ensures { IfOk result (λ o. o.report ++ o.listing ≡ report_text order.now verdicts.now ++ (if list then listing_text order.now library.now else [])) }
{
    let report = report(alloc, order, verdicts)?;
    let listing = listing_if(alloc, list, order, library)?;
    Ok(OutputTexts { report, listing })
}

/// The report, and the listing where it is wanted; for made articles the report's last line alone.
pub fn output(
    alloc: Global,
    made: bool,
    list: bool,
    order: &Ordering,
    verdicts: &Verdicts,
    library: &Exports,
) -> Result<OutputTexts, AllocError>
    ensures { IfOk result (λ o. o.report ++ o.listing ≡ output_text made list order.now verdicts.now library.now) }
{
    if made {
        line_output(alloc, order, verdicts)
    } else {
        whole_output(alloc, list, order, verdicts, library)
    }
}

/// Writes the report and then the listing. Each call of the sink is offered all of the one, or then of the other, that wasn't
/// taken yet, and at least one byte.
///
/// # Errors
/// `SinkFailed` only where the sink's count of faults rose. Then a part of the two from their front was taken, and not all.
pub fn write_output<W: Sink>(out: &mut W, output: &OutputTexts) -> Result<(), SinkFailed>
    ensures never_fall { W.faults out.old ≤ W.faults out.new }
    ensures all { OnOk result (W.taken out.new ≡ with_bytes (W.taken out.old) (output.now.report ++ output.now.listing)) }
    ensures part { OnErr result (TookPart (W.taken out.old) (W.taken out.new) (output.now.report ++ output.now.listing)) }
    ensures failed { OnErr result (Rose (W.faults out.old) (W.faults out.new)) }
{
    match write_all(out, output.report.as_slice()) {
        Ok(()) => write_all(out, output.listing.as_slice()),
        Err(fault) => Err(fault),
    }
}
