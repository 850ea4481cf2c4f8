//! Roots of classes that are given by labels.
ghost use Rattle.std.specs.Prelude.{◌≡◌, ◌<◌, ◌≤◌, length, slice_index, IfOk};
ghost use Rattle.mz_classes.specs.Labels.{LeadWithinClasses};

use crate::labels::label_of;
use std::alloc::{AllocError, Global};

// The first number with the label of `i`, as the table of first numbers by label has it, if it is earlier, or else `i`.
fn first_with_label(labels: &[usize], first: &[usize], i: usize) -> usize
    ensures earlier { result ≤ i }
    ensures same { slice_index labels.now result ≡ slice_index labels.now i }
{
    let k = label_of(first, label_of(labels, i));
    if k < i && label_of(labels, k) == label_of(labels, i) {
        k
    } else {
        i
    }
}

fn note_first(first: &mut [usize], label: usize, i: usize) {
    if label < first.len() {
        first[label] = i;
    }
}

/// For each number an earlier one with its label, or the number itself: the first one with the label.
pub fn roots_of(alloc: Global, labels: &[usize]) -> Result<Vec<usize>, AllocError>
    ensures { IfOk result (λ c. LeadWithinClasses labels.now c.items) }
{
    let mut first = vec![in alloc; labels.len(); labels.len()]?;
    let mut out = Vec::new(alloc);
    for i in 0..labels.len() {
        let k = first_with_label(labels, first.as_slice(), i);
        if k == i {
            note_first(first.as_mut_slice(), label_of(labels, i), i);
        }
        out.push(k)?;
    }
    Ok(out)
}
