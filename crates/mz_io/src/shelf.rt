//! Where texts come from.
ghost use Rattle.std.specs.Prelude.{◌≡◌, ◌≤◌, ℕ, List, Option};
ghost use Rattle.mz_io.specs.Count.{Rose, last_count};
ghost use Rattle.mz_io.specs.Shelf.{amount_after, IsShort, IsExact, OnFailed};
ghost use Rattle.mz_io.specs.declared.file.File.{File};

use crate::fetch_fault::FetchFault;
use crate::file_kind::FileKind;
use mz_base::name::Name;
use mz_base::text::Text;
use std::alloc::Global;

/// The most bytes of a text.
pub const TEXT_LIMIT: usize = 1_048_576;

/// What gives the texts of articles and vocabularies.
///
/// A shelf has a count of faults and an amount. Neither falls, and both stand still at the last value
/// of a `u64`. It may tell its contents, a list of files in which the first of a kind and name counts.
/// No call changes them.
pub trait Shelf {
    /// How many faults of reading there were.
    ghost faults: { Self → ℕ };

    /// How many bytes were given, a text that is too long counting as 1,048,577.
    ghost amount: { Self → ℕ };

    /// The files, where the shelf tells them.
    ghost contents: { Self → Option (List File) };

    /// The text of this kind and name, or none where there is no such text.
    ///
    /// # Errors
    /// - `Failed` only where the count of faults rose in this call.
    /// - `TooLong` where the text has more than 1,048,576 bytes.
    /// - `Memory` where memory ran out.
    fn fetch(
        &mut self,
        alloc: Global,
        kind: FileKind,
        name: &Name,
    ) -> Result<Option<Text>, FetchFault>
        ensures never_fall { faults self.old ≤ faults self.new }
        ensures amount { amount self.new ≡ amount_after (amount self.old) result }
        ensures unchanged { contents self.new ≡ contents self.old }

        // The told contents decide the answer; a call that failed or met want of memory is excepted.
        ensures exact { IsExact (contents self.old) kind name.now result }
        ensures short { IsShort result }
        ensures failed { OnFailed result (Rose (faults self.old) (faults self.new)) };

    /// The count of faults fits a `u64`.
    ghost faults_fit: { (shelf : Self) → faults shelf ≤ last_count };

    /// The amount fits a `u64`.
    ghost amount_fits: { (shelf : Self) → amount shelf ≤ last_count };
}
