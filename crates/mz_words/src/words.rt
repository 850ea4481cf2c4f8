//! The order of the program's words.
ghost use Rattle.std.specs.Prelude.{map, string_bytes};
ghost use Rattle.mz_words.specs.Words.{IsAnswer};

use crate::given::order_with;
use crate::order::Order;
use crate::program::program;
use crate::word_fault::WordFault;
use std::alloc::Global;

/// The order that the words after the program's own give.
///
/// `--workers` and `--generate` each come at most once, with their value in the next word, whatever it is, or behind `=`;
/// `--list` comes at most once. A value is one to four digits: 1 to 16 workers, 1 where they aren't given, and 1 to 512
/// made articles. Every other word is the name of an article, which isn't built in, and so is every word behind the first
/// `--` that is no value. There is at least one name or there is `--generate`, not both, and `--list` doesn't stand with
/// `--generate`. A name that is repeated counts once.
///
/// # Errors
/// `Usage` exactly where the words give no order. `Memory` where there wasn't enough memory.
pub fn read_words(alloc: Global, words: &[String]) -> Result<Order, WordFault>
    ensures { IsAnswer (map string_bytes words.now) result }
{
    let program = program(alloc)?;
    let matches = program.try_get_matches_from(words)?;
    order_with(
        alloc,
        matches.get_str("workers"),
        matches.get_str("generate"),
        matches.get_flag("list"),
        matches.get_raw("names"),
    )
}
