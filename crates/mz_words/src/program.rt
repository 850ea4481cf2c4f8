//! The options and names of the program, for `clap`.
ghost use Rattle.std.specs.Prelude.{◌≡◌, IfOk};
ghost use Rattle.clap.specs.Words.{app_of};
ghost use Rattle.mz_words.specs.Program.{program_app};

use clap::{Arg, ArgAction, Command};
use std::alloc::{AllocError, Global};

/// `--workers` and `--generate` with their values, `--list`, and names. There is no option but these, `--help` neither, and
/// no word of the program before them.
pub fn program<'a>(alloc: Global) -> Result<Command<'a>, AllocError>
    ensures { IfOk result (λ command. app_of command ≡ program_app) }
{
    let workers = Arg::new(alloc, "workers").long("workers");
    let generate = Arg::new(alloc, "generate").long("generate");
    let list = Arg::new(alloc, "list")
        .long("list")
        .action(ArgAction::SetTrue);
    let names = Arg::new(alloc, "names").action(ArgAction::Append);
    let bare = Command::new(alloc, "mizv")
        .no_binary_name(true)
        .disable_help_flag(true);
    bare.arg(workers)?.arg(generate)?.arg(list)?.arg(names)
}
