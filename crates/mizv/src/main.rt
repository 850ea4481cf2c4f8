//! Checks articles and reports on them.
#![tactic(auto)]

use mz_program::program::exit_code;
use std::io::IsTerminal;
use std::process::ExitCode;

fn main(rt: HostRuntime) -> ExitCode {
    exit_code(&rt, rt.stderr().is_terminal())
}
