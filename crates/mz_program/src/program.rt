//! From the command line to the exit status.
use crate::folder::run_folder;
use mz_base::status::Status;
use std::env;
use std::io::{Eprint, ErrorKind};
use std::process::ExitCode;
use std::rt::{Clock, Env, Files};
use std::sync::Wait;
use std::thread::Threads;

/// The words after the program's own. A word that isn't UTF-8 is a faulty command line.
fn words<R: Env + AllocGlobal>(rt: &R) -> Result<Vec<String>, Status> {
    match env::args(rt) {
        Ok(words) => words
            .skip(1)
            .collect(rt.alloc())
            .map_err(|_| Status::OutOfMemory),
        Err(error) => match error.kind() {
            ErrorKind::InvalidData => Err(Status::Usage),
            _ => Err(Status::OutOfMemory),
        },
    }
}

/// The line that standard error gets, for the statuses from 2 on.
fn complaint(status: Status) -> Option<&'static str> {
    match status {
        Status::Accepted | Status::Rejected => None,
        Status::Usage => Some("mizv: usage"),
        Status::ReadFault => Some("mizv: read fault"),
        Status::WriteFault => Some("mizv: write fault"),
        Status::OutOfMemory => Some("mizv: out of memory"),
        Status::TooLarge => Some("mizv: too large"),
    }
}

/// Runs over the working folder by the words of the command line (see `run_folder`), and complains on standard error; the
/// exit status is the number of the run's status.
pub fn exit_code<R: Env + AllocGlobal + Threads + Wait + Sync + Files + Print + Eprint + Clock>(
    rt: &R,
    is_terminal: bool,
) -> ExitCode {
    let status = match words(rt) {
        Ok(words) => run_folder(rt, rt.alloc(), words, is_terminal),
        Err(status) => status,
    };
    if let Some(line) = complaint(status) {
        let _ = eprintln!(rt; "{line}");
    }
    ExitCode::from(status.exit_status())
}
