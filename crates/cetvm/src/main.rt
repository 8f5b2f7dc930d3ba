//! Runs x86-64 images whose returns are guarded by shadow stacks, and reports what they did.
#![tactic(auto)]

use cet_cli::{help_text, is_smp};
use cet_io::{StdSink, StdSource};
use cet_shared::Open;
use cet_top::{Status, plain, smp};
use std::alloc::Global;
use std::env::Env;
use std::io::ErrorKind;
use std::process::ExitCode;
use std::thread::Threads;
use std::{env, io};

/// The words behind the program's name. A word that isn't UTF-8 makes the first one faulty.
fn command_words<R: Env + AllocGlobal>(rt: &R) -> Result<Vec<String>, Status> {
    let words = env::args(rt).map_err(|error| match error.kind() {
        ErrorKind::OutOfMemory => Status::NoMemory,
        _ => Status::Usage(1),
    })?;
    words
        .skip(1)
        .collect(rt.alloc())
        .map_err(|_error| Status::NoMemory)
}

/// Runs the command on standard input and output. `threads` is the leave to start threads.
fn run<R: Threads + Sync>(rt: &HostRuntime, threads: &R) -> Status {
    let words = match command_words(rt) {
        Ok(words) => words,
        Err(status) => return status,
    };
    let mut source = StdSource::new(rt.stdin());
    let mut sink = StdSink::new(rt.stdout());
    if is_smp(&words) {
        let (status, _ran) = smp(threads, rt.alloc(), &words, &mut source, &mut sink, &Open);
        return status;
    }
    plain(rt.alloc(), &words, &mut source, &mut sink)
}

/// Prints the line of a status on standard error, and the help behind that of a faulty word. Nothing is printed for `Done`.
fn tell(rt: &HostRuntime, status: Status) -> io::Result<()> {
    if status != Status::Done {
        eprintln!(rt; "{status}")?;
    }
    if let Status::Usage(_) = status {
        eprint!(rt; "{}", help_text())?;
    }
    Ok(())
}

fn main(rt: HostRuntime) -> ExitCode {
    let status = run(&rt, &rt);
    // Nothing is left to do where standard error fails.
    let _ = tell(&rt, status);
    ExitCode::from(status.code())
}
