//! How a command is served, between a source and a sink.

ghost use Rattle.std.specs.Prelude.{◌≡◌, ◌≤◌, false, true, is_some, IfOk, IsErrOf};
ghost use Rattle.cet_cli.specs.Words.{HasNumber, is_threaded, most_workers};
ghost use Rattle.cet_top.specs.Answer.{Answers, AnswersThreaded, has_run, reads};
ghost use Rattle.cet_top.specs.Reading.{ReadTooMuch, ReadUntilFault, source_state};
ghost use Rattle.cet_top.specs.Serves.{Serves, Takes, TakesSome, sink_state};

use crate::commands::answer_to;
use crate::status::Status;
use crate::threads::{Threaded, run_threads};
use crate::transfers::{Unread, read_all, write_all};
use cet_cli::{Command, Settings};
use cet_io::{Sink, Source};
use cet_pool::Ran;
use cet_shared::Turnstile;
use cet_words::Bytes;
use std::alloc::Global;
use std::thread::Threads;

/// Whether a command reads the source.
fn reads(command: &Command) -> bool
    ensures { result ≡ reads command.now }
{
    match command {
        Command::Run(_)
        | Command::Replay(_, _)
        | Command::Dis
        | Command::Asm { .. }
        | Command::Check
        | Command::Smp(_, _) => true,
        Command::Bench(_) => false,
    }
}

/// The bytes that a command takes: all of the source, or none where it doesn't read.
fn read_for<S: Source>(alloc: Global, command: &Command, src: &mut S) -> Result<Bytes, Unread>
    ensures all { IfOk result (Takes (reads command.now)
        (source_state (S.left src.old) (S.faults src.old) (S.tally src.old))
        (source_state (S.left src.new) (S.faults src.new) (S.tally src.new))) }
    ensures later { S.faults src.old ≤ S.faults src.new }
    ensures failed { IsErrOf result Unread.Failed → (reads command.now ≡ true) × ReadUntilFault
        (source_state (S.left src.old) (S.faults src.old) (S.tally src.old))
        (source_state (S.left src.new) (S.faults src.new) (S.tally src.new)) }
    ensures long { IsErrOf result Unread.TooLong → (reads command.now ≡ true) × ReadTooMuch
        (source_state (S.left src.old) (S.faults src.old) (S.tally src.old))
        (source_state (S.left src.new) (S.faults src.new) (S.tally src.new)) }
    ensures memory { IsErrOf result Unread.NoMemory → TakesSome (reads command.now)
        (source_state (S.left src.old) (S.faults src.old) (S.tally src.old))
        (source_state (S.left src.new) (S.faults src.new) (S.tally src.new)) }
{
    if !reads(command) {
        return Ok(Bytes::new(alloc));
    }
    let bytes = read_all(alloc, src)?;
    Ok(bytes)
}

/// Serves a command that is no threaded run: takes what it reads, and writes what it answers to that.
pub(crate) fn serve<S: Source, K: Sink>(
    alloc: Global,
    command: &Command,
    src: &mut S,
    sink: &mut K,
) -> Status
    requires number { HasNumber command.now }
    requires plain { is_threaded command.now ≡ false }
    ensures { Serves (reads command.now) (Answers command.now)
        (source_state (S.left src.old) (S.faults src.old) (S.tally src.old))
        (source_state (S.left src.new) (S.faults src.new) (S.tally src.new))
        (sink_state (K.written sink.old) (K.faults sink.old))
        (sink_state (K.written sink.new) (K.faults sink.new)) result }
{
    let bytes = match read_for(alloc, command, src) {
        Ok(bytes) => bytes,
        Err(Unread::NoMemory) => return Status::NoMemory,
        Err(Unread::Failed) => return Status::ReadFault,
        Err(Unread::TooLong) => return Status::TooLong,
    };
    let Ok(answer) = answer_to(alloc, command, bytes.as_slice()) else {
        return Status::NoMemory;
    };
    match write_all(sink, answer.output.as_slice()) {
        Ok(()) => answer.status,
        Err(_) => Status::WriteFault,
    }
}

/// Serves a threaded run: reads the image, and writes the report of its run on so many workers.
pub(crate) fn serve_threads<R: Threads + Sync, S: Source, K: Sink, G: Turnstile + Sync>(
    rt: &R,
    alloc: Global,
    settings: &Settings,
    workers: u32,
    src: &mut S,
    sink: &mut K,
    gate: &G,
) -> (Status, Option<Ran>)
    requires { (1 ≤ workers) × (workers ≤ most_workers) }
    ensures serves { Serves true (AnswersThreaded settings.now result.1)
        (source_state (S.left src.old) (S.faults src.old) (S.tally src.old))
        (source_state (S.left src.new) (S.faults src.new) (S.tally src.new))
        (sink_state (K.written sink.old) (K.faults sink.old))
        (sink_state (K.written sink.new) (K.faults sink.new)) result.0 }
    ensures ran { is_some result.1 ≡ has_run result.0 }
{
    let bytes = match read_all(alloc, src) {
        Ok(bytes) => bytes,
        Err(Unread::NoMemory) => return (Status::NoMemory, None),
        Err(Unread::Failed) => return (Status::ReadFault, None),
        Err(Unread::TooLong) => return (Status::TooLong, None),
    };
    let Ok(Threaded { answer, ran }) = run_threads(
        rt,
        alloc,
        settings,
        workers,
        gate,
        bytes.as_slice(),
    ) else {
        return (Status::NoMemory, None);
    };
    match write_all(sink, answer.output.as_slice()) {
        Ok(()) => (answer.status, ran),
        Err(_) => (Status::WriteFault, ran),
    }
}
