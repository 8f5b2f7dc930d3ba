//! The program, over a source of bytes and a sink of bytes.

ghost use Rattle.std.specs.Prelude.{◌≡◌, ◌↔◌, ◌⊎◌, ℕ, true, is_some, map, string_bytes};
ghost use Rattle.cet_top.specs.Answer.{Answers, AnswersThreaded, has_run, reads};
ghost use Rattle.cet_cli.specs.Grammar.{FaultyWord};
ghost use Rattle.cet_top.specs.Reading.{source_state};
ghost use Rattle.cet_top.specs.Serves.{Completes, GaveTooMuch, IsUntouched, Serves, sink_state};
ghost use Rattle.cet_cli.specs.Settings.{SettingsData};
ghost use Rattle.cet_cli.specs.Words.{IsPlain, IsSmp, MeansPlain, MeansSmp};
ghost use Rattle.cet_cli.specs.declared.words.Command.{Command};

use crate::serve::{serve, serve_threads};
use crate::status::Status;
use cet_cli::{CliFault, read_plain, read_smp};
use cet_io::{Sink, Source};
use cet_pool::Ran;
use cet_shared::Turnstile;
use std::alloc::Global;
use std::thread::Threads;

/// Carries out the command that the words are, on the bytes of a source, and writes its output to a sink. `run` runs the image
/// that the source gives, up to the limit of the words, the live threads in turn by their numbers, and reports in the style of
/// the words. `replay` does so with the turns of a given schedule, or of a number. `bench` reads nothing. The words of `smp`
/// are faulty here from the first on.
pub fn plain<S: Source, K: Sink>(
    alloc: Global,
    words: &[String],
    src: &mut S,
    sink: &mut K,
) -> Status
    // The words are a command, or one of them is the first faulty one.
    ensures command { ((number : ℕ) × FaultyWord IsPlain (map string_bytes words.now) number)
        ⊎ ((command : Command) × MeansPlain (map string_bytes words.now) command) }

    // They are no command exactly where that is the answer. Then nothing is read or written.
    ensures usage { (number : ℕ) →
        (result ≡ Status.Usage number) ↔ FaultyWord IsPlain (map string_bytes words.now) number }
    ensures unread { (number : ℕ) → FaultyWord IsPlain (map string_bytes words.now) number → IsUntouched
        (source_state (S.left src.old) (S.faults src.old) (S.tally src.old))
        (source_state (S.left src.new) (S.faults src.new) (S.tally src.new))
        (sink_state (K.written sink.old) (K.faults sink.old))
        (sink_state (K.written sink.new) (K.faults sink.new)) }

    // Each other answer has its cause, and what was written is the answer to what was read, or its first
    // part.
    ensures serves { (command : Command) → MeansPlain (map string_bytes words.now) command → Serves
        (reads command) (Answers command)
        (source_state (S.left src.old) (S.faults src.old) (S.tally src.old))
        (source_state (S.left src.new) (S.faults src.new) (S.tally src.new))
        (sink_state (K.written sink.old) (K.faults sink.old))
        (sink_state (K.written sink.new) (K.faults sink.new)) result }

    // Where nothing fails the whole answer is written, but for too long an input and for want of memory.
    ensures completes { (command : Command) → MeansPlain (map string_bytes words.now) command → Completes
        (reads command) (Answers command)
        (source_state (S.left src.old) (S.faults src.old) (S.tally src.old))
        (source_state (S.left src.new) (S.faults src.new) (S.tally src.new))
        (sink_state (K.written sink.old) (K.faults sink.old))
        (sink_state (K.written sink.new) (K.faults sink.new)) result }

    // An input that is too long, as the source counts or tells its bytes, is told so, but for want of memory.
    ensures too_long { GaveTooMuch
        (source_state (S.left src.old) (S.faults src.old) (S.tally src.old))
        (source_state (S.left src.new) (S.faults src.new) (S.tally src.new)) →
        (result ≡ Status.TooLong) ⊎ (result ≡ Status.NoMemory) }
{
    match read_plain(alloc, words) {
        Ok(command) => serve(alloc, &command, src, sink),
        Err(CliFault::Usage(number)) => Status::Usage(number),
        Err(CliFault::NoMemory) => Status::NoMemory,
    }
}

/// Carries out `smp` by the words: runs the image that the source gives, its threads on workers beside each other, and reports.
/// Before each turn a worker calls the gate. Where there was a run it is handed out, and what was written is its report, or
/// the first part of it. The words of other commands are faulty here from the first on.
pub fn smp<R: Threads + Sync, S: Source, K: Sink, G: Turnstile + Sync>(
    rt: &R,
    alloc: Global,
    words: &[String],
    src: &mut S,
    sink: &mut K,
    gate: &G,
) -> (Status, Option<Ran>)
    // The words are a threaded run, or one of them is the first faulty one.
    ensures command { ((number : ℕ) × FaultyWord IsSmp (map string_bytes words.now) number)
        ⊎ ((settings : SettingsData) × (workers : ℕ) × MeansSmp (map string_bytes words.now) settings workers) }

    // They are none exactly where that is the answer. Then nothing is read or written.
    ensures usage { (number : ℕ) →
        (result.0 ≡ Status.Usage number) ↔ FaultyWord IsSmp (map string_bytes words.now) number }
    ensures unread { (number : ℕ) → FaultyWord IsSmp (map string_bytes words.now) number → IsUntouched
        (source_state (S.left src.old) (S.faults src.old) (S.tally src.old))
        (source_state (S.left src.new) (S.faults src.new) (S.tally src.new))
        (sink_state (K.written sink.old) (K.faults sink.old))
        (sink_state (K.written sink.new) (K.faults sink.new)) }

    // There was a run exactly where its report was written, wholly or up to a write that failed.
    ensures ran { is_some result.1 ≡ has_run result.0 }

    // Each other answer has its cause, and what was written is the report of that very run, whose threads are those of one
    // schedule, or its first part.
    ensures serves { (settings : SettingsData) (workers : ℕ) → MeansSmp (map string_bytes words.now) settings workers → Serves
        true (AnswersThreaded settings result.1)
        (source_state (S.left src.old) (S.faults src.old) (S.tally src.old))
        (source_state (S.left src.new) (S.faults src.new) (S.tally src.new))
        (sink_state (K.written sink.old) (K.faults sink.old))
        (sink_state (K.written sink.new) (K.faults sink.new)) result.0 }

    // Where nothing fails the whole report is written, but for too long an input and for want of memory.
    ensures completes { (settings : SettingsData) (workers : ℕ) → MeansSmp (map string_bytes words.now) settings workers → Completes
        true (AnswersThreaded settings result.1)
        (source_state (S.left src.old) (S.faults src.old) (S.tally src.old))
        (source_state (S.left src.new) (S.faults src.new) (S.tally src.new))
        (sink_state (K.written sink.old) (K.faults sink.old))
        (sink_state (K.written sink.new) (K.faults sink.new)) result.0 }

    // An input that is too long, as the source counts or tells its bytes, is told so, but for want of memory.
    ensures too_long { GaveTooMuch
        (source_state (S.left src.old) (S.faults src.old) (S.tally src.old))
        (source_state (S.left src.new) (S.faults src.new) (S.tally src.new)) →
        (result.0 ≡ Status.TooLong) ⊎ (result.0 ≡ Status.NoMemory) }
{
    match read_smp(alloc, words) {
        Ok((settings, workers)) => { serve_threads(rt, alloc, &settings, workers, src, sink, gate) }
        Err(CliFault::Usage(number)) => (Status::Usage(number), None),
        Err(CliFault::NoMemory) => (Status::NoMemory, None),
    }
}
