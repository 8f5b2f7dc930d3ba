//! All of a source read, and all of an output written.

ghost use Rattle.std.specs.Prelude.{◌≡◌, ◌<◌, ◌≤◌, length, IfOk, OnOk, OnErr, IsErrOf};
ghost use Rattle.cet_io.specs.Stream.{HasCause, AppendsSome};
ghost use Rattle.cet_top.specs.Reading.{ReadSome, ReadToEnd, ReadTooMuch, ReadUntilFault, source_state};
ghost use Rattle.cet_top.specs.Serves.{Wrote, sink_state};

use cet_io::{Failed, Sink, Source};
use cet_words::{Bytes, NoMemory};
use std::alloc::Global;

/// The most bytes that a source may give.
const MOST_BYTES: usize = 8_388_608;

/// Why a source wasn't read to its end.
#[derive(Clone, Copy, Debug, PartialEq, Eq)]
pub(crate) enum Unread {
    NoMemory,
    Failed,
    TooLong,
}

impl From<NoMemory> for Unread {
    ghost use Rattle.cet_top.specs.declared.transfers.Unread.TheVariants as unread;

    ghost from_gives = { λ _ e. e ≡ unread.NoMemory };

    fn from(_error: NoMemory) -> Unread {
        Unread::NoMemory
    }
}

impl From<Failed> for Unread {
    ghost use Rattle.cet_top.specs.declared.transfers.Unread.TheVariants as unread;

    ghost from_gives = { λ _ e. e ≡ unread.Failed };

    fn from(_error: Failed) -> Unread {
        Unread::Failed
    }
}

/// Reads a source to its end, or up to the read that passes 8,388,608 bytes.
pub(crate) fn read_all<S: Source>(alloc: Global, src: &mut S) -> Result<Bytes, Unread>
    ensures all { IfOk result (ReadToEnd
        (source_state (S.left src.old) (S.faults src.old) (S.tally src.old))
        (source_state (S.left src.new) (S.faults src.new) (S.tally src.new))) }
    ensures later { S.faults src.old ≤ S.faults src.new }

    // What was read before each error, and its cause, but for want of memory.
    ensures failed { IsErrOf result Unread.Failed → ReadUntilFault
        (source_state (S.left src.old) (S.faults src.old) (S.tally src.old))
        (source_state (S.left src.new) (S.faults src.new) (S.tally src.new)) }
    ensures long { IsErrOf result Unread.TooLong → ReadTooMuch
        (source_state (S.left src.old) (S.faults src.old) (S.tally src.old))
        (source_state (S.left src.new) (S.faults src.new) (S.tally src.new)) }
    ensures memory { IsErrOf result Unread.NoMemory → ReadSome
        (source_state (S.left src.old) (S.faults src.old) (S.tally src.old))
        (source_state (S.left src.new) (S.faults src.new) (S.tally src.new)) }
{
    let mut bytes = Bytes::new(alloc);
    let mut buf = [0; 4096];
    'reads: while bytes.len() <= MOST_BYTES {
        let count = src.read(&mut buf)?;
        if count == 0 {
            return Ok(bytes);
        }
        bytes.extend(alloc, &buf[..count])?;
    }
    Err(Unread::TooLong)
}

/// Writes all bytes to a sink. Where there are none the sink isn't used.
pub(crate) fn write_all<K: Sink>(sink: &mut K, bytes: &[u8]) -> Result<(), Failed>
    ensures written { OnOk result (Wrote
        (sink_state (K.written sink.old) (K.faults sink.old))
        (sink_state (K.written sink.new) (K.faults sink.new)) bytes.now) }
    ensures part { OnErr result (AppendsSome (K.written sink.old) (K.written sink.new) bytes.now) }
    ensures some { OnErr result (0 < length bytes.now) }
    ensures cause { HasCause (K.faults sink.old) (K.faults sink.new) result }
{
    let mut at = 0;
    'writes: while at < bytes.len() {
        at += sink.write(&bytes[at..])?;
    }
    Ok(())
}
