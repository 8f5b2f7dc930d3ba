//! Sources and sinks in memory, some of which fail where they are told to.

ghost use Rattle.std.specs.Prelude.{◌≡◌, ◌+◌, ◌<◌, ◌≤◌, List, [], ◌==◌, length, min, take, drop, IfOk, Some, None, OnErr, is_err};
ghost use Rattle.std.specs.List.{list_any};
ghost use Rattle.cet_io.specs.Stream.{CountsFaults, HasCause, Reads, Steady, Writes, tallied};
ghost use Rattle.cet_io.specs.SureSource.{tally_of};
ghost use Rattle.cet_io.specs.MemSource.{breaks, given, after_read};
ghost use Rattle.cet_io.specs.MemSink.{refuses, taken, after_write};

use crate::streams::{Failed, Sink, Source};
use cet_words::NoMemory;
use std::alloc::Global;
use std::marker::Model;

/// A source in memory that never fails and tells its bytes.
#[derive(Debug, Drop)]
pub struct SureSource {
    bytes: Vec<u8>,
    at: usize,
    ends: u64,
}

impl Model for SureSource {
    ghost use Rattle.std.specs.Prelude.{◌≤◌, length, drop};
    ghost use Rattle.cet_io.specs.SureSource.{SureSourceState};

    ghost Value = { SureSourceState };

    ghost view = { λ s. record { left = drop s.at s.bytes.items; given = s.at; ends = s.ends } };

    ghost invariant = { λ s. s.at ≤ length s.bytes.items };
}

impl SureSource {
    /// A source of these bytes.
    pub fn new(alloc: Global, bytes: &[u8]) -> Result<SureSource, NoMemory>
        ensures { IfOk result (λ s. s ≡ record { left = bytes.now; given = 0; ends = 0 }) }
    {
        let bytes = Vec::from_slice(alloc, bytes)?;
        Ok(SureSource {
            bytes,
            at: 0,
            ends: 0,
        })
    }
}

/// Copies the front of `from` to the front of `to`, as much as there is room for.
fn copy_front(from: &[u8], to: &mut [u8]) -> usize
    ensures count { result ≡ min (length from.now) (length to.old) }
    ensures copied { take result to.new ≡ take result from.now }
{
    let count = from.len().min(to.len());
    to[..count].copy_from_slice(&from[..count]);
    count
}

impl Source for SureSource {
    ghost left = { λ s. Some s.left };

    ghost faults = { λ _. 0 };

    ghost tally = { λ s. Some (tally_of s) };

    fn read(&mut self, buf: &mut [u8]) -> Result<usize, Failed>
        ensures bytes { Reads (Some self.old.left) (Some self.new.left) buf.new result }
        ensures cause { HasCause 0 0 result }
        ensures counts { Some (tally_of self.new) ≡ tallied (Some (tally_of self.old)) (length buf.new) result }
        ensures steady { CountsFaults (Some (tally_of self.old)) 0 0 result }
        ensures most { IfOk result (λ n. n ≡ min (length buf.old) (length self.old.left)) }
    {
        let count = copy_front(&self.bytes[self.at..], buf);
        self.at += count;
        if count == 0 && !buf.is_empty() {
            self.ends = self.ends.saturating_add(1);
        }
        Ok(count)
    }
}

/// Whether the number is in the list.
fn is_among(numbers: &[u32], number: u64) -> bool
    ensures { result ≡ list_any (λ n. n == number) numbers.now }
{
    numbers.iter().any(|n| u64::from(*n) == number)
}

/// A source in memory that tells its bytes, gives a part of them in each read, and fails where it was
/// told to.
#[derive(Debug, Drop)]
pub struct MemSource {
    bytes: Vec<u8>,
    at: usize,
    faults: u64,
    ends: u64,
    calls: u64,
    fails: Vec<u32>,
    piece: u32,
}

impl Model for MemSource {
    ghost use Rattle.std.specs.Prelude.{◌≤◌, length, drop};
    ghost use Rattle.cet_io.specs.MemSource.{MemSourceState};

    ghost Value = { MemSourceState };

    ghost view = { λ s. record { left = drop s.at s.bytes.items; faults = s.faults; tally = record { given = s.at; ends = s.ends }; calls = s.calls; fails = s.fails.items; piece = s.piece } };

    ghost invariant = { λ s. (1 ≤ s.piece) × (s.at ≤ length s.bytes.items) };
}

impl MemSource {
    /// A source of these bytes that gives at most `piece` of them in one read. The calls whose numbers,
    /// counted from 1, are in `fails` give nothing and fail.
    pub fn new(
        alloc: Global,
        bytes: &[u8],
        piece: u32,
        fails: &[u32],
    ) -> Result<MemSource, NoMemory>
        requires { 1 ≤ piece }
        ensures { IfOk result (λ s. s ≡ record { left = bytes.now; faults = 0; tally = record { given = 0; ends = 0 }; calls = 0; fails = fails.now; piece = piece }) }
    {
        let bytes = Vec::from_slice(alloc, bytes)?;
        let fails = Vec::from_slice(alloc, fails)?;
        Ok(MemSource {
            bytes,
            at: 0,
            faults: 0,
            ends: 0,
            calls: 0,
            fails,
            piece,
        })
    }

    /// The bytes that are left.
    pub fn left(&self) -> &[u8]
        ensures { result.now ≡ self.now.left }
    {
        &self.bytes[self.at..]
    }

    /// How many calls have failed, up to 2^64 - 1.
    pub fn faults(&self) -> u64
        ensures { result ≡ self.now.faults }
    {
        self.faults
    }

    fn breaks(&self) -> bool
        ensures { result ≡ breaks self.now }
    {
        is_among(&self.fails, self.calls.saturating_add(1))
    }

    /// Copies the bytes of one read to the front of the buffer, and answers their number.
    fn copy_piece(&self, buf: &mut [u8]) -> usize
        ensures count { result ≡ given self.now (length buf.old) }
        ensures copied { take result buf.new ≡ take result self.now.left }
    {
        let left = self.left();
        let most = left.len().min(self.piece as usize);
        copy_front(&left[..most], buf)
    }
}

impl Source for MemSource {
    ghost left = { λ s. Some s.left };

    ghost faults = { λ s. s.faults };

    ghost tally = { λ s. Some s.tally };

    fn read(&mut self, buf: &mut [u8]) -> Result<usize, Failed>
        ensures bytes { Reads (Some self.old.left) (Some self.new.left) buf.new result }
        ensures cause { HasCause self.old.faults self.new.faults result }
        ensures counts { Some self.new.tally ≡ tallied (Some self.old.tally) (length buf.new) result }
        ensures steady { CountsFaults (Some self.old.tally) self.old.faults self.new.faults result }
        ensures broken { is_err result ≡ breaks self.old }
        ensures given { IfOk result (λ n. n ≡ given self.old (length buf.old)) }
        ensures after { self.new ≡ after_read self.old (length buf.old) }
        ensures kept { OnErr result (buf.new ≡ buf.old) }
    {
        let broken = self.breaks();
        self.calls = self.calls.saturating_add(1);
        if broken {
            self.faults = self.faults.saturating_add(1);
            return Err(Failed);
        }
        let count = self.copy_piece(buf);
        self.at += count;
        if count == 0 && !buf.is_empty() {
            self.ends = self.ends.saturating_add(1);
        }
        Ok(count)
    }
}

/// A sink that takes each piece whole and keeps nothing.
#[derive(Clone, Copy, Debug)]
pub struct SureSink;

impl SureSink {
    /// A sink that never fails.
    pub fn new() -> SureSink {
        SureSink
    }
}

impl Sink for SureSink {
    ghost written = { λ _. None };

    ghost faults = { λ _. 0 };

    fn write(&mut self, piece: &[u8]) -> Result<usize, Failed>
        ensures bytes { Writes None None piece.now result }
        ensures cause { HasCause 0 0 result }
        ensures steady { Steady 0 0 result }
        ensures whole { IfOk result (λ n. n ≡ length piece.now) }
    {
        Ok(piece.len())
    }
}

/// A sink in memory with a room of its own, which tells its bytes and fails where it was told to.
#[derive(Debug, Drop)]
pub struct MemSink {
    written: Vec<u8>,
    faults: u64,
    calls: u64,
    fails: Vec<u32>,
    room: u32,
    piece: u32,
}

impl Model for MemSink {
    ghost use Rattle.std.specs.Prelude.{◌≤◌, length};
    ghost use Rattle.std.specs.Vec.{vec_capacity};
    ghost use Rattle.cet_io.specs.MemSink.{MemSinkState};

    ghost Value = { MemSinkState };

    ghost view = { λ s. record { written = s.written.items; faults = s.faults; calls = s.calls; fails = s.fails.items; room = s.room; piece = s.piece } };

    ghost invariant = { λ s. (1 ≤ s.piece) × (length s.written.items ≤ s.room) × (s.room ≤ vec_capacity s.written) };
}

impl MemSink {
    /// An empty sink that takes `room` bytes in all and at most `piece` of one write. The calls whose
    /// numbers, counted from 1, are in `fails` take nothing and fail, and so does one that finds the
    /// room full.
    pub fn new(alloc: Global, room: u32, piece: u32, fails: &[u32]) -> Result<MemSink, NoMemory>
        requires { 1 ≤ piece }
        ensures { IfOk result (λ s. s ≡ record { written = []; faults = 0; calls = 0; fails = fails.now; room = room; piece = piece }) }
    {
        let written = Vec::with_capacity(alloc, room as usize)?;
        let fails = Vec::from_slice(alloc, fails)?;
        Ok(MemSink {
            written,
            faults: 0,
            calls: 0,
            fails,
            room,
            piece,
        })
    }

    /// The bytes written so far.
    pub fn bytes(&self) -> &[u8]
        ensures { result.now ≡ self.now.written }
    {
        self.written.as_slice()
    }

    /// How many calls have failed, up to 2^64 - 1.
    pub fn faults(&self) -> u64
        ensures { result ≡ self.now.faults }
    {
        self.faults
    }

    fn refuses(&self, piece: &[u8]) -> bool
        ensures { result ≡ refuses self.now piece.now }
    {
        let told = is_among(&self.fails, self.calls.saturating_add(1));
        told || (!piece.is_empty() && self.written.len() >= self.room as usize)
    }
}

impl Sink for MemSink {
    ghost written = { λ s. Some s.written };

    ghost faults = { λ s. s.faults };

    fn write(&mut self, piece: &[u8]) -> Result<usize, Failed>
        ensures bytes { Writes (Some self.old.written) (Some self.new.written) piece.now result }
        ensures cause { HasCause self.old.faults self.new.faults result }
        ensures steady { Steady self.old.faults self.new.faults result }
        ensures refused { is_err result ≡ refuses self.old piece.now }
        ensures taken { IfOk result (λ n. n ≡ taken self.old piece.now) }
        ensures after { self.new ≡ after_write self.old piece.now }
    {
        let refused = self.refuses(piece);
        self.calls = self.calls.saturating_add(1);
        if refused {
            self.faults = self.faults.saturating_add(1);
            return Err(Failed);
        }
        let left = self.room as usize - self.written.len();
        let count = piece.len().min(self.piece as usize).min(left);
        self.written.extend_from_slice(&piece[..count]).unwrap();
        Ok(count)
    }
}
