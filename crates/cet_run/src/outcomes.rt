//! What a run has come to: records, ends and shadow stacks.

ghost use Rattle.std.specs.Prelude.{◌≡◌, [], ◌∷◌, ◌++◌, length, OnOk, OnErr, slice_get};

use cet_book::StackReports;
use cet_isa::{End, Record};
use cet_words::{Items, NoMemory};
use std::alloc::Global;
use std::marker::Model;

/// A list of records.
#[derive(Debug, Drop)]
pub struct Records {
    records: Vec<Record>,
}

impl Model for Records {
    ghost use Rattle.std.specs.Prelude.{List};
    ghost use Rattle.cet_isa.specs.declared.threads.Record.{Record};

    ghost Value = { List Record };

    ghost view = { λ r. r.records.items };
}

impl Records {
    /// The empty list. It takes no memory.
    pub fn new(alloc: Global) -> Self
        ensures { result ≡ [] }
    {
        Records {
            records: Vec::new(alloc),
        }
    }

    /// Appends a record. Where no memory is left the list stays as it is.
    pub fn push(&mut self, _alloc: Global, item: Record) -> Result<(), NoMemory>
        ensures ok { OnOk result (self.new ≡ self.old ++ item ∷ []) }
        ensures err { OnErr result (self.new ≡ self.old) }
    {
        self.records.push(item)?;
        Ok(())
    }

    /// The number of records.
    pub fn len(&self) -> usize
        ensures { result ≡ length self.now }
    {
        self.records.len()
    }

    /// The record at a place, counted from 0.
    pub fn get(&self, at: usize) -> Option<Record>
        ensures { result ≡ slice_get self.now at }
    {
        self.records.get(at).copied()
    }

    /// All records.
    pub fn as_slice(&self) -> &[Record]
        ensures { result.now ≡ self.now }
    {
        self.records.as_slice()
    }
}

/// A thread of an outcome: its records, and how it ended.
#[derive(Debug, Drop)]
pub struct ThreadOut {
    pub records: Records,
    pub end: End,
}

/// The threads of an outcome, by number.
pub type ThreadOuts = Items<ThreadOut>;

/// How a process ended.
#[derive(Clone, Copy, Debug, PartialEq, Eq)]
pub enum ProcessEnd {
    /// By exit, with this status.
    Exit(u8),
    /// By a kill, with this signal.
    Killed(u8),
    /// By the limit of records, which this thread is the lowest to have reached.
    Limit(u8),
}

/// What a run came to.
#[derive(Debug, Drop)]
pub struct Outcome {
    pub threads: ThreadOuts,
    pub stacks: StackReports,
    pub process: ProcessEnd,
}
