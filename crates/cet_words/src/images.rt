//! Images, signals and jobs as data.

ghost use Rattle.std.specs.Prelude.{◌≡◌};

use crate::lists::{Bytes, Items};
use std::marker::Model;

/// One loaded segment of an image (System V ABI, PT_LOAD).
#[derive(Debug, Drop)]
pub struct Segment {
    /// The address of its first byte.
    pub start: u64,
    /// Its bytes from the file, from `start` on. The rest up to `size` is 0.
    pub bytes: Bytes,
    /// Its size in memory, in bytes. A segment of size 0 has no page.
    pub size: u64,
    /// Whether its pages may be stored to.
    pub write: bool,
    /// Whether its pages may be executed.
    pub exec: bool,
}

/// The segments of an image, in the order of its program headers.
pub type Segments = Items<Segment>;

/// A loaded image. Its segments lie from 0x400000 to 0x800000, no page is in two of them, none is
/// both writable and executable, and the entry lies in an executable one.
#[derive(Debug, Drop)]
pub struct Image {
    /// The address of the first instruction.
    pub entry: u64,
    /// Whether it is marked for shadow stacks (GNU_PROPERTY_X86_FEATURE_1_SHSTK).
    pub marked: bool,
    /// Whether it is marked for branch tracking (GNU_PROPERTY_X86_FEATURE_1_IBT).
    pub tracked: bool,
    pub segments: Segments,
}

impl Model for Image {
    ghost use Rattle.cet_words.specs.Job.{ImageData, IsImage};

    ghost Value = { ImageData };

    ghost view = { λ i. record { entry = i.entry; marked = i.marked; tracked = i.tracked; segments = i.segments } };

    ghost invariant = { λ i. IsImage i.entry i.segments };
}

/// A signal that a thread posts to itself.
#[derive(Clone, Copy, Debug, PartialEq, Eq)]
pub struct Signal {
    /// The thread's number, 0 to 31.
    pub thread: u8,
    /// The thread's count of records from which on it is posted.
    pub count: u32,
    /// The signal's number, 1 to 31.
    pub number: u8,
}

/// A list of signals.
pub type Signals = Items<Signal>;

/// What a run is given: an image, 1 to 8 processors, a limit of 1 to 100,000 records for each thread,
/// and at most 256 signals.
#[derive(Debug, Drop)]
pub struct Job<'a> {
    pub image: &'a Image,
    pub procs: u8,
    pub limit: u32,
    pub signals: &'a [Signal],
}

impl<'a> Model for Job<'a> {
    ghost use Rattle.cet_words.specs.Job.{JobData, IsJob};

    ghost Value = { JobData };

    ghost view = { λ j. record { image = j.image.now; procs = j.procs; limit = j.limit; signals = j.signals.now } };

    ghost invariant = { λ j. IsJob (record { image = j.image.now; procs = j.procs; limit = j.limit; signals = j.signals.now }) };
}
