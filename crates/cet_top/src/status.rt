//! How a command ended, with its exit code and its line.

ghost use Rattle.std.specs.Prelude.{◌≡◌};
ghost use Rattle.cet_top.specs.Status.{status_code};

use std::fmt;

/// How a command ended.
#[derive(Clone, Copy, Debug, PartialEq, Eq)]
pub enum Status {
    /// All output was written, and a process that ran ended by exit.
    Done,
    /// The first faulty word of the command, counted from 1, or the number after the last one where
    /// more words are missing.
    Usage(u32),
    /// The source has failed.
    ReadFault,
    /// The sink has failed. It has a first part of the output.
    WriteFault,
    /// The first loader rule that the image breaks, and the place in the file where it does.
    Refused { rule: u8, offset: u64 },
    /// The first faulty line of the assembler text, counted from 1, and the rule that it breaks.
    AsmRefused { line: u32, rule: u8 },
    /// The source gave more than 8,388,608 bytes.
    TooLong,
    /// The process was killed by this signal.
    Killed(u8),
    /// This thread is the lowest that stopped at the limit of its records.
    Limit(u8),
    /// No memory was left.
    NoMemory,
}

impl Status {
    /// The exit code of the program, 0 to 9.
    pub fn code(&self) -> u8
        ensures { result ≡ status_code self.now }
    {
        match self {
            Status::Done => 0,
            Status::Usage(_) => 1,
            Status::ReadFault => 2,
            Status::WriteFault => 3,
            Status::Refused { .. } => 4,
            Status::AsmRefused { .. } => 5,
            Status::TooLong => 6,
            Status::Killed(_) => 7,
            Status::Limit(_) => 8,
            Status::NoMemory => 9,
        }
    }
}

/// The line that the program prints on standard error, without its newline; nothing for `Done`.
impl fmt::Display for Status {
    fn fmt<W: fmt::Write>(&self, f: &mut fmt::Formatter<W>) -> fmt::Result {
        match self {
            Status::Done => Ok(()),
            Status::Usage(word) => write!(f, "cetvm: usage: word {word}"),
            Status::ReadFault => write!(f, "cetvm: read fault"),
            Status::WriteFault => write!(f, "cetvm: write fault"),
            Status::Refused { rule, offset } => write!(
                f,
                "cetvm: refused: rule {rule} at {offset}"
            ),
            Status::AsmRefused { line, rule } => write!(f, "cetvm: line {line}: rule {rule}"),
            Status::TooLong => write!(f, "cetvm: input too long"),
            Status::Killed(signal) => write!(f, "cetvm: killed by {signal}"),
            Status::Limit(thread) => write!(f, "cetvm: limit in thread {thread}"),
            Status::NoMemory => write!(f, "cetvm: out of memory"),
        }
    }
}
