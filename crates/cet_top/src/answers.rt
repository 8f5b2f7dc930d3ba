//! The status and the output that a command answers with.

ghost use Rattle.std.specs.Prelude.{◌≡◌, []};

use crate::status::Status;
use cet_words::Bytes;
use std::alloc::Global;

/// The status and the output of a command.
#[derive(Debug, Drop)]
pub(crate) struct Answer {
    pub status: Status,
    pub output: Bytes,
}

/// The answer to a file that isn't accepted.
pub(crate) fn refused(alloc: Global, rule: u8, offset: u64) -> Answer
    ensures { result ≡ record { status = Status.Refused rule offset; output = [] } }
{
    Answer {
        status: Status::Refused { rule, offset },
        output: Bytes::new(alloc),
    }
}

/// The answer to a text that breaks a rule.
pub(crate) fn faulty(alloc: Global, line: u32, rule: u8) -> Answer
    ensures { result ≡ record { status = Status.AsmRefused line rule; output = [] } }
{
    Answer {
        status: Status::AsmRefused { line, rule },
        output: Bytes::new(alloc),
    }
}
