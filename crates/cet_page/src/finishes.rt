//! What rows come to, and what ends with the way out of the kernel.

ghost use Rattle.std.specs.Prelude.{◌≡◌, ◌-◌, ◌<◌, ◌^◌};
ghost use Rattle.cet_page.specs.Finish.{counted};

use cet_isa::{Arch, Record};

/// What a row comes to, with the state after it.
#[derive(Clone, Copy, Debug, PartialEq, Eq)]
pub enum Finish {
    /// The new state and the record.
    Noted(Arch, Record),
    /// The new state after the posting of a listed signal, which gives no record.
    Posted(Arch),
    /// The new state, the record and the status of the service exit.
    Exited(Arch, Record, u8),
    /// The process has ended.
    Stopped,
}

/// What ends with the way out of the kernel.
#[derive(Clone, Copy, Debug, PartialEq, Eq)]
pub enum Leaving {
    /// Nothing: the thread goes on.
    Back,
    /// The frame of a signal, which is popped from the thread's shadow stack.
    Popped,
    /// The thread, with this status.
    Ended(u8),
}

/// The state with one record more.
pub fn counted(arch: &Arch) -> Arch
    requires { arch.now.count < 2 ^ 32 - 1 }
    ensures { result ≡ counted arch.now }
{
    let mut after = *arch;
    after.count = arch.count + 1;
    after
}
