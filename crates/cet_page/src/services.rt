//! What a service of the kernel leaves that returns to the thread.

ghost use Rattle.std.specs.Prelude.{◌≡◌, ◌-◌, ◌^◌, ◌<◌, ◌≤◌};
ghost use Rattle.cet_page.specs.Gate.{error_number, failed, served, sys_record, serve};

use crate::finishes::Leaving;
use cet_isa::{Arch, R11, RAX, RCX, Record, What};

/// SYSCALL is `0F 05`.
pub const SYSCALL_LENGTH: u64 = 2;

/// The errors of services, by Linux's names (include/uapi/asm-generic/errno.h).
#[derive(Clone, Copy, Debug, PartialEq, Eq)]
pub enum Errno {
    /// EPERM, 1.
    Perm,
    /// ESRCH, 3.
    Srch,
    /// EBADF, 9.
    BadF,
    /// EAGAIN, 11.
    Again,
    /// ENOMEM, 12.
    NoMem,
    /// EFAULT, 14.
    Fault,
    /// EEXIST, 17.
    Exist,
    /// EINVAL, 22.
    Inval,
    /// ENOSPC, 28.
    NoSpc,
    /// ERANGE, 34.
    Range,
    /// ENOSYS, 38.
    NoSys,
    /// EOVERFLOW, 75.
    Overflow,
}

fn error_number(error: Errno) -> u64
    ensures number { result ≡ error_number error }
    ensures low { 0 < result }
    ensures high { result < 128 }
{
    match error {
        Errno::Perm => 1,
        Errno::Srch => 3,
        Errno::BadF => 9,
        Errno::Again => 11,
        Errno::NoMem => 12,
        Errno::Fault => 14,
        Errno::Exist => 17,
        Errno::Inval => 22,
        Errno::NoSpc => 28,
        Errno::Range => 34,
        Errno::NoSys => 38,
        Errno::Overflow => 75,
    }
}

/// The record of a service with this result.
pub fn sys_record(arch: &Arch, value: u64) -> Record
    ensures { result ≡ sys_record arch.now value }
{
    Record {
        rip: arch.rip,
        what: What::Sys,
        code: 0,
        a: arch.regs[RAX],
        b: value,
    }
}

/// The state after a kernel call that goes back to the instruction after SYSCALL.
pub fn served(arch: &Arch, value: u64) -> Arch
    requires { arch.now.count < 2 ^ 32 - 1 }
    ensures { result ≡ served arch.now value }
{
    let next = arch.rip.wrapping_add(SYSCALL_LENGTH);
    let mut after = *arch;
    after.regs[RCX] = next;
    after.regs[R11] = arch.flags;
    after.regs[RAX] = value;
    after.rip = next;
    after.count = arch.count + 1;
    after
}

/// A service that returns this result.
pub fn serve(arch: &Arch, value: u64) -> (Arch, Record, Leaving)
    requires { arch.now.count < 2 ^ 32 - 1 }
    ensures { result ≡ serve arch.now value }
{
    (served(arch, value), sys_record(arch, value), Leaving::Back)
}

/// A service that returns an error: minus its number.
pub fn failed(arch: &Arch, error: Errno) -> (Arch, Record, Leaving)
    requires { arch.now.count < 2 ^ 32 - 1 }
    ensures { result ≡ failed arch.now error }
{
    serve(arch, u64::MAX - error_number(error) + 1)
}
