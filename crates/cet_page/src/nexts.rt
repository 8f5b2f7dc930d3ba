//! What a part's `next` answers.

ghost use Rattle.std.specs.Prelude.{◌≡◌, ◌<◌, ◌^◌, ◌-◌};

use crate::cursors::Suspended;
use crate::finishes::Leaving;
use cet_isa::{Arch, Fault, Record};
use cet_words::Access;

/// What an instruction, a kernel call or a part of one does next: an access, or it is done, with the new
/// state and its record if there is one, or it has a fault.
#[derive(Clone, Copy, Debug, PartialEq, Eq)]
pub enum Next {
    Access(Access),
    Done(Arch, Option<Record>),
    Fault(Fault),
}

impl Next {
    ghost use Rattle.cet_page.specs.Plays.{next_after, with_leaving, with_state};

    /// What a part of a row does next, by how far its accesses have led: a state with a record, or
    /// with none.
    pub fn of(reached: Result<(Arch, Option<Record>), Suspended>) -> Next
        ensures { result ≡ next_after (λ x. x) reached }
    {
        match reached {
            Ok((arch, noted)) => Next::Done(arch, noted),
            Err(Suspended::Access(access, _)) => Next::Access(access),
            Err(Suspended::Fault(fault)) => Next::Fault(fault),
        }
    }

    /// The same of an instruction, which ends with a record and this state.
    pub fn noted(after: &Arch, reached: Result<Record, Suspended>) -> Next
        ensures { result ≡ next_after (with_state after.now) reached }
    {
        match reached {
            Ok(noted) => Next::of(Ok((*after, Some(noted)))),
            Err(stop) => Next::of(Err(stop)),
        }
    }

    /// The same of a service, before the way out.
    pub fn leaving(reached: Result<(Arch, Record, Leaving), Suspended>) -> Next
        ensures { result ≡ next_after with_leaving reached }
    {
        match reached {
            Ok((arch, noted, _)) => Next::of(Ok((arch, Some(noted)))),
            Err(stop) => Next::of(Err(stop)),
        }
    }
}
