//! The program of a text.

ghost use Rattle.std.specs.Prelude.{◌≡◌, ◌<◌, ◌-◌, ◌^◌, length};
ghost use Rattle.cet_asm.specs.Answer.{IsAnswer};

use crate::first_pass::first_pass;
use crate::program::{AsmFault, Program};
use crate::second_pass::second_pass;
use cet_words::NoMemory;
use std::alloc::Global;

impl From<NoMemory> for AsmFault {
    ghost use Rattle.cet_asm.specs.declared.program.AsmFault.TheVariants as fault;

    ghost from_gives = { λ _ e. e ≡ fault.NoMemory };

    fn from(_error: NoMemory) -> AsmFault {
        AsmFault::NoMemory
    }
}

/// Assembles a text in two passes: first the places of all labels, then the rules and bytes of each line. `At` names the
/// first line that breaks a rule, counted from 1, and the first rule that it breaks, of 9 and then 1 to 8.
pub fn assemble(alloc: Global, source: &[u8]) -> Result<Program, AsmFault>
    requires { length source.now < 2 ^ 32 - 1 }
    ensures { IsAnswer source.now result }
{
    let survey = first_pass(alloc, source)?;
    second_pass(alloc, source, &survey.labels, survey.twice)
}
