//! What the commands answer to the bytes of the source.

ghost use Rattle.std.specs.Prelude.{◌≡◌, ◌≤◌, ◌∷◌, ◌++◌, [], codes, false, length, IfOk};
ghost use Rattle.cet_cli.specs.Words.{HasNumber, is_threaded};
ghost use Rattle.cet_top.specs.Answer.{Answers};
ghost use Rattle.cet_top.specs.Listing.{IsListing};
ghost use Rattle.cet_top.specs.Reading.{most_input};

use crate::answers::{Answer, refused};
use crate::assembling::{assemble_bytes, bench};
use crate::listing::listing;
use crate::runs::{Course, run_bytes};
use crate::status::Status;
use cet_cli::Command;
use cet_elf::{LoadFault, load};
use cet_words::{Bytes, Image, NoMemory};
use std::alloc::Global;

/// Lists an image.
fn list_image(alloc: Global, image: &Image) -> Result<Answer, NoMemory>
    ensures { IfOk result (λ answer. (answer.status ≡ Status.Done) × IsListing image.now.segments answer.output) }
{
    let output = listing(alloc, image)?;
    Ok(Answer {
        status: Status::Done,
        output,
    })
}

/// Lists the image that the bytes are.
fn list_bytes(alloc: Global, bytes: &[u8]) -> Result<Answer, NoMemory>
    ensures { IfOk result (λ answer. Answers Command.Dis bytes.now answer.status answer.output) }
{
    match load(alloc, bytes) {
        Ok(image) => list_image(alloc, &image),
        Err(LoadFault::Refused { rule, offset }) => Ok(refused(alloc, rule, offset)),
        Err(LoadFault::NoMemory) => Err(NoMemory),
    }
}

/// The answer to a file that is accepted, where that alone is asked.
fn accepted(alloc: Global) -> Result<Answer, NoMemory>
    ensures { IfOk result (λ answer. (answer.status ≡ Status.Done) × (answer.output ≡ codes "accepted" ++ 10 ∷ [])) }
{
    let mut output = Bytes::new(alloc);
    output.extend(alloc, b"accepted\n")?;
    Ok(Answer {
        status: Status::Done,
        output,
    })
}

/// Tells whether the bytes are an image.
fn check_bytes(alloc: Global, bytes: &[u8]) -> Result<Answer, NoMemory>
    ensures { IfOk result (λ answer. Answers Command.Check bytes.now answer.status answer.output) }
{
    match load(alloc, bytes) {
        Ok(_image) => accepted(alloc),
        Err(LoadFault::Refused { rule, offset }) => Ok(refused(alloc, rule, offset)),
        Err(LoadFault::NoMemory) => Err(NoMemory),
    }
}

/// What a command that is no threaded run answers to the bytes of the source.
pub(crate) fn answer_to(alloc: Global, command: &Command, bytes: &[u8]) -> Result<Answer, NoMemory>
    requires short { length bytes.now ≤ most_input }
    requires number { HasNumber command.now }
    requires plain { is_threaded command.now ≡ false }
    ensures { IfOk result (λ answer. Answers command.now bytes.now answer.status answer.output) }
{
    match command {
        Command::Run(settings) => run_bytes(alloc, settings, Course::Robin, bytes),
        Command::Replay(settings, plan) => run_bytes(alloc, settings, Course::Planned(plan), bytes),
        Command::Dis => list_bytes(alloc, bytes),
        Command::Asm { runtime } => assemble_bytes(alloc, *runtime, bytes),
        Command::Check => check_bytes(alloc, bytes),
        Command::Bench(n) => bench(alloc, *n),
        Command::Smp(_, _) => unreachable!(),
    }
}
