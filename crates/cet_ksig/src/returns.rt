//! rt_sigreturn: the return from a handler (Linux, sigreturn(2) and Documentation/arch/x86/shstk.rst).

ghost use Rattle.std.specs.Prelude.{◌≡◌, ◌+◌, ◌-◌, ◌^◌, ◌<◌, ◌≤◌, IfOk, IfSome, length};
ghost use Rattle.cet_words.specs.Layout.{word_count};
ghost use Rattle.cet_page.specs.Script.{play};
ghost use Rattle.cet_page.specs.Plays.{Refines};
ghost use Rattle.cet_page.specs.SigReturn.{popped_frame, restored, return_by, returned, returned_span, rt_sigreturn};

use crate::frames::FRAME_LAST;
use crate::kills::{SEGV, kill};
use crate::structures::{maskable, span};
use cet_isa::{Arch, RSP, Record, What, is_canonical};
use cet_page::{
    Cursor, Kind, Leaving, StatusFlags, Suspended, Who, frame_ssp, is_frame_word, word_in,
};

/// The words of a frame that are taken back: the registers, RIP, RFLAGS and the mask.
const SAVED_WORDS: u32 = 19;

/// The first word of a frame at an address.
#[tactic(auto, unfolding(cet_page::specs::SigReturn::returned_span))]
fn returned_span(addr: u64, at: &mut Cursor) -> Result<Option<u32>, Suspended>
    ensures comes { Refines (play (returned_span addr) at.old.left at.old.rest.now) result at.new.left at.new.rest.now }
    ensures range { IfOk result (λ found. IfSome found (λ word. word + 24 ≤ word_count)) }
{
    if !is_canonical(addr) || addr % 8 != 0 {
        return Ok(None);
    }
    span(Kind::Load, addr, FRAME_LAST, at)
}

/// The frame's first word on the program stack, and its word on the shadow stack; none where a look fails
/// or the word at SSP is no frame's.
#[tactic(auto, using(cet_page::proofs::ScriptLaws::play_bind), unfolding(cet_page::specs::SigReturn::popped_frame))]
fn popped_frame(arch: &Arch, at: &mut Cursor) -> Result<Option<(u32, u64)>, Suspended>
    ensures comes { Refines (play (popped_frame arch.now) at.old.left at.old.rest.now) result at.new.left at.new.rest.now }
    ensures range { IfOk result (λ found. IfSome found (λ x. x.0 + 24 ≤ word_count)) }
{
    let Some(frame) = returned_span(arch.regs[RSP].wrapping_sub(8), at)? else {
        return Ok(None);
    };
    let Some(page) = at.probe(Kind::ShadowLoad, Who::User, arch.ssp)? else {
        return Ok(None);
    };
    let word = at.load(word_in(page, arch.ssp))?;
    if !is_frame_word(word) {
        return Ok(None);
    }
    Ok(Some((frame, word)))
}

/// The state after the return, by the words saved in the frame and the frame's word on the shadow stack.
fn restored(arch: &Arch, saved: &[u64], word: u64) -> Arch
    requires saved { length saved.now ≡ 19 }
    requires count { arch.now.count < 2 ^ 32 - 1 }
    ensures { result ≡ restored arch.now saved.now word }
{
    let mut after = *arch;
    after.regs.copy_from_slice(&saved[..16]);
    after.rip = saved[16];
    after.flags = StatusFlags::of(saved[17]).rflags();
    after.ssp = frame_ssp(word);
    after.mask = maskable(saved[18]);
    after.count = arch.count + 1;
    after
}

fn returned(arch: &Arch, saved: &[u64], word: u64) -> (Arch, Record, Leaving)
    requires saved { length saved.now ≡ 19 }
    requires count { arch.now.count < 2 ^ 32 - 1 }
    ensures { result ≡ returned arch.now saved.now word }
{
    let noted = Record {
        rip: arch.rip,
        what: What::SigReturn,
        code: 0,
        a: saved[16],
        b: frame_ssp(word),
    };
    (restored(arch, saved, word), noted, Leaving::Popped)
}

/// The return to what a frame saved; without one the process is killed.
#[tactic(auto, using(cet_page::proofs::ScriptLaws::play_bind), unfolding(cet_page::specs::SigReturn::return_by))]
fn return_by(
    arch: &Arch,
    popped: Option<(u32, u64)>,
    at: &mut Cursor,
) -> Result<(Arch, Record, Leaving), Suspended>
    requires count { arch.now.count < 2 ^ 32 - 1 }
    requires frame { IfSome popped (λ x. x.0 + 24 ≤ word_count) }
    ensures { Refines (play (return_by arch.now popped) at.old.left at.old.rest.now) result at.new.left at.new.rest.now }
{
    let Some((frame, word)) = popped else {
        return kill(arch, SEGV, at);
    };
    let saved = at.loads(SAVED_WORDS, frame + 1)?;
    Ok(returned(arch, saved, word))
}

/// rt_sigreturn.
#[tactic(auto, using(cet_page::proofs::ScriptLaws::play_bind), unfolding(cet_page::specs::SigReturn::rt_sigreturn))]
pub fn rt_sigreturn(arch: &Arch, at: &mut Cursor) -> Result<(Arch, Record, Leaving), Suspended>
    requires { arch.now.count < 2 ^ 32 - 1 }
    ensures { Refines (play (rt_sigreturn arch.now) at.old.left at.old.rest.now) result at.new.left at.new.rest.now }
{
    let popped = popped_frame(arch, at)?;
    return_by(arch, popped, at)
}
