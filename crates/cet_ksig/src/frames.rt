//! The frame of a signal: where it goes, and its 24 words.

ghost use Rattle.std.specs.Prelude.{◌≡◌, ◌+◌, ◌-◌, ◌^◌, ◌<◌, ◌≤◌, IfOk, IfSome, length, [], ◌∷◌};
ghost use Rattle.cet_words.specs.Layout.{word_count};
ghost use Rattle.cet_words.specs.Change.{Pushed};
ghost use Rattle.cet_page.specs.Script.{play};
ghost use Rattle.cet_page.specs.Plays.{Refines};
ghost use Rattle.cet_page.specs.Parts.{store_as};
ghost use Rattle.cet_page.specs.Delivery.{cause_words, code_of_name, delivered, frame_at, frame_places, frame_span, frame_words, handler_mask, handler_regs, handling, own_bit, page_address, page_code, push_frame, push_or_kill};

use crate::kills::{SEGV, kill};
use crate::posts::signal_bit;
use crate::structures::{maskable, span};
use cet_isa::{Arch, Fault, FaultName, RDI, RSI, RSP, Record, What, is_canonical};
use cet_page::{Action, Cursor, FramePlaces, Kind, Leaving, Suspended, Who, frame_word, word_in};

/// The bytes below RSP that a function may use (System V ABI for x86-64, the red zone).
const RED_ZONE: u64 = 128;

/// From the red zone's end, rounded down to a multiple of 16, to the frame's first word, in bytes.
const FRAME_BELOW: u64 = 200;

/// The last of the frame's 24 words stands so many bytes above the first.
pub const FRAME_LAST: u64 = 184;

/// SA_NODEFER: the signal itself isn't masked by its handler.
const SA_NODEFER: u64 = 0x4000_0000;

/// ILL_ILLOPN, the code of #UD.
const ILL_ILLOPN: u64 = 2;

/// SI_KERNEL, the code of #GP and #AC.
const SI_KERNEL: u64 = 128;

/// SEGV_CPERR, the code of #CP.
const SEGV_CPERR: u64 = 10;

/// SEGV_MAPERR, the code of a page that is absent.
const SEGV_MAPERR: u64 = 1;

/// SEGV_ACCERR, the code of a page that is present.
const SEGV_ACCERR: u64 = 2;

/// The address of the frame, a multiple of 8.
fn frame_at(rsp: u64) -> u64
    ensures { result ≡ frame_at rsp }
{
    (rsp.wrapping_sub(RED_ZONE) / 16 * 16).wrapping_sub(FRAME_BELOW)
}

fn page_code(code: u32) -> u64
    ensures { result ≡ page_code code }
{
    if code % 2 == 0 {
        SEGV_MAPERR
    } else {
        SEGV_ACCERR
    }
}

/// The code of a signal, by the fault's name and error code.
fn code_of_name(name: FaultName, code: u32) -> u64
    ensures { result ≡ code_of_name name code }
{
    match name {
        FaultName::Ud => ILL_ILLOPN,
        FaultName::Gp => SI_KERNEL,
        FaultName::Pf => page_code(code),
        FaultName::Ac => SI_KERNEL,
        FaultName::Cp => SEGV_CPERR,
    }
}

/// The address of a page fault, and 0 of any other.
fn page_address(name: FaultName, a: u64) -> u64
    ensures { result ≡ page_address name a }
{
    match name {
        FaultName::Pf => a,
        FaultName::Ud | FaultName::Gp | FaultName::Ac | FaultName::Cp => 0,
    }
}

/// A signal's code, the fault's error code, and the address of a page fault.
fn cause_words(cause: Option<Fault>) -> [u64; 3]
    ensures { result ≡ cause_words cause }
{
    match cause {
        Some(fault) => [
            code_of_name(fault.name, fault.code),
            u64::from(fault.code),
            page_address(fault.name, fault.a),
        ],
        None => [0, 0, 0],
    }
}

/// The 24 words, the lowest first.
#[tactic(auto, unfolding(cet_page::specs::Delivery::frame_words))]
fn frame_words(arch: &Arch, signal: u8, restorer: u64, cause: Option<Fault>) -> [u64; 24]
    ensures { result ≡ frame_words arch.now signal restorer cause }
{
    let [code, fault_code, address] = cause_words(cause);
    let regs = &arch.regs;
    [
        restorer,
        regs[0],
        regs[1],
        regs[2],
        regs[3],
        regs[4],
        regs[5],
        regs[6],
        regs[7],
        regs[8],
        regs[9],
        regs[10],
        regs[11],
        regs[12],
        regs[13],
        regs[14],
        regs[15],
        arch.rip,
        arch.flags,
        arch.mask,
        u64::from(signal),
        code,
        fault_code,
        address,
    ]
}

/// The first word of a frame at an address.
#[tactic(auto, unfolding(cet_page::specs::Delivery::frame_span))]
fn frame_span(addr: u64, at: &mut Cursor) -> Result<Option<u32>, Suspended>
    ensures comes { Refines (play (frame_span addr) at.old.left at.old.rest.now) result at.new.left at.new.rest.now }
    ensures range { IfOk result (λ found. IfSome found (λ word. word + 24 ≤ word_count)) }
{
    if !is_canonical(addr) {
        return Ok(None);
    }
    span(Kind::Store, addr, FRAME_LAST, at)
}

/// The places of a frame, by four looks; none where one fails, and then no further look is made.
#[tactic(auto, using(cet_page::proofs::ScriptLaws::play_bind), unfolding(cet_page::specs::Delivery::frame_places))]
pub fn frame_places(arch: &Arch, at: &mut Cursor) -> Result<Option<FramePlaces>, Suspended>
    ensures comes { Refines (play (frame_places arch.now) at.old.left at.old.rest.now) result at.new.left at.new.rest.now }
    ensures frame { IfOk result (λ found. IfSome found (λ places. places.frame + 24 ≤ word_count)) }
    ensures marker { IfOk result (λ found. IfSome found (λ places. places.marker < word_count)) }
    ensures restorer { IfOk result (λ found. IfSome found (λ places. places.restorer < word_count)) }
{
    let Some(frame) = frame_span(frame_at(arch.regs[RSP]), at)? else {
        return Ok(None);
    };
    let (upper, lower) = (arch.ssp.wrapping_sub(8), arch.ssp.wrapping_sub(16));
    let Some(page) = at.probe(Kind::ShadowStore, Who::User, upper)? else {
        return Ok(None);
    };
    let Some(below) = at.probe(Kind::ShadowStore, Who::User, lower)? else {
        return Ok(None);
    };
    Ok(Some(FramePlaces {
        frame,
        marker: word_in(page, upper),
        restorer: word_in(below, lower),
    }))
}

/// The signal's own bit, unless the action says that it isn't to be masked.
fn own_bit(signal: u8, flags: u64) -> u64
    requires low { 1 ≤ signal }
    requires high { signal ≤ 31 }
    ensures { result ≡ own_bit signal flags }
{
    if flags & SA_NODEFER == 0 {
        signal_bit(signal)
    } else {
        0
    }
}

/// The mask while the handler runs.
fn handler_mask(mask: u64, signal: u8, action: &Action) -> u64
    requires low { 1 ≤ signal }
    requires high { signal ≤ 31 }
    ensures { result ≡ handler_mask mask signal action.now }
{
    mask | maskable(action.mask) | own_bit(signal, action.flags)
}

/// The state at the handler's start.
fn handling(arch: &Arch, signal: u8, action: &Action) -> Arch
    requires low { 1 ≤ signal }
    requires high { signal ≤ 31 }
    requires count { arch.now.count < 2 ^ 32 - 1 }
    ensures { result ≡ handling arch.now signal action.now }
{
    let frame = frame_at(arch.regs[RSP]);
    let mut after = *arch;
    after.regs[RSP] = frame;
    after.regs[RDI] = u64::from(signal);
    after.regs[RSI] = frame;
    after.rip = action.handler;
    after.ssp = arch.ssp.wrapping_sub(16);
    after.mask = handler_mask(arch.mask, signal, action);
    after.count = arch.count + 1;
    after.due = None;
    after
}

fn delivered(arch: &Arch, signal: u8, action: &Action) -> (Arch, Record, Leaving)
    requires low { 1 ≤ signal }
    requires high { signal ≤ 31 }
    requires count { arch.now.count < 2 ^ 32 - 1 }
    ensures { result ≡ delivered arch.now signal action.now }
{
    let noted = Record {
        rip: arch.rip,
        what: What::Signal,
        code: 0,
        a: u64::from(signal),
        b: arch.ssp.wrapping_sub(16),
    };
    (handling(arch, signal, action), noted, Leaving::Back)
}

/// The store of the restorer, which pushes the frame in the book.
#[tactic(auto, unfolding(cet_page::specs::Parts::store_as))]
fn store_restorer(word: u32, restorer: u64, at: &mut Cursor) -> Result<(), Suspended>
    requires { word < word_count }
    ensures { Refines (play (store_as (Pushed restorer ∷ []) word restorer) at.old.left at.old.rest.now) result at.new.left at.new.rest.now }
{
    at.store(word, restorer)
}

/// The frame, its word on the shadow stack, and the restorer below it.
#[tactic(auto, using(cet_page::proofs::ScriptLaws::play_bind), unfolding(cet_page::specs::Delivery::push_frame))]
fn push_frame(
    arch: &Arch,
    signal: u8,
    cause: Option<Fault>,
    action: &Action,
    places: &FramePlaces,
    at: &mut Cursor,
) -> Result<(Arch, Record, Leaving), Suspended>
    requires low { 1 ≤ signal }
    requires high { signal ≤ 31 }
    requires count { arch.now.count < 2 ^ 32 - 1 }
    requires frame { places.now.frame + 24 ≤ word_count }
    requires marker { places.now.marker < word_count }
    requires restorer { places.now.restorer < word_count }
    ensures { Refines (play (push_frame arch.now signal cause action.now places.now) at.old.left at.old.rest.now) result at.new.left at.new.rest.now }
{
    let frame = frame_words(arch, signal, action.restorer, cause);
    at.store_each(places.frame, &frame)?;
    at.store(places.marker, frame_word(arch.ssp))?;
    store_restorer(places.restorer, action.restorer, at)?;
    Ok(delivered(arch, signal, action))
}

/// The frame, where it has places; else the process is killed.
pub fn push_or_kill(
    arch: &Arch,
    signal: u8,
    cause: Option<Fault>,
    action: &Action,
    places: Option<FramePlaces>,
    at: &mut Cursor,
) -> Result<(Arch, Record, Leaving), Suspended>
    requires low { 1 ≤ signal }
    requires high { signal ≤ 31 }
    requires count { arch.now.count < 2 ^ 32 - 1 }
    requires frame { IfSome places (λ places. places.frame + 24 ≤ word_count) }
    requires marker { IfSome places (λ places. places.marker < word_count) }
    requires restorer { IfSome places (λ places. places.restorer < word_count) }
    ensures { Refines (play (push_or_kill arch.now signal cause action.now places) at.old.left at.old.rest.now) result at.new.left at.new.rest.now }
{
    match places {
        Some(places) => push_frame(arch, signal, cause, action, &places, at),
        None => kill(arch, SEGV, at),
    }
}
