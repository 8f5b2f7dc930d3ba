//! A thread, access by access.

ghost use Rattle.std.specs.Prelude.{◌≡◌, ℕ, ◌+◌, ◌-◌, ◌^◌, ◌<◌, ◌≤◌, length, true, false, Some, None, IsSome, IfSome, option_map};
ghost use Rattle.cet_words.specs.Access.{InRange};
ghost use Rattle.cet_words.specs.declared.accesses.Access.{Access};
ghost use Rattle.cet_isa.specs.declared.threads.End.{End};
ghost use Rattle.cet_isa.specs.declared.threads.FaultName.{FaultName};
ghost use Rattle.cet_page.specs.Faults.{Faults};
ghost use Rattle.cet_page.specs.Within.{IsCore};
ghost use Rattle.cet_page.specs.Core.{row_played, core_by, noted_by, core_at, first_core, child_core, next_access, taken, recorded, faulted, fault_record};
ghost use Rattle.cet_page.specs.Plays.{held_by};
ghost use Rattle.cet_page.specs.Finish.{IsMade};
ghost use Rattle.cet_page.specs.Entering.{AtGate, Enters};
ghost use Rattle.cet_page.specs.Restoring.{AtRestore, Restores};
ghost use Rattle.cet_page.specs.ValsData.{most_accesses, most_values, no_vals};
ghost use Rattle.cet_cpu.specs.Carried.{ComesTo, ended};
ghost use Rattle.cet_cpu.specs.Code.{IsCode};
ghost use Rattle.cet_cpu.specs.Cpu.{awaited, RefinesRow, CpuData, IsCpu, IsNext, KeepsCode};
ghost use Rattle.cet_words.specs.Layout.{thread_region_size, thread_limit};

use crate::fetches::{Code, code_at};
use crate::kernel::RowEnd;
use crate::openings::{is_opened, opening};
use crate::rows::row;
use cet_decode::Decoded;
use cet_isa::{Arch, End, Fault, R11, RAX, RCX, RSI, RSP, Record, What, is_canonical};
use cet_page::{Family, Mark, SYSCALL_LENGTH, Suspended, Vals, family_of};
use cet_words::{
    Access, FIRST_REGION_END, FIRST_REGION_START, Job, THREAD_LIMIT, THREAD_REGION_SIZE, token,
};
use std::marker::Model;

/// A guest thread between two of its accesses. Its records aren't kept here.
#[derive(Drop)]
pub struct Cpu {
    arch: Arch,
    vals: Vals,
    over: Option<End>,
    /// The access that it waits for, with its mark.
    next: Option<(Access, Mark)>,
    /// The code at RIP, once its row has read that.
    code: Option<Code>,
}

impl Model for Cpu {
    ghost use Rattle.cet_cpu.specs.Cpu.{CpuData};

    ghost Value = { CpuData };

    ghost view = { λ c. record { core = record { arch = c.arch; vals = c.vals; over = c.over }; next = c.next; code = c.code } };
}

/// What an access completed: a record, the birth of a thread, the thread's end.
#[derive(Drop)]
pub struct Taken {
    pub noted: Option<Record>,
    pub child: Option<Cpu>,
    pub end: Option<End>,
}

/// The registers of thread 0: RSP stands below the end of the main stack.
const FIRST_REGS: [u64; 16] = [0, 0, 0, 0, 0x7fff_ffc0, 0, 0, 0, 0, 0, 0, 0, 0, 0, 0, 0];

fn thread_at(entry: u64) -> Cpu
    ensures core { result.core ≡ core_at entry }
    ensures waits { result.next ≡ None }
    ensures code { result.code ≡ None }
{
    let arch = Arch {
        regs: FIRST_REGS,
        rip: entry,
        flags: 2,
        ssp: FIRST_REGION_END,
        mask: 0,
        count: 0,
        posted: 0,
        number: 0,
        made: FIRST_REGION_START,
        due: None,
        held: None,
    };
    Cpu {
        arch,
        vals: Vals::new(),
        over: None,
        next: None,
        code: None,
    }
}

/// Thread 0 of a job, before its first access.
pub fn first(job: &Job) -> Cpu
    ensures core { result.core ≡ first_core job.now }
    ensures state { IsCpu job.now result }
{
    let image = job.image;
    let mut cpu = thread_at(image.entry);
    cpu.await_access(job);
    cpu
}

/// Makes the supervisor stack that a thread holds that after the answer to an access with this mark.
#[inline(always)]
fn hold(held: &mut Option<u8>, mark: Mark, answer: u64)
    ensures { held.new ≡ held_by mark answer held.old }
{
    match mark {
        Mark::Plain | Mark::Bears(_) => {}
        Mark::Takes(k) => {
            if answer == token(k) {
                *held = Some(k);
            }
        }
        Mark::Gives => *held = None,
    }
}

fn awaited(next: Option<(Access, Mark)>) -> Option<Access>
    ensures { result ≡ awaited next }
{
    match next {
        Some((access, _)) => Some(access),
        None => None,
    }
}

/// The child of a clone, before its first access.
fn child_at(parent: &Arch, child: u8, start: u64) -> Cpu
    requires { start + thread_region_size < 2 ^ 64 }
    ensures core { result.core ≡ child_core parent.now child start }
    ensures waits { result.next ≡ None }
    ensures code { result.code ≡ None }
{
    let next = parent.rip.wrapping_add(SYSCALL_LENGTH);
    let mut arch = *parent;
    arch.regs[RCX] = next;
    arch.regs[R11] = parent.flags;
    arch.regs[RAX] = 0;
    arch.regs[RSP] = parent.regs[RSI];
    arch.rip = next;
    arch.ssp = start + THREAD_REGION_SIZE;
    arch.count = 0;
    arch.posted = 0;
    arch.number = child;
    arch.made = start;
    arch.due = None;
    arch.held = None;
    Cpu {
        arch,
        vals: Vals::new(),
        over: None,
        next: None,
        code: None,
    }
}

fn fault_record(arch: &Arch, fault: &Fault) -> Record
    ensures { result ≡ fault_record arch.now fault.now }
{
    Record {
        rip: arch.rip,
        what: What::Fault(fault.name),
        code: fault.code,
        a: fault.a,
        b: fault.b,
    }
}

impl Cpu {
    /// The thread's state.
    pub fn arch(&self) -> &Arch
        ensures { result.now ≡ self.now.core.arch }
    {
        &self.arch
    }

    /// How the thread ended, or none where it hasn't.
    pub fn end(&self) -> Option<End>
        ensures { result ≡ self.now.core.over }
    {
        self.over
    }

    /// The thread's next access, or none where it has ended.
    #[tactic(auto, using(cet_page::proofs::WithinLaws::stops, cet_page::proofs::PlayLaws::wanted_range))]
    pub fn next(&self, job: &Job) -> Option<Access>
        requires state { IsCpu job.now self.now }
        ensures access { result ≡ next_access job.now self.now.core }
        ensures goes { self.now.core.over ≡ None → (access : Access) × (result ≡ Some access) }
        ensures ended { (end : End) → self.now.core.over ≡ Some end → result ≡ None }
        ensures range { IfSome result InRange }
    {
        awaited(self.next)
    }

    /// Takes the answer to the thread's next access.
    pub fn take(&mut self, job: &Job, answer: u64) -> Taken
        requires state { IsCpu job.now self.old }
        requires going { self.old.core.over ≡ None }
        ensures core { self.new.core ≡ (taken job.now self.old.core answer).core }
        ensures noted { result.noted ≡ (taken job.now self.old.core answer).noted }
        ensures child { option_map (λ (child : CpuData). child.core) result.child ≡ (taken job.now self.old.core answer).child }
        ensures born { IfSome result.child (IsCpu job.now) }
        ensures end { result.end ≡ self.new.core.over }
        ensures state { IsCpu job.now self.new }

        // A faulting instruction changes no register, flag, SSP or word, and its fault is due.
        ensures fault { (r : Record) (name : FaultName) → result.noted ≡ Some r → r.what ≡ What.Fault name → Faults job.now self.old.core self.new.core answer r }

        // RSTORSSP's exchange switches where it finds the restore token, and else is #CP with the word found.
        ensures restore { (p : ℕ) → AtRestore job.now self.old.core p → Restores job.now self.old.core self.new.core p answer result.noted }

        // The first exchange of the kernel's entry takes the supervisor stack where it finds the free token, and else there is
        // a busy record with the word found.
        ensures gate { AtGate job.now self.old.core → Enters job.now self.old.core self.new.core answer result.noted }
    {
        let child = self.child(job, answer);
        let noted = self.accept(job, answer);
        Taken {
            noted,
            child,
            end: self.over,
        }
    }

    /// Takes the answer as `take` does, and answers the record alone. The thread that is born, if any, is
    /// that of `child` before this call. So the thread of most accesses, none, is handed to nobody.
    #[inline(always)]
    #[tactic(auto, using(cet_page::proofs::WithinLaws::room, cet_page::proofs::WithinLaws::taken_at, cet_page::proofs::FaultLaws::faults_of, cet_page::proofs::RestoreLaws::restores_of))]
    pub fn accept(&mut self, job: &Job, answer: u64) -> Option<Record>
        requires state { IsCpu job.now self.old }
        requires going { self.old.core.over ≡ None }
        ensures core { self.new.core ≡ (taken job.now self.old.core answer).core }
        ensures noted { result ≡ (taken job.now self.old.core answer).noted }
        ensures state { IsCpu job.now self.new }

        // As of `take`.
        ensures fault { (r : Record) (name : FaultName) → result ≡ Some r → r.what ≡ What.Fault name → Faults job.now self.old.core self.new.core answer r }
        ensures restore { (p : ℕ) → AtRestore job.now self.old.core p → Restores job.now self.old.core self.new.core p answer result }
        ensures gate { AtGate job.now self.old.core → Enters job.now self.old.core self.new.core answer result }
    {
        // Either arm waits by itself, so that most accesses, which complete no record, hand none on.
        match self.accept_answer(job, answer) {
            Some(noted) => {
                self.await_access(job);
                Some(noted)
            }
            None => {
                self.await_access(job);
                None
            }
        }
    }

    /// Whether a thread is born where the next access has this answer.
    #[tactic(auto, unfolding(cet_page::specs::Core::taken, cet_page::specs::Core::next_access))]
    pub fn bears(&self, job: &Job, answer: u64) -> bool
        requires state { IsCpu job.now self.now }
        requires going { self.now.core.over ≡ None }
        ensures born { result ≡ true → IsSome (taken job.now self.now.core answer).child }
        ensures none { result ≡ false → (taken job.now self.now.core answer).child ≡ None }
    {
        match &self.next {
            Some((_, Mark::Bears(_))) => answer < THREAD_LIMIT,
            _ => false,
        }
    }

    /// The thread that is born where the next access has this answer, with its first access.
    #[tactic(auto, using(cet_page::proofs::WithinLaws::child_is))]
    pub fn child(&self, job: &Job, answer: u64) -> Option<Cpu>
        requires state { IsCpu job.now self.now }
        requires going { self.now.core.over ≡ None }
        ensures child { option_map (λ (child : CpuData). child.core) result ≡ (taken job.now self.now.core answer).child }
        ensures born { IfSome result (IsCpu job.now) }
    {
        let mut child = self.unborn(job, answer);
        if let Some(cpu) = &mut child {
            cpu.await_access(job);
        }
        child
    }

    /// The same before it waits.
    #[tactic(auto, using(cet_page::proofs::WithinLaws::bears_made), unfolding(cet_page::specs::Core::taken, cet_page::specs::Core::next_access))]
    fn unborn(&self, job: &Job, answer: u64) -> Option<Cpu>
        requires state { IsCpu job.now self.now }
        requires going { self.now.core.over ≡ None }
        ensures child { option_map (λ (child : CpuData). child.core) result ≡ (taken job.now self.now.core answer).child }
        ensures fresh { IfSome result (λ (child : CpuData). (child.next ≡ None) × (child.code ≡ None)) }
    {
        let (_, mark) = self.next?;
        let Mark::Bears(start) = mark else {
            return None;
        };
        if answer >= THREAD_LIMIT {
            return None;
        }
        Some(child_at(&self.arch, answer as u8, start))
    }

    /// Keeps the access that the thread waits for.
    #[inline(always)]
    #[tactic(auto, using(cet_page::proofs::PlayLaws::wanted_access), unfolding(cet_page::specs::Core::next_access))]
    fn await_access(&mut self, job: &Job)
        requires state { IsCore job.now self.old.core }
        requires waits { IfSome self.old.next (IsNext job.now self.old.core) }
        requires code { KeepsCode job.now self.old }
        ensures core { self.new.core ≡ self.old.core }
        ensures state { IsCpu job.now self.new }
    {
        if self.next.is_some() || self.over.is_some() {
            return;
        }
        match opening(job, &self.arch, &self.vals) {
            Some(access) => self.next = Some((access, Mark::Plain)),
            None => self.await_played(job),
        }
    }

    /// The same, where the row must be played: a fault or a listed signal is due.
    #[inline(never)]
    #[tactic(auto, using(cet_page::proofs::PlayLaws::wanted_access), unfolding(cet_page::specs::Core::next_access))]
    fn await_played(&mut self, job: &Job)
        requires state { IsCore job.now self.old.core }
        requires goes { self.old.core.over ≡ None }
        requires none { self.old.next ≡ None }
        requires code { KeepsCode job.now self.old }
        ensures core { self.new.core ≡ self.old.core }
        ensures state { IsCpu job.now self.new }
    {
        if let Err(Suspended::Access(access, mark)) = self.replay_row(job) {
            self.next = Some((access, mark));
        }
    }

    /// What the thread's row comes to after the accesses so far, by a play of the row from its start. Where it
    /// is over, the state is the one after it, but for the thread's number and the supervisor stack that it holds.
    fn replay_row(&mut self, job: &Job) -> Result<RowEnd, Suspended>
        requires count { self.old.core.arch.count < 2 ^ 32 - 1 }
        requires made { IsMade self.old.core.arch.made }
        requires number { self.old.core.arch.number < thread_limit }
        requires code { KeepsCode job.now self.old }
        ensures came { RefinesRow (row_played job.now self.old.core.arch self.old.core.vals) self.old.core.arch self.new.core.arch result }
        ensures core { self.new.core ≡ record self.old.core { arch = self.new.core.arch } }
        ensures waits { self.new.next ≡ self.old.next }
        ensures code { IfSome self.new.code (IsCode job.now.image.segments self.old.core.arch.rip) }
    {
        // Nothing within a row depends on the supervisor stack that is held.
        let (number, held) = (self.arch.number, self.arch.held);
        self.arch.held = None;
        let came = row(job, &mut self.arch, &mut self.code, &mut self.vals.start());
        self.arch.number = number;
        self.arch.held = held;
        came
    }

    /// Takes the answer, and keeps the access that is waited for, but for the first one of a new row.
    #[inline(always)]
    #[tactic(auto, unfolding(cet_page::specs::Core::taken, cet_page::specs::Core::next_access))]
    fn accept_answer(&mut self, job: &Job, answer: u64) -> Option<Record>
        requires state { IsCpu job.now self.old }
        requires going { self.old.core.over ≡ None }
        requires room { length self.old.core.vals.values < most_values }
        requires more { self.old.core.vals.accesses < most_accesses }
        ensures core { self.new.core ≡ (taken job.now self.old.core answer).core }
        ensures noted { result ≡ (taken job.now self.old.core answer).noted }
        ensures waits { IfSome self.new.next (IsNext job.now self.new.core) }
        ensures code { KeepsCode job.now self.new }
    {
        let (access, mark) = self.next?;
        hold(&mut self.arch.held, mark, answer);
        self.vals.add(access, answer);
        match opening(job, &self.arch, &self.vals) {
            Some(access) => {
                self.next = Some((access, Mark::Plain));
                None
            }
            None => self.go_on(job),
        }
    }

    /// Goes on as far as the accesses so far lead: to the next one, or to the row's end.
    #[inline(never)]
    #[tactic(auto, unfolding(cet_page::specs::Core::next_access))]
    fn go_on(&mut self, job: &Job) -> Option<Record>
        requires count { self.old.core.arch.count < 2 ^ 32 - 1 }
        requires made { IsMade self.old.core.arch.made }
        requires number { self.old.core.arch.number < thread_limit }
        requires going { self.old.core.over ≡ None }
        requires code { KeepsCode job.now self.old }
        ensures core { self.new.core ≡ core_by job.now self.old.core.arch self.old.core.arch.held self.old.core.vals (row_played job.now self.old.core.arch self.old.core.vals) }
        ensures noted { result ≡ noted_by self.old.core.arch (row_played job.now self.old.core.arch self.old.core.vals) }
        ensures waits { IfSome self.new.next (IsNext job.now self.new.core) }
        ensures code { KeepsCode job.now self.new }
    {
        match self.carrier(job) {
            Some(Family::Arithmetic) => self.carry_arithmetic(job),
            Some(Family::Flow) => self.carry_flow(job),
            _ => self.go_on_by_row(job),
        }
    }

    /// The part of the machine that carries the instruction at RIP, where the row has come to one. Its code is read
    /// where it isn't there yet.
    #[inline(always)]
    fn carrier(&mut self, job: &Job) -> Option<Family>
        requires code { KeepsCode job.now self.old }
        ensures comes { IfSome result (ComesTo job.now self.new) }
        ensures core { self.new.core ≡ self.old.core }
        ensures waits { self.new.next ≡ self.old.next }
        ensures code { KeepsCode job.now self.new }
    {
        if !is_opened(job, &self.arch, &self.vals) || !is_canonical(self.arch.rip) {
            return None;
        }
        if self.code.is_none() {
            self.code = Some(code_at(job.image, self.arch.rip));
        }
        match &self.code {
            Some(
                Code {
                    decoded: Decoded::Ok { instr, .. },
                    ..
                },
            ) => Some(family_of(instr)),
            _ => None,
        }
    }

    /// What the row comes to at an instruction of moves and arithmetic.
    #[inline(always)]
    fn arithmetic_so_far(&mut self, job: &Job) -> Result<Record, Suspended>
        requires count { self.old.core.arch.count < 2 ^ 32 - 1 }
        requires comes { ComesTo job.now self.old Family.Arithmetic }
        ensures came { RefinesRow (row_played job.now self.old.core.arch self.old.core.vals) self.old.core.arch self.new.core.arch (ended result) }
        ensures core { self.new.core ≡ record self.old.core { arch = self.new.core.arch } }
        ensures waits { self.new.next ≡ self.old.next }
        ensures code { self.new.code ≡ self.old.code }
    {
        let Some(code) = &self.code else {
            unreachable!()
        };
        let Decoded::Ok { instr, len } = &code.decoded else {
            unreachable!()
        };
        let next = self.arch.rip.wrapping_add(u64::from(*len));
        // Nothing within a row depends on the supervisor stack that is held.
        let (number, held) = (self.arch.number, self.arch.held);
        self.arch.held = None;
        let came = cet_alu::follow(&mut self.arch, instr, next, &mut self.vals.behind(2));
        self.arch.number = number;
        self.arch.held = held;
        came
    }

    /// What the row comes to at an instruction of control flow and the program stack.
    #[inline(always)]
    fn flow_so_far(&mut self, job: &Job) -> Result<Record, Suspended>
        requires count { self.old.core.arch.count < 2 ^ 32 - 1 }
        requires comes { ComesTo job.now self.old Family.Flow }
        ensures came { RefinesRow (row_played job.now self.old.core.arch self.old.core.vals) self.old.core.arch self.new.core.arch (ended result) }
        ensures core { self.new.core ≡ record self.old.core { arch = self.new.core.arch } }
        ensures waits { self.new.next ≡ self.old.next }
        ensures code { self.new.code ≡ self.old.code }
    {
        let Some(code) = &self.code else {
            unreachable!()
        };
        let Decoded::Ok { instr, len } = &code.decoded else {
            unreachable!()
        };
        let next = self.arch.rip.wrapping_add(u64::from(*len));
        // Nothing within a row depends on the supervisor stack that is held.
        let (number, held) = (self.arch.number, self.arch.held);
        self.arch.held = None;
        let came = cet_flow::follow(&mut self.arch, instr, next, &mut self.vals.behind(2));
        self.arch.number = number;
        self.arch.held = held;
        came
    }

    /// Goes on by an instruction of moves and arithmetic.
    #[inline(always)]
    #[tactic(auto, unfolding(cet_page::specs::Core::next_access))]
    fn carry_arithmetic(&mut self, job: &Job) -> Option<Record>
        requires count { self.old.core.arch.count < 2 ^ 32 - 1 }
        requires comes { ComesTo job.now self.old Family.Arithmetic }
        requires going { self.old.core.over ≡ None }
        ensures core { self.new.core ≡ core_by job.now self.old.core.arch self.old.core.arch.held self.old.core.vals (row_played job.now self.old.core.arch self.old.core.vals) }
        ensures noted { result ≡ noted_by self.old.core.arch (row_played job.now self.old.core.arch self.old.core.vals) }
        ensures waits { IfSome self.new.next (IsNext job.now self.new.core) }
        ensures code { KeepsCode job.now self.new }
    {
        match self.arithmetic_so_far(job) {
            Ok(noted) => {
                self.end_row(job);
                Some(noted)
            }
            Err(Suspended::Access(access, mark)) => {
                self.next = Some((access, mark));
                None
            }
            Err(Suspended::Fault(fault)) => Some(self.fault(job, fault)),
        }
    }

    /// Goes on by an instruction of control flow and the program stack.
    #[inline(always)]
    #[tactic(auto, unfolding(cet_page::specs::Core::next_access))]
    fn carry_flow(&mut self, job: &Job) -> Option<Record>
        requires count { self.old.core.arch.count < 2 ^ 32 - 1 }
        requires comes { ComesTo job.now self.old Family.Flow }
        requires going { self.old.core.over ≡ None }
        ensures core { self.new.core ≡ core_by job.now self.old.core.arch self.old.core.arch.held self.old.core.vals (row_played job.now self.old.core.arch self.old.core.vals) }
        ensures noted { result ≡ noted_by self.old.core.arch (row_played job.now self.old.core.arch self.old.core.vals) }
        ensures waits { IfSome self.new.next (IsNext job.now self.new.core) }
        ensures code { KeepsCode job.now self.new }
    {
        match self.flow_so_far(job) {
            Ok(noted) => {
                self.end_row(job);
                Some(noted)
            }
            Err(Suspended::Access(access, mark)) => {
                self.next = Some((access, mark));
                None
            }
            Err(Suspended::Fault(fault)) => Some(self.fault(job, fault)),
        }
    }

    /// A fault is due, and the row ends with its record.
    fn fault(&mut self, job: &Job, fault: Fault) -> Record
        requires count { self.old.core.arch.count < 2 ^ 32 - 1 }
        ensures core { self.new.core ≡ recorded job.now (faulted self.old.core.arch fault) }
        ensures noted { result ≡ fault_record self.old.core.arch fault }
        ensures waits { self.new.next ≡ None }
        ensures code { self.new.code ≡ None }
    {
        let noted = fault_record(&self.arch, &fault);
        self.arch.due = Some(fault);
        self.arch.count += 1;
        self.end_row(job);
        noted
    }

    /// Goes on by a play of the row from its start.
    #[inline(never)]
    #[tactic(auto, unfolding(cet_page::specs::Core::next_access))]
    fn go_on_by_row(&mut self, job: &Job) -> Option<Record>
        requires count { self.old.core.arch.count < 2 ^ 32 - 1 }
        requires made { IsMade self.old.core.arch.made }
        requires number { self.old.core.arch.number < thread_limit }
        requires going { self.old.core.over ≡ None }
        requires code { KeepsCode job.now self.old }
        ensures core { self.new.core ≡ core_by job.now self.old.core.arch self.old.core.arch.held self.old.core.vals (row_played job.now self.old.core.arch self.old.core.vals) }
        ensures noted { result ≡ noted_by self.old.core.arch (row_played job.now self.old.core.arch self.old.core.vals) }
        ensures waits { IfSome self.new.next (IsNext job.now self.new.core) }
        ensures code { KeepsCode job.now self.new }
    {
        match self.replay_row(job) {
            Err(Suspended::Access(access, mark)) => {
                self.next = Some((access, mark));
                None
            }
            Err(Suspended::Fault(fault)) => Some(self.fault(job, fault)),
            Ok(RowEnd::Noted(noted)) => {
                self.end_row(job);
                Some(noted)
            }
            Ok(RowEnd::Posted) => {
                self.begin_row(None);
                None
            }
            Ok(RowEnd::Exited(noted, status)) => {
                self.begin_row(Some(End::Exit(status)));
                Some(noted)
            }
            Ok(RowEnd::Stopped) => {
                self.begin_row(Some(End::Group));
                None
            }
        }
    }

    /// The thread after a record, which may bring it to its limit.
    fn end_row(&mut self, job: &Job)
        ensures core { self.new.core ≡ recorded job.now self.old.core.arch }
        ensures waits { self.new.next ≡ None }
        ensures code { self.new.code ≡ None }
    {
        let over = if self.arch.count == job.limit {
            Some(End::Limit)
        } else {
            None
        };
        self.begin_row(over);
    }

    /// The thread before the first access of its row, or at its end.
    fn begin_row(&mut self, over: Option<End>)
        ensures core { self.new.core ≡ record { arch = self.old.core.arch; vals = no_vals; over = over } }
        ensures waits { self.new.next ≡ None }
        ensures code { self.new.code ≡ None }
    {
        self.vals.clear();
        self.over = over;
        self.next = None;
        self.code = None;
    }
}
