//! Operands of registers, immediates and memory, and what an instruction leaves.

ghost use Rattle.std.specs.Prelude.{◌≡◌, ◌+◌, ◌-◌, ◌*◌, ◌%◌, ◌^◌, ◌<◌, IfOk};
ghost use Rattle.std.specs.Int.{cast_unsigned};
ghost use Rattle.cet_words.specs.Layout.{word_count};
ghost use Rattle.cet_page.specs.Script.{play};
ghost use Rattle.cet_page.specs.Plays.{Refines};
ghost use Rattle.cet_page.specs.Values.{limit, width};
ghost use Rattle.cet_page.specs.Operands.{register, with_register, base_address, index_value, effective, byte_count, bytes_at, load_word, load_at, write_place, store_at, read_operand, Leaves, stepped, assigned, settled, compared};

use crate::checks::{Kind, Who};
use crate::cursors::{Cursor, Suspended, word_in};
use crate::flags::Computed;
use cet_isa::{Arch, Base, Mem, Operand, Record, Reg, Size, What};

/// The value of a register.
pub fn register(arch: &Arch, reg: Reg) -> u64
    ensures { result ≡ register arch.now reg }
{
    arch.regs[reg.number() as usize]
}

/// The low bits of a value, as many as the size has.
pub fn truncated(size: Size, value: u64) -> u64
    ensures value { result ≡ value % limit size }
    ensures range { result < limit size }
{
    match size {
        Size::Dword => value % 0x1_0000_0000,
        Size::Qword => value,
    }
}

/// The value of a register, of its low half where the size is 32 bits.
pub fn register_of(arch: &Arch, size: Size, reg: Reg) -> u64
    ensures value { result ≡ register arch.now reg % limit size }
    ensures range { result < limit size }
{
    truncated(size, register(arch, reg))
}

fn base_address(arch: &Arch, next: u64, base: Base) -> u64
    ensures { result ≡ base_address arch.now next base }
{
    match base {
        Base::None => 0,
        Base::Rip => next,
        Base::Reg(reg) => register(arch, reg),
    }
}

fn index_value(arch: &Arch, index: Option<Reg>) -> u64
    ensures { result ≡ index_value arch.now index }
{
    match index {
        None => 0,
        Some(reg) => register(arch, reg),
    }
}

/// The address of a memory operand; `next` is the address of the next instruction.
pub fn effective(arch: &Arch, mem: Mem, next: u64) -> u64
    ensures { result ≡ effective arch.now mem next }
{
    let scaled = index_value(arch, mem.index).wrapping_mul(u64::from(mem.scale));
    let based = base_address(arch, next, mem.base).wrapping_add(scaled);
    based.wrapping_add(i64::from(mem.disp).cast_unsigned())
}

/// An immediate in as many bits as the size has.
fn immediate(size: Size, value: i32) -> u64
    ensures value { result ≡ cast_unsigned (width size) value }
    ensures range { result < limit size }
{
    match size {
        Size::Dword => u64::from(value.cast_unsigned()),
        Size::Qword => i64::from(value).cast_unsigned(),
    }
}

/// As many bytes as the size has of the word that holds an address, from the address on.
fn bytes_at(addr: u64, size: Size, word: u64) -> u64
    ensures value { result ≡ bytes_at addr (byte_count size) word }
    ensures range { result < limit size }
{
    truncated(size, word >> (8 * (addr % 8)))
}

fn byte_count(size: Size) -> u64
    ensures value { result ≡ byte_count size }
    ensures range { 0 < result }
{
    match size {
        Size::Dword => 4,
        Size::Qword => 8,
    }
}

impl<'a> Cursor<'a> {
    #[tactic(auto, using(crate::proofs::ScriptLaws::play_bind), unfolding(crate::specs::Operands::load_word))]
    fn load_word(&mut self, addr: u64, count: u64) -> Result<u64, Suspended>
        requires { 0 < count }
        ensures { Refines (play (load_word addr count) self.old.left self.old.rest.now) result self.new.left self.new.rest.now }
    {
        self.check_address(addr, count)?;
        let page = self.look(Kind::Load, Who::User, addr)?;
        self.load(word_in(page, addr))
    }

    /// The load of a byte.
    #[tactic(auto, using(crate::proofs::ScriptLaws::play_bind), unfolding(crate::specs::Operands::load_at))]
    pub fn load_byte(&mut self, addr: u64) -> Result<u64, Suspended>
        ensures comes { Refines (play (load_at addr 1) self.old.left self.old.rest.now) result self.new.left self.new.rest.now }
    {
        let word = self.load_word(addr, 1)?;
        Ok((word >> (8 * (addr % 8))) % 256)
    }

    /// The load of as many bytes as the size has.
    #[tactic(auto, using(crate::proofs::ScriptLaws::play_bind), unfolding(crate::specs::Operands::load_at))]
    pub fn load_at(&mut self, addr: u64, size: Size) -> Result<u64, Suspended>
        ensures comes { Refines (play (load_at addr (byte_count size)) self.old.left self.old.rest.now) result self.new.left self.new.rest.now }
        ensures range { IfOk result (λ value. value < limit size) }
    {
        let word = self.load_word(addr, byte_count(size))?;
        Ok(bytes_at(addr, size, word))
    }

    /// The tests and the look before a write of 8 bytes; the answer is the word's number.
    #[tactic(auto, using(crate::proofs::ScriptLaws::play_bind), unfolding(crate::specs::Operands::write_place))]
    pub fn write_place(&mut self, addr: u64) -> Result<u32, Suspended>
        ensures comes { Refines (play (write_place addr) self.old.left self.old.rest.now) result self.new.left self.new.rest.now }
        ensures range { IfOk result (λ word. word < word_count) }
    {
        self.check_address(addr, 8)?;
        let page = self.look(Kind::Store, Who::User, addr)?;
        Ok(word_in(page, addr))
    }

    /// The store of 8 bytes.
    #[tactic(auto, using(crate::proofs::ScriptLaws::play_bind), unfolding(crate::specs::Operands::store_at))]
    pub fn store_at(&mut self, addr: u64, value: u64) -> Result<(), Suspended>
        ensures { Refines (play (store_at addr value) self.old.left self.old.rest.now) result self.new.left self.new.rest.now }
    {
        let word = self.write_place(addr)?;
        self.store(word, value)
    }

    /// The value of an operand; an immediate is sign-extended.
    #[tactic(auto, unfolding(crate::specs::Operands::read_operand))]
    pub fn read_operand(
        &mut self,
        arch: &Arch,
        size: Size,
        operand: Operand,
        next: u64,
    ) -> Result<u64, Suspended>
        ensures comes { Refines (play (read_operand arch.now size operand next) self.old.left self.old.rest.now) result self.new.left self.new.rest.now }
        ensures range { IfOk result (λ value. value < limit size) }
    {
        match operand {
            Operand::Reg(reg) => Ok(register_of(arch, size, reg)),
            Operand::Imm(value) => Ok(immediate(size, value)),
            Operand::Mem(mem) => self.load_at(effective(arch, mem, next), size),
        }
    }
}

/// Gives a register a value.
pub fn set_register(arch: &mut Arch, reg: Reg, value: u64)
    ensures { arch.new ≡ record arch.old { regs = with_register arch.old reg value } }
{
    arch.regs[reg.number() as usize] = value;
}

/// Ends an instruction that leaves RIP and RFLAGS so; the answer is its record, with a value.
pub fn step_with(arch: &mut Arch, next: u64, flags: u64, value: u64) -> Record
    requires { arch.old.count < 2 ^ 32 - 1 }
    ensures { Leaves (stepped arch.old arch.old.regs next flags value) arch.new result }
{
    let noted = Record {
        rip: arch.rip,
        what: What::Step,
        code: 0,
        a: value,
        b: flags,
    };
    arch.rip = next;
    arch.flags = flags;
    arch.count += 1;
    noted
}

/// Ends an instruction that leaves RFLAGS as they are; the answer is its record.
pub fn step(arch: &mut Arch, next: u64, value: u64) -> Record
    requires { arch.old.count < 2 ^ 32 - 1 }
    ensures { Leaves (stepped arch.old arch.old.regs next arch.old.flags value) arch.new result }
{
    let flags = arch.flags;
    step_with(arch, next, flags, value)
}

/// Ends an instruction that gives a register a value; the answer is its record.
pub fn assign(arch: &mut Arch, reg: Reg, value: u64, next: u64) -> Record
    requires { arch.old.count < 2 ^ 32 - 1 }
    ensures { Leaves (assigned arch.old reg value next) arch.new result }
{
    set_register(arch, reg, value);
    step(arch, next, value)
}

/// Ends an instruction that gives a register what was computed, and RFLAGS the flags; the answer is its
/// record.
pub fn settle(arch: &mut Arch, reg: Reg, computed: Computed, next: u64) -> Record
    requires { arch.old.count < 2 ^ 32 - 1 }
    ensures { Leaves (settled arch.old reg computed next) arch.new result }
{
    set_register(arch, reg, computed.value);
    step_with(arch, next, computed.flags.rflags(), computed.value)
}

/// Ends an instruction that gives RFLAGS alone the flags of what was computed; the answer is its record.
pub fn compare(arch: &mut Arch, computed: Computed, next: u64) -> Record
    requires { arch.old.count < 2 ^ 32 - 1 }
    ensures { Leaves (compared arch.old computed next) arch.new result }
{
    step_with(arch, next, computed.flags.rflags(), 0)
}
