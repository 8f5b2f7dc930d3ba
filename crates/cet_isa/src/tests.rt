//! Canonical addresses, operands that have a spelling, and named bits.

use super::{
    Arch, Base, End, Fault, FaultName, Instr, Mem, Operand, PageEntry, Record, Reg, Rflags, Size,
    What, is_canonical, is_spelled,
};
use bitflags::Flags;

#[test]
fn canonical_addresses(rt: HostRuntime) {
    let rows = [
        (0, true),
        (0x7fff_ffff_ffff, true),
        (0x8000_0000_0000, false),
        (0xffff_7fff_ffff_ffff, false),
        (0xffff_8000_0000_0000, true),
    ];
    for (addr, want) in rows {
        assert_eq!(rt; is_canonical(addr), want, "at {addr}");
    }
}

#[test]
fn spelled_operands(rt: HostRuntime) {
    let rows = [
        (Base::Reg(Reg::Rsp), None, 1, true),
        (Base::Reg(Reg::Rsp), None, 2, false),
        (Base::Reg(Reg::Rax), Some(Reg::R12), 8, true),
        (Base::Reg(Reg::Rax), Some(Reg::Rsp), 1, false),
        (Base::Reg(Reg::Rax), Some(Reg::Rcx), 3, false),
        (Base::Rip, Some(Reg::Rcx), 1, false),
        (Base::None, Some(Reg::Rcx), 4, true),
    ];
    for (base, index, scale, want) in rows {
        let mem = Mem {
            base,
            index,
            scale,
            disp: -8,
        };
        assert_eq!(rt; is_spelled(&Instr::Rstorssp { mem }), want, "at {mem:?}");
        // A store of 32 bits is no form of the machine.
        let (dst, src) = (Operand::Mem(mem), Operand::Reg(Reg::Rax));
        let size = Size::Dword;
        assert!(rt; !is_spelled(&Instr::Mov { size, dst, src }), "at {mem:?}");
    }
    assert_eq!(rt; Reg::R12.number(), 12);
}

#[test]
fn named_bits(rt: HostRuntime) {
    // RFLAGS as a thread starts with them, and the bits 0, 2, 4, 6, 7, 9 and 11 beside bit 1.
    let start = Rflags::from_bits_retain(0x202);
    assert!(rt; start.contains(Rflags::IF) && !start.contains(Rflags::CF));
    assert_eq!(rt; Rflags::all().bits(), 0xad7);
    // A shadow-stack page for the user: dirty and not writable.
    let shadow = PageEntry::P | PageEntry::US | PageEntry::A | PageEntry::D | PageEntry::XD;
    assert_eq!(rt; shadow.bits(), 0x8000_0000_0000_0065);
}

fn is_sent<T: Send>() {}

#[test]
fn goes_to_other_threads() {
    is_sent::<Arch>();
    is_sent::<Record>();
    is_sent::<What>();
    is_sent::<Fault>();
    is_sent::<FaultName>();
    is_sent::<End>();
}
