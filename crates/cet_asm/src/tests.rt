//! Programs with sections, labels, marks and a start of their own.

use crate::assembler::assemble;
use crate::program::{AsmFault, Program};
use std::alloc::Global;

fn assembled(alloc: Global, source: &[u8]) -> Result<Program, AsmFault> {
    if source.len() < 0xffff_ffff {
        assemble(alloc, source)
    } else {
        Err(AsmFault::NoMemory)
    }
}

#[test]
fn programs_have_their_bytes(rt: HostRuntime) -> Result<(), AsmFault> {
    let alloc = rt.alloc();
    let rows: [(&[u8], &[u8], &[u8], u64, u8); 4] = [
        (b"", &[], &[], 0x401000, 2),
        (
            b".data\nx: _start: .quad _start, -1, y\n.text\nnop\n.mark 1\ny: pause\n.mark 3\n",
            &[0x90, 0xf3, 0x90],
            &[
                0, 0x20, 0x40, 0, 0, 0, 0, 0, 255, 255, 255, 255, 255, 255, 255, 255, 1, 0x10,
                0x40, 0, 0, 0, 0, 0,
            ],
            0x402000,
            3,
        ),
        (
            b".byte 1, -1, 255 ; c\n.zero 3\n_start: nop\n.data\n.zero 1\nnop\n.mark 0",
            &[1, 255, 255, 0, 0, 0, 0x90],
            &[0, 0x90],
            0x401006,
            0,
        ),
        (
            b"jmp short x\n.data\n.text\nx: .zero 5\n.data\ny: .quad y, x",
            &[0xeb, 0, 0, 0, 0, 0, 0],
            &[0, 0x20, 0x40, 0, 0, 0, 0, 0, 2, 0x10, 0x40, 0, 0, 0, 0, 0],
            0x401000,
            2,
        ),
    ];
    for (source, text, static_data, entry, mark) in rows {
        let program = assembled(alloc, source)?;
        assert_eq!(rt; program.text.as_slice(), text);
        assert_eq!(rt; program.static_data.as_slice(), static_data);
        assert_eq!(rt; program.entry, entry);
        assert_eq!(rt; program.mark, mark);
    }
    Ok(())
}
