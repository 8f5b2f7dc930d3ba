//! The texts as the assembler reads them.

use super::*;
use cet_asm::{AsmFault, Program, assemble};
use cet_base::get_u64;
use cet_words::{Bytes, NoMemory};
use std::alloc::Global;
use std::test::Fail;

/// The program of both texts, the second one on a line of its own.
fn program_of(alloc: Global, first: &[u8], second: &[u8]) -> Result<Program, AsmFault> {
    let mut source = Bytes::new(alloc);
    source.extend(alloc, first)?;
    source.push(alloc, b'\n')?;
    source.extend(alloc, second)?;
    let source = source.as_slice();
    if source.len() < 0xffff_ffff {
        assemble(alloc, source)
    } else {
        Err(AsmFault::NoMemory)
    }
}

/// The runtime alone, and the addresses of its labels as GNU as and ld give them for the same forms.
#[test]
fn runtime_is_assembled(rt: HostRuntime) -> Result<(), Fail> {
    let labels =
        b".data\n.quad getcontext, makecontext, ctx_enter, ctx_end, swapcontext, ctx_go, ctx_ret, setcontext\n.quad setjmp, longjmp, lj_loop, lj_done, lj_go, thread_start, ts_child, sig_restorer";
    let program = program_of(rt.alloc(), runtime_text().as_bytes(), labels)
        .ok()
        .ok_or("the runtime isn't assembled")?;
    let addresses = [
        0x401000, 0x401036, 0x40105e, 0x401079, 0x401082, 0x4010b5, 0x4010e2, 0x4010e7, 0x4010f3,
        0x40112f, 0x401143, 0x401165, 0x401176, 0x401195, 0x4011bb, 0x4011c8,
    ];
    for (at, address) in addresses.iter().enumerate() {
        assert_eq!(rt;
            get_u64(program.static_data.as_slice(), 8 * at),
            Some(*address)
        );
    }
    assert_eq!(rt; program.static_data.len(), 128);
    assert_eq!(rt; program.text.len(), 463);
    Ok(())
}

/// The number of swaps stands in the text in decimal, and in the code before `again`, which is at 0x401041.
#[test]
fn bench_is_assembled(rt: HostRuntime) -> Result<(), Fail> {
    let alloc = rt.alloc();
    let rows: [(u32, &[u8], usize, &[u8]); 2] = [
        (1, b"mov ebp, 1\nagain: ", 471, &[0xbd, 1, 0, 0, 0]),
        (1000, b"mov ebp, 1000\nagain: ", 474, &[0xbd, 0xe8, 3, 0, 0]),
    ];
    for (count, line, len, code) in rows {
        let text = bench_text(alloc, count)?;
        assert_eq!(rt; text.as_slice().get(193..193 + line.len()), Some(line));
        assert_eq!(rt; text.len(), len);
        let program = program_of(alloc, text.as_slice(), runtime_text().as_bytes())
            .ok()
            .ok_or("the program isn't assembled")?;
        assert_eq!(rt; program.text.as_slice().get(0x3c..0x41), Some(code));
        assert_eq!(rt; program.text.len(), 589);
        assert_eq!(rt; program.static_data.len(), 80 + 80 + 4096 + 8);
        assert_eq!(rt; program.entry, 0x401000);
    }
    Ok(())
}
