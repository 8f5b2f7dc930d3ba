//! A program that makes work: two contexts that swap a given number of times.

ghost use Rattle.std.specs.Prelude.{◌≡◌, ◌≤◌, ◌++◌, length, IfOk, OnOk};
ghost use Rattle.cet_ctx.specs.Bench.{bench};
ghost use Rattle.cet_ctx.specs.Lines.{most_text};

use cet_base::put_decimal;
use cet_words::{Bytes, NoMemory};
use std::alloc::Global;

/// Makes a context with a shadow stack of its own.
const SETUP: &str = "\
_start: mov edi, 0
mov esi, 4096
mov edx, 1
mov eax, 453
syscall
lea r8, [rax+4096]
lea rdi, [rip+ctx_b]
lea rsi, [rip+work]
xor edx, edx
lea rcx, [rip+stack_end]
xor r9d, r9d
call makecontext
";

/// Swaps to that context and back until RBP is 0, and ends the process; what the context does; records and stack.
const ROUNDS: &str = "\
again: lea rdi, [rip+ctx_a]
lea rsi, [rip+ctx_b]
call swapcontext
dec rbp
jne again
xor edi, edi
mov eax, 231
syscall
work: lea rdi, [rip+ctx_b]
lea rsi, [rip+ctx_a]
call swapcontext
jmp work
.data
ctx_a: .zero 80
ctx_b: .zero 80
stack: .zero 4096
stack_end: .quad 0
";

/// The program, with this number for its count.
fn text_with(alloc: Global, n: u32) -> Result<Bytes, NoMemory>
    ensures { IfOk result (λ text. text ≡ bench n) }
{
    let mut text = Bytes::new(alloc);
    text.extend(alloc, SETUP.as_bytes())?;
    text.extend(alloc, b"mov ebp, ")?;
    put_decimal(alloc, &mut text, n as u64)?;
    text.extend(alloc, b"\n")?;
    text.extend(alloc, ROUNDS.as_bytes())?;
    Ok(text)
}

/// A program, of at most 4,096 bytes, that swaps `n` times to a second context and back, as assembler text that needs the
/// runtime behind it. `n` is 1 to 1,000.
pub fn bench_text(alloc: Global, n: u32) -> Result<Bytes, NoMemory>
    requires low { 1 ≤ n }
    requires high { n ≤ 1000 }
    ensures text { IfOk result (λ text. text ≡ bench n) }
    ensures short { IfOk result (λ text. length text ≤ most_text) }
{
    let text = text_with(alloc, n)?;
    Ok(text)
}
