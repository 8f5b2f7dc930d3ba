//! The guest runtime.

ghost use Rattle.std.specs.Prelude.{◌≡◌, ◌≤◌, length};
ghost use Rattle.cet_ctx.specs.Lines.{most_text};
ghost use Rattle.cet_ctx.specs.Runtime.{runtime};

const RUNTIME: &str = "\
.text
getcontext: endbr64
mov [rdi], rbx
mov [rdi+8], rbp
mov [rdi+16], r12
mov [rdi+24], r13
mov [rdi+32], r14
mov [rdi+40], r15
mov [rdi+48], rsp
mov rax, ctx_ret
mov [rdi+56], rax
rdsspq rax
mov [rdi+64], rax
xor eax, eax
ret
makecontext: endbr64
mov [rdi+16], rsi
mov [rdi+24], rdx
mov [rdi+32], r9
and rcx, -16
mov [rdi+48], rcx
mov rax, ctx_enter
mov [rdi+56], rax
mov [rdi+64], r8
ret
ctx_enter: endbr64
mov rdi, r13
call r12
test r14, r14
je ctx_end
mov rdi, r14
call setcontext
ctx_end: xor edi, edi
mov eax, 60
syscall
swapcontext: endbr64
mov [rdi], rbx
mov [rdi+8], rbp
mov [rdi+16], r12
mov [rdi+24], r13
mov [rdi+32], r14
mov [rdi+40], r15
mov [rdi+48], rsp
mov rax, ctx_ret
mov [rdi+56], rax
rdsspq rax
mov [rdi+64], rax
ctx_go: mov rax, [rsi+64]
rstorssp [rax-8]
saveprevssp
mov rbx, [rsi]
mov rbp, [rsi+8]
mov r12, [rsi+16]
mov r13, [rsi+24]
mov r14, [rsi+32]
mov r15, [rsi+40]
mov rsp, [rsi+48]
xor eax, eax
jmp [rsi+56]
ctx_ret: endbr64
ret
setcontext: endbr64
mov rsi, rdi
jmp ctx_go
setjmp: endbr64
mov [rdi], rbx
mov [rdi+8], rbp
mov [rdi+16], r12
mov [rdi+24], r13
mov [rdi+32], r14
mov [rdi+40], r15
lea rax, [rsp+8]
mov [rdi+48], rax
mov rax, [rsp]
mov [rdi+56], rax
rdsspq rax
add rax, 8
mov [rdi+64], rax
xor eax, eax
ret
longjmp: endbr64
rdsspq rax
mov rcx, [rdi+64]
sub rcx, rax
shr rcx, 3
lj_loop: test rcx, rcx
je lj_done
mov edx, 255
cmp rcx, rdx
cmovb rdx, rcx
incsspq rdx
sub rcx, rdx
jmp lj_loop
lj_done: mov rax, rsi
test rax, rax
jne lj_go
mov eax, 1
lj_go: mov rbx, [rdi]
mov rbp, [rdi+8]
mov r12, [rdi+16]
mov r13, [rdi+24]
mov r14, [rdi+32]
mov r15, [rdi+40]
mov rsp, [rdi+48]
notrack jmp [rdi+56]
thread_start: endbr64
mov [rdx-8], rsi
mov [rdx-16], rdi
lea rsi, [rdx-16]
mov edi, 0x10900
mov eax, 56
syscall
test rax, rax
je ts_child
ret
ts_child: pop rax
pop rdi
call rax
xor edi, edi
mov eax, 60
syscall
sig_restorer: mov eax, 15
syscall
";

/// The runtime as assembler text, of at most 4,096 bytes.
#[tactic(auto, using(crate::proofs::Lengths::runtime_short))]
pub fn runtime_text() -> &'static str
    ensures text { result.now ≡ runtime }
    ensures short { length result.now ≤ most_text }
{
    RUNTIME
}
