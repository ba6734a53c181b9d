//! Spellings, what is written of each, and which instruction it is.

pub(super) const WRITTEN: &str = r"
8b842408000000       8b442408             mov 8(%rsp), %eax: a byte holds 8
8b442400             8b0424               mov (%rsp), %eax: SIB, no displacement
8b04e4               8b0424               the same with another scale of no index
418b442400           418b0424             mov (%r12), %eax: SIB as %rsp
8b8500000000         8b4500               mov (%rbp), %eax: 101 needs a displacement
418b8500000000       418b4500             mov (%r13), %eax
8b442500             8b4500               mov (%rbp), %eax by SIB
8b840500000000       8b440500             mov (%rbp,%rax), %eax
8b0420               8b00                 mov (%rax), %eax by SIB
8b048d04000000       8b048d04000000       mov 4(,%rcx,4), %eax: no base has four bytes
8b04e504000000       8b042504000000       mov 4, %eax
428b042504000000     428b042504000000     mov 4(,%r12), %eax: REX.X is needed
8b0504000000         8b0504000000         mov 4(%rip), %eax
8b807f000000         8b407f               mov 127(%rax), %eax
8b8080000000         8b8080000000         mov 128(%rax), %eax
8b8080ffffff         8b4080               mov -128(%rax), %eax
8b807fffffff         8b807fffffff         mov -129(%rax), %eax
488b8000000000       488b00               movq x@dtpoff(%rax), %rax before it is linked
8bc8                 89c1                 mov %eax, %ecx: the first row of two
4c03c0               4901c0               add %rax, %r8
81c301000000         83c301               add $1, %ebx
4805ffffffff         4883c0ff             add $-1, %rax
4881c080000000       480580000000         add $128, %rax: shorter than 81 /0
4181c080000000       4181c080000000       add $128, %r8d
c7c001000000         b801000000           mov $1, %eax
48b80100000000000000 48c7c001000000       mov $1, %rax
49bf00000080ffffffff 49c7c700000080       mov $-0x80000000, %r15
48b80000008000000000 48b80000008000000000 movabs $0x80000000, %rax
c1e001               d1e0                 shl $1, %eax
c1e0ff               c1e0ff               shl $255, %eax
4850                 50                   push %rax
4f57                 4157                 push %r15
4158                 4158                 pop %r8
6648ffd0             ffd0                 call *%rax, padded
e910000000           eb10                 jmp
0f8480ffffff         7480                 je
0f8480000000         0f8480000000         je
f30f1efa             90                   endbr64 does what nop does
662e0f1f4000         0f1f00               cs nopw 0(%rax)
408818               8818                 mov %bl, (%rax)
408838               408838               mov %dil, (%rax): REX without a bit
480fb6c6             480fb6c6             movzx %sil, %rax
6664488b042500000000 64488b042500000000   mov %fs:0, %rax
480f0b               0f0b                 ud2
";
