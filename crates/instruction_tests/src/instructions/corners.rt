//! Bytes at the edges of the subset: how many of them an instruction takes, whether they begin one, and why.

pub(super) const CORNERS: &str = r"
c3c3                             1  -      ret, and more
6666666666666666666666660f       -  begins 12 times 66: 1f 00 makes 15 bytes
666666666666666666666666660f     -  -      13 times 66: 1f 00 would make 16
6666666666666666666666660f1f00   15 -      nopw (%rax) in 15 bytes
666666666666666666666666660f1f00 -  -      16 bytes
666666666666666666666666666690   15 -      nop in 15 bytes
6666666666666666666666666666     -  begins 14 times 66: 90 makes 15 bytes
66666666666666666666666666666690 -  -      16 bytes
666666666666666666666666666666   -  -      15 times 66
666666666666666666666666488b     -  begins 48 8b 00 makes 15 bytes
66666666666666666666666666488b   -  -      48 8b 00 would make 16
666666666666666666666666488b00   15 -      mov (%rax), %rax in 15 bytes
6666666666666666488b0500000000   15 -      and with a displacement
666666666666666666488b0500000000 -  -      16 bytes
666666666666666666488b05         -  -      four more would make 16
66666666666666666666666664       -  -      64 and 48 8b 00 would make 16
666666666666666666666664         -  begins 48 8b 00 makes 15
64666666666666666666666666       -  -      48 8b 00 would make 16
2e90                             2  -      2e before nop
662e6690                         4  -      in any order
2e660f1f00                       5  -      before nop with an operand
2e480f1f00                       5  -      with REX
2ec3                             -  -      2e before ret
2e4889c0                         -  -      2e beside REX.W
2e48                             -  begins 2e and REX: 0f 1f 00 may follow
2e480f                           -  begins and so on
2e0f0b                           -  -      2e before ud2
6689c0                           -  -      66 without REX.W: mov of 16 bits
664189c0                         -  -      66 beside REX without W
664889c0                         4  -      66 beside REX.W
6648c3                           3  -      66 beside REX.W, which ret ignores
66c3                             -  -      66 before ret
66f30f1efa                       -  -      66 before endbr64
2ef30f1efa                       -  -      2e before endbr64
48f30f1efa                       -  -      REX before endbr64
f30f1efa                         4  -      endbr64
f30f1efb                         -  -      another f3
f390                             -  -      pause
4890                             -  -      REX before nop
4190                             -  -      xchg %eax, %r8d
64c3                             -  -      FS before ret
6490                             -  -      FS before nop
640f1f00                         -  -      FS before nop of memory, which is not accessed
640f1f                           -  -      refused at the opcode
648d00                           -  -      FS before lea
648d                             -  -      refused at the opcode
6450                             -  -      FS before push
644889c0                         -  -      FS before a register
64488b                           -  begins FS before an operand
64ff20                           3  -      jmp *%fs:(%rax)
64648b00                         -  -      FS twice
64668b00                         -  -      FS and 66 without REX.W
64668b                           -  -      refused at the opcode
646641                           -  -      refused at REX
6466488b00                       5  -      FS and 66 beside REX.W
6664488b00                       5  -      in any order
642e                             -  -      FS and 2e
2e64                             -  -      2e and FS
6466                             -  begins 48 8b 00 may follow
486689c0                         -  -      66 behind REX
48648b00                         -  -      FS behind REX
484889c0                         -  -      REX behind REX
4fc3                             2  -      bits that ret does not use
48                               -  begins REX alone
8820                             -  -      mov %ah, (%rax)
408820                           3  -      mov %spl, (%rax)
8818                             2  -      mov %bl, (%rax)
8838                             -  -      mov %bh, (%rax)
0fb6c4                           -  -      movzx %ah, %eax
400fb6c4                         4  -      movzx %spl, %eax
0fb6c3                           3  -      movzx %bl, %eax
0fb6442407                       5  -      movzx 7(%rsp), %eax
88c0                             -  -      mov of a byte to a register
8b04                             -  begins SIB is missing
8b0424                           3  -      (%rsp)
8b4424                           -  begins a byte of displacement is missing
8b442408                         4  -      8(%rsp)
8b842408000000                   7  -      8(%rsp) in four bytes
8bc4                             2  -      %esp
8b0500000000                     6  -      (%rip)
8b05000000                       -  begins a byte is missing
8b4500                           3  -      0(%rbp)
8b8500000000                     6  -      0(%rbp) in four bytes
8bc5                             2  -      %ebp
8b042500000000                   7  -      absolute
8b0425                           -  begins its address is missing
8b442500                         4  -      0(%rbp) by SIB
428b0420                         4  -      (%rax,%r12)
c7c8                             -  -      c7 /1
83d001                           -  -      adc
83d0                             -  -      refused at ModRM
81d8                             -  -      sbb
c1c0                             -  -      rol
d1f0                             -  -      d1 /6
ffc0                             -  -      inc
fff0                             -  -      ff /6
0f1f08                           -  -      0f 1f /1
8dc0                             -  -      lea of a register
63c0                             -  -      movslq without REX.W
4863c0                           3  -      movslq
7a00                             -  -      jp
7b                               -  -      jnp
0f8a00000000                     -  -      jp
0f05                             -  -      syscall
0f                               -  begins a two-byte opcode
cc                               -  -      int3
48b800000000000000               -  begins seven of eight bytes
48b80000000000000080             10 -      movabs
b800000080                       5  -      mov of 32 bits
";
