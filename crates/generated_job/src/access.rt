//! The code of the objects, by the sequence that reaches the thread-local variable.
ghost use Rattle.std.specs.Prelude.{◌≡◌, ◌<◌, ◌^◌, IfOk, length};
ghost use Rattle.generated_job.specs.Accesses.{access_of, code_of, entries_of, calls_of};
ghost use Rattle.generated_job.specs.Generated.{entry_to_end};

use elf_records::Rela;
use elf_records::relocation::{
    R_X86_64_DTPOFF32, R_X86_64_GOTTPOFF, R_X86_64_PLT32, R_X86_64_TLSGD, R_X86_64_TLSLD,
};
use std::alloc::{AllocError, Global};

/// What an object's function does with its variable, by the sequence that reaches it.
#[derive(Clone, Copy)]
pub(crate) enum Access {
    /// Reads it by its address, in any module.
    GeneralDynamic,
    /// Reads it by its distance from the thread pointer, which a loader knows.
    InitialExecutable,
    /// Reads it by its offset in its own module's block.
    LocalDynamic,
    /// Writes the argument to it, in any module, and returns its address.
    GeneralDynamicWrite,
}

const GENERAL_DYNAMIC: [u8; 19] = [
    0x66, 0x48, 0x8d, 0x3d, 0, 0, 0, 0, // lea x@tlsgd(%rip), %rdi
    0x66, 0x66, 0x48, 0xe8, 0, 0, 0, 0, // call __tls_get_addr@plt
    0x8b, 0x00, // mov (%rax), %eax
    0xc3, // ret
];

const INITIAL_EXECUTABLE: [u8; 11] = [
    0x48, 0x8b, 0x05, 0, 0, 0, 0, // mov x@gottpoff(%rip), %rax
    0x64, 0x8b, 0x00, // mov %fs:(%rax), %eax
    0xc3, // ret
];

const LOCAL_DYNAMIC: [u8; 19] = [
    0x48, 0x8d, 0x3d, 0, 0, 0, 0, // lea x@tlsld(%rip), %rdi
    0xe8, 0, 0, 0, 0, // call __tls_get_addr@plt
    0x8b, 0x80, 0, 0, 0, 0, // mov x@dtpoff(%rax), %eax
    0xc3, // ret
];

const GENERAL_DYNAMIC_WRITE: [u8; 21] = [
    0x57, // push %rdi
    0x66, 0x48, 0x8d, 0x3d, 0, 0, 0, 0, // lea v@tlsgd(%rip), %rdi
    0x66, 0x66, 0x48, 0xe8, 0, 0, 0, 0, // call __tls_get_addr@plt
    0x59, // pop %rcx
    0x89, 0x08, // mov %ecx, (%rax)
    0xc3, // ret
];

/// The number of the variable's symbol.
const VARIABLE: u32 = 2;

/// The number of the symbol `__tls_get_addr`.
const GETTER: u32 = 3;

impl Access {
    /// The sequence of the object with this number: the three that read take turns.
    pub(crate) fn of_object(number: u32) -> Access
        ensures { result ≡ access_of number }
    {
        match number % 3 {
            1 => Access::GeneralDynamic,
            2 => Access::InitialExecutable,
            _ => Access::LocalDynamic,
        }
    }

    pub(crate) fn code(self) -> &'static [u8]
        ensures code { result.now ≡ code_of self }
        ensures few { length result.now < 256 }
    {
        match self {
            Access::GeneralDynamic => &GENERAL_DYNAMIC,
            Access::InitialExecutable => &INITIAL_EXECUTABLE,
            Access::LocalDynamic => &LOCAL_DYNAMIC,
            Access::GeneralDynamicWrite => &GENERAL_DYNAMIC_WRITE,
        }
    }

    /// The relocations of the code.
    pub(crate) fn relocations(self, alloc: Global) -> Result<Vec<Rela>, AllocError>
        ensures entries { IfOk result (λ entries. entries.items ≡ entries_of self) }
    {
        match self {
            Access::GeneralDynamic => Ok(vec![in alloc;
                field_at_end(4, R_X86_64_TLSGD, VARIABLE),
                field_at_end(12, R_X86_64_PLT32, GETTER),
            ]?),
            Access::InitialExecutable => Ok(vec![in alloc;
                field_at_end(3, R_X86_64_GOTTPOFF, VARIABLE),
            ]?),
            Access::LocalDynamic => Ok(vec![in alloc;
                field_at_end(3, R_X86_64_TLSLD, VARIABLE),
                field_at_end(8, R_X86_64_PLT32, GETTER),
                Rela {
                    offset: 14,
                    info: Rela::info_of(VARIABLE, R_X86_64_DTPOFF32),
                    addend: 0
                },
            ]?),
            Access::GeneralDynamicWrite => Ok(vec![in alloc;
                field_at_end(5, R_X86_64_TLSGD, VARIABLE),
                field_at_end(13, R_X86_64_PLT32, GETTER),
            ]?),
        }
    }

    /// Whether the code calls `__tls_get_addr`.
    pub(crate) fn calls(self) -> bool
        ensures { result ≡ calls_of self }
    {
        match self {
            Access::InitialExecutable => false,
            _ => true,
        }
    }
}

/// The relocation of a field of 4 bytes at the end of an instruction. The processor adds the field to the
/// instruction's end, 4 bytes after the field's own address.
fn field_at_end(offset: u64, kind: u32, symbol: u32) -> Rela
    ensures { result ≡ entry_to_end offset kind symbol }
{
    Rela {
        offset,
        info: Rela::info_of(symbol, kind),
        addend: -4,
    }
}
