//! The table of forms: the bytes of each, and their relocations.

ghost use Rattle.std.specs.Prelude.{◌≡◌, Some, None};
ghost use Rattle.sequence_forms.specs.Forms.{IsRow, fits, is_initial, row, row_of, to_end};

use Cell::*;
use RelocationKind::{GotPc32TlsDesc, GotTpOff, TlsDescCall, TlsGd, TlsLd};
use elf_records::RelocationKind;

/// The addend of a field of four bytes at the end of its instruction.
pub const TO_END: i64 = -4;

/// A form of TLS code sequence, by its access model.
#[derive(Clone, Copy, PartialEq, Eq, Debug)]
pub enum Form {
    /// General dynamic: the address of a variable, by a call.
    Gd,
    /// Local dynamic: the start of the module's own block, by a call.
    Ld,
    /// Initial exec: loads a variable's offset from the thread pointer.
    IeMov,
    /// Initial exec: adds that offset to a register.
    IeAdd,
    /// General dynamic, with an indirect call through a word of the GOT.
    GdInd,
    /// Local dynamic, with an indirect call through a word of the GOT.
    LdInd,
    /// A TLS descriptor: loads its address.
    DescLea,
    /// A TLS descriptor: calls its function.
    DescCall,
}

/// One byte of a sequence.
#[derive(Clone, Copy, PartialEq, Eq, Debug)]
pub enum Cell {
    /// This byte.
    Is(u8),
    /// REX, 48 or 4c. Its bit R, 4, adds 8 to the register number in ModRM.
    Rex,
    /// ModRM with a displacement from the instruction's end: mod 00, rm 101, and a register between them.
    ModRm,
    /// A byte of a relocation's field: any byte.
    Field,
}

/// How a sequence calls `__tls_get_addr`.
#[derive(Clone, Copy, PartialEq, Eq, Debug)]
pub enum Call {
    /// With the distance in the field: R_X86_64_PLT32 or R_X86_64_PC32.
    Direct,
    /// Through the word at that distance: R_X86_64_GOTPCREL, R_X86_64_GOTPCRELX or R_X86_64_REX_GOTPCRELX.
    Indirect,
}

/// The second relocation of a form. It names the undefined symbol `__tls_get_addr`, with addend -4.
#[derive(Clone, Copy, PartialEq, Eq, Debug)]
pub struct Second {
    /// Its offset in the sequence.
    pub at: u64,
    /// Which types it may have.
    pub call: Call,
}

/// A row of the table.
#[derive(Clone, Copy, Debug)]
pub struct Row {
    /// The bytes, one cell for each.
    pub cells: &'static [Cell],
    /// The type of the first relocation.
    pub first: RelocationKind,
    /// Its offset in the sequence.
    pub first_at: u64,
    /// Its addend; `None` if any is allowed.
    pub addend: Option<i64>,
    /// The second relocation, if the form has two.
    pub second: Option<Second>,
}

impl Cell {
    /// Whether a byte is allowed here.
    pub fn fits(self, byte: u8) -> bool
        ensures { result ≡ fits self byte }
    {
        match self {
            Is(literal) => byte == literal,
            Rex => byte == 0x48 || byte == 0x4c,
            ModRm => byte % 8 == 5 && byte < 64,
            Field => true,
        }
    }
}

/// One byte of a row as the standards write it: a number, `rex`, `modrm`, or `r` for a byte of a field.
macro_rules! cell {
    (rex) => {
        Rex
    };
    (modrm) => {
        ModRm
    };
    (r) => {
        Field
    };
    ($byte:literal) => {
        Is($byte)
    };
}

/// The bytes of a row.
macro_rules! cells {
    ($($cell:tt)*) => {
        &[$(cell!($cell)),*]
    };
}

/// A row with a second relocation at `at`.
fn calling(cells: &'static [Cell], first: RelocationKind, first_at: u64, call: Call, at: u64) -> Row
    ensures { IsRow (row_of cells.now first first_at to_end (Some (record { at = at; call = call }))) result }
{
    Row {
        cells,
        first,
        first_at,
        addend: Some(TO_END),
        second: Some(Second { at, call }),
    }
}

/// A row of seven bytes that end in the field of one relocation.
fn alone(cells: &'static [Cell], first: RelocationKind) -> Row
    ensures { IsRow (row_of cells.now first 3 to_end None) result }
{
    Row {
        cells,
        first,
        first_at: 3,
        addend: Some(TO_END),
        second: None,
    }
}

impl Form {
    /// Whether the form finds a variable at a fixed distance from the thread pointer (initial exec).
    pub fn is_initial(self) -> bool
        ensures { result ≡ is_initial self }
    {
        matches!(self, Form::IeMov | Form::IeAdd)
    }

    /// The form's row: what an assembler makes of the instructions next to it.
    #[tactic(auto, unfolding(crate::specs::Forms::row))]
    pub fn row(self) -> Row
        ensures { IsRow (row self) result }
    {
        match self {
            // lea x@tlsgd(%rip), %rdi; call __tls_get_addr@plt
            Form::Gd => calling(
                cells![0x66 0x48 0x8d 0x3d r r r r 0x66 0x66 0x48 0xe8 r r r r],
                TlsGd,
                4,
                Call::Direct,
                12,
            ),
            // lea x@tlsld(%rip), %rdi; call __tls_get_addr@plt
            Form::Ld => calling(
                cells![0x48 0x8d 0x3d r r r r 0xe8 r r r r],
                TlsLd,
                3,
                Call::Direct,
                8,
            ),
            // mov x@gottpoff(%rip), %r
            Form::IeMov => alone(cells![rex 0x8b modrm r r r r], GotTpOff),
            // add x@gottpoff(%rip), %r
            Form::IeAdd => alone(cells![rex 0x03 modrm r r r r], GotTpOff),
            // lea x@tlsgd(%rip), %rdi; call *__tls_get_addr@gotpcrel(%rip)
            Form::GdInd => calling(
                cells![0x66 0x48 0x8d 0x3d r r r r 0x66 0x48 0xff 0x15 r r r r],
                TlsGd,
                4,
                Call::Indirect,
                12,
            ),
            // lea x@tlsld(%rip), %rdi; call *__tls_get_addr@gotpcrel(%rip)
            Form::LdInd => calling(
                cells![0x48 0x8d 0x3d r r r r 0xff 0x15 r r r r],
                TlsLd,
                3,
                Call::Indirect,
                9,
            ),
            // lea x@tlsdesc(%rip), %rax
            Form::DescLea => alone(cells![0x48 0x8d 0x05 r r r r], GotPc32TlsDesc),
            // call *x@tlscall(%rax)
            Form::DescCall => Row {
                cells: cells![0xff 0x10],
                first: TlsDescCall,
                first_at: 0,
                addend: None,
                second: None,
            },
        }
    }
}
