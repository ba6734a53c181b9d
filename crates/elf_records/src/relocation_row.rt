//! The table of relocation types: what the linker does with each type that it takes from an object (psABI, "Relocation
//! Types"; for thread-local storage: Drepper, "ELF Handling For Thread-Local Storage", section 4).

ghost use Rattle.std.specs.Prelude.{◌≡◌, ◌↔◌, IsTrue};
ghost use Rattle.elf_records.specs.RelocationRows.{row, form_width, is_absolute, is_address_kind};
ghost use Rattle.elf_records.specs.RowLaws.{is_distance};
ghost use Rattle.elf_records.specs.RelocationRows.{is_offset, is_tls_kind, has_value, may_import};
ghost use Rattle.elf_records.specs.RowLaws.{is_of_sequence};
ghost use Rattle.elf_records.specs.RelocationRows.{names_symbol};
ghost use Rattle.elf_records.specs.RowLaws.{reaches_entry};
ghost use Rattle.elf_records.specs.Relocations.{field_width, IsOfCode};

use crate::relocation::RelocationKind;
use FieldForm::*;
use FieldPlace::*;
use FieldValue::*;
use Refused::*;
use RelocationKind::*;
use Replaced::*;
use SequencePart::*;
use SymbolRole::*;
use TableEntry::*;

/// What the field holds: S is the symbol's address, A the addend, P the address of the field, G the address of the
/// entry in the global offset table, O the symbol's offset in the TLS segment, and B how far the segment's block
/// begins below the thread pointer.
#[derive(Clone, Copy, PartialEq, Eq, Debug)]
pub enum FieldValue {
    /// Nothing.
    NoValue,
    /// S + A.
    Address,
    /// S + A - P.
    Distance,
    /// G + A - P.
    EntryDistance,
    /// O + A.
    SegmentOffset,
    /// O + A - B.
    ThreadOffset,
    /// G + A - P, where G is a TLS descriptor.
    DescriptorDistance,
}

/// How wide the field is, and which numbers fit it.
#[derive(Clone, Copy, PartialEq, Eq, Debug)]
pub enum FieldForm {
    /// There is no field.
    NoField,
    /// From -2^31 to 2^31 - 1.
    Signed32,
    /// From 0 to 2^32 - 1.
    Unsigned32,
    /// Any, modulo 2^64.
    Wrapped64,
}

/// What a relocation of the type may name.
#[derive(Clone, Copy, PartialEq, Eq, Debug)]
pub enum SymbolRole {
    /// Nothing.
    NoSymbol,
    /// A symbol that is not thread-local.
    Ordinary,
    /// A thread-local variable of the image itself.
    OwnVariable,
    /// A thread-local variable of the image itself or of a startup image: the loader fills in what it needs.
    AnyVariable,
}

/// Where a relocation of the type may stand.
#[derive(Clone, Copy, PartialEq, Eq, Debug)]
pub enum FieldPlace {
    /// In any section that linking keeps.
    Anywhere,
    /// Only in executable sections, since it belongs to an instruction.
    InCode,
}

/// The kind of entry of the global offset table whose address is G.
#[derive(Clone, Copy, PartialEq, Eq, Debug)]
pub enum TableEntry {
    NoEntry,
    /// This module, and 0.
    ModulePair,
    /// The symbol's module, and its offset there.
    SymbolPair,
    /// The symbol's descriptor.
    Descriptor,
    /// The symbol's offset from the thread pointer.
    SymbolWord,
    /// The symbol's address.
    AddressWord,
}

/// Which relocation of a TLS code sequence it may be.
#[derive(Clone, Copy, PartialEq, Eq, Debug)]
pub enum SequencePart {
    NoPart,
    /// The first; it stands nowhere else.
    First,
    /// The second, where it names the run time's function.
    Second,
}

/// Whether the field goes with its sequence when a program is relaxed.
#[derive(Clone, Copy, PartialEq, Eq, Debug)]
pub enum Replaced {
    Never,
    Always,
    /// Where its symbol is one of the image itself.
    WhereOwn,
    /// Where its symbol is the run time's function.
    WhereRuntime,
}

/// Which images refuse it.
#[derive(Clone, Copy, PartialEq, Eq, Debug)]
pub enum Refused {
    Accepted,
    /// A module: it does not know how far its TLS block lies from the thread pointer.
    InModule,
    /// An image that may be loaded at any address: the field may be too narrow for it.
    WhereMoved,
}

/// A row of the table.
#[derive(Clone, Copy, PartialEq, Eq, Debug)]
pub struct RelocationRow {
    pub value: FieldValue,
    pub form: FieldForm,
    pub symbol: SymbolRole,
    pub place: FieldPlace,
    pub entry: TableEntry,
    pub part: SequencePart,
    pub replaced: Replaced,
    pub refused: Refused,
}

/// A row, by its columns.
macro_rules! row {
    ($value:ident $form:ident $symbol:ident $place:ident $entry:ident $part:ident $replaced:ident $refused:ident) => {
        RelocationRow {
            value: $value,
            form: $form,
            symbol: $symbol,
            place: $place,
            entry: $entry,
            part: $part,
            replaced: $replaced,
            refused: $refused,
        }
    };
}

impl RelocationKind {
    /// The type's row.
    #[inline(always)]
    pub fn row(self) -> RelocationRow
        ensures { result ≡ row self }
    {
        match self {
            // nothing
            Nothing => row!(NoValue NoField NoSymbol Anywhere NoEntry NoPart Never Accepted),
            // S + A, in 64 bits
            Absolute64 => row!(Address Wrapped64 Ordinary Anywhere NoEntry NoPart Never Accepted),
            // S + A - P
            Pc32 => row!(Distance Signed32 Ordinary Anywhere NoEntry Second WhereRuntime Accepted),
            // L + A - P: L is S, or the stub of a function that is called through a table
            Plt32 => row!(Distance Signed32 Ordinary InCode NoEntry Second WhereRuntime Accepted),
            // G + A - P
            GotPcRel =>
                row!(EntryDistance Signed32 Ordinary InCode AddressWord Second WhereRuntime Accepted),
            // S + A, without a sign
            Absolute32 =>
                row!(Address Unsigned32 Ordinary Anywhere NoEntry NoPart Never WhereMoved),
            // S + A, with a sign
            Absolute32Signed =>
                row!(Address Signed32 Ordinary Anywhere NoEntry NoPart Never WhereMoved),
            // G + A - P, of the pair of a variable
            TlsGd =>
                row!(EntryDistance Signed32 AnyVariable InCode SymbolPair First Always Accepted),
            // G + A - P, of the pair of this module
            TlsLd =>
                row!(EntryDistance Signed32 OwnVariable InCode ModulePair First Always Accepted),
            // O + A
            DtpOff32 =>
                row!(SegmentOffset Signed32 OwnVariable InCode NoEntry NoPart Never Accepted),
            // G + A - P, of a variable's offset from the thread pointer
            GotTpOff =>
                row!(EntryDistance Signed32 AnyVariable InCode SymbolWord First WhereOwn Accepted),
            // O + A - B
            TpOff32 =>
                row!(ThreadOffset Signed32 OwnVariable Anywhere NoEntry NoPart Never InModule),
            // G + A - P, of a variable's descriptor
            GotPc32TlsDesc =>
                row!(DescriptorDistance Signed32 AnyVariable InCode Descriptor First Always Accepted),
            // nothing: it marks the call through a descriptor
            TlsDescCall => row!(NoValue NoField AnyVariable InCode NoEntry First Never Accepted),
            // G + A - P, in an instruction that a linker may rewrite
            GotPcRelX =>
                row!(EntryDistance Signed32 Ordinary InCode AddressWord Second WhereRuntime Accepted),
            // the same, in an instruction with a REX prefix
            RexGotPcRelX =>
                row!(EntryDistance Signed32 Ordinary InCode AddressWord Second WhereRuntime Accepted),
        }
    }

    /// How many bytes the field has.
    #[inline(always)]
    pub fn width(self) -> u64
        ensures { result ≡ field_width self }
    {
        self.row().form.width()
    }

    /// Whether it belongs to an instruction, so that it stands only in executable sections.
    #[inline(always)]
    pub fn is_of_code(self) -> bool
        ensures { IsTrue result ↔ IsOfCode self }
    {
        matches!(self.row().place, InCode)
    }

    /// Whether it names a symbol at all.
    #[inline(always)]
    pub fn names_symbol(self) -> bool
        ensures { result ≡ names_symbol self }
    {
        !matches!(self.row().symbol, NoSymbol)
    }

    /// Whether it belongs to thread-local storage, so that its symbol is thread-local.
    #[inline(always)]
    pub fn is_tls(self) -> bool
        ensures { result ≡ is_tls_kind self }
    {
        matches!(self.row().symbol, OwnVariable | AnyVariable)
    }

    /// Whether it may name a symbol that another image exports.
    #[inline(always)]
    pub fn may_import(self) -> bool
        ensures { result ≡ may_import self }
    {
        matches!(self.row().symbol, AnyVariable)
    }

    /// Whether it stands only in sequences, as the first relocation.
    #[inline(always)]
    pub fn is_of_sequence(self) -> bool
        ensures { result ≡ is_of_sequence self }
    {
        matches!(self.row().part, First)
    }

    /// Whether its field reaches an entry of the global offset table.
    #[inline(always)]
    pub fn reaches_entry(self) -> bool
        ensures { result ≡ reaches_entry self }
    {
        !matches!(self.row().entry, NoEntry)
    }

    /// Whether its field reaches an entry that holds an address.
    #[inline(always)]
    pub fn reaches_address(self) -> bool
        ensures { result ≡ is_address_kind self }
    {
        matches!(self.row().entry, AddressWord)
    }

    /// Whether its field holds an offset in a TLS segment.
    #[inline(always)]
    pub fn is_offset(self) -> bool
        ensures { result ≡ is_offset self }
    {
        matches!(self.row().value, SegmentOffset | ThreadOffset)
    }

    /// Whether its field holds an address, a distance or a thread offset, with no table of the linker involved.
    #[inline(always)]
    pub fn has_value(self) -> bool
        ensures { result ≡ has_value self }
    {
        matches!(self.row().value, Address | Distance | ThreadOffset)
    }

    /// Whether its field holds the distance from the field to a symbol.
    #[inline(always)]
    pub fn is_distance(self) -> bool
        ensures { result ≡ is_distance self }
    {
        matches!(self.row().value, Distance)
    }

    /// Whether its field holds an address of 8 bytes.
    #[inline(always)]
    pub fn is_absolute(self) -> bool
        ensures { result ≡ is_absolute self }
    {
        matches!(self.row().form, Wrapped64)
    }
}

impl FieldForm {
    /// How many bytes the field has.
    #[inline(always)]
    pub fn width(self) -> u64
        ensures { result ≡ form_width self }
    {
        match self {
            NoField => 0,
            Signed32 | Unsigned32 => 4,
            Wrapped64 => 8,
        }
    }
}
