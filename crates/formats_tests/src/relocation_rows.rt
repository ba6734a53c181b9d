//! The table of relocation types, typed once more from the standards: number, field and calculation from the psABI,
//! "Relocation Types"; what TLS types name and reach from Drepper, "ELF Handling For Thread-Local Storage", sections
//! 4.1 to 4.4 and, for descriptors, the psABI, "Thread-Local Storage". Where a type may stand, its part of a
//! sequence, when it is replaced and what refuses it are rules of this linker, typed once more.

use elf_records::RelocationKind;
use elf_records::relocation_row::{
    FieldForm, FieldPlace, FieldValue, Refused, RelocationRow, Replaced, SequencePart, SymbolRole,
    TableEntry,
};

/// The psABI's column "Field"; a `sword32` is signed.
macro_rules! field {
    (none) => {
        FieldForm::NoField
    };
    (word32) => {
        FieldForm::Unsigned32
    };
    (sword32) => {
        FieldForm::Signed32
    };
    (word64) => {
        FieldForm::Wrapped64
    };
}

/// The psABI's column "Calculation"; for thread-local storage, the assembler's operators.
macro_rules! value {
    (none) => {
        FieldValue::NoValue
    };
    (S + A) => {
        FieldValue::Address
    };
    (S + A - P) => {
        FieldValue::Distance
    };
    (L + A - P) => {
        FieldValue::Distance
    };
    (G + GOT + A - P) => {
        FieldValue::EntryDistance
    };
    (x@tlsgd) => {
        FieldValue::EntryDistance
    };
    (x@tlsld) => {
        FieldValue::EntryDistance
    };
    (x@dtpoff) => {
        FieldValue::SegmentOffset
    };
    (x@gottpoff) => {
        FieldValue::EntryDistance
    };
    (x@tpoff) => {
        FieldValue::ThreadOffset
    };
    (x@tlsdesc) => {
        FieldValue::DescriptorDistance
    };
}

/// A line: number, field, calculation, symbol, place, entry of the global offset table, part of a sequence, when a
/// relaxed program replaces it, and what refuses it.
macro_rules! line {
    (
        $number:literal $field:ident ($($value:tt)*) $symbol:ident $place:ident $entry:ident $part:ident
        $replaced:ident $refused:ident
    ) => {
        (
            $number,
            RelocationRow {
                value: value!($($value)*),
                form: field!($field),
                symbol: SymbolRole::$symbol,
                place: FieldPlace::$place,
                entry: TableEntry::$entry,
                part: SequencePart::$part,
                replaced: Replaced::$replaced,
                refused: Refused::$refused,
            },
        )
    };
}

const LINES: [(u32, RelocationRow); 16] = [
    // R_X86_64_NONE
    line!(0 none (none) NoSymbol Anywhere NoEntry NoPart Never Accepted),
    // R_X86_64_64
    line!(1 word64 (S + A) Ordinary Anywhere NoEntry NoPart Never Accepted),
    // R_X86_64_PC32
    line!(2 sword32 (S + A - P) Ordinary Anywhere NoEntry Second WhereRuntime Accepted),
    // R_X86_64_PLT32
    line!(4 sword32 (L + A - P) Ordinary InCode NoEntry Second WhereRuntime Accepted),
    // R_X86_64_GOTPCREL
    line!(9 sword32 (G + GOT + A - P) Ordinary InCode AddressWord Second WhereRuntime Accepted),
    // R_X86_64_32
    line!(10 word32 (S + A) Ordinary Anywhere NoEntry NoPart Never WhereMoved),
    // R_X86_64_32S
    line!(11 sword32 (S + A) Ordinary Anywhere NoEntry NoPart Never WhereMoved),
    // R_X86_64_TLSGD
    line!(19 sword32 (x@tlsgd) AnyVariable InCode SymbolPair First Always Accepted),
    // R_X86_64_TLSLD
    line!(20 sword32 (x@tlsld) OwnVariable InCode ModulePair First Always Accepted),
    // R_X86_64_DTPOFF32
    line!(21 sword32 (x@dtpoff) OwnVariable InCode NoEntry NoPart Never Accepted),
    // R_X86_64_GOTTPOFF
    line!(22 sword32 (x@gottpoff) AnyVariable InCode SymbolWord First WhereOwn Accepted),
    // R_X86_64_TPOFF32
    line!(23 sword32 (x@tpoff) OwnVariable Anywhere NoEntry NoPart Never InModule),
    // R_X86_64_GOTPC32_TLSDESC
    line!(34 sword32 (x@tlsdesc) AnyVariable InCode Descriptor First Always Accepted),
    // R_X86_64_TLSDESC_CALL
    line!(35 none (none) AnyVariable InCode NoEntry First Never Accepted),
    // R_X86_64_GOTPCRELX
    line!(41 sword32 (G + GOT + A - P) Ordinary InCode AddressWord Second WhereRuntime Accepted),
    // R_X86_64_REX_GOTPCRELX
    line!(42 sword32 (G + GOT + A - P) Ordinary InCode AddressWord Second WhereRuntime Accepted),
];

/// The row of the type with this number.
fn row_of(number: u32) -> Option<RelocationRow> {
    match RelocationKind::numbered(number) {
        Some(kind) => Some(kind.row()),
        None => None,
    }
}

#[test]
fn each_row_is_that_of_the_standards(rt: HostRuntime) {
    for (number, row) in LINES {
        assert!(rt; row_of(number) == Some(row));
    }
}

#[test]
fn there_are_sixteen_rows(rt: HostRuntime) {
    let mut count = 0u32;
    for number in 0..256 {
        if row_of(number).is_some() {
            count = count.saturating_add(1);
        }
    }
    assert!(rt; count == 16);
}
