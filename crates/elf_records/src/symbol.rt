//! Symbol table entries (gABI, "Symbol Table").

ghost use Rattle.std.specs.Prelude.{◌≡◌, ◌+◌, ◌*◌, ◌<◌, ◌≤◌, length, take, drop};
ghost use Rattle.elf_records.specs.Fields.{splice};
ghost use Rattle.elf_records.specs.FieldLaws.{IsReadAt};
ghost use Rattle.elf_records.specs.Records.{symbol_at, symbol_binding, symbol_bytes, symbol_kind, symbol_visibility};
ghost use Rattle.elf_records.specs.Symbols.{binding_number, binding_numbered, is_tls, is_visible, type_number};
ghost use Rattle.elf_records.specs.Symbols.{type_numbered, visibility_number, visibility_numbered};

use crate::field::{fits, put_u8, put_u16, put_u32, put_u64, u8_at, u16_at, u32_at, u64_at};

// Bindings (gABI, "Symbol Binding").
/// Visible only in its object.
pub const STB_LOCAL: u8 = 0;
/// Visible to all objects that are linked together.
pub const STB_GLOBAL: u8 = 1;
/// Like GLOBAL, but a GLOBAL definition takes precedence.
pub const STB_WEAK: u8 = 2;

// Types (gABI, "Symbol Types").
/// No type is given.
pub const STT_NOTYPE: u8 = 0;
/// Data.
pub const STT_OBJECT: u8 = 1;
/// Code.
pub const STT_FUNC: u8 = 2;
/// The section itself, as relocations name it.
pub const STT_SECTION: u8 = 3;
/// The source file.
pub const STT_FILE: u8 = 4;
/// Data that no object has defined yet.
pub const STT_COMMON: u8 = 5;
/// Data of which each thread has a copy.
pub const STT_TLS: u8 = 6;
/// A function that chooses the address to be called.
pub const STT_GNU_IFUNC: u8 = 10;

// Visibilities, the low two bits of `other` (gABI, "Symbol Visibility").
/// As the binding says.
pub const STV_DEFAULT: u8 = 0;
/// Hidden; a processor may give it a further meaning.
pub const STV_INTERNAL: u8 = 1;
/// Not visible outside its image.
pub const STV_HIDDEN: u8 = 2;
/// Visible outside its image, but not preempted there.
pub const STV_PROTECTED: u8 = 3;

// Section numbers with a meaning of their own (gABI, "Special Section Indexes").
/// The symbol is defined elsewhere.
pub const SHN_UNDEF: u16 = 0;
/// The first of the reserved numbers, which name no section.
pub const SHN_LORESERVE: u16 = 0xff00;
/// The value is absolute: relocation does not change it.
pub const SHN_ABS: u16 = 0xfff1;
/// The symbol is common data, not yet placed.
pub const SHN_COMMON: u16 = 0xfff2;
/// The number stands in a section of type `SHT_SYMTAB_SHNDX`.
pub const SHN_XINDEX: u16 = 0xffff;

/// The name of the run time's function that returns the address of a thread-local variable (Drepper, "ELF
/// Handling For Thread-Local Storage").
pub const GET_ADDRESS_NAME: &[u8] = b"__tls_get_addr";

/// Which objects see a symbol.
#[derive(Clone, Copy, PartialEq, Eq, Debug)]
pub enum SymbolBinding {
    /// Only its own object.
    Local,
    /// All objects. A name has one such definition.
    Global,
    /// All objects. A GLOBAL definition of the name takes precedence.
    Weak,
}

/// What a symbol names.
#[derive(Clone, Copy, PartialEq, Eq, Debug)]
pub enum SymbolType {
    NoType,
    Object,
    Func,
    Section,
    File,
    Tls,
}

/// Whether other images see a symbol.
#[derive(Clone, Copy, PartialEq, Eq, Debug)]
pub enum Visibility {
    Default,
    Internal,
    Hidden,
    Protected,
}

impl SymbolBinding {
    /// The number of the binding in the file.
    pub fn number(self) -> u8
        ensures value { result ≡ binding_number self }
        ensures small { result < 16 }
    {
        match self {
            SymbolBinding::Local => STB_LOCAL,
            SymbolBinding::Global => STB_GLOBAL,
            SymbolBinding::Weak => STB_WEAK,
        }
    }
}

impl SymbolType {
    /// The number of the type in the file.
    pub fn number(self) -> u8
        ensures value { result ≡ type_number self }
        ensures small { result < 16 }
    {
        match self {
            SymbolType::NoType => STT_NOTYPE,
            SymbolType::Object => STT_OBJECT,
            SymbolType::Func => STT_FUNC,
            SymbolType::Section => STT_SECTION,
            SymbolType::File => STT_FILE,
            SymbolType::Tls => STT_TLS,
        }
    }

    /// Whether each thread has a copy of what the symbol names.
    pub fn is_tls(self) -> bool
        ensures { result ≡ is_tls self }
    {
        matches!(self, SymbolType::Tls)
    }
}

impl Visibility {
    /// The number of the visibility in the file.
    pub fn number(self) -> u8
        ensures { result ≡ visibility_number self }
    {
        match self {
            Visibility::Default => STV_DEFAULT,
            Visibility::Internal => STV_INTERNAL,
            Visibility::Hidden => STV_HIDDEN,
            Visibility::Protected => STV_PROTECTED,
        }
    }

    /// Whether code of other images may name the symbol.
    pub fn is_visible(self) -> bool
        ensures { result ≡ is_visible self }
    {
        matches!(self, Visibility::Default | Visibility::Protected)
    }
}

/// The binding with this number in the file.
pub fn binding_numbered(number: u8) -> SymbolBinding
    ensures { result ≡ binding_numbered number }
{
    match number {
        STB_LOCAL => SymbolBinding::Local,
        STB_GLOBAL => SymbolBinding::Global,
        _ => SymbolBinding::Weak,
    }
}

/// The type with this number in the file.
pub fn type_numbered(number: u8) -> SymbolType
    ensures { result ≡ type_numbered number }
{
    match number {
        STT_NOTYPE => SymbolType::NoType,
        STT_OBJECT => SymbolType::Object,
        STT_FUNC => SymbolType::Func,
        STT_SECTION => SymbolType::Section,
        STT_FILE => SymbolType::File,
        _ => SymbolType::Tls,
    }
}

/// The visibility with this number in the file.
pub fn visibility_numbered(number: u8) -> Visibility
    ensures { result ≡ visibility_numbered number }
{
    match number {
        STV_DEFAULT => Visibility::Default,
        STV_INTERNAL => Visibility::Internal,
        STV_HIDDEN => Visibility::Hidden,
        _ => Visibility::Protected,
    }
}

/// An entry of a symbol table.
#[derive(Clone, Copy, PartialEq, Eq, Debug)]
pub struct SymbolEntry {
    /// Where the name begins in the symbol table's string table.
    pub name: u32,
    /// The binding times 16, plus the type.
    pub info: u8,
    /// The visibility, in the low two bits.
    pub other: u8,
    /// The section that the symbol is defined in, or a reserved number such as [`SHN_UNDEF`].
    pub shndx: u16,
    /// In an object, the offset in its section. In an image, the offset in the TLS segment for a TLS
    /// symbol, else an address.
    pub value: u64,
    /// How many bytes the symbol names, or 0.
    pub size: u64,
}

impl SymbolEntry {
    /// Bytes that an entry takes in a file.
    pub const SIZE: u64 = 24;

    /// The `info` of a symbol with this binding and this type.
    pub fn info_of(binding: u8, kind: u8) -> u8
        requires binding { binding < 16 }
        requires kind { kind < 16 }
        ensures { result ≡ 16 * binding + kind }
    {
        16 * binding + kind
    }

    /// The binding, as [`STB_GLOBAL`]; 0 to 15.
    #[inline]
    pub fn binding(self) -> u8
        ensures { result ≡ symbol_binding self }
    {
        self.info / 16
    }

    /// The type, as [`STT_TLS`]; 0 to 15.
    #[inline]
    pub fn kind(self) -> u8
        ensures { result ≡ symbol_kind self }
    {
        self.info % 16
    }

    /// The visibility, as [`STV_HIDDEN`]; 0 to 3.
    #[inline]
    pub fn visibility(self) -> u8
        ensures { result ≡ symbol_visibility self }
    {
        self.other % 4
    }
}

/// Reads the symbol table entry at offset `at`. `None` exactly where it would pass the end of `bytes`.
#[inline]
#[tactic(auto, unfolding(crate::specs::Records::symbol_at))]
pub fn read_symbol(bytes: &[u8], at: u64) -> Option<SymbolEntry>
    ensures { IsReadAt SymbolEntry.SIZE symbol_at bytes.now at result }
{
    if !fits(bytes, at, SymbolEntry::SIZE) {
        return None;
    }
    let at = at as usize;
    Some(SymbolEntry {
        name: u32_at(bytes, at),
        info: u8_at(bytes, at + 4),
        other: u8_at(bytes, at + 5),
        shndx: u16_at(bytes, at + 6),
        value: u64_at(bytes, at + 8),
        size: u64_at(bytes, at + 16),
    })
}

/// Symbol `number` of the table that begins at `table`.
#[inline]
pub fn symbol_numbered(bytes: &[u8], table: u64, number: u64) -> SymbolEntry
    requires { table + SymbolEntry.SIZE * number + SymbolEntry.SIZE ≤ length bytes.now }
    ensures { result ≡ symbol_at (table + SymbolEntry.SIZE * number) bytes.now }
{
    match read_symbol(bytes, table + SymbolEntry::SIZE * number) {
        Some(symbol) => symbol,
        None => unreachable!(),
    }
}

/// Writes the symbol table entry at offset `at`, over the bytes that stand there.
pub fn write_symbol(fields: &SymbolEntry, bytes: &mut [u8], at: u64)
    requires { at + SymbolEntry.SIZE ≤ length bytes.old }
    ensures bytes { bytes.new ≡ splice at (symbol_bytes fields.now) bytes.old }
    ensures again { symbol_at at bytes.new ≡ fields.now }
    ensures before { take at bytes.new ≡ take at bytes.old }
    ensures after { drop (at + SymbolEntry.SIZE) bytes.new ≡ drop (at + SymbolEntry.SIZE) bytes.old }
{
    let at = at as usize;
    put_u32(bytes, at, fields.name);
    put_u8(bytes, at + 4, fields.info);
    put_u8(bytes, at + 5, fields.other);
    put_u16(bytes, at + 6, fields.shndx);
    put_u64(bytes, at + 8, fields.value);
    put_u64(bytes, at + 16, fields.size);
}
