//! Objects made from words.
//!
//! A symbol is NAME=PLACE, LOCAL with a dot and WEAK with a tilde before its name, at vN in `.tdata`, zN in `.tbss`,
//! cN in code, or ?, nowhere. Bytes are v: of `.tdata`, aligned to 8 if it has any, c: of code and d: of data; sizes
//! are z: of `.tbss` and b:SIZE,COUNT of more sections of zeros. PIECE:NAME,ADDEND is code with a field for a symbol,
//! with ADDEND added to the field's own addend, and q:NAME,ADDEND,PLACE an address in data. Numbers are hexadecimal.
//!
//! The sections are `.tdata` (1), `.tbss` (2) and `.text` (3), then the relocations of code (4), if there are any, then
//! `.data` and its relocations, the sections of zeros, and the symbols.

use elf_records::relocation::R_X86_64_64;
use elf_records::section_header::{SHF_ALLOC, SHF_WRITE};
use elf_records::symbol::{STB_GLOBAL, STB_LOCAL, STB_WEAK, STT_FUNC, STT_NOTYPE, STT_TLS};
use elf_records::{Rela, SymbolEntry};
use object_builder::{Section, Symbol, object_of, rela};
use std::alloc::{AllocError, Global};
use std::test::Fail;

/// Pieces of code: the sequences of the psABI, and other instructions with a field. Each line has the bytes, and the
/// field's offset, type and addend; a second field belongs to a call of `__tls_get_addr`.
const PIECES: &str = "
gd 66488d3d00000000666648e800000000 4:13:-4 c:4:-4
gdi 66488d3d000000006648ff1500000000 4:13:-4 c:9:-4
ld 488d3d00000000e800000000 3:14:-4 8:4:-4
ldi 488d3d00000000ff1500000000 3:14:-4 9:29:-4
mov 488b0500000000 3:16:-4
add 48030500000000 3:16:-4
lea 488d0500000000 3:22:-4
tlscall ff10 0:23:0
le 64488b042500000000 5:17:0
off 488d8000000000 3:15:0
word 488b0500000000 3:9:-4
call e800000000 1:4:-4
narrow 48c7c000000000 3:b:0
wide 48b80000000000000000 2:1:0
";

/// The parts of an object, collected from its words.
#[derive(Drop)]
struct Parts<'a> {
    symbols: Vec<Symbol<'a>>,
    variables: Vec<u8>,
    zero_variables: u64,
    code: Vec<u8>,
    code_relocations: Vec<Rela>,
    data: Vec<u8>,
    data_relocations: Vec<Rela>,
    /// The sizes of sections of zeros.
    zeros: Vec<u64>,
}

/// A number; 0 if there are no digits.
fn number(digits: &str) -> u64 {
    u64::from_str_radix(digits, 16).unwrap_or(0)
}

/// A number that may have a sign.
fn signed(digits: &str) -> i64 {
    i64::from_str_radix(digits, 16).unwrap_or(0)
}

fn bytes_of(alloc: Global, digits: &str) -> Result<Vec<u8>, Fail> {
    Ok(hex::decode(alloc, digits).ok().ok_or("digits")?)
}

/// The symbol of a word.
fn symbol<'a>(word: &'a str, place: &str) -> Symbol<'a> {
    let (kind, section) = match place.chars().next() {
        Some('v') => (STT_TLS, 1),
        Some('z') => (STT_TLS, 2),
        Some('c') => (STT_FUNC, 3),
        _ => (STT_NOTYPE, 0),
    };
    let binding = match word.chars().next() {
        Some('.') => STB_LOCAL,
        Some('~') => STB_WEAK,
        _ => STB_GLOBAL,
    };
    let name = word.trim_start_matches(['.', '~']).as_bytes();
    let value = number(place.trim_start_matches(['v', 'z', 'c']));
    let mut symbol = Symbol::global(name, kind, section, value, 0);
    symbol.entry.info = SymbolEntry::info_of(binding, kind);
    symbol
}

impl<'a> Parts<'a> {
    /// The number of the symbol with a name; a name that no word declared gets an undefined symbol.
    fn symbol_number(&mut self, name: &'a str) -> Result<u32, AllocError> {
        let mut number = 1_u32;
        for symbol in &self.symbols {
            if symbol.name == name.as_bytes() {
                return Ok(number);
            }
            number = number.saturating_add(1);
        }
        self.symbols.push(symbol(name, "?"))?;
        Ok(number)
    }

    /// Adds the relocation for a field of a piece that starts here.
    fn add_field(&mut self, start: u64, field: &str, symbol: u32, more: i64) -> Result<(), Fail> {
        let (at, rest) = field.split_once(':').ok_or("a type")?;
        let (kind, addend) = rest.split_once(':').ok_or("an addend")?;
        let at = start.saturating_add(number(at));
        let kind = u32::from_str_radix(kind, 16).unwrap_or(0);
        let addend = signed(addend).saturating_add(more);
        self.code_relocations.push(rela(at, kind, symbol, addend))?;
        Ok(())
    }

    /// Adds a piece of code with a field for a symbol.
    fn add_piece(
        &mut self,
        alloc: Global,
        piece: &str,
        symbol: u32,
        more: i64,
    ) -> Result<(), Fail> {
        let start = self.code.len() as u64;
        let piece = format!(in alloc; "\n{piece} ")?;
        let (_, row) = PIECES.split_once(piece.as_str()).ok_or("a piece")?;
        let mut words = row.split_whitespace();
        let bytes = bytes_of(alloc, words.next().ok_or("bytes")?)?;
        self.code.extend_from_slice(bytes.as_slice())?;
        self.add_field(start, words.next().ok_or("a field")?, symbol, more)?;
        match words.next() {
            Some(call) if call.contains(':') => {
                let symbol = self.symbol_number("__tls_get_addr")?;
                self.add_field(start, call, symbol, 0)
            }
            _ => Ok(()),
        }
    }

    /// Adds what a word of two parts declares.
    fn add(&mut self, alloc: Global, sort: &str, rest: &'a str) -> Result<(), Fail> {
        let (name, more) = rest.split_once(',').unwrap_or((rest, ""));
        let (addend, place) = more.split_once(',').unwrap_or((more, ""));
        match sort {
            "v" => self.variables.extend_from_slice(&bytes_of(alloc, rest)?)?,
            "c" => self.code.extend_from_slice(&bytes_of(alloc, rest)?)?,
            "d" => self.data.extend_from_slice(&bytes_of(alloc, rest)?)?,
            "z" => self.zero_variables = number(rest),
            "b" => {
                for _ in 0..number(more) {
                    self.zeros.push(number(name))?;
                }
            }
            _ => {
                let symbol = self.symbol_number(name)?;
                if sort != "q" {
                    return self.add_piece(alloc, sort, symbol, signed(more));
                }
                let field = rela(number(place), R_X86_64_64, symbol, signed(addend));
                self.data_relocations.push(field)?;
            }
        }
        Ok(())
    }

    /// The bytes of the object.
    fn bytes(&self, alloc: Global) -> Result<Vec<u8>, AllocError> {
        let mut variables = Section::variables(&self.variables);
        variables.alignment = if self.variables.is_empty() { 1 } else { 8 };
        let code = Section::code(&self.code).with(&self.code_relocations);
        let data = Section::data(&self.data).with(&self.data_relocations);
        let zeros = Section::zero_variables(self.zero_variables);
        let mut sections = vec![in alloc; variables, zeros, code, data]?;
        for size in &self.zeros {
            sections.push(Section::zeros(b".bss", SHF_ALLOC | SHF_WRITE, *size))?;
        }
        object_of(alloc, sections.as_slice(), self.symbols.as_slice())
    }
}

/// The bytes of the object made from these words.
pub(crate) fn object(alloc: Global, words: &str) -> Result<Vec<u8>, Fail> {
    let mut parts = Parts {
        symbols: Vec::new(alloc),
        variables: Vec::new(alloc),
        zero_variables: 0,
        code: Vec::new(alloc),
        code_relocations: Vec::new(alloc),
        data: Vec::new(alloc),
        data_relocations: Vec::new(alloc),
        zeros: Vec::new(alloc),
    };
    for word in words.split_whitespace() {
        if let Some((name, place)) = word.split_once('=') {
            parts.symbols.push(symbol(name, place))?;
        } else {
            let (sort, rest) = word.split_once(':').ok_or("a colon")?;
            parts.add(alloc, sort, rest)?;
        }
    }
    Ok(parts.bytes(alloc)?)
}
