//! The page of headers that an image's file begins with (gABI, "ELF Header", "Program Header").

ghost use Rattle.std.specs.Prelude.{◌≡◌, ◌+◌, ◌*◌, ◌^◌, ◌<◌, ◌≤◌, length, option_to_list};
ghost use Rattle.std.specs.List.{flat_map};
ghost use Rattle.elf_records.specs.Fields.{splice};
ghost use Rattle.elf_records.specs.Records.{segment_bytes};
ghost use Rattle.image_writer.specs.Headers.{IsNear, loads_bytes};
ghost use Rattle.image_writer.specs.Loadable.{IsLoadable, HoldsTls};
ghost use Rattle.image_writer.specs.Outlined.{outlined, part, last_part};
ghost use Rattle.image_writer.specs.Page.{base_of, flags_of, header_of, type_of, file_offset, load_header, dynamic_header};
ghost use Rattle.image_writer.specs.Page.{tls_headers, relro_header, relro_headers, program_headers, page};

use crate::outline::{Outline, PartPlace};
use crate::put::put_zeros;
use elf_records::alignment::PAGE;
use elf_records::file_header::{ELF_IDENT, EM_X86_64, ET_DYN, ET_EXEC, EV_CURRENT};
use elf_records::program_header::{PF_R, PF_W, PF_X, PT_DYNAMIC, PT_GNU_RELRO, PT_LOAD, PT_TLS};
use elf_records::{Header, Segment, write_header, write_segment};
use image_file::{FileKind, PartClass};

/// The address at which a program at fixed addresses begins.
const EXE_BASE: u64 = 0x40_0000;

const HEADER_SIZE: usize = Header::SIZE as usize;

const SEGMENT_SIZE: usize = Segment::SIZE as usize;

/// The address at which an image begins.
pub fn base_of(kind: FileKind) -> u64
    ensures { result ≡ base_of kind }
{
    match kind {
        FileKind::Exe => EXE_BASE,
        FileKind::Pie | FileKind::Module => 0,
    }
}

/// The offset in an image's file of an address, after the page of headers.
pub fn file_offset(kind: FileKind, address: u64) -> u64
    requires above { base_of kind ≤ address + 4096 }
    requires below { address + 4096 < 2 ^ 64 }
    ensures { result ≡ file_offset kind address }
{
    address + PAGE - base_of(kind)
}

/// What may be done with a part, as the flags of a program header.
fn flags_of(class: PartClass) -> u32
    ensures { result ≡ flags_of class }
{
    match class {
        PartClass::Executable => PF_X,
        PartClass::ReadOnly => PF_R,
        PartClass::Writable => PF_R + PF_W,
    }
}

/// The type of the file.
fn type_of(kind: FileKind) -> u16
    ensures { result ≡ type_of kind }
{
    match kind {
        FileKind::Exe => ET_EXEC,
        FileKind::Pie | FileKind::Module => ET_DYN,
    }
}

/// The header of a file with `count` program headers.
#[tactic(auto, unfolding(crate::specs::Page::header_of))]
fn header_of(kind: FileKind, count: u16) -> Header
    ensures { result ≡ header_of kind count }
{
    let mut ident = [0; 16];
    ident[..7].copy_from_slice(&ELF_IDENT);
    Header {
        ident,
        e_type: type_of(kind),
        e_machine: EM_X86_64,
        e_version: EV_CURRENT,
        e_entry: 0,
        e_phoff: Header::SIZE,
        e_shoff: 0,
        e_flags: 0,
        e_ehsize: Header::SIZE as u16,
        e_phentsize: Segment::SIZE as u16,
        e_phnum: count,
        e_shentsize: 0,
        e_shnum: 0,
        e_shstrndx: 0,
    }
}

/// The LOAD of a part.
#[tactic(auto, unfolding(crate::specs::Page::load_header))]
fn load_header(kind: FileKind, part: &PartPlace) -> Segment
    requires { IsNear kind part.now.address }
    ensures { result ≡ load_header kind part.now }
{
    Segment {
        kind: PT_LOAD,
        flags: flags_of(part.class),
        offset: file_offset(kind, part.address),
        vaddr: part.address,
        paddr: part.address,
        filesz: part.size,
        memsz: part.size,
        align: PAGE,
    }
}

/// The program header of the dynamic array, at the start of the last part.
#[tactic(auto, unfolding(crate::specs::Page::dynamic_header))]
fn dynamic_header(outline: &Outline<'_>) -> Segment
    requires some { 0 < length outline.now.parts.now }
    requires near { IsNear outline.now.kind (last_part (outlined outline.now)).address }
    ensures { result ≡ dynamic_header (outlined outline.now) }
{
    let address = outline.parts[outline.parts.len() - 1].address;
    Segment {
        kind: PT_DYNAMIC,
        flags: PF_R,
        offset: file_offset(outline.kind, address),
        vaddr: address,
        paddr: address,
        filesz: outline.array_size,
        memsz: outline.array_size,
        align: 8,
    }
}

/// The program header of the TLS segment, if there is one.
#[tactic(auto, unfolding(crate::specs::Page::tls_header))]
fn tls_header(outline: &Outline<'_>) -> Option<Segment>
    requires loadable { IsLoadable (outlined outline.now) }
    requires tls { HoldsTls (outlined outline.now) }
    ensures { option_to_list result ≡ tls_headers outline.now.kind outline.now.tls }
{
    let tls = outline.tls?;
    Some(Segment {
        kind: PT_TLS,
        flags: PF_R,
        offset: file_offset(outline.kind, tls.address),
        vaddr: tls.address,
        paddr: tls.address,
        filesz: tls.initial,
        memsz: tls.size,
        align: tls.alignment,
    })
}

/// The program header of the part that only the loader writes.
#[tactic(auto, unfolding(crate::specs::Page::relro_header))]
fn relro_header(kind: FileKind, part: &PartPlace) -> Segment
    requires { IsNear kind part.now.address }
    ensures { result ≡ relro_header kind part.now }
{
    Segment {
        kind: PT_GNU_RELRO,
        flags: PF_R,
        offset: file_offset(kind, part.address),
        vaddr: part.address,
        paddr: part.address,
        filesz: part.size,
        memsz: part.size,
        align: 1,
    }
}

/// The program header of the part that only the loader writes, if there is one.
fn got_header(outline: &Outline<'_>) -> Option<Segment>
    requires loadable { IsLoadable (outlined outline.now) }
    ensures { option_to_list result ≡ relro_headers (outlined outline.now) outline.now.got }
{
    let got = outline.got?;
    Some(relro_header(outline.kind, &outline.parts[got as usize]))
}

/// Puts a LOAD for each part.
fn put_loads(outline: &Outline<'_>, out: &mut [u8], at: usize)
    requires loadable { IsLoadable (outlined outline.now) }
    requires room { at + 56 * length outline.now.parts.now ≤ length out.old }
    ensures { out.new ≡ splice at (loads_bytes (outlined outline.now)) out.old }
{
    for (number, part) in outline.parts.iter().enumerate() {
        let header = load_header(outline.kind, part);
        write_segment(&header, out, (at + SEGMENT_SIZE * number) as u64);
    }
}

/// Puts a program header, if there is one.
fn put_if(header: Option<Segment>, out: &mut [u8], at: usize)
    requires { at + 56 * length (option_to_list header) ≤ length out.old }
    ensures { out.new ≡ splice at (flat_map segment_bytes (option_to_list header)) out.old }
{
    if let Some(header) = header {
        write_segment(&header, out, at as u64);
    }
}

/// Puts the program headers.
fn put_headers(outline: &Outline<'_>, out: &mut [u8], at: usize)
    requires loadable { IsLoadable (outlined outline.now) }
    requires tls { HoldsTls (outlined outline.now) }
    requires room { at + 56 * length (program_headers (outlined outline.now)) ≤ length out.old }
    ensures { out.new ≡ splice at (flat_map segment_bytes (program_headers (outlined outline.now))) out.old }
{
    put_loads(outline, out, at);
    let next = at + SEGMENT_SIZE * outline.parts.len();
    write_segment(&dynamic_header(outline), out, next as u64);
    let next = next + SEGMENT_SIZE;
    put_if(tls_header(outline), out, next);
    let next = next + SEGMENT_SIZE * usize::from(outline.tls.is_some());
    put_if(got_header(outline), out, next);
}

/// How many program headers there are.
fn header_count(outline: &Outline<'_>) -> usize
    requires { IsLoadable (outlined outline.now) }
    ensures count { result ≡ length (program_headers (outlined outline.now)) }
    ensures few { result ≤ 10 }
{
    outline.parts.len()
        + 1
        + usize::from(outline.tls.is_some())
        + usize::from(outline.got.is_some())
}

/// Puts the page of headers.
pub fn put_page(outline: &Outline<'_>, out: &mut [u8], at: usize)
    requires loadable { IsLoadable (outlined outline.now) }
    requires tls { HoldsTls (outlined outline.now) }
    requires room { at + PAGE ≤ length out.old }
    ensures { out.new ≡ splice at (page (outlined outline.now)) out.old }
{
    let count = header_count(outline);
    write_header(&header_of(outline.kind, count as u16), out, at as u64);
    put_headers(outline, out, at + HEADER_SIZE);
    let told = HEADER_SIZE + SEGMENT_SIZE * count;
    put_zeros(out, at + told, PAGE as usize - told);
}
