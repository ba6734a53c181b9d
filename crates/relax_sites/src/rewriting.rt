//! New bytes in a site's place.

ghost use Rattle.std.specs.Prelude.{◌≡◌, ◌+◌, ◌≤◌, length};
ghost use Rattle.elf_records.specs.Fields.{splice};
ghost use Rattle.relax_sites.specs.ChoiceLaws.{IsChoiceOf};
ghost use Rattle.relax_sites.specs.Rows.{form_length};
ghost use Rattle.relax_sites.specs.Rewriting.{rewritten};

use crate::choices::Choice;
use crate::rows::{add_bytes, mov_bytes};
use sequence_forms::{Form, Site};

/// Writes the bytes for the choice over the site in a section's bytes; a kept site stays. The field is left zero.
#[rattlefmt::skip]
#[tactic(auto, unfolding(sequence_forms::specs::Forms::row))]
pub fn rewrite(bytes: &mut [u8], site: &Site, choice: Choice)
    requires inside { site.now.start + site.now.len ≤ length bytes.old }
    requires whole { site.now.len ≡ form_length site.now.form }
    requires register { site.now.reg ≤ 15 }
    requires own { IsChoiceOf site.now.form choice }
    ensures { bytes.new ≡ rewritten site.now choice bytes.old }
{
    let at = site.start as usize;
    match (site.form, choice) {
        // lea x@tlsgd(%rip), %rdi; call __tls_get_addr    mov %fs:0, %rax; lea x@tpoff(%rax), %rax
        (Form::Gd | Form::GdInd, Choice::GdLe) =>
            put(bytes, at, &[0x64, 0x48, 0x8b, 0x04, 0x25, 0, 0, 0, 0, 0x48, 0x8d, 0x80, 0, 0, 0, 0]),
        // the same                                        mov %fs:0, %rax; add x@gottpoff(%rip), %rax
        (Form::Gd | Form::GdInd, Choice::GdIe) =>
            put(bytes, at, &[0x64, 0x48, 0x8b, 0x04, 0x25, 0, 0, 0, 0, 0x48, 0x03, 0x05, 0, 0, 0, 0]),
        // lea x@tlsld(%rip), %rdi; call __tls_get_addr    mov %fs:0, %rax
        (Form::Ld, Choice::LdLe) =>
            put(bytes, at, &[0x66, 0x66, 0x66, 0x64, 0x48, 0x8b, 0x04, 0x25, 0, 0, 0, 0]),
        (Form::LdInd, Choice::LdLe) =>
            put(bytes, at, &[0x66, 0x66, 0x66, 0x66, 0x64, 0x48, 0x8b, 0x04, 0x25, 0, 0, 0, 0]),
        // mov x@gottpoff(%rip), %r                        mov $x@tpoff, %r
        (Form::IeMov, Choice::IeLe) => put(bytes, at, &mov_bytes(site.reg)),
        // add x@gottpoff(%rip), %r                        lea x@tpoff(%r), %r or add $x@tpoff, %r
        (Form::IeAdd, Choice::IeLe) => put(bytes, at, &add_bytes(site.reg)),
        // lea x@tlsdesc(%rip), %rax                       mov $x@tpoff, %rax
        (Form::DescLea, Choice::DescLe) => put(bytes, at, &[0x48, 0xc7, 0xc0, 0, 0, 0, 0]),
        // the same                                        mov x@gottpoff(%rip), %rax
        (Form::DescLea, Choice::DescIe) => put(bytes, at, &[0x48, 0x8b, 0x05, 0, 0, 0, 0]),
        // call *x@tlscall(%rax)                           xchg %ax, %ax
        (Form::DescCall, Choice::DescLe | Choice::DescIe) => put(bytes, at, &[0x66, 0x90]),
        // the site is kept: its form has no other choice
        _ => {}
    }
}

/// Overwrites the bytes at an offset.
fn put(bytes: &mut [u8], at: usize, new: &[u8])
    requires { at + length new.now ≤ length bytes.old }
    ensures { bytes.new ≡ splice at new.now bytes.old }
{
    bytes[at..at + new.len()].copy_from_slice(new);
}
