//! Definitions with one word changed, and for each that a law is false of it: laws, and no code.
//!
//! The laws of `field_laws`, `binding_laws`, `layout_laws`, `line_laws`, `instruction_laws`, `cause_laws` and others
//! say once more what meaning and machine, or linker and loader, share. That such a law would notice a slip is a claim
//! of its own, and here it is proved, for one slip after another. For example a field of 32 bits with a sign:
//!
//! ```text
//! fits_signed (pos n) = nat_lt n (2 ^ 31)      the definition: n < 2^31
//! fits_above  (pos n) = nat_le n (2 ^ 31)      with `≤` for `<`
//! one_more_fits_above : FieldsAreStoredBy (stored_by .. fits_above ..) → ⊥
//! ```
//!
//! `FieldsAreStoredBy` is the statement of `field_laws::fields_are_stored` with any definition in place of
//! `stored_field`, and `stored_by` is `stored_field` with any parts in place of its own.
//!
//! The rule of the crate: **each refutation is of the law's whole statement, over the definition with that word
//! changed**; of `first_looks_are_ruled` it is of what that says of the machine's lines. Where a law fixes the one
//! answer, its proof is short: the law holds of the right definition, so were it true of the wrong one, both would say
//! the same, and at some arguments they do not. Such functions call the law, and take a statement here for the law's
//! own, so one that differed would not pass. The others go from one example; the statement of `fresh_blocks_are_filled`
//! is typed here again, and nothing ties it to the law. A copy is to be read beside its definition: that it is this one
//! where no word is changed is proved of `stored_by`, `address_of`, `number_by`, `product_by`, `shift_by`, `owner_by`.
//!
//! | file of `specs` | definitions of | laws |
//! |---|---|---|
//! | Fields | `elf_records`, `tls_relocs` | `fields_are_stored` |
//! | Names | `tls_symbols`, `elf_records` | `bindings_are_only` |
//! | Layout | `tls_layout` | those of `layout_laws` |
//! | Texts | `job_text`, `transcript_text` | `numbers_are_written`, those of `transcript_laws` |
//! | Instructions | `guest_arithmetic`, `amd64_subset` | those of `instruction_laws` |
//! | Histories | `module_table` | `opens_are_ruled`, `closes_are_ruled` |
//! | Lines | `thread_blocks` | `first_looks_are_ruled`, `machine_steps_are_counted` |
//! | Places | `address_map`, `loaded_modules` | `moved_addresses_tell`, `fresh_blocks_are_filled` |
//! | Causes | `guest_machine`, `whole_meaning` | `causes_are_answered` |
//!
//! `tests/edits/README.md` has each change in a line.
#![tactic(auto)]

pub mod laws;
