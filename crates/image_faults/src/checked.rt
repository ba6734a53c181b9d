//! All rules, checked in their order.

ghost use Rattle.std.specs.Prelude.{◌≡◌, ◌+◌, ◌*◌, ◌<◌, ◌≤◌, ◌↔◌, IsTrue, IfOk, IfErr, length};
ghost use Rattle.image_rules.specs.declared.rule.Rule.TheVariants.{Table};
ghost use Rattle.image_rules.specs.Rules.{number};
ghost use Rattle.image_faults.specs.Faults.{Breaks, KeepsBelow, Answers, IsImage, IsFault, IsFirstAt, offset_of};
ghost use Rattle.image_faults.specs.Tables.{table_count as count_of_table};

use crate::found::fault_at;
use crate::headers::headers_of;
use crate::relocation_tests::{is_own_outside, is_right_relocation};
use crate::segments::segments_of;
use crate::symbol_tests::{is_past_tls, is_right_symbol};
use crate::tables::{Tables, tables_of};
use elf_records::SymbolEntry;
use image_rules::{ImageFault, Rule, TableRule};

/// How many entries a table has.
fn table_count(rule: TableRule, tables: &Tables) -> u64
    ensures { result ≡ count_of_table rule tables.now.bytes.now }
{
    match rule {
        TableRule::Symbol | TableRule::TlsSymbol => tables.places.symbol_count,
        TableRule::Relocation | TableRule::TlsRelocation => tables.places.relocation_count,
    }
}

/// Where an entry of a table stands in the file. A symbol and a relocation have the same size.
fn entry_offset(rule: TableRule, tables: &Tables, entry: u64) -> u64
    requires { entry < count_of_table rule tables.now.bytes.now }
    ensures { result ≡ offset_of (Table rule) tables.now.bytes.now entry }
{
    let place = match rule {
        TableRule::Symbol | TableRule::TlsSymbol => tables.places.symbols,
        TableRule::Relocation | TableRule::TlsRelocation => tables.places.relocations,
    };
    place + SymbolEntry::SIZE * entry
}

/// Whether an entry breaks the rule of its table.
#[tactic(auto, unfolding(crate::specs::Faults::Breaks))]
fn breaks(rule: TableRule, tables: &Tables, entry: u64) -> bool
    requires { entry < count_of_table rule tables.now.bytes.now }
    ensures { IsTrue result ↔ Breaks (Table rule) tables.now.bytes.now entry }
{
    match rule {
        TableRule::Symbol => !is_right_symbol(tables, entry),
        TableRule::Relocation => !is_right_relocation(tables, entry),
        TableRule::TlsSymbol => is_past_tls(tables, entry),
        TableRule::TlsRelocation => is_own_outside(tables, entry),
    }
}

/// Checks the entries of a table.
fn ask_table(rule: TableRule, tables: &Tables) -> Result<(), ImageFault>
    requires { KeepsBelow (number (Table rule)) tables.now.bytes.now }
    ensures { Answers (number (Table rule)) tables.now.bytes.now result }
{
    for entry in 0..table_count(rule, tables) {
        if breaks(rule, tables, entry) {
            let offset = entry_offset(rule, tables, entry);
            return Err(fault_at(Rule::Table(rule), tables.bytes, entry, offset));
        }
    }
    Ok(())
}

/// Checks all rules. Returns the fault of the first broken one, or where the tables of the image lie.
#[tactic(auto, using(crate::proofs::Order::image_of))]
pub fn fault_free(bytes: &[u8]) -> Result<Tables<'_>, ImageFault>
    ensures tables { IfOk result (λ tables. tables.bytes.now ≡ bytes.now) }
    ensures image { IfOk result (λ _. IsImage bytes.now) }
    ensures fault { IfErr result (IsFault bytes.now) }
{
    let headers = headers_of(bytes)?;
    let segments = segments_of(headers)?;
    let tables = tables_of(segments)?;
    ask_table(TableRule::Symbol, &tables)?;
    ask_table(TableRule::Relocation, &tables)?;
    ask_table(TableRule::TlsSymbol, &tables)?;
    ask_table(TableRule::TlsRelocation, &tables)?;
    Ok(tables)
}
