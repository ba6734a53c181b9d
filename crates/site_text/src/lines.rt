//! The lines of sites.

ghost use Rattle.std.specs.Prelude.{◌≡◌, ◌<◌, ◌++◌, IfOk, OnOk, OnErr, codes, length, string_bytes};
ghost use Rattle.std.specs.Fmt.{decimal};
ghost use Rattle.std.specs.List.{All};
ghost use Rattle.elf_object.specs.Parts.{symbol_count};
ghost use Rattle.transcript_text.specs.Texts.{hex16};
ghost use Rattle.site_text.specs.Lines.{shown_name, site_line, site_lines};
ghost use Rattle.site_text.specs.Names.{choice_name as name_of_choice, form_name as name_of_form};

use crate::names::{choice_name, form_name};
use elf_object::Object;
use relax_sites::Choice;
use sequence_match::Site;
use std::alloc::{AllocError, Global};

/// A symbol's name as it is printed.
fn shown_name(name: &[u8]) -> &[u8]
    ensures { result.now ≡ shown_name name.now }
{
    if name.is_empty() { b"-" } else { name }
}

/// Where a site lies in its object.
fn place_of(alloc: Global, site: &Site) -> Result<String, AllocError>
    ensures { IfOk result (λ place. string_bytes place
        ≡ codes " " ++ decimal site.now.section ++ codes " " ++ hex16 site.now.start) }
{
    let section = site.section;
    let start = site.start;
    let place = format!(in alloc; " {section} {start:016x}")?;
    Ok(place)
}

/// The form of a site, and its choice.
fn choice_of(alloc: Global, site: &Site, choice: Choice) -> Result<String, AllocError>
    ensures { IfOk result (λ words. string_bytes words
        ≡ codes " " ++ name_of_form site.now.form ++ codes " " ++ name_of_choice choice ++ codes " ") }
{
    let form = form_name(site.form);
    let chosen = choice_name(choice);
    format!(in alloc; " {form} {chosen} ")
}

/// The line of a site.
#[tactic(auto, unfolding(crate::specs::Lines::site_line))]
fn line_of(
    alloc: Global,
    name: &str,
    object: &Object,
    site: &Site,
    choice: Choice,
) -> Result<Vec<u8>, AllocError>
    requires { site.now.symbol < symbol_count object.now }
    ensures { IfOk result (λ line. line.items ≡ site_line name.now object.now site.now choice) }
{
    let place = place_of(alloc, site)?;
    let words = choice_of(alloc, site, choice)?;
    let mut line = Vec::new(alloc);
    line.extend_from_slice(name.as_bytes())?;
    line.extend_from_slice(place.as_bytes())?;
    line.extend_from_slice(words.as_bytes())?;
    line.extend_from_slice(shown_name(object.symbol_name(site.symbol)))?;
    line.extend_from_slice(b"\n")?;
    Ok(line)
}

/// Appends the line of a site: its object, its section, its offset there, its form, its choice, and its symbol. If
/// memory runs out, nothing is appended.
pub fn push_site(
    alloc: Global,
    name: &str,
    object: &Object,
    site: &Site,
    choice: Choice,
    text: &mut Vec<u8>,
) -> Result<(), AllocError>
    requires { site.now.symbol < symbol_count object.now }
    ensures ok { OnOk result (text.new.items ≡ text.old.items ++ site_line name.now object.now site.now choice) }
    ensures err { OnErr result (text.new.items ≡ text.old.items) }
{
    let line = line_of(alloc, name, object, site, choice)?;
    text.extend_from_slice(line.as_slice())
}

/// The lines of an object's sites.
fn lines_of(
    alloc: Global,
    name: &str,
    object: &Object,
    sites: &[Site],
    choices: &[Choice],
) -> Result<Vec<u8>, AllocError>
    requires symbols { All (λ site. site.symbol < symbol_count object.now) sites.now }
    ensures { IfOk result (λ lines. lines.items ≡ site_lines name.now object.now sites.now choices.now) }
{
    let mut lines = Vec::new(alloc);
    for (site, choice) in sites.iter().zip(choices) {
        push_site(alloc, name, object, site, *choice, &mut lines)?;
    }
    Ok(lines)
}

/// Appends the lines of an object's sites, each with its choice. If memory runs out, nothing is appended.
pub fn push_sites(
    alloc: Global,
    name: &str,
    object: &Object,
    sites: &[Site],
    choices: &[Choice],
    text: &mut Vec<u8>,
) -> Result<(), AllocError>
    requires each { length choices.now ≡ length sites.now }
    requires symbols { All (λ site. site.symbol < symbol_count object.now) sites.now }
    ensures ok { OnOk result (text.new.items ≡ text.old.items ++ site_lines name.now object.now sites.now choices.now) }
    ensures err { OnErr result (text.new.items ≡ text.old.items) }
{
    let lines = lines_of(alloc, name, object, sites, choices)?;
    text.extend_from_slice(lines.as_slice())
}
