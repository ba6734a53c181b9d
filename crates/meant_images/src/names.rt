//! What is known of an image before it is loaded: its functions and variables by name, its blocks, and its room.

ghost use Rattle.std.specs.Prelude.{◌≡◌, ◌^◌, ◌<◌, ◌≤◌, IfSome};
ghost use Rattle.elf_object.specs.Lent.{section_class};
ghost use Rattle.link_needs.specs.Linking.{layout};
ghost use Rattle.module_table.specs.Modules.{IsInfo};
ghost use Rattle.tls_layout.specs.Sections.{is_class};
ghost use Rattle.tls_layout.specs.Places.{executable};
ghost use Rattle.tls_symbols.specs.Definitions.{IsWithin};
ghost use Rattle.whole_meaning.specs.Bytes.{below, function_at, function_of, variable_at, variable_of};
ghost use Rattle.whole_meaning.specs.Loads.{info_of, wants_surplus};
ghost use Rattle.whole_meaning.specs.Spots.{in_room};

use elf_object::{Object, SectionClass, SymbolPlace, is_tls_place};
use link_faults::SymbolRef;
use link_needs::Inputs;
use module_table::ImageInfo;

/// The size of an instance's address range.
const SPAN: u64 = 1 << 26;

/// An address, if it is below an end.
fn below(end: u64, at: u64) -> Option<u64>
    ensures value { result ≡ below end at }
    ensures low { IfSome result (λ at. at < end) }
{
    if at < end { Some(at) } else { None }
}

/// The class that linking keeps a section in, if it keeps it.
#[tactic(auto, using(elf_object::proofs::Sections::past_class))]
fn class_of(object: &Object, section: u32) -> Option<SectionClass>
    ensures { result ≡ section_class object.now section }
{
    match object.section(section) {
        Some(part) => part.class,
        None => None,
    }
}

/// Whether a section is a section of code.
pub(crate) fn is_code(object: &Object, section: u32) -> bool
    ensures { result ≡ is_class SectionClass.Executable (section_class object.now section) }
{
    matches!(class_of(object, section), Some(SectionClass::Executable))
}

/// The end of an image's code, before the image is moved.
fn code_end(inputs: &Inputs) -> u64
    ensures end { result ≡ (executable (layout inputs.now).kind (layout inputs.now).sections).end }
    ensures low { result ≤ 2 ^ 25 }
{
    inputs.placement.executable().end
}

/// The address of a symbol's function, before the image is moved.
fn function_at(inputs: &Inputs, found: SymbolRef) -> Option<u64>
    requires { IsWithin inputs.now.objects found }
    ensures value { result ≡ function_at inputs.now found }
    ensures low { IfSome result (λ at. at ≤ 2 ^ 25) }
{
    let object = inputs.object(found.object as usize);
    let part = object.symbol(found.symbol)?;
    match part.place {
        SymbolPlace::InSection(section) if is_code(object, section) => {
            below(code_end(inputs), inputs.address(found))
        }
        _ => None,
    }
}

/// The offset of a symbol's variable in a block.
fn variable_at(inputs: &Inputs, found: SymbolRef) -> Option<u64>
    requires { IsWithin inputs.now.objects found }
    ensures { result ≡ variable_at inputs.now found }
{
    let object = inputs.object(found.object as usize);
    let part = object.symbol(found.symbol)?;
    if is_tls_place(object, part.place) {
        return Some(inputs.offset(found));
    }
    None
}

/// The address of a function by its name, before the image is moved. `None` if the image does not define the name, or
/// what it defines is not in its code.
#[tactic(auto, unfolding(whole_meaning::specs::Bytes::function_of))]
pub fn function(inputs: &Inputs, name: &[u8]) -> Option<u64>
    ensures value { result ≡ function_of inputs.now name.now }
    ensures low { IfSome result (λ at. at ≤ 2 ^ 25) }
{
    let found = inputs.bindings.definition(name)?;
    function_at(inputs, found)
}

/// The offset of a variable in a block, by its name. `None` if the image does not define the name, or what it defines
/// is not thread-local.
#[tactic(auto, unfolding(whole_meaning::specs::Bytes::variable_of))]
pub fn variable(inputs: &Inputs, name: &[u8]) -> Option<u64>
    ensures { result ≡ variable_of inputs.now name.now }
{
    let found = inputs.bindings.definition(name)?;
    variable_at(inputs, found)
}

/// Whether the image is a module that needs its blocks below the thread pointer.
#[tactic(auto, unfolding(whole_meaning::specs::Loads::wants_surplus))]
fn wants_surplus(inputs: &Inputs) -> bool
    ensures { result ≡ wants_surplus inputs.now }
{
    inputs.kind.is_module() && inputs.has_initial()
}

/// When an image is loaded, and its TLS segment.
#[tactic(auto, unfolding(whole_meaning::specs::Loads::info_of))]
pub fn info(inputs: &Inputs) -> ImageInfo
    ensures value { result ≡ info_of inputs.now }
    ensures kept { IsInfo result }
{
    ImageInfo {
        late: inputs.kind.is_late(),
        statics: wants_surplus(inputs),
        size: inputs.placement.tls_size(),
        align: inputs.placement.tls_alignment(),
    }
}

/// Whether `place` is in the room of an instance that is moved by `bias`: from the end of all its sections to the end
/// of its address range.
#[tactic(auto, unfolding(whole_meaning::specs::Spots::in_room))]
pub fn is_in_room(inputs: &Inputs, bias: u64, place: u64) -> bool
    requires { bias ≤ 2 ^ 60 }
    ensures { result ≡ in_room inputs.now bias place }
{
    let begin = inputs.placement.room() + bias;
    let end = inputs.kind.base() + SPAN + bias;
    begin <= place && place < end
}
