//! The variable that a sequence names.

ghost use Rattle.std.specs.Prelude.{◌≡◌, ◌<◌, ◌≤◌, length};
ghost use Rattle.std.specs.List.{All};
ghost use Rattle.elf_object.specs.Parts.{symbol_count};
ghost use Rattle.meant_images.specs.Targets.{HasFewObjects, HasNumber, IsBound, IsNumbered, IsShared, IsTarget};
ghost use Rattle.meant_images.specs.Targets.{variable_seen};
ghost use Rattle.tls_symbols.specs.Bindings.{object_at};
ghost use Rattle.whole_meaning.specs.Code.{definition_number};

use job_text::at_number;
use link_faults::{Binding, SymbolRef};
use link_needs::Inputs;
use sequence_match::{Form, Site};
use std::marker::Model;

/// More than the greatest number of an object, and of a symbol, in the number of a definition.
const OBJECTS: u64 = 1 << 32;

const SYMBOLS: u64 = 1 << 24;

/// A variable, as a sequence in an instance names it.
#[derive(Drop)]
pub struct Variable {
    /// The number of the instance whose blocks contain it.
    pub target: u64,
    /// Its offset in a block.
    pub offset: u64,
    /// The number of its definition.
    pub symbol: u64,
}

impl Model for Variable {
    ghost use Rattle.whole_meaning.specs.Code.{Variable as MeantVariable};

    ghost Value = { MeantVariable };

    ghost view = { λ v. record { target = v.target; offset = v.offset; symbol = v.symbol } };
}

/// The variable that a sequence names, as far as it is known before there is an instance.
#[derive(Clone, Copy)]
pub enum Target {
    /// The symbol is bound to no variable.
    Unknown,
    /// The block of the instance that contains the code.
    OwnBlock,
    /// A variable of the image that contains the code: its definition and its offset.
    Own(SymbolRef, u64),
    /// A variable of a startup image, whose number its instance has too: its definition and its offset.
    Shared(u32, SymbolRef, u64),
}

/// The number of a definition: no other definition of the job has it.
fn definition_number(image: u32, found: SymbolRef) -> u64
    requires image { image ≤ 64 }
    requires small { HasNumber found }
    ensures { result ≡ definition_number image found }
{
    (u64::from(image) * OBJECTS + found.object) * SYMBOLS + u64::from(found.symbol)
}

impl Target {
    /// The variable that the code of an instance of an image names.
    pub fn variable(self, image: u32, number: u32) -> Variable
        requires image { image ≤ 64 }
        requires numbered { IsNumbered self }
        ensures { result ≡ variable_seen image number self }
    {
        match self {
            Target::Unknown => Variable {
                target: 0,
                offset: 0,
                symbol: 0,
            },
            Target::OwnBlock => Variable {
                target: u64::from(number),
                offset: 0,
                symbol: 0,
            },
            Target::Own(found, offset) => Variable {
                target: u64::from(number),
                offset,
                symbol: definition_number(image, found),
            },
            Target::Shared(shared, found, offset) => Variable {
                target: u64::from(shared),
                offset,
                symbol: definition_number(shared, found),
            },
        }
    }
}

/// The variable that a startup image exports under a name.
fn shared_target(images: &[Inputs], image: u32, name: &[u8]) -> Target
    requires few { length images.now ≤ 64 }
    requires small { All HasFewObjects images.now }
    ensures target { IsShared images.now image name.now result }
    ensures numbered { IsNumbered result }
{
    let Some(shared) = at_number(images, image) else {
        return Target::Unknown;
    };
    match shared.bindings.definition(name) {
        Some(found) => Target::Shared(image, found, shared.offset(found)),
        None => Target::Unknown,
    }
}

/// The variable that a sequence's symbol is bound to.
fn bound_target(images: &[Inputs], inputs: &Inputs, number: usize, site: &Site) -> Target
    requires few { length images.now ≤ 64 }
    requires small { All HasFewObjects images.now }
    requires own { HasFewObjects inputs.now }
    requires object { number < length inputs.now.objects }
    requires symbol { site.now.symbol < symbol_count (object_at inputs.now.objects number) }
    ensures target { IsBound images.now inputs.now number site.now result }
    ensures numbered { IsNumbered result }
{
    inputs.is_given();
    match inputs.bound(number, site.symbol, site.form.row().first) {
        Some(Binding::Here(found)) => Target::Own(found, inputs.offset(found)),
        Some(Binding::Startup(image)) => {
            let name = inputs.object(number).symbol_name(site.symbol);
            shared_target(images, image, name)
        }
        _ => Target::Unknown,
    }
}

/// The variable that a sequence of an object names.
pub fn target_of(images: &[Inputs], inputs: &Inputs, number: usize, site: &Site) -> Target
    requires few { length images.now ≤ 64 }
    requires small { All HasFewObjects images.now }
    requires own { HasFewObjects inputs.now }
    requires object { number < length inputs.now.objects }
    requires symbol { site.now.symbol < symbol_count (object_at inputs.now.objects number) }
    ensures target { IsTarget images.now inputs.now number site.now result }
    ensures numbered { IsNumbered result }
{
    match site.form {
        Form::Ld | Form::LdInd => Target::OwnBlock,
        _ => bound_target(images, inputs, number, site),
    }
}
