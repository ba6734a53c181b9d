//! What a symbol of an image means to the threads that run it.

ghost use Rattle.std.specs.Prelude.{◌≡◌};
ghost use Rattle.std.specs.List.{list_any};
ghost use Rattle.image_names.specs.Functions.{is_code, runs_at};
ghost use Rattle.image_file.specs.Spelled.{lent_part};
ghost use Rattle.image_names.specs.Meanings.{defined_meaning, function_of, meaning_of, variable_of};

use crate::variable::Variable;
use image_file::{Image, ImagePart, ImageSymbol, PartClass};

/// What a symbol is.
#[derive(Clone, Copy, PartialEq, Eq, Debug)]
pub enum Meaning {
    /// A function that begins at this address, before the image is moved.
    Function(u64),
    /// A thread-local variable.
    Variable(Variable),
    /// Neither: it is not defined, or its value is not the address of an executable byte.
    Other,
}

impl Meaning {
    /// Where the function begins, if the symbol is one.
    pub fn function(self) -> Option<u64>
        ensures { result ≡ function_of self }
    {
        match self {
            Meaning::Function(address) => Some(address),
            Meaning::Variable(_) | Meaning::Other => None,
        }
    }

    /// The thread-local variable, if the symbol is one.
    pub fn variable(self) -> Option<Variable>
        ensures { result ≡ variable_of self }
    {
        match self {
            Meaning::Variable(variable) => Some(variable),
            Meaning::Function(_) | Meaning::Other => None,
        }
    }
}

/// What a symbol of the image means.
pub fn meaning_of(image: &Image, symbol: ImageSymbol) -> Meaning
    ensures { result ≡ meaning_of image.now.parts symbol }
{
    if symbol.is_defined {
        defined_meaning(image, symbol)
    } else {
        Meaning::Other
    }
}

/// What a defined symbol of the image means.
fn defined_meaning(image: &Image, symbol: ImageSymbol) -> Meaning
    ensures { result ≡ defined_meaning image.now.parts symbol }
{
    if symbol.kind.is_tls() {
        Meaning::Variable(Variable {
            offset: symbol.value,
        })
    } else if is_executed(image, symbol.value) {
        Meaning::Function(symbol.value)
    } else {
        Meaning::Other
    }
}

/// Whether a byte of an executable part has this address.
pub fn is_executed(image: &Image, address: u64) -> bool
    ensures { result ≡ list_any (runs_at address) image.now.parts }
{
    for number in 0..image.part_count() {
        if let Some(part) = image.part(number) {
            if runs_at(address, part) {
                return true;
            }
        }
    }
    false
}

/// Whether a byte of this part has this address, and the part is executable.
fn runs_at(address: u64, part: ImagePart) -> bool
    ensures { result ≡ runs_at address (lent_part part.entry) }
{
    is_code(part.class)
        && part.address <= address
        && address - part.address < part.bytes.len() as u64
}

fn is_code(class: PartClass) -> bool
    ensures { result ≡ is_code class }
{
    match class {
        PartClass::Executable => true,
        PartClass::ReadOnly | PartClass::Writable => false,
    }
}
