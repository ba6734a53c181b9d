//! What each symbol of a relocation is bound to, found once for each symbol.

ghost use Rattle.std.specs.Prelude.{◌≡◌, ◌<◌, IfOk, IfSome, length, map};
ghost use Rattle.elf_object.specs.Parts.{symbol_count};
ghost use Rattle.tls_symbols.specs.Bindings.{IsBindingWithin, object_at};
ghost use Rattle.link_needs.specs.Plans.{all_values, value_by, value_of, values_of};

use crate::inputs::Inputs;
use link_faults::Binding;
use std::alloc::{AllocError, Global};
use tls_symbols::Imports;

/// What a symbol of a relocation is bound to.
#[derive(Clone, Copy)]
pub enum SymbolValue {
    /// A symbol of the image: its address, and its offset in the TLS segment.
    Here { address: u64, offset: u64 },
    /// The function of the run time.
    Runtime,
    /// A symbol of another image, or one that is bound to nothing.
    Elsewhere,
}

impl<'l, 's, 'a> Inputs<'l, 's, 'a> {
    /// The value of a binding.
    fn value_by(&self, bound: Option<Binding>) -> SymbolValue
        requires { IfSome bound (IsBindingWithin self.now.objects) }
        ensures { result ≡ value_by self.now bound }
    {
        match bound {
            Some(Binding::Here(found)) => SymbolValue::Here {
                address: self.address(found),
                offset: self.offset(found),
            },
            Some(Binding::Runtime) => SymbolValue::Runtime,
            Some(Binding::Startup(_)) | None => SymbolValue::Elsewhere,
        }
    }

    /// What a symbol of an object is bound to, where it may not be another image's.
    #[tactic(auto, unfolding(crate::specs::Plans::value_of))]
    fn value_of(&self, object: usize, symbol: u32) -> SymbolValue
        requires object { object < length self.now.objects }
        requires symbol { symbol < symbol_count (object_at self.now.objects object) }
        ensures { result ≡ value_of self.now object symbol }
    {
        self.value_by(self.bindings.binding(object, symbol, Imports::No))
    }

    /// What each symbol of an object is bound to.
    fn own_values(&self, alloc: Global, object: usize) -> Result<Vec<SymbolValue>, AllocError>
        requires { object < length self.now.objects }
        ensures { IfOk result (λ own. own.items ≡ values_of self.now object) }
    {
        let count = self.object(object).symbol_count();
        let mut own = Vec::with_capacity(alloc, count as usize)?;
        for symbol in 0..count {
            own.push(self.value_of(object, symbol))?;
        }
        Ok(own)
    }

    /// What each symbol of each object is bound to.
    pub(crate) fn symbol_values(&self, alloc: Global) -> Result<Vec<Vec<SymbolValue>>, AllocError>
        ensures { IfOk result (λ all. map (λ own. own.items) all.items ≡ all_values self.now) }
    {
        let mut all = Vec::with_capacity(alloc, self.objects.len())?;
        for object in 0..self.objects.len() {
            all.push(self.own_values(alloc, object)?)?;
        }
        Ok(all)
    }
}
