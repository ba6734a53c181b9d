//! A name that a store gave out, and what came of its file.
ghost use Rattle.std.specs.Prelude.{◌≡◌, IfOk, None, Some};
ghost use Rattle.std.specs.List.{AllZip};
ghost use Rattle.ports.specs.Claims.{IsFor};

use crate::FetchFault;
use std::alloc::{AllocError, Global};
use std::marker::PhantomData;

/// A name that a store gave out, with the result of reading its file once it was read.
///
/// Only who has a value of the brand `B` makes a claim or fills it, and each store keeps that value to itself. There is
/// no second claim of one call, and nobody but a store's [`settle`](crate::Store::settle) learns what came of it.
#[derive(Drop)]
pub struct Claim<'n, B> {
    name: &'n str,
    came: Option<Result<Vec<u8>, FetchFault>>,
    of: PhantomData<B>,
}

impl<'n, B> Claim<'n, B> {
    /// A claim that was not read.
    pub(crate) fn new(_brand: &B, name: &'n str) -> Self
        ensures name { result.name.now ≡ name.now }
        ensures came { result.came ≡ None }
    {
        Claim {
            name,
            came: None,
            of: PhantomData,
        }
    }

    /// The name that was given out.
    pub(crate) fn name(&self) -> &'n str
        ensures { result.now ≡ self.now.name.now }
    {
        self.name
    }

    /// Keeps the result of reading the file.
    pub(crate) fn fill(&mut self, _brand: &B, came: Result<Vec<u8>, FetchFault>)
        ensures name { self.new.name.now ≡ self.old.name.now }
        ensures came { self.new.came ≡ Some came }
    {
        self.came = Some(came);
    }

    /// Takes the result out.
    pub(crate) fn came(self) -> Option<Result<Vec<u8>, FetchFault>>
        ensures { result ≡ self.entry.came }
    {
        self.came
    }
}

/// A claim to each of these names, in their order.
pub(crate) fn claims_to<'n, B>(
    alloc: Global,
    brand: &B,
    names: &[&'n str],
) -> Result<Vec<Claim<'n, B>>, AllocError>
    ensures { IfOk result (λ claims. AllZip IsFor names.now claims.items) }
{
    let mut claims = Vec::new(alloc);
    for name in names {
        claims.push(Claim::new(brand, *name))?;
    }
    Ok(claims)
}
