//! The objects of an image.

ghost use Rattle.std.specs.Prelude.{◌≡◌, [], ◌∷◌, ◌++◌, IfErr, IfOk, OnOk, map};
ghost use Rattle.sequence_match.specs.Faults.{AreSites};
ghost use Rattle.job_link.specs.Given.{IsFileFault, IsGivenImage, IsSoundObject, IsTaken};

use crate::writable::WritableSections;
use elf_object::{Object, ObjectFault};
use link_faults::ImageKind;
use sequence_match::{Site, sites};
use std::alloc::{AllocError, Global};
use std::marker::Model;

/// An object that was read, with its sequences.
#[derive(Drop)]
pub(crate) struct ReadObject<'a> {
    object: Object<'a>,
    sites: Vec<Site>,
}

impl<'a> ReadObject<'a> {
    /// Reads the object of these bytes, or returns its first fault: first the faults of the object, then a refused
    /// section, and the faults of its sequences last.
    pub(crate) fn read(
        alloc: Global,
        bytes: &'a [u8],
        writable: WritableSections,
    ) -> Result<ReadObject<'a>, ObjectFault>
        ensures object { IfOk result (λ read. read.object ≡ bytes.now) }
        ensures sites { IfOk result (λ read. AreSites bytes.now read.sites.items) }
        ensures taken { OnOk result (IsTaken writable bytes.now) }
        ensures fault { IfErr result (IsFileFault writable bytes.now) }
    {
        let object = match Object::read(alloc, bytes) {
            Ok(object) => object,
            Err(fault) => return Err(fault),
        };
        match writable.fault(&object) {
            Some(fault) => return Err(fault),
            None => {}
        }
        match sites(alloc, &object) {
            Ok(sites) => Ok(ReadObject { object, sites }),
            Err(fault) => Err(fault),
        }
    }
}

/// The objects of an image of a job, each with its sequences.
#[derive(Drop)]
pub struct ImageObjects<'a> {
    kind: ImageKind,
    objects: Vec<Object<'a>>,
    sites: Vec<Vec<Site>>,
}

impl<'a> Model for ImageObjects<'a> {
    ghost use Rattle.std.specs.Prelude.{map};
    ghost use Rattle.job_link.specs.Given.{Given, IsGivenImage};

    ghost Value = { Given };

    ghost view = { λ image. record {
      kind = image.kind;
      objects = image.objects.items;
      sites = map (λ own. own.items) image.sites.items;
    } };

    ghost invariant = { λ image. IsGivenImage (record {
      kind = image.kind;
      objects = image.objects.items;
      sites = map (λ own. own.items) image.sites.items;
    }) };
}

impl<'a> ImageObjects<'a> {
    /// No objects yet.
    pub(crate) fn new(alloc: Global, kind: ImageKind) -> Self
        ensures value { result ≡ record { kind = kind; objects = []; sites = [] } }
        ensures given { IsGivenImage result }
    {
        ImageObjects {
            kind,
            objects: Vec::new(alloc),
            sites: Vec::new(alloc),
        }
    }

    /// The kind of image to link.
    pub fn kind(&self) -> ImageKind
        ensures kind { result ≡ self.now.kind }
        ensures given { IsGivenImage self.now }
    {
        self.kind
    }

    /// Its objects, in the order of the job.
    pub fn objects(&self) -> &[Object<'a>]
        ensures objects { result.now ≡ self.now.objects }
        ensures given { IsGivenImage self.now }
    {
        self.objects.as_slice()
    }

    /// The sequences of each object.
    pub fn sites(&self) -> &[Vec<Site>]
        ensures sites { map (λ own. own.items) result.now ≡ self.now.sites }
        ensures given { IsGivenImage self.now }
    {
        self.sites.as_slice()
    }

    /// Adds an object with its sequences.
    pub(crate) fn push(&mut self, read: ReadObject<'a>) -> Result<(), AllocError>
        requires sound { IsSoundObject read.object }
        requires sites { AreSites read.object read.sites.items }
        ensures kind { self.new.kind ≡ self.old.kind }
        ensures objects { OnOk result (self.new.objects ≡ self.old.objects ++ read.entry.object ∷ []) }
        ensures given { IsGivenImage self.new }
    {
        self.objects.reserve(1)?;
        self.sites.reserve(1)?;
        self.objects.push(read.object).unwrap();
        self.sites.push(read.sites).unwrap();
        Ok(())
    }
}
