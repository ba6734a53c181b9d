//! The kinds of image that a linker makes.

ghost use Rattle.std.specs.Prelude.{◌≡◌, ◌↔◌, IsTrue};
ghost use Rattle.link_faults.specs.ImageKinds.{IsModule, base_of, is_late, is_moved};

/// The kind of image to link.
#[derive(Clone, Copy, PartialEq, Eq, Debug)]
pub enum ImageKind {
    /// The program, at a fixed address.
    Exe,
    /// The program, loaded at any address.
    Pie,
    /// A module that is loaded with the program.
    Start,
    /// A module that a thread opens.
    Late,
}

/// The address of a program at a fixed address, as linkers for x86-64 choose it by default.
pub const EXE_BASE: u64 = 0x40_0000;

impl ImageKind {
    /// Whether the image is a module, which is loaded with a program or opened by a thread.
    pub fn is_module(self) -> bool
        ensures { IsTrue result ↔ IsModule self }
    {
        matches!(self, ImageKind::Start | ImageKind::Late)
    }

    /// Whether a thread opens the image; else it is loaded with the program.
    pub fn is_late(self) -> bool
        ensures { result ≡ is_late self }
    {
        matches!(self, ImageKind::Late)
    }

    /// Whether the image may be loaded at any address.
    pub fn is_moved(self) -> bool
        ensures { result ≡ is_moved self }
    {
        match self {
            ImageKind::Exe => false,
            ImageKind::Pie | ImageKind::Start | ImageKind::Late => true,
        }
    }

    /// The address of the image before the loader moves it: that of its first section.
    pub fn base(self) -> u64
        ensures { result ≡ base_of self }
    {
        match self {
            ImageKind::Exe => EXE_BASE,
            ImageKind::Pie | ImageKind::Start | ImageKind::Late => 0,
        }
    }
}
