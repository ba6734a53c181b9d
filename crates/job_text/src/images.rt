//! Images, as the job declares them.

ghost use Rattle.std.specs.Prelude.{◌≡◌};

use crate::spelling::{Name, Names};
use link_faults::ImageKind;

/// An image: its name, its kind and the objects that it is linked from, at least one.
#[derive(Debug, Drop)]
pub struct Image {
    pub name: Name,
    pub kind: ImageKind,
    pub objects: Names,
}

impl Image {
    ghost use Rattle.job_text.specs.Images.{is_named};

    /// Whether this is the image's name.
    pub(crate) fn is_named(&self, name: &str) -> bool
        ensures { result ≡ is_named name.now self.now }
    {
        name == self.name.as_str()
    }
}
