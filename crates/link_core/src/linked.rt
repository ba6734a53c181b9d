//! The result of linking.

use image_file::Image;
use relax_sites::Choice;
use std::marker::Model;

/// A linked image, and which sequence takes the place of each site's.
#[derive(Drop)]
pub struct Linked {
    pub image: Image,
    /// The choices of each object, in the order of its sites.
    pub choices: Vec<Vec<Choice>>,
}

impl Model for Linked {
    ghost use Rattle.std.specs.Prelude.{map};
    ghost use Rattle.link_core.specs.Images.{LinkedImage};

    ghost Value = { LinkedImage };

    ghost view = { λ linked. record {
      image = linked.image;
      choices = map (λ own. own.items) linked.choices.items;
    } };
}
