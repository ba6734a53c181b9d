//! Tests of the reader and the writer of images, through public calls only.
//!
//! They test what no clause says: that the definitions agree with the standards, on images that other programs
//! wrote and on changes of them, and that a call with enough memory succeeds. `image_listing`'s stored run
//! tests what an image spells.
#![tactic(auto)]

#[cfg(test)]
mod cases;
#[cfg(test)]
mod drafts;
#[cfg(test)]
mod images;
#[cfg(test)]
mod reading;
