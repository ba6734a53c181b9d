//! Tests of linking: small objects in, the image as text out.
//!
//! Clauses are proved in `link_core`. These tests check that the definitions agree with the standard: faults and
//! images that a reader works out by hand, with the arithmetic of each field.
//!
//! A case has kinds of image, objects made of words (`objects`), and the result: a fault, or the image as `image_text`
//! prints it, with six digits of each place and with the choices for each object's sequences; and after a `#` the bytes
//! of its parts except the last, the dynamic tables. For example, a program whose function f reads its variable x:
//!
//! ```text
//! * exe f=c0 x=v8 v:0000000000000000 v:2a000000 mov:x c:c3 -> links # 48c7c0 f8ffffff c3; 0000000000000000 2a000000;
//! ```
#![tactic(auto)]

#[cfg(test)]
mod cases;
#[cfg(test)]
mod faults;
#[cfg(test)]
mod growth;
#[cfg(test)]
mod images;
#[cfg(test)]
mod objects;
