//! The file of a link, piece by piece.

ghost use Rattle.std.specs.Prelude.{◌≡◌, ◌++◌, IfOk, OnOk, drop, length};
ghost use Rattle.image_faults.specs.Faults.{IsImage};
ghost use Rattle.image_file.specs.Spelled.{spelled};
ghost use Rattle.image_writer.specs.Written.{written};
ghost use Rattle.file_bytes.specs.Pieces.{whole};
ghost use Rattle.link_core.specs.Bytes.{file as file_of_link};
ghost use Rattle.link_core.specs.Images.{image_of};
ghost use Rattle.link_tables.specs.Faults.{IsSound, Links};

use crate::draft::{draft_lists, draft_of};
use crate::file::{parts_of, push_made};
use crate::pieces::{THREADS, fill, start_of};
use crate::ready::ReadyLink;
use file_bytes::Pieces;
use image_writer::{Frame, frame_of};
use link_needs::Plan;
use link_tables::Tables;
use placed_sections::PlacedPart;
use std::alloc::{AllocError, Global};
use std::marker::Model;
use std::thread::Threads;
use tls_layout::PAGE;

/// The file of a ready link, piece by piece: the page of headers, each section with the zeros before it, and what
/// stands behind the sections. A section is linked when its piece is made.
#[derive(Drop)]
pub struct ImagePieces<'r, 'l, 's, 'a, R: Threads> {
    rt: &'r R,
    plan: &'r Plan<'l, 's, 'a>,
    parts: Vec<PlacedPart>,
    front: Vec<u8>,
    back: Vec<u8>,
}

impl<'r, 'l, 's, 'a, R: Threads> Model for ImagePieces<'r, 'l, 's, 'a, R> {
    ghost use Rattle.std.specs.Prelude.{◌≡◌, length};
    ghost use Rattle.file_bytes.specs.Pieces.{PiecesView};
    ghost use Rattle.link_core.specs.Laying.{pieces_of, AreParts};

    ghost Value = { PiecesView };

    ghost view = { λ image. record {
      front = image.front.items;
      pieces = pieces_of image.plan.now 4096 image.parts.items;
      back = image.back.items;
    } };

    ghost invariant = { λ image. AreParts image.plan.now image.parts.items × (length image.front.items ≡ 4096) };
}

impl<R: Threads> ImagePieces<'_, '_, '_, '_, R> {
    /// How many bytes the file has.
    pub fn size(&self) -> usize
        ensures { result ≡ length (whole self.now) }
    {
        let parts = self.parts.as_slice();
        start_of(self.plan, parts, parts.len()) + self.back.len()
    }
}

impl<R: Threads> Pieces for ImagePieces<'_, '_, '_, '_, R> {
    ghost view = { λ image. image };

    fn front(&self) -> &[u8] {
        self.front.as_slice()
    }

    fn back(&self) -> &[u8] {
        self.back.as_slice()
    }

    fn count(&self) -> usize {
        self.parts.len()
    }

    fn start(&self, number: usize) -> usize {
        start_of(self.plan, self.parts.as_slice(), number) - PAGE as usize
    }

    fn make(&self, from: usize, to: usize, into: &mut [u8]) {
        let parts = self.parts.as_slice();
        let start = start_of(self.plan, parts, from);
        fill(self.rt, self.plan, &parts[from..to], start, THREADS, into);
    }
}

/// What stands around the parts of the image in its file.
fn image_frame(alloc: Global, tables: &Tables) -> Result<Frame, AllocError>
    requires { IsSound tables.now }
    ensures page { IfOk result (λ frame. length frame.front.items ≡ 4096) }
    ensures file { IfOk result (λ frame. written (image_of tables.now)
        ≡ frame.front.items ++ (drop 4096 (file_of_link tables.now) ++ frame.back.items)) }
    ensures again { OnOk result
        (IsImage (written (image_of tables.now)) × (spelled (written (image_of tables.now)) ≡ image_of tables.now)) }
{
    let plan = &tables.plan;
    let lists = draft_lists(alloc, tables)?;
    let draft = draft_of(&plan.inputs, &lists);
    let frame = frame_of(alloc, &draft)?;
    Ok(frame)
}

impl<'l, 's, 'a> ReadyLink<'l, 's, 'a> {
    /// The file of the image that [`write`](Self::write) makes, piece by piece. All fields must hold their values.
    /// Fails only when memory runs out.
    pub fn pieces<'r, R: Threads>(
        &'r self,
        rt: &'r R,
        alloc: Global,
    ) -> Result<ImagePieces<'r, 'l, 's, 'a, R>, AllocError>
        requires { Links self.now }
        ensures whole { IfOk result (λ pieces. whole pieces ≡ written (image_of self.now)) }
        ensures again { OnOk result
            (IsImage (written (image_of self.now)) × (spelled (written (image_of self.now)) ≡ image_of self.now)) }
    {
        let tables = &self.tables;
        let plan = &tables.plan;
        let Frame { front, back: last } = image_frame(alloc, tables)?;
        let parts = parts_of(alloc, plan)?;
        let mut back = Vec::new(alloc);
        push_made(
            plan,
            start_of(plan, parts.as_slice(), parts.len()) as u64,
            &mut back,
        )?;
        back.extend_from_slice(last.as_slice())?;
        Ok(ImagePieces {
            rt,
            plan,
            parts,
            front,
            back,
        })
    }
}
