//! Facts about images before anything is loaded, and where the blocks of startup images lie.

ghost use Rattle.std.specs.Prelude.{◌≡◌, ◌≤◌, ◌+◌, ◌^◌, ◌∷◌, All, IfOk, IfSome, length};
ghost use Rattle.module_table.specs.Modules.{AreInfos, IsInfo};
ghost use Rattle.loaded_modules.specs.Images.{info_of, infos_of};
ghost use Rattle.loaded_modules.specs.Ends.{ends_behind, end_behind, IsTls};

use image_file::{Image, TlsPart, image_is_spelled};
use link_faults::ImageKind;
use module_table::ImageInfo;
use std::alloc::{AllocError, Global};

/// The TLS segment of an image, with what every image ensures of it.
pub(crate) fn tls_of(image: &Image) -> Option<TlsPart>
    ensures value { result ≡ image.now.tls }
    ensures kept { IfSome result IsTls }
{
    image_is_spelled(image);
    image.tls()
}

/// The facts about one image.
fn info_of(kind: ImageKind, image: &Image) -> ImageInfo
    ensures value { result ≡ info_of kind image.now }
    ensures kept { IsInfo result }
{
    let (size, align) = match tls_of(image) {
        Some(tls) => (tls.size, tls.alignment),
        None => (0, 1),
    };
    ImageInfo {
        late: kind.is_late(),
        statics: image.is_flagged(),
        size,
        align,
    }
}

/// The facts about each image.
pub(crate) fn infos_of(
    alloc: Global,
    kinds: &[ImageKind],
    images: &[Image],
) -> Result<Vec<ImageInfo>, AllocError>
    requires { length kinds.now ≡ length images.now }
    ensures values { IfOk result (λ infos. infos.items ≡ infos_of kinds.now images.now) }
    ensures kept { IfOk result (λ infos. All IsInfo infos.items) }
{
    let mut infos = Vec::new(alloc);
    for index in 0..images.len() {
        infos.push(info_of(kinds[index], &images[index]))?;
    }
    Ok(infos)
}

/// Where the block of an image begins, in bytes below the thread pointer, after the blocks before it; the block of a
/// late image takes no room there.
fn end_behind(taken: u64, info: ImageInfo) -> u64
    requires room { taken ≤ 2 ^ 32 }
    requires kept { IsInfo info }
    ensures value { result ≡ end_behind taken info }
    ensures close { result ≤ taken + 2 ^ 20 + 4096 }
{
    if info.late {
        return taken;
    }
    (taken + info.size).next_multiple_of(info.align)
}

/// Where the block of each startup image begins, by the image's number; entry 0 is 0.
pub(crate) fn static_offsets(alloc: Global, infos: &[ImageInfo]) -> Result<Vec<u64>, AllocError>
    requires { AreInfos infos.now }
    ensures { IfOk result (λ offsets. offsets.items ≡ 0 ∷ ends_behind infos.now 0) }
{
    let mut taken = 0;
    let mut offsets = vec![in alloc; taken]?;
    for info in infos {
        taken = end_behind(taken, *info);
        offsets.push(taken)?;
    }
    Ok(offsets)
}
