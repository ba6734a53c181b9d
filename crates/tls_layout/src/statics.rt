//! Blocks of startup modules below a thread pointer.

ghost use Rattle.std.specs.Prelude.{◌≡◌, ℕ, ◌+◌, ◌<◌, ◌≤◌, All, IfOk, length, slice_index, vec_len};
ghost use Rattle.tls_layout.specs.Statics.{tls_offset, IsTlsSize};

use crate::extent::round_up;
use std::alloc::{AllocError, Global};

/// The TLS segment of a module.
#[derive(Clone, Copy, PartialEq, Eq, Debug)]
pub struct TlsSize {
    /// How many bytes it has, zeros included.
    pub size: u64,
    /// Its address is a multiple of this.
    pub alignment: u64,
}

/// How far below the thread pointer each startup module's block begins, in load order. The first is the program's.
pub fn static_offsets(alloc: Global, sizes: &[TlsSize]) -> Result<Vec<u64>, AllocError>
    requires few { length sizes.now ≤ 64 }
    requires ordinary { All IsTlsSize sizes.now }
    ensures len { IfOk result (λ offsets. vec_len offsets ≡ length sizes.now) }
    ensures offsets { IfOk result (λ offsets.
        (m : ℕ) → m < length sizes.now → slice_index offsets.items m ≡ tls_offset sizes.now (m + 1)) }
{
    let mut offsets = Vec::new(alloc);
    let mut last = 0;
    for tls in sizes {
        last = round_up(last + tls.size, tls.alignment);
        offsets.push(last)?;
    }
    Ok(offsets)
}
