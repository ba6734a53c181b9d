//! The choices of a linker at a site.

/// Which sequence stands in the place of a site. The first part of a name is the access model of the compiled code, the
/// second that of the code in its place: local exec (LE) has a variable's offset from the thread pointer in the code,
/// initial exec (IE) reads it from a word of the GOT.
#[derive(Clone, Copy, PartialEq, Eq, Debug)]
pub enum Choice {
    /// The site's own bytes.
    Keep,
    /// General dynamic becomes local exec.
    GdLe,
    /// General dynamic becomes initial exec.
    GdIe,
    /// Local dynamic becomes local exec.
    LdLe,
    /// Initial exec becomes local exec.
    IeLe,
    /// A descriptor becomes local exec.
    DescLe,
    /// A descriptor becomes initial exec.
    DescIe,
}
