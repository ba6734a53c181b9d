//! Marks of code: what is known of each byte.

/// The mark of a byte of code.
#[derive(Clone, Copy, PartialEq, Eq, Debug)]
pub enum Mark {
    /// A byte that only the program decides.
    Usual,
    /// A byte of an offset field: the number of the whole field, modulo 2^64, and the byte's index in the field, from
    /// 0 to 3.
    Offset(u64, u8),
    /// A byte of an address field: the address that its word holds, its addend, and the byte's index in the field.
    Address(u64, i64, u8),
    /// A byte of a sequence.
    Inside,
}
