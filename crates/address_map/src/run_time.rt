//! The run time, which has no image.

/// The address of `__tls_get_addr`.
pub const GET_ADDRESS: u64 = 0x1000;

/// The address of the function of TLS descriptors.
pub const DESCRIPTOR: u64 = 0x1800;

/// The address that a call of a job returns to.
pub const RETURN: u64 = 0x2000;
