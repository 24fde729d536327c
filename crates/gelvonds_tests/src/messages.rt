//! The messages that tests send.
use gelvonds::Bytes;
use std::alloc::{AllocError, Global};

/// A message with no body to the port under 1, by a send right that is made, with the id 7.
pub(crate) const MESSAGE: [u8; 24] = [
    0x14, 0, 0, 0, 0x18, 0, 0, 0, 1, 0, 0, 0, 0, 0, 0, 0, 0, 0, 0, 0, 7, 0, 0, 0,
];

/// The same as its receiver gets it first.
pub(crate) const RECEIVED: [u8; 24] = [
    0, 0x11, 0, 0, 0x18, 0, 0, 0, 0, 0, 0, 0, 1, 0, 0, 0, 0, 0, 0, 0, 7, 0, 0, 0,
];

/// A message of these bytes.
pub(crate) fn bytes(alloc: Global, message: &[u8; 24]) -> Result<Bytes, AllocError> {
    Ok(Bytes::from_vec(Vec::from_slice(alloc, message)?))
}
