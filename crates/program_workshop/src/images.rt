//! Bytes of images.

use std::alloc::{AllocError, Global};

/// The bytes of these items: each a number of eight bytes, with its most significant one first.
pub fn bytes_of(alloc: Global, items: &[u64]) -> Result<Vec<u8>, AllocError> {
    let mut bytes = Vec::new(alloc);
    for item in items {
        bytes.extend_from_slice(&item.to_be_bytes())?;
    }
    Ok(bytes)
}
