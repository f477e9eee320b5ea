//! Texts that tests put together.

use std::alloc::{AllocError, Global};

/// The parts in one text.
pub fn joined(alloc: Global, parts: &[&[u8]]) -> Result<Vec<u8>, AllocError> {
    let mut text = Vec::new(alloc);
    for part in parts {
        text.extend_from_slice(part)?;
    }
    Ok(text)
}
