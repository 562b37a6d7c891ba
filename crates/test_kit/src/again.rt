//! Calls that are made once more where an allocation was refused.

use std::alloc::{AllocError, Global};

/// What a call returns; where that is the fault of a refused allocation, what the same call returns once more.
pub fn once_more<T: Drop, E: Copy + PartialEq, F: FnMut() -> Result<T, E>>(
    refused: E,
    mut call: F,
) -> Result<T, E>
    requires { F.IsAlwaysCallable call }
{
    match call() {
        Err(fault) if fault == refused => call(),
        answer => answer,
    }
}

/// The parts joined.
pub fn joined(alloc: Global, parts: &[&[u8]]) -> Result<Vec<u8>, AllocError> {
    once_more(AllocError, || parts.concat(alloc))
}

/// The bytes in a vector.
pub fn copied(alloc: Global, bytes: &[u8]) -> Result<Vec<u8>, AllocError> {
    once_more(AllocError, || Vec::from_slice(alloc, bytes))
}

/// The bytes, so many times.
pub fn repeated(alloc: Global, bytes: &[u8], count: usize) -> Result<Vec<u8>, AllocError> {
    once_more(AllocError, || bytes.repeat(alloc, count))
}
