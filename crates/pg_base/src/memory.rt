//! Want of memory.
use std::alloc::{AllocError, AllocFailed};

/// A call was refused memory that it needs.
#[derive(Clone, Copy, Debug, PartialEq, Eq)]
pub struct Memory;

/// What `Vec::with_capacity` and `to_vec` answer.
impl From<AllocError> for Memory {
    fn from(_: AllocError) -> Memory {
        Memory
    }
}

/// What `push` and `Box::new` answer; the value that found no room is dropped.
impl<T: Drop> From<AllocFailed<T>> for Memory {
    fn from(_: AllocFailed<T>) -> Memory {
        Memory
    }
}
