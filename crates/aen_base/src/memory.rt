use std::alloc::{AllocError, AllocFailed};
use thiserror::Error;

/// Want of memory: the one free answer. No clause says when it comes.
#[derive(Clone, Copy, Debug, PartialEq, Eq, Error)]
#[error("out of memory")]
pub struct NoMem;

impl From<AllocError> for NoMem {
    fn from(_: AllocError) -> NoMem {
        NoMem
    }
}

impl<T: Drop> From<AllocFailed<T>> for NoMem {
    fn from(_: AllocFailed<T>) -> NoMem {
        NoMem
    }
}
