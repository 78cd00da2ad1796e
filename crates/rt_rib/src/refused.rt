//! Running out of memory, the only error of this crate.
use std::alloc::{AllocError, AllocFailed};
use thiserror::Error;

/// M1: memory ran out. The request wasn't carried out; each call says what is then unchanged.
#[derive(Clone, Copy, PartialEq, Eq, Debug, Error)]
#[error("out of memory")]
pub struct Refused;

impl From<AllocError> for Refused {
    fn from(_: AllocError) -> Refused {
        Refused
    }
}

impl<T: Drop> From<AllocFailed<T>> for Refused {
    fn from(_: AllocFailed<T>) -> Refused {
        Refused
    }
}
