//! Why a case has no outcome.
use foundation::refusal::Refusal;
use std::alloc::AllocError;
use thiserror::Error;

#[derive(Clone, Copy, Debug, Error)]
pub enum Fault {
    /// The line does not have the format of a case.
    #[error("malformed")]
    Malformed,
    /// The first refusal that came.
    #[error(transparent)]
    Refused(#[from] Refusal),
    #[error(transparent)]
    Memory(#[from(alloc)] AllocError),
}
