//! Why a JSON value isn't read.
ghost use Rattle.std.specs.Prelude.{◌≡◌};
ghost use Rattle.vx_json.specs.declared.error.DocError.TheVariants.{NoMemory as OutOfMemory};

use std::alloc::{AllocError, AllocFailed};
use std::error::Error;
use std::fmt;
use vx_bits::NoMemory;
use vx_mask::MaskError;

/// Why a JSON value gives no document, or no part of one.
#[derive(Clone, Copy, Debug, PartialEq, Eq)]
pub enum DocError {
    /// The value has no meaning as a document, or as that part of one.
    Malformed,
    /// Out of memory.
    NoMemory,
}

impl fmt::Display for DocError {
    ghost use Rattle.std.specs.Prelude.{Some};
    ghost use Rattle.vx_json.specs.Messages.{doc_error_text};

    ghost output = { λ e. Some (doc_error_text e) };

    fn fmt<W: fmt::Write>(&self, f: &mut fmt::Formatter<W>) -> fmt::Result {
        f.write_str(match self {
            DocError::Malformed => "the value has no meaning here",
            DocError::NoMemory => "out of memory",
        })
    }
}

impl Error for DocError {}

/// What is no mask is malformed.
impl From<MaskError> for DocError {
    ghost use Rattle.vx_json.specs.Meaning.{mask_refusal};

    ghost from_gives = { λ x e. e ≡ mask_refusal x };

    fn from(error: MaskError) -> Self {
        match error {
            MaskError::NoMemory => DocError::NoMemory,
            _ => DocError::Malformed,
        }
    }
}

impl From<NoMemory> for DocError {
    ghost from_gives = { λ _ e. e ≡ OutOfMemory };

    fn from(_: NoMemory) -> Self {
        DocError::NoMemory
    }
}

impl<T: Drop> From<AllocFailed<T>> for DocError {
    ghost from_gives = { λ _ e. e ≡ OutOfMemory };

    fn from(_: AllocFailed<T>) -> Self {
        DocError::NoMemory
    }
}

impl From<AllocError> for DocError {
    ghost from_gives = { λ _ e. e ≡ OutOfMemory };

    fn from(_: AllocError) -> Self {
        DocError::NoMemory
    }
}
