//! What may be wrong with the text of a filter.
ghost use Rattle.std.specs.Prelude.{◌≡◌};

use std::alloc::{AllocError, AllocFailed};
use thiserror::Error;

/// The first fault of a filter's text, or want of memory.
#[derive(Clone, Copy, PartialEq, Eq, Debug, Error)]
pub enum FilterError {
    #[error("the filter is too long")]
    Long,
    /// The term of this number, counted from 1, is off the grammar.
    #[error("term {0} of the filter is no term")]
    Term(u16),
    /// A tenth term of this letter, or a 65th term of any, with the letter `*`.
    #[error("the filter has too many terms")]
    TooMany(u8),
    #[error("no memory for the filter")]
    Memory,
}

impl From<AllocError> for FilterError {
    ghost use Rattle.std.specs.Prelude.{◌≡◌};
    ghost use Rattle.filter_lang.specs.declared.errors.FilterError.TheVariants.{Memory};

    ghost from_gives = { λ _ e. e ≡ Memory };

    fn from(_error: AllocError) -> FilterError {
        FilterError::Memory
    }
}

impl<T: Drop> From<AllocFailed<T>> for FilterError {
    ghost use Rattle.std.specs.Prelude.{◌≡◌};
    ghost use Rattle.filter_lang.specs.declared.errors.FilterError.TheVariants.{Memory};

    ghost from_gives = { λ _ e. e ≡ Memory };

    fn from(_failed: AllocFailed<T>) -> FilterError {
        FilterError::Memory
    }
}
