//! Sinks, to which the program writes its answers.
ghost use Rattle.aprs_base.specs.Stores.{AfterWrite, SinkShown};

use std::alloc::{AllocError, AllocFailed};

/// Why a sink took nothing.
#[derive(Clone, Copy, PartialEq, Eq, Debug)]
pub enum SinkError {
    Failed,
    Memory,
}

impl From<AllocError> for SinkError {
    ghost use Rattle.std.specs.Prelude.{◌≡◌};
    ghost use Rattle.aprs_base.specs.declared.sinks.SinkError.TheVariants.{Memory};

    ghost from_gives = { λ _ e. e ≡ Memory };

    fn from(_error: AllocError) -> SinkError {
        SinkError::Memory
    }
}

impl<T: Drop> From<AllocFailed<T>> for SinkError {
    ghost use Rattle.std.specs.Prelude.{◌≡◌};
    ghost use Rattle.aprs_base.specs.declared.sinks.SinkError.TheVariants.{Memory};

    ghost from_gives = { λ _ e. e ≡ Memory };

    fn from(_failed: AllocFailed<T>) -> SinkError {
        SinkError::Memory
    }
}

/// A sink for text. Its count of faults is one more after a write that failed, or that took nothing of a piece which isn't
/// empty, and the same after any other. It stays at the greatest u64.
pub trait Sink {
    ghost shown: { Self → SinkShown };

    /// Takes the first bytes of the piece, and says how many.
    fn write(&mut self, bytes: &[u8]) -> Result<usize, SinkError>
        ensures { AfterWrite (shown self.old) (shown self.new) bytes.now result };
}
