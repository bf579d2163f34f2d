//! What may be wrong with the text of a script.
ghost use Rattle.std.specs.Prelude.{◌≡◌};

use std::alloc::AllocFailed;
use thiserror::Error;

/// Why a text is no script.
#[derive(Clone, Copy, PartialEq, Eq, Debug, Error)]
pub enum ScriptError {
    /// It has more than 65,536 bytes.
    #[error("too large")]
    TooLarge,
    /// The number of the first bad line, counted from 1.
    #[error("line {0}: bad step")]
    BadStep(u32),
    #[error("no memory for the script")]
    Memory,
}

/// Why a line says nothing.
#[derive(Clone, Copy)]
pub enum LineError {
    Bad,
    Memory,
}

impl<T: Drop> From<AllocFailed<T>> for LineError {
    ghost use Rattle.std.specs.Prelude.{◌≡◌};
    ghost use Rattle.net_script.specs.declared.errors.LineError.TheVariants as line_error;

    ghost from_gives = { λ _ e. e ≡ line_error.Memory };

    fn from(_failed: AllocFailed<T>) -> LineError {
        LineError::Memory
    }
}
