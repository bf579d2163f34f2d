//! What may be wrong with the text of a configuration.
ghost use Rattle.std.specs.Prelude.{◌≡◌};

use aprs_base::Memory;
use std::alloc::{AllocError, AllocFailed};
use thiserror::Error;

/// The first fault of a line.
#[derive(Clone, Copy, PartialEq, Eq, Debug, Error)]
pub enum ConfFault {
    /// A word begins with a `"` that no other ends.
    #[error("open-quote")]
    OpenQuote,
    /// The first word begins no line.
    #[error("unknown-word")]
    UnknownWord,
    /// A second line of a word that may come once.
    #[error("repeated")]
    Repeated,
    /// Too few arguments, too many, or a sixth argument of `Listen` other than `hidden`.
    #[error("bad-count")]
    BadCount,
    /// No call of a station.
    #[error("bad-call")]
    BadCall,
    /// No number, or one out of its range.
    #[error("bad-number")]
    BadNumber,
    /// No time, or one that is not within 1 to 10,000,000 seconds.
    #[error("bad-time")]
    BadTime,
    /// No kind or protocol that may stand there.
    #[error("bad-kind")]
    BadKind,
    /// Neither an IPv4 address nor `::`.
    #[error("bad-addr")]
    BadAddr,
    /// A host of no byte or of more than 64.
    #[error("bad-host")]
    BadHost,
    /// A 17th listen, those for requests by HTTP among them, or a ninth uplink.
    #[error("too-many")]
    TooMany,
}

/// A word of which there must be a line.
#[derive(Clone, Copy, PartialEq, Eq, Debug, Error)]
pub enum ConfWord {
    #[error("ServerId")]
    ServerId,
    #[error("PassCode")]
    PassCode,
    #[error("Listen")]
    Listen,
}

/// Why a text is no configuration.
#[derive(Clone, Copy, PartialEq, Eq, Debug, Error)]
pub enum ConfError {
    /// The number of the first bad line, counted from 1, and its first fault. The number stays at 4,294,967,295 for every later line.
    #[error("line {0}: {1}")]
    Line(u32, ConfFault),
    /// No line is bad, and the first such word has none.
    #[error("missing {0}")]
    Missing(ConfWord),
    #[error("no memory for the configuration")]
    Memory,
}

impl From<AllocError> for ConfError {
    ghost use Rattle.std.specs.Prelude.{◌≡◌};
    ghost use Rattle.aprs_conf.specs.declared.errors.ConfError.TheVariants.{Memory};

    ghost from_gives = { λ _ e. e ≡ Memory };

    fn from(_error: AllocError) -> ConfError {
        ConfError::Memory
    }
}

impl<T: Drop> From<AllocFailed<T>> for ConfError {
    ghost use Rattle.std.specs.Prelude.{◌≡◌};
    ghost use Rattle.aprs_conf.specs.declared.errors.ConfError.TheVariants.{Memory};

    ghost from_gives = { λ _ e. e ≡ Memory };

    fn from(_failed: AllocFailed<T>) -> ConfError {
        ConfError::Memory
    }
}

/// Why a line says nothing.
#[derive(Clone, Copy)]
pub enum LineError {
    Fault(ConfFault),
    Memory,
}

impl From<ConfFault> for LineError {
    ghost use Rattle.std.specs.Prelude.{◌≡◌};
    ghost use Rattle.aprs_conf.specs.declared.errors.LineError.TheVariants.{Fault};

    ghost from_gives = { λ f e. e ≡ Fault f };

    fn from(fault: ConfFault) -> LineError {
        LineError::Fault(fault)
    }
}

impl From<Memory> for LineError {
    ghost use Rattle.std.specs.Prelude.{◌≡◌};
    ghost use Rattle.aprs_conf.specs.declared.errors.LineError.TheVariants as line_error;

    ghost from_gives = { λ _ e. e ≡ line_error.Memory };

    fn from(_error: Memory) -> LineError {
        LineError::Memory
    }
}

impl<T: Drop> From<AllocFailed<T>> for LineError {
    ghost use Rattle.std.specs.Prelude.{◌≡◌};
    ghost use Rattle.aprs_conf.specs.declared.errors.LineError.TheVariants as line_error;

    ghost from_gives = { λ _ e. e ≡ line_error.Memory };

    fn from(_failed: AllocFailed<T>) -> LineError {
        LineError::Memory
    }
}
