//! The configuration that a file holds.
ghost use Rattle.std.specs.Prelude.{◌≡◌, Ok, IfOk, IfErr, IsErrOf};
ghost use Rattle.aprs_conf.specs.Grammar.{conf_of};
ghost use Rattle.aprs_conf.specs.Sound.{IsSound};
ghost use Rattle.aprsc_daemon.specs.Configuring.{IsTrouble};
ghost use Rattle.aprsc_daemon.specs.Loading.{IsOfText, Loads};

use aprs_base::{FileError, Files};
use aprs_conf::{Conf, ConfError, ConfFault, ConfWord, read};
use std::alloc::Global;

/// Why a text is no configuration.
#[derive(Clone, Copy)]
pub enum Trouble {
    /// The first bad line, and its first fault.
    Line(u32, ConfFault),
    /// No line has this word.
    Missing(ConfWord),
}

/// Why a file gives no configuration.
#[derive(Clone, Copy)]
pub(crate) enum Unfit {
    TooLarge,
    Unread,
    Trouble(Trouble),
    Memory,
}

/// The most bytes of a configuration or a script.
pub(crate) const MOST_READ: usize = 65_536;

/// The configuration that a text is.
pub(crate) fn read_conf(alloc: Global, text: &[u8]) -> Result<Conf, Unfit>
    ensures value { IfOk result (λ conf. conf_of text.now ≡ Ok conf) }
    ensures sound { IfOk result IsSound }
    ensures trouble { (t : Trouble) → IsErrOf result (Unfit.Trouble t) → IsTrouble t (conf_of text.now) }
    ensures text { IfErr result IsOfText }
{
    match read(alloc, text) {
        Ok(conf) => Ok(conf),
        Err(ConfError::Line(line, fault)) => Err(Unfit::Trouble(Trouble::Line(line, fault))),
        Err(ConfError::Missing(word)) => Err(Unfit::Trouble(Trouble::Missing(word))),
        Err(ConfError::Memory) => Err(Unfit::Memory),
    }
}

/// The configuration that the file of this name holds. It is read once.
pub(crate) fn load<F: Files>(alloc: Global, name: &str, files: &mut F) -> Result<Conf, Unfit>
    ensures { Loads (F.shown files.old) (F.shown files.new) name.now result }
{
    let mut text = Vec::new(alloc);
    match files.read(name, MOST_READ, &mut text) {
        Ok(()) => read_conf(alloc, text.as_slice()),
        Err(FileError::Big) => Err(Unfit::TooLarge),
        Err(FileError::Failed) => Err(Unfit::Unread),
        Err(FileError::Memory) => Err(Unfit::Memory),
    }
}
