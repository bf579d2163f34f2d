//! The types, the cutting of byte streams into lines, and the outside as traits, on which every crate of the server stands.
#![tactic(auto)]

mod cutting;
mod events;
mod files;
mod gates;
mod journals;
mod memory_files;
mod memory_journals;
mod memory_sink;
mod memory_wire;
mod packets;
mod sinks;
mod texts;
mod totals;
mod wire;

pub use cutting::{Cut, Cutter};
pub use events::{Came, Event, Happening, Sent, WireError, copy_event};
pub use files::{FileError, Files, MemFile};
pub use gates::{Gate, OpenGate};
pub use journals::{Journal, JournalLine, Kind, Slot};
pub use memory_files::MemFiles;
pub use memory_journals::{CountJournal, MemJournal};
pub use memory_sink::MemSink;
pub use memory_wire::{MemWire, Take, WrongNumbers};
pub use packets::{
    Body, ListenSpec, Packet, Parts, Place, PortKind, Shared, Source, UplinkSpec, Via, copy_via,
};
pub use sinks::{Sink, SinkError};
pub use texts::{
    Addr, Call, Chunk, Failed, Line, Memory, Text, Word9, all_digits, copy_call, first_place,
    is_construct_text, leading_blanks, trailing_blanks,
};
pub use totals::Totals;
pub use wire::Wire;
