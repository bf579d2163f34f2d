//! The files and the standard output of the system.
ghost use Rattle.std.specs.Prelude.{◌≡◌, ◌⊎◌, ◌+◌, ◌++◌, None, Ok, IfOk, IfSome, IsErrOf, OnOk, length, take};
ghost use Rattle.std.specs.Io.{StartsWith};
ghost use Rattle.aprs_base.specs.Outside.{one_more};
ghost use Rattle.aprs_base.specs.Stores.{after_reading, failed_reads_after, failed_writes_after};

use aprs_base::{FileError, Files, Sink, SinkError};
use std::io::{ErrorKind, Print, Read};
use std::{fs, io};

/// The files of the system, and how many reads of them were made and failed.
#[derive(Drop)]
pub struct RealFiles<R: fs::Files + Drop> {
    rt: R,
    reads: u64,
    faults: u64,
}

impl<R: fs::Files + Drop> RealFiles<R> {
    pub fn new(rt: R) -> RealFiles<R>
        ensures { result ≡ record { rt = rt; reads = 0; faults = 0 } }
    {
        RealFiles {
            rt,
            reads: 0,
            faults: 0,
        }
    }

    /// The answer for an error of the system.
    fn refuse(&mut self, error: &io::Error) -> Result<(), FileError>
        ensures refused { IsErrOf result FileError.Failed ⊎ IsErrOf result FileError.Memory }
        ensures reads { self.new.reads ≡ after_reading result self.old.reads (one_more self.old.reads) }
        ensures faults { self.new.faults ≡ failed_reads_after result self.old.faults }
    {
        if error.kind() == ErrorKind::OutOfMemory {
            return Err(FileError::Memory);
        }
        self.reads = self.reads.saturating_add(1);
        self.faults = self.faults.saturating_add(1);
        Err(FileError::Failed)
    }
}

/// Appends what a file holds, but at most `most` bytes.
fn append<F: Read + Drop>(file: F, most: u64, out: &mut Vec<u8>) -> io::Result<usize>
    ensures appends { StartsWith out.new.items out.old.items }
    ensures bytes { OnOk result (IfSome (F.remaining file) (λ bytes. out.new.items ≡ out.old.items ++ take most bytes)) }
    ensures count { IfOk result (λ n. length out.new.items ≡ length out.old.items + n) }
{
    file.take(most).read_to_end(out)
}

impl<R: fs::Files + Drop> Files for RealFiles<R> {
    ghost shown = { λ f. record { told = None; last = None; reads = f.reads; faults = f.faults } };

    fn read(&mut self, name: &str, limit: usize, out: &mut Vec<u8>) -> Result<(), FileError> {
        let before = out.len();
        let file = match fs::open(&self.rt, name) {
            Ok(file) => file,
            Err(error) => return self.refuse(&error),
        };
        let most = (limit as u64).saturating_add(1);
        match append(file, most, out) {
            Ok(count) if count <= limit => {
                self.reads = self.reads.saturating_add(1);
                Ok(())
            }
            Ok(_) => {
                self.reads = self.reads.saturating_add(1);
                out.truncate(before);
                Err(FileError::Big)
            }
            Err(error) => {
                out.truncate(before);
                self.refuse(&error)
            }
        }
    }
}

/// The standard output, and how often it failed or took nothing.
#[derive(Drop)]
pub struct RealSink<R: Print + Drop> {
    rt: R,
    faults: u64,
}

impl<R: Print + Drop> RealSink<R> {
    pub fn new(rt: R) -> RealSink<R>
        ensures { result ≡ record { rt = rt; faults = 0 } }
    {
        RealSink { rt, faults: 0 }
    }

    fn note_fault(&mut self)
        ensures { self.new ≡ record self.old { faults = one_more self.old.faults } }
    {
        self.faults = self.faults.saturating_add(1);
    }

    /// Notes that nothing was taken of a piece that isn't empty.
    fn note_count(&mut self, count: usize, bytes: &[u8])
        ensures { self.new ≡ record self.old { faults = failed_writes_after (Ok count) bytes.now self.old.faults } }
    {
        if count == 0 && !bytes.is_empty() {
            self.note_fault();
        }
    }
}

impl<R: Print + Drop> Sink for RealSink<R> {
    ghost shown = { λ s. record { told = None; faults = s.faults } };

    fn write(&mut self, bytes: &[u8]) -> Result<usize, SinkError> {
        match self.rt.write_some(bytes) {
            Ok(count) => {
                self.note_count(count, bytes);
                Ok(count)
            }
            Err(error) => {
                if error.kind() == ErrorKind::OutOfMemory {
                    return Err(SinkError::Memory);
                }
                self.note_fault();
                Err(SinkError::Failed)
            }
        }
    }
}
