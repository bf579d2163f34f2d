//! A sink in memory, for tests and rows.
ghost use Rattle.std.specs.Prelude.{◌≡◌, ◌↔◌, ℕ, [], IfOk, IsErrOf, length, min, true};
ghost use Rattle.aprs_base.specs.MemStores.{SinkText, after_write, is_to_fail, sink_shown};
ghost use Rattle.aprs_base.specs.Stores.{AfterWrite};

use crate::memory_files::is_listed;
use crate::sinks::{Sink, SinkError};
use std::alloc::Global;
use std::marker::Model;

/// A sink in memory, which tells its text.
#[derive(Drop)]
pub struct MemSink {
    pub text: Vec<u8>,
    fail: Vec<u64>,
    most: usize,
    calls: u64,
    faults: u64,
}

impl Model for MemSink {
    ghost use Rattle.aprs_base.specs.MemStores.{SinkText};

    ghost Value = { SinkText };

    ghost view = { λ s. record { text = s.text.items; fail = s.fail.items; most = s.most; calls = s.calls; faults = s.faults } };
}

impl MemSink {
    /// An empty sink, which takes at most `most` bytes a call, and fails the calls before which so many were made.
    /// It takes no memory until it is written to.
    pub fn new(alloc: Global, fail: Vec<u64>, most: usize) -> MemSink
        ensures { result ≡ record { text = []; fail = fail.items; most = most; calls = 0; faults = 0 } }
    {
        MemSink {
            text: Vec::new(alloc),
            fail,
            most,
            calls: 0,
            faults: 0,
        }
    }
}

impl Sink for MemSink {
    ghost shown = { sink_shown };

    fn write(&mut self, bytes: &[u8]) -> Result<usize, SinkError>
        ensures write { AfterWrite (sink_shown self.old) (sink_shown self.new) bytes.now result }
        ensures failed { IsErrOf result SinkError.Failed ↔ (is_to_fail self.old.fail self.old.calls ≡ true) }
        ensures taken { IfOk result (λ n. n ≡ min (length bytes.now) self.old.most) }
        ensures exact { self.new ≡ after_write self.old bytes.now result }
    {
        if is_listed(self.fail.as_slice(), self.calls) {
            self.calls = self.calls.saturating_add(1);
            self.faults = self.faults.saturating_add(1);
            return Err(SinkError::Failed);
        }
        let count = bytes.len().min(self.most);
        self.text.extend_from_slice(&bytes[..count])?;
        self.calls = self.calls.saturating_add(1);
        if count == 0 && !bytes.is_empty() {
            self.faults = self.faults.saturating_add(1);
        }
        Ok(count)
    }
}
