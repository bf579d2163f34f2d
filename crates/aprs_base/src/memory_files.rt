//! Files in memory, for tests and rows.
ghost use Rattle.std.specs.Prelude.{◌≡◌, ◌↔◌, ◌⊎◌, ℕ, ◌<◌, Some, None, true, false, [], List, length, IsErrOf};
ghost use Rattle.std.specs.Option.{option_map};
ghost use Rattle.aprs_base.specs.MemStores.{FileTable, after_read, files_shown, is_to_fail};
ghost use Rattle.aprs_base.specs.Outside.{one_more};
ghost use Rattle.aprs_base.specs.Stores.{AfterRead, bytes_named, place_named};

use crate::files::{FileError, Files, MemFile};
use std::marker::Model;

/// Files in memory, some of whose reads fail. They tell which one was read last.
#[derive(Drop)]
pub struct MemFiles {
    files: Vec<MemFile>,
    fail: Vec<u64>,
    /// The place of the file that was read last.
    last: Option<usize>,
    calls: u64,
    faults: u64,
}

impl Model for MemFiles {
    ghost use Rattle.aprs_base.specs.MemStores.{FileTable};

    ghost Value = { FileTable };

    ghost view = { λ f. record {
      files = f.files.items;
      fail = f.fail.items;
      last = f.last;
      calls = f.calls;
      faults = f.faults;
    } };
}

impl MemFiles {
    /// These files. A read fails where its number of calls before is listed, or where no file has its name.
    pub fn new(files: Vec<MemFile>, fail: Vec<u64>) -> MemFiles
        ensures { result ≡ record { files = files.items; fail = fail.items; last = None; calls = 0; faults = 0 } }
    {
        MemFiles {
            files,
            fail,
            last: None,
            calls: 0,
            faults: 0,
        }
    }

    /// Notes a read of the file at this place.
    fn note(&mut self, place: Option<usize>)
        ensures { self.new ≡ record self.old { last = place; calls = one_more self.old.calls } }
    {
        self.last = place;
        self.calls = self.calls.saturating_add(1);
    }
}

pub(crate) fn is_listed(list: &[u64], number: u64) -> bool
    ensures { result ≡ is_to_fail list.now number }
{
    list.iter().any(|listed| *listed == number)
}

fn bytes_of<'a>(files: &'a [MemFile], name: &[u8]) -> Option<&'a [u8]>
    ensures { option_map (λ b. b.now) result ≡ bytes_named name.now files.now }
{
    for file in files {
        if file.name.as_bytes() == name {
            return Some(file.bytes.as_bytes());
        }
    }
    None
}

fn place_of(files: &[MemFile], name: &[u8]) -> Option<usize>
    ensures { result ≡ place_named name.now (Some files.now) }
{
    files.iter().position(|file| file.name.as_bytes() == name)
}

impl Files for MemFiles {
    ghost shown = { files_shown };

    fn read(&mut self, name: &str, limit: usize, out: &mut Vec<u8>) -> Result<(), FileError>
        ensures read { AfterRead (files_shown self.old) (files_shown self.new) name.now limit out.old.items out.new.items result }
        ensures failed { IsErrOf result FileError.Failed ↔ ((is_to_fail self.old.fail self.old.calls ≡ true) ⊎ (bytes_named name.now self.old.files ≡ None)) }
        ensures exact { self.new ≡ after_read self.old name.now result }
    {
        let found = bytes_of(self.files.as_slice(), name.as_bytes());
        let place = place_of(self.files.as_slice(), name.as_bytes());
        let (false, Some(bytes)) = (is_listed(self.fail.as_slice(), self.calls), found) else {
            self.note(place);
            self.faults = self.faults.saturating_add(1);
            return Err(FileError::Failed);
        };
        if bytes.len() > limit {
            self.note(place);
            return Err(FileError::Big);
        }
        out.extend_from_slice(bytes)?;
        self.note(place);
        Ok(())
    }
}
