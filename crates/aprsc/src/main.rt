//! The server's program: the top call over the files, the output, the sockets and the journals of the system.
#![tactic(auto)]

ghost use Rattle.std.specs.Prelude.{◌≡◌, None};

use aprs_base::{OpenGate, Slot};
use aprsc_daemon::{ErrorJournal, FileJournal, RealFiles, RealSink, aprsc};
use mio_wire::MioWire;
use std::alloc::{AllocError, Global};
use std::env::{self, Env};
use std::fs::{File, Files};
use std::hash::RandomState;
use std::io::{ErrorKind, Print};
use std::marker::Sync;
use std::net::Net;
use std::os::fd::{AsRawFd, IntoRawFd};
use std::process::ExitCode;
use std::sync::Wait;
use std::thread::Threads;
use std::time::Clock;

/// The status for want of memory.
const NO_MEMORY: u8 = 6;

/// The status where the system gives no random words.
const NO_RANDOM: u8 = 8;

/// The words that the program is called with, but its name. Words that are no text count as none.
fn words<R: AllocGlobal + Env>(rt: &R) -> Result<Vec<String>, AllocError> {
    let mut words = Vec::new(rt.alloc());
    match env::args(rt) {
        Ok(args) => {
            for word in args.skip(1) {
                words.push(word)?;
            }
        }
        Err(error) if error.kind() == ErrorKind::OutOfMemory => return Err(AllocError),
        Err(_) => {}
    }
    Ok(words)
}

/// The system's sockets. They never stop by themselves.
fn sockets<R: Net + Clock>(rt: &R, alloc: Global) -> MioWire<'_, R>
    ensures { result.course.stop_after ≡ None }
{
    MioWire::new(rt, alloc, None)
}

/// Opens the null device in the place of each standard descriptor that the program was begun without, so that no socket
/// and no file is taken for one of them.
fn fill_standard(rt: &HostRuntime) {
    for _ in 0..3 {
        let Ok(null) = File::options().read(true).write(true).open(rt, "/dev/null") else {
            return;
        };
        if null.as_raw_fd() > 2 {
            return;
        }
        null.into_raw_fd();
    }
}

/// Serves until it is ended from outside, or until the wire or memory fails.
fn run<R>(rt: &R, hasher: &RandomState, mut journals: Vec<Slot>) -> Result<u8, AllocError>
where
    R: AllocGlobal + Clock + Env + Files + Net + Print + Sync + Threads + Wait,
{
    let alloc = rt.alloc();
    let words = words(rt)?;
    let mut files = RealFiles::new(rt);
    let mut wire = sockets(rt, alloc);
    let mut out = RealSink::new(rt);
    Ok(aprsc(
        rt,
        alloc,
        words.as_slice(),
        &mut files,
        &mut wire,
        &mut out,
        hasher,
        &mut journals,
        &OpenGate,
    ))
}

/// The journals are made here, since a function can't hand out what it has boxed.
fn main(rt: HostRuntime) -> ExitCode {
    fill_standard(&rt);
    let Ok(hasher) = RandomState::new(&rt) else {
        return ExitCode::from(NO_RANDOM);
    };
    let alloc = rt.alloc();
    let first: Result<_, _> = rt.clone();
    let second: Result<_, _> = rt.clone();
    let (Ok(for_errors), Ok(for_file)) = (first, second) else {
        return ExitCode::from(NO_MEMORY);
    };
    let Ok(errors) = Box::new(alloc, ErrorJournal::new(for_errors)) else {
        return ExitCode::from(NO_MEMORY);
    };
    let Ok(file) = Box::new(alloc, FileJournal::new(for_file)) else {
        return ExitCode::from(NO_MEMORY);
    };
    let slots = [
        Slot::Live {
            journal: errors,
            lines: 0,
        },
        Slot::Live {
            journal: file,
            lines: 0,
        },
    ];
    let Ok(journals) = Vec::from_array(alloc, slots) else {
        return ExitCode::from(NO_MEMORY);
    };
    ExitCode::from(run(&rt, &hasher, journals).unwrap_or(NO_MEMORY))
}
