//! What the program reads and writes over the files and the output of the system.
use aprs_base::{FileError, Files, Sink};
use aprsc_daemon::{RealFiles, RealSink, write_all};
use std::fs;
use std::test::Fail;

#[test]
fn reads_files_of_the_system(rt: HostRuntime) -> Result<(), Fail> {
    fs::write(&rt, "five", b"12345")?;
    let mut files = RealFiles::new(&rt);
    let mut out = b">".to_vec(rt.alloc())?;
    assert!(rt; files.read("five", 5, &mut out) == Ok(()));
    assert!(rt; out.as_slice() == b">12345".as_slice());
    assert!(rt; files.read("five", 4, &mut out) == Err(FileError::Big));
    assert!(rt; files.read("none", 4, &mut out) == Err(FileError::Failed));
    assert!(rt; out.as_slice() == b">12345".as_slice());
    Ok(())
}

#[test]
fn writes_to_the_standard_output(rt: HostRuntime) {
    let mut sink = RealSink::new(&rt);
    assert!(rt; sink.write(b"text\n") == Ok(5));
    assert!(rt; write_all(&mut sink, b"more\n") == Ok(()));
}
