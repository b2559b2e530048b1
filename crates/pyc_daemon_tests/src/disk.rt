//! Fetches from a folder of the disk, and from readers that fail.

use pyc_console::{Disk, first_bytes};
use pyc_daemon::{FetchFault, Sources};
use std::io::{self, ErrorKind, Read};
use std::test::Fail;
use std::{env, fs, process};

/// A reader that fails at each call.
#[derive(Drop)]
struct Faulty(ErrorKind);

impl Read for Faulty {
    fn read(&mut self, _buf: &mut [u8]) -> io::Result<usize> {
        Err(io::Error::from(self.0))
    }
}

#[test]
fn what_was_written_is_fetched(rt: HostRuntime) -> Result<(), Fail> {
    let folder = env::temp_dir(&rt)?;
    let path = format!(in rt.alloc();
        "{}/dmypy-{}.py",
        folder.display(),
        process::id(rt.process())
    )?;
    fs::write(&rt, path.as_str(), "x: int = 1\n")?;
    let mut disk = Disk::new(&rt);
    let fetched = disk.fetch(rt.alloc(), path.as_str());
    fs::remove_file(&rt, path.as_str())?;
    assert_eq!(rt; fetched?.as_slice(), b"x: int = 1\n".as_slice());
    assert_eq!(rt; disk.failures(), 0);
    assert_eq!(rt;
        disk.fetch(rt.alloc(), path.as_str()).err(),
        Some(FetchFault::Unreadable)
    );
    assert_eq!(rt; disk.failures(), 1);
    Ok(())
}

// Folders, devices, files that are not there, and what is no path.
const UNREADABLE: &[&str] = &[".", "/dev/null", "no_such_folder/a.py", "", "a\0.py"];

#[test]
fn folders_devices_and_missing_files_are_counted(rt: HostRuntime) -> Result<(), Fail> {
    let mut disk = Disk::new(&rt);
    for path in UNREADABLE {
        assert_eq!(rt;
            disk.fetch(rt.alloc(), path).err(),
            Some(FetchFault::Unreadable),
            "at {path:?}"
        );
    }
    assert_eq!(rt; disk.failures(), 5);
    Ok(())
}

#[test]
fn reading_stops_at_the_limit(rt: HostRuntime) -> Result<(), Fail> {
    assert_eq!(rt; first_bytes(rt.alloc(), io::repeat(b'a'))?.len(), 1_048_577);
    Ok(())
}

#[test]
fn fault_after_some_bytes_is_reported(rt: HostRuntime) -> Result<(), Fail> {
    let reader = b"x = 1\n".as_slice().chain(Faulty(ErrorKind::BrokenPipe));
    let fault = first_bytes(rt.alloc(), reader)
        .err()
        .map(|error| error.kind());
    assert_eq!(rt; fault, Some(ErrorKind::BrokenPipe));
    Ok(())
}
