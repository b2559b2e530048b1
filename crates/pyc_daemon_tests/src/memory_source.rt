//! Files in memory, as they are fetched.

use pyc_daemon::{FetchFault, MemorySource, Sources};
use std::alloc::{AllocError, Global};
use std::test::Fail;

fn file(alloc: Global, path: &str, bytes: &[u8]) -> Result<(String, Vec<u8>), AllocError> {
    let mut copy = Vec::new(alloc);
    copy.extend_from_slice(bytes)?;
    Ok((String::from_str(alloc, path)?, copy))
}

// A source with these files.
fn source_of(alloc: Global, rows: &[(&str, &[u8])]) -> Result<MemorySource, AllocError> {
    let mut files = Vec::new(alloc);
    for (path, bytes) in rows {
        files.push(file(alloc, path, bytes)?)?;
    }
    Ok(MemorySource::new(files))
}

// Files, of which two have one path.
const FILES: &[(&str, &[u8])] = &[
    ("a.py", b"x: int = 1\n"),
    ("b.py", b""),
    ("b.py", b"y = 2\n"),
];

#[test]
fn first_file_of_a_path_serves(rt: HostRuntime) -> Result<(), Fail> {
    let mut sources = source_of(rt.alloc(), FILES)?;
    assert_eq!(rt;
        sources.fetch(rt.alloc(), "a.py")?.as_slice(),
        b"x: int = 1\n".as_slice()
    );
    assert_eq!(rt; sources.fetch(rt.alloc(), "b.py")?.len(), 0);
    assert_eq!(rt; sources.failures(), 0);
    Ok(())
}

// A file.
const ONE: &[(&str, &[u8])] = &[("a.py", b"x = 1\n")];

// Paths at which no file is.
const MISSING: &[&str] = &["z.py", "a.p", "a.py.", ""];

#[test]
fn missing_files_are_counted(rt: HostRuntime) -> Result<(), Fail> {
    let mut sources = source_of(rt.alloc(), ONE)?;
    for path in MISSING {
        assert_eq!(rt;
            sources.fetch(rt.alloc(), path).err(),
            Some(FetchFault::Unreadable),
            "at {path:?}"
        );
    }
    assert_eq!(rt; sources.failures(), 4);
    Ok(())
}

#[test]
fn large_file_is_cut(rt: HostRuntime) -> Result<(), Fail> {
    let bytes = vec![in rt.alloc(); b'a'; 1_048_578]?;
    let files = vec![in rt.alloc(); (String::from_str(rt.alloc(), "large.py")?, bytes)]?;
    let mut sources = MemorySource::new(files);
    assert_eq!(rt; sources.fetch(rt.alloc(), "large.py")?.len(), 1_048_577);
    Ok(())
}
