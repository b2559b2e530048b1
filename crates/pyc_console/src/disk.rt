//! A source whose files are those below the current folder.

ghost use Rattle.std.specs.Prelude.{◌≡◌, ◌≤◌, IfOk, IfSome, take, vec_len, ⊤};

use pyc_daemon::{FetchFault, MOST_FETCHED, Sources};
use std::alloc::Global;
use std::fs;
use std::io::{self, ErrorKind, Read};
use std::rt::Files;

/// The files of a file system. A path is taken from the current folder on, unless it begins with `/`; which paths may
/// be fetched is for the caller to say. `R` is a runtime, or a reference to one.
#[derive(Drop)]
pub struct Disk<R> {
    files: R,
    failures: u64,
}

impl<R: Files> Disk<R> {
    /// A source that reads from `files`, and has failed at no fetch yet.
    pub fn new(files: R) -> Self
        ensures { ⟦<Disk<R> as Sources>⟧.failures result ≡ 0 }
    {
        Disk { files, failures: 0 }
    }
}

impl<R: Files> Sources for Disk<R> {
    ghost failures = { λ disk. disk.failures };

    // What the file system holds is not known, so that a fetch may hand over anything.
    ghost step = { λ _ _ _ _. ⊤ };

    fn failures(&self) -> u64 {
        self.failures
    }

    fn fetch(&mut self, alloc: Global, path: &str) -> Result<Vec<u8>, FetchFault> {
        match read_first(alloc, &self.files, path) {
            Ok(bytes) => Ok(bytes),
            Err(error) if error.kind() == ErrorKind::OutOfMemory => Err(FetchFault::Memory),
            Err(_) => {
                self.failures = self.failures.saturating_add(1);
                Err(FetchFault::Unreadable)
            }
        }
    }
}

// The first bytes of the regular file at `path`.
fn read_first<R: Files>(alloc: Global, files: &R, path: &str) -> io::Result<Vec<u8>>
    ensures { IfOk result (λ bytes. vec_len bytes ≤ MOST_FETCHED) }
{
    // Opening a pipe or a device could wait, and what it gives is no file.
    if !fs::metadata(files, path)?.is_file() {
        return Err(io::Error::from(ErrorKind::InvalidInput));
    }
    first_bytes(alloc, fs::open(files, path)?)
}

/// The first bytes that a reader gives, [`MOST_FETCHED`] at most. Fails as the reader does, or for want of memory.
pub fn first_bytes<R: Read + Drop>(alloc: Global, reader: R) -> io::Result<Vec<u8>>
    ensures most { IfOk result (λ bytes. vec_len bytes ≤ MOST_FETCHED) }
    ensures first { IfOk result (λ bytes. IfSome (R.remaining reader) (λ left. bytes.items ≡ take MOST_FETCHED left)) }
{
    let mut bytes = Vec::new(alloc);
    reader.take(MOST_FETCHED as u64).read_to_end(&mut bytes)?;
    // `take` lets no more through. The cut says so where the reader's bytes are not known.
    bytes.truncate(MOST_FETCHED);
    Ok(bytes)
}
