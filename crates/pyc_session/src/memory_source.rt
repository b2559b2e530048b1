//! A source whose files are held in memory.

ghost use Rattle.std.specs.Prelude.{◌≡◌, ◌≤◌, IfOk, map, take, vec_len};
ghost use Rattle.std.specs.Option.{option_copied};
ghost use Rattle.pyc_session.specs.MemorySource.{bytes_at, file_in};

use crate::sources::{FetchFault, MOST_FETCHED, Sources};
use std::alloc::{AllocError, Global};

/// Paths, each with its bytes. Where two are equal, the first one serves. It is for users of the library: the program
/// has none.
#[derive(Drop)]
pub struct MemorySource {
    files: Vec<(String, Vec<u8>)>,
    failures: u64,
}

impl MemorySource {
    ghost use Rattle.pyc_session.specs.MemorySource.{files_of, file_in};

    /// A source of these files, that has failed at no fetch yet.
    pub fn new(files: Vec<(String, Vec<u8>)>) -> Self
        ensures files { files_of result ≡ map file_in files.items }
        ensures failures { ⟦<MemorySource as Sources>⟧.failures result ≡ 0 }
    {
        MemorySource { files, failures: 0 }
    }
}

impl Sources for MemorySource {
    ghost use Rattle.pyc_session.specs.MemorySource.{failures_of, Fetches};

    ghost failures = { failures_of };

    ghost step = { Fetches };

    fn failures(&self) -> u64 {
        self.failures
    }

    fn fetch(&mut self, alloc: Global, path: &str) -> Result<Vec<u8>, FetchFault> {
        let Some(bytes) = bytes_at(&self.files, path) else {
            self.failures = self.failures.saturating_add(1);
            return Err(FetchFault::Unreadable);
        };
        Ok(first_bytes(alloc, bytes)?)
    }
}

/// The bytes of the first file of this path.
fn bytes_at<'a>(files: &'a [(String, Vec<u8>)], path: &str) -> Option<&'a [u8]>
    ensures { option_copied result ≡ bytes_at (map file_in files.now) path.now }
{
    for (name, bytes) in files {
        if name.as_str() == path {
            return Some(bytes.as_slice());
        }
    }
    None
}

/// A copy of the first of these bytes.
fn first_bytes(alloc: Global, bytes: &[u8]) -> Result<Vec<u8>, AllocError>
    ensures first { IfOk result (λ copy. copy.items ≡ take MOST_FETCHED bytes.now) }
    ensures most { IfOk result (λ copy. vec_len copy ≤ MOST_FETCHED) }
{
    let mut copy = Vec::new(alloc);
    copy.extend_from_slice(&bytes[..MOST_FETCHED.min(bytes.len())])?;
    Ok(copy)
}
