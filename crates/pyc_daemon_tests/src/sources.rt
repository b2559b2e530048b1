//! Sessions that fetch the files of a source, also of one that wants memory.

ghost use Rattle.std.specs.Prelude.{⊤};

use crate::fakes::{NEVER, OPTIONS, ShortReads, Sink};
use pyc_daemon::{Counted, Daemon, End, FetchFault, MemorySource, Refusal, RunFault, Sources, run};
use std::alloc::{AllocError, Global};
use std::test::Fail;

// A source with `a.py` alone, which has one error.
fn source(alloc: Global) -> Result<MemorySource, AllocError> {
    let bytes = Vec::from_slice(alloc, b"x: int = \"a\"\n")?;
    let mut files = Vec::new(alloc);
    files.push((String::from_str(alloc, "a.py")?, bytes))?;
    Ok(MemorySource::new(files))
}

// The answer of a session over this input and this source, and what it writes.
fn fetching(
    alloc: Global,
    input: &str,
    sources: &mut MemorySource,
) -> (Result<End, RunFault>, Vec<u8>) {
    let mut kept = Vec::new(alloc);
    let mut reader = Counted::new(ShortReads::new(input.as_bytes(), NEVER));
    let mut writer = Counted::new(Sink::new(&mut kept));
    let answer = run(alloc, &mut reader, &mut writer, sources, &OPTIONS);
    (answer, kept)
}

// Inputs, with the replies to them and how the session ends.
const FETCHED: &[(&str, &str, End)] = &[
    (
        "update a.py\nupdate z.py\nupdate ../q.py\n",
        "ok\nrefused 10 unreadable\nrefused 2 path\n",
        End::EndOfInput,
    ),
    (
        "update z.py\nupdate a.py\nupdate a.py\ncheck\nstop\n",
        "refused 10 unreadable\nok\nok\na.py:1: error: Incompatible types in assignment (expression has type \"str\", variable has type \"int\")  [assignment]\nFound 1 error in 1 file (checked 1 source file)\nstatus 1\nok\n",
        End::Stopped,
    ),
];

#[test]
fn files_of_a_source_are_fetched(rt: HostRuntime) -> Result<(), Fail> {
    for (input, replies, end) in FETCHED {
        let mut sources = source(rt.alloc())?;
        let (answer, kept) = fetching(rt.alloc(), input, &mut sources);
        assert_eq!(rt; kept.as_slice(), replies.as_bytes(), "{input:?}");
        assert!(rt; answer == Ok(*end), "{input:?}");
        assert_eq!(rt; sources.failures(), 1, "{input:?}");
    }
    Ok(())
}

// A source whose fetch of number `wanting`, from 0, wants memory; the others are those of the source inside it.
#[derive(Drop)]
pub(crate) struct Wanting {
    inside: MemorySource,
    wanting: usize,
    fetches: usize,
}

impl Wanting {
    // That source over one with `a.py` alone.
    pub(crate) fn new(alloc: Global, wanting: usize) -> Result<Self, AllocError> {
        Ok(Wanting {
            inside: source(alloc)?,
            wanting,
            fetches: 0,
        })
    }
}

impl Sources for Wanting {
    ghost failures = { λ source. ⟦<MemorySource as Sources>⟧.failures source.inside };

    // Which fetch wants memory, no contract says.
    ghost step = { λ _ _ _ _. ⊤ };

    fn failures(&self) -> u64 {
        self.inside.failures()
    }

    fn fetch(&mut self, alloc: Global, path: &str) -> Result<Vec<u8>, FetchFault> {
        let fetch = self.fetches;
        self.fetches = fetch.saturating_add(1);
        if fetch == self.wanting {
            return Err(FetchFault::Memory);
        }
        self.inside.fetch(alloc, path)
    }
}

// Inputs, with the number of the fetch that wants memory, and the replies: that of the first file, of a file that is
// present, and of one that the source does not have. After a refused `update` all is as before.
const WANTING: &[(&str, usize, &str)] = &[
    (
        "update a.py\ncheck\nstatus\nupdate a.py\ncheck\nstatus\n",
        0,
        "refused 9 memory\nSuccess: no issues found in 0 source files\nstatus 0\nfiles 0 bodies 0 rechecked 0\nok\na.py:1: error: Incompatible types in assignment (expression has type \"str\", variable has type \"int\")  [assignment]\nFound 1 error in 1 file (checked 1 source file)\nstatus 1\nfiles 1 bodies 2 rechecked 2\n",
    ),
    (
        "add a.py 11\nx: int = 1\ncheck\nupdate a.py\nstatus\ncheck\nstatus\nupdate a.py\ncheck\nstatus\n",
        0,
        "ok\nSuccess: no issues found in 1 source file\nstatus 0\nrefused 9 memory\nfiles 1 bodies 2 rechecked 2\nSuccess: no issues found in 1 source file\nstatus 0\nfiles 1 bodies 2 rechecked 0\nok\na.py:1: error: Incompatible types in assignment (expression has type \"str\", variable has type \"int\")  [assignment]\nFound 1 error in 1 file (checked 1 source file)\nstatus 1\nfiles 1 bodies 2 rechecked 2\n",
    ),
    (
        "update ../a.py\nupdate z.py\nupdate z.py\nupdate z.py\n",
        1,
        "refused 2 path\nrefused 10 unreadable\nrefused 9 memory\nrefused 10 unreadable\n",
    ),
];

#[test]
fn fetches_that_want_memory(rt: HostRuntime) -> Result<(), Fail> {
    for (input, wanting, replies) in WANTING {
        let mut kept = Vec::new(rt.alloc());
        let mut sources = Wanting::new(rt.alloc(), *wanting)?;
        let mut reader = Counted::new(ShortReads::new(input.as_bytes(), NEVER));
        let mut writer = Counted::new(Sink::new(&mut kept));
        let answer = run(rt.alloc(), &mut reader, &mut writer, &mut sources, &OPTIONS);
        assert!(rt; answer == Ok(End::EndOfInput), "{input:?}");
        assert_eq!(rt; kept.as_slice(), replies.as_bytes(), "{input:?}");
    }
    Ok(())
}

#[test]
fn fetch_that_wants_memory_changes_nothing(rt: HostRuntime) -> Result<(), Fail> {
    let mut daemon = Daemon::new(rt.alloc(), OPTIONS);
    let mut sources = Wanting::new(rt.alloc(), 1)?;
    assert!(rt; daemon.update(&mut sources, b"a.py").is_ok());
    assert!(rt; !daemon.check()?.clean);
    let before = daemon.status();
    assert!(rt; daemon.update(&mut sources, b"a.py") == Err(Refusal::Memory));
    assert_eq!(rt; sources.failures(), 0);
    assert!(rt; daemon.status() == before);
    assert!(rt; !daemon.check()?.clean);
    assert_eq!(rt; daemon.status().rechecked, 0);
    Ok(())
}
