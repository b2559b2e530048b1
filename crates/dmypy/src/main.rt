//! `dmypy`: a daemon that checks annotated Python files and answers commands on standard input.
#![tactic(auto)]

use pyc_console::{
    Counted, Disk, Job, Options, check_files, check_status, read_words, session, word_text,
};
use std::alloc::AllocError;
use std::env::{Env, FillError};
use std::process::ExitCode;

// the least room for a word
const WORD: usize = 256;

/// Reads the words of the command line and does what they ask for. Where they are no job, or memory runs out while they
/// are read, nothing is written to standard output and the status is 2.
fn main(rt: HostRuntime) -> ExitCode {
    let Ok(words) = program_words(&rt) else {
        let _ = eprintln!(rt; "error: out of memory");
        return ExitCode::from(2);
    };
    match read_words(rt.alloc(), words.as_slice()) {
        Ok(Job::Session(options)) => ExitCode::from(serve(&rt, &options)),
        Ok(Job::Check(options, files)) => ExitCode::from(check(&rt, &options, files.as_slice())),
        Err(usage) => {
            let _ = eprint!(rt; "{usage}");
            ExitCode::from(2)
        }
    }
}

// The words of the command line, the program's name first.
fn program_words(rt: &HostRuntime) -> Result<Vec<String>, AllocError> {
    let mut words = Vec::new(rt.alloc());
    for place in 0..usize::MAX {
        let Some(word) = word_at(rt, place)? else {
            break;
        };
        words.push(word)?;
    }
    Ok(words)
}

// The word at a place of the command line; behind the last one none. The room doubles until the word fits.
fn word_at(rt: &HostRuntime, place: usize) -> Result<Option<String>, AllocError> {
    let mut room = WORD;
    let mut bytes = Vec::new(rt.alloc());
    for _ in 0..usize::BITS {
        bytes.resize(room, 0u8)?;
        match rt.arg(place, bytes.as_mut_slice()) {
            Ok(length) => return Ok(Some(word_text(rt.alloc(), &bytes[..length])?)),
            Err(FillError::NotPresent) => return Ok(None),
            Err(FillError::TooLong) => room = room.saturating_add(room),
        }
    }
    Err(AllocError)
}

// Runs a session on standard input and output, and gives its status.
fn serve(rt: &HostRuntime, options: &Options) -> u8 {
    let mut reader = Counted::new(rt.stdin());
    let mut writer = Counted::new(rt.stdout());
    let mut err = Counted::new(rt.stderr());
    let mut sources = Disk::new(rt);
    session(
        rt.alloc(),
        &mut reader,
        &mut writer,
        &mut err,
        &mut sources,
        options,
    )
}

// Checks files of the disk, and gives the status. The report goes to standard output.
fn check(rt: &HostRuntime, options: &Options, files: &[String]) -> u8 {
    let mut out = Counted::new(rt.stdout());
    let mut err = Counted::new(rt.stderr());
    let mut sources = Disk::new(rt);
    check_status(&check_files(rt.alloc(), &mut sources, &mut out, &mut err, options, files))
}
