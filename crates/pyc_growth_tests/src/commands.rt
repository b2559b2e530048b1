//! Commands as calls on a daemon, of which a growth of one may be refused.

use crate::spending::spend;
use pyc_daemon::{Daemon, MemorySource, Options, Refusal, Status};
use pyc_names::beside;
use std::alloc::{AllocError, Global};
use std::process::Abort;
use std::test::Fail;

/// Options with room for each row.
const OPTIONS: Options = Options {
    ignore_missing: false,
    check_untyped: false,
    turns: 1_000_000,
};

/// The texts of the two files of a row; a file that is absent has none.
pub(crate) type Files = [&'static str; 2];

/// A command of a row, on one of its files, with the text that the file has from then on.
#[derive(Clone, Copy)]
pub(crate) enum Command {
    Add(usize, &'static str),
    Change(usize, &'static str),
    /// The source has this text.
    Update(usize, &'static str),
    Remove(usize),
    Check,
}

/// Commands, with what is expected of them. The second file may be the stub beside the first.
pub(crate) struct Row {
    pub(crate) paths: [&'static str; 2],
    pub(crate) commands: &'static [Command],
    /// For files, how many units they have, and the report of a fresh session over them.
    pub(crate) reports: &'static [(Files, usize, &'static str)],
    /// For the files of a completed check and those of the next one, how many units this one examines. Between equal
    /// files none is examined.
    pub(crate) counts: &'static [(Files, Files, usize)],
}

impl Row {
    /// How many units these files have, and their report.
    fn report(&self, files: Files) -> Option<(usize, &'static str)> {
        for (own, bodies, report) in self.reports {
            if *own == files {
                return Some((*bodies, *report));
            }
        }
        None
    }

    /// How many of these files are taken: a stub, and not the file beside it.
    fn count_taken(&self, files: Files) -> usize {
        let present = files.iter().filter(|text| !text.is_empty()).count();
        if present == 2 && beside(self.paths[1]) == self.paths[0] {
            1
        } else {
            present
        }
    }

    /// How many units a check of the files `now` examines after one of the files `then`.
    fn count(&self, then: Files, now: Files) -> Option<usize> {
        for (before, after, count) in self.counts {
            if *before == then && *after == now {
                return Some(*count);
            }
        }
        (then == now).then_some(0)
    }
}

/// What a command needs that takes memory.
#[derive(Drop)]
enum Prepared {
    Bytes(Vec<u8>),
    Source(MemorySource),
    Nothing,
}

/// Makes what a command needs.
fn prepare(alloc: Global, paths: [&str; 2], command: Command) -> Result<Prepared, AllocError> {
    match command {
        Command::Add(_, text) | Command::Change(_, text) => {
            Ok(Prepared::Bytes(text.as_bytes().to_vec(alloc)?))
        }
        Command::Update(file, text) => {
            let mut files = Vec::new(alloc);
            let path = String::from_str(alloc, paths[file])?;
            files.push((path, text.as_bytes().to_vec(alloc)?))?;
            Ok(Prepared::Source(MemorySource::new(files)))
        }
        Command::Remove(_) | Command::Check => Ok(Prepared::Nothing),
    }
}

/// Makes what each command of a row needs.
fn prepare_all(alloc: Global, row: &Row) -> Result<Vec<Prepared>, AllocError> {
    let mut all = Vec::new(alloc);
    for command in row.commands {
        all.push(prepare(alloc, row.paths, *command)?)?;
    }
    Ok(all)
}

/// A daemon with what is expected of it: the files that are present, those of the last completed check, and how many
/// units that check examined.
#[derive(Drop)]
struct Session<'a> {
    row: &'a Row,
    daemon: Daemon,
    now: Files,
    then: Files,
    examined: usize,
    /// How many commands were refused memory.
    refused: usize,
}

impl Session<'_> {
    /// Asserts that the status is the one that is expected.
    fn assert_status(&self, rt: &impl Abort) {
        let (bodies, _) = self.row.report(self.then).expect(rt, "a row of reports");
        let expected = Status {
            files: self.row.count_taken(self.then),
            bodies,
            rechecked: self.examined,
        };
        assert_eq!(rt; self.daemon.status(), expected);
    }

    /// Notes what became of a file, and answers whether it was kept.
    fn note_kept(
        &mut self,
        rt: &impl Abort,
        file: usize,
        text: &'static str,
        reply: Result<(), Refusal>,
        other: Option<Refusal>,
    ) -> bool {
        match (reply, other) {
            (Ok(()), None) => self.now[file] = text,
            (Err(Refusal::Memory), None) => self.refused = self.refused.saturating_add(1),
            (reply, other) => assert_eq!(rt; reply.err(), other),
        }
        reply.is_ok()
    }

    /// Checks, and answers whether the check was completed.
    fn check(&mut self, rt: &impl Abort) -> bool {
        match self.daemon.check() {
            Ok(report) => {
                let (_, expected) = self.row.report(self.now).expect(rt, "a row of reports");
                assert_eq!(rt; report.text.as_str(), expected);
                assert_eq!(rt; report.clean, expected.starts_with("Success"));
                let count = self.row.count(self.then, self.now);
                self.examined = count.expect(rt, "a row of counts");
                self.then = self.now;
                true
            }
            Err(_) => {
                self.refused = self.refused.saturating_add(1);
                false
            }
        }
    }

    /// Gives a command, and answers whether it was done.
    fn give(&mut self, rt: &impl Abort, command: Command, prepared: Prepared) -> bool {
        let is_done = match (command, prepared) {
            (Command::Add(file, text), Prepared::Bytes(bytes)) => {
                let other = (!self.now[file].is_empty()).then_some(Refusal::Present);
                let reply = self.daemon.add(self.row.paths[file].as_bytes(), bytes);
                self.note_kept(rt, file, text, reply, other)
            }
            (Command::Change(file, text), Prepared::Bytes(bytes)) => {
                let other = self.now[file].is_empty().then_some(Refusal::Absent);
                let reply = self.daemon.change(self.row.paths[file].as_bytes(), bytes);
                self.note_kept(rt, file, text, reply, other)
            }
            (Command::Update(file, text), Prepared::Source(mut source)) => {
                let path = self.row.paths[file].as_bytes();
                let reply = self.daemon.update(&mut source, path);
                self.note_kept(rt, file, text, reply, None)
            }
            (Command::Remove(file), _) => {
                let other = self.now[file].is_empty().then_some(Refusal::Absent);
                let reply = self.daemon.remove(self.row.paths[file].as_bytes());
                self.note_kept(rt, file, "", reply, other)
            }
            _ => self.check(rt),
        };
        self.assert_status(rt);
        is_done
    }
}

/// Gives the commands of a row to one daemon, after `spent` growths. Those that were refused are given again in their
/// order, and then the files are checked. Answers whether memory was refused.
pub(crate) fn is_given_again(
    rt: &impl Abort,
    alloc: Global,
    spent: usize,
    row: &Row,
) -> Result<bool, Fail> {
    let mut session = Session {
        row,
        daemon: Daemon::new(alloc, OPTIONS),
        now: ["", ""],
        then: ["", ""],
        examined: 0,
        refused: 0,
    };
    let mut again = Vec::with_capacity(alloc, row.commands.len())?;
    let all = prepare_all(alloc, row)?;
    spend(alloc, spent);
    for (command, prepared) in row.commands.iter().zip(all) {
        if !session.give(rt, *command, prepared) {
            again.push(*command)?;
        }
    }
    let refused = session.refused;
    assert!(rt; refused <= 1 && (refused == 1) == !again.is_empty());
    give_again(rt, alloc, &mut session, &again)?;
    Ok(refused == 1)
}

/// Gives commands again, and checks: each is done.
fn give_again(
    rt: &impl Abort,
    alloc: Global,
    session: &mut Session<'_>,
    again: &[Command],
) -> Result<(), Fail> {
    let before = session.refused;
    for command in again {
        let prepared = prepare(alloc, session.row.paths, *command)?;
        assert!(rt; session.give(rt, *command, prepared));
    }
    // (where no growth was refused before, one of this check may be)
    if !session.give(rt, Command::Check, Prepared::Nothing) {
        assert!(rt; before == 0 && session.give(rt, Command::Check, Prepared::Nothing));
    }
    Ok(())
}
