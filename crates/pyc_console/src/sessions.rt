//! One session, its status and what is reported of its end.

ghost use Rattle.std.specs.Prelude.{◌≡◌, Bool, Result};
ghost use Rattle.pyc_daemon.specs.Counted.{inner_of, calls_of, faults_of, zeros_of, IsSound};
ghost use Rattle.pyc_daemon.specs.Counted.{GivesRoom};
ghost use Rattle.pyc_daemon.specs.Runs.{Runs, ComesOfRun, streams};
ghost use Rattle.pyc_session.specs.declared.ending.End.{End};
ghost use Rattle.pyc_session.specs.declared.ending.RunFault.{RunFault};
ghost use Rattle.pyc_console.specs.Lines.{Writes};
ghost use Rattle.pyc_console.specs.Status.{ending_line, status_of};

use pyc_daemon::{Counted, End, Options, RunFault, Sources, run, write_parts};
use std::alloc::Global;
use std::io::{Read, Write};

/// Runs a session over `reader` and `writer`, reports on `err` why it stopped if it stopped in the middle, and answers
/// the program's status: 0 after `stop` or the end of the input, else 2.
pub fn session<R: Read, W: Write, E: Write, S: Sources>(
    alloc: Global,
    reader: &mut Counted<R>,
    writer: &mut Counted<W>,
    err: &mut Counted<E>,
    sources: &mut S,
    options: &Options,
) -> u8
    requires unread { (calls_of reader.old ≡ 0) × (faults_of reader.old ≡ 0) × (zeros_of reader.old ≡ 0) }
    requires unwritten { (calls_of writer.old ≡ 0) × (faults_of writer.old ≡ 0) × (zeros_of writer.old ≡ 0) }
    // The session ran, its answer comes of what its reader and its writer met, and its status and the line on why it
    // stopped are reported.
    ensures session { (answer : Result End RunFault)
        × Runs S.step options.now
        (streams sources.old (R.remaining (inner_of reader.old)) (W.contents (inner_of writer.old)))
        (streams sources.new (R.remaining (inner_of reader.new)) (W.contents (inner_of writer.new))) answer
        × ComesOfRun answer reader.old reader.new writer.old writer.new options.now.turns
        × (result ≡ status_of answer)
        × (failed : Bool) × Writes failed err.old err.new (E.contents (inner_of err.old))
        (E.contents (inner_of err.new)) (ending_line answer) }
    ensures sound { result ≡ 0 → IsSound reader.old reader.new × IsSound writer.old writer.new }
    // No read was without room and no write without a byte, however it ended.
    ensures buffers { GivesRoom reader.old reader.new × GivesRoom writer.old writer.new × GivesRoom err.old err.new }
{
    let answer = run(alloc, reader, writer, sources, options);
    report_ending(err, &answer);
    session_status(&answer)
}

// Writes the line on why a session stopped in the middle, if it did.
fn report_ending<E: Write>(err: &mut Counted<E>, answer: &Result<End, RunFault>)
    ensures reports { (failed : Bool) × Writes failed err.old err.new (E.contents (inner_of err.old))
        (E.contents (inner_of err.new)) (ending_line answer.now) }
    ensures buffers { GivesRoom err.old err.new }
{
    if let Err(why) = answer {
        let _ = write_parts(err, &["dmypy: ", why.text(), "\n"]);
    }
}

/// The status of the program after a session.
pub fn session_status(answer: &Result<End, RunFault>) -> u8
    ensures { result ≡ status_of answer.now }
{
    match answer {
        Ok(End::Stopped | End::EndOfInput) => 0,
        Ok(End::Broken) | Err(_) => 2,
    }
}
