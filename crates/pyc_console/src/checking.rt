//! One check of the files that the command line names.

ghost use Rattle.std.specs.Prelude.{◌≡◌, ◌≢◌, ◌⊎◌, ◌<◌, ◌++◌, [], Bool, true, false, codes, map, string_bytes};
ghost use Rattle.std.specs.Prelude.{Err, IfOk, if◌then◌else◌};
ghost use Rattle.pyc_daemon.specs.Counted.{inner_of, faults_of, zeros_of, IsSound, GivesRoom};
ghost use Rattle.pyc_daemon.specs.Replies.{joined};
ghost use Rattle.pyc_session.specs.Event.{Event, FetchStep};
ghost use Rattle.pyc_workspace.specs.Fresh.{fresh};
ghost use Rattle.pyc_workspace.specs.Workspace.{taken};
ghost use Rattle.pyc_console.specs.CheckFiles.{Checks, Prints, check_fault_line, end_line, exit_status, outside};
ghost use Rattle.pyc_console.specs.Lines.{program_line};
ghost use Rattle.pyc_console.specs.Updates.{UpdatesAll, UpdatesOne, WritesOn, has_failed};

use pyc_daemon::{Counted, Daemon, Options, Refusal, RunFault, Sources, write_bytes, write_parts};
use std::alloc::Global;
use std::io::Write;
use std::mem;

/// Why a check of files did not print its report whole.
#[derive(Clone, Copy, Debug, PartialEq, Eq)]
pub enum CheckFault {
    /// The check wants memory, or a file did and no line on `err` says so. Nothing was printed.
    Memory,
    /// A write to the output failed, or took no byte.
    Write,
}

/// What updates came to.
#[derive(Clone, Copy)]
struct Updates {
    /// Whether a file was refused.
    refused: bool,
    /// Whether one was refused for want of memory, and no line says so.
    untold: bool,
}

/// Checks the files of these paths, whose bytes the source hands over, prints the report to `out`, and answers the
/// status: 0 where all files are accepted and have no error, 1 where all are accepted and have one, else 2. Each file
/// that is refused is reported on a line of `err`, and so is a fault. Where a write to `err` fails, nothing more is
/// written there, and the check goes on; but where no line says of a file that it was refused for want of memory, no
/// report is printed. The files are not dropped: their memory goes back when the process ends.
pub fn check_files<S: Sources, O: Write, E: Write>(
    alloc: Global,
    sources: &mut S,
    out: &mut Counted<O>,
    err: &mut Counted<E>,
    options: &Options,
    files: &[String],
) -> Result<u8, CheckFault>
    requires unreported { (faults_of err.old ≡ 0) × (zeros_of err.old ≡ 0) }
    // All files are updated and the report is printed; what is reported on `err` is whole, or begins what is to be
    // reported.
    ensures checks { (failed : Bool) × Checks S.step options.now
        (outside sources.old out.old err.old (O.contents (inner_of out.old)) (E.contents (inner_of err.old)))
        (outside sources.new out.new err.new (O.contents (inner_of out.new)) (E.contents (inner_of err.new)))
        (map string_bytes files.now) result failed }
    // It is whole where no write to `err` failed.
    ensures whole { IsSound err.old err.new → Checks S.step options.now
        (outside sources.old out.old err.old (O.contents (inner_of out.old)) (E.contents (inner_of err.old)))
        (outside sources.new out.new err.new (O.contents (inner_of out.new)) (E.contents (inner_of err.new)))
        (map string_bytes files.now) result false }
    ensures sound { IfOk result (λ status. status < 2 → IsSound out.old out.new × IsSound err.old err.new) }
    // No write was without a byte, however it ended.
    ensures buffers { GivesRoom out.old out.new × GivesRoom err.old err.new }
{
    let mut daemon = Daemon::new(alloc, *options);
    let updates = update_all(&mut daemon, sources, err, files);
    let answer = print_report(&mut daemon, out, updates);
    mem::forget(daemon);
    report_end(err, &answer);
    answer
}

/// The status of the program after a check of files.
pub fn check_status(answer: &Result<u8, CheckFault>) -> u8
    ensures { result ≡ exit_status answer.now }
{
    match answer {
        Ok(status) => *status,
        Err(_) => 2,
    }
}

// Updates the files in order.
fn update_all<S: Sources, E: Write>(
    daemon: &mut Daemon,
    sources: &mut S,
    err: &mut Counted<E>,
    files: &[String],
) -> Updates
    requires unreported { (faults_of err.old ≡ 0) × (zeros_of err.old ≡ 0) }
    ensures updates { (failed : Bool) × UpdatesAll S.step sources.old sources.new err.old err.new
        (E.contents (inner_of err.old)) (E.contents (inner_of err.new)) daemon.old daemon.new
        (map string_bytes files.now) result.refused result.untold failed }
    ensures buffers { GivesRoom err.old err.new }
{
    let mut refused = false;
    let mut untold = false;
    for file in files {
        let one = update_one(daemon, sources, err, file);
        refused |= one.refused;
        untold |= one.untold;
    }
    Updates { refused, untold }
}

// Updates a file.
fn update_one<S: Sources, E: Write>(
    daemon: &mut Daemon,
    sources: &mut S,
    err: &mut Counted<E>,
    file: &str,
) -> Updates
    ensures update { (event : Event) × FetchStep S.step sources.old event.fetched sources.new
        × UpdatesOne err.old err.new (E.contents (inner_of err.old)) (E.contents (inner_of err.new)) file.now
        daemon.old daemon.new event result.refused result.untold }
    ensures buffers { GivesRoom err.old err.new }
{
    match daemon.update(sources, file.as_bytes()) {
        Ok(()) => Updates {
            refused: false,
            untold: false,
        },
        Err(why) => {
            report_refusal(err, file, why.text());
            Updates {
                refused: true,
                untold: is_untold(err, why),
            }
        }
    }
}

// Whether a file was refused for want of memory, and a write has failed.
fn is_untold<E: Write>(err: &Counted<E>, why: Refusal) -> bool
    ensures { result ≡ false → has_failed err.now ≡ true → why ≢ Refusal.Memory }
{
    why == Refusal::Memory && has_failed(err)
}

// Whether a write has failed.
fn has_failed<E: Write>(err: &Counted<E>) -> bool
    ensures { result ≡ has_failed err.now }
{
    !(err.faults() == 0 && err.zeros() == 0)
}

// Writes the line on a file that is refused, from its path and the text of the refusal.
fn report_refusal<'a, E: Write>(err: &mut Counted<E>, file: &'a str, text: &'a str)
    ensures reports { WritesOn err.old err.new (E.contents (inner_of err.old)) (E.contents (inner_of err.new))
        (program_line (file.now ++ (codes ": " ++ text.now))) }
    ensures buffers { GivesRoom err.old err.new }
{
    print_parts(err, &["dmypy: ", file, ": ", text]);
}

// Writes the report on the files that were accepted, and answers the status.
fn print_report<O: Write>(
    daemon: &mut Daemon,
    out: &mut Counted<O>,
    updates: Updates,
) -> Result<u8, CheckFault>
    ensures prints { Prints result (fresh daemon.old.options (taken daemon.old.present)) updates.refused out.old out.new
        (O.contents (inner_of out.old)) (O.contents (inner_of out.new)) }
    ensures told { (result ≡ Err CheckFault.Memory) ⊎ (updates.untold ≡ false) }
    ensures buffers { GivesRoom out.old out.new }
{
    if updates.untold {
        return Err(CheckFault::Memory);
    }
    let Ok(report) = daemon.check() else {
        return Err(CheckFault::Memory);
    };
    match write_bytes(out, report.text.as_bytes()) {
        Ok(()) => Ok(report_status(updates.refused, report.clean)),
        Err(_) => Err(CheckFault::Write),
    }
}

// The status of a check that printed its report.
fn report_status(refused: bool, clean: bool) -> u8
    ensures { result ≡ (if refused then 2 else if clean then 0 else 1) }
{
    if refused {
        2
    } else if clean {
        0
    } else {
        1
    }
}

// Writes the line on why the report was not printed, or in part alone.
fn report_end<E: Write>(err: &mut Counted<E>, answer: &Result<u8, CheckFault>)
    ensures reports { WritesOn err.old err.new (E.contents (inner_of err.old)) (E.contents (inner_of err.new))
        (end_line answer.now) }
    ensures buffers { GivesRoom err.old err.new }
{
    if let Err(fault) = answer {
        report_fault(err, *fault);
    }
}

// Writes the line on a fault of a check.
fn report_fault<E: Write>(err: &mut Counted<E>, fault: CheckFault)
    ensures reports { WritesOn err.old err.new (E.contents (inner_of err.old)) (E.contents (inner_of err.new))
        (check_fault_line fault) }
    ensures buffers { GivesRoom err.old err.new }
{
    match fault {
        CheckFault::Memory => print_parts(err, &["dmypy: ", Refusal::Memory.text()]),
        CheckFault::Write => print_parts(err, &["dmypy: ", RunFault::Write.text(), "\n"]),
    }
}

// Writes texts, unless a write has failed before.
fn print_parts<E: Write>(err: &mut Counted<E>, parts: &[&str])
    requires some { joined parts.now ≡ [] → ⊥ }
    ensures reports { WritesOn err.old err.new (E.contents (inner_of err.old)) (E.contents (inner_of err.new))
        (joined parts.now) }
    ensures buffers { GivesRoom err.old err.new }
{
    if !has_failed(err) {
        let _ = write_parts(err, parts);
    }
}
