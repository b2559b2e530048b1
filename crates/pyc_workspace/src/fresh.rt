//! The report on files, from checks of their units; the interfaces of files.

ghost use Rattle.std.specs.Prelude.{◌≡◌, IfOk, map, take, drop};
ghost use Rattle.pyc_recorder.specs.CheckedView.{messages_of};
ghost use Rattle.pyc_names.specs.Interfaces.{interface_of};
ghost use Rattle.pyc_names.specs.InterfaceView.{interfaces_in};
ghost use Rattle.pyc_report.specs.Message.{message_in};
ghost use Rattle.pyc_report.specs.Report.{found_in, report_in, report_of};
ghost use Rattle.pyc_workspace.specs.Files.{file_in, files_in};
ghost use Rattle.pyc_workspace.specs.Fresh as spec;
ghost use Rattle.pyc_workspace.specs.Fresh.{reported_by, reported_of};
ghost use Rattle.pyc_workspace.specs.ReportedView.{reported_in};

use crate::file::File;
use pyc_body::Checked;
use pyc_names::Interface;
use pyc_report as reports;
use pyc_report::{Found, Message, Report};
use std::alloc::{AllocError, Global};
use std::rc::Rc;

/// The report on these files, from a check of each of their units, in the order of the units. The only error is that
/// memory runs out. The call is for users of the library: the program does not make it.
pub fn report(alloc: Global, files: &[Rc<File>], checks: &[Checked]) -> Result<Report, AllocError>
    ensures { IfOk result (λ report. report_in report
        ≡ report_of (reported_by (files_in files.now) (map messages_of checks.now))) }
{
    let reported = reported_by(alloc, files, checks)?;
    let found = found_of(alloc, &reported)?;
    reports::report(alloc, &found)
}

/// The interfaces of the files, which they share. The only error is that memory runs out.
pub fn interfaces_of(alloc: Global, files: &[Rc<File>]) -> Result<Vec<Rc<Interface>>, AllocError>
    ensures { IfOk result (λ interfaces. ∥ interfaces_in interfaces.items
        ≡ map interface_of (spec.sources_of (files_in files.now)) ∥₁) }
{
    let mut interfaces = Vec::with_capacity(alloc, files.len())?;
    for file in files {
        let interface = file.source().shared_interface().clone()?;
        interfaces.push(interface)?;
    }
    Ok(interfaces)
}

/// What is reported of a file: its path, and the messages that no ignore comment suppresses.
#[derive(Drop)]
struct Reported<'a> {
    path: &'a str,
    messages: Vec<Message>,
}

/// What is reported of each file.
fn reported_by<'a>(
    alloc: Global,
    files: &'a [Rc<File>],
    checks: &[Checked],
) -> Result<Vec<Reported<'a>>, AllocError>
    ensures { IfOk result (λ reported. map reported_in reported.items
        ≡ reported_by (files_in files.now) (map messages_of checks.now)) }
{
    let mut all = Vec::with_capacity(alloc, files.len())?;
    let mut rest = checks;
    for file in files {
        let (own, others) = split_checks(rest, file.count_units());
        let reported = reported_of(alloc, file, own)?;
        all.push(reported)?;
        rest = others;
    }
    Ok(all)
}

/// So many of these checks, or all if there are fewer, and the rest.
fn split_checks(checks: &[Checked], count: usize) -> (&[Checked], &[Checked])
    ensures own { result.0.now ≡ take count checks.now }
    ensures rest { result.1.now ≡ drop count checks.now }
{
    let count = count.min(checks.len());
    (&checks[..count], &checks[count..])
}

/// What is reported of a file.
fn reported_of<'a>(
    alloc: Global,
    file: &'a File,
    checks: &[Checked],
) -> Result<Reported<'a>, AllocError>
    ensures { IfOk result (λ reported. reported_in reported ≡ reported_of (file_in file.now)
        (map messages_of checks.now)) }
{
    let messages = file.unsuppressed(alloc, checks)?;
    Ok(Reported {
        path: file.path(),
        messages,
    })
}

/// What is reported of files, borrowed.
fn found_of<'a>(alloc: Global, reported: &'a [Reported<'_>]) -> Result<Vec<Found<'a>>, AllocError>
    ensures { IfOk result (λ found. map found_in found.items ≡ map reported_in reported.now) }
{
    let mut all = Vec::with_capacity(alloc, reported.len())?;
    for one in reported {
        let messages = borrowed(alloc, &one.messages)?;
        all.push(Found {
            path: one.path,
            messages,
        })?;
    }
    Ok(all)
}

/// These messages, borrowed.
fn borrowed(alloc: Global, messages: &[Message]) -> Result<Vec<&Message>, AllocError>
    ensures { IfOk result (λ all. map (λ message. message_in message.now) all.items ≡ map message_in messages.now) }
{
    let mut all = Vec::with_capacity(alloc, messages.len())?;
    for message in messages {
        all.push(message)?;
    }
    Ok(all)
}
