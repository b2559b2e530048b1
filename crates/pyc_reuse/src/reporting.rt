//! The report on files, from what came of their units.

ghost use Rattle.std.specs.Prelude.{◌≡◌, length, map, IfOk};
ghost use Rattle.pyc_report.specs.Report.{found_in, report_in, report_of};
ghost use Rattle.pyc_reuse.specs.FileResultView.{reported_in};
ghost use Rattle.pyc_reuse.specs.Reports.{reported_by};
ghost use Rattle.pyc_workspace.specs.Files.{file_in, files_in};

use crate::file_result::FileResult;
use pyc_report as reports;
use pyc_report::{Found, Report};
use pyc_workspace::File;
use std::alloc::{AllocError, Global};
use std::rc::Rc;

/// The report on these files, from the row of each. The only error is that memory runs out.
pub(crate) fn report_on(
    alloc: Global,
    files: &[Rc<File>],
    file_results: &[Rc<FileResult>],
) -> Result<Report, AllocError>
    requires { length file_results.now ≡ length files.now }
    ensures { IfOk result (λ report. report_in report
        ≡ report_of (reported_by (files_in files.now) (map (λ file_result. reported_in file_result.value)
        file_results.now))) }
{
    let found = reported_by(alloc, files, file_results)?;
    reports::report(alloc, &found)
}

/// What is reported of each file.
fn reported_by<'a>(
    alloc: Global,
    files: &'a [Rc<File>],
    file_results: &'a [Rc<FileResult>],
) -> Result<Vec<Found<'a>>, AllocError>
    requires { length file_results.now ≡ length files.now }
    ensures { IfOk result (λ found. map found_in found.items
        ≡ reported_by (files_in files.now) (map (λ file_result. reported_in file_result.value) file_results.now)) }
{
    let mut all = Vec::with_capacity(alloc, files.len())?;
    for index in 0..files.len() {
        let found = reported_of(alloc, &files[index], &file_results[index])?;
        all.push(found)?;
    }
    Ok(all)
}

/// What is reported of a file.
fn reported_of<'a>(
    alloc: Global,
    file: &'a File,
    file_result: &'a FileResult,
) -> Result<Found<'a>, AllocError>
    ensures { IfOk result (λ found. found_in found
        ≡ record { path = (file_in file.now).path; messages = reported_in file_result.now }) }
{
    let messages = file_result.reported(alloc)?;
    Ok(Found {
        path: file.path(),
        messages,
    })
}
