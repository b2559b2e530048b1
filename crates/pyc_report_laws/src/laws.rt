//! Laws of reports, proved for all messages.

ghost use Rattle.pyc_report_laws.specs.FileReports.{ReportsFiles};
ghost use Rattle.pyc_report_laws.specs.Reports.{ReportsFound};

/// The text of a report has a line exactly where a message of a file prints it, and each line once. Of all messages
/// that print one line the first counts, and these stand in the order of path, line, column, code and text. Then comes
/// the summary. Its numbers are those of the lines that errors print, of the paths of files with an error, and of the
/// files. The report is clean exactly where no file has an error.
pub fn report_of_found()
    ensures { ReportsFound }
{}

/// So it is of the report of a check of files from scratch. The messages of a file are those that are found in its
/// units, where all these files stand together, and that no ignore comment of the file suppresses.
pub fn report_of_files()
    ensures { ReportsFiles }
{}
