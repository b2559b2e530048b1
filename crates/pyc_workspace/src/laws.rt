//! Laws of reports, proved for all files.

ghost use Rattle.pyc_workspace.specs.FreshLaws.{ReportIsFresh};

/// The report on what is found in the units of files, checked over one another, is that of a check from scratch.
pub fn report_is_fresh()
    ensures { ReportIsFresh }
{}
