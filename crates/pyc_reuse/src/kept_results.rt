//! What a completed check leaves, but for the keys and their answers.

ghost use Rattle.std.specs.Prelude.{◌≡◌, length};
ghost use Rattle.pyc_workspace.specs.Fresh.{units_of};

use crate::file_result::FileResult;
use pyc_body::Meter;
use pyc_iface::Options;
use pyc_workspace::Files;
use std::rc::Rc;

/// What a completed check leaves, but for the keys and their answers: the options, the files that it checked, what came
/// of the units of each file, which units it examined, and how many units there are.
#[derive(Drop)]
pub(crate) struct KeptResults {
    pub(crate) options: Options,
    pub(crate) files: Files,
    pub(crate) file_results: Vec<Rc<FileResult>>,
    pub(crate) meter: Meter,
    pub(crate) bodies: usize,
    ghost bodies_are: { bodies ≡ length (units_of files) },
}
