//! A check of files after another check.

use crate::kept_results::KeptResults;
use indexmap::IndexSet;
use pyc_workspace::File;
use std::alloc::Global;
use std::rc::Rc;

/// A check of files after the last one: what that left, but for the keys, the files that are present, and the paths of
/// those that were put since then.
#[derive(Clone, Copy)]
pub(crate) struct Recheck<'a> {
    pub(crate) alloc: Global,
    pub(crate) last: &'a KeptResults,
    pub(crate) present: &'a [Rc<File>],
    pub(crate) touched: &'a IndexSet<String>,
}
