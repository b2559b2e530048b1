//! What reads functions.

use pyc_body_context::Body;
use std::alloc::Global;

/// Reads functions that stand in a body.
#[derive(Clone, Copy)]
pub struct FunctionReader<'a> {
    pub alloc: Global,
    pub outside: Body<'a>,
}
