//! Growths that are spent, so that a later one is the one that is refused.
//!
//! A test that `scripts/gate/tests.py` makes calls one function of this crate. The line before the function says
//! between which of its growths its calls are. With `rt try --test --fail-alloc N` growth N of the process of each test
//! is refused, and no other. So a function spends growths once it has made what its calls need; the growth that is
//! refused is then one of these calls. The function answers whether a call was refused.

use std::alloc::Global;

/// Asks for `count` growths, and lets each go at once.
pub(crate) fn spend(alloc: Global, count: usize) {
    for _ in 0..count {
        let _spent = Vec::<u8>::with_capacity(alloc, 1);
    }
}
