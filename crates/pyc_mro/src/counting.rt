//! The merge of rows with many classes: how often each class stands in a tail is counted, so that no tail is looked
//! through for a head.

ghost use Rattle.std.specs.Prelude.{◌≡◌, IfOk, List, ℕ, map, option_map};
ghost use Rattle.pyc_mro.specs.Merge as spec;
ghost use Rattle.pyc_mro.specs.Rows.{rows_in, past};
ghost use Rattle.pyc_mro.specs.Tails.{AreTailCounts, free_by};

use crate::merging::are_empty;
use crate::tails::{is_in_no_tail, past_counted, tail_counts};
use std::alloc::{AllocError, Global};

/// The merge of rows, or none where it fails. The only error is that memory runs out.
pub(crate) fn merge_counted(
    alloc: Global,
    rows: Vec<&[usize]>,
) -> Result<Option<Vec<usize>>, AllocError>
    ensures { IfOk result (λ merged. option_map (λ classes. classes.items) merged
        ≡ spec.merge (rows_in rows.entry.items)) }
{
    let counts = tail_counts(alloc, &rows)?;
    merge_by(alloc, rows, counts)
}

/// The merge of rows whose tails are counted so, or none where it fails.
fn merge_by(
    alloc: Global,
    mut rows: Vec<&[usize]>,
    mut counts: Vec<usize>,
) -> Result<Option<Vec<usize>>, AllocError>
    requires { AreTailCounts counts.items rows.items }
    ensures { IfOk result (λ merged. option_map (λ classes. classes.items) merged
        ≡ spec.merge (rows_in rows.entry.items)) }
{
    let mut classes = Vec::new(alloc);
    while let Some(class) = first_free(&rows, &counts) {
        classes.push(class)?;
        take_off(&mut rows, class, &mut counts);
    }
    if are_empty(&rows) {
        Ok(Some(classes))
    } else {
        Ok(None)
    }
}

/// The first head of a row that stands in no tail of a row, where the tails are counted so.
fn first_free(rows: &[&[usize]], counts: &[usize]) -> Option<usize>
    requires { AreTailCounts counts.now rows.now }
    ensures { result ≡ spec.first_free (rows_in rows.now) (rows_in rows.now) }
{
    for row in rows {
        if let Some(head) = free_head(counts, row) {
            return Some(head);
        }
    }
    None
}

/// The head of a row, if its count is 0.
fn free_head(counts: &[usize], row: &[usize]) -> Option<usize>
    ensures { result ≡ free_by counts.now row.now }
{
    match row.first() {
        Some(head) if is_in_no_tail(counts, *head) => Some(*head),
        _ => None,
    }
}

/// Takes a class off the rows whose head it is, and counts what is then in their tails.
fn take_off(rows: &mut [&[usize]], class: usize, counts: &mut [usize])
    requires { AreTailCounts counts.old rows.old }
    ensures rows { rows_in rows.new ≡ map (past class) (rows_in rows.old) }
    ensures counts { AreTailCounts counts.new rows.new }
{
    for i in 0..rows.len() {
        rows[i] = past_counted(rows[i], class, counts);
    }
}
