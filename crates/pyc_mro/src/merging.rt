//! The merge of C3.

ghost use Rattle.std.specs.Prelude.{◌≡◌, IfOk, List, ℕ, map, option_map};
ghost use Rattle.std.specs.List.{list_all};
ghost use Rattle.pyc_mro.specs.Merge as spec;
ghost use Rattle.pyc_mro.specs.Rows.{rows_in, past};
ghost use Rattle.pyc_mro.specs.Tails as tails;

use crate::counting::merge_counted;
use std::alloc::{AllocError, Global};

/// How many classes a row may have that is looked through for each head.
const FEW: usize = 16;

/// The merge of rows, or none where it fails. The only error is that memory runs out.
pub(crate) fn merge(alloc: Global, rows: Vec<&[usize]>) -> Result<Option<Vec<usize>>, AllocError>
    ensures { IfOk result (λ merged. option_map (λ classes. classes.items) merged
        ≡ spec.merge (rows_in rows.entry.items)) }
{
    if are_short(&rows) {
        merge_short(alloc, rows)
    } else {
        merge_counted(alloc, rows)
    }
}

/// Whether no row has more than a few classes.
fn are_short(rows: &[&[usize]]) -> bool
    ensures { result ≡ list_all tails.is_short (rows_in rows.now) }
{
    for row in rows {
        if !is_short(row) {
            return false;
        }
    }
    true
}

/// Whether a row has few classes.
fn is_short(row: &[usize]) -> bool
    ensures { result ≡ tails.is_short row.now }
{
    row.len() <= FEW
}

/// The merge of rows, or none where it fails: each head is looked for in each tail.
fn merge_short(alloc: Global, mut rows: Vec<&[usize]>) -> Result<Option<Vec<usize>>, AllocError>
    ensures { IfOk result (λ merged. option_map (λ classes. classes.items) merged
        ≡ spec.merge (rows_in rows.entry.items)) }
{
    let mut classes = Vec::new(alloc);
    while let Some(class) = first_free(&rows) {
        classes.push(class)?;
        take_off(&mut rows, class);
    }
    if are_empty(&rows) {
        Ok(Some(classes))
    } else {
        Ok(None)
    }
}

/// The first head of a row that stands in no tail of a row.
fn first_free(rows: &[&[usize]]) -> Option<usize>
    ensures { result ≡ spec.first_free (rows_in rows.now) (rows_in rows.now) }
{
    for row in rows {
        if let Some(head) = free_head(rows, row) {
            return Some(head);
        }
    }
    None
}

/// The head of a row, if it stands in no tail of these rows.
fn free_head(rows: &[&[usize]], row: &[usize]) -> Option<usize>
    ensures { result ≡ spec.free_head (rows_in rows.now) row.now }
{
    match row.first() {
        Some(head) if is_free(rows, *head) => Some(*head),
        _ => None,
    }
}

/// Whether a class stands in no tail of a row.
fn is_free(rows: &[&[usize]], class: usize) -> bool
    ensures { result ≡ spec.is_free (rows_in rows.now) class }
{
    for row in rows {
        if stands_in_tail(row, class) {
            return false;
        }
    }
    true
}

/// Whether a class stands in the tail of a row.
fn stands_in_tail(row: &[usize], class: usize) -> bool
    ensures { result ≡ spec.stands_in_tail class row.now }
{
    match row.split_first() {
        Some((_, tail)) => tail.contains(&class),
        None => false,
    }
}

/// Whether all rows are empty.
pub(crate) fn are_empty(rows: &[&[usize]]) -> bool
    ensures { result ≡ list_all spec.is_empty (rows_in rows.now) }
{
    for row in rows {
        if !row.is_empty() {
            return false;
        }
    }
    true
}

/// Takes a class off the rows whose head it is.
fn take_off(rows: &mut [&[usize]], class: usize)
    ensures { rows_in rows.new ≡ map (past class) (rows_in rows.old) }
{
    for i in 0..rows.len() {
        rows[i] = past(rows[i], class);
    }
}

/// A row without a class as its head.
fn past(row: &[usize], class: usize) -> &[usize]
    ensures { result.now ≡ past class row.now }
{
    match row.split_first() {
        Some((head, tail)) if *head == class => tail,
        _ => row,
    }
}
