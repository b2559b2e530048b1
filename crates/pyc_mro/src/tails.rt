//! How often each class stands in the tails of rows.

ghost use Rattle.std.specs.Prelude.{◌≡◌, ◌+◌, ◌<◌, ◌≤◌, ◌==◌, ℕ, IfOk, OnOk, if◌then◌else◌, length, slice_index};
ghost use Rattle.pyc_mro.specs.Rows.{past};
ghost use Rattle.pyc_mro.specs.Tails as spec;
ghost use Rattle.pyc_mro.specs.Tails.{AreTailCounts, occurrences};

use std::alloc::{AllocError, Global};

/// How often each class stands in the tails of these rows. The only error is that memory runs out.
pub(crate) fn tail_counts(alloc: Global, rows: &[&[usize]]) -> Result<Vec<usize>, AllocError>
    ensures { IfOk result (λ counts. AreTailCounts counts.items rows.now) }
{
    let mut counts = Vec::new(alloc);
    for row in rows {
        add_classes(&mut counts, tail_of(row))?;
    }
    Ok(counts)
}

/// A row behind its head.
fn tail_of(row: &[usize]) -> &[usize]
    ensures { result.now ≡ spec.tail_of row.now }
{
    match row.split_first() {
        Some((_, tail)) => tail,
        None => row,
    }
}

/// Counts some classes. The only error is that memory runs out.
fn add_classes(counts: &mut Vec<usize>, classes: &[usize]) -> Result<(), AllocError>
    ensures { OnOk result ((c : ℕ) → slice_index counts.new.items c
        ≡ slice_index counts.old.items c + occurrences classes.now c) }
{
    for class in classes {
        add_class(counts, *class)?;
    }
    Ok(())
}

/// Counts a class. The only error is that memory runs out, as it would before a count is full.
fn add_class(counts: &mut Vec<usize>, class: usize) -> Result<(), AllocError>
    ensures { OnOk result ((c : ℕ) → slice_index counts.new.items c
        ≡ slice_index counts.old.items c + (if class == c then 1 else 0)) }
{
    make_room(counts, class)?;
    count_once_more(counts, class)?;
    Ok(())
}

/// Makes room for the count of a class. The only error is that memory runs out.
fn make_room(counts: &mut Vec<usize>, class: usize) -> Result<(), AllocError>
    ensures room { OnOk result (class < length counts.new.items) }
    ensures counts { OnOk result ((c : ℕ) → slice_index counts.new.items c ≡ slice_index counts.old.items c) }
{
    while counts.len() <= class {
        counts.push(0)?;
    }
    Ok(())
}

/// Counts a class once more. The only error is that a count is full, for which memory would not be enough.
fn count_once_more(counts: &mut Vec<usize>, class: usize) -> Result<(), AllocError>
    requires { class < length counts.old.items }
    ensures { OnOk result ((c : ℕ) → slice_index counts.new.items c
        ≡ slice_index counts.old.items c + (if class == c then 1 else 0)) }
{
    match counts[class].checked_add(1) {
        Some(count) => {
            counts[class] = count;
            Ok(())
        }
        None => Err(AllocError),
    }
}

/// Takes a class off a row whose head it is: the next class is no longer in the tail.
pub(crate) fn past_counted<'a>(row: &'a [usize], class: usize, counts: &mut [usize]) -> &'a [usize]
    requires { (c : ℕ) → occurrences (spec.tail_of row.now) c ≤ slice_index counts.old c }
    ensures row { result.now ≡ past class row.now }
    ensures counts { (c : ℕ) → slice_index counts.new c + occurrences (spec.tail_of row.now) c
        ≡ slice_index counts.old c + occurrences (spec.tail_of result.now) c }
{
    match row.split_first() {
        Some((head, tail)) if *head == class => {
            take_first(counts, tail);
            tail
        }
        _ => row,
    }
}

/// Takes the first of some classes out of the counts.
fn take_first(counts: &mut [usize], classes: &[usize])
    requires { (c : ℕ) → occurrences classes.now c ≤ slice_index counts.old c }
    ensures { (c : ℕ) → slice_index counts.new c + occurrences classes.now c
        ≡ slice_index counts.old c + occurrences (spec.tail_of classes.now) c }
{
    match classes.split_first() {
        Some((first, _)) => take_class(counts, *first),
        None => {}
    }
}

/// Takes a class out of the counts.
fn take_class(counts: &mut [usize], class: usize)
    requires { 0 < slice_index counts.old class }
    ensures { (c : ℕ) → slice_index counts.new c + (if class == c then 1 else 0) ≡ slice_index counts.old c }
{
    counts[class] -= 1;
}

/// Whether a class stands in no tail.
pub(crate) fn is_in_no_tail(counts: &[usize], class: usize) -> bool
    ensures { result ≡ (slice_index counts.now class == 0) }
{
    count_of(counts, class) == 0
}

/// The count of a class; what has none has 0.
fn count_of(counts: &[usize], class: usize) -> usize
    ensures { result ≡ slice_index counts.now class }
{
    if class < counts.len() {
        counts[class]
    } else {
        0
    }
}
