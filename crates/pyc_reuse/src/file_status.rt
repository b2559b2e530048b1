//! What is to be done for files.

ghost use Rattle.std.specs.Prelude.{◌≡◌, IsTrue};
ghost use Rattle.pyc_reuse.specs.FileStatuses.{AreInPlace, file_status_in, nothing};

/// What is to be done for a file.
#[derive(Drop)]
pub(crate) enum FileStatus {
    /// It is new or has other bytes: all its units are examined.
    All,
    /// What came of it at the last check, at this place, is kept.
    Nothing(usize),
    /// Of its units, what came of which at the last check stands at this place, those are examined again that are
    /// flagged.
    Flagged(usize, Vec<bool>),
}

/// Whether nothing is to be done for files that are so many and stand where they stood.
pub(crate) fn are_in_place(list: &[FileStatus], many: usize) -> bool
    ensures { IsTrue result → AreInPlace list.now many }
{
    if list.len() != many {
        return false;
    }
    for index in 0..list.len() {
        if !is_in_place(&list[index], index) {
            return false;
        }
    }
    true
}

/// Whether nothing is to be done for a file that stood at this place.
fn is_in_place(file_status: &FileStatus, place: usize) -> bool
    ensures { IsTrue result → file_status_in file_status.now ≡ nothing place }
{
    match file_status {
        FileStatus::Nothing(own) => *own == place,
        _ => false,
    }
}
