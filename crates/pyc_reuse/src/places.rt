//! Which files are as they were at the last check.

ghost use Rattle.std.specs.Prelude.{◌≡◌, false, true, map, IfOk};
ghost use Rattle.pyc_reuse.specs.Examined.{is_unchanged};
ghost use Rattle.pyc_reuse.specs.Places.{place_in};
ghost use Rattle.pyc_reuse.specs.RecheckView.{AreKept, is_touched, last_in, present_in};
ghost use Rattle.pyc_workspace.specs.Files.{file_in};
ghost use Rattle.pyc_workspace.specs.Workspace.{has_file};

use crate::recheck::Recheck;
use pyc_workspace::File;
use std::alloc::AllocError;

impl Recheck<'_> {
    /// Where each file that is present stood at the last check, if it is as it was.
    pub(crate) fn places(&self) -> Result<Vec<Option<usize>>, AllocError>
        requires { AreKept (last_in self.now) (present_in self.now) self.now.touched.now }
        ensures { IfOk result (λ places. places.items ≡ map (place_in (last_in self.now)) (present_in self.now)) }
    {
        let mut places = Vec::with_capacity(self.alloc, self.present.len())?;
        for file in self.present {
            places.push(self.place(file))?;
        }
        Ok(places)
    }

    /// Where a file stood at the last check, if it is as it was: its bytes are compared only where it was put since
    /// then.
    fn place(&self, file: &File) -> Option<usize>
        requires { is_touched self.now.touched.now (file_in file.now).path ≡ false
            → has_file (last_in self.now) (file_in file.now).path ≡ true
            → is_unchanged (last_in self.now) (file_in file.now) ≡ true }
        ensures { result ≡ place_in (last_in self.now) (file_in file.now) }
    {
        let files = self.last.files.files();
        let place = self.last.files.place(file.path().as_bytes())?;
        if !self.touched.contains(file.path()) {
            return Some(place);
        }
        if files[place].bytes() == file.bytes() {
            Some(place)
        } else {
            None
        }
    }
}
