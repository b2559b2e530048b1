//! Files in order.

ghost use Rattle.std.specs.Prelude.{◌≡◌, ◌+◌, ◌^◌, ◌<◌, ◌++◌, [], ℕ, false, not, List, None, length, map, filter};
ghost use Rattle.std.specs.Prelude.{slice_index_or, IfOk, IfErr, IfSome, OnOk, OnErr};
ghost use Rattle.std.specs.Cmp.Lexicographic.{slice_cmp};
ghost use Rattle.std.specs.List.{list_any, remove};
ghost use Rattle.std.specs.Ordering.{nat_cmp};
ghost use Rattle.indexmap.specs.IndexSet.{contains_text};
ghost use Rattle.pyc_workspace.specs.Files.{file_in, files_in};
ghost use Rattle.pyc_workspace.specs.Fresh.{number_units, unit_in, units_of};
ghost use Rattle.pyc_workspace.specs.Workspace.{File as PlainFile, IsInOrder, IsPlaceOf, IsGapFor, has_file};
ghost use Rattle.pyc_workspace.specs.Workspace.{is_stub_of, taken, with_file};

use crate::file::File;
use indexmap::IndexSet;
use pyc_body::UnitId;
use pyc_names::{beside, is_stub_path};
use std::alloc::{AllocError, Global};
use std::cmp::Ordering;
use std::marker::Model;
use std::rc::Rc;

/// Files in ascending order of the bytes of their paths, each path once. Contracts see the list of them, each as its
/// path and its bytes.
#[derive(Drop)]
pub struct Files {
    files: Vec<Rc<File>>,
}

impl Model for Files {
    ghost Value = { List PlainFile };

    ghost view = { λ w. files_in w.files.items };

    ghost invariant = { λ w. IsInOrder (files_in w.files.items) };
}

impl Files {
    /// No files. It takes no memory.
    pub fn new(alloc: Global) -> Self
        ensures { result ≡ [] }
    {
        Files {
            files: Vec::new(alloc),
        }
    }

    /// How many files there are.
    pub fn len(&self) -> usize
        ensures { result ≡ length self.now }
    {
        self.files.len()
    }

    /// Whether there is a file of this path.
    pub fn contains(&self, path: &[u8]) -> bool
        ensures { result ≡ has_file self.now path.now }
    {
        self.place_of(path).is_ok()
    }

    /// Where the file of this path stands, if there is one.
    pub fn place(&self, path: &[u8]) -> Option<usize>
        ensures found { IfSome result (IsPlaceOf self.now path.now) }
        ensures absent { result ≡ None → has_file self.now path.now ≡ false }
    {
        match self.place_of(path) {
            Ok(place) => Some(place),
            Err(_) => None,
        }
    }

    /// Where the file of this path stands, or where it would go.
    pub(crate) fn place_of(&self, path: &[u8]) -> Result<usize, usize>
        ensures found { IfOk result (IsPlaceOf self.now path.now) }
        ensures absent { IfErr result (IsGapFor self.now path.now) }
    {
        place_of(&self.files, path)
    }

    /// Puts a file in place of the one of its path, which stands there. Where memory is refused all is as before.
    pub(crate) fn replace(&mut self, at: usize, file: File) -> Result<(), AllocError>
        requires { IsPlaceOf self.old (file_in file).path at }
        ensures after { OnOk result (self.new ≡ with_file self.old (file_in file)) }
        ensures same { OnErr result (self.new ≡ self.old) }
        ensures ordered { IsInOrder self.new }
    {
        let file = Rc::new(*self.files.allocator(), file)?;
        self.files[at] = file;
        Ok(())
    }

    /// Puts a file where its path belongs. Where memory is refused all is as before.
    pub(crate) fn insert(&mut self, at: usize, file: File) -> Result<(), AllocError>
        requires { IsGapFor self.old (file_in file).path at }
        ensures after { OnOk result (self.new ≡ with_file self.old (file_in file)) }
        ensures same { OnErr result (self.new ≡ self.old) }
        ensures ordered { IsInOrder self.new }
        ensures few { length self.old + 1 < 2 ^ 64 }
    {
        let file = Rc::new(*self.files.allocator(), file)?;
        self.files.insert(at, file)?;
        Ok(())
    }

    /// Takes away the file that stands at this place.
    pub(crate) fn remove(&mut self, at: usize) -> Rc<File>
        requires { at < length self.old }
        ensures value { file_in result.value ≡ slice_index_or self.old at (file_in result.value) }
        ensures after { self.new ≡ remove self.old at }
        ensures ordered { IsInOrder self.new }
    {
        self.files.remove(at)
    }

    /// These files, shared and not copied.
    pub fn share(&self, alloc: Global) -> Result<Files, AllocError>
        ensures same { IfOk result (λ shared. shared ≡ self.now) }
        ensures ordered { IfOk result IsInOrder }
    {
        Ok(Files {
            files: share(alloc, &self.files)?,
        })
    }

    /// The files that are taken, shared and not copied: all but those beside which a stub stands.
    pub fn taken(&self, alloc: Global) -> Result<Files, AllocError>
        ensures taken { IfOk result (λ found. found ≡ taken self.now) }
        ensures ordered { IfOk result IsInOrder }
    {
        let hidden = paths_beside_stubs(alloc, &self.files)?;
        if hidden.is_empty() {
            return self.share(alloc);
        }
        let files = without(alloc, &self.files, &hidden)?;
        Ok(Files { files })
    }

    /// The units of the files, in order. The call is for users of the library: the program does not make it.
    pub fn units(&self, alloc: Global) -> Result<Vec<UnitId<'_>>, AllocError>
        ensures { IfOk result (λ units. map unit_in units.items ≡ units_of self.now) }
    {
        units_of(alloc, &self.files)
    }

    /// The files, in ascending order of their paths.
    pub fn files(&self) -> &[Rc<File>]
        ensures all { files_in result.now ≡ self.now }
        ensures ordered { IsInOrder self.now }
    {
        &self.files
    }
}

/// The paths beside which a stub stands among these files.
fn paths_beside_stubs(alloc: Global, files: &[Rc<File>]) -> Result<IndexSet<String>, AllocError>
    ensures { IfOk result (λ found. (path : List ℕ) → contains_text found path
        ≡ list_any (is_stub_of path) (files_in files.now)) }
{
    let mut found = IndexSet::new(alloc);
    for file in files {
        if is_stub_path(file.path()) {
            found.insert(String::from_str(alloc, beside(file.path()))?)?;
        }
    }
    Ok(found)
}

/// The files whose paths are not among these, shared.
fn without(
    alloc: Global,
    files: &[Rc<File>],
    paths: &IndexSet<String>,
) -> Result<Vec<Rc<File>>, AllocError>
    ensures { IfOk result (λ kept. files_in kept.items
        ≡ filter (λ file. not (contains_text paths.now file.path)) (files_in files.now)) }
{
    let mut kept = Vec::new(alloc);
    for file in files {
        if !paths.contains(file.path()) {
            kept.push(file.clone()?)?;
        }
    }
    Ok(kept)
}

/// Where the file of this path is among files in order, or where it would go.
fn place_of(files: &[Rc<File>], path: &[u8]) -> Result<usize, usize>
    requires { IsInOrder (files_in files.now) }
    ensures found { IfOk result (IsPlaceOf (files_in files.now) path.now) }
    ensures absent { IfErr result (IsGapFor (files_in files.now) path.now) }
{
    files.binary_search_by(
        |file: &Rc<File>| -> Ordering
            ensures { result ≡ slice_cmp nat_cmp (file_in file.now.value).path path.entry.now }
        { file.path().as_bytes().cmp(path) },
    )
}

/// These files, shared.
fn share(alloc: Global, files: &[Rc<File>]) -> Result<Vec<Rc<File>>, AllocError>
    ensures { IfOk result (λ shared. files_in shared.items ≡ files_in files.now) }
{
    let mut shared = Vec::with_capacity(alloc, files.len())?;
    for file in files {
        shared.push(file.clone()?)?;
    }
    Ok(shared)
}

/// The units of these files, in order.
fn units_of<'a>(alloc: Global, files: &'a [Rc<File>]) -> Result<Vec<UnitId<'a>>, AllocError>
    ensures { IfOk result (λ units. map unit_in units.items ≡ units_of (files_in files.now)) }
{
    let mut units = Vec::new(alloc);
    for file in files {
        push_units(&mut units, file.path(), file.count_units())?;
    }
    Ok(units)
}

/// Adds so many units of the file of a path.
fn push_units<'a>(
    units: &mut Vec<UnitId<'a>>,
    path: &'a str,
    count: usize,
) -> Result<(), AllocError>
    ensures { OnOk result (map unit_in units.new.items ≡ map unit_in units.old.items ++ number_units path.now 0 count) }
{
    for index in 0..count {
        units.push(UnitId { path, index })?;
    }
    Ok(())
}
