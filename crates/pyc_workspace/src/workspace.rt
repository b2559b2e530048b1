//! The files of a session, in order.

ghost use Rattle.std.specs.Prelude.{◌≡◌, [], List, length, IfOk, OnOk, OnErr};
ghost use Rattle.pyc_names.specs.ModuleName.{module_of};
ghost use Rattle.pyc_workspace.specs.Files.{file_in, files_in};
ghost use Rattle.pyc_workspace.specs.ModuleCounts.{IsWhole, counts_in};
ghost use Rattle.pyc_workspace.specs.Workspace.{File as PlainFile, IsInOrder, has_file, is_other_of, is_module_taken};
ghost use Rattle.pyc_workspace.specs.Workspace.{taken, with_file, without_file};

use crate::file::File;
use crate::files::Files;
use crate::module_counts::{ModuleCounts, count_of, count_one_less, count_one_more};
use indexmap::IndexMap;
use pyc_names::{ModuleName, beside};
use std::alloc::{AllocError, Global};
use std::marker::Model;
use std::rc::Rc;

/// The files of a session, in order, and how many of them name each module. Contracts see the list of the files, each
/// as its path and its bytes.
#[derive(Drop)]
pub struct Workspace {
    held: Files,
    /// How many of the files name each module.
    modules: ModuleCounts,
}

impl Model for Workspace {
    ghost Value = { List PlainFile };

    ghost view = { λ w. w.held };

    ghost invariant = { λ w. IsWhole w.held (counts_in w.modules) };
}

impl Workspace {
    /// A workspace with no file. It takes no memory.
    pub fn new(alloc: Global) -> Self
        ensures { result ≡ [] }
    {
        Workspace {
            held: Files::new(alloc),
            modules: IndexMap::new(alloc),
        }
    }

    /// How many files there are.
    pub fn len(&self) -> usize
        ensures { result ≡ length self.now }
    {
        self.held.len()
    }

    /// Whether there is a file of this path.
    pub fn contains(&self, path: &[u8]) -> bool
        ensures { result ≡ has_file self.now path.now }
    {
        self.held.contains(path)
    }

    /// Whether a file names the module of a path, and is not the stub beside it, nor stands beside that stub. It takes
    /// no memory.
    pub fn names_module(&self, path: &str, name: &ModuleName) -> bool
        requires { name.now ≡ module_of path.now }
        ensures { result ≡ is_module_taken self.now path.now }
    {
        count_of(&self.modules, name) > 0 && names_module(self.held.files(), path, name)
    }

    /// Puts a file in place of the one of its path, or else where its path belongs. Where memory is refused all is as
    /// before.
    pub fn put(&mut self, file: File) -> Result<(), AllocError>
        ensures after { OnOk result (self.new ≡ with_file self.old (file_in file)) }
        ensures same { OnErr result (self.new ≡ self.old) }
        ensures ordered { IsInOrder self.new }
    {
        match self.held.place_of(file.path().as_bytes()) {
            Ok(at) => self.held.replace(at, file),
            Err(at) => {
                let name = file.module().clone()?;
                self.modules.reserve(1)?;
                self.held.insert(at, file)?;
                count_one_more(&mut self.modules, name)
            }
        }
    }

    /// Takes the file of this path away, and answers whether there was one.
    pub fn take(&mut self, path: &[u8]) -> bool
        ensures value { result ≡ has_file self.old path.now }
        ensures after { self.new ≡ without_file self.old path.now }
        ensures ordered { IsInOrder self.new }
    {
        let Ok(at) = self.held.place_of(path) else {
            return false;
        };
        let file = self.held.remove(at);
        count_one_less(&mut self.modules, file.module());
        true
    }

    /// The files that are taken, shared and not copied: all but those beside which a stub stands.
    pub fn taken(&self, alloc: Global) -> Result<Files, AllocError>
        ensures taken { IfOk result (λ found. found ≡ taken self.now) }
        ensures ordered { IfOk result IsInOrder }
    {
        self.held.taken(alloc)
    }

    /// The files that are held, in order. The call is for users of the library: the program does not make it.
    pub fn held(&self) -> &Files
        ensures { result.now ≡ self.now }
    {
        &self.held
    }
}

/// Whether one of these files names the module of a path, and is not the stub beside it, nor stands beside that stub.
fn names_module(files: &[Rc<File>], path: &str, name: &ModuleName) -> bool
    requires { name.now ≡ module_of path.now }
    ensures { result ≡ is_module_taken (files_in files.now) path.now }
{
    for file in files {
        if is_other_of(file, path, name) {
            return true;
        }
    }
    false
}

/// Whether a file names the module of a path, and is not the stub beside it, nor stands beside that stub.
fn is_other_of(file: &File, path: &str, name: &ModuleName) -> bool
    requires { name.now ≡ module_of path.now }
    ensures { result ≡ is_other_of path.now (file_in file.now) }
{
    file.module() == name && beside(file.path()) != beside(path)
}
