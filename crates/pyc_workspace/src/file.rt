//! A file of a session.

ghost use Rattle.std.specs.Prelude.{◌≡◌, flat_map, map, IfOk};
ghost use Rattle.pyc_units.specs.Units.{unit_count};
ghost use Rattle.pyc_lower.specs.Reading.{read_of};
ghost use Rattle.pyc_names.specs.ModuleName.{module_of};
ghost use Rattle.pyc_names.specs.SourceFiles.{source_file};
ghost use Rattle.pyc_names.specs.SourceFileView.{source_in};

use pyc_body::{Checked, count_units, unsuppressed};
use pyc_lower::read;
use pyc_names::{ModuleName, SourceFile};
use pyc_report::Message;
use std::alloc::{AllocError, Global};
use std::rc::Rc;

/// A file of a session: its bytes, what they are as names see them, and how many units it has.
#[derive(Drop)]
pub struct File {
    bytes: Vec<u8>,
    source: Rc<SourceFile>,
    units: usize,
    ghost module_is: { (source_in source.value).name ≡ module_of (source_in source.value).path },
    ghost source_is: { ∥ source_in source.value ≡ source_file (source_in source.value).path (read_of bytes.items) ∥₁ },
    ghost units_is: { units ≡ unit_count (read_of bytes.items) },
}

impl File {
    ghost use Rattle.pyc_workspace.specs.Files.{file_in};
    ghost use Rattle.pyc_workspace.specs.Fresh.{source_of};
    ghost use Rattle.pyc_body.specs.FoundMessages.{without_ignored};
    ghost use Rattle.pyc_recorder.specs.CheckedView.{messages_of};
    ghost use Rattle.pyc_report.specs.Message.{message_in};

    /// A file of this path, the module that it names, and of these bytes. The only error is that memory runs out.
    pub fn new(
        alloc: Global,
        path: &str,
        name: ModuleName,
        bytes: Vec<u8>,
    ) -> Result<File, AllocError>
        requires { name ≡ module_of path.now }
        ensures { IfOk result (λ file. file_in file ≡ record { path = path.now; bytes = bytes.items }) }
    {
        let outcome = read(alloc, &bytes)?;
        let units = count_units(alloc, &outcome)?;
        let source = SourceFile::new(alloc, path, name, outcome)?;
        Ok(File {
            source: Rc::new(alloc, source)?,
            units,
            bytes,
        })
    }

    /// The path of the file.
    pub fn path(&self) -> &str
        ensures { result.now ≡ (file_in self.now).path }
    {
        self.source.path()
    }

    /// The module that the file's path names.
    pub fn module(&self) -> &ModuleName
        ensures { result.now ≡ module_of (file_in self.now).path }
    {
        self.source.name()
    }

    /// The file's bytes.
    pub fn bytes(&self) -> &[u8]
        ensures { result.now ≡ (file_in self.now).bytes }
    {
        &self.bytes
    }

    /// The file as names see it.
    pub fn source(&self) -> &Rc<SourceFile>
        ensures { ∥ source_in result.now.value ≡ source_of (file_in self.now) ∥₁ }
    {
        &self.source
    }

    /// How many units the file has: a header, a module body, and its classes, functions and methods, or with a fault
    /// the header alone.
    pub fn count_units(&self) -> usize
        ensures { result ≡ unit_count (read_of (file_in self.now).bytes) }
    {
        self.units
    }

    /// The messages of the file that no ignore comment suppresses, of whose units these checks are. The only error is
    /// that memory runs out.
    pub(crate) fn unsuppressed(
        &self,
        alloc: Global,
        checks: &[Checked],
    ) -> Result<Vec<Message>, AllocError>
        ensures { IfOk result (λ messages. map message_in messages.items
            ≡ without_ignored (read_of (file_in self.now).bytes)
            (flat_map messages_of checks.now)) }
    {
        let found = unsuppressed(alloc, &self.source, checks)?;
        Ok(found)
    }
}
