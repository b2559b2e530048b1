//! What differs between the modules of two tables.

ghost use Rattle.std.specs.Prelude.{◌≡◌, flat_map, length, OnOk, option_map};
ghost use Rattle.pyc_interfaces.specs.ChangedLooks as spec;
ghost use Rattle.pyc_names.specs.InterfaceView.{interface_in, interfaces_in};
ghost use Rattle.pyc_names.specs.NotedLooks.{with_looks};
ghost use Rattle.pyc_names.specs.NotedLooksView.{noted_in};
ghost use Rattle.pyc_names.specs.TableView.{table_in};

use crate::file_changes::{FilePair, note_classes, note_names};
use pyc_ast::Text;
use pyc_names::{Interface, Looks, ModuleName, Table};
use std::alloc::AllocError;
use std::rc::Rc;

/// A table of files, and a later one.
#[derive(Clone, Copy, Drop)]
pub(crate) struct Tables<'a> {
    pub(crate) old: &'a Table,
    pub(crate) new: &'a Table,
}

impl Tables<'_> {
    /// Notes what differs in the modules that these files name. The only error is that memory runs out.
    pub(crate) fn note_files(
        &self,
        files: &[Rc<Interface>],
        looks: &mut Looks,
    ) -> Result<(), AllocError>
        ensures { OnOk result (noted_in looks.new ≡ with_looks (noted_in looks.old)
            (flat_map (λ file. spec.module_changes (table_in self.now.old.now) (table_in self.now.new.now) file.name)
            (interfaces_in files.now))) }
    {
        for file in files {
            self.note_module(file.name(), looks)?;
        }
        Ok(())
    }

    /// Notes what differs in a module.
    fn note_module(&self, module: &ModuleName, looks: &mut Looks) -> Result<(), AllocError>
        ensures { OnOk result (noted_in looks.new ≡ with_looks (noted_in looks.old)
            (spec.module_changes (table_in self.now.old.now) (table_in self.now.new.now) module.now)) }
    {
        let old = self.old.file(module.parts());
        let new = self.new.file(module.parts());
        self.note_found(module, old, new, looks)
    }

    /// Notes what differs between the files of a module, where they are there.
    #[tactic(auto, using(pyc_names::proofs::NotedLemmas::noting))]
    fn note_found(
        &self,
        module: &ModuleName,
        old: Option<&Interface>,
        new: Option<&Interface>,
        looks: &mut Looks,
    ) -> Result<(), AllocError>
        ensures { OnOk result (noted_in looks.new ≡ with_looks (noted_in looks.old)
            (spec.found_changes (table_in self.now.old.now) (table_in self.now.new.now) module.now
            (option_map (λ file. interface_in file.now) old.entry)
            (option_map (λ file. interface_in file.now) new.entry))) }
    {
        match (old, new) {
            (Some(old), Some(new)) => FilePair { module, old, new }.note_changes(looks),
            (Some(file), None) => self.note_file(module, file, looks),
            (None, Some(file)) => self.note_file(module, file, looks),
            (None, None) => Ok(()),
        }
    }

    /// Notes all of a file of a module that comes or goes.
    #[tactic(auto, using(pyc_names::proofs::NotedLemmas::noting))]
    fn note_file(
        &self,
        module: &ModuleName,
        file: &Interface,
        looks: &mut Looks,
    ) -> Result<(), AllocError>
        ensures { OnOk result (noted_in looks.new ≡ with_looks (noted_in looks.old)
            (spec.file_looks (table_in self.now.old.now) (table_in self.now.new.now) module.now
            (interface_in file.now))) }
    {
        note_names(module, file, looks)?;
        note_classes(module, file.classes(), looks)?;
        looks.note_module(module.parts())?;
        self.note_presences(module.parts(), looks)
    }

    /// Notes the modules that come or go that a module with these parts lies under.
    fn note_presences(&self, parts: &[Text], looks: &mut Looks) -> Result<(), AllocError>
        ensures { OnOk result (noted_in looks.new ≡ with_looks (noted_in looks.old)
            (spec.presence_changes (table_in self.now.old.now) (table_in self.now.new.now) parts.now
            (length parts.now))) }
    {
        for count in 0..parts.len() {
            self.note_presence(&parts[..count], looks)?;
        }
        Ok(())
    }

    /// Notes a module that comes or goes.
    #[tactic(auto, using(pyc_names::proofs::NotedLemmas::noting))]
    fn note_presence(&self, parts: &[Text], looks: &mut Looks) -> Result<(), AllocError>
        ensures { OnOk result (noted_in looks.new ≡ with_looks (noted_in looks.old)
            (spec.presence_change (table_in self.now.old.now) (table_in self.now.new.now) parts.now)) }
    {
        if self.old.has_module(parts) == self.new.has_module(parts) {
            return Ok(());
        }
        looks.note_module(parts)
    }
}
