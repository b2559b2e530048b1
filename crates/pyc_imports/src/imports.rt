//! Imports of modules, and of their names.

ghost use Rattle.std.specs.Prelude.{◌≡◌, map};
ghost use Rattle.pyc_ast.specs.StatementView.{imported_of, imported_module_of, import_from_of, stmt_form_of};
ghost use Rattle.pyc_imports.specs.ImportReadings as spec;
ghost use Rattle.pyc_names.specs.FollowingView.{qualified_of};
ghost use Rattle.pyc_names.specs.InterfaceView.{interface_in};
ghost use Rattle.pyc_reading.specs.Traces.{Performs};
ghost use Rattle.pyc_reading.specs.Readings.{each};

use crate::asking::ask_presence;
use crate::texts::written_module;
use pyc_ast::{Alias, ImportFrom, ImportedModule, Position, StmtForm, Text};
use pyc_iface::Options;
use pyc_messages::{missing_module_text, no_imported_name_text};
use pyc_names::{
    Interface, ModuleName, QualifiedName, fixed_module, module_of_parts, named_module,
};
use pyc_reading::{Ask, Export, Key, Presence, ask_export, report_error};
use pyc_report::Code;
use std::alloc::{AllocError, Global};
use std::rc::Rc;

/// Reads the imports of a statement.
#[derive(Clone, Copy)]
pub struct ImportReader {
    pub alloc: Global,
    pub options: Options,
    /// Where the statement begins.
    pub at: Position,
}

impl ImportReader {
    /// Reads the statement: an import asks for each of its modules or names, and the reader reports those that are not
    /// there. The only error is that memory runs out.
    pub fn read_import<N: Ask>(
        self,
        recorder: &mut N,
        file: &Interface,
        form: &StmtForm,
    ) -> Result<(), AllocError>
        ensures { Performs (λ u. u)
            (spec.import_reading self.options (interface_in file.now) self.at (stmt_form_of form.now))
            (N.trace recorder.old) result (N.trace recorder.new) }
    {
        match form {
            StmtForm::Import(modules) => self.read_modules(recorder, modules),
            StmtForm::ImportFrom(from) => self.read_aliases(recorder, file, from),
            _ => Ok(()),
        }
    }

    /// Reads imports of modules, in turn.
    fn read_modules<N: Ask>(
        self,
        recorder: &mut N,
        modules: &[Rc<ImportedModule>],
    ) -> Result<(), AllocError>
        ensures { Performs (λ u. u) (each (spec.module_checked self.options self.at) (map imported_of modules.now))
            (N.trace recorder.old) result (N.trace recorder.new) }
    {
        for imported in modules {
            self.check_module(recorder, imported)?;
        }
        Ok(())
    }

    /// Reads an import of a module, where nothing hangs on whether it is there.
    #[tactic(auto, using(crate::proofs::Steps::performing))]
    fn check_module<N: Ask>(
        self,
        recorder: &mut N,
        imported: &ImportedModule,
    ) -> Result<(), AllocError>
        ensures { Performs (λ u. u) (spec.module_checked self.options self.at (imported_module_of imported.now))
            (N.trace recorder.old) result (N.trace recorder.new) }
    {
        let _is_there = self.read_module(recorder, imported)?;
        Ok(())
    }

    /// Reads an import of a module, and answers whether the module is there; a fixed one is. The reader reports a
    /// module that is not. The only error is that memory runs out.
    #[tactic(auto, using(crate::proofs::Steps::performing))]
    pub fn read_module<N: Ask>(
        self,
        recorder: &mut N,
        imported: &ImportedModule,
    ) -> Result<bool, AllocError>
        ensures { Performs (λ found. found) (spec.module_reading self.options self.at (imported_module_of imported.now))
            (N.trace recorder.old) result (N.trace recorder.new) }
    {
        if fixed_module(&imported.path).is_some() {
            return Ok(true);
        }
        let key = Key::HasModule(module_of_parts(self.alloc, &[], &imported.path)?);
        let found = ask_presence(self.alloc, recorder, key)?;
        let shown = written_module(self.alloc, 0, &imported.path)?;
        self.report_module(recorder, shown.as_str(), found)?;
        Ok(is_there(found))
    }

    /// Reports a module that is not there, as its presence says.
    fn report_module<N: Ask>(
        self,
        recorder: &mut N,
        shown: &str,
        found: Option<Presence>,
    ) -> Result<(), AllocError>
        ensures { Performs (λ u. u) (spec.module_reported self.options self.at shown.now found) (N.trace recorder.old)
            result
            (N.trace recorder.new) }
    {
        match found {
            Some(Presence::NoModule) => self.report_missing(recorder, shown),
            _ => Ok(()),
        }
    }

    /// Reports that a module is not there, unless the options leave missing imports out.
    fn report_missing<N: Ask>(self, recorder: &mut N, shown: &str) -> Result<(), AllocError>
        ensures { Performs (λ u. u) (spec.missing self.options self.at shown.now) (N.trace recorder.old) result
            (N.trace recorder.new) }
    {
        if self.options.ignore_missing {
            return Ok(());
        }
        let text = missing_module_text(self.alloc, shown)?;
        report_error(recorder, self.at, Code::ImportNotFound, text)
    }

    /// Reads from-imports, in turn.
    fn read_aliases<N: Ask>(
        self,
        recorder: &mut N,
        file: &Interface,
        from: &ImportFrom,
    ) -> Result<(), AllocError>
        ensures { Performs (λ u. u)
            (each (spec.name_checked self.options (interface_in file.now) self.at (import_from_of from.now))
            from.now.names.items) (N.trace recorder.old) result (N.trace recorder.new) }
    {
        for alias in &from.names {
            self.check_name(recorder, file, from, alias)?;
        }
        Ok(())
    }

    /// Reads one name of a from-import, where nothing hangs on whether its module passes it on.
    #[tactic(auto, using(crate::proofs::Steps::performing))]
    fn check_name<N: Ask>(
        self,
        recorder: &mut N,
        file: &Interface,
        from: &ImportFrom,
        alias: &Alias,
    ) -> Result<(), AllocError>
        ensures { Performs (λ u. u)
            (spec.name_checked self.options (interface_in file.now) self.at (import_from_of from.now) alias.now)
            (N.trace recorder.old) result (N.trace recorder.new) }
    {
        let _passed_on = self.read_imported(recorder, file, from, alias)?;
        Ok(())
    }

    /// Reads one name of a from-import, which asks whether it is there and whether its module passes it on, and answers
    /// the latter. The reader reports a name or a module that is not there, and a name that is hidden. The only error
    /// is that memory runs out.
    pub fn read_imported<N: Ask>(
        self,
        recorder: &mut N,
        file: &Interface,
        from: &ImportFrom,
        alias: &Alias,
    ) -> Result<Export, AllocError>
        ensures { Performs (λ found. found)
            (spec.imported_reading self.options (interface_in file.now) self.at (import_from_of from.now) alias.now)
            (N.trace recorder.old) result (N.trace recorder.new) }
    {
        let module_path = named_module(
            self.alloc,
            file.name(),
            file.is_package(),
            from.dots,
            &from.path,
        )?;
        let shown = written_module(self.alloc, from.dots, &from.path)?;
        self.read_name(recorder, shown.as_str(), &alias.name, module_path)
    }

    /// Reads a name that a statement imports from some module; none is above the root, where nothing is there.
    #[tactic(auto, using(crate::proofs::Steps::performing))]
    fn read_name<N: Ask>(
        self,
        recorder: &mut N,
        shown: &str,
        name: &Text,
        module_path: Option<ModuleName>,
    ) -> Result<Export, AllocError>
        ensures { Performs (λ found. found) (spec.name_reading self.options self.at shown.now name.now module_path)
            (N.trace recorder.old)
            result (N.trace recorder.new) }
    {
        let Some(module_path) = module_path else {
            self.report_missing(recorder, shown)?;
            return Ok(Export::Open);
        };
        if fixed_module(module_path.parts()).is_some() {
            return Ok(Export::Open);
        }
        let name = name.clone()?;
        let asked = QualifiedName { module_path, name };
        self.read_own_name(recorder, shown, &asked)
    }

    /// Reads a name of a module that is no fixed one.
    #[tactic(auto, using(crate::proofs::Steps::performing))]
    fn read_own_name<N: Ask>(
        self,
        recorder: &mut N,
        shown: &str,
        name: &QualifiedName,
    ) -> Result<Export, AllocError>
        ensures { Performs (λ found. found)
            (spec.own_name_reading self.options self.at shown.now (qualified_of name.now)) (N.trace recorder.old) result
            (N.trace recorder.new) }
    {
        let key = Key::HasName(name.clone()?);
        let found = ask_presence(self.alloc, recorder, key)?;
        self.report_name(recorder, shown, name, found)
    }

    /// Reports an imported name that is not there or is hidden, and answers whether its module passes it on.
    #[tactic(auto, using(crate::proofs::Steps::performing))]
    fn report_name<N: Ask>(
        self,
        recorder: &mut N,
        shown: &str,
        name: &QualifiedName,
        found: Option<Presence>,
    ) -> Result<Export, AllocError>
        ensures { Performs (λ found. found)
            (spec.name_reported self.options self.at shown.now (qualified_of name.now) found) (N.trace recorder.old)
            result (N.trace recorder.new) }
    {
        match found {
            Some(Presence::There) => self.read_export(recorder, shown, name),
            Some(Presence::NoModule) => {
                self.report_missing(recorder, shown)?;
                Ok(Export::Open)
            }
            Some(Presence::NoName) => {
                self.report_no_name(recorder, shown, &name.name)?;
                Ok(Export::Open)
            }
            _ => Ok(Export::Open),
        }
    }

    /// Reads whether the module of a name that is there passes it on, and reports a name that is hidden.
    #[tactic(auto, using(crate::proofs::Steps::performing))]
    fn read_export<N: Ask>(
        self,
        recorder: &mut N,
        shown: &str,
        name: &QualifiedName,
    ) -> Result<Export, AllocError>
        ensures { Performs (λ found. found) (spec.export_reading self.at shown.now (qualified_of name.now))
            (N.trace recorder.old) result (N.trace recorder.new) }
    {
        let asked = name.clone()?;
        let passed_on = ask_export(self.alloc, recorder, asked)?;
        self.report_hidden(recorder, shown, &name.name, passed_on)?;
        Ok(passed_on)
    }

    /// Reports a name that its module hides.
    fn report_hidden<N: Ask>(
        self,
        recorder: &mut N,
        shown: &str,
        name: &Text,
        passed_on: Export,
    ) -> Result<(), AllocError>
        ensures { Performs (λ u. u) (spec.hidden_reported self.at shown.now name.now passed_on) (N.trace recorder.old)
            result (N.trace recorder.new) }
    {
        match passed_on {
            Export::Hidden => self.report_no_name(recorder, shown, name),
            Export::Open | Export::Submodule => Ok(()),
        }
    }

    /// Reports that a module does not have a name for those who import it.
    fn report_no_name<N: Ask>(
        self,
        recorder: &mut N,
        shown: &str,
        name: &Text,
    ) -> Result<(), AllocError>
        ensures { Performs (λ u. u) (spec.no_name_reported self.at shown.now name.now) (N.trace recorder.old) result
            (N.trace recorder.new) }
    {
        let text = no_imported_name_text(self.alloc, shown, name.as_str())?;
        report_error(recorder, self.at, Code::AttrDefined, text)
    }
}

/// Whether a module is there, as its presence says it.
fn is_there(found: Option<Presence>) -> bool
    ensures { result ≡ spec.is_there found }
{
    match found {
        Some(Presence::NoModule) => false,
        _ => true,
    }
}
