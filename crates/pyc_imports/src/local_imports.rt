//! Imports in the bodies of functions and classes.

ghost use Rattle.std.specs.Prelude.{◌≡◌, IfOk, None, map};
ghost use Rattle.pyc_ast.specs.StatementView.{imported_module_of, imported_of, import_from_of, stmt_form_of};
ghost use Rattle.pyc_imports.specs.LocalImports as spec;
ghost use Rattle.pyc_locals.specs.Views.{flow_state_in};
ghost use Rattle.pyc_names.specs.FollowingView.{qualified_of};
ghost use Rattle.pyc_names.specs.InterfaceView.{interface_in};
ghost use Rattle.pyc_reading.specs.Traces.{Performs};
ghost use Rattle.pyc_type_forms.specs.TypeView.{ty_of};

use crate::binding::{alias_name, bind_module, bind_module_import};
use crate::imports::ImportReader;
use pyc_ast::{Alias, ImportFrom, ImportedModule, StmtForm, Text};
use pyc_locals::{FlowState, LocalType};
use pyc_names::{Interface, ModuleName, QualifiedName, fixed_module, named_module};
use pyc_reading::{Ask, Export, ask_name, exported};
use pyc_type_forms::Ty;
use std::alloc::{AllocError, Global};
use std::rc::Rc;
use std::slice;

/// Reads the imports of a body.
#[derive(Clone, Copy)]
pub struct LocalImportReader<'a> {
    /// Reports the modules and names that are not there.
    pub imports: ImportReader,
    /// The file of the body.
    pub file: &'a Interface,
}

impl LocalImportReader<'_> {
    /// Reads a statement of a function: an import asks for each of its modules or names, and binds it. The reader
    /// reports those that are not there. Any other statement changes nothing. The only error is that memory runs out.
    #[tactic(auto, unfolding(crate::specs::LocalImports::local_import_read))]
    pub fn read_local_import<N: Ask>(
        &self,
        recorder: &mut N,
        form: &StmtForm,
        flow_state: &mut FlowState,
    ) -> Result<(), AllocError>
        ensures { Performs (λ u. flow_state_in flow_state.new)
            (spec.local_import_read self.now.imports.options (interface_in self.now.file.now) self.now.imports.at
            (stmt_form_of form.now) (flow_state_in flow_state.old)) (N.trace recorder.old) result
            (N.trace recorder.new) }
    {
        match form {
            StmtForm::Import(modules) => self.read_modules(recorder, modules, flow_state),
            StmtForm::ImportFrom(from) => self.read_names(recorder, from, flow_state),
            _ => Ok(()),
        }
    }

    /// Reads a statement of the body of a class: an import asks for each of its modules or names, and binds it to Any.
    /// The reader reports those that are not there. Any other statement changes nothing. The only error is that memory
    /// runs out.
    #[tactic(auto, using(crate::proofs::Steps::performing), unfolding(crate::specs::LocalImports::class_import_read))]
    pub fn read_class_import<N: Ask>(
        &self,
        recorder: &mut N,
        form: &StmtForm,
        flow_state: &mut FlowState,
    ) -> Result<(), AllocError>
        ensures { Performs (λ u. flow_state_in flow_state.new)
            (spec.class_import_read self.now.imports.options (interface_in self.now.file.now) self.now.imports.at
            (stmt_form_of form.now) (flow_state_in flow_state.old)) (N.trace recorder.old) result
            (N.trace recorder.new) }
    {
        self.imports.read_import(recorder, self.file, form)?;
        bind_module_import(self.imports.alloc, form, flow_state)
    }

    /// Reads the modules of `import`, in turn.
    fn read_modules<N: Ask>(
        &self,
        recorder: &mut N,
        modules: &[Rc<ImportedModule>],
        flow_state: &mut FlowState,
    ) -> Result<(), AllocError>
        ensures { Performs (λ u. flow_state_in flow_state.new)
            (spec.modules_read self.now.imports.options self.now.imports.at (map imported_of modules.now)
            (flow_state_in flow_state.old)) (N.trace recorder.old) result (N.trace recorder.new) }
    {
        for imported in modules {
            self.read_module(recorder, imported, flow_state)?;
        }
        Ok(())
    }

    /// Reads a module of `import`, and binds its name: to Any where the module is not there.
    #[tactic(auto, using(crate::proofs::Steps::performing))]
    fn read_module<N: Ask>(
        &self,
        recorder: &mut N,
        imported: &ImportedModule,
        flow_state: &mut FlowState,
    ) -> Result<(), AllocError>
        ensures { Performs (λ u. flow_state_in flow_state.new)
            (spec.module_read self.now.imports.options self.now.imports.at (imported_module_of imported.now)
            (flow_state_in flow_state.old)) (N.trace recorder.old) result (N.trace recorder.new) }
    {
        let is_there = self.imports.read_module(recorder, imported)?;
        let ty = type_if_there(self.imports.alloc, is_there, imported)?;
        bind_module(self.imports.alloc, imported, ty, flow_state)
    }

    /// Reads the names of a from-import, in turn.
    fn read_names<N: Ask>(
        &self,
        recorder: &mut N,
        from: &ImportFrom,
        flow_state: &mut FlowState,
    ) -> Result<(), AllocError>
        ensures { Performs (λ u. flow_state_in flow_state.new)
            (spec.names_read self.now.imports.options (interface_in self.now.file.now) self.now.imports.at
            (import_from_of from.now) from.now.names.items (flow_state_in flow_state.old)) (N.trace recorder.old) result
            (N.trace recorder.new) }
    {
        for alias in &from.names {
            self.read_name(recorder, from, alias, flow_state)?;
        }
        Ok(())
    }

    /// Reads a name of a from-import, and binds it to its type.
    #[tactic(auto, using(crate::proofs::Steps::performing))]
    fn read_name<N: Ask>(
        &self,
        recorder: &mut N,
        from: &ImportFrom,
        alias: &Alias,
        flow_state: &mut FlowState,
    ) -> Result<(), AllocError>
        ensures { Performs (λ u. flow_state_in flow_state.new)
            (spec.name_read self.now.imports.options (interface_in self.now.file.now) self.now.imports.at
            (import_from_of from.now) alias.now (flow_state_in flow_state.old)) (N.trace recorder.old) result
            (N.trace recorder.new) }
    {
        let passed_on = self
            .imports
            .read_imported(recorder, self.file, from, alias)?;
        let alloc = self.imports.alloc;
        let module_path = named_module(
            alloc,
            self.file.name(),
            self.file.is_package(),
            from.dots,
            &from.path,
        )?;
        let ty = imported_type(alloc, recorder, module_path, &alias.name, passed_on)?;
        flow_state.bind(alloc, alias_name(alias), LocalType::Bound(ty))
    }
}

/// The type of a name of some module: Any in a fixed one, and above the root, where there is none.
#[tactic(auto, using(crate::proofs::Steps::performing))]
fn imported_type<N: Ask>(
    alloc: Global,
    recorder: &mut N,
    module_path: Option<ModuleName>,
    name: &Text,
    passed_on: Export,
) -> Result<Ty, AllocError>
    ensures { Performs ty_of (spec.imported_type module_path name.now passed_on) (N.trace recorder.old) result
        (N.trace recorder.new) }
{
    let Some(module_path) = module_path else {
        return Ok(Ty::Any);
    };
    if fixed_module(module_path.parts()).is_some() {
        return Ok(Ty::Any);
    }
    let name = name.clone()?;
    let asked = QualifiedName { module_path, name };
    ask_type(alloc, recorder, &asked, passed_on)
}

/// The type of what a name of a module stands for, by whether the module passes it on.
#[tactic(auto, using(crate::proofs::Steps::performing))]
fn ask_type<N: Ask>(
    alloc: Global,
    recorder: &mut N,
    name: &QualifiedName,
    passed_on: Export,
) -> Result<Ty, AllocError>
    ensures { Performs ty_of (spec.ask_type (qualified_of name.now) passed_on) (N.trace recorder.old) result
        (N.trace recorder.new) }
{
    let asked = name.clone()?;
    let found = ask_name(alloc, recorder, asked)?;
    let seen = exported(alloc, name, found, passed_on)?;
    Ok(seen.ty)
}

/// The type of the name that `import` binds for a module: Any where that module is not there.
fn type_if_there(alloc: Global, is_there: bool, imported: &ImportedModule) -> Result<Ty, AllocError>
    ensures { IfOk result (λ ty. ty_of ty
        ≡ spec.type_if_there is_there
        (spec.bound_module imported.now.path.items imported.now.alias)) }
{
    if !is_there {
        return Ok(Ty::Any);
    }
    let parts = Vec::from_clones(alloc, bound_module(imported))?;
    Ok(Ty::Module(Rc::new(alloc, parts)?))
}

/// The parts of the module to which `import` binds a name: all to the one after `as`, else the first alone.
fn bound_module(imported: &ImportedModule) -> &[Text]
    ensures { result.now ≡ spec.bound_module imported.now.path.items imported.now.alias }
{
    match imported.alias {
        Some(_) => &imported.path,
        None => first_part(&imported.path),
    }
}

/// The first part of a module's name alone.
fn first_part(path: &[Text]) -> &[Text]
    ensures { result.now ≡ spec.bound_module path.now None }
{
    match path {
        [first, ..] => slice::from_ref(first),
        [] => path,
    }
}
