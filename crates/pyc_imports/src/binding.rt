//! The names that imports bind.

ghost use Rattle.std.specs.Prelude.{◌≡◌, None, OnOk, flat_map, map};
ghost use Rattle.pyc_ast.specs.StatementView.{imported_module_of, imported_of, stmt_form_of};
ghost use Rattle.pyc_imports.specs.LocalImports as spec;
ghost use Rattle.pyc_imports.specs.Names as names;
ghost use Rattle.pyc_locals.specs.Locals.{bound};
ghost use Rattle.pyc_locals.specs.Views.{flow_state_in};
ghost use Rattle.pyc_type_forms.specs.TypeView.{ty_of};
ghost use Rattle.pyc_type_forms.specs.Types.{any};

use pyc_ast::{Alias, ImportedModule, StmtForm, Text};
use pyc_locals::{FlowState, LocalType};
use pyc_type_forms::Ty;
use std::alloc::{AllocError, Global};
use std::rc::Rc;

/// Binds the names of an import in the body of a module to Any: the header of the file has read the import. Any other
/// statement binds nothing. The only error is that memory runs out.
#[tactic(auto, unfolding(crate::specs::LocalImports::module_import_bound))]
pub fn bind_module_import(
    alloc: Global,
    form: &StmtForm,
    flow_state: &mut FlowState,
) -> Result<(), AllocError>
    ensures { OnOk result (flow_state_in flow_state.new
        ≡ spec.module_import_bound (stmt_form_of form.now) (flow_state_in flow_state.old)) }
{
    match form {
        StmtForm::Import(modules) => bind_modules(alloc, modules, flow_state),
        StmtForm::ImportFrom(from) => bind_aliases(alloc, &from.names, flow_state),
        _ => Ok(()),
    }
}

/// Binds the names of the modules of `import` to Any.
fn bind_modules(
    alloc: Global,
    modules: &[Rc<ImportedModule>],
    flow_state: &mut FlowState,
) -> Result<(), AllocError>
    ensures { OnOk result (flow_state_in flow_state.new
        ≡ spec.names_bound (bound any) (flat_map names.module_names (map imported_of modules.now))
        (flow_state_in flow_state.old)) }
{
    for imported in modules {
        bind_module(alloc, imported, Ty::Any, flow_state)?;
    }
    Ok(())
}

/// Binds the names of a from-import to Any.
fn bind_aliases(
    alloc: Global,
    aliases: &[Alias],
    flow_state: &mut FlowState,
) -> Result<(), AllocError>
    ensures { OnOk result (flow_state_in flow_state.new
        ≡ spec.names_bound (bound any) (map names.alias_name aliases.now) (flow_state_in flow_state.old)) }
{
    for alias in aliases {
        flow_state.bind(alloc, alias_name(alias), LocalType::Bound(Ty::Any))?;
    }
    Ok(())
}

/// Binds the name of a module of `import` to a type. The only error is that memory runs out.
pub(crate) fn bind_module(
    alloc: Global,
    imported: &ImportedModule,
    ty: Ty,
    flow_state: &mut FlowState,
) -> Result<(), AllocError>
    ensures { OnOk result (flow_state_in flow_state.new
        ≡ spec.names_bound (bound (ty_of ty)) (names.module_names (imported_module_of imported.now))
        (flow_state_in flow_state.old)) }
{
    match &imported.alias {
        Some(alias) => flow_state.bind(alloc, alias, LocalType::Bound(ty)),
        None => bind_first(alloc, &imported.path, ty, flow_state),
    }
}

/// Binds the first part of a module's name to a type.
fn bind_first(
    alloc: Global,
    path: &[Text],
    ty: Ty,
    flow_state: &mut FlowState,
) -> Result<(), AllocError>
    ensures { OnOk result (flow_state_in flow_state.new
        ≡ spec.names_bound (bound (ty_of ty)) (names.path_names path.now None) (flow_state_in flow_state.old)) }
{
    match path {
        [first, ..] => flow_state.bind(alloc, first, LocalType::Bound(ty)),
        [] => Ok(()),
    }
}

/// The name that a from-import binds: the one after `as`, else the imported one.
pub(crate) fn alias_name(alias: &Alias) -> &Text
    ensures { result.now ≡ names.alias_name alias.now }
{
    match &alias.alias {
        Some(name) => name,
        None => &alias.name,
    }
}
