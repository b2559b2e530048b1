//! What is reported of the top level of a module: imports, cyclic definitions, names that are defined again.

ghost use Rattle.std.specs.Prelude.{◌≡◌, [], map, take};
ghost use Rattle.pyc_ast.specs.Modules.{tree, module_of};
ghost use Rattle.pyc_bindings.specs.BindingView.{binding_of, binding_form_of};
ghost use Rattle.pyc_bindings.specs.ScopeView.{part_of, part_form_of};
ghost use Rattle.pyc_units.specs.Header as spec;
ghost use Rattle.pyc_names.specs.Following.{is_import_from};
ghost use Rattle.pyc_names.specs.SourceFileView.{source_in};
ghost use Rattle.pyc_reading.specs.Traces.{Performs, line_reported};
ghost use Rattle.pyc_reading.specs.Readings.{each};
ghost use Rattle.pyc_report.specs.declared.message.Code.TheVariants as code;

use pyc_ast::{Fault, Module, Outcome, Position, Text};
use pyc_bindings::{Binding, BindingForm, BindingSite, Part, PartForm, scope_parts};
use pyc_functions::report_redefinitions;
use pyc_iface::{Ask, Key, Options, Presence};
use pyc_imports::{ImportReader, ask_presence};
use pyc_messages::import_cycle_text;
use pyc_names::{QualifiedName, SourceFile, fixed_module};
use pyc_reading::{report_error, report_line};
use pyc_report::Code;
use std::alloc::{AllocError, Global};

/// Reads the header of a file: its imports, the cyclic definitions and the names that are defined again, or its fault.
/// The only error is that memory runs out.
#[tactic(auto, unfolding(crate::specs::Header::header_reading))]
pub fn read_header<N: Ask>(
    alloc: Global,
    recorder: &mut N,
    options: Options,
    file: &SourceFile,
) -> Result<(), AllocError>
    ensures { Performs (λ u. u) (spec.header_reading options (source_in file.now)) (N.trace recorder.old) result
        (N.trace recorder.new) }
{
    match file.outcome() {
        Outcome::Tree(module) => read_top_level(alloc, recorder, options, file, module),
        Outcome::Fault(fault) => report_fault(alloc, recorder, *fault),
    }
}

/// Reads the top level of a file that has this tree.
#[tactic(auto, using(crate::proofs::Steps::performing))]
fn read_top_level<N: Ask>(
    alloc: Global,
    recorder: &mut N,
    options: Options,
    file: &SourceFile,
    top: &Module,
) -> Result<(), AllocError>
    ensures { Performs (λ u. u)
        (spec.outcome_reading options (source_in file.now) (tree (module_of top.now))) (N.trace recorder.old) result
        (N.trace recorder.new) }
{
    let parts = scope_parts(alloc, &top.statements)?;
    read_parts(alloc, recorder, options, file, &parts)?;
    read_cycles(alloc, recorder, file)?;
    report_redefinitions(alloc, recorder, file.redefinitions())?;
    Ok(())
}

/// Reports a fault.
fn report_fault<N: Ask>(alloc: Global, recorder: &mut N, fault: Fault) -> Result<(), AllocError>
    ensures { Performs (λ u. u) (line_reported fault.line code.Syntax fault.text.now) (N.trace recorder.old) result
        (N.trace recorder.new) }
{
    let text = String::from_str(alloc, fault.text)?;
    report_line(recorder, fault.line, Code::Syntax, text)
}

/// Reads the imports among parts, in turn.
fn read_parts<N: Ask>(
    alloc: Global,
    recorder: &mut N,
    options: Options,
    file: &SourceFile,
    parts: &[Part<'_>],
) -> Result<(), AllocError>
    ensures { Performs (λ u. u) (each (spec.part_reading options (source_in file.now)) (map part_of parts.now))
        (N.trace recorder.old) result (N.trace recorder.new) }
{
    for part in parts {
        read_part(alloc, recorder, options, file, part.place, part.form)?;
    }
    Ok(())
}

/// Reads the imports that a part is.
fn read_part<N: Ask>(
    alloc: Global,
    recorder: &mut N,
    options: Options,
    file: &SourceFile,
    place: BindingSite,
    form: PartForm<'_>,
) -> Result<(), AllocError>
    ensures { Performs (λ u. u) (spec.form_reading options (source_in file.now) place (part_form_of form.entry))
        (N.trace recorder.old) result (N.trace recorder.new) }
{
    match form {
        PartForm::Statement(statement) => {
            let reader = ImportReader {
                alloc,
                options,
                at: place.at,
            };
            reader.read_import(recorder, file.interface(), &statement.form)
        }
        _ => Ok(()),
    }
}

/// Reads the from-imports that declare their names: those on a ring are reported.
fn read_cycles<N: Ask>(alloc: Global, recorder: &mut N, file: &SourceFile) -> Result<(), AllocError>
    ensures { Performs (λ u. u) (spec.cycles_after (source_in file.now) [] (source_in file.now).bindings)
        (N.trace recorder.old) result (N.trace recorder.new) }
{
    let bindings = file.bindings();
    for (i, binding) in bindings.iter().enumerate() {
        read_binding(alloc, recorder, file, i, binding)?;
    }
    Ok(())
}

/// Reads a binding after so many of the file's, where it is a from-import that declares its name.
fn read_binding<N: Ask>(
    alloc: Global,
    recorder: &mut N,
    file: &SourceFile,
    count: usize,
    binding: &Binding,
) -> Result<(), AllocError>
    ensures { Performs (λ u. u)
        (spec.binding_reading (source_in file.now) (take count (source_in file.now).bindings) (binding_of binding.now))
        (N.trace recorder.old) result (N.trace recorder.new) }
{
    if is_import_from(&binding.form) && file.declaration_before(count, &binding.name).is_none() {
        read_cycle(alloc, recorder, file, binding)
    } else {
        Ok(())
    }
}

/// Reads a from-import that declares its name.
#[tactic(auto, using(crate::proofs::Steps::performing))]
fn read_cycle<N: Ask>(
    alloc: Global,
    recorder: &mut N,
    file: &SourceFile,
    binding: &Binding,
) -> Result<(), AllocError>
    ensures { Performs (λ u. u) (spec.cycle_reading (source_in file.now) (binding_of binding.now))
        (N.trace recorder.old) result (N.trace recorder.new) }
{
    if fixed_module(file.name().parts()).is_some() {
        return Ok(());
    }
    let module_path = file.name().clone()?;
    let name = binding.name.clone()?;
    let key = Key::HasName(QualifiedName { module_path, name });
    let found = ask_presence(alloc, recorder, key)?;
    report_cycle(alloc, recorder, binding.place.at, &binding.name, found)
}

/// Reports a from-import that declares its name, by what the module says of the name.
fn report_cycle<N: Ask>(
    alloc: Global,
    recorder: &mut N,
    at: Position,
    name: &Text,
    found: Option<Presence>,
) -> Result<(), AllocError>
    ensures { Performs (λ u. u) (spec.cycle_reported at name.now found) (N.trace recorder.old) result
        (N.trace recorder.new) }
{
    match found {
        Some(Presence::Cycle) => {
            let text = import_cycle_text(alloc, name.as_str())?;
            report_error(recorder, at, Code::Misc, text)
        }
        _ => Ok(()),
    }
}

/// Whether a binding of this form is a from-import.
fn is_import_from(form: &BindingForm) -> bool
    ensures { result ≡ is_import_from (binding_form_of form.now) }
{
    matches!(form, BindingForm::ImportFrom(..))
}
