//! The bases and orders of classes, and what their ancestors declare as well.

ghost use Rattle.std.specs.Prelude.{map, option_map};
ghost use Rattle.pyc_annotations.specs.Bases.{class_base};
ghost use Rattle.pyc_annotations.specs.Views.{base_of};
ghost use Rattle.pyc_ast.specs.StatementView.{block_of, class_of};
ghost use Rattle.pyc_units.specs.DefinitionReadings as spec;
ghost use Rattle.pyc_names.specs.SourceFileView.{source_in};
ghost use Rattle.pyc_reading.specs.AnswerView.{answer_in};
ghost use Rattle.pyc_reading.specs.Traces.{Performs};
ghost use Rattle.pyc_reading.specs.Readings.{each};

use pyc_annotations::{Base, read_bases};
use pyc_ast::{Block, ClassDefinition, Position, Text};
use pyc_body_context::declares_class;
use pyc_class_ids::{ClassId, UnknownMro};
use pyc_declarations::own_class;
use pyc_iface::{Answer, Ask, Key};
use pyc_messages::{base_cycle_text, no_order_text};
use pyc_names::SourceFile;
use pyc_obligations::AskTypes;
use pyc_overrides::read_overrides;
use pyc_reading::report_error;
use pyc_report::Code;
use std::alloc::{AllocError, Global};

/// Reads what a class of this order, if it has one, declares as an ancestor does.
pub(crate) fn read_subclass<N: AskTypes>(
    alloc: Global,
    recorder: &mut N,
    file: &SourceFile,
    name: &Text,
    body: &Block,
    order: Option<Vec<ClassId>>,
) -> Result<(), AllocError>
    ensures { Performs (λ u. u)
        (spec.subclass_reading (source_in file.now) name.now (block_of body.now) (option_map (λ v. v.items) order))
        (N.trace recorder.old) result (N.trace recorder.new) }
{
    let Block::Of(statements) = body;
    match order {
        Some(classes) => read_overrides(alloc, recorder, file, name, statements, &classes),
        None => Ok(()),
    }
}

/// Reads the bases of a class, and its order where the file declares it.
#[tactic(auto, using(crate::proofs::Steps::performing))]
pub(crate) fn read_class<N: Ask>(
    alloc: Global,
    recorder: &mut N,
    file: &SourceFile,
    at: Position,
    head: &ClassDefinition,
) -> Result<Option<Vec<ClassId>>, AllocError>
    ensures { Performs (option_map (λ v. v.items)) (spec.class_reading (source_in file.now) at (class_of head.now))
        (N.trace recorder.old) result (N.trace recorder.new) }
{
    let bases = read_bases(alloc, recorder, file.interface(), &head.arguments)?;
    if declares_class(file, at, &head.name) {
        read_declared(alloc, recorder, file, at, &head.name, &bases)
    } else {
        Ok(None)
    }
}

/// Reads the orders of the bases of a class that a file declares, and its own.
#[tactic(auto, using(crate::proofs::Steps::performing))]
fn read_declared<N: Ask>(
    alloc: Global,
    recorder: &mut N,
    file: &SourceFile,
    at: Position,
    name: &Text,
    bases: &[Base],
) -> Result<Option<Vec<ClassId>>, AllocError>
    ensures { Performs (option_map (λ v. v.items))
        (spec.declared_reading (source_in file.now) at name.now (map base_of bases.now))
        (N.trace recorder.old) result (N.trace recorder.new) }
{
    read_base_orders(alloc, recorder, bases)?;
    let class = own_class(alloc, file.interface(), name)?;
    let answer = recorder.ask(alloc, Key::Class(class))?;
    let order = read_order(alloc, recorder, at, name, answer)?;
    Ok(order)
}

/// Reads the orders of bases, in turn.
fn read_base_orders<N: Ask>(
    alloc: Global,
    recorder: &mut N,
    bases: &[Base],
) -> Result<(), AllocError>
    ensures { Performs (λ u. u) (each spec.base_reading (map base_of bases.now)) (N.trace recorder.old) result
        (N.trace recorder.new) }
{
    for base in bases {
        read_base_order(alloc, recorder, base)?;
    }
    Ok(())
}

/// Reads the order of a base that is a class of a file.
fn read_base_order<N: Ask>(alloc: Global, recorder: &mut N, base: &Base) -> Result<(), AllocError>
    ensures { Performs (λ u. u) (spec.base_reading (base_of base.now)) (N.trace recorder.old) result
        (N.trace recorder.new) }
{
    match base {
        Base::Class(class) => read_class_order(alloc, recorder, class),
        _ => Ok(()),
    }
}

/// Reads the order of a class, unless it is a builtin one.
fn read_class_order<N: Ask>(
    alloc: Global,
    recorder: &mut N,
    class: &ClassId,
) -> Result<(), AllocError>
    ensures { Performs (λ u. u) (spec.base_reading (class_base class.now)) (N.trace recorder.old) result
        (N.trace recorder.new) }
{
    match class.as_builtin() {
        Some(_) => Ok(()),
        None => {
            recorder.ask(alloc, Key::Class(class.clone()?))?;
            Ok(())
        }
    }
}

/// The order that an answer gives; why it is not known is reported.
#[tactic(auto, using(crate::proofs::Steps::performing))]
fn read_order<N: Ask>(
    alloc: Global,
    recorder: &mut N,
    at: Position,
    name: &Text,
    answer: Answer,
) -> Result<Option<Vec<ClassId>>, AllocError>
    ensures { Performs (option_map (λ v. v.items)) (spec.order_reading at name.now (answer_in answer))
        (N.trace recorder.old) result (N.trace recorder.new) }
{
    match answer {
        Answer::Mro(order) => {
            report_unknown(alloc, recorder, at, name, order.unknown)?;
            Ok(Some(order.classes))
        }
        _ => Ok(None),
    }
}

/// Reports why the order of a class is not known, where that is a cycle or a merge that fails.
fn report_unknown<N: Ask>(
    alloc: Global,
    recorder: &mut N,
    at: Position,
    name: &Text,
    unknown: Option<UnknownMro>,
) -> Result<(), AllocError>
    ensures { Performs (λ u. u) (spec.unknown_reported at name.now unknown) (N.trace recorder.old) result
        (N.trace recorder.new) }
{
    match unknown {
        Some(UnknownMro::Cycle) => {
            let text = base_cycle_text(alloc, name.as_str())?;
            report_error(recorder, at, Code::Misc, text)
        }
        Some(UnknownMro::Merge) => {
            let text = no_order_text(alloc, name.as_str())?;
            report_error(recorder, at, Code::Misc, text)
        }
        _ => Ok(()),
    }
}
