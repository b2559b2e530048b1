//! What is reported of the names of a class that its ancestors declare as well.

ghost use Rattle.std.specs.Prelude.{◌≡◌, [], IfOk, map, option_map};
ghost use Rattle.pyc_ast.specs.Statements.{stmts};
ghost use Rattle.pyc_ast.specs.StatementView.{stmt_of};
ghost use Rattle.pyc_members.specs.ClassBodyView.{class_body_of, own_member_of};
ghost use Rattle.pyc_names.specs.SourceFileView.{source_in};
ghost use Rattle.pyc_overrides.specs.Names as names;
ghost use Rattle.pyc_overrides.specs.Overrides as spec;
ghost use Rattle.pyc_overrides.specs.Views.{subclass_of, required_in};
ghost use Rattle.pyc_reading.specs.AnswerView.{member_answer_of};
ghost use Rattle.pyc_reading.specs.Traces.{Performs};
ghost use Rattle.pyc_reading.specs.Readings.{each};

use crate::ancestors::{ancestor_member, bind_to_instance, own_declaration};
use crate::names::{bound_names, is_exempt};
use crate::places::own_place;
use crate::signatures::RequiredOverride;
use crate::subclass::Subclass;
use pyc_ast::{Position, Stmt, Text};
use pyc_bindings::scope_parts;
use pyc_class_ids::ClassId;
use pyc_declarations::own_class;
use pyc_members::{ClassBody, OwnMember};
use pyc_names::SourceFile;
use pyc_obligations::{AskTypes, ask_member, require_row};
use pyc_reading::MemberAnswer;
use std::alloc::{AllocError, Global};

/// Reads the names that a class of a file binds, with these statements as its body and this order, itself first: where
/// it declares a name itself, each ancestor that declares it as well is asked, and the first to whose type its own is
/// not assignable is reported. The only error is that memory runs out.
#[tactic(auto, unfolding(crate::specs::Overrides::overrides_read))]
pub fn read_overrides<N: AskTypes>(
    alloc: Global,
    recorder: &mut N,
    file: &SourceFile,
    name: &Text,
    statements: &[Stmt],
    order: &[ClassId],
) -> Result<(), AllocError>
    ensures { Performs (λ u. u)
        (spec.overrides_read (source_in file.now) name.now (stmts (map stmt_of statements.now)) order.now)
        (N.trace recorder.old) result (N.trace recorder.new) }
{
    let class = own_class(alloc, file.interface(), name)?;
    read_class(alloc, recorder, &class, statements, order)
}

/// Reads the names that a class binds.
fn read_class<N: AskTypes>(
    alloc: Global,
    recorder: &mut N,
    class: &ClassId,
    statements: &[Stmt],
    order: &[ClassId],
) -> Result<(), AllocError>
    ensures { Performs (λ u. u) (spec.class_read class.now (stmts (map stmt_of statements.now)) order.now)
        (N.trace recorder.old) result (N.trace recorder.new) }
{
    let body = ClassBody::read(alloc, statements)?;
    read_body(alloc, recorder, class, &body, statements, order)
}

/// Reads the names that a class with this body binds.
fn read_body<N: AskTypes>(
    alloc: Global,
    recorder: &mut N,
    class: &ClassId,
    body: &ClassBody,
    statements: &[Stmt],
    order: &[ClassId],
) -> Result<(), AllocError>
    ensures { Performs (λ u. u)
        (spec.body_read class.now (class_body_of body.now) (stmts (map stmt_of statements.now)) order.now)
        (N.trace recorder.old) result (N.trace recorder.new) }
{
    let parts = scope_parts(alloc, statements)?;
    let subclass = Subclass {
        class,
        body,
        parts: &parts,
        ancestors: ancestors_in(order),
    };
    read_subclass(alloc, recorder, &subclass)
}

/// The ancestors in the order of a class, which has the class itself first.
fn ancestors_in(order: &[ClassId]) -> &[ClassId]
    ensures { result.now ≡ spec.ancestors_in order.now }
{
    match order {
        [_, rest @ ..] => rest,
        [] => order,
    }
}

/// Reads the names that a class binds, each once.
fn read_subclass<N: AskTypes>(
    alloc: Global,
    recorder: &mut N,
    subclass: &Subclass<'_>,
) -> Result<(), AllocError>
    ensures { Performs (λ u. u) (spec.subclass_read (subclass_of subclass.now)) (N.trace recorder.old) result
        (N.trace recorder.new) }
{
    let names = bound_names(alloc, subclass.body)?;
    read_names(alloc, recorder, subclass, names.as_slice())
}

/// Reads names of a class, in turn.
fn read_names<N: AskTypes>(
    alloc: Global,
    recorder: &mut N,
    subclass: &Subclass<'_>,
    names: &[Text],
) -> Result<(), AllocError>
    ensures { Performs (λ u. u) (each (spec.name_read (subclass_of subclass.now)) names.now) (N.trace recorder.old)
        result
        (N.trace recorder.new) }
{
    for name in names {
        read_name(alloc, recorder, subclass, name)?;
    }
    Ok(())
}

/// Reads a name of a class, unless the class may declare it as it likes.
fn read_name<N: AskTypes>(
    alloc: Global,
    recorder: &mut N,
    subclass: &Subclass<'_>,
    name: &Text,
) -> Result<(), AllocError>
    ensures { Performs (λ u. u) (spec.name_read (subclass_of subclass.now) name.now) (N.trace recorder.old) result
        (N.trace recorder.new) }
{
    if is_exempt(name.as_str()) {
        Ok(())
    } else {
        read_member(alloc, recorder, subclass, name)
    }
}

/// Reads what a class has under a name.
#[tactic(auto, using(pyc_obligations::proofs::Steps::performing), unfolding(crate::specs::Overrides::member_read))]
fn read_member<N: AskTypes>(
    alloc: Global,
    recorder: &mut N,
    subclass: &Subclass<'_>,
    name: &Text,
) -> Result<(), AllocError>
    ensures { Performs (λ u. u) (spec.member_read (subclass_of subclass.now) name.now) (N.trace recorder.old) result
        (N.trace recorder.new) }
{
    let found = ask_member(alloc, recorder, subclass.class, name.as_str())?;
    read_declared(
        alloc,
        recorder,
        subclass,
        name,
        own_declaration(subclass.class, found),
    )
}

/// Reads what a class itself declares under a name, if anything.
fn read_declared<N: AskTypes>(
    alloc: Global,
    recorder: &mut N,
    subclass: &Subclass<'_>,
    name: &Text,
    found: Option<MemberAnswer>,
) -> Result<(), AllocError>
    ensures { Performs (λ u. u)
        (spec.declared_read (subclass_of subclass.now) name.now (option_map member_answer_of found))
        (N.trace recorder.old) result
        (N.trace recorder.new) }
{
    match found {
        Some(found) => {
            let got = bind_to_instance(alloc, found)?;
            read_seen(alloc, recorder, subclass, name, &got)
        }
        None => Ok(()),
    }
}

/// Reads a member of a class, with its type as it is through an instance, against those of its ancestors.
fn read_seen<N: AskTypes>(
    alloc: Global,
    recorder: &mut N,
    subclass: &Subclass<'_>,
    name: &Text,
    got: &MemberAnswer,
) -> Result<(), AllocError>
    ensures { Performs (λ u. u) (spec.seen_read (subclass_of subclass.now) name.now (member_answer_of got.now))
        (N.trace recorder.old) result (N.trace recorder.new) }
{
    let own = subclass.body.own_member(name);
    read_own(alloc, recorder, subclass, name, got, own)
}

/// Reads a member of a class, by what decides of its name there.
fn read_own<N: AskTypes>(
    alloc: Global,
    recorder: &mut N,
    subclass: &Subclass<'_>,
    name: &Text,
    got: &MemberAnswer,
    own: Option<OwnMember<'_>>,
) -> Result<(), AllocError>
    ensures { Performs (λ u. u)
        (spec.own_read (subclass_of subclass.now) name.now (member_answer_of got.now)
        (option_map own_member_of own.entry))
        (N.trace recorder.old) result (N.trace recorder.new) }
{
    match own {
        Some(own) => {
            let at = own_place(subclass.parts, own);
            require_overrides(alloc, recorder, at, name, got, subclass.ancestors)
        }
        None => Ok(()),
    }
}

/// Requires that a member is of the type of that of each ancestor.
#[tactic(auto, using(pyc_obligations::proofs::Steps::performing), unfolding(crate::specs::Overrides::overrides_required))]
fn require_overrides<N: AskTypes>(
    alloc: Global,
    recorder: &mut N,
    at: Position,
    name: &Text,
    got: &MemberAnswer,
    ancestors: &[ClassId],
) -> Result<(), AllocError>
    ensures { Performs (λ u. u) (spec.overrides_required at name.now (member_answer_of got.now) ancestors.now)
        (N.trace recorder.old) result (N.trace recorder.new) }
{
    let row = required_overrides(alloc, recorder, at, name, got, ancestors)?;
    require_row(alloc, recorder, row.as_slice())
}

/// What is required of a member to those of these ancestors, in turn.
#[tactic(auto, using(pyc_obligations::proofs::Steps::performing), unfolding(crate::specs::Overrides::more_required))]
fn required_overrides<'a, N: AskTypes>(
    alloc: Global,
    recorder: &mut N,
    at: Position,
    name: &'a Text,
    got: &'a MemberAnswer,
    ancestors: &[ClassId],
) -> Result<Vec<RequiredOverride<'a>>, AllocError>
    ensures { Performs (λ row. map required_in row.items)
        (spec.more_required at name.now (member_answer_of got.now) [] ancestors.now) (N.trace recorder.old) result
        (N.trace recorder.new) }
{
    let mut row = Vec::new(alloc);
    for ancestor in ancestors {
        let found = ancestor_member(alloc, recorder, ancestor, name.as_str())?;
        push_required(alloc, &mut row, at, name, got, found)?;
    }
    Ok(row)
}

/// Adds what is required of a member to what an ancestor declares, if it declares something.
fn push_required<'a>(
    alloc: Global,
    row: &mut Vec<RequiredOverride<'a>>,
    at: Position,
    name: &'a Text,
    got: &'a MemberAnswer,
    found: Option<MemberAnswer>,
) -> Result<(), AllocError>
    ensures { IfOk result (λ u. map required_in row.new.items
        ≡ spec.with_required at name.now (member_answer_of got.now) (map required_in row.old.items)
        (option_map member_answer_of found)) }
{
    match found {
        Some(found) => {
            let want = bind_to_instance(alloc, found)?;
            row.push(RequiredOverride {
                at,
                name,
                got,
                want,
            })?;
            Ok(())
        }
        None => Ok(()),
    }
}
