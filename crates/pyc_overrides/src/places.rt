//! Where a class binds a name.

ghost use Rattle.std.specs.Prelude.{◌≡◌, map};
ghost use Rattle.pyc_ast.specs.StatementView.{stmt_form_of};
ghost use Rattle.pyc_ast.specs.TargetView.{target_of, target_element_of};
ghost use Rattle.pyc_ast.specs.Targets.{target_elements};
ghost use Rattle.pyc_bindings.specs.BindingView.{binding_of};
ghost use Rattle.pyc_bindings.specs.ScopeView.{part_of, part_form_of};
ghost use Rattle.pyc_members.specs.ClassBodyView.{own_member_of};
ghost use Rattle.pyc_overrides.specs.Places as spec;

use pyc_ast::{Position, StmtForm, Target, TargetElement, TargetForm, Text};
use pyc_bindings::{Binding, Part, PartForm};
use pyc_members::OwnMember;

/// Where what decides of a name is reported of: at the definition or the target that binds it.
pub(crate) fn own_place(parts: &[Part<'_>], own: OwnMember<'_>) -> Position
    ensures { result ≡ spec.own_place (map part_of parts.now) (own_member_of own.entry) }
{
    match own {
        OwnMember::Bound(found) => binding_place(parts, found),
        OwnMember::Annotated(found) => found.at,
        OwnMember::Assigned(found) => found.at,
    }
}

/// Where a binding among the parts of a class's body is reported of: at the target that binds the name, else where its
/// statement begins.
fn binding_place(parts: &[Part<'_>], binding: &Binding) -> Position
    ensures { result ≡ spec.binding_place (map part_of parts.now) (binding_of binding.now) }
{
    let at = binding.place.at;
    place_in_parts_at(parts, at, &binding.name).unwrap_or(at)
}

/// Where a name stands first among the targets of the statement that begins at a position.
fn place_in_parts_at(parts: &[Part<'_>], at: Position, name: &Text) -> Option<Position>
    ensures { result ≡ spec.place_in_parts_at (map part_of parts.now) at name.now }
{
    for part in parts {
        if let Some(place) = place_in_part_at(part, at, name) {
            return Some(place);
        }
    }
    None
}

/// Where a name stands first among the targets of a part, if that is one of the statement that begins at a position.
fn place_in_part_at(part: &Part<'_>, at: Position, name: &Text) -> Option<Position>
    ensures { result ≡ spec.place_in_part_at (part_of part.now) at name.now }
{
    if part.place.at == at {
        place_in_part(part.form, name)
    } else {
        None
    }
}

/// Where a name stands first among the targets of a part.
fn place_in_part(form: PartForm<'_>, name: &Text) -> Option<Position>
    ensures { result ≡ spec.place_in_part (part_form_of form.entry) name.now }
{
    match form {
        PartForm::Statement(statement) => place_in_statement(&statement.form, name),
        PartForm::Target(target) => place_in(target, name),
        PartForm::Caught(_) => None,
    }
}

/// Where a name stands first among the targets of a simple statement.
fn place_in_statement(form: &StmtForm, name: &Text) -> Option<Position>
    ensures { result ≡ spec.place_in_statement (stmt_form_of form.now) name.now }
{
    match form {
        StmtForm::Assign { targets, .. } => place_in_targets(targets, name),
        StmtForm::Annotate(found) => place_in(&found.target, name),
        StmtForm::Augment(found) => place_in(&found.target, name),
        StmtForm::Delete(target) => place_in(target, name),
        _ => None,
    }
}

/// Where a name stands first among targets.
fn place_in_targets(targets: &[Target], name: &Text) -> Option<Position>
    ensures { result ≡ spec.place_in_targets (map target_of targets.now) name.now }
{
    for target in targets {
        if let Some(place) = place_in(target, name) {
            return Some(place);
        }
    }
    None
}

/// Where a name stands first in a target, its parentheses included.
#[cycle(targets)]
fn place_in(target: &Target, name: &Text) -> Option<Position>
    ensures { result ≡ spec.place_in (target_of target.now) name.now }
{
    match &target.form {
        TargetForm::Name(written) => place_if(target.at, *written == *name),
        TargetForm::Unpacking(elements) => place_in_elements(elements, name),
        _ => None,
    }
}

/// Where a name stands first in the targets of a tuple or a list.
#[cycle(targets)]
fn place_in_elements(elements: &[TargetElement], name: &Text) -> Option<Position>
    ensures { result
        ≡ spec.place_in_elements (target_elements (map target_element_of elements.now)) name.now }
{
    for element in elements {
        if let Some(place) = place_in(&element.target, name) {
            return Some(place);
        }
    }
    None
}

/// A position, if it is the one.
fn place_if(at: Position, is_it: bool) -> Option<Position>
    ensures { result ≡ spec.place_if at is_it }
{
    if is_it { Some(at) } else { None }
}
