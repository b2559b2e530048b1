//! Whether two answers are one.

ghost use Rattle.std.specs.Prelude.{◌≡◌, Decides, map, option_map};
ghost use Rattle.pyc_reading.specs.AnswerView.{answer_in, class_order_of, kind_of, member_answer_of, name_answer_of};
ghost use Rattle.pyc_known_answers.specs.SameAnswers as spec;

use pyc_class_ids::{ClassId, UnknownMro};
use pyc_names::FixedName;
use pyc_reading::{
    Answer, Export, MemberAnswer, MemberKind, MroAnswer, NameAnswer, NameKind, Presence,
};
use pyc_types::same_type;

/// Whether two answers are one. It takes no memory.
pub fn is_same(answer: &Answer, other: &Answer) -> bool
    ensures value { result ≡ spec.same_answer (answer_in answer.now) (answer_in other.now) }
    ensures decides { Decides result (answer_in answer.now ≡ answer_in other.now) }
{
    same_answer(answer, other)
}

/// Whether two answers are of one form and say one thing.
fn same_answer(answer: &Answer, other: &Answer) -> bool
    ensures { result ≡ spec.same_answer (answer_in answer.now) (answer_in other.now) }
{
    match answer {
        Answer::Presence(found) =>
            matches!(other, Answer::Presence(own) if same_presence(*found, *own)),
        Answer::Name(found) => matches!(other, Answer::Name(own) if same_name(found, own)),
        Answer::Mro(found) => matches!(other, Answer::Mro(own) if same_order(found, own)),
        Answer::Member(found) => matches!(other, Answer::Member(own) if same_member(found, own)),
        Answer::Export(found) => matches!(other, Answer::Export(own) if same_export(*found, *own)),
    }
}

/// Whether a module or a name is there alike.
fn same_presence(found: Presence, other: Presence) -> bool
    ensures { result ≡ spec.same_presence found other }
{
    match found {
        Presence::NoModule => matches!(other, Presence::NoModule),
        Presence::Opaque => matches!(other, Presence::Opaque),
        Presence::NoName => matches!(other, Presence::NoName),
        Presence::Cycle => matches!(other, Presence::Cycle),
        Presence::There => matches!(other, Presence::There),
    }
}

/// Whether a module passes names on alike.
fn same_export(found: Export, other: Export) -> bool
    ensures { result ≡ spec.same_export found other }
{
    match found {
        Export::Open => matches!(other, Export::Open),
        Export::Submodule => matches!(other, Export::Submodule),
        Export::Hidden => matches!(other, Export::Hidden),
    }
}

/// Whether two names stand for one thing of one type.
fn same_name(found: &NameAnswer, other: &NameAnswer) -> bool
    ensures { result ≡ spec.same_name (name_answer_of found.now) (name_answer_of other.now) }
{
    same_kind(&found.kind, &other.kind) && same_type(&found.ty, &other.ty)
}

/// Whether two names stand for one kind of thing.
fn same_kind(kind: &NameKind, other: &NameKind) -> bool
    ensures { result ≡ spec.same_kind (kind_of kind.now) (kind_of other.now) }
{
    match kind {
        NameKind::AnnotatedVariable => matches!(other, NameKind::AnnotatedVariable),
        NameKind::Variable => matches!(other, NameKind::Variable),
        NameKind::Alias => matches!(other, NameKind::Alias),
        NameKind::Function => matches!(other, NameKind::Function),
        NameKind::Class => matches!(other, NameKind::Class),
        NameKind::Module(module) => matches!(other, NameKind::Module(own) if module == own),
        NameKind::Fixed(name) =>
            matches!(other, NameKind::Fixed(own) if fixed_number(*name) == fixed_number(*own)),
        NameKind::Unknown => matches!(other, NameKind::Unknown),
        NameKind::Opaque => matches!(other, NameKind::Opaque),
        NameKind::NoModule => matches!(other, NameKind::NoModule),
        NameKind::NoName => matches!(other, NameKind::NoName),
        NameKind::NoTarget => matches!(other, NameKind::NoTarget),
        NameKind::Cycle => matches!(other, NameKind::Cycle),
    }
}

/// The number of a name of a fixed module: other names have other numbers.
fn fixed_number(name: FixedName) -> u8
    ensures { result ≡ spec.fixed_number name }
{
    match name {
        FixedName::Any => 0,
        FixedName::Optional => 1,
        FixedName::Union => 2,
        FixedName::List => 3,
        FixedName::Dict => 4,
        FixedName::Tuple => 5,
        FixedName::Callable => 6,
        FixedName::Cast => 7,
        FixedName::RevealType => 8,
        FixedName::TypeChecking => 9,
    }
}

/// Whether two classes have one order.
fn same_order(order: &MroAnswer, other: &MroAnswer) -> bool
    ensures { result ≡ spec.same_order (class_order_of order.now) (class_order_of other.now) }
{
    same_classes(&order.classes, &other.classes)
        && same_reason(order.unknown, other.unknown)
        && order.has_call == other.has_call
}

/// Whether two rows of classes are one.
fn same_classes(classes: &[ClassId], others: &[ClassId]) -> bool
    ensures { result ≡ spec.same_classes classes.now others.now }
{
    classes == others
}

/// Whether both orders are known, or neither for one reason.
fn same_reason(reason: Option<UnknownMro>, other: Option<UnknownMro>) -> bool
    ensures { result ≡ spec.same_reason reason other }
{
    match reason {
        None => matches!(other, None),
        Some(UnknownMro::Base) => matches!(other, Some(UnknownMro::Base)),
        Some(UnknownMro::Cycle) => matches!(other, Some(UnknownMro::Cycle)),
        Some(UnknownMro::Merge) => matches!(other, Some(UnknownMro::Merge)),
    }
}

/// Whether two classes have one thing under a name, or neither has any.
fn same_member(member: &Option<MemberAnswer>, other: &Option<MemberAnswer>) -> bool
    ensures { result
        ≡ spec.same_member (option_map member_answer_of member.now) (option_map member_answer_of other.now) }
{
    match member {
        Some(found) => matches!(other, Some(own) if same_found(found, own)),
        None => matches!(other, None),
    }
}

/// Whether two members are of one class, one kind and one type.
fn same_found(found: &MemberAnswer, other: &MemberAnswer) -> bool
    ensures { result ≡ spec.same_found (member_answer_of found.now) (member_answer_of other.now) }
{
    found.class == other.class
        && same_member_kind(found.kind, other.kind)
        && same_type(&found.ty, &other.ty)
}

/// Whether two members are one kind of thing.
fn same_member_kind(kind: MemberKind, other: MemberKind) -> bool
    ensures { result ≡ spec.same_member_kind kind other }
{
    match kind {
        MemberKind::Variable => matches!(other, MemberKind::Variable),
        MemberKind::Method => matches!(other, MemberKind::Method),
        MemberKind::StaticMethod => matches!(other, MemberKind::StaticMethod),
        MemberKind::ClassMethod => matches!(other, MemberKind::ClassMethod),
        MemberKind::Property => matches!(other, MemberKind::Property),
        MemberKind::SettableProperty => matches!(other, MemberKind::SettableProperty),
    }
}
