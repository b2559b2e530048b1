//! What classes have under names, of their own or from their ancestors.

ghost use Rattle.std.specs.Prelude.{◌≡◌, IfOk, OnOk, option_map};
ghost use Rattle.pyc_iface.specs.Answers.{orders_by};
ghost use Rattle.pyc_iface.specs.DeclaredView.{declared_at};
ghost use Rattle.pyc_iface.specs.Looks as look;
ghost use Rattle.pyc_iface.specs.Members as spec;
ghost use Rattle.pyc_iface.specs.PlainWorldView.{world_in};
ghost use Rattle.pyc_names.specs.NotedLooks.{with_looks};
ghost use Rattle.pyc_names.specs.NotedLooksView.{noted_in};
ghost use Rattle.pyc_reading.specs.AnswerView.{member_answer_of};
ghost use Rattle.pyc_reading.specs.KeyView.{member_of as member_name_of};
ghost use Rattle.pyc_type_forms.specs.TypeView.{ty_of};

use crate::declared::Declared;
use crate::world::PlainWorld;
use pyc_ast::Text;
use pyc_builtins::{Member, member_type, own_member};
use pyc_class_ids::{BuiltinClass, ClassId, Lins};
use pyc_declarations::note_fixed;
use pyc_names::Looks;
use pyc_reading::{MemberAnswer, MemberKind, MemberName};
use pyc_types::Ty;
use std::alloc::{AllocError, Global};

impl PlainWorld {
    /// What a class has under a name: what the first class of its order declares, else what the first assigns.
    #[tactic(auto, using(pyc_names::proofs::NotedLemmas::noting))]
    pub(crate) fn member(
        &self,
        alloc: Global,
        q: &MemberName,
        looks: &mut Looks,
    ) -> Result<Option<MemberAnswer>, AllocError>
        ensures found { IfOk result (λ found. option_map member_answer_of found
            ≡ spec.member_answer (world_in self.now) (orders_by (world_in self.now))
            (member_name_of q.now)) }
        ensures looks { IfOk result (λ found. noted_in looks.new ≡ with_looks (noted_in looks.old)
            (look.member_looks (world_in self.now) (orders_by (world_in self.now)) (member_name_of q.now))) }
    {
        note_order_of(&q.class, looks)?;
        let lin = self.lin(&q.class);
        match self.first_declared(alloc, lin.classes, &q.name, looks)? {
            Some(found) => Ok(Some(found)),
            None => self.first_assigned(alloc, lin.classes, &q.name, looks),
        }
    }

    /// What the first of these classes declares under a name.
    #[tactic(auto, using(pyc_names::proofs::NotedLemmas::noting))]
    fn first_declared<'a>(
        &'a self,
        alloc: Global,
        classes: &'a [ClassId],
        name: &Text,
        looks: &mut Looks,
    ) -> Result<Option<MemberAnswer>, AllocError>
        ensures found { IfOk result (λ found. option_map member_answer_of found
            ≡ spec.first_declared (world_in self.now) classes.now name.now) }
        ensures looks { IfOk result (λ found. noted_in looks.new ≡ with_looks (noted_in looks.old)
            (look.first_declared_looks (world_in self.now) classes.now name.now)) }
    {
        for class in classes {
            if let Some(found) = self.declared_in(alloc, class, name, looks)? {
                return Ok(Some(found));
            }
        }
        Ok(None)
    }

    /// What a class declares under a name: a binding of its body, or an annotation through the instance.
    #[tactic(auto, using(pyc_names::proofs::NotedLemmas::noting))]
    fn declared_in<'a>(
        &'a self,
        alloc: Global,
        class: &'a ClassId,
        name: &Text,
        looks: &mut Looks,
    ) -> Result<Option<MemberAnswer>, AllocError>
        ensures found { IfOk result (λ found. option_map member_answer_of found
            ≡ spec.declared_in (world_in self.now) class.now name.now) }
        ensures looks { IfOk result (λ found. noted_in looks.new ≡ with_looks (noted_in looks.old)
            (look.declared_in_looks (world_in self.now) class.now name.now)) }
    {
        match class.as_builtin() {
            Some(builtin) => builtin_member(alloc, builtin, name),
            None => {
                note_member_of(class, name, looks)?;
                self.declared_in_user(alloc, self.declared(class), name, looks)
            }
        }
    }

    #[tactic(auto, using(pyc_names::proofs::NotedLemmas::noting))]
    fn declared_in_user(
        &self,
        alloc: Global,
        found: Option<Declared<'_>>,
        name: &Text,
        looks: &mut Looks,
    ) -> Result<Option<MemberAnswer>, AllocError>
        ensures found { IfOk result (λ member. option_map member_answer_of member
            ≡ spec.declared_in_user (world_in self.now) name.now (option_map declared_at found.entry)) }
        ensures looks { IfOk result (λ member. noted_in looks.new ≡ with_looks (noted_in looks.old)
            (look.declared_in_user_looks (world_in self.now) name.now (option_map declared_at found.entry))) }
    {
        let Some(c) = found else {
            return Ok(None);
        };
        match c.body.in_body_or_annotated(name) {
            Some(own) => Ok(Some(self.own_answer(alloc, c, name, own, looks)?)),
            None => Ok(None),
        }
    }

    /// What the first of these classes assigns under a name through the instance.
    #[tactic(auto, using(pyc_names::proofs::NotedLemmas::noting))]
    fn first_assigned<'a>(
        &'a self,
        alloc: Global,
        classes: &'a [ClassId],
        name: &Text,
        looks: &mut Looks,
    ) -> Result<Option<MemberAnswer>, AllocError>
        ensures found { IfOk result (λ found. option_map member_answer_of found
            ≡ spec.first_assigned (world_in self.now) classes.now name.now) }
        ensures looks { IfOk result (λ found. noted_in looks.new ≡ with_looks (noted_in looks.old)
            (look.first_assigned_looks (world_in self.now) classes.now name.now)) }
    {
        for class in classes {
            if let Some(found) = self.assigned_in(alloc, class, name, looks)? {
                return Ok(Some(found));
            }
        }
        Ok(None)
    }

    /// What a class assigns under a name through the instance.
    #[tactic(auto, using(pyc_names::proofs::NotedLemmas::noting))]
    fn assigned_in<'a>(
        &'a self,
        alloc: Global,
        class: &'a ClassId,
        name: &Text,
        looks: &mut Looks,
    ) -> Result<Option<MemberAnswer>, AllocError>
        ensures found { IfOk result (λ found. option_map member_answer_of found
            ≡ spec.assigned_in (world_in self.now) class.now name.now) }
        ensures looks { IfOk result (λ found. noted_in looks.new ≡ with_looks (noted_in looks.old)
            (look.assigned_in_looks (world_in self.now) class.now name.now)) }
    {
        match class.as_builtin() {
            Some(_) => Ok(None),
            None => {
                note_member_of(class, name, looks)?;
                self.assigned_in_user(alloc, self.declared(class), name, looks)
            }
        }
    }

    #[tactic(auto, using(pyc_names::proofs::NotedLemmas::noting))]
    fn assigned_in_user(
        &self,
        alloc: Global,
        found: Option<Declared<'_>>,
        name: &Text,
        looks: &mut Looks,
    ) -> Result<Option<MemberAnswer>, AllocError>
        ensures found { IfOk result (λ member. option_map member_answer_of member
            ≡ spec.assigned_in_user (world_in self.now) name.now (option_map declared_at found.entry)) }
        ensures looks { IfOk result (λ member. noted_in looks.new ≡ with_looks (noted_in looks.old)
            (look.assigned_in_user_looks (world_in self.now) name.now (option_map declared_at found.entry))) }
    {
        let Some(c) = found else {
            return Ok(None);
        };
        match c.body.assigned_through_self(name) {
            Some(own) => Ok(Some(self.own_answer(alloc, c, name, own, looks)?)),
            None => Ok(None),
        }
    }
}

/// Notes that the order of a class is looked at: those of builtin classes stay. The only error is that memory runs out.
#[tactic(auto, using(pyc_names::proofs::NotedLemmas::noting))]
pub(crate) fn note_order_of(class: &ClassId, looks: &mut Looks) -> Result<(), AllocError>
    ensures { OnOk result (noted_in looks.new
        ≡ with_looks (noted_in looks.old) (look.order_looks class.now)) }
{
    match class.as_builtin() {
        Some(_) => Ok(()),
        None => looks.note_order(class.module(), class.name()),
    }
}

/// Notes that it is looked at what a class of a source has of its own under a name. The only error is that memory runs
/// out.
#[tactic(auto, using(pyc_names::proofs::NotedLemmas::noting))]
fn note_member_of(class: &ClassId, name: &Text, looks: &mut Looks) -> Result<(), AllocError>
    ensures { OnOk result (noted_in looks.new
        ≡ with_looks (noted_in looks.old) (look.class_looks class.now name.now)) }
{
    looks.note_member(class.module(), class.name(), name)?;
    note_fixed(class.module(), looks)
}

/// What a builtin class itself has under a name.
fn builtin_member(
    alloc: Global,
    class: BuiltinClass,
    name: &Text,
) -> Result<Option<MemberAnswer>, AllocError>
    ensures { IfOk result (λ found. option_map member_answer_of found ≡ spec.own_builtin_answer class name.now) }
{
    match own_member(class, name.as_str()) {
        Some(found) => Ok(Some(builtin_answer(alloc, class, found)?)),
        None => Ok(None),
    }
}

fn builtin_answer(
    alloc: Global,
    class: BuiltinClass,
    found: Member,
) -> Result<MemberAnswer, AllocError>
    ensures { IfOk result (λ answer. member_answer_of answer ≡ spec.builtin_answer class found) }
{
    let owner = Ty::Instance(ClassId::builtin(class));
    let ty = member_type(alloc, &owner, found)?;
    Ok(MemberAnswer {
        class: ClassId::builtin(class),
        kind: builtin_kind(found),
        ty,
    })
}

fn builtin_kind(found: Member) -> MemberKind
    ensures { result ≡ spec.builtin_kind found }
{
    match found {
        Member::Attribute => MemberKind::Variable,
        Member::Method(_) | Member::Append => MemberKind::Method,
    }
}
