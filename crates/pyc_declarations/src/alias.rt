//! Which variables are type aliases.

ghost use Rattle.std.specs.Prelude.{◌≡◌, IfOk};
ghost use Rattle.pyc_ast.specs.ExprView.{expr_of};
ghost use Rattle.pyc_declarations.specs.Kinds as spec;
ghost use Rattle.pyc_declarations.specs.Looks as look;
ghost use Rattle.pyc_names.specs.FollowingView.{qualified_of, referent_of};
ghost use Rattle.pyc_names.specs.InterfaceView.{interface_in};
ghost use Rattle.pyc_names.specs.NotedLooks.{with_looks};
ghost use Rattle.pyc_names.specs.NotedLooksView.{noted_in};
ghost use Rattle.pyc_reading.specs.AnswerView.{kind_of};
ghost use Rattle.pyc_type_exprs.specs.TypeExprView.{type_expr_of};

use crate::kinds::Kinds;
use pyc_ast::{Expr, Text};
use pyc_builtins::is_dunder;
use pyc_names::{Interface, Looks, ModuleName, QualifiedName, Referent, fixed_module};
use pyc_reading::NameKind;
use pyc_type_exprs::{TypeExpr, type_expr};
use std::alloc::{AllocError, Global};

impl Kinds<'_> {
    ghost use Rattle.pyc_declarations.specs.KindsView.{kinds_in};

    /// Whether a variable with this annotation, which stands in a file, is a type alias; what is looked at for that is
    /// noted. The only error is that memory runs out.
    #[tactic(auto, unfolding(crate::specs::Kinds::is_alias, crate::specs::Looks::alias_looks))]
    pub(crate) fn is_alias(
        &self,
        alloc: Global,
        file: &Interface,
        annotation: &Expr,
        looks: &mut Looks,
    ) -> Result<bool, AllocError>
        ensures found { IfOk result (λ found. found
            ≡ spec.is_alias (kinds_in self.now) (interface_in file.now) (expr_of annotation.now)) }
        ensures looks { IfOk result (λ found. noted_in looks.new ≡ with_looks (noted_in looks.old)
            (look.alias_looks (kinds_in self.now) (interface_in file.now) (expr_of annotation.now))) }
    {
        let written = type_expr(alloc, annotation)?;
        self.is_alias_type(alloc, file, &written, looks)
    }

    /// Whether an annotation is a name of a fixed module that is Any there.
    #[tactic(auto, using(pyc_names::proofs::NotedLemmas::noting))]
    fn is_alias_type(
        &self,
        alloc: Global,
        file: &Interface,
        written: &TypeExpr,
        looks: &mut Looks,
    ) -> Result<bool, AllocError>
        ensures found { IfOk result (λ found. found
            ≡ spec.is_alias_type (kinds_in self.now) (interface_in file.now) (type_expr_of written.now)) }
        ensures looks { IfOk result (λ found. noted_in looks.new ≡ with_looks (noted_in looks.old)
            (look.alias_type_looks (kinds_in self.now) (interface_in file.now) (type_expr_of written.now))) }
    {
        match written {
            TypeExpr::Name { name, .. } => {
                let found = self.dotted_referent(alloc, file, &name.names, looks)?;
                Ok(is_fixed_any(&found))
            }
            _ => Ok(false),
        }
    }

    /// What names joined by dots stand for.
    #[tactic(auto, using(pyc_names::proofs::NotedLemmas::noting))]
    fn dotted_referent(
        &self,
        alloc: Global,
        file: &Interface,
        names: &[Text],
        looks: &mut Looks,
    ) -> Result<Referent, AllocError>
        ensures found { IfOk result (λ found. referent_of found
            ≡ spec.dotted_referent (kinds_in self.now) (interface_in file.now) names.now) }
        ensures looks { IfOk result (λ found. noted_in looks.new ≡ with_looks (noted_in looks.old)
            (look.dotted_looks (kinds_in self.now) (interface_in file.now) names.now)) }
    {
        match names.split_first() {
            Some((first, rest)) => {
                let found = self.own_referent(alloc, file, first, looks)?;
                self.attributes_referent(alloc, found, rest, looks)
            }
            None => Ok(Referent::NoName),
        }
    }

    /// What a name that stands in a file stands for, where the file binds it.
    fn own_referent(
        &self,
        alloc: Global,
        file: &Interface,
        name: &Text,
        looks: &mut Looks,
    ) -> Result<Referent, AllocError>
        ensures found { IfOk result (λ found. referent_of found
            ≡ spec.own_referent (kinds_in self.now) (interface_in file.now) name.now) }
        ensures looks { IfOk result (λ found. noted_in looks.new ≡ with_looks (noted_in looks.old)
            (look.own_name_looks (kinds_in self.now) (interface_in file.now) name.now)) }
    {
        let q = QualifiedName {
            module_path: file.name().clone()?,
            name: name.clone()?,
        };
        match file.declaration(name) {
            Some(_) => self.table.follow(alloc, &q, looks),
            None => {
                looks.note_name(&q)?;
                Ok(Referent::NoName)
            }
        }
    }

    /// Attributes of what a name stands for, one behind another.
    #[tactic(auto, using(pyc_names::proofs::NotedLemmas::noting))]
    fn attributes_referent(
        &self,
        alloc: Global,
        found: Referent,
        names: &[Text],
        looks: &mut Looks,
    ) -> Result<Referent, AllocError>
        ensures found { IfOk result (λ end. referent_of end
            ≡ spec.attributes_referent (kinds_in self.now) (referent_of found) names.now) }
        ensures looks { IfOk result (λ end. noted_in looks.new ≡ with_looks (noted_in looks.old)
            (look.attributes_looks (kinds_in self.now) (referent_of found) names.now)) }
    {
        let mut end = found;
        for name in names {
            end = self.attribute_referent(alloc, end, name, looks)?;
        }
        Ok(end)
    }

    /// An attribute of what a name stands for.
    #[tactic(auto, using(pyc_names::proofs::NotedLemmas::noting))]
    fn attribute_referent(
        &self,
        alloc: Global,
        found: Referent,
        name: &Text,
        looks: &mut Looks,
    ) -> Result<Referent, AllocError>
        ensures found { IfOk result (λ end. referent_of end
            ≡ spec.attribute_referent (kinds_in self.now) (referent_of found) name.now) }
        ensures looks { IfOk result (λ end. noted_in looks.new ≡ with_looks (noted_in looks.old)
            (look.attribute_looks (kinds_in self.now) (referent_of found) name.now)) }
    {
        match found {
            Referent::Module(module_path) => {
                self.module_attribute(alloc, module_path, name, looks)
            }
            _ => Ok(Referent::NoName),
        }
    }

    /// An attribute of a module.
    #[tactic(auto, using(pyc_names::proofs::NotedLemmas::noting))]
    fn module_attribute(
        &self,
        alloc: Global,
        module_path: ModuleName,
        name: &Text,
        looks: &mut Looks,
    ) -> Result<Referent, AllocError>
        ensures found { IfOk result (λ end. referent_of end
            ≡ spec.module_attribute (kinds_in self.now) module_path name.now) }
        ensures looks { IfOk result (λ end. noted_in looks.new ≡ with_looks (noted_in looks.old)
            (look.module_attribute_looks (kinds_in self.now) module_path name.now)) }
    {
        if is_looked_up(&module_path, name) {
            let q = QualifiedName {
                module_path,
                name: name.clone()?,
            };
            self.outside_referent(alloc, &q, looks)
        } else {
            Ok(Referent::NoName)
        }
    }

    /// What a name of a module is to other files.
    #[tactic(auto, using(pyc_names::proofs::NotedLemmas::noting))]
    fn outside_referent(
        &self,
        alloc: Global,
        q: &QualifiedName,
        looks: &mut Looks,
    ) -> Result<Referent, AllocError>
        ensures found { IfOk result (λ end. referent_of end
            ≡ spec.outside_referent (kinds_in self.now) (qualified_of q.now)) }
        ensures looks { IfOk result (λ end. noted_in looks.new ≡ with_looks (noted_in looks.old)
            (look.outside_looks (kinds_in self.now) (qualified_of q.now))) }
    {
        let found = self.table.follow(alloc, q, looks)?;
        self.table.note_seen(q, looks)?;
        if may_be_hidden(&found) && self.table.hides(q) {
            self.table.unbound_referent(alloc, q)
        } else {
            Ok(found)
        }
    }
}

/// Whether a name of a module is looked up: one with two underscores at both ends is so in a fixed module alone.
fn is_looked_up(module_path: &ModuleName, name: &Text) -> bool
    ensures { result ≡ spec.is_looked_up module_path.now name.now }
{
    if is_dunder(name.as_str()) {
        fixed_module(module_path.parts()).is_some()
    } else {
        true
    }
}

/// Whether a name that stands for this may be hidden: not where it is absent.
fn may_be_hidden(found: &Referent) -> bool
    ensures { result ≡ spec.may_be_hidden (referent_of found.now) }
{
    match found {
        Referent::NoModule | Referent::NoName | Referent::Cycle => false,
        _ => true,
    }
}

/// Whether a name stands for one of a fixed module that is Any there.
fn is_fixed_any(found: &Referent) -> bool
    ensures { result ≡ spec.is_fixed_any (referent_of found.now) }
{
    matches!(found, Referent::FixedAny)
}

/// The kind of a variable with an annotation, by whether it is an alias.
pub(crate) fn variable_kind(is_alias: bool) -> NameKind
    ensures { kind_of result ≡ spec.variable_kind is_alias }
{
    if is_alias {
        NameKind::Alias
    } else {
        NameKind::AnnotatedVariable
    }
}
