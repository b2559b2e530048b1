//! Where statements stand.

ghost use Rattle.std.specs.Prelude.{◌≡◌, option_map};
ghost use Rattle.pyc_bindings.specs.BindingView.{binding_of};
ghost use Rattle.pyc_body_context.specs.Bodies as spec;
ghost use Rattle.pyc_scopes.specs.ScopeView.{scope_in};
ghost use Rattle.pyc_type_forms.specs.TypeView.{ty_of};

use crate::class_bodies::ClassBody;
use crate::names::BodyContext;
use pyc_ast::Text;
use pyc_bindings::Binding;
use pyc_class_ids::ClassId;
use pyc_iface::Options;
use pyc_locals::Locals;
use pyc_names::SourceFile;
use pyc_scopes::Scope;
use pyc_type_forms::Ty;

/// What a body is.
#[derive(Clone, Copy, Drop)]
pub enum BodyKind<'a> {
    /// The body of a module.
    Module,
    /// The body of a class.
    Class(&'a ClassBody),
    /// The body of a function, with the type of the values that it gives.
    Function(&'a Ty),
}

/// Where statements stand, and the options of the session.
#[derive(Clone, Copy, Drop)]
pub struct Body<'a> {
    pub options: Options,
    pub file: &'a SourceFile,
    pub kind: BodyKind<'a>,
}

impl<'a> Body<'a> {
    ghost use Rattle.pyc_body_context.specs.BodyNames.{body_context};
    ghost use Rattle.pyc_body_context.specs.Views.{body_in, context_in};
    ghost use Rattle.pyc_locals.specs.Views.{locals_in};

    /// The body with some locals, for its expressions. It takes no memory.
    pub fn context(&self, locals: &'a Locals) -> BodyContext<'a>
        ensures { context_in result ≡ body_context (body_in self.now) (locals_in locals.now) }
    {
        BodyContext {
            body: *self,
            locals,
        }
    }

    /// The type of what a `return` gives: outside functions there is none. It takes no memory.
    pub fn result(&self) -> Option<&'a Ty>
        ensures { option_map (λ ty. ty_of ty.now) result ≡ spec.result_of (body_in self.now).kind }
    {
        match self.kind {
            BodyKind::Function(result) => Some(result),
            _ => None,
        }
    }

    /// The declaration of a name that the body of a class binds. It takes no memory.
    pub(crate) fn own_binding(&self, name: &Text) -> Option<&'a Binding>
        ensures { option_map (λ found. binding_of found.now) result ≡ spec.own_binding (body_in self.now).kind
            name.now }
    {
        match self.kind {
            BodyKind::Class(own) => own.declaration(name),
            _ => None,
        }
    }

    /// The class that the statement around the body declares. It takes no memory.
    pub fn class_around(&self) -> Option<&'a ClassId>
        ensures { option_map (λ class. class.now) result ≡ spec.class_around (body_in self.now).kind }
    {
        match self.kind {
            BodyKind::Class(own) => own.class(),
            _ => None,
        }
    }

    /// The scope of the top level of the file.
    pub(crate) fn top_scope(&self) -> Scope<'a>
        ensures { scope_in result ≡ spec.top_scope (body_in self.now).file }
    {
        Scope {
            file: self.file,
            locals: &[],
        }
    }
}
