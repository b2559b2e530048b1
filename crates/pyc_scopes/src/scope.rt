//! Where a name is sought.

ghost use Rattle.std.specs.Prelude.{◌≡◌, map, option_map};
ghost use Rattle.pyc_scopes.specs.Scopes.{local_of};
ghost use Rattle.pyc_scopes.specs.ScopeView.{local_in};

use pyc_ast::Text;
use pyc_names::SourceFile;
use pyc_type_forms::Ty;

/// A local of a function: its name, and its type where it was declared before.
#[derive(Debug, Drop)]
pub struct Local {
    pub name: Text,
    pub ty: Option<Ty>,
}

/// The file in which an expression stands, and the locals of its function.
#[derive(Clone, Copy, Drop)]
pub struct Scope<'a> {
    pub file: &'a SourceFile,
    pub locals: &'a [Local],
}

/// The local of this name. It takes no memory.
pub(crate) fn local_named<'a>(locals: &'a [Local], name: &Text) -> Option<&'a Local>
    ensures { option_map (λ found. local_in found.now) result ≡ local_of (map local_in locals.now) name.now }
{
    for local in locals {
        if local.name == *name {
            return Some(local);
        }
    }
    None
}
