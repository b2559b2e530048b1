//! Laws of imports.

ghost use Rattle.pyc_imports.specs.Names.{ImportsBindTheirNames};

/// An import binds just the names of its bindings in the scope in which it stands.
pub fn imports_bind_their_names()
    ensures { ImportsBindTheirNames }
{}
