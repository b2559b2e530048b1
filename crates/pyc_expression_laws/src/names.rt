//! What a name asks.

ghost use Rattle.pyc_expression_laws.specs.NameRows.{NameReads};

/// A local asks nothing, nor does a name in a file that is named as a fixed module. Every other name asks just what it
/// stands for in its module.
pub fn name_asks()
    ensures { NameReads }
{}
