//! What a test by `isinstance` asks.

ghost use Rattle.pyc_expression_laws.specs.TestRows.{InstanceTestReads};

/// A test by `isinstance` asks the classes of sources that are written in the type of the place, and then those of the
/// test.
pub fn instance_test_asks()
    ensures { InstanceTestReads }
{}
