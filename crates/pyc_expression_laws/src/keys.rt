//! Which keys ask files: none of a builtin class, of a member of one, of a fixed module or of a name of one.

ghost use Rattle.pyc_expression_laws.specs.FileKeys.{BuiltinKeysAskNoFile, FixedKeysAskNoFile};

/// The keys of builtin classes and of members of them ask no file, nor do those of fixed modules and of names of them.
pub fn keys_of_files()
    ensures builtin { BuiltinKeysAskNoFile }
    ensures fixed { FixedKeysAskNoFile }
{}
