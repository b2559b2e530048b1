//! Tables by names.

ghost use Rattle.std.specs.Prelude.{◌≡◌, map};
ghost use Rattle.pyc_builtins.specs.Tables.{lookup};

/// What a table has under this name.
pub(crate) fn value_in<V: Copy>(mut table: &[(&[u8], V)], name: &[u8]) -> Option<V>
    ensures { result ≡ lookup (map (λ entry. (entry.0.now, entry.1)) table.entry.now) name.now }
{
    while let [entry, rest @ ..] = table {
        if entry.0 == name {
            return Some(entry.1);
        }
        table = rest;
    }
    None
}
