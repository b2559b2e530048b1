//! Which paths a file may have.

ghost use Rattle.std.specs.Prelude.{◌≡◌, true, IsTrue, ◌↔◌, List};
ghost use Rattle.std.specs.List.{slice_split, list_all};
ghost use Rattle.std.specs.Str.{is_utf8};
ghost use Rattle.pyc_names.specs.ModuleName.{is_slash, beside};
ghost use Rattle.pyc_workspace.specs.Path.{is_path_byte, is_path_part, names_python_file, is_file_path};

use std::str;

/// The most bytes that a path may have.
pub const LONGEST_PATH: usize = 255;

/// Whether a file may have this path: UTF-8 of at most 255 bytes, parts joined by `/`, none of them empty, `.` or
/// `..`, no control character or space, and a last part that ends in `.py` or `.pyi` with something before it; not
/// `__init__.py` or `__init__.pyi` at the top.
#[tactic(auto, unfolding(crate::specs::Path::is_file_path))]
pub fn is_file_path(path: &[u8]) -> bool
    ensures { result ≡ is_file_path path.now }
{
    path.len() <= LONGEST_PATH
        && has_path_bytes(path)
        && has_path_parts(path)
        && names_python_file(path)
        && beside(path) != b"__init__.py".as_slice()
        && is_text(path)
}

/// Whether each byte may stand in a path.
fn has_path_bytes(path: &[u8]) -> bool
    ensures { result ≡ list_all is_path_byte path.now }
{
    path.iter().all(|b| *b > b' ' && *b != 127)
}

/// Whether each part between slashes may stand there.
fn has_path_parts(path: &[u8]) -> bool
    ensures { result ≡ list_all is_path_part (slice_split is_slash path.now) }
{
    path.split(|b| *b == b'/').all(|part| is_path_part(part))
}

fn is_path_part(part: &[u8]) -> bool
    ensures { result ≡ is_path_part part.now }
{
    !part.is_empty() && part != b".".as_slice() && part != b"..".as_slice()
}

/// Whether the last part ends in `.py` or `.pyi`, with something before it.
fn names_python_file(path: &[u8]) -> bool
    ensures { result ≡ names_python_file path.now }
{
    let path = beside(path);
    path.ends_with(b".py") && !path.ends_with(b"/.py") && path != b".py".as_slice()
}

/// The path that a stub stands beside, or any other path itself, as bytes.
fn beside(path: &[u8]) -> &[u8]
    ensures { result.now ≡ beside path.now }
{
    if path.ends_with(b".pyi") {
        &path[..path.len() - 1]
    } else {
        path
    }
}

fn is_text(path: &[u8]) -> bool
    ensures { result ≡ is_utf8 path.now }
{
    str::from_utf8(path).is_ok()
}
