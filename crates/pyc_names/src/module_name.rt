//! The name of a module, and the one that a path gives.

ghost use Rattle.std.specs.Prelude.{◌≡◌, map, IfOk};
ghost use Rattle.std.specs.List.{slice_split};
ghost use Rattle.pyc_names.specs.ModuleName.{is_slash, stem, spelled_parts, module_of};
ghost use Rattle.pyc_names.specs.ModuleName as spec;

use pyc_ast::Text;
use std::alloc::{AllocError, Global};
use std::hash::{Hash, Hasher};
use std::marker::Model;

/// The name of a module. Contracts see its parts in Normalization Form KC, those of its folders first.
#[derive(Debug, Drop)]
pub struct ModuleName {
    pub(crate) parts: Vec<Text>,
}

impl Model for ModuleName {
    ghost use Rattle.std.specs.Prelude.{List, ℕ};

    ghost Value = { List (List ℕ) };

    ghost view = { λ name. name.parts.items };
}

impl ModuleName {
    /// The module that a path names. The path's parts are separated by `/`, the last stands without `.py`, and
    /// `__init__.py` names its folder; a stub names the module of the path that it stands beside. The only error is
    /// that memory runs out.
    #[tactic(auto, unfolding(crate::specs::ModuleName::module_of))]
    pub fn of_path(alloc: Global, path: &str) -> Result<ModuleName, AllocError>
        ensures { IfOk result (λ name. name ≡ module_of path.now) }
    {
        let spelled = spelled_parts(alloc, beside(path))?;
        let mut parts = Vec::with_capacity(alloc, spelled.len())?;
        for part in &spelled {
            parts.push(Text::normalized(alloc, part)?)?;
        }
        Ok(ModuleName { parts })
    }

    /// The parts of the name, those of its folders first.
    pub fn parts(&self) -> &[Text]
        ensures { result.now ≡ self.now }
    {
        &self.parts
    }
}

impl Clone for ModuleName {
    ghost is_clone = { λ name copy. copy ≡ name };

    /// A clone shares the parts of the name. The only error is that memory runs out.
    fn clone(&self) -> Result<ModuleName, AllocError> {
        Ok(ModuleName {
            parts: self.parts.clone()?,
        })
    }
}

impl PartialEq for ModuleName {
    ghost use Rattle.std.specs.Cmp.Rules.{comparing};
    ghost use Rattle.std.proofs.Common.{rules};
    ghost use Rattle.pyc_names.specs.ModuleName.{same_module};

    ghost eq = { same_module };

    ghost laws = { Prim.search (comparing, rules) };

    /// Whether both name the same module.
    fn eq(&self, other: &ModuleName) -> bool {
        self.parts.as_slice() == other.parts.as_slice()
    }
}

impl Eq for ModuleName {
    ghost use Rattle.std.specs.Cmp.Rules.{comparing};
    ghost use Rattle.std.proofs.Common.{rules};

    ghost laws = { Prim.search (comparing, rules) };
}

impl Hash for ModuleName {
    ghost use Rattle.pyc_names.specs.ModuleHash.{module_input, same_module_fed};

    ghost hash_input = { module_input };

    ghost respects_eq = { same_module_fed };

    fn hash<H: Hasher>(&self, state: &mut H) {
        self.parts.as_slice().hash(state);
    }
}

/// Whether a path is that of a stub.
pub fn is_stub_path(path: &str) -> bool
    ensures { result ≡ spec.is_stub_path path.now }
{
    path.as_bytes().ends_with(b".pyi")
}

/// The path that a stub stands beside, which is its own without the last `i`; any other path itself.
pub fn beside(path: &str) -> &str
    ensures { result.now ≡ spec.beside path.now }
{
    if is_stub_path(path) {
        path.strip_suffix('i').unwrap_or(path)
    } else {
        path
    }
}

/// The parts of the module that a path names, as they are spelled.
fn spelled_parts<'a>(alloc: Global, path: &'a str) -> Result<Vec<&'a str>, AllocError>
    ensures { IfOk result (λ parts. map (λ part. part.now) parts.items
        ≡ spelled_parts (slice_split is_slash path.now)) }
{
    let mut parts = path_parts(alloc, path)?;
    if let Some(name) = parts.pop() {
        if name != "__init__.py" {
            parts.push(stem(name))?;
        }
    }
    Ok(parts)
}

/// The parts of a path, between its slashes.
fn path_parts<'a>(alloc: Global, path: &'a str) -> Result<Vec<&'a str>, AllocError>
    ensures { IfOk result (λ parts. map (λ part. part.now) parts.items ≡ slice_split is_slash path.now) }
{
    let mut parts = Vec::new(alloc);
    for part in path.split('/') {
        parts.push(part)?;
    }
    Ok(parts)
}

/// A file's name without `.py`.
fn stem(name: &str) -> &str
    ensures { result.now ≡ stem name.now }
{
    name.strip_suffix(".py").unwrap_or(name)
}
