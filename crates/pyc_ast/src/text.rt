//! Short texts that are shared.

ghost use Rattle.std.specs.Prelude.{◌≡◌, IfOk};
ghost use Rattle.pyc_ast.specs.Names.{nfkc_text};

use std::alloc::{AllocError, Global};
use std::hash::{Hash, Hasher};
use std::marker::Model;
use std::rc::Rc;
use unicode_normalization::to_nfkc;

/// A short text, shared within a file: an identifier in Normalization Form KC, or the code of an ignore comment.
/// Contracts see its bytes.
#[derive(Debug)]
pub struct Text {
    shared: Rc<String>,
}

/// Written out: the crates above call it, where what `derive` writes would be made and proved in each of them.
impl Drop for Text {
    fn drop(self) {
        let Text { shared } = self;
        drop(shared);
    }
}

impl Model for Text {
    ghost use Rattle.std.specs.Prelude.{List, ℕ, string_bytes};

    ghost Value = { List ℕ };

    ghost view = { λ text. string_bytes text.shared.value };
}

impl Text {
    /// A text of its own.
    pub fn new(alloc: Global, text: &str) -> Result<Text, AllocError>
        ensures { IfOk result (λ made. made ≡ text.now) }
    {
        let text = String::from_str(alloc, text)?;
        Ok(Text {
            shared: Rc::new(alloc, text)?,
        })
    }

    /// A name in Normalization Form KC, in a text of its own. A name in ASCII is itself.
    pub fn normalized(alloc: Global, name: &str) -> Result<Text, AllocError>
        ensures { IfOk result (λ made. made ≡ nfkc_text name.now) }
    {
        if name.is_ascii() {
            return Text::new(alloc, name);
        }
        Ok(Text {
            shared: Rc::new(alloc, to_nfkc(alloc, name)?)?,
        })
    }

    /// The text itself.
    pub fn as_str(&self) -> &str
        ensures { result.now ≡ self.now }
    {
        self.shared.as_str()
    }
}

impl Clone for Text {
    ghost is_clone = { λ text copy. copy ≡ text };

    /// A clone shares the text, and takes no memory. The only error is a full count of those that share it.
    fn clone(&self) -> Result<Text, AllocError> {
        Ok(Text {
            shared: self.shared.clone()?,
        })
    }
}

impl PartialEq for Text {
    ghost use Rattle.std.specs.Prelude.{◌==◌};
    ghost use Rattle.std.specs.Cmp.Lexicographic.{pointwise};
    ghost use Rattle.std.specs.Cmp.Rules.{comparing};
    ghost use Rattle.std.proofs.Common.{rules};

    ghost eq = { pointwise ◌==◌ };

    ghost laws = { Prim.search (comparing, rules) };

    fn eq(&self, other: &Text) -> bool {
        self.as_str() == other.as_str()
    }
}

impl Eq for Text {
    ghost use Rattle.std.specs.Cmp.Rules.{comparing};
    ghost use Rattle.std.proofs.Common.{rules};

    ghost laws = { Prim.search (comparing, rules) };
}

impl Hash for Text {
    ghost use Rattle.std.specs.Hash as fed;
    ghost use Rattle.std.specs.Cmp.Rules.{hashing};
    ghost use Rattle.std.proofs.Common.{rules};

    ghost hash_input = { fed.str };

    ghost respects_eq = { Prim.search (hashing, rules) };

    fn hash<H: Hasher>(&self, state: &mut H) {
        self.as_str().hash(state);
    }
}
