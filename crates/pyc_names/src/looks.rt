//! What was looked at, by numbers.

ghost use Rattle.std.specs.Prelude.{◌≡◌, ◌∷◌, [], OnOk, is_some, option_map};
ghost use Rattle.pyc_names.specs.Following.{submodule};
ghost use Rattle.pyc_names.specs.FollowingView.{qualified_of};
ghost use Rattle.pyc_names.specs.LookNumbers as spec;
ghost use Rattle.pyc_names.specs.Looks.{of_name, of_module, of_member, of_order, unbound_looks};
ghost use Rattle.pyc_names.specs.NotedLooks.{nothing_noted, everything_noted, with_looks};

use crate::qualified_name::QualifiedName;
use pyc_ast::Text;
use std::alloc::{AllocError, Global};

/// The numbers of what was looked at, in turn. Two things may have one number: then the one counts as the other. Where
/// no numbers are kept, each thing counts as looked at, and to note one costs nothing.
#[derive(Drop)]
pub struct Looks {
    is_kept: bool,
    numbers: Vec<u16>,
}

impl Looks {
    ghost use Rattle.pyc_names.specs.NotedLooksView.{kept_numbers, noted_in};

    /// Nothing was looked at. It takes no memory.
    #[tactic(auto, unfolding(crate::specs::NotedLooks::nothing_noted, crate::specs::NotedLooks::numbers_noted, crate::specs::NotedLooksView::noted_in))]
    pub fn new(alloc: Global) -> Looks
        ensures { noted_in result ≡ nothing_noted }
    {
        Looks {
            is_kept: true,
            numbers: Vec::new(alloc),
        }
    }

    /// No numbers are kept. It takes no memory.
    #[tactic(auto, unfolding(crate::specs::NotedLooksView::noted_in))]
    pub fn unkept(alloc: Global) -> Looks
        ensures { noted_in result ≡ everything_noted }
    {
        Looks {
            is_kept: false,
            numbers: Vec::new(alloc),
        }
    }

    /// Whether numbers are kept.
    pub fn is_kept(&self) -> bool
        ensures { result ≡ is_some (kept_numbers self.now) }
    {
        self.is_kept
    }

    /// The numbers, where they are kept.
    pub fn numbers(&self) -> Option<&[u16]>
        ensures { option_map (λ numbers. numbers.now) result ≡ kept_numbers self.now }
    {
        if self.is_kept {
            Some(&self.numbers)
        } else {
            None
        }
    }

    /// Notes a name. The only error is that memory runs out.
    #[tactic(auto, using(crate::proofs::NotedLemmas::pushing))]
    pub fn note_name(&mut self, q: &QualifiedName) -> Result<(), AllocError>
        ensures { OnOk result (noted_in self.new
            ≡ with_looks (noted_in self.old) (of_name (qualified_of q.now) ∷ [])) }
    {
        if self.is_kept {
            self.numbers.push(name_number(q))?;
        }
        Ok(())
    }

    /// Notes the module with these parts. The only error is that memory runs out.
    #[tactic(auto, using(crate::proofs::NotedLemmas::pushing))]
    pub fn note_module(&mut self, parts: &[Text]) -> Result<(), AllocError>
        ensures { OnOk result (noted_in self.new ≡ with_looks (noted_in self.old) (of_module parts.now ∷ [])) }
    {
        if self.is_kept {
            self.numbers.push(module_number(parts))?;
        }
        Ok(())
    }

    /// Notes the submodule of a name. The only error is that memory runs out.
    #[tactic(auto, using(crate::proofs::NotedLemmas::pushing))]
    pub fn note_submodule(&mut self, q: &QualifiedName) -> Result<(), AllocError>
        ensures { OnOk result (noted_in self.new
            ≡ with_looks (noted_in self.old) (of_module (submodule (qualified_of q.now)) ∷ [])) }
    {
        if self.is_kept {
            self.numbers.push(submodule_number(q))?;
        }
        Ok(())
    }

    /// Notes a name that nothing binds: its module, and its submodule. The only error is that memory runs out.
    #[tactic(auto, using(crate::proofs::NotedLemmas::noting))]
    pub fn note_unbound(&mut self, q: &QualifiedName) -> Result<(), AllocError>
        ensures { OnOk result (noted_in self.new
            ≡ with_looks (noted_in self.old) (unbound_looks (qualified_of q.now))) }
    {
        self.note_module(q.module_path.parts())?;
        self.note_submodule(q)
    }

    /// Notes the order of the class of this name of a module. The only error is that memory runs out.
    #[tactic(auto, using(crate::proofs::NotedLemmas::pushing))]
    pub fn note_order(&mut self, parts: &[Text], class: &str) -> Result<(), AllocError>
        ensures { OnOk result (noted_in self.new ≡ with_looks (noted_in self.old)
            (of_order (record { module_path = parts.now; name = class.now }) ∷ [])) }
    {
        if self.is_kept {
            self.numbers.push(order_number(parts, class))?;
        }
        Ok(())
    }

    /// Notes a name in the class of this name of a module. The only error is that memory runs out.
    #[tactic(auto, using(crate::proofs::NotedLemmas::pushing))]
    pub fn note_member(
        &mut self,
        parts: &[Text],
        class: &str,
        name: &Text,
    ) -> Result<(), AllocError>
        ensures { OnOk result (noted_in self.new ≡ with_looks (noted_in self.old)
            (of_member (record { module_path = parts.now; name = class.now }) name.now ∷ [])) }
    {
        if self.is_kept {
            self.numbers.push(member_number(parts, class, name))?;
        }
        Ok(())
    }
}

/// The number of a name.
#[tactic(auto, unfolding(crate::specs::LookNumbers::number_of))]
fn name_number(q: &QualifiedName) -> u16
    ensures { result ≡ spec.number_of (of_name (qualified_of q.now)) }
{
    with_name(2, q.module_path.parts(), q.name.as_str())
}

/// The number of a module.
#[tactic(auto, unfolding(crate::specs::LookNumbers::number_of))]
fn module_number(parts: &[Text]) -> u16
    ensures { result ≡ spec.number_of (of_module parts.now) }
{
    with_texts(1, parts)
}

/// The number of the submodule of a name.
#[tactic(auto, using(crate::proofs::NotedLemmas::texts_append), unfolding(crate::specs::LookNumbers::number_of))]
fn submodule_number(q: &QualifiedName) -> u16
    ensures { result ≡ spec.number_of (of_module (submodule (qualified_of q.now))) }
{
    with_name(1, q.module_path.parts(), q.name.as_str())
}

/// The number of the order of a class.
#[tactic(auto, unfolding(crate::specs::LookNumbers::number_of))]
fn order_number(parts: &[Text], class: &str) -> u16
    ensures { result ≡ spec.number_of (of_order (record { module_path = parts.now; name = class.now })) }
{
    with_name(3, parts, class)
}

/// The number of a name in a class.
#[tactic(auto, unfolding(crate::specs::LookNumbers::number_of))]
fn member_number(parts: &[Text], class: &str, name: &Text) -> u16
    ensures { result
        ≡ spec.number_of (of_member (record { module_path = parts.now; name = class.now }) name.now) }
{
    with_text(with_name(4, parts, class), name.as_str())
}

/// A number and a name of a module.
fn with_name(number: u16, parts: &[Text], name: &str) -> u16
    ensures { result ≡ spec.with_name number (record { module_path = parts.now; name = name.now }) }
{
    with_text(with_texts(number, parts), name)
}

/// A number and some texts.
fn with_texts(number: u16, texts: &[Text]) -> u16
    ensures { result ≡ spec.with_texts number texts.now }
{
    let mut found = number;
    for text in texts {
        found = with_text(found, text.as_str());
    }
    found
}

/// A number and a text.
fn with_text(number: u16, text: &str) -> u16
    ensures { result ≡ spec.with_text number text.now }
{
    with_byte(with_bytes(number, text.as_bytes()), 255)
}

/// A number and some bytes.
fn with_bytes(number: u16, bytes: &[u8]) -> u16
    ensures { result ≡ spec.with_bytes number bytes.now }
{
    let mut found = number;
    for byte in bytes {
        found = with_byte(found, *byte);
    }
    found
}

/// A number and one more byte.
fn with_byte(number: u16, byte: u8) -> u16
    ensures { result ≡ spec.with_byte number byte }
{
    ((u32::from(number) * 257 + u32::from(byte)) % 65521) as u16
}
