//! How a walk through calls stands: what is to be called next, and what waits for its type.

ghost use Rattle.std.specs.Prelude.{◌≡◌, ◌<◌, ◌≤◌, ◌+◌, ◌^◌, [], ◌∷◌, IfOk, OnOk, drop, length, map};
ghost use Rattle.pyc_calls.specs.Remembered.{fresh, progress_of};
ghost use Rattle.pyc_calls.specs.Views.{count_of, memory_in, met_in, standing_in, stood_in, waiting_in};
ghost use Rattle.pyc_calls.specs.Views.{waiting_of, walk_in};
ghost use Rattle.pyc_calls.specs.Walks as spec;
ghost use Rattle.pyc_type_forms.specs.TypeView.{row, ty_of};

use crate::remembered::{Memory, begin, finish};
use pyc_class_ids::ClassId;
use pyc_type_forms::{Ty, union_of};
use std::alloc::{AllocError, Global};
use std::rc::Rc;

/// What a call of an instance of a class comes to.
#[derive(Drop)]
pub(crate) enum CallOutcome {
    /// A type.
    Came(Ty),
    /// A `__call__` that was not met before, by its class and its type through an instance.
    New(ClassId, Ty),
}

/// What waits for the type of a call.
#[derive(Drop)]
pub(crate) enum Waiting {
    /// The `__call__` of a class, which is under way.
    Class(ClassId),
    /// A union, by its items, and the types of calls of its first ones. The call at hand is one of the next.
    Union(Rc<Vec<Ty>>, Vec<Ty>),
}

/// What is remembered in a walk, and what waits, the innermost last.
#[derive(Drop)]
pub(crate) struct Walk {
    pub(crate) memory: Memory,
    pub(crate) waiting: Vec<Waiting>,
}

/// How a walk stands.
#[derive(Drop)]
pub(crate) enum Standing {
    /// Something of a type is to be called.
    Calls(Ty),
    /// A call gave a type.
    Gives(Ty),
    /// A `__call__` is met that was not met before.
    Meets(ClassId, Ty),
    /// The walk is at its end.
    Ends(Ty),
}

/// How a walk stands after a call of an instance of a class.
pub(crate) fn standing_met(met: CallOutcome) -> Standing
    ensures { standing_in result ≡ spec.standing_met (met_in met) }
{
    match met {
        CallOutcome::Came(ty) => Standing::Gives(ty),
        CallOutcome::New(class, bound) => Standing::Meets(class, bound),
    }
}

impl Walk {
    /// At its beginning nothing waits. It takes no memory.
    pub(crate) fn new(alloc: Global, memory: Memory) -> Walk
        ensures walk { walk_in result ≡ record { memory = memory_in memory; waiting = [] } }
        ensures same { result.memory ≡ memory }
    {
        Walk {
            memory,
            waiting: Vec::new(alloc),
        }
    }

    /// After these types, the next item of a union is to be called, if there is one. The only error is that memory
    /// runs out.
    fn next_item(
        &mut self,
        alloc: Global,
        items: Rc<Vec<Ty>>,
        types: Vec<Ty>,
    ) -> Result<Standing, AllocError>
        ensures walk { IfOk result (λ standing. stood_in self.new standing
            ≡ spec.next_item (map ty_of types.items) (row (drop (length types.items) items.value.items))
            (walk_in self.old)) }
        ensures same { self.new.memory ≡ self.old.memory }
    {
        match items.get(types.len()) {
            Some(item) => {
                let item = item.clone()?;
                self.waiting.push(Waiting::Union(items, types))?;
                Ok(Standing::Calls(item))
            }
            None => Ok(Standing::Gives(union_of(alloc, &types)?)),
        }
    }

    /// The first item of a union is to be called. The only error is that memory runs out.
    pub(crate) fn open(&mut self, alloc: Global, union: &Ty) -> Result<Standing, AllocError>
        ensures walk { IfOk result (λ standing. stood_in self.new standing
            ≡ spec.opened (ty_of union.now) (walk_in self.old)) }
        ensures same { self.new.memory ≡ self.old.memory }
    {
        match union {
            Ty::Union(items) => self.next_item(alloc, items.clone()?, Vec::new(alloc)),
            _ => Ok(Standing::Gives(union_of(alloc, &[])?)),
        }
    }

    /// A call gave a type: what waits for it goes on. The only error is that memory runs out.
    pub(crate) fn give(&mut self, alloc: Global, ty: Ty) -> Result<Standing, AllocError>
        ensures walk { IfOk result (λ standing. stood_in self.new standing
            ≡ spec.waiting_given (memory_in self.old.memory) (waiting_in self.old.waiting) (ty_of ty)) }
        ensures counted { OnOk result (count_of self.old.memory ≤ count_of self.new.memory) }
    {
        match self.waiting.pop() {
            Some(waiting) => self.go_on(alloc, waiting, ty),
            None => Ok(Standing::Ends(ty)),
        }
    }

    /// A call gave a type, and this waited for it.
    fn go_on(&mut self, alloc: Global, waiting: Waiting, ty: Ty) -> Result<Standing, AllocError>
        ensures walk { IfOk result (λ standing. stood_in self.new standing
            ≡ spec.waiting_given (memory_in self.old.memory) (waiting_of waiting ∷ waiting_in self.old.waiting)
            (ty_of ty)) }
        ensures counted { OnOk result (count_of self.old.memory ≤ count_of self.new.memory) }
    {
        match waiting {
            Waiting::Class(class) => {
                finish(&mut self.memory, &class, &ty)?;
                Ok(Standing::Gives(ty))
            }
            Waiting::Union(items, types) => {
                let mut types = types;
                types.push(ty)?;
                self.next_item(alloc, items, types)
            }
        }
    }

    /// The `__call__` of a class is under way from now on, and waits. The only error is that memory runs out.
    pub(crate) fn begin(&mut self, class: ClassId) -> Result<(), AllocError>
        ensures walk { OnOk result (walk_in self.new ≡ spec.begun (walk_in self.old) class) }
        ensures counted { OnOk result (progress_of (memory_in self.old.memory) class ≡ fresh
            → count_of self.new.memory ≡ count_of self.old.memory + 1) }
        ensures small { OnOk result (count_of self.new.memory < 2 ^ 63) }
    {
        begin(&mut self.memory, &class)?;
        self.waiting.push(Waiting::Class(class))?;
        Ok(())
    }
}
