//! Points of bodies.

ghost use Rattle.std.specs.Prelude.{◌≡◌, OnOk};
ghost use Rattle.pyc_locals.specs.FlowStates as spec;
ghost use Rattle.pyc_places.specs.StateView.{state_of};

use crate::locals::{LocalType, Locals};
use pyc_ast::Text;
use pyc_places::{State, name_place};
use std::alloc::{AllocError, Global};

/// What is known at a point of a body, as its statements are read in text order: of the locals of its function, and of
/// places.
pub struct FlowState {
    pub locals: Locals,
    pub state: State,
}

/// Written out: the crates above call it, where what `derive` writes would be made and proved in each of them.
impl Drop for FlowState {
    fn drop(self) {
        let FlowState { locals, state } = self;
        drop(locals);
        drop(state);
    }
}

impl FlowState {
    ghost use Rattle.pyc_locals.specs.Views.{local_type_of, flow_state_in};

    /// Puts the point in another state. It takes no memory.
    pub fn set_state(&mut self, state: State)
        ensures { flow_state_in self.new ≡ spec.in_state (flow_state_in self.old) (state_of state) }
    {
        self.state = state;
    }

    /// Declares the local of a name so, unless it was declared before; a name that is no local does not become one. It
    /// takes no memory.
    pub fn declare(&mut self, name: &Text, ty: LocalType)
        ensures { flow_state_in self.new ≡ spec.with_declared name.now (local_type_of ty) (flow_state_in self.old) }
    {
        self.locals.declare(name, ty);
    }

    /// Binds a name, as an import, a function or a class does: what was known of it and of all below it is dropped, and
    /// its local is declared so, unless it was before. The only error is that memory runs out.
    pub fn bind(&mut self, alloc: Global, name: &Text, ty: LocalType) -> Result<(), AllocError>
        ensures { OnOk result (flow_state_in self.new
            ≡ spec.name_bound name.now (local_type_of ty) (flow_state_in self.old)) }
    {
        let place = name_place(alloc, name)?;
        let state = self.state.drop_place(alloc, &place)?;
        self.set_state(state);
        self.declare(name, ty);
        Ok(())
    }
}
