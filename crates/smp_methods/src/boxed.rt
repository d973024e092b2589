//! A state in a box of its own.

ghost use Rattle.std.specs.Prelude.{◌≡◌, IfOk};

use smp_frac::NoMemory;
use std::alloc::Global;
use std::marker::Model;

/// A method's state in a box: the methods' states differ much in size, and those of many strata are moved at the size of a pointer.
///
/// It is seen as the state.
#[derive(Drop)]
pub struct Boxed<S: Drop> {
    pub(crate) state: Box<S>,
}

impl<S: Drop> Model for Boxed<S> {
    ghost Value = { S };

    ghost view = { λ b. b.state.value };
}

impl<S: Drop> Boxed<S> {
    /// Puts a state into a box.
    pub(crate) fn new(alloc: Global, state: S) -> Result<Boxed<S>, NoMemory>
        ensures { IfOk result (λ boxed. boxed ≡ state) }
    {
        match Box::new(alloc, state) {
            Ok(state) => Ok(Boxed { state }),
            Err(_) => Err(NoMemory),
        }
    }

    /// The state.
    pub(crate) fn get(&self) -> &S
        ensures { result.now ≡ self.now }
    {
        &self.state
    }
}
