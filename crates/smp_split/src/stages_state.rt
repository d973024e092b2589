//! The states of a selection in stages.

ghost use Rattle.std.specs.{Prelude.{◌≡◌, ◌<◌, length, Some}, List.{slice_get}};
ghost use Rattle.smp_split.specs.Stages.{Progress};

use std::marker::Model;

/// A state of a selection in stages: that of each stage, and the stage that is under way. It is seen as both.
#[derive(Drop)]
pub struct StagesState<Q> {
    pub(crate) states: Vec<Q>,
    pub(crate) at: usize,
}

impl<Q> Model for StagesState<Q> {
    ghost Value = { Progress Q };

    ghost view = { λ a. record { states = a.states.items; at = a.at } };
}

impl<Q> StagesState<Q> {
    /// The number of the stage that is under way, or the number of stages where none is.
    pub fn at(&self) -> usize
        ensures { result ≡ self.now.at }
    {
        self.at
    }

    /// The state of a stage.
    pub fn stage_state(&self, stage: usize) -> &Q
        requires { stage < length self.now.states }
        ensures { slice_get self.now.states stage ≡ Some result.now }
    {
        &self.states[stage]
    }
}
