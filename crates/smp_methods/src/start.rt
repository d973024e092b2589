//! Where a selection starts.

ghost use Rattle.std.specs.Prelude.{IfOk};
ghost use Rattle.smp_prob.specs.Requests.{IsRequest};
ghost use Rattle.smp_stratcube.specs.Layers.{AreLayers};
ghost use Rattle.smp_methods.specs.{Procedures.{NeedsWhole, TakesValues}, Starts.{AreStarted, IsStarted}};

use crate::{AnyDesign, AnyState};
use smp_design::Procedure;
use smp_frac::{NoMemory, Numbers};
use smp_prob::Request;
use smp_stratcube::Layers;
use std::alloc::Global;

/// The design of a request, and the state before its first step.
#[derive(Drop)]
pub struct Started {
    /// The design.
    pub design: AnyDesign,
    /// The state before the first step.
    pub state: AnyState,
}

impl Started {
    /// Starts to draw the free units of a request by a procedure. Where it has balancing columns there is a
    /// list of values for each of the units, in their order, and where it has columns of coordinates one of
    /// these. Where it has none, no such list is looked at, and none is needed.
    #[tactic(auto, using(crate::proofs::Starts::is_started))]
    pub fn new(
        alloc: Global,
        procedure: Procedure,
        request: &Request,
        values: &[Numbers],
        points: &[Numbers],
    ) -> Result<Started, NoMemory>
        requires request { IsRequest request.now }
        requires whole { NeedsWhole procedure request.now }
        requires values { TakesValues procedure request.now values.now points.now }
        ensures { IfOk result (IsStarted procedure request.now values.now points.now) }
    {
        let design = AnyDesign::new(alloc, procedure, request, values, points)?;
        let state = design.start(alloc)?;
        Ok(Started { design, state })
    }

    /// Starts to draw the free units of some strata together, by the cube over all strata.
    #[tactic(auto, using(crate::proofs::Starts::are_started))]
    pub fn of_strata(alloc: Global, layers: &Layers) -> Result<Started, NoMemory>
        requires { AreLayers layers.now }
        ensures { IfOk result (AreStarted layers.now) }
    {
        let design = AnyDesign::of_strata(alloc, layers)?;
        let state = design.start(alloc)?;
        Ok(Started { design, state })
    }
}
