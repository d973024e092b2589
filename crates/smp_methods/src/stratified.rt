//! The cube over all strata, of one stratum alone.

ghost use Rattle.std.specs.Prelude.{◌≡◌, ◌∷◌, [], IfOk, length};
ghost use Rattle.smp_prob.specs.Requests.{IsRequest};
ghost use Rattle.smp_values.specs.Starts.{IsRequested};
ghost use Rattle.smp_flight.specs.Requests.{AreValues};
ghost use Rattle.smp_stratcube.specs.{States.{started}, Method.{method_of}, Units.{units_of}};

use smp_frac::{NoMemory, Numbers};
use smp_prob::Request;
use smp_stratcube::{Layers, StratCube};
use std::alloc::Global;

/// The design of a request by the cube over all strata, which is that of one stratum.
pub(crate) fn stratified_cube(
    alloc: Global,
    request: &Request,
    values: &[Numbers],
) -> Result<StratCube, NoMemory>
    requires request { IsRequest request.now }
    requires paired { length values.now ≡ length request.now.free }
    requires values { AreValues values.now }
    ensures design { IfOk result (λ design.
        design ≡ units_of (record { request = request.now; values = values.now } ∷ [])) }
    ensures requested { IfOk result (λ design.
        IsRequested (method_of design).tree request.now (started design)) }
{
    let mut layers = Layers::new(alloc);
    layers.push(request, values)?;
    let design = StratCube::new(alloc, &layers)?;
    Ok(design)
}
