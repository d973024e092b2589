//! The strata of a design, one after the other.

ghost use Rattle.std.specs.Prelude.{◌≡◌, ◌∷◌, ◌++◌, ◌≤◌, ◌<◌, [], IfErr, IfOk, length, map, slice_index_or, take};
ghost use Rattle.smp_prob.specs.Requests.{IsRequest};
ghost use Rattle.smp_stratcube.specs.{Layers.{AreNumbers}, Kept.Layers.{IsFilledUp}};

use smp_frac::{NoMemory, Numbers};
use smp_prob::Request;
use std::alloc::Global;
use std::marker::Model;
use std::snapshot::Snapshot;

/// The free units of a stratum with their sizes and balancing values.
#[derive(Drop)]
pub(crate) struct Layer {
    pub(crate) shape: Vec<u32>,
    pub(crate) r: u32,
    pub(crate) total: u64,
    /// The balancing values of each unit, filled up with 0.
    pub(crate) values: Vec<[i32; 15]>,
    /// How many balancing values a unit has.
    pub(crate) variables: usize,
    /// The common denominator of the probabilities.
    pub(crate) first: u64,
    /// The request, for contracts alone: it takes no bytes.
    pub(crate) request: Snapshot<Request>,
}

impl Model for Layer {
    ghost use Rattle.smp_stratcube.specs.Layers as stratum_specs;
    ghost use Rattle.smp_stratcube.specs.Kept.Layers.{IsStored, stored};

    ghost Value = { stratum_specs.Layer };

    ghost view = { λ a. stored a.request.value a.values.items a.variables };

    ghost invariant = { λ a. IsStored a.request.value a.shape.items a.r a.total a.values.items a.variables a.first };
}

/// The strata of a design, in their order.
#[derive(Drop)]
pub struct Layers {
    alloc: Global,
    pub(crate) layers: Vec<Layer>,
}

impl Model for Layers {
    ghost use Rattle.std.specs.Prelude.{List};
    ghost use Rattle.smp_stratcube.specs.Layers as stratum_specs;
    ghost use Rattle.smp_stratcube.specs.Kept.Layers.{EachIsLayer};

    ghost Value = { List stratum_specs.Layer };

    ghost view = { λ a. a.layers.items };

    ghost invariant = { λ a. EachIsLayer a.layers.items };
}

/// The values, and 0 in the places past them.
fn filled_up(values: &[i32]) -> [i32; 15]
    requires { length values.now ≤ 15 }
    ensures { IsFilledUp values.now result }
{
    let mut places = [0; 15];
    for place in 0..values.len() {
        places[place] = values[place];
    }
    places
}

/// How many values a unit has, 0 where there is no unit.
fn variables_of(xs: &[Numbers]) -> usize
    ensures { result ≡ length (slice_index_or xs.now 0 []) }
{
    if xs.is_empty() {
        0
    } else {
        xs[0].as_slice().len()
    }
}

/// The stratum of a request.
fn layer_of(alloc: Global, request: &Request, xs: &[Numbers]) -> Result<Layer, NoMemory>
    requires request { IsRequest request.now }
    requires one_each { length xs.now ≡ length request.now.free }
    requires values { AreNumbers xs.now }
    ensures { IfOk result (λ layer. layer ≡ record { request = request.now; values = xs.now }) }
{
    let mut values = Vec::with_capacity(alloc, xs.len())?;
    for unit in 0..xs.len() {
        values.push(filled_up(xs[unit].as_slice()))?;
    }
    Ok(Layer {
        shape: Vec::from_slice(alloc, request.shape.as_slice())?,
        r: request.r,
        total: request.total,
        values,
        variables: variables_of(xs),
        first: request.common_denominator(),
        request: Snapshot::of(request),
    })
}

impl Layers {
    /// No stratum yet.
    pub fn new(alloc: Global) -> Layers
        ensures { result ≡ [] }
    {
        Layers {
            alloc,
            layers: Vec::new(alloc),
        }
    }

    /// Appends a stratum: the free units of a request, with a list of balancing values for each of them. Without memory it appends
    /// nothing.
    pub fn push(&mut self, request: &Request, xs: &[Numbers]) -> Result<(), NoMemory>
        requires request { IsRequest request.now }
        requires one_each { length xs.now ≡ length request.now.free }
        requires values { AreNumbers xs.now }
        ensures appended { IfOk result (λ done.
            self.new ≡ self.old ++ record { request = request.now; values = xs.now } ∷ []) }
        ensures kept { IfErr result (λ error. self.new ≡ self.old) }
    {
        let layer = layer_of(self.alloc, request, xs)?;
        self.layers.push(layer)?;
        Ok(())
    }
}
