//! The request of a second stage.

ghost use Rattle.std.specs.Prelude.{◌≡◌, IfOk, option_map};

use smp_frac::NoMemory;
use smp_prob::Request;
use std::alloc::Global;
use std::marker::Model;

/// The request of a second stage, or none, seen as that.
///
/// It stands in a box: most plans have no second stage, and very many first stage units.
#[derive(Drop)]
pub struct SecondRequest {
    request: Option<Box<Request>>,
}

impl Model for SecondRequest {
    ghost use Rattle.std.specs.Prelude.{Option, option_map};
    ghost use Rattle.smp_prob.specs.declared.requests.Request.{Request};

    ghost Value = { Option Request };

    ghost view = { λ s. option_map (λ request. request.value) s.request };
}

impl SecondRequest {
    /// The request that is told, if any.
    pub(crate) fn new(alloc: Global, request: Option<Request>) -> Result<SecondRequest, NoMemory>
        ensures { IfOk result (λ second. second ≡ request) }
    {
        let request = match request {
            Some(request) => Some(Box::new(alloc, request)?),
            None => None,
        };
        Ok(SecondRequest { request })
    }

    /// The request, where there is a second stage.
    pub fn get(&self) -> Option<&Request>
        ensures { option_map (λ request. request.now) result ≡ self.now }
    {
        match &self.request {
            Some(request) => Some(&**request),
            None => None,
        }
    }
}
