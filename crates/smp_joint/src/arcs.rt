//! Units as arcs on a circle.

ghost use Rattle.std.specs.Prelude.{◌≡◌, ◌^◌, ◌<◌, ◌≤◌, IfOk, length};
ghost use Rattle.smp_prob.specs.{Requests.{IsRequest}, Shares.{shares_of}};
ghost use Rattle.smp_joint.specs.Both.{both_of};
ghost use Rattle.smp_joint.specs.Kept as Kept;

use smp_frac::NoMemory;
use smp_prob::Request;
use std::alloc::Global;
use std::marker::Model;

// Some places of a circle in a row: the first of them, and how many they are.
#[derive(Clone, Copy)]
pub(crate) struct Arc {
    start: u64,
    size: u64,
}

/// The free units of a request as arcs on a circle of as many places as there are systematic draws.
///
/// Each unit's arc has as many places as its numerator says and begins where the arc of the unit before ends. A draw
/// selects the units whose arcs have its place.
///
/// It is seen as the units' numerators over their common denominator.
#[derive(Drop)]
pub struct Arcs {
    arcs: Vec<Arc>,
    circle: u64,
}

impl Model for Arcs {
    ghost use Rattle.smp_prob.specs.Shares.{Shares};
    ghost use Rattle.smp_joint.specs.Kept.{AreArcs, sizes};

    ghost Value = { Shares };

    ghost view = { λ a. record { numer = sizes a.arcs.items; den = a.circle } };

    ghost invariant = { λ a. AreArcs a.arcs.items a.circle };
}

impl Arcs {
    /// The arcs of a request's free units, in the order of the frame.
    pub fn new(alloc: Global, request: &Request) -> Result<Arcs, NoMemory>
        requires { IsRequest request.now }
        ensures { IfOk result (λ arcs. arcs ≡ shares_of request.now) }
    {
        let circle = request.common_denominator();
        let mut arcs = Vec::new(alloc);
        let mut start: u64 = 0;
        for numerator in request.numerators(alloc)?.as_slice() {
            let size = *numerator as u64;
            arcs.push(Arc { start, size })?;
            start = (start + size) % circle;
        }
        Ok(Arcs { arcs, circle })
    }

    /// How many places the circle has.
    pub(crate) fn places(&self) -> u64
        ensures is { result ≡ self.now.den }
        ensures some { 1 ≤ result }
    {
        self.circle
    }

    /// How many draws select both of two units. It tries no draw: it is the number of places that their arcs share.
    pub fn both(&self, i: usize, j: usize) -> u64
        requires first { i < length self.now.numer }
        requires second { j < length self.now.numer }
        ensures { result ≡ both_of self.now i j }
    {
        let first = self.arcs[i];
        let second = self.arcs[j];
        let gap = gap(first.start, second.start, self.circle);
        shared(first.size, gap, second.size, self.circle)
    }
}

// How many steps lead round a circle from one place to another.
fn gap(from: u64, to: u64, circle: u64) -> u64
    requires from { from < circle }
    requires to { to < circle }
    requires narrow { circle < 2 ^ 49 }
    ensures { result ≡ Kept.gap circle from to }
{
    if from <= to {
        to - from
    } else {
        to + circle - from
    }
}

// How many places an arc shares with another one that begins so many steps behind its start. The other one's end may come round to the
// start again.
fn shared(size: u64, gap: u64, other: u64, circle: u64) -> u64
    requires size { size ≤ circle }
    requires other { other ≤ circle }
    requires gap { gap < circle }
    requires narrow { circle < 2 ^ 49 }
    ensures { result ≡ Kept.shared circle size gap other }
{
    let end = gap + other;
    let behind = size.min(end) - size.min(gap);
    behind + size.min(end.saturating_sub(circle))
}
