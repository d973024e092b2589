//! A plan: the strata of a frame, and what is asked of each.

ghost use Rattle.std.specs.Prelude.{◌≡◌, ◌^◌, ◌<◌, ◌≤◌, length, slice_index_or};
ghost use Rattle.smp_frac.specs.{Exact.{fraction}, Fractions.{Same, over, times}};
ghost use Rattle.smp_prob.specs.{Inclusions.{IsRising, asked_fraction}, Requests.{IsRequest}};
ghost use Rattle.smp_strata.specs.{Bounds.{IsStratum}, Seats.{IsSeat, first_fraction, seat_fraction}, declared.strata.Seat.{Seat}};

use crate::{Seat, Stratum};
use smp_design::{Method, Procedure};
use smp_frac::Frac;
use smp_prob::{Inclusion, Request};
use std::marker::Model;

/// A plan: the strata of a frame, and what is asked of each.
#[derive(Drop)]
pub struct Plan {
    pub(crate) procedure: Procedure,
    pub(crate) second: Option<Method>,
    pub(crate) strata: Vec<Stratum>,
    pub(crate) seats: Vec<Seat>,
}

impl Model for Plan {
    ghost use Rattle.std.specs.Prelude.{All, length};
    ghost use Rattle.smp_strata.specs.{Plans.{Plan}, Bounds.{IsStratum}, Kept.Built.{AreSeats}};

    ghost Value = { Plan };

    ghost view = { λ p. record {
      procedure = p.procedure;
      second = p.second;
      rows = length p.seats.items;
      strata = p.strata.items;
    } };

    ghost invariant = { λ p.
        All (IsStratum p.second) p.strata.items × AreSeats p.strata.items p.seats.items };
}

impl Plan {
    /// How the first stage units of each stratum are drawn: the procedure of the design.
    pub fn procedure(&self) -> Procedure
        ensures { result ≡ self.now.procedure }
    {
        self.procedure
    }

    /// How rows are drawn from a first stage unit, where there is a second stage.
    pub fn second(&self) -> Option<Method>
        ensures { result ≡ self.now.second }
    {
        self.second
    }

    /// The number of rows of the frame.
    pub fn rows(&self) -> usize
        ensures { result ≡ self.now.rows }
    {
        self.seats.len()
    }

    /// The number of strata.
    pub fn strata(&self) -> usize
        ensures { result ≡ length self.now.strata }
    {
        self.strata.len()
    }

    /// A stratum by its number, the first being 0.
    pub fn stratum(&self, number: usize) -> &Stratum
        requires { number < length self.now.strata }
        ensures value { result.now ≡ slice_index_or self.now.strata number result.now }
        ensures sound { IsStratum self.now.second result.now }
    {
        &self.strata[number]
    }

    /// Where a row stands, the first row being 0.
    pub fn seat(&self, row: usize) -> Seat
        requires { row < self.now.rows }
        ensures there { IsSeat self.now.strata row result }
        ensures once { (seat : Seat) → IsSeat self.now.strata row seat → seat ≡ result }
    {
        self.seats[row]
    }
}

// The terms of a probability, small enough for the product of two.
#[derive(Clone, Copy)]
struct Terms {
    num: u64,
    den: u64,
}

// The probability that a request gives a unit.
fn terms_of(request: &Request, unit: usize) -> Terms
    requires sound { IsRequest request.now }
    requires rising { IsRising request.now }
    ensures value { Same (over result.num result.den) (asked_fraction request.now unit) }
    ensures num { result.num < 2 ^ 49 }
    ensures den { result.den < 2 ^ 49 }
    ensures positive { 1 ≤ result.den }
{
    match request.inclusion(unit) {
        Inclusion::Certain => Terms { num: 1, den: 1 },
        Inclusion::Free(place) => Terms {
            num: request.shape.as_slice()[place] as u64 * request.r as u64,
            den: request.total,
        },
        Inclusion::Never => Terms { num: 0, den: 1 },
    }
}

// The product of two probabilities.
fn product(first: Terms, second: Terms) -> Frac
    requires first_num { first.num < 2 ^ 49 }
    requires first_den { first.den < 2 ^ 49 }
    requires second_num { second.num < 2 ^ 49 }
    requires second_den { second.den < 2 ^ 49 }
    requires first_positive { 1 ≤ first.den }
    requires second_positive { 1 ≤ second.den }
    ensures { Same (fraction result)
        (times (over first.num first.den) (over second.num second.den)) }
{
    let num = first.num as u128 * second.num as u128;
    let den = first.den as u128 * second.den as u128;
    match Frac::new(num, den) {
        Some(product) => product,
        None => unreachable!(),
    }
}

/// The inclusion probability that is asked for a first stage unit in its stratum. Strata and units are counted from 0.
pub fn first_asked(plan: &Plan, stratum: usize, unit: usize) -> Frac
    requires { stratum < length plan.now.strata }
    ensures { Same (fraction result) (first_fraction plan.now.strata stratum unit) }
{
    plan.stratum(stratum).request.asked(unit)
}

/// The inclusion probability that is asked for a row: that of its first stage unit in its stratum, times that of the
/// row in the first stage unit where there is a second stage. Rows are counted from 0.
pub fn asked(plan: &Plan, k: usize) -> Frac
    requires { k < plan.now.rows }
    ensures { (seat : Seat) → IsSeat plan.now.strata k seat
        → Same (fraction result) (seat_fraction plan.now.strata seat) }
{
    let seat = plan.seat(k);
    let stratum = plan.stratum(seat.stratum);
    let first = terms_of(&stratum.request, seat.unit);
    match stratum.units.as_slice()[seat.unit].second.get() {
        Some(second) => product(first, terms_of(second, seat.place)),
        None => product(first, Terms { num: 1, den: 1 }),
    }
}
