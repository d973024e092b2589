//! The joint probability of two rows of a plan.

ghost use Rattle.std.specs.Prelude.{◌≡◌, ◌<◌, ◌^◌, length, IfOk};
ghost use Rattle.smp_frac.specs.{Fractions.{Same, times}, Exact.{fraction}};
ghost use Rattle.smp_joint.specs.{JointRows.{joint_fraction}, Rows.{AreRows, StandsAt}};
ghost use Rattle.smp_joint.specs.Kept as Kept;

use crate::Arcs;
use crate::row::Row;
use smp_frac::{Frac, NoMemory};
use smp_prob::Inclusion;
use smp_strata::{Plan, Seat};
use std::alloc::Global;
use std::marker::Model;

// The rows of a plan, looked up once, and the arcs of each stratum. It is seen as the plan.
#[derive(Drop)]
pub(crate) struct Pairs<'a> {
    plan: &'a Plan,
    arcs: Vec<Arcs>,
    rows: Vec<Row>,
}

impl<'a> Model for Pairs<'a> {
    ghost use Rattle.std.specs.Prelude.{◌≡◌};
    ghost use Rattle.smp_strata.specs.Plans.{Plan};
    ghost use Rattle.smp_joint.specs.{Kept.{arcs_of}, Rows.{AreRows}};

    ghost Value = { Plan };

    ghost view = { λ p. p.plan.now };

    ghost invariant = { λ p. (p.arcs.items ≡ arcs_of p.plan.now.strata)
        × AreRows p.plan.now p.rows.items };
}

// The arcs of each stratum.
fn arcs_of(alloc: Global, plan: &Plan) -> Result<Vec<Arcs>, NoMemory>
    ensures { IfOk result (λ arcs. arcs.items ≡ Kept.arcs_of plan.now.strata) }
{
    let mut arcs = Vec::with_capacity(alloc, plan.strata())?;
    for number in 0..plan.strata() {
        arcs.push(Arcs::new(alloc, &plan.stratum(number).request)?)?;
    }
    Ok(arcs)
}

// The row at a seat.
fn row_at(plan: &Plan, seat: Seat) -> Row
    requires { seat.stratum < length plan.now.strata }
    ensures { StandsAt plan.now.strata seat result }
{
    let request = &plan.stratum(seat.stratum).request;
    Row {
        stratum: seat.stratum,
        inclusion: request.inclusion(seat.unit),
        asked: request.asked(seat.unit),
    }
}

// The rows of a plan, in frame order.
fn rows_of(alloc: Global, plan: &Plan) -> Result<Vec<Row>, NoMemory>
    ensures { IfOk result (λ rows. AreRows plan.now rows.items) }
{
    let mut rows = Vec::with_capacity(alloc, plan.rows())?;
    for row in 0..plan.rows() {
        rows.push(row_at(plan, plan.seat(row)))?;
    }
    Ok(rows)
}

// The product of two probabilities.
fn product(first: Frac, second: Frac) -> Frac
    requires first_num { first.num < 2 ^ 49 }
    requires first_den { first.den < 2 ^ 49 }
    requires second_num { second.num < 2 ^ 49 }
    requires second_den { second.den < 2 ^ 49 }
    ensures { Same (fraction result) (times (fraction first) (fraction second)) }
{
    Frac::over(first.num * second.num, first.den * second.den)
}

impl<'a> Pairs<'a> {
    // The pairs of the rows of a plan. It takes time for each row, and none for each pair.
    pub(crate) fn new(alloc: Global, plan: &'a Plan) -> Result<Pairs<'a>, NoMemory>
        ensures { IfOk result (λ pairs. pairs ≡ plan.now) }
    {
        let arcs = arcs_of(alloc, plan)?;
        let rows = rows_of(alloc, plan)?;
        Ok(Pairs { plan, arcs, rows })
    }

    // The joint probability of two rows.
    pub(crate) fn joint(&self, first: usize, second: usize) -> Frac
        requires first { first < self.now.rows }
        requires second { second < self.now.rows }
        ensures { Same (fraction result) (joint_fraction self.now first second) }
    {
        let first = &self.rows[first];
        let second = &self.rows[second];
        if first.stratum != second.stratum {
            return product(first.asked, second.asked);
        }
        let arcs = &self.arcs[first.stratum];
        match (first.inclusion, second.inclusion) {
            (Inclusion::Certain, _) => second.asked,
            (_, Inclusion::Certain) => first.asked,
            (Inclusion::Free(i), Inclusion::Free(j)) => {
                Frac::over(arcs.both(i, j) as u128, arcs.places() as u128)
            }
            _ => Frac::over(0, 1),
        }
    }
}
