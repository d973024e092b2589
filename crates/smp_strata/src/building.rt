//! The plan of a frame and a design, part by part, or the first misfit.

ghost use Rattle.std.specs.Prelude.{◌≡◌, ◌<◌, ◌≤◌, ℕ, None, false, All, IfOk, IfSome, OnOk, length, map, option_map, slice_index};
ghost use Rattle.std.specs.Prelude.{slice_index_or};
ghost use Rattle.smp_frame.specs.Bounds.{HaveBalance, HavePoints, IsFrame};
ghost use Rattle.smp_strata.specs.{Asked.{AsksAsFrame}, Bounds.{IsPlan}, Clusters.{clusters as clusters_of, strata_numbers}};
ghost use Rattle.smp_strata.specs.{Draws.{DrawsAsAsked, IsAllocated}, Rows.{is_large}, declared.strata.Seat.{Seat}};
ghost use Rattle.smp_strata.specs.Misfits.{Reports, misfit_of, psu_short, psu_too_large, second_too_many, unit_in_two};
ghost use Rattle.smp_strata.specs.Plans.{strata_plan};
ghost use Rattle.smp_strata.specs.Plans as Plans;
ghost use Rattle.smp_strata.specs.Kept.Built.{AreBuilt, AreFirstRequests, IsBuiltFirst, IsSizedRequest, bare, seat_by, second_short};
ghost use Rattle.smp_strata.specs.Kept.Layouts.{AreGroups, AreRows, IsLaidOut, homes_of};

use crate::begun::{Begun, put};
use crate::checks::{no_unit_in_two, none_too_large, rows_fit};
use crate::groups::Group;
use crate::layout::{Clusters, Strata};
use crate::requests::begun_strata;
use crate::sizes::second_sizes;
use crate::sums::values_of;
use crate::{FirstUnit, Misfit, Plan, Seat, SecondRequest, Stratum};
use smp_design::{Design, Method, Second};
use smp_frac::{NoMemory, Numbers};
use smp_frame::Unit;
use smp_prob::{ProbFault, Request, requested};
use std::alloc::Global;

// The request for n of the rows of a psu.
fn request_in_psu(alloc: Global, units: &[Unit], n: u32, rows: &[usize]) -> Result<Request, Misfit>
    requires frame { IsFrame units.now }
    requires rows { AreRows (length units.now) rows.now }
    requires some { 1 ≤ n }
    ensures misfit { Reports result (psu_short n units.now rows.now) }
    ensures request { IfOk result (IsSizedRequest (Plans.second_sizes units.now rows.now) n) }
{
    let sizes = second_sizes(alloc, units, rows)?;
    match requested(alloc, &sizes, n) {
        Ok(request) => Ok(request),
        Err(ProbFault::TooMany { positive }) => Err(Misfit::SecondTooMany {
            psu: units[rows[0]].psu.copy(alloc)?,
            n,
            positive,
        }),
        Err(ProbFault::NoMemory) => Err(Misfit::NoMemory),
    }
}

// The request of the second stage over the rows of a first stage unit, where there is a second stage.
fn second_request(
    alloc: Global,
    units: &[Unit],
    second: Option<Second>,
    rows: &[usize],
) -> Result<Option<Request>, Misfit>
    requires frame { IsFrame units.now }
    requires rows { AreRows (length units.now) rows.now }
    requires some { IfSome second (λ s. 1 ≤ s.n) }
    ensures misfit { Reports result (second_short second units.now rows.now) }
    ensures value { IfOk result (λ request.
        request ≡ Plans.second_request second units.now rows.now) }
    ensures request { OnOk result (IfSome second (λ s.
        IfSome (Plans.second_request second units.now rows.now)
        (IsSizedRequest (Plans.second_sizes units.now rows.now) s.n))) }
{
    match second {
        Some(second) => {
            let request = request_in_psu(alloc, units, second.n, rows)?;
            Ok(Some(request))
        }
        None => Ok(None),
    }
}

// The first stage unit of some rows.
fn first_of(
    alloc: Global,
    units: &[Unit],
    design: &Design,
    rows: &[usize],
) -> Result<FirstUnit, Misfit>
    requires frame { IsFrame units.now }
    requires balance { HaveBalance (length design.now.columns.balance) units.now }
    requires points { HavePoints (length design.now.columns.near) units.now }
    requires rows { AreRows (length units.now) rows.now }
    requires small { is_large units.now (length design.now.columns.balance) rows.now ≡ false }
    requires some { IfSome design.now.second (λ s. 1 ≤ s.n) }
    ensures misfit { Reports result (second_short design.now.second units.now rows.now) }
    ensures value { IfOk result (λ first.
        first ≡ Plans.first_of design.now units.now rows.now) }
    ensures built { OnOk result (IsBuiltFirst design.now units.now rows.now) }
{
    let second = second_request(alloc, units, design.second, rows)?;
    let balance = values_of(alloc, units, design.columns.balance.as_slice().len(), rows)?;
    Ok(FirstUnit {
        rows: Group::from_slice(alloc, rows)?,
        balance: Numbers::from_vec(balance),
        point: Numbers::from_slice(alloc, units[rows[0]].point.as_slice())?,
        second: SecondRequest::new(alloc, second)?,
    })
}

// Puts each first stage unit into its stratum, or finds the first with too few rows for its second stage.
fn put_units(
    alloc: Global,
    units: &[Unit],
    design: &Design,
    clusters: &Clusters,
    strata: &Strata,
    begun: &mut Vec<Begun>,
) -> Result<(), Misfit>
    requires layout { IsLaidOut design.now units.now clusters.now.rows strata.now }
    requires small { psu_too_large design.now units.now ≡ None }
    requires bare { begun.old.items ≡ map (bare design.now units.now) (strata_numbers units.now) }
    requires requests { AreFirstRequests design.now units.now }
    ensures misfit { Reports result (second_too_many design.now.second units.now) }
    ensures built { OnOk result (AreBuilt design.now units.now begun.new.items) }
{
    for cluster in 0..clusters.len() {
        let first = first_of(alloc, units, design, clusters.rows(cluster))?;
        put(begun, strata.homes[cluster], first)?;
    }
    Ok(())
}

// The strata of a plan, or the first misfit.
fn planned_strata(
    alloc: Global,
    units: &[Unit],
    design: &Design,
    clusters: &Clusters,
    strata: &Strata,
) -> Result<Vec<Begun>, Misfit>
    requires layout { IsLaidOut design.now units.now clusters.now.rows strata.now }
    requires homes { clusters.now.homes ≡ homes_of design.now.second units.now }
    ensures misfit { Reports result (misfit_of design.now units.now) }
    ensures together { OnOk result (unit_in_two design.now.second units.now ≡ None) }
    ensures built { IfOk result (λ begun. AreBuilt design.now units.now begun.items) }
    ensures allocated { OnOk result (IsAllocated design.now units.now) }
{
    let columns = design.columns.balance.as_slice().len();
    no_unit_in_two(alloc, units, design.second, clusters)?;
    none_too_large(alloc, units, columns, clusters)?;
    let mut begun = begun_strata(alloc, units, design, clusters, strata)?;
    put_units(alloc, units, design, clusters, strata, &mut begun)?;
    rows_fit(
        design.procedure.method.draws_together(),
        strata.names.len(),
        columns,
    )?;
    Ok(begun)
}

// The strata, whose first stage units are all put in.
fn finished(alloc: Global, begun: Vec<Begun>) -> Result<Vec<Stratum>, NoMemory>
    ensures { IfOk result (λ strata. strata.items ≡ begun.items) }
{
    let mut strata = Vec::with_capacity(alloc, begun.len())?;
    for stratum in begun {
        strata.push(stratum.finish())?;
    }
    Ok(strata)
}

// Where each row stands.
fn seats_of(alloc: Global, clusters: &Clusters, strata: &Strata) -> Result<Vec<Seat>, NoMemory>
    requires homes { All (λ home. home < length strata.now.homes.items) clusters.now.homes }
    requires strata_places { length strata.now.places.items ≡ length strata.now.homes.items }
    requires places { length clusters.now.places ≡ length clusters.now.homes }
    ensures length { IfOk result (λ seats. length seats.items ≡ length clusters.now.homes) }
    ensures each { IfOk result (λ seats. (row : ℕ) (d : Seat)
        → row < length clusters.now.homes
        → slice_index_or seats.items row d
        ≡ seat_by strata.now.homes.items strata.now.places.items
        clusters.now.homes clusters.now.places row) }
{
    let homes = clusters.homes();
    let mut seats = Vec::with_capacity(alloc, homes.len())?;
    for (row, &home) in homes.iter().enumerate() {
        seats.push(Seat {
            stratum: strata.homes[home],
            unit: strata.places[home],
            place: clusters.place(row),
        })?;
    }
    Ok(seats)
}

fn second_method(design: &Design) -> Option<Method>
    ensures { result ≡ option_map (λ second. second.method) design.now.second }
{
    match design.second {
        Some(second) => Some(second.method),
        None => None,
    }
}

/// The plan of a frame and a design, or the first misfit.
pub(crate) fn planned(
    alloc: Global,
    units: &[Unit],
    design: &Design,
    clusters: &Clusters,
    strata: &Strata,
) -> Result<Plan, Misfit>
    requires layout { IsLaidOut design.now units.now clusters.now.rows strata.now }
    requires homes { clusters.now.homes ≡ homes_of design.now.second units.now }
    requires row_groups { AreGroups clusters.now.homes (length clusters.now.rows)
        clusters.now.rows clusters.now.places }
    ensures misfit { Reports result (misfit_of design.now units.now) }
    ensures plan { IfOk result (λ plan. plan ≡ strata_plan design.now units.now) }
    ensures sound { IfOk result IsPlan }
    ensures asked { IfOk result (AsksAsFrame design.now units.now) }
    ensures drawn { IfOk result (DrawsAsAsked design.now units.now) }
    ensures allocated { OnOk result (IsAllocated design.now units.now) }
{
    let begun = planned_strata(alloc, units, design, clusters, strata)?;
    let seats = seats_of(alloc, clusters, strata)?;
    let second = second_method(design);
    Ok(Plan {
        procedure: design.procedure,
        second,
        strata: finished(alloc, begun)?,
        seats,
    })
}
