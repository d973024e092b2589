//! What is asked of each stratum: the requests over its first stage units, or why there is none.

ghost use Rattle.std.specs.Prelude.{◌≡◌, ◌<◌, ◌≤◌, ℕ, None, Some, [], All, EachIndex, IfOk, IsSome, OnOk};
ghost use Rattle.std.specs.{Prelude.{length, map, nat_eq, nat_lt, slice_index, slice_index_or}, List.{range_with_len}};
ghost use Rattle.smp_frac.specs.Limits.{most_rows, number_limit};
ghost use Rattle.smp_frac.specs.declared.fractions.Frac as fractions;
ghost use Rattle.smp_prob.specs.Given.{AreGiven, common_multiple, largest_multiple};
ghost use Rattle.smp_strata.specs.{Clusters.{strata_numbers}, Draws.{IsAllocated}, Kept.Layouts.{IsLaidOut}};
ghost use Rattle.smp_strata.specs.Misfits.{Reports, first_found, probs_misfit, psu_too_large, short, sum_of, unwhole, when};
ghost use Rattle.smp_strata.specs.declared.misfit.Misfit.TheVariants as misfits;
ghost use Rattle.smp_strata.specs.Kept.Built.{AreFirstRequests, IsGivenRequest, IsSizedRequest, bare, request_misfit};

use crate::Misfit;
use crate::begun::Begun;
use crate::layout::{Clusters, Strata};
use crate::sizes::{cluster_sizes, probs_at, sample_sizes, sizes_at};
use smp_design::Design;
use smp_frac::{Frac, Text};
use smp_frame::Unit;
use smp_prob::{GivenFault, GivenRequest, ProbFault, Request, given, requested};
use std::alloc::Global;

// A number of units is given for each stratum.
fn all_have_sizes(alloc: Global, names: &[Text], sizes: &[u32]) -> Result<(), Misfit>
    requires { length sizes.now ≡ length names.now }
    ensures { Reports result (first_found
        (λ stratum. when (nat_eq (slice_index sizes.now stratum) 0)
        (misfits.NoSize (slice_index_or names.now stratum [])))
        (range_with_len 0 (length names.now))) }
{
    for stratum in 0..names.len() {
        if sizes[stratum] == 0 {
            return Err(Misfit::NoSize {
                stratum: names[stratum].copy(alloc)?,
            });
        }
    }
    Ok(())
}

// The request for n of a stratum's units with these sizes.
fn sized_request(alloc: Global, name: &Text, sizes: &[u32], n: u32) -> Result<Request, Misfit>
    requires few { length sizes.now ≤ most_rows }
    requires small { EachIndex sizes.now (λ i. slice_index sizes.now i < number_limit) }
    requires some { 1 ≤ n }
    ensures misfit { Reports result (short name.now sizes.now n) }
    ensures request { IfOk result (IsSizedRequest sizes.now n) }
{
    match requested(alloc, sizes, n) {
        Ok(request) => Ok(request),
        Err(ProbFault::TooMany { positive }) => Err(Misfit::TooMany {
            stratum: name.copy(alloc)?,
            n,
            positive,
        }),
        Err(ProbFault::NoMemory) => Err(Misfit::NoMemory),
    }
}

// A stratum from which n of the first stage units with some numbers are drawn, in proportion to their sizes.
fn sized_stratum(
    alloc: Global,
    name: &Text,
    cluster_sizes: &[u32],
    members: &[usize],
    n: u32,
) -> Result<Begun, Misfit>
    requires within { All (λ member. member < length cluster_sizes.now) members.now }
    requires few { length members.now ≤ most_rows }
    requires small { EachIndex cluster_sizes.now (λ i.
        slice_index cluster_sizes.now i < number_limit) }
    requires some { 1 ≤ n }
    ensures misfit { Reports result
        (short name.now (map (slice_index cluster_sizes.now) members.now) n) }
    ensures bare { IfOk result (λ begun. (begun.name ≡ name.now) × (begun.units ≡ [])) }
    ensures request { IfOk result (λ begun.
        IsSizedRequest (map (slice_index cluster_sizes.now) members.now) n begun.request) }
{
    let sizes = sizes_at(alloc, cluster_sizes, members)?;
    let request = sized_request(alloc, name, &sizes, n)?;
    Ok(Begun::new(alloc, name, request, members.len())?)
}

// The strata with the requests over their first stage units, in proportion to their sizes.
fn strata_by_sizes(
    alloc: Global,
    units: &[Unit],
    design: &Design,
    clusters: &Clusters,
    strata: &Strata,
) -> Result<Vec<Begun>, Misfit>
    requires layout { IsLaidOut design.now units.now clusters.now.rows strata.now }
    requires sized { design.now.columns.prob ≡ None }
    requires small { psu_too_large design.now units.now ≡ None }
    ensures misfit { Reports result (request_misfit None design.now units.now) }
    ensures bare { IfOk result (λ begun.
        begun.items ≡ map (bare design.now units.now) (strata_numbers units.now)) }
    ensures requests { OnOk result (AreFirstRequests design.now units.now) }
    ensures allocated { OnOk result (IsAllocated design.now units.now) }
{
    let samples = sample_sizes(alloc, design, &strata.names, &strata.members)?;
    all_have_sizes(alloc, &strata.names, &samples)?;
    let sizes = cluster_sizes(alloc, units, clusters)?;
    let mut begun = Vec::with_capacity(alloc, strata.names.len())?;
    for stratum in 0..strata.names.len() {
        let members = strata.members[stratum].as_slice();
        let n = samples[stratum];
        begun.push(sized_stratum(alloc, &strata.names[stratum], &sizes, members, n)?)?;
    }
    Ok(begun)
}

// The request over a stratum's units with these probabilities.
fn given_request(alloc: Global, name: &Text, probs: &[Frac]) -> Result<GivenRequest, Misfit>
    requires { AreGiven probs.now }
    ensures misfit { Reports result (when (nat_lt largest_multiple (common_multiple probs.now))
        (misfits.Denominator name.now)) }
    ensures request { IfOk result (λ given. IsGivenRequest probs.now given.request) }
    ensures expected { IfOk result (λ given. given.expected ≡ sum_of probs.now) }
{
    match given(alloc, probs) {
        Ok(given) => Ok(given),
        Err(GivenFault::Denominator) => Err(Misfit::Denominator {
            stratum: name.copy(alloc)?,
        }),
        Err(GivenFault::NoMemory) => Err(Misfit::NoMemory),
    }
}

// The probabilities of each stratum add up to a whole number.
fn all_whole(alloc: Global, names: &[Text], sums: &[Frac]) -> Result<(), Misfit>
    requires { length sums.now ≡ length names.now }
    ensures { (d : fractions.Frac) → Reports result (first_found
        (λ stratum. unwhole (slice_index_or names.now stratum [])
        (slice_index_or sums.now stratum d))
        (range_with_len 0 (length names.now))) }
{
    for stratum in 0..names.len() {
        let sum = sums[stratum];
        if sum.den() != 1 {
            return Err(Misfit::NotWhole {
                stratum: names[stratum].copy(alloc)?,
                sum,
            });
        }
    }
    Ok(())
}

// The strata with the requests over their first stage units, whose probabilities are given.
fn strata_by_probs(
    alloc: Global,
    units: &[Unit],
    design: &Design,
    clusters: &Clusters,
    strata: &Strata,
) -> Result<Vec<Begun>, Misfit>
    requires layout { IsLaidOut design.now units.now clusters.now.rows strata.now }
    requires given { IsSome design.now.columns.prob }
    ensures misfit { Reports result (probs_misfit design.now units.now) }
    ensures bare { IfOk result (λ begun.
        begun.items ≡ map (bare design.now units.now) (strata_numbers units.now)) }
    ensures requests { OnOk result (AreFirstRequests design.now units.now) }
{
    let mut begun = Vec::with_capacity(alloc, strata.names.len())?;
    let mut sums = Vec::with_capacity(alloc, strata.names.len())?;
    for stratum in 0..strata.names.len() {
        let name = &strata.names[stratum];
        let members = strata.members[stratum].as_slice();
        let probs = probs_at(alloc, units, clusters, members)?;
        let given = given_request(alloc, name, &probs)?;
        sums.push(given.expected)?;
        begun.push(Begun::new(alloc, name, given.request, members.len())?)?;
    }
    if design.procedure.method.draws_whole() {
        all_whole(alloc, &strata.names, &sums)?;
    }
    Ok(begun)
}

/// The strata with the requests over their first stage units, and no such units yet; or the first misfit of the requests.
pub(crate) fn begun_strata(
    alloc: Global,
    units: &[Unit],
    design: &Design,
    clusters: &Clusters,
    strata: &Strata,
) -> Result<Vec<Begun>, Misfit>
    requires layout { IsLaidOut design.now units.now clusters.now.rows strata.now }
    requires small { psu_too_large design.now units.now ≡ None }
    ensures misfit { Reports result
        (request_misfit design.now.columns.prob design.now units.now) }
    ensures bare { IfOk result (λ begun.
        begun.items ≡ map (bare design.now units.now) (strata_numbers units.now)) }
    ensures requests { OnOk result (AreFirstRequests design.now units.now) }
    ensures allocated { OnOk result (IsAllocated design.now units.now) }
{
    match design.columns.prob {
        None => strata_by_sizes(alloc, units, design, clusters, strata),
        Some(_) => strata_by_probs(alloc, units, design, clusters, strata),
    }
}
