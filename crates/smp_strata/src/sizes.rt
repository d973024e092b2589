//! Sizes of first stage units, and how many of these are drawn from each stratum.

ghost use Rattle.std.specs.{Prelude.{◌≡◌, ◌<◌, ◌≤◌, All, IfOk, IfSome, length, map, slice_index, sum}, Ordering.{nat_cmp}};
ghost use Rattle.std.specs.Cmp.Lexicographic.{slice_cmp};
ghost use Rattle.smp_frac.specs.Limits.{most_rows, number_limit};
ghost use Rattle.smp_frame.specs.Bounds.{IsFrame};
ghost use Rattle.smp_design.specs.Bounds.{Ascend, IsDesign};
ghost use Rattle.smp_strata.specs.{Allocations.{IsAllocation}, Plans.{sizes_by}, Kept.Layouts.{AreRows, prob_of}};
ghost use Rattle.smp_strata.specs.Rows as Rows;
ghost use Rattle.smp_strata.specs.Plans as Plans;

use crate::allocation::allocation;
use crate::groups::Group;
use crate::layout::Clusters;
use crate::sums::size_of;
use smp_design::{Design, Quota};
use smp_frac::{Frac, NoMemory, Text};
use smp_frame::Unit;
use std::alloc::Global;
use std::cmp::Ordering;

/// The sizes of first stage units.
pub(crate) fn cluster_sizes(
    alloc: Global,
    units: &[Unit],
    clusters: &Clusters,
) -> Result<Vec<u32>, NoMemory>
    requires frame { IsFrame units.now }
    requires rows { All (AreRows (length units.now)) clusters.now.rows }
    requires small { All (λ rows. Rows.size_of units.now rows < number_limit) clusters.now.rows }
    ensures { IfOk result (λ sizes.
        sizes.items ≡ map (Rows.size_of units.now) clusters.now.rows) }
{
    let mut sizes = Vec::with_capacity(alloc, clusters.len())?;
    for cluster in 0..clusters.len() {
        sizes.push(size_of(units, clusters.rows(cluster)) as u32)?;
    }
    Ok(sizes)
}

/// The sizes at some places.
pub(crate) fn sizes_at(alloc: Global, sizes: &[u32], places: &[usize]) -> Result<Vec<u32>, NoMemory>
    requires { All (λ place. place < length sizes.now) places.now }
    ensures { IfOk result (λ list. list.items ≡ map (slice_index sizes.now) places.now) }
{
    let mut list = Vec::with_capacity(alloc, places.len())?;
    for &place in places {
        list.push(sizes[place])?;
    }
    Ok(list)
}

/// The probabilities of some first stage units of one row each, by their numbers.
pub(crate) fn probs_at(
    alloc: Global,
    units: &[Unit],
    clusters: &Clusters,
    members: &[usize],
) -> Result<Vec<Frac>, NoMemory>
    requires rows { All (AreRows (length units.now)) clusters.now.rows }
    requires within { All (λ member. member < length clusters.now.rows) members.now }
    ensures { IfOk result (λ probs. probs.items
        ≡ map (prob_of units.now clusters.now.rows) members.now) }
{
    let mut probs = Vec::with_capacity(alloc, members.len())?;
    for &member in members {
        probs.push(units[clusters.rows(member)[0]].prob)?;
    }
    Ok(probs)
}

/// The second sizes of some rows.
pub(crate) fn second_sizes(
    alloc: Global,
    units: &[Unit],
    rows: &[usize],
) -> Result<Vec<u32>, NoMemory>
    requires { All (λ row. row < length units.now) rows.now }
    ensures { IfOk result (λ list. list.items ≡ Plans.second_sizes units.now rows.now) }
{
    let mut list = Vec::with_capacity(alloc, rows.len())?;
    for &row in rows {
        list.push(units[row].second_size)?;
    }
    Ok(list)
}

fn lengths(alloc: Global, groups: &[Group]) -> Result<Vec<u32>, NoMemory>
    requires { All (λ group. length group ≤ most_rows) groups.now }
    ensures { IfOk result (λ list. list.items ≡ map length groups.now) }
{
    let mut list = Vec::with_capacity(alloc, groups.len())?;
    for group in groups {
        list.push(group.as_slice().len() as u32)?;
    }
    Ok(list)
}

// How the name of a quota's stratum compares to a name.
fn compared(quota: &Quota, name: &Text) -> Ordering
    ensures { result ≡ slice_cmp nat_cmp quota.now.stratum name.now }
{
    quota.stratum.as_str().cmp(name.as_str())
}

// The number of a stratum's entry; 0 where it has none.
fn quota_of(quotas: &[Quota], name: &Text) -> u32
    requires { Ascend quotas.now }
    ensures { result ≡ Plans.quota_of quotas.now name.now }
{
    match quotas.binary_search_by(|quota| compared(quota, name)) {
        Ok(place) => quotas[place].n,
        Err(_) => 0,
    }
}

fn quotas_of(alloc: Global, quotas: &[Quota], names: &[Text]) -> Result<Vec<u32>, NoMemory>
    requires { Ascend quotas.now }
    ensures { IfOk result (λ sizes. sizes.items ≡ map (Plans.quota_of quotas.now) names.now) }
{
    let mut sizes = Vec::with_capacity(alloc, names.len())?;
    for name in names {
        sizes.push(quota_of(quotas, name))?;
    }
    Ok(sizes)
}

/// How many first stage units are drawn from each stratum; 0 is no number.
pub(crate) fn sample_sizes(
    alloc: Global,
    design: &Design,
    names: &[Text],
    members: &[Group],
) -> Result<Vec<u32>, NoMemory>
    requires design { IsDesign design.now }
    requires few { length members.now ≤ most_rows }
    requires some { 1 ≤ sum (map length members.now) }
    requires total { sum (map length members.now) ≤ most_rows }
    ensures value { IfOk result (λ sizes. sizes.items
        ≡ sizes_by design.now.n design.now.sizes names.now (map length members.now)) }
    ensures rule { IfOk result (λ sizes. IfSome design.now.n
        (λ n. IsAllocation n (map length members.now) sizes.items)) }
{
    match design.n {
        Some(n) => {
            let counts = lengths(alloc, members)?;
            let sizes = allocation(alloc, n, &counts)?;
            Ok(sizes)
        }
        None => {
            let sizes = quotas_of(alloc, design.sizes.as_slice(), names)?;
            Ok(sizes)
        }
    }
}
