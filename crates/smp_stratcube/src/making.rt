//! The units of some strata.

ghost use Rattle.std.specs.Prelude.{◌≡◌, ℕ, ◌+◌, ◌<◌, ◌≤◌, ◌++◌, IfOk, length, map, slice_index, slice_index_or, take};
ghost use Rattle.std.specs.List.{range_with_len};
ghost use Rattle.smp_frac.specs.Limits.{number_limit};
ghost use Rattle.smp_kernel.specs.Vectors.{entry};
ghost use Rattle.smp_stratcube.specs.{Layers.{AreLayers, variables}, Units.{IsUnits, column_of, member_of, units_of}};
ghost use Rattle.smp_stratcube.specs.{Requests.{AreRequested}, States.{started}, Kept.Behind.{AreBehind, HaveCommon, IsBehind}};
ghost use Rattle.smp_stratcube.specs.Kept.Layers.{EachIsLayer, width};

use crate::layers::{Layer, Layers};
use crate::units::{Member, Units};
use crate::values::least_multiple;
use smp_frac::NoMemory;
use smp_moves::lowest;
use std::alloc::Global;

/// The column of a unit: its size in the row of its stratum, and its balancing values in the rows past those of the strata.
fn column_of(
    strata: usize,
    stratum: usize,
    size: u32,
    values: &[i32; 15],
    number: usize,
) -> [i32; 16]
    requires stratum { stratum < strata }
    requires rows { strata + number ≤ 16 }
    requires size { size < number_limit }
    ensures { result ≡ column_of strata stratum size (take number values.now) }
{
    let mut column = [0; 16];
    column[stratum] = size as i32;
    for place in 0..number {
        column[strata + place] = values[place];
    }
    column
}

/// A unit of a stratum.
fn member_of(strata: usize, stratum: usize, layer: &Layer, unit: usize) -> Member
    requires stratum { stratum < strata }
    requires rows { strata + width layer.now ≤ 16 }
    requires unit { unit < length layer.now.request.shape }
    ensures { result ≡ member_of strata stratum layer.now unit }
{
    let size = layer.shape[unit];
    Member {
        column: column_of(strata, stratum, size, &layer.values[unit], layer.variables),
        stratum,
        share: lowest(size as u128 * layer.r as u128, layer.total as u128),
    }
}

/// Appends the units of a stratum.
fn push_members(
    members: &mut Vec<Member>,
    strata: usize,
    stratum: usize,
    layer: &Layer,
) -> Result<(), NoMemory>
    requires stratum { stratum < strata }
    requires rows { 1 ≤ length layer.now.request.shape → strata + width layer.now ≤ 16 }
    ensures { IfOk result (λ done. members.new.items
        ≡ members.old.items ++ map (member_of strata stratum layer.now)
        (range_with_len 0 (length layer.now.request.shape))) }
{
    for unit in 0..layer.shape.len() {
        members.push(member_of(strata, stratum, layer, unit))?;
    }
    Ok(())
}

/// How many balancing values the units have.
fn variables_of(layers: &[Layer]) -> usize
    ensures { result ≡ variables layers.now }
{
    for stratum in 0..layers.len() {
        let layer = &layers[stratum];
        if layer.values.len() > 0 {
            return layer.variables;
        }
    }
    0
}

/// The least common denominator of the probabilities of a unit and of those behind it in its stratum, by that of the next unit.
fn behind(members: &[Member], unit: usize, next: u128) -> u128
    requires have { HaveCommon members.now }
    requires unit { unit < length members.now }
    requires next { unit + 1 < length members.now → IsBehind members.now (unit + 1) next }
    ensures { IsBehind members.now unit result }
{
    let own = members[unit].share.den;
    if unit + 1 < members.len() && members[unit + 1].stratum == members[unit].stratum {
        least_multiple(own, next)
    } else {
        own
    }
}

/// The least common denominators of the probabilities of each unit and of those behind it in its stratum, from the last unit to the first.
fn behind_of(alloc: Global, members: &[Member]) -> Result<Vec<u128>, NoMemory>
    requires { HaveCommon members.now }
    ensures { IfOk result (λ behind. AreBehind members.now behind.items) }
{
    let mut all = Vec::with_capacity(alloc, members.len())?;
    let mut last = 1;
    for back in 0..members.len() {
        last = behind(members, members.len() - 1 - back, last);
        all.push(last)?;
    }
    Ok(all)
}

/// The units of all strata, and the common denominator of the probabilities of each stratum.
fn members_of(alloc: Global, layers: &[Layer]) -> Result<(Vec<Member>, Vec<u64>), NoMemory>
    requires are { AreLayers layers.now }
    requires each { EachIsLayer layers.now }
    ensures { IfOk result (λ both. (both.0.items ≡ (units_of layers.now).members)
        × (both.1.items ≡ (units_of layers.now).firsts)) }
{
    let strata = layers.len();
    let mut members = Vec::new(alloc);
    let mut firsts = Vec::new(alloc);
    for stratum in 0..strata {
        let layer = &layers[stratum];
        push_members(&mut members, strata, stratum, layer)?;
        firsts.push(layer.first)?;
    }
    Ok((members, firsts))
}

/// The units of these strata.
pub(crate) fn units_of(alloc: Global, layers: &Layers) -> Result<Units, NoMemory>
    requires { AreLayers layers.now }
    ensures is { IfOk result (λ units. units ≡ units_of layers.now) }
    ensures are { IfOk result IsUnits }
    ensures requested { IfOk result (λ units. AreRequested layers.now (started units)) }
{
    let (members, firsts) = members_of(alloc, layers.layers.as_slice())?;
    let behind = behind_of(alloc, members.as_slice())?;
    Ok(Units {
        members,
        behind,
        firsts,
        rows: layers.layers.len() + variables_of(layers.layers.as_slice()),
    })
}
