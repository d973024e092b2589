//! How the rows of a frame lie in first stage units, and these in strata.

ghost use Rattle.std.specs.Prelude.{◌≡◌, ◌≤◌, ◌<◌, [], All, IfOk, length, map, slice_index, slice_index_or};
ghost use Rattle.smp_frame.specs.Bounds.{IsFrame};
ghost use Rattle.smp_strata.specs.{Clusters.{clusters, first_row, psu_names, stratum_names, stratum_number}, Rows.{rows_of}};
ghost use Rattle.smp_strata.specs.Kept.Layouts as Layouts;
ghost use Rattle.smp_strata.specs.Kept.Layouts.{AreGroups, AreRows, homes_of, psu_number};

use crate::groups::{Group, Groups, groups_of};
use crate::names::{Counted, Numbered, counted_texts, numbered_texts};
use smp_design::Second;
use smp_frac::{NoMemory, Text};
use smp_frame::Unit;
use smp_places::numbers_below;
use std::alloc::Global;
use std::marker::Model;
use std::slice;

/// The first stage units of a frame, in order of first appearance: each row by itself, or the rows of each psu.
#[derive(Drop)]
pub(crate) struct Clusters {
    // The number of each row's first stage unit.
    homes: Vec<usize>,
    // The rows of each psu, and each row's place among them; `None` where each row is by itself.
    psus: Option<Groups>,
}

impl Model for Clusters {
    ghost use Rattle.std.specs.{Prelude.{◌≡◌, IfNone, length}, List.{range_with_len}};
    ghost use Rattle.smp_strata.specs.Kept.Layouts.{Clustered, places_by, rows_by};

    ghost Value = { Clustered };

    ghost view = { λ c. record {
      rows = rows_by c.homes.items c.psus;
      homes = c.homes.items;
      places = places_by c.homes.items c.psus;
    } };

    ghost invariant = { λ c.
        IfNone c.psus (c.homes.items ≡ range_with_len 0 (length c.homes.items)) };
}

impl Clusters {
    /// How many there are.
    pub(crate) fn len(&self) -> usize
        ensures { result ≡ length self.now.rows }
    {
        match &self.psus {
            Some(psus) => psus.groups.len(),
            None => self.homes.len(),
        }
    }

    /// The rows of a first stage unit, by its number.
    pub(crate) fn rows(&self, number: usize) -> &[usize]
        requires { number < length self.now.rows }
        ensures { result.now ≡ slice_index_or self.now.rows number [] }
    {
        match &self.psus {
            Some(psus) => psus.groups[number].as_slice(),
            None => slice::from_ref(&self.homes[number]),
        }
    }

    /// The number of each row's first stage unit.
    pub(crate) fn homes(&self) -> &[usize]
        ensures { result.now ≡ self.now.homes }
    {
        self.homes.as_slice()
    }

    /// A row's place in its first stage unit.
    pub(crate) fn place(&self, row: usize) -> usize
        requires row { row < length self.now.homes }
        requires paired { length self.now.places ≡ length self.now.homes }
        ensures { result ≡ slice_index self.now.places row }
    {
        match &self.psus {
            Some(psus) => psus.among[row],
            None => 0,
        }
    }
}

/// The strata of a frame, in order of first appearance.
#[derive(Drop)]
pub(crate) struct Strata {
    /// The name of each.
    pub names: Vec<Text>,
    /// The numbers of the first stage units of each.
    pub members: Vec<Group>,
    /// The number of each first stage unit's stratum, and the unit's place in that.
    pub homes: Vec<usize>,
    pub places: Vec<usize>,
}

fn strata_texts<'a>(alloc: Global, units: &'a [Unit]) -> Result<Vec<&'a str>, NoMemory>
    ensures { IfOk result (λ texts.
        map (λ t. t.now) texts.items ≡ map (λ u. u.stratum) units.now) }
{
    let mut texts = Vec::with_capacity(alloc, units.len())?;
    for unit in units {
        texts.push(unit.stratum.as_str())?;
    }
    Ok(texts)
}

fn psu_texts<'a>(alloc: Global, units: &'a [Unit]) -> Result<Vec<&'a str>, NoMemory>
    ensures { IfOk result (λ texts.
        map (λ t. t.now) texts.items ≡ map (λ u. u.psu) units.now) }
{
    let mut texts = Vec::with_capacity(alloc, units.len())?;
    for unit in units {
        texts.push(unit.psu.as_str())?;
    }
    Ok(texts)
}

// The names of the strata, and the number of each row's stratum.
fn numbered_strata(alloc: Global, units: &[Unit]) -> Result<Numbered, NoMemory>
    ensures names { IfOk result (λ n. n.names.items ≡ stratum_names units.now) }
    ensures numbers { IfOk result (λ n.
        n.numbers.items ≡ map (stratum_number units.now) (rows_of units.now)) }
{
    let texts = strata_texts(alloc, units)?;
    let numbered = numbered_texts(alloc, &texts)?;
    Ok(numbered)
}

// How many psus there are, and the number of each row's psu.
fn numbered_psus(alloc: Global, units: &[Unit]) -> Result<Counted, NoMemory>
    ensures count { IfOk result (λ n. n.count ≡ length (psu_names units.now)) }
    ensures numbers { IfOk result (λ n.
        n.numbers.items ≡ map (psu_number units.now) (rows_of units.now)) }
{
    let texts = psu_texts(alloc, units)?;
    let numbered = counted_texts(alloc, &texts)?;
    Ok(numbered)
}

/// The first stage units of a frame.
pub(crate) fn clusters_of(
    alloc: Global,
    units: &[Unit],
    second: Option<Second>,
) -> Result<Clusters, NoMemory>
    requires { IsFrame units.now }
    ensures rows { IfOk result (λ c. c.rows ≡ clusters second units.now) }
    ensures homes { IfOk result (λ c. c.homes ≡ homes_of second units.now) }
    ensures groups { IfOk result (λ c. AreGroups c.homes (length c.rows) c.rows c.places) }
    ensures all_rows { IfOk result (λ c. All (AreRows (length units.now)) c.rows) }
{
    match second {
        None => Ok(Clusters {
            homes: numbers_below(alloc, units.len())?,
            psus: None,
        }),
        Some(_) => {
            let psus = numbered_psus(alloc, units)?;
            let groups = groups_of(alloc, &psus.numbers, psus.count)?;
            Ok(Clusters {
                homes: psus.numbers,
                psus: Some(groups),
            })
        }
    }
}

// What stands at the first row of each group.
fn at_first_rows(alloc: Global, groups: &[Group], numbers: &[usize]) -> Result<Vec<usize>, NoMemory>
    requires rows { All (AreRows (length numbers.now)) groups.now }
    ensures { IfOk result (λ homes.
        homes.items ≡ map (λ rows. slice_index numbers.now (first_row rows)) groups.now) }
{
    let mut homes = Vec::with_capacity(alloc, groups.len())?;
    for group in groups {
        homes.push(numbers[group.as_slice()[0]])?;
    }
    Ok(homes)
}

// The stratum of each first stage unit, which is that of its first row.
fn strata_homes(
    alloc: Global,
    clusters: &Clusters,
    numbers: Vec<usize>,
) -> Result<Vec<usize>, NoMemory>
    requires rows { All (AreRows (length numbers.items)) clusters.now.rows }
    requires paired { length clusters.now.homes ≡ length numbers.items }
    ensures { IfOk result (λ homes. homes.items
        ≡ map (λ rows. slice_index numbers.items (first_row rows)) clusters.now.rows) }
{
    match &clusters.psus {
        Some(psus) => at_first_rows(alloc, &psus.groups, &numbers),
        None => Ok(numbers),
    }
}

/// The strata of a frame with these first stage units.
pub(crate) fn strata_of(
    alloc: Global,
    units: &[Unit],
    clusters: &Clusters,
) -> Result<Strata, NoMemory>
    requires rows { All (AreRows (length units.now)) clusters.now.rows }
    requires paired { length clusters.now.homes ≡ length units.now }
    ensures names { IfOk result (λ s. s.names.items ≡ stratum_names units.now) }
    ensures homes { IfOk result (λ s.
        s.homes.items ≡ Layouts.strata_homes units.now clusters.now.rows) }
    ensures groups { IfOk result (λ s.
        AreGroups s.homes.items (length s.names.items) s.members.items s.places.items) }
{
    let numbered = numbered_strata(alloc, units)?;
    let homes = strata_homes(alloc, clusters, numbered.numbers)?;
    let groups = groups_of(alloc, &homes, numbered.names.len())?;
    Ok(Strata {
        names: numbered.names,
        members: groups.groups,
        homes,
        places: groups.among,
    })
}
