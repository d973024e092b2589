//! Misfits that are looked for by themselves: of psus, and of strata that are drawn together.

ghost use Rattle.std.specs.{Prelude.{◌≡◌, ◌^◌, ◌<◌, ◌≤◌, Some, All, length, slice_index, slice_index_or, []}, Str.{bytes_eq}};
ghost use Rattle.smp_frame.specs.Bounds.{HaveBalance, IsFrame};
ghost use Rattle.smp_strata.specs.Rows as Rows;
ghost use Rattle.smp_strata.specs.{Rows.{psu_at, stratum_at}, Clusters.{clusters as clusters_of, first_row}};
ghost use Rattle.smp_strata.specs.Misfits.{Reports, first_apart, first_found, row_limit_by, unit_in_two, when};
ghost use Rattle.smp_strata.specs.declared.misfit.Misfit.TheVariants as misfits;
ghost use Rattle.smp_strata.specs.Kept.Layouts.{AreRows, homes_of};

use crate::Misfit;
use crate::layout::Clusters;
use crate::sums::is_large;
use smp_design::Second;
use smp_frame::Unit;
use std::alloc::Global;

// Whether two rows are in one stratum.
fn same_stratum(units: &[Unit], row: usize, other: usize) -> bool
    requires row { row < length units.now }
    requires other { other < length units.now }
    ensures { result ≡ bytes_eq (stratum_at units.now row) (stratum_at units.now other) }
{
    units[row].stratum.as_str() == units[other].stratum.as_str()
}

// The first row of the first stage unit of a row.
fn first_with(clusters: &Clusters, row: usize) -> usize
    requires row { row < length clusters.now.homes }
    requires home { slice_index clusters.now.homes row < length clusters.now.rows }
    requires some { 1 ≤ length (slice_index_or clusters.now.rows
        (slice_index clusters.now.homes row) []) }
    ensures { result ≡ first_row (slice_index_or clusters.now.rows
        (slice_index clusters.now.homes row) []) }
{
    clusters.rows(clusters.homes()[row])[0]
}

// No psu has rows in two strata.
fn none_apart(
    alloc: Global,
    units: &[Unit],
    second: Second,
    clusters: &Clusters,
) -> Result<(), Misfit>
    requires frame { IsFrame units.now }
    requires rows { clusters.now.rows ≡ clusters_of (Some second) units.now }
    requires homes { clusters.now.homes ≡ homes_of (Some second) units.now }
    ensures { Reports result (first_apart units.now) }
{
    for row in 0..units.len() {
        let first = first_with(clusters, row);
        if !same_stratum(units, first, row) {
            return Err(Misfit::UnitInTwo {
                psu: units[row].psu.copy(alloc)?,
            });
        }
    }
    Ok(())
}

/// No psu has rows in two strata, where there are psus.
pub(crate) fn no_unit_in_two(
    alloc: Global,
    units: &[Unit],
    second: Option<Second>,
    clusters: &Clusters,
) -> Result<(), Misfit>
    requires frame { IsFrame units.now }
    requires rows { clusters.now.rows ≡ clusters_of second units.now }
    requires homes { clusters.now.homes ≡ homes_of second units.now }
    ensures { Reports result (unit_in_two second units.now) }
{
    match second {
        None => Ok(()),
        Some(second) => none_apart(alloc, units, second, clusters),
    }
}

/// No psu has a sum above the limit.
pub(crate) fn none_too_large(
    alloc: Global,
    units: &[Unit],
    columns: usize,
    clusters: &Clusters,
) -> Result<(), Misfit>
    requires frame { IsFrame units.now }
    requires balance { HaveBalance columns units.now }
    requires rows { All (AreRows (length units.now)) clusters.now.rows }
    ensures { Reports result (first_found
        (λ rows. when (Rows.is_large units.now columns rows)
        (misfits.PsuTooLarge (psu_at units.now (first_row rows)))) clusters.now.rows) }
{
    for cluster in 0..clusters.len() {
        let rows = clusters.rows(cluster);
        if is_large(units, columns, rows) {
            return Err(Misfit::PsuTooLarge {
                psu: units[rows[0]].psu.copy(alloc)?,
            });
        }
    }
    Ok(())
}

// The most rows of the balancing equations of all strata.
const MAX_EQUATIONS: usize = 16;

/// There are few enough rows of balancing equations, where all strata are drawn together.
pub(crate) fn rows_fit(together: bool, strata: usize, variables: usize) -> Result<(), Misfit>
    requires strata { strata < 2 ^ 32 }
    requires variables { variables < 2 ^ 32 }
    ensures { Reports result (row_limit_by together strata variables) }
{
    if together && strata + variables > MAX_EQUATIONS {
        Err(Misfit::RowLimit {
            strata: strata as u32,
            variables: variables as u32,
        })
    } else {
        Ok(())
    }
}
