//! Designs from their bytes.

ghost use Rattle.std.specs.Prelude.{◌≡◌, [], IfOk, codes, unwrap_or};
ghost use Rattle.toml.specs.{Data.{get_member}, View.{table_view}};
ghost use Rattle.smp_design.specs.{Bounds.{IsDesign, Ascend}, Designs.{design_of}, Faults.{is_memory}};
ghost use Rattle.smp_design.specs.Designs;
ghost use Rattle.smp_design.specs.Faults;
ghost use Rattle.smp_frac.specs.Memory.{Gives, Reads};

use crate::check::{check_clash, check_known, check_needed, version_of};
use crate::entries::{
    optional_names_at, optional_number_at, optional_order_at, optional_quotas_at, optional_text_at,
    text_at,
};
use crate::keys::value_at;
use crate::method::{MAX_BALANCE, MAX_NEAR};
use crate::values::{method, number, second_method};
use crate::{Design, DesignFault, Procedure, Quotas, Second};
use smp_frac::Text;
use smp_frame::{Columns, Names};
use smp_prob::Order;
use std::alloc::Global;
use toml::Table;

/// Reads a design from a TOML document in UTF-8.
///
/// Where the bytes aren't a design, the answer is their first fault, in the order of the variants of
/// [`DesignFault`].
pub fn read_design(alloc: Global, bytes: &[u8]) -> Result<Design, DesignFault>
    ensures reads { Reads is_memory result (design_of bytes.now) }
    ensures bounds { IfOk result IsDesign }
{
    checked_design(alloc, bytes)
}

#[tactic(auto, unfolding(crate::specs::Designs::design_of))]
fn checked_design(alloc: Global, bytes: &[u8]) -> Result<Design, DesignFault>
    ensures reads { Reads is_memory result (design_of bytes.now) }
    ensures ascending { IfOk result (λ d. Ascend d.sizes) }
{
    let table = document(alloc, bytes)?;
    let version = version_of(&table)?;
    check_known(alloc, &table, version)?;
    check_needed(alloc, &table, version)?;
    let design = values(alloc, &table, version)?;
    check_clash(alloc, &table, design.procedure.method)?;
    Ok(design)
}

// The table of a document.
#[tactic(auto, unfolding(crate::specs::Designs::document))]
fn document(alloc: Global, bytes: &[u8]) -> Result<Table, DesignFault>
    ensures { Gives is_memory table_view result (Designs.document bytes.now) }
{
    match toml::table_from_slice(alloc, bytes) {
        Ok(table) => Ok(table),
        Err(error) => {
            if error.is_memory() {
                Err(DesignFault::NoMemory)
            } else {
                Err(DesignFault::Syntax)
            }
        }
    }
}

// What the values of a design of this version say.
#[tactic(auto, unfolding(crate::specs::Designs::values))]
fn values(alloc: Global, table: &Table, version: u32) -> Result<Design, DesignFault>
    ensures reads { Reads is_memory result (Designs.values version (table_view table.now)) }
    ensures ascending { IfOk result (λ d. Ascend d.sizes) }
{
    let method = good(
        alloc,
        "method",
        value_at(table, "method").and_then(|value| method(value, version)),
    )?;
    let unit = unit_columns(alloc, table)?;
    let sample = sample_size(alloc, table)?;
    let columns = value_columns(alloc, table)?;
    let second = second_stage(alloc, table, version)?;
    Ok(Design {
        version,
        procedure: Procedure {
            method,
            order: sample.order,
            balance: columns.balance.as_slice().len(),
            near: columns.near.as_slice().len(),
        },
        columns: Columns {
            id: unit.id,
            stratum: unit.stratum,
            psu: second.psu,
            size: unit.size,
            second_size: second.size,
            prob: sample.prob,
            balance: columns.balance,
            near: columns.near,
        },
        n: sample.n,
        sizes: sample.sizes,
        second: second.second,
    })
}

/// The columns of the units' ids, strata and sizes.
#[derive(Drop)]
struct UnitColumns {
    id: Text,
    stratum: Option<Text>,
    size: Option<Text>,
}

#[tactic(auto, unfolding(crate::specs::Designs::unit_columns))]
fn unit_columns(alloc: Global, table: &Table) -> Result<UnitColumns, DesignFault>
    ensures { Reads is_memory result (Designs.unit_columns (table_view table.now)) }
{
    let id = good(alloc, "id", text_at(alloc, table, "id")?)?;
    let stratum = good(alloc, "stratum", optional_text_at(alloc, table, "stratum")?)?;
    let size = good(alloc, "size", optional_text_at(alloc, table, "size")?)?;
    Ok(UnitColumns { id, stratum, size })
}

/// How many units are drawn or with which probabilities, and in which order they are taken.
#[derive(Drop)]
struct SampleSize {
    n: Option<u32>,
    sizes: Quotas,
    prob: Option<Text>,
    order: Order,
}

#[tactic(auto, unfolding(crate::specs::Designs::sample_size))]
fn sample_size(alloc: Global, table: &Table) -> Result<SampleSize, DesignFault>
    ensures reads { Reads is_memory result (Designs.sample_size (table_view table.now)) }
    ensures ascending { IfOk result (λ s. Ascend s.sizes) }
{
    let n = good(alloc, "n", optional_number_at(table, "n"))?;
    let sizes = good(alloc, "sizes", optional_quotas_at(alloc, table, "sizes")?)?;
    let prob = good(alloc, "prob", optional_text_at(alloc, table, "prob")?)?;
    let order = good(alloc, "order", optional_order_at(table, "order"))?;
    Ok(SampleSize {
        n,
        sizes: quotas_or_none(alloc, sizes),
        prob,
        order: order.unwrap_or(Order::Frame),
    })
}

fn quotas_or_none(alloc: Global, quotas: Option<Quotas>) -> Quotas
    ensures { result ≡ unwrap_or quotas [] }
{
    match quotas {
        Some(quotas) => quotas,
        None => Quotas::from_vec(Vec::new(alloc)),
    }
}

/// The columns of the balancing values, and those of the coordinates.
#[derive(Drop)]
struct ValueColumns {
    balance: Names,
    near: Names,
}

#[tactic(auto, unfolding(crate::specs::Designs::value_columns))]
fn value_columns(alloc: Global, table: &Table) -> Result<ValueColumns, DesignFault>
    ensures { Reads is_memory result (Designs.value_columns (table_view table.now)) }
{
    let balance = good(
        alloc,
        "balance",
        optional_names_at(alloc, table, "balance", MAX_BALANCE)?,
    )?;
    let near = good(
        alloc,
        "near",
        optional_names_at(alloc, table, "near", MAX_NEAR)?,
    )?;
    Ok(ValueColumns {
        balance: names_or_none(alloc, balance),
        near: names_or_none(alloc, near),
    })
}

fn names_or_none(alloc: Global, names: Option<Names>) -> Names
    ensures { result ≡ unwrap_or names [] }
{
    match names {
        Some(names) => names,
        None => Names::from_vec(Vec::new(alloc)),
    }
}

/// The second stage, with the columns of its first stage units and of its sizes.
#[derive(Drop)]
struct SecondStage {
    psu: Option<Text>,
    size: Option<Text>,
    second: Option<Second>,
}

fn second_stage(alloc: Global, table: &Table, version: u32) -> Result<SecondStage, DesignFault>
    ensures { Reads is_memory result
        (Designs.second_stage version (get_member (codes "second") (table_view table.now))) }
{
    let Some(value) = value_at(table, "second") else {
        return Ok(SecondStage {
            psu: None,
            size: None,
            second: None,
        });
    };
    match value.as_table() {
        Some(second) => second_stage_of(alloc, second, version),
        None => good(alloc, "second", None),
    }
}

#[tactic(auto, unfolding(crate::specs::Designs::second_stage_of))]
fn second_stage_of(alloc: Global, table: &Table, version: u32) -> Result<SecondStage, DesignFault>
    ensures { Reads is_memory result (Designs.second_stage_of version (table_view table.now)) }
{
    let psu = good(alloc, "second.psu", text_at(alloc, table, "psu")?)?;
    let method = good(
        alloc,
        "second.method",
        value_at(table, "method").and_then(|value| second_method(value, version)),
    )?;
    let n = good(alloc, "second.n", value_at(table, "n").and_then(number))?;
    let size = good(
        alloc,
        "second.size",
        optional_text_at(alloc, table, "size")?,
    )?;
    Ok(SecondStage {
        psu: Some(psu),
        size,
        second: Some(Second { method, n }),
    })
}

// The value of a key, where it is a good one.
fn good<T: Drop>(alloc: Global, key: &str, value: Option<T>) -> Result<T, DesignFault>
    ensures { Reads is_memory result (Faults.good key.now value) }
{
    match value {
        Some(value) => Ok(value),
        None => Err(DesignFault::BadValue {
            key: Text::from_str(alloc, key)?,
        }),
    }
}
