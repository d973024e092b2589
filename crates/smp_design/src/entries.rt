//! What stands at a key of a table. `None` is a bad value; at an optional key, `Some(None)` says that the key isn't
//! there.

ghost use Rattle.std.specs.Prelude.{◌≡◌, IfOk, IfSome, option_and_then};
ghost use Rattle.toml.specs.{Data.{as_str, get_member}, View.{table_view}};
ghost use Rattle.smp_design.specs.{Bounds.{Ascend}, Values.{optional}};
ghost use Rattle.smp_design.specs.Values;

use crate::Quotas;
use crate::keys::value_at;
use crate::values::{names, number, order, quotas, text};
use smp_frac::{NoMemory, Text};
use smp_frame::Names;
use smp_prob::Order;
use std::alloc::Global;
use toml::Table;

pub(crate) fn text_at(alloc: Global, table: &Table, key: &str) -> Result<Option<Text>, NoMemory>
    ensures { IfOk result
        (λ o. o ≡ option_and_then as_str (get_member key.now (table_view table.now))) }
{
    match value_at(table, key) {
        Some(value) => text(alloc, value),
        None => Ok(None),
    }
}

pub(crate) fn optional_text_at(
    alloc: Global,
    table: &Table,
    key: &str,
) -> Result<Option<Option<Text>>, NoMemory>
    ensures { IfOk result (λ o. o ≡ optional as_str (get_member key.now (table_view table.now))) }
{
    let Some(value) = value_at(table, key) else {
        return Ok(Some(None));
    };
    Ok(text(alloc, value)?.map(Some))
}

pub(crate) fn optional_number_at(table: &Table, key: &str) -> Option<Option<u32>>
    ensures { result ≡ optional Values.number (get_member key.now (table_view table.now)) }
{
    match value_at(table, key) {
        Some(value) => number(value).map(Some),
        None => Some(None),
    }
}

pub(crate) fn optional_order_at(table: &Table, key: &str) -> Option<Option<Order>>
    ensures { result ≡ optional Values.order (get_member key.now (table_view table.now)) }
{
    match value_at(table, key) {
        Some(value) => order(value).map(Some),
        None => Some(None),
    }
}

pub(crate) fn optional_quotas_at(
    alloc: Global,
    table: &Table,
    key: &str,
) -> Result<Option<Option<Quotas>>, NoMemory>
    ensures value { IfOk result
        (λ o. o ≡ optional Values.quotas (get_member key.now (table_view table.now))) }
    ensures ascending { IfOk result (λ o. IfSome o (λ quotas. IfSome quotas Ascend)) }
{
    let Some(value) = value_at(table, key) else {
        return Ok(Some(None));
    };
    Ok(quotas(alloc, value)?.map(Some))
}

pub(crate) fn optional_names_at(
    alloc: Global,
    table: &Table,
    key: &str,
    most: usize,
) -> Result<Option<Option<Names>>, NoMemory>
    ensures { IfOk result
        (λ o. o ≡ optional (Values.names most) (get_member key.now (table_view table.now))) }
{
    let Some(value) = value_at(table, key) else {
        return Ok(Some(None));
    };
    Ok(names(alloc, value, most)?.map(Some))
}
