//! What the values of a design's keys mean. `None` is a bad value.

ghost use Rattle.std.specs.Prelude.{◌≡◌, IfOk, IfSome, option_map};
ghost use Rattle.toml.specs.{Data.{as_str}, View.{view, items_view, table_view}};
ghost use Rattle.smp_design.specs.Bounds.{Ascend};
ghost use Rattle.smp_design.specs.Values;

use crate::method::order_from_word;
use crate::{Method, Quota, Quotas};
use smp_frac::{MOST_ROWS, NoMemory, Text};
use smp_frame::Names;
use smp_prob::Order;
use std::alloc::Global;
use toml::{Table, Value};

// The versions of a design go from 1 to this one.
const LAST_VERSION: u32 = 2;

pub(crate) fn text(alloc: Global, value: &Value) -> Result<Option<Text>, NoMemory>
    ensures { IfOk result (λ o. o ≡ as_str (view value.now)) }
{
    match value.as_str() {
        Some(text) => Ok(Some(Text::from_str(alloc, text)?)),
        None => Ok(None),
    }
}

// An integer from 1 to `most`.
fn integer_to(most: u32, value: &Value) -> Option<u32>
    ensures { result ≡ Values.integer_to most (view value.now) }
{
    match value.as_integer() {
        Some(number) if number >= 1 && number <= most as i64 => Some(number as u32),
        _ => None,
    }
}

// A version of designs.
pub(crate) fn version(value: &Value) -> Option<u32>
    ensures { result ≡ Values.version (view value.now) }
{
    integer_to(LAST_VERSION, value)
}

// A number of units, that a design draws from all strata, from one of them, or from a first stage unit.
pub(crate) fn number(value: &Value) -> Option<u32>
    ensures { result ≡ Values.number (view value.now) }
{
    integer_to(MOST_ROWS, value)
}

// A method of designs of this version.
pub(crate) fn method(value: &Value, version: u32) -> Option<Method>
    ensures { result ≡ Values.method version (view value.now) }
{
    Method::from_word(value.as_str()?)?.if_in(version)
}

// A method that a second stage may have, in a design of this version.
pub(crate) fn second_method(value: &Value, version: u32) -> Option<Method>
    ensures { result ≡ Values.second_method version (view value.now) }
{
    method(value, version).filter(|method| !method.needs_columns())
}

pub(crate) fn order(value: &Value) -> Option<Order>
    ensures { result ≡ Values.order (view value.now) }
{
    order_from_word(value.as_str()?)
}

// An array of 1 to `most` strings.
pub(crate) fn names(alloc: Global, value: &Value, most: usize) -> Result<Option<Names>, NoMemory>
    ensures { IfOk result (λ o. o ≡ Values.names most (view value.now)) }
{
    let Some(items) = value.as_array() else {
        return Ok(None);
    };
    match strings(alloc, items.as_slice())? {
        Some(names) if !names.is_empty() && names.len() <= most => Ok(Some(Names::from_vec(names))),
        _ => Ok(None),
    }
}

fn strings(alloc: Global, values: &[Value]) -> Result<Option<Vec<Text>>, NoMemory>
    ensures { IfOk result
        (λ o. option_map (λ v. v.items) o ≡ Values.strings (items_view values.now)) }
{
    let mut names = Vec::new(alloc);
    for value in values {
        match value.as_str() {
            Some(name) => names.push(Text::from_str(alloc, name)?)?,
            None => return Ok(None),
        }
    }
    Ok(Some(names))
}

// A table of strata's names and numbers of units.
pub(crate) fn quotas(alloc: Global, value: &Value) -> Result<Option<Quotas>, NoMemory>
    ensures value { IfOk result (λ o. o ≡ Values.quotas (view value.now)) }
    ensures ascending { IfOk result (λ o. IfSome o Ascend) }
{
    match value.as_table() {
        Some(table) => quotas_of(alloc, table),
        None => Ok(None),
    }
}

fn quotas_of(alloc: Global, table: &Table) -> Result<Option<Quotas>, NoMemory>
    ensures value { IfOk result (λ o. o ≡ Values.quotas_of (table_view table.now)) }
    ensures ascending { IfOk result (λ o. IfSome o Ascend) }
{
    let mut quotas = Vec::new(alloc);
    for (stratum, value) in table.iter() {
        match number(value) {
            Some(n) => quotas.push(Quota {
                stratum: Text::from_str(alloc, stratum.as_str())?,
                n,
            })?,
            None => return Ok(None),
        }
    }
    Ok(Some(Quotas::from_vec(quotas)))
}
