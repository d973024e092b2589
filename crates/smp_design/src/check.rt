//! The checks of a design's keys, each with its fault.

ghost use Rattle.std.specs.Prelude.{◌≡◌, ◌++◌, IfOk, option_map, codes};
ghost use Rattle.toml.specs.View.{table_view};
ghost use Rattle.smp_design.specs.Keys;
ghost use Rattle.smp_frac.specs.{Faults.{or_fault}, Memory.{Reads}};
ghost use Rattle.smp_design.specs.Faults.{is_memory, none_found};
ghost use Rattle.smp_design.specs.declared.fault.DesignFault.TheVariants as fault;

use crate::keys::{SECOND_KEYS, has, known_keys, needs, second_table, unknown_key, value_at};
use crate::values::version;
use crate::{DesignFault, Method};
use smp_frac::{NoMemory, Text};
use std::alloc::Global;
use toml::Table;

// The version of the design.
pub(crate) fn version_of(table: &Table) -> Result<u32, DesignFault>
    ensures { Reads is_memory result
        (or_fault fault.Version (Keys.version_of (table_view table.now))) }
{
    match value_at(table, "version").and_then(version) {
        Some(version) => Ok(version),
        None => Err(DesignFault::Version),
    }
}

// Every key of a design of this version, and of its table `second`, is a known one.
pub(crate) fn check_known(alloc: Global, table: &Table, version: u32) -> Result<(), DesignFault>
    ensures { Reads is_memory result (none_found fault.UnknownKey
        (Keys.unknown_key version (table_view table.now))) }
{
    match unknown_name(alloc, table, version)? {
        Some(name) => Err(DesignFault::UnknownKey { name }),
        None => Ok(()),
    }
}

#[tactic(auto, unfolding(crate::specs::Keys::unknown_key))]
fn unknown_name(alloc: Global, table: &Table, version: u32) -> Result<Option<Text>, NoMemory>
    ensures { IfOk result (λ o. o ≡ Keys.unknown_key version (table_view table.now)) }
{
    if let Some(key) = unknown_key(table, known_keys(version)) {
        return Ok(Some(Text::from_str(alloc, key.as_str())?));
    }
    let Some(second) = second_table(table) else {
        return Ok(None);
    };
    match unknown_key(second, SECOND_KEYS) {
        Some(key) => Ok(Some(name_in_second(alloc, key.as_str())?)),
        None => Ok(None),
    }
}

// The name of a key of the table `second`.
fn name_in_second(alloc: Global, key: &str) -> Result<Text, NoMemory>
    ensures { IfOk result (λ t. t ≡ codes "second." ++ key.now) }
{
    let mut name = String::from_str(alloc, "second.")?;
    name.push_str(key)?;
    Text::from_str(alloc, name.as_str())
}

// Every key that a design of this version needs is there.
pub(crate) fn check_needed(alloc: Global, table: &Table, version: u32) -> Result<(), DesignFault>
    ensures { Reads is_memory result (none_found fault.MissingKey
        (Keys.missing_key version (table_view table.now))) }
{
    match missing_key(table, version) {
        Some(key) => Err(DesignFault::MissingKey {
            name: Text::from_str(alloc, key)?,
        }),
        None => Ok(()),
    }
}

#[tactic(auto, unfolding(crate::specs::Keys::missing_key))]
fn missing_key(table: &Table, version: u32) -> Option<&'static str>
    ensures { option_map (λ k. k.now) result ≡ Keys.missing_key version (table_view table.now) }
{
    let needs = needs(table, version);
    let second = second_table(table);
    if !has(table, "method") {
        Some("method")
    } else if !has(table, "id") {
        Some("id")
    } else if !has(table, "n") && !has(table, "sizes") && !has(table, "prob") {
        Some("n")
    } else if needs.is_balance() && !has(table, "balance") {
        Some("balance")
    } else if needs.is_near() && !has(table, "near") {
        Some("near")
    } else if lacks(second, "psu") {
        Some("second.psu")
    } else if lacks(second, "method") {
        Some("second.method")
    } else if lacks(second, "n") {
        Some("second.n")
    } else {
        None
    }
}

// The table is there, and has no such key.
fn lacks(table: Option<&Table>, key: &str) -> bool
    ensures { result ≡ Keys.table_lacks key.now (option_map (λ t. table_view t.now) table.entry) }
{
    table.is_some_and(|table| !has(table, key))
}

// The keys of a design with this method go together.
pub(crate) fn check_clash(alloc: Global, table: &Table, method: Method) -> Result<(), DesignFault>
    ensures { Reads is_memory result (none_found (λ keys. fault.Clash keys.0 keys.1)
        (Keys.clash (table_view table.now) method)) }
{
    match clash(table, method) {
        Some((first, second)) => Err(DesignFault::Clash {
            first: Text::from_str(alloc, first)?,
            second: Text::from_str(alloc, second)?,
        }),
        None => Ok(()),
    }
}

// The first two rival keys that are both there.
#[tactic(auto, unfolding(crate::specs::Keys::rival_keys))]
fn rival_keys(table: &Table) -> Option<(&'static str, &'static str)>
    ensures { option_map (λ k. (k.0.now, k.1.now)) result ≡ Keys.rival_keys (table_view table.now) }
{
    if has(table, "n") && has(table, "sizes") {
        Some(("n", "sizes"))
    } else if has(table, "n") && has(table, "prob") {
        Some(("n", "prob"))
    } else if has(table, "sizes") && has(table, "prob") {
        Some(("sizes", "prob"))
    } else if has(table, "size") && has(table, "prob") {
        Some(("size", "prob"))
    } else if has(table, "prob") && has(table, "second") {
        Some(("prob", "second"))
    } else {
        None
    }
}

#[tactic(auto, unfolding(crate::specs::Keys::clash))]
fn clash(table: &Table, method: Method) -> Option<(&'static str, &'static str)>
    ensures { option_map (λ k. (k.0.now, k.1.now)) result
        ≡ Keys.clash (table_view table.now) method }
{
    if let Some(keys) = rival_keys(table) {
        return Some(keys);
    }
    let row = method.row();
    if has(table, "sizes") && !has(table, "stratum") {
        Some(("sizes", "stratum"))
    } else if has(table, "order") && !row.takes_order {
        Some(("order", "method"))
    } else if has(table, "balance") && !row.needs.is_balance() {
        Some(("balance", "method"))
    } else if has(table, "near") && !row.needs.is_near() {
        Some(("near", "method"))
    } else if has(table, "second") && !row.takes_second() {
        Some(("second", "method"))
    } else {
        None
    }
}
