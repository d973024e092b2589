//! The keys of a design: which there can be, which are there, and the first that isn't known; and what `method` and
//! `second` say of the keys that are needed.

ghost use Rattle.std.specs.{Prelude.{◌≡◌, option_map, find, map, not, string_bytes}, List.Sorted.{IsStrictlySortedBy}, String.{string_cmp}};
ghost use Rattle.std.specs.{Option.{option_copied}, BTreeMap.{keys}};
ghost use Rattle.toml.specs.{Data.{get_member}, View.{view, table_view}};
ghost use Rattle.smp_design.specs.Keys;

use crate::method::Needs;
use crate::values::method;
use toml::{Table, Value};

// The keys of a design of version 1.
const KEYS_OF_VERSION_1: &[&str] = &[
    "version", "method", "id", "stratum", "size", "n", "sizes", "order", "balance", "near",
    "second",
];

// The keys of a design of version 2.
const KEYS_OF_VERSION_2: &[&str] = &[
    "version", "method", "id", "stratum", "size", "n", "sizes", "prob", "order", "balance", "near",
    "second",
];

// The keys of its table `second`.
pub(crate) const SECOND_KEYS: &[&str] = &["psu", "method", "n", "size"];

// The keys of a design of this version.
pub(crate) fn known_keys(version: u32) -> &'static [&'static str]
    ensures { map (λ k. k.now) result.now ≡ Keys.known_keys version }
{
    if version == 1 {
        KEYS_OF_VERSION_1
    } else {
        KEYS_OF_VERSION_2
    }
}

// The value at a key.
pub(crate) fn value_at<'a>(table: &'a Table, key: &str) -> Option<&'a Value>
    ensures { option_map (λ v. view v.now) result ≡ get_member key.now (table_view table.now) }
{
    table.get(key)
}

pub(crate) fn has(table: &Table, key: &str) -> bool
    ensures { result ≡ Keys.has key.now (table_view table.now) }
{
    value_at(table, key).is_some()
}

// The table `second`, where `second` is a table.
pub(crate) fn second_table(table: &Table) -> Option<&Table>
    ensures { option_map (λ t. table_view t.now) result ≡ Keys.second_table (table_view table.now) }
{
    value_at(table, "second")?.as_table()
}

// The columns of values that the method of a design of this version needs.
pub(crate) fn needs(table: &Table, version: u32) -> Needs
    ensures { result ≡ Keys.needs version (table_view table.now) }
{
    match value_at(table, "method").and_then(|value| method(value, version)) {
        Some(method) => method.row().needs,
        None => Needs::Nothing,
    }
}

// The first key of a table that isn't among the known ones.
pub(crate) fn unknown_key<'a>(table: &'a Table, known: &[&str]) -> Option<&'a String>
    ensures { let words = map (λ k. k.now) known.now in
        option_map (λ k. string_bytes k.now) result
        ≡ Keys.first_unknown words (table_view table.now) }
{
    find_unknown_key(table, known)
}

fn find_unknown_key<'a>(table: &'a Table, known: &[&str]) -> Option<&'a String>
    ensures found { let words = map (λ k. k.now) known.now in
        option_copied result
        ≡ find (λ k. not (Keys.is_among words (string_bytes k))) (keys table.now) }
    ensures ordered { IsStrictlySortedBy string_cmp (keys table.now) }
{
    table.keys().find(|key| !is_known(key.as_str(), known))
}

fn is_known(key: &str, known: &[&str]) -> bool
    ensures { result ≡ Keys.is_among (map (λ k. k.now) known.now) key.now }
{
    known.contains(&key)
}
