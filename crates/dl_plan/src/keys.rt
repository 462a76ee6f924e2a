//! Whether a plan has no keys but its own.
ghost use Rattle.std.specs.Prelude.{◌≡◌};
ghost use Rattle.std.specs.List.{list_all};
ghost use Rattle.dl_plan.specs.Entries.{has_known_keys, has_sphere_keys, all_have_sphere_keys};
ghost use Rattle.dl_plan.specs.Keys.{list_of, has_only};
ghost use Rattle.dl_plan.specs.Views.{texts};
ghost use Rattle.toml.specs.View.{view, array_view, table_view};

use crate::document::value;
use crate::names::is_one_of;
use toml::value::Array;
use toml::{Table, Value};

/// The keys of a plan at the top.
const TOP_KEYS: [&str; 13] = [
    "cores",
    "chunk",
    "buffer",
    "window",
    "depth",
    "signature",
    "seed",
    "events",
    "script",
    "input",
    "console",
    "report",
    "sphere",
];

/// The keys of a sphere.
const SPHERE_KEYS: [&str; 12] = [
    "image", "memory", "role", "mode", "version", "log", "strata", "from", "to", "epoch", "keep",
    "account",
];

/// Whether each key is one of a plan, or of a sphere in its spheres.
pub(crate) fn has_known_keys(table: &Table) -> bool
    ensures { result ≡ has_known_keys (table_view table.now) }
{
    if !has_only(table, &TOP_KEYS) {
        return false;
    }
    match value(table, "sphere") {
        Some(value) => all_have_sphere_keys(value),
        None => true,
    }
}

/// Whether each table of the array has the keys of a sphere alone, if it is an array.
fn all_have_sphere_keys(value: &Value) -> bool
    ensures { result ≡ all_have_sphere_keys (view value.now) }
{
    match value.as_array() {
        Some(items) => each_has_sphere_keys(items),
        None => true,
    }
}

fn each_has_sphere_keys(items: &Array) -> bool
    ensures { result ≡ list_all has_sphere_keys (list_of (array_view items.now)) }
{
    items.iter().all(|item| has_sphere_keys(item))
}

/// Whether the value has the keys of a sphere alone, if it is a table.
fn has_sphere_keys(value: &Value) -> bool
    ensures { result ≡ has_sphere_keys (view value.now) }
{
    match value.as_table() {
        Some(table) => has_only(table, &SPHERE_KEYS),
        None => true,
    }
}

/// Whether the table has no key but these.
fn has_only(table: &Table, keys: &[&str]) -> bool
    ensures { result ≡ has_only (texts keys.now) (table_view table.now) }
{
    table.keys().all(|key| is_one_of(keys, key.as_str()))
}
