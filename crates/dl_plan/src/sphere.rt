//! What the keys of a plan's sphere hold.
ghost use Rattle.std.specs.Prelude.{◌≡◌, option_map};
ghost use Rattle.dl_plan.specs.Entries.{sphere_of, sphere_in, role_named, mode_named, mode_at};
ghost use Rattle.dl_plan.specs.Views.{entry_view};
ghost use Rattle.toml.specs.View.{view, table_view};

use crate::document::{number, optional_number, optional_text, text};
use crate::plan::Mode;
use toml::{Table, Value};

/// A role without what it needs.
#[derive(Clone, Copy)]
pub(crate) enum RoleName {
    Plain,
    Record,
    Replay,
}

/// The values at a sphere's keys, not yet judged.
#[derive(Clone, Copy)]
pub(crate) struct SphereEntries<'a> {
    pub image: &'a str,
    pub memory: i64,
    pub role: RoleName,
    pub mode: Option<Mode>,
    pub version: Option<i64>,
    pub log: Option<&'a str>,
    pub strata: Option<&'a str>,
    pub from: Option<i64>,
    pub to: Option<i64>,
    pub epoch: Option<i64>,
    pub keep: Option<i64>,
    pub account: Option<&'a str>,
}

/// Reads a sphere, if the value is one.
pub(crate) fn read_sphere(value: &Value) -> Option<SphereEntries<'_>>
    ensures { option_map entry_view result ≡ sphere_in (view value.now) }
{
    match value.as_table() {
        Some(table) => read_keys(table),
        None => None,
    }
}

/// Reads a sphere's keys. `None` where a required one is not there, or one holds another kind of value.
fn read_keys(table: &Table) -> Option<SphereEntries<'_>>
    ensures { option_map entry_view result ≡ sphere_of (table_view table.now) }
{
    Some(SphereEntries {
        image: text(table, "image")?,
        memory: number(table, "memory")?,
        role: role_named(text(table, "role")?)?,
        mode: mode_at(table)?,
        version: optional_number(table, "version")?,
        log: optional_text(table, "log")?,
        strata: optional_text(table, "strata")?,
        from: optional_number(table, "from")?,
        to: optional_number(table, "to")?,
        epoch: optional_number(table, "epoch")?,
        keep: optional_number(table, "keep")?,
        account: optional_text(table, "account")?,
    })
}

/// The mode, if one is there. `None` where another kind of value is.
fn mode_at(table: &Table) -> Option<Option<Mode>>
    ensures { result ≡ mode_at (table_view table.now) }
{
    match optional_text(table, "mode")? {
        Some(name) => Some(Some(mode_named(name)?)),
        None => Some(None),
    }
}

fn role_named(name: &str) -> Option<RoleName>
    ensures { result ≡ role_named name.now }
{
    if name == "plain" {
        Some(RoleName::Plain)
    } else if name == "record" {
        Some(RoleName::Record)
    } else if name == "replay" {
        Some(RoleName::Replay)
    } else {
        None
    }
}

fn mode_named(name: &str) -> Option<Mode>
    ensures { result ≡ mode_named name.now }
{
    if name == "order-size" {
        Some(Mode::OrderSize)
    } else if name == "order-only" {
        Some(Mode::OrderOnly)
    } else if name == "picolog" {
        Some(Mode::Picolog)
    } else {
        None
    }
}
