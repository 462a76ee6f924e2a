//! A TOML document: its table, and what a table holds at its keys.
ghost use Rattle.std.specs.Prelude.{◌≡◌, Ok, IfOk, IfErr, option_map, option_copied, ok_or};
ghost use Rattle.dl_plan.specs.Keys.{number, text, optional_number, optional_text};
ghost use Rattle.dl_plan.specs.Plans.{document};
ghost use Rattle.dl_plan.specs.Refusal.{IsBroken};
ghost use Rattle.std.specs.Prelude.{Some};
ghost use Rattle.toml.specs.Data.{get_member};
ghost use Rattle.toml.specs.View.{view, table_view};

use crate::error::PlanError;
use std::alloc::Global;
use toml::{Table, Value};

/// The table of the document in `bytes`. Refused by rule 1 where they are no UTF-8 or no TOML.
pub(crate) fn read_document(alloc: Global, bytes: &[u8]) -> Result<Table, PlanError>
    ensures ok { IfOk result (λ t. document bytes.now ≡ Some (table_view t)) }
    ensures refused { IfErr result (IsBroken 1 (document bytes.now)) }
{
    match toml::table_from_slice(alloc, bytes) {
        Ok(table) => Ok(table),
        Err(error) if error.is_memory() => Err(PlanError::OutOfMemory),
        Err(_) => Err(PlanError::Refused(1)),
    }
}

/// The whole number at `key`.
pub(crate) fn number(table: &Table, key: &str) -> Option<i64>
    ensures { result ≡ number (table_view table.now) key.now }
{
    match value(table, key) {
        Some(value) => value.as_integer(),
        None => None,
    }
}

/// The text at `key`.
pub(crate) fn text<'a>(table: &'a Table, key: &str) -> Option<&'a str>
    ensures { option_copied result ≡ text (table_view table.now) key.now }
{
    match value(table, key) {
        Some(value) => value.as_str(),
        None => None,
    }
}

/// The whole number at a `key` that may be absent. `None` if a value of another type is there.
pub(crate) fn optional_number(table: &Table, key: &str) -> Option<Option<i64>>
    ensures { result ≡ optional_number (table_view table.now) key.now }
{
    match value(table, key) {
        Some(value) => match value.as_integer() {
            Some(number) => Some(Some(number)),
            None => None,
        },
        None => Some(None),
    }
}

/// The text at a `key` that may be absent. `None` if a value of another type is there.
pub(crate) fn optional_text<'a>(table: &'a Table, key: &str) -> Option<Option<&'a str>>
    ensures { option_map (λ t. option_copied t) result ≡ optional_text (table_view table.now) key.now }
{
    match value(table, key) {
        Some(value) => match value.as_str() {
            Some(text) => Some(Some(text)),
            None => None,
        },
        None => Some(None),
    }
}

/// The value at `key`.
pub(crate) fn value<'a>(table: &'a Table, key: &str) -> Option<&'a Value>
    ensures { option_map (λ v. view v.now) result ≡ get_member key.now (table_view table.now) }
{
    table.get(key)
}
