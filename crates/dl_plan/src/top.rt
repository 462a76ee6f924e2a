//! What a plan's top keys hold, except for its spheres.
ghost use Rattle.std.specs.Prelude.{◌≡◌, option_map};
ghost use Rattle.dl_plan.specs.Entries.{top_of};
ghost use Rattle.dl_plan.specs.Views.{top_view};
ghost use Rattle.toml.specs.View.{table_view};

use crate::document::{number, optional_number, optional_text};
use toml::Table;

/// The values at a plan's top keys, not yet judged.
#[derive(Clone, Copy)]
pub(crate) struct TopEntries<'a> {
    pub cores: i64,
    pub chunk: i64,
    pub buffer: i64,
    pub window: i64,
    pub depth: Option<i64>,
    pub signature: i64,
    pub seed: Option<i64>,
    pub events: Option<i64>,
    pub script: Option<&'a str>,
    pub input: Option<&'a str>,
    pub console: Option<&'a str>,
    pub report: Option<&'a str>,
}

/// Reads the top keys. `None` where a required one is not there, or one holds a value of another type.
pub(crate) fn read_top(table: &Table) -> Option<TopEntries<'_>>
    ensures { option_map top_view result ≡ top_of (table_view table.now) }
{
    Some(TopEntries {
        cores: number(table, "cores")?,
        chunk: number(table, "chunk")?,
        buffer: number(table, "buffer")?,
        window: number(table, "window")?,
        depth: optional_number(table, "depth")?,
        signature: number(table, "signature")?,
        seed: optional_number(table, "seed")?,
        events: optional_number(table, "events")?,
        script: optional_text(table, "script")?,
        input: optional_text(table, "input")?,
        console: optional_text(table, "console")?,
        report: optional_text(table, "report")?,
    })
}
