//! Replies by name, as a report has them.
ghost use Rattle.std.specs.Prelude.{◌≡◌, ◌++◌, flat_map, OnOk};
ghost use Rattle.dl_entry.specs.Counts.{count_of};
ghost use Rattle.dl_account.specs.Replies.{reply_line, reply_lines, word_of};

use crate::text::Text;
use dl_entry::{Counts, OutOfMemory, ReplyName};

// The names in the order of a report.
const IN_ORDER: [ReplyName; ReplyName::COUNT] = [
    ReplyName::Ran,
    ReplyName::Closed,
    ReplyName::Bounced,
    ReplyName::Waiting,
    ReplyName::Idle,
    ReplyName::Stopped,
    ReplyName::NothingRun,
    ReplyName::Granted,
    ReplyName::Piece,
    ReplyName::NotClosed,
    ReplyName::NotTurn,
    ReplyName::WindowFull,
    ReplyName::Denied,
    ReplyName::SphereBusy,
    ReplyName::Drained,
    ReplyName::Clean,
    ReplyName::Delivered,
    ReplyName::Squashed,
    ReplyName::Already,
    ReplyName::Retired,
    ReplyName::NotDone,
    ReplyName::NoCommit,
    ReplyName::Placed,
    ReplyName::Elsewhere,
    ReplyName::NoThread,
    ReplyName::Ended,
    ReplyName::Raised,
    ReplyName::Masked,
    ReplyName::NoHandler,
    ReplyName::FromLog,
    ReplyName::DmaDone,
    ReplyName::NoDma,
    ReplyName::Diverged,
];

// A line for each reply that was given.
pub(crate) fn put_replies(text: &mut Text, counts: &Counts) -> Result<(), OutOfMemory>
    ensures { OnOk result (text.new ≡ text.old ++ reply_lines counts.now) }
{
    put_each(text, counts, &IN_ORDER)
}

fn put_each(text: &mut Text, counts: &Counts, names: &[ReplyName]) -> Result<(), OutOfMemory>
    ensures { OnOk result (text.new ≡ text.old ++ flat_map (λ name. reply_line name (count_of counts.now name)) names.now) }
{
    for name in names {
        put_reply(text, *name, counts.of(*name))?;
    }
    Ok(())
}

fn put_reply(text: &mut Text, name: ReplyName, count: u64) -> Result<(), OutOfMemory>
    ensures { OnOk result (text.new ≡ text.old ++ reply_line name count) }
{
    if count == 0 {
        return Ok(());
    }
    text.put(b"r")?;
    text.put_word(word_of(name))?;
    text.put_number(count)?;
    text.put(b"\n")
}

// A reply without its operands.
fn word_of(name: ReplyName) -> &'static [u8]
    ensures { result.now ≡ word_of name }
{
    match name {
        ReplyName::Ran => b"Ran",
        ReplyName::Closed => b"Closed",
        ReplyName::Bounced => b"Bounced",
        ReplyName::Waiting => b"Waiting",
        ReplyName::Idle => b"Idle",
        ReplyName::Stopped => b"Stopped",
        ReplyName::NothingRun => b"NothingRun",
        ReplyName::Granted => b"Granted",
        ReplyName::Piece => b"Piece",
        ReplyName::NotClosed => b"NotClosed",
        ReplyName::NotTurn => b"NotTurn",
        ReplyName::WindowFull => b"WindowFull",
        ReplyName::Denied => b"Denied",
        ReplyName::SphereBusy => b"SphereBusy",
        ReplyName::Drained => b"Drained",
        ReplyName::Clean => b"Clean",
        ReplyName::Delivered => b"Delivered",
        ReplyName::Squashed => b"Squashed",
        ReplyName::Already => b"Already",
        ReplyName::Retired => b"Retired",
        ReplyName::NotDone => b"NotDone",
        ReplyName::NoCommit => b"NoCommit",
        ReplyName::Placed => b"Placed",
        ReplyName::Elsewhere => b"Elsewhere",
        ReplyName::NoThread => b"NoThread",
        ReplyName::Ended => b"Ended",
        ReplyName::Raised => b"Raised",
        ReplyName::Masked => b"Masked",
        ReplyName::NoHandler => b"NoHandler",
        ReplyName::FromLog => b"FromLog",
        ReplyName::DmaDone => b"DmaDone",
        ReplyName::NoDma => b"NoDma",
        ReplyName::Diverged => b"Diverged",
    }
}
