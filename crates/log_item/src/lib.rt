// One item of a log batch: its types, reading it at a place of a lent body, and writing it at a place of a lent buffer. From log_batch.rs,
// EntryIndexes to LogItem.
//
// Every public function takes any arguments: a place may lie anywhere, past the end too. A refusal says why.
#![tactic(auto)]

mod entries;
mod keys;
mod measuring;
mod pass;
mod piece;
mod prefix;
mod refusing;
mod writing;

ghost use Rattle.std.specs.Prelude.{◌≡◌};
ghost use Rattle.words.specs.Got.{got_of};
ghost use Rattle.log_item.specs.Entries.{entries_of};
ghost use Rattle.log_item.specs.Reading.{command, entry_indexes, content, head, tail};
ghost use Rattle.log_item.specs.Answers.{counted_item};

use entries::{as_tail, read_count, read_first_index, skip_tails};
pub use piece::read_number;
use piece::{read_byte, read_number_in};
pub use prefix::{INTERNAL_KEY_PREFIX, lies_in, starts_with};
use refusal::Reason;
use words::Piece;

// How many entries a batch may have.
pub(crate) const ENTRIES_MAX: usize = 1024;

// Where bytes stand in the body.
#[derive(Clone, Copy, Debug, PartialEq, Eq)]
pub struct Span {
    pub at: usize,
    pub len: usize,
}

// Which spellings of a number are taken: any permitted one, or the shortest alone.
#[derive(Clone, Copy, Debug, PartialEq, Eq)]
pub enum Form {
    Any,
    Plain,
}

// A group's log is cleaned, or compacted up to an index.
#[derive(Clone, Copy, Debug, PartialEq, Eq)]
pub enum Command {
    Clean,
    Compact { index: u64 },
}

// What is done with a key. A delete has no content.
#[derive(Clone, Copy, Debug, PartialEq, Eq)]
pub enum Op {
    Put { value: Span },
    Del,
}

#[derive(Clone, Copy, Debug, PartialEq, Eq)]
pub struct KeyValue {
    pub key: Span,
    pub op: Op,
}

// How many entries, and the index of the first (0 where there is none). The rows follow in the body as tails.
#[derive(Clone, Copy, Debug, PartialEq, Eq)]
pub struct EntryIndexes {
    pub count: usize,
    pub first_index: u64,
}

#[derive(Clone, Copy, Debug, PartialEq, Eq)]
pub enum LogItemContent {
    EntryIndexes(EntryIndexes),
    Command(Command),
    Kv(KeyValue),
}

#[derive(Clone, Copy, Debug, PartialEq, Eq)]
pub struct LogItem {
    pub raft_group_id: u64,
    pub content: LogItemContent,
}

// One entry: its index, and where its bytes stand in the block's content.
#[derive(Clone, Copy, Debug, PartialEq, Eq)]
pub struct EntryIndex {
    pub index: u64,
    pub entry_offset: u32,
    pub entry_len: u32,
}

// An item, the place of its tails, and the total and the number of entries after it.
#[derive(Clone, Copy, Debug, PartialEq, Eq)]
pub struct ItemRead {
    pub item: LogItem,
    pub tails: usize,
    pub total: u32,
    pub used: usize,
}

// The total and the number of entries after an item.
#[derive(Clone, Copy, Debug, PartialEq, Eq)]
pub struct Passed {
    pub total: u32,
    pub used: usize,
}

// Why an item is not gone over: it is refused; or, where shortest numbers are asked for, one is padded.
#[derive(Clone, Copy, Debug, PartialEq, Eq)]
pub enum NotPassed {
    Padded,
    Refused(Reason),
}

// The length of an item up to its tails, where all above 4,294,967,295 count as one more than that, and how many rows it uses.
#[derive(Clone, Copy, Debug, PartialEq, Eq)]
pub struct HeadSize {
    pub len: usize,
    pub count: usize,
}

// The place after an item that was written, and the total after it.
#[derive(Clone, Copy, Debug, PartialEq, Eq)]
pub struct ItemWrote {
    pub next: usize,
    pub total: u32,
}

impl LogItem {
    // The item at a place, with `total` bytes of entries and `used` entries before it in the batch. It stores no rows: they can be
    // read from its tails.
    #[tactic(auto, unfolding(crate::specs::Answers::counted_item))]
    pub fn decode(buf: &[u8], at: usize, total: u32, used: usize) -> Result<Piece<ItemRead>, Reason>
        ensures { got_of result ≡ counted_item Form.Any buf.now used total at }
    {
        let Piece {
            value: item,
            next: tails,
        } = LogItem::decode_head(buf, at, used)?;
        let count = item.entries().count;
        let last = skip_tails(buf, tails, count, total, Form::Any)?;
        Ok(Piece {
            value: ItemRead {
                item,
                tails,
                total: last.value,
                used: used + count,
            },
            next: last.next,
        })
    }

    // The item at a place up to its tails, with `used` entries before it in the batch.
    #[tactic(auto, unfolding(crate::specs::Reading::head))]
    pub fn decode_head(buf: &[u8], at: usize, used: usize) -> Result<Piece<LogItem>, Reason>
        ensures { got_of result ≡ head Form.Any buf.now used at }
    {
        let group = read_number(buf, at)?;
        let kind = read_byte(buf, group.next)?;
        let content = read_content(buf, kind.next, used, kind.value)?;
        Ok(Piece {
            value: LogItem {
                raft_group_id: group.value,
                content: content.value,
            },
            next: content.next,
        })
    }

    // The entries that the item states: none where it is a command or a key.
    pub fn entries(self) -> EntryIndexes
        ensures { result ≡ entries_of self.content }
    {
        match self.content {
            LogItemContent::EntryIndexes(entries) => entries,
            LogItemContent::Command(_) | LogItemContent::Kv(_) => EntryIndexes {
                count: 0,
                first_index: 0,
            },
        }
    }
}

impl EntryIndexes {
    // The tail at a place, with the total `before` it.
    #[tactic(auto, unfolding(crate::specs::Reading::tail, crate::specs::Passing::as_tail))]
    pub fn decode_tail(buf: &[u8], at: usize, before: u32) -> Result<Piece<u32>, Reason>
        ensures { got_of result ≡ tail Form.Any buf.now before at }
    {
        as_tail(read_number(buf, at)?, before)
    }

    // A count of entries, with `used` before them in the batch, and their first index.
    #[tactic(auto, unfolding(crate::specs::Reading::entry_indexes))]
    fn decode(buf: &[u8], at: usize, used: usize) -> Result<Piece<EntryIndexes>, Reason>
        ensures { got_of result ≡ entry_indexes Form.Any buf.now used at }
    {
        let count = read_count(buf, at, used, Form::Any)?;
        read_first_index(buf, count.next, count.value, Form::Any)
    }
}

impl Command {
    #[tactic(auto, unfolding(crate::specs::Reading::command))]
    pub(crate) fn decode(buf: &[u8], at: usize, form: Form) -> Result<Piece<Command>, Reason>
        ensures { got_of result ≡ command form buf.now at }
    {
        let kind = read_byte(buf, at)?;
        match kind.value {
            1 => Ok(Piece {
                value: Command::Clean,
                next: kind.next,
            }),
            2 => {
                let index = read_number_in(buf, kind.next, form)?;
                Ok(Piece {
                    value: Command::Compact { index: index.value },
                    next: index.next,
                })
            }
            _ => Err(Reason::CommandUnknown),
        }
    }
}

// The content of an item of a type.
#[tactic(auto, unfolding(crate::specs::Reading::content))]
fn read_content(
    buf: &[u8],
    at: usize,
    used: usize,
    kind: u8,
) -> Result<Piece<LogItemContent>, Reason>
    ensures { got_of result ≡ content Form.Any buf.now used kind at }
{
    match kind {
        1 => {
            let entries = EntryIndexes::decode(buf, at, used)?;
            Ok(Piece {
                value: LogItemContent::EntryIndexes(entries.value),
                next: entries.next,
            })
        }
        2 => {
            let command = Command::decode(buf, at, Form::Any)?;
            Ok(Piece {
                value: LogItemContent::Command(command.value),
                next: command.next,
            })
        }
        3 => {
            let key = KeyValue::decode(buf, at, Form::Any)?;
            Ok(Piece {
                value: LogItemContent::Kv(key.value),
                next: key.next,
            })
        }
        _ => Err(Reason::ItemTypeUnknown),
    }
}
