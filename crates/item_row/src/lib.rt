// An item as seven words: group, type, and five words by type and kind; an entry as three: index, offset, length. The layout is that of
// raft_log.h. And, in specs/, what a caller outside gets back.
#![tactic(auto)]

ghost use Rattle.std.specs.Prelude.{◌≡◌, ℕ, Result, Ok, get_or};
ghost use Rattle.log_item.specs.declared.LogItem.{LogItem};
ghost use Rattle.refusal.specs.declared.Reason.{Reason};
ghost use Rattle.item_row.specs.Row.{span_of, command_row, key_row, item_of_row, item_words, entry_words};

use log_item::{Command, EntryIndex, EntryIndexes, KeyValue, LogItem, LogItemContent, Op, Span};
use refusal::Reason;

// What can be written as an item: an item itself, or seven words that may spell one.
pub trait ItemRow {
    ghost spelled: { Self → Result LogItem Reason };

    // The item, or why there is none.
    fn item(&self) -> Result<LogItem, Reason>
        ensures { result ≡ spelled self.now };
}

impl ItemRow for LogItem {
    ghost spelled = { λ item. Ok item };

    fn item(&self) -> Result<LogItem, Reason> {
        Ok(*self)
    }
}

impl ItemRow for [u64; 7] {
    ghost spelled = { λ row. item_of_row row 0 };

    fn item(&self) -> Result<LogItem, Reason> {
        item_of(self)
    }
}

// What has the length of an entry: its row in a table, or three words.
pub trait EntryRow {
    ghost length: { Self → ℕ };

    fn entry_len(&self) -> u64
        ensures { result ≡ length self.now };
}

impl EntryRow for EntryIndex {
    ghost length = { λ row. row.entry_len };

    fn entry_len(&self) -> u64 {
        u64::from(self.entry_len)
    }
}

impl EntryRow for [u64; 3] {
    ghost length = { λ row. get_or row 2 0 };

    fn entry_len(&self) -> u64 {
        self[2]
    }
}

// The item of seven words, or why they spell none; those that it has no use for are not looked at.
#[tactic(auto, unfolding(crate::specs::Row::item_of_row, crate::specs::Row::row_item))]
pub fn item_of(row: &[u64; 7]) -> Result<LogItem, Reason>
    ensures { result ≡ item_of_row row.now 0 }
{
    let [group, item_type, kind, a, b, c, d] = *row;
    match item_type {
        1 => Ok(LogItem {
            raft_group_id: group,
            content: LogItemContent::EntryIndexes(EntryIndexes {
                count: a as usize,
                first_index: b,
            }),
        }),
        2 => command_of(group, kind, a),
        3 => key_of(group, kind, span(a, b), span(c, d)),
        _ => Err(Reason::ItemTypeUnknown),
    }
}

// 1 clean, 2 compact.
#[tactic(auto, unfolding(crate::specs::Row::command_row))]
fn command_of(group: u64, kind: u64, index: u64) -> Result<LogItem, Reason>
    ensures { result ≡ command_row group kind index }
{
    let command = match kind {
        1 => Command::Clean,
        2 => Command::Compact { index },
        _ => return Err(Reason::CommandUnknown),
    };
    Ok(LogItem {
        raft_group_id: group,
        content: LogItemContent::Command(command),
    })
}

// 1 put, 2 delete.
#[tactic(auto, unfolding(crate::specs::Row::key_row))]
fn key_of(group: u64, kind: u64, key: Span, value: Span) -> Result<LogItem, Reason>
    ensures { result ≡ key_row group kind key value }
{
    let op = match kind {
        1 => Op::Put { value },
        2 => Op::Del,
        _ => return Err(Reason::OpUnknown),
    };
    Ok(LogItem {
        raft_group_id: group,
        content: LogItemContent::Kv(KeyValue { key, op }),
    })
}

fn span(at: u64, len: u64) -> Span
    ensures { result ≡ span_of at len }
{
    Span {
        at: at as usize,
        len: len as usize,
    }
}

// Stores the seven words of an item as a row. Each kind stores its own: an array answered for all of them is slower.
#[tactic(auto, unfolding(crate::specs::Row::item_words, crate::specs::Row::content_words, crate::specs::Row::command_words, crate::specs::Row::key_words))]
pub fn store_words(item: LogItem, row: &mut [u64; 7])
    ensures { row.new ≡ item_words item }
{
    let group = item.raft_group_id;
    match item.content {
        LogItemContent::EntryIndexes(e) => {
            *row = [group, 1, 0, e.count as u64, e.first_index, 0, 0];
        }
        LogItemContent::Command(Command::Clean) => *row = [group, 2, 1, 0, 0, 0, 0],
        LogItemContent::Command(Command::Compact { index }) => *row = [group, 2, 2, index, 0, 0, 0],
        LogItemContent::Kv(kv) => {
            let (kind, value) = match kv.op {
                Op::Put { value } => (1, value),
                Op::Del => (2, Span { at: 0, len: 0 }),
            };
            *row = [
                group,
                3,
                kind,
                kv.key.at as u64,
                kv.key.len as u64,
                value.at as u64,
                value.len as u64,
            ];
        }
    }
}

// The three words of an entry.
#[tactic(auto, unfolding(crate::specs::Row::entry_words))]
pub fn entry_words_of(row: EntryIndex) -> [u64; 3]
    ensures { result ≡ entry_words row }
{
    [
        row.index,
        u64::from(row.entry_offset),
        u64::from(row.entry_len),
    ]
}
