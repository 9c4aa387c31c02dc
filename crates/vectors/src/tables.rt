// The line of a table: its counts, the entry total, the place after the last item, the spans of body and block, items and entries. A
// refused one has its refusal first, and no rows.
use crate::text;
use log_batch::LogItemBatch;
use log_item::{Command, EntryIndex, LogItem, LogItemContent, Op, Span};
use std::io;

pub(crate) fn line(
    rt: &impl Print,
    start: &[u8],
    name: &[u8],
    table: LogItemBatch,
) -> io::Result<()> {
    match table.refusal {
        None => {
            text::start(rt, start)?;
            text::word(rt, name)?;
            counts(rt, table)?;
            rows(rt, table)?;
        }
        Some(why) => {
            text::start(rt, b"refused")?;
            text::word(rt, name)?;
            text::refusal(rt, why)?;
            counts(rt, table)?;
        }
    }
    text::end(rt)
}

// All rows where they are few, else the last alone.
fn rows(rt: &impl Print, table: LogItemBatch) -> io::Result<()> {
    let items = &table.items[..table.item_count.min(256)];
    for row in &items[first_shown(items.len())..] {
        item(rt, *row)?;
    }
    let entries = &table.entries[..table.entry_count.min(1024)];
    for row in &entries[first_shown(entries.len())..] {
        entry(rt, *row)?;
    }
    Ok(())
}

ghost use Rattle.std.specs.Prelude.{◌≤◌};

fn first_shown(count: usize) -> usize
    ensures { result ≤ count }
{
    if count <= 8 { 0 } else { count - 1 }
}

fn counts(rt: &impl Print, table: LogItemBatch) -> io::Result<()> {
    let counts = [
        table.item_count as u64,
        table.entry_count as u64,
        u64::from(table.total),
        table.next as u64,
    ];
    text::numbers(rt, &counts)?;
    span(rt, table.body)?;
    span(rt, table.block)
}

fn span(rt: &impl Print, span: Span) -> io::Result<()> {
    text::numbers(rt, &[span.at as u64, span.len as u64])
}

pub(crate) fn entry(rt: &impl Print, row: EntryIndex) -> io::Result<()> {
    text::word(rt, b":")?;
    text::numbers(
        rt,
        &[
            row.index,
            u64::from(row.entry_offset),
            u64::from(row.entry_len),
        ],
    )
}

pub(crate) fn item(rt: &impl Print, item: LogItem) -> io::Result<()> {
    text::word(rt, b"|")?;
    text::number(rt, item.raft_group_id)?;
    match item.content {
        LogItemContent::EntryIndexes(entries) => {
            text::word(rt, b"entries")?;
            text::numbers(rt, &[entries.count as u64, entries.first_index])
        }
        LogItemContent::Command(Command::Clean) => text::word(rt, b"clean"),
        LogItemContent::Command(Command::Compact { index }) => {
            text::word(rt, b"compact")?;
            text::number(rt, index)
        }
        LogItemContent::Kv(kv) => match kv.op {
            Op::Put { value } => {
                text::word(rt, b"put")?;
                span(rt, kv.key)?;
                span(rt, value)
            }
            Op::Del => {
                text::word(rt, b"del")?;
                span(rt, kv.key)
            }
        },
    }
}
