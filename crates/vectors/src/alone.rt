// One item written by itself at a place of a buffer of 32 bytes, and then its content by itself: the answer and the whole buffer.
use crate::text;
use log_item::{ItemWrote, LogItem, LogItemContent};
use refusal::Reason;
use std::io;

pub(crate) fn case(rt: &impl Print, line: &[u8]) -> io::Result<()> {
    let mut buf = [0u8; 64];
    let n = line::bytes(line, 8, &mut buf);
    let lent = line::number(line, 4) as usize;
    let Ok(read) = LogItem::decode(line::front(&buf, n), 0, 0, 0) else {
        return Ok(());
    };
    let item = read.value.item;
    let store = line::front(&buf, lent);
    let at = line::number(line, 2) as usize;
    whole(rt, line, item, store, at)?;
    piece(rt, line, item.content, store, at)
}

fn whole(rt: &impl Print, line: &[u8], item: LogItem, store: &[u8], at: usize) -> io::Result<()> {
    let mut out = [170u8; 32];
    let r = encode(line, item, store, &mut out, at);
    text::head(rt, line)?;
    match r {
        Ok(wrote) => text::numbers(rt, &[0, wrote.next as u64, u64::from(wrote.total)])?,
        Err(reason) => text::numbers(rt, &[u64::from(reason.number()), 0, 0])?,
    }
    text::bytes(rt, &out)?;
    text::end(rt)
}

// Writes the item with one length or two.
fn encode(
    line: &[u8],
    item: LogItem,
    store: &[u8],
    out: &mut [u8],
    at: usize,
) -> Result<ItemWrote, Reason> {
    let total = line::short(line, 3);
    let lengths = [line::short(line, 6), line::short(line, 7)];
    if line::number(line, 5) == 1 {
        item.encode(store, &lengths[..1], total, out, at)
    } else {
        item.encode(store, &lengths, total, out, at)
    }
}

fn piece(
    rt: &impl Print,
    line: &[u8],
    content: LogItemContent,
    store: &[u8],
    at: usize,
) -> io::Result<()> {
    let mut out = [170u8; 32];
    let r = content_alone(content, store, &mut out, at);
    text::start(rt, b"piece")?;
    text::word(rt, line::word(line, 1))?;
    match r {
        Ok(next) => text::numbers(rt, &[0, next as u64, 0])?,
        Err(reason) => text::numbers(rt, &[u64::from(reason.number()), 0, 0])?,
    }
    text::bytes(rt, &out)?;
    text::end(rt)
}

// Entries up to their tails, a command or a key.
fn content_alone(
    content: LogItemContent,
    store: &[u8],
    out: &mut [u8],
    at: usize,
) -> Result<usize, Reason> {
    match content {
        LogItemContent::EntryIndexes(entries) => entries.encode(out, at),
        LogItemContent::Command(command) => command.encode(out, at),
        LogItemContent::Kv(key) => key.encode(store, out, at),
    }
}
