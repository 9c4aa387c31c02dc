// Items against the words of a line. Each function answers the number of the word after those that it compared, or 0 where one differs.
use crate::answer;
use log_item::{Command, EntryIndex, KeyValue, LogItem, LogItemContent, Op, Span};

// The word after k where it agrees.
pub(crate) fn after(agrees: bool, k: usize) -> usize {
    if agrees && k < 1000 { k + 1 } else { 0 }
}

pub(crate) fn number(line: &[u8], k: usize, n: u64) -> usize {
    if k == 0 {
        return 0;
    }
    after(answer::is_number(line, k, n), k)
}

fn text(line: &[u8], k: usize, word: &[u8]) -> usize {
    if k == 0 {
        return 0;
    }
    after(answer::is_word(line, k, word), k)
}

fn bytes(line: &[u8], k: usize, body: &[u8], span: Span) -> usize {
    if k == 0 {
        return 0;
    }
    after(answer::is_bytes(line, k, part(body, span)), k)
}

// The bytes of a span, or none where it lies outside.
fn part(body: &[u8], span: Span) -> &[u8] {
    match span.at.checked_add(span.len) {
        Some(end) => body.get(span.at..end).unwrap_or(&[]),
        None => &[],
    }
}

// Index, offset and length.
pub(crate) fn entry(line: &[u8], k: usize, row: EntryIndex) -> usize {
    let a = number(line, k, row.index);
    let b = number(line, a, u64::from(row.entry_offset));
    number(line, b, u64::from(row.entry_len))
}

// The item without its entries; an entries item ends with their number.
pub(crate) fn head(line: &[u8], k: usize, item: LogItem, body: &[u8]) -> usize {
    let next = number(line, k, item.raft_group_id);
    match item.content {
        LogItemContent::EntryIndexes(entries) => {
            let a = text(line, next, b"entries");
            number(line, a, entries.count as u64)
        }
        LogItemContent::Command(Command::Clean) => text(line, next, b"clean"),
        LogItemContent::Command(Command::Compact { index }) => {
            let a = text(line, next, b"compact");
            number(line, a, index)
        }
        LogItemContent::Kv(kv) => key_value(line, next, kv, body),
    }
}

fn key_value(line: &[u8], k: usize, kv: KeyValue, body: &[u8]) -> usize {
    match kv.op {
        Op::Put { value } => {
            let a = text(line, k, b"put");
            let b = bytes(line, a, body, kv.key);
            bytes(line, b, body, value)
        }
        Op::Del => {
            let a = text(line, k, b"del");
            bytes(line, a, body, kv.key)
        }
    }
}
