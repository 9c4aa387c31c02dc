// Single items, bodies read into a table, and bodies written from one.
use crate::{answer, items};
use log_batch::LogItemBatch;
use log_item::{EntryIndex, EntryIndexes, LogItem};

// one NAME TOTAL BYTES = NEXT TOTAL ITEM
pub(crate) fn one(line: &[u8]) -> bool {
    let mut buf = [0u8; 512];
    let n = line::bytes(line, 3, &mut buf);
    let total = line::short(line, 2);
    let bytes = line::front(&buf, n);
    match LogItem::decode(bytes, 0, total, 0) {
        Ok(read) => {
            let got = read.value;
            let a = items::number(line, 5, read.next as u64);
            let b = items::number(line, a, u64::from(got.total));
            let c = items::head(line, b, got.item, bytes);
            0 < tails(line, c, bytes, got.tails, total, got.item.entries())
        }
        Err(reason) => answer::is_refused(line, 5, reason.number()),
    }
}

fn tails(
    line: &[u8],
    k: usize,
    bytes: &[u8],
    start: usize,
    before: u32,
    entries: EntryIndexes,
) -> usize {
    let mut word = k;
    let mut at = start;
    let mut total = before;
    let mut index = entries.first_index;
    for _ in 0..entries.count {
        let Ok(tail) = EntryIndexes::decode_tail(bytes, at, total) else {
            return 0;
        };
        let Some(entry_len) = tail.value.checked_sub(total) else {
            return 0;
        };
        let row = EntryIndex {
            index,
            entry_offset: total,
            entry_len,
        };
        word = items::entry(line, word, row);
        total = tail.value;
        at = tail.next;
        index = index.wrapping_add(1);
    }
    word
}

// items NAME SIGNATURE BYTES = COUNT ITEM.., the footer put behind it here; footed: with its footer
pub(crate) fn read(line: &[u8]) -> bool {
    let mut buf = [0u8; 1024];
    let signature = line::short(line, 2);
    let len = line::bytes(line, 3, &mut buf);
    let footed = list_writer::write_footer(signature, &mut buf, 0, len);
    let n = if line::first_letter(line) == b'i' {
        footed
    } else {
        len
    };
    let bytes = line::front(&buf, n);
    table_agrees(line, LogItemBatch::decode(bytes, signature), bytes)
}

fn table_agrees(line: &[u8], table: LogItemBatch, bytes: &[u8]) -> bool {
    if let Some(why) = table.refusal {
        return answer::is_refused(line, 5, why.number);
    }
    let k = items::number(line, 5, table.item_count as u64);
    let end = rows(line, k, table, bytes);
    end != 0 && line::word(line, end).is_empty()
}

// All items, each with its entries.
fn rows(line: &[u8], k: usize, table: LogItemBatch, bytes: &[u8]) -> usize {
    let mut word = k;
    let mut used: usize = 0;
    for item in &table.items[..table.item_count.min(256)] {
        word = items::head(line, word, *item, bytes);
        let end = used.saturating_add(item.entries().count);
        if 1024 < end {
            return 0;
        }
        for row in &table.entries[used..end] {
            word = items::entry(line, word, *row);
        }
        used = end;
    }
    word
}

// body NAME SIGNATURE BYTES = WRITTEN
pub(crate) fn written(line: &[u8]) -> bool {
    let mut buf = [0u8; 512];
    let mut out = [0u8; 512];
    let n = line::bytes(line, 3, &mut buf);
    let bytes = line::front(&buf, n);
    let table = log_batch::read_items(bytes);
    if table.refusal.is_some() {
        return false;
    }
    match table.encode_unchecked(bytes, line::short(line, 2), &mut out) {
        Ok(length) => answer::is_bytes(line, 5, line::front(&out, length)),
        Err(why) => answer::is_refused(line, 5, why.number),
    }
}
