// A table changed by the edits that a line names, so that writers meet tables that no reading gives. An edit is a word, a row and a value:
//
//     items - N      the item count
//     rows - N       the entry count
//     length K N     the length in entry row K
//     unread K N     what no writer looks at: index and place in entry row K, and the table's entry total, places and refusal
//     first I N      the first index of item I, where it is of entries
//     count I N      the entry count of item I, likewise
//     place I N      where the key of item I stands, where it is a put or a delete
//     key I N        the length of that key
//     start I N      where the content of item I stands, where it is a put
//     value I N      the length of that content
use log_batch::LogItemBatch;
use log_item::{EntryIndex, EntryIndexes, KeyValue, LogItem, LogItemContent, Op, Span};
use refusal::Refusal;

// Up to three edits, from word 7 on.
pub(crate) fn edited(words: &[u8], table: LogItemBatch) -> LogItemBatch {
    let first = line::words_from(words, 7);
    let second = line::words_from(first, 3);
    let third = line::words_from(second, 3);
    edit(third, edit(second, edit(first, table)))
}

// The edit that the first three words name; none where there are no words.
fn edit(words: &[u8], table: LogItemBatch) -> LogItemBatch {
    let letter = line::first_letter(words);
    if letter == b' ' {
        return table;
    }
    make(
        letter,
        line::number(words, 1) as usize,
        line::number(words, 2),
        table,
    )
}

fn make(what: u8, row: usize, n: u64, table: LogItemBatch) -> LogItemBatch {
    match what {
        b'i' => items(table, n as usize),
        b'r' => rows(table, n as usize),
        b'l' => length(table, row, line::low(n)),
        b'u' => unread(table, row, line::low(n)),
        _ => item(table, what, row, n),
    }
}

fn items(table: LogItemBatch, n: usize) -> LogItemBatch {
    let mut t = table;
    t.item_count = n;
    t
}

fn rows(table: LogItemBatch, n: usize) -> LogItemBatch {
    let mut t = table;
    t.entry_count = n;
    t
}

fn length(table: LogItemBatch, k: usize, n: u32) -> LogItemBatch {
    let mut t = table;
    if k < 1024 {
        t.entries[k] = EntryIndex {
            entry_len: n,
            ..t.entries[k]
        };
    }
    t
}

fn unread(table: LogItemBatch, k: usize, n: u32) -> LogItemBatch {
    let mut t = table;
    let place = Span {
        at: n as usize,
        len: n as usize,
    };
    t.total = n;
    t.next = n as usize;
    t.body = place;
    t.block = place;
    t.refusal = Some(Refusal {
        number: n,
        item: n as usize,
    });
    if k < 1024 {
        t.entries[k] = EntryIndex {
            index: u64::from(n),
            entry_offset: n,
            ..t.entries[k]
        };
    }
    t
}

fn item(table: LogItemBatch, what: u8, i: usize, n: u64) -> LogItemBatch {
    let mut t = table;
    if i < 256 {
        let item = t.items[i];
        t.items[i] = LogItem {
            content: content_with(item.content, what, n),
            ..item
        };
    }
    t
}

fn content_with(content: LogItemContent, what: u8, n: u64) -> LogItemContent {
    match content {
        LogItemContent::EntryIndexes(entries) => {
            LogItemContent::EntryIndexes(entries_with(entries, what, n))
        }
        LogItemContent::Command(command) => LogItemContent::Command(command),
        LogItemContent::Kv(kv) => LogItemContent::Kv(key_with(kv, what, n as usize)),
    }
}

fn entries_with(entries: EntryIndexes, what: u8, n: u64) -> EntryIndexes {
    match what {
        b'f' => EntryIndexes {
            first_index: n,
            ..entries
        },
        b'c' => EntryIndexes {
            count: n as usize,
            ..entries
        },
        _ => entries,
    }
}

fn key_with(kv: KeyValue, what: u8, n: usize) -> KeyValue {
    match what {
        b'p' => KeyValue {
            key: Span { at: n, ..kv.key },
            ..kv
        },
        b'k' => KeyValue {
            key: Span { len: n, ..kv.key },
            ..kv
        },
        _ => KeyValue {
            op: op_with(kv.op, what, n),
            ..kv
        },
    }
}

fn op_with(op: Op, what: u8, n: usize) -> Op {
    match op {
        Op::Put { value } => Op::Put {
            value: span_with(value, what, n),
        },
        Op::Del => Op::Del,
    }
}

fn span_with(span: Span, what: u8, n: usize) -> Span {
    match what {
        b's' => Span { at: n, ..span },
        b'v' => Span { len: n, ..span },
        _ => span,
    }
}
